//! From indices back to colors.
ghost use Rattle.std.specs.Prelude.{◌≡◌, length, true, false};
ghost use Rattle.pix_table.specs.packing.LookUp.{AreCounted, AreLookedUp, all_below};

/// Returns whether each index is below the number of entries.
pub fn are_below(count: usize, indices: &[u8]) -> bool
    ensures { result ≡ all_below count indices.now }
{
    for i in 0..indices.len() {
        if usize::from(indices[i]) >= count {
            return false;
        }
    }
    true
}

/// Sets the color of each place to the entry of the index at that place. Returns whether each index
/// has an entry, and changes nothing where one has none.
///
/// Condition: there are as many colors as indices.
pub fn look_up<C: Copy>(entries: &[C], indices: &[u8], colors: &mut [C]) -> bool
    requires { length colors.old ≡ length indices.now }
    ensures inside { result ≡ all_below (length entries.now) indices.now }
    ensures found { result ≡ true → AreLookedUp entries.now indices.now colors.new }
    ensures unchanged { result ≡ false → colors.new ≡ colors.old }
{
    if !are_below(entries.len(), indices) {
        return false;
    }
    for k in 0..indices.len() {
        colors[k] = entries[usize::from(indices[k])];
    }
    true
}

/// Sets the count of each number to how often it stands among the indices. Returns whether each
/// index has a count, and changes nothing where one has none.
pub fn count_indices(indices: &[u8], counts: &mut [usize]) -> bool
    ensures inside { result ≡ all_below (length counts.old) indices.now }
    ensures counted { result ≡ true → AreCounted (length counts.old) indices.now counts.new }
    ensures unchanged { result ≡ false → counts.new ≡ counts.old }
{
    if !are_below(counts.len(), indices) {
        return false;
    }
    for k in 0..counts.len() {
        counts[k] = 0;
    }
    for i in 0..indices.len() {
        counts[usize::from(indices[i])] += 1;
    }
    true
}
