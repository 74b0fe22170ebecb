//! Indices of 1, 2, 4 or 8 bits in the bytes of a row, most significant first.
ghost use Rattle.std.specs.Prelude.{◌≡◌, ℕ, ◌+◌, ◌^◌, ◌<◌, ◌≤◌, ◌%◌, List, length, slice_index, Some, None, MatchResult, IfOk, IfErr, true};
ghost use Rattle.pix_table.specs.packing.LookUp.{all_below};
ghost use Rattle.pix_table.specs.packing.Packing.{bits, places, place, row_size, pack_fault, unpack_fault};
ghost use Rattle.pix_table.specs.packing.Packing.{ArePacked, AreUnpacked};
ghost use Rattle.pix_table.specs.declared.packing.row.IndexDepth.TheVariants.{One, Two, Four};

use crate::packing::look::are_below;
use thiserror::Error;

/// How many bits an index takes in a row of bytes.
#[derive(Clone, Copy, Debug, PartialEq, Eq)]
pub enum IndexDepth {
    /// One bit, for the indices 0 and 1.
    One,
    /// Two bits, for the indices up to 3.
    Two,
    /// Four bits, for the indices up to 15.
    Four,
    /// Eight bits, for all indices.
    Eight,
}

/// Why a row was not packed, or not unpacked.
#[derive(Clone, Copy, Debug, PartialEq, Eq, Error)]
pub enum RowFault {
    /// There are not as many bytes as the row takes.
    #[error("Row has wrong length")]
    Length,
    /// An index takes more bits than it may.
    #[error("Row index too big")]
    Index,
}

impl IndexDepth {
    /// Returns how many indices a byte holds.
    pub fn places(self) -> usize
        ensures { result ≡ places self }
    {
        match self {
            IndexDepth::One => 8,
            IndexDepth::Two => 4,
            IndexDepth::Four => 2,
            IndexDepth::Eight => 1,
        }
    }

    /// Returns how many indices there are: 2, 4, 16 or 256.
    pub fn numbers(self) -> usize
        ensures { result ≡ 2 ^ bits self }
    {
        match self {
            IndexDepth::One => 2,
            IndexDepth::Two => 4,
            IndexDepth::Four => 16,
            IndexDepth::Eight => 256,
        }
    }

    /// Returns how many bytes a row of this many indices takes.
    pub fn row_size(self, count: usize) -> usize
        ensures { result ≡ row_size self count }
    {
        count.div_ceil(self.places())
    }

    /// Returns the number that the bits of place `t` of a byte spell; place 0 has the most
    /// significant. Condition: the byte has such a place.
    fn place(self, byte: u8, t: usize) -> u8
        requires { t < places self }
        ensures { result ≡ place self byte t }
    {
        match self {
            IndexDepth::One => (byte >> (7 - t)) % 2,
            IndexDepth::Two => (byte >> (6 - 2 * t)) % 4,
            IndexDepth::Four => (byte >> (4 - 4 * t)) % 16,
            IndexDepth::Eight => byte,
        }
    }
}

/// Packs a row of indices into the bytes of a row, in order. Within a byte the first index is in
/// the most significant bits. The bits that are left over in the last byte are 0.
///
/// # Errors
///
/// `Length` where there are not as many bytes as the row takes. Else `Index` where an index takes
/// more bits. The bytes are unchanged.
pub fn pack_row(depth: IndexDepth, indices: &[u8], bytes: &mut [u8]) -> Result<(), RowFault>
    ensures refused { MatchResult result
        (λ _. pack_fault depth indices.now (length bytes.old) ≡ None)
        (λ fault. pack_fault depth indices.now (length bytes.old) ≡ Some fault) }
    ensures packed { IfOk result (λ _. ArePacked depth indices.now bytes.new) }
    ensures unchanged { IfErr result (λ _. bytes.new ≡ bytes.old) }
{
    if bytes.len() != depth.row_size(indices.len()) {
        return Err(RowFault::Length);
    }
    if !are_below(depth.numbers(), indices) {
        return Err(RowFault::Index);
    }
    let places = depth.places();
    for j in 0..bytes.len() {
        bytes[j] = packed(depth, indices, j * places);
    }
    Ok(())
}

/// Unpacks the indices of a row from its bytes.
///
/// # Errors
///
/// `Length` where there are not as many bytes as the row takes. The indices are unchanged.
pub fn unpack_row(depth: IndexDepth, bytes: &[u8], indices: &mut [u8]) -> Result<(), RowFault>
    ensures refused { MatchResult result
        (λ _. unpack_fault depth (length bytes.now) (length indices.old) ≡ None)
        (λ fault. unpack_fault depth (length bytes.now) (length indices.old) ≡ Some fault) }
    ensures unpacked { IfOk result (λ _. AreUnpacked depth bytes.now indices.new) }

    // A row that was packed comes back.
    ensures back { IfOk result (λ _. (row : List ℕ) → ArePacked depth row bytes.now
        → length row ≡ length indices.new → indices.new ≡ row) }
    ensures unchanged { IfErr result (λ _. indices.new ≡ indices.old) }
{
    if bytes.len() != depth.row_size(indices.len()) {
        return Err(RowFault::Length);
    }
    let places = depth.places();
    for i in 0..indices.len() {
        indices[i] = depth.place(bytes[i / places], i % places);
    }
    Ok(())
}

/// Returns the byte whose places hold the indices from `first` on, and 0 past the end.
fn packed(depth: IndexDepth, indices: &[u8], first: usize) -> u8
    requires inside { first ≤ length indices.now }
    requires below { all_below (2 ^ bits depth) indices.now ≡ true }
    ensures { (t : ℕ) → t < places depth
        → place depth result t ≡ slice_index indices.now (first + t) }
{
    match depth {
        IndexDepth::One => eight(indices, first),
        IndexDepth::Two => four(indices, first),
        IndexDepth::Four => two(indices, first),
        IndexDepth::Eight => *indices.get(first).unwrap_or(&0),
    }
}

/// Returns the index of a place, or 0 past the end, as a number below `numbers`.
fn index_at(indices: &[u8], at: usize, numbers: u8) -> u8
    requires { 0 < numbers }
    ensures { result ≡ slice_index indices.now at % numbers }
{
    *indices.get(at).unwrap_or(&0) % numbers
}

/// Returns the byte of eight indices of one bit.
fn eight(indices: &[u8], first: usize) -> u8
    requires { first ≤ length indices.now }
    ensures { (t : ℕ) → t < 8
        → place One result t ≡ slice_index indices.now (first + t) % 2 }
{
    index_at(indices, first, 2) * 128
        + index_at(indices, first + 1, 2) * 64
        + index_at(indices, first + 2, 2) * 32
        + index_at(indices, first + 3, 2) * 16
        + index_at(indices, first + 4, 2) * 8
        + index_at(indices, first + 5, 2) * 4
        + index_at(indices, first + 6, 2) * 2
        + index_at(indices, first + 7, 2)
}

/// Returns the byte of four indices of two bits.
fn four(indices: &[u8], first: usize) -> u8
    requires { first ≤ length indices.now }
    ensures { (t : ℕ) → t < 4
        → place Two result t ≡ slice_index indices.now (first + t) % 4 }
{
    index_at(indices, first, 4) * 64
        + index_at(indices, first + 1, 4) * 16
        + index_at(indices, first + 2, 4) * 4
        + index_at(indices, first + 3, 4)
}

/// Returns the byte of two indices of four bits.
fn two(indices: &[u8], first: usize) -> u8
    requires { first ≤ length indices.now }
    ensures { (t : ℕ) → t < 2
        → place Four result t ≡ slice_index indices.now (first + t) % 16 }
{
    index_at(indices, first, 16) * 16 + index_at(indices, first + 1, 16)
}
