//! Error diffusion by Floyd and Steinberg, in whole numbers.
ghost use Rattle.std.specs.Prelude.{◌≡◌, ℕ, ◌+◌, ◌-◌, ◌*◌, ◌%◌, ◌^◌, ◌<◌, ◌≤◌, List, [], length, map, true, slice_index_or, MatchOption};
ghost use Rattle.pix_table.specs.diffuse.Diffusion.{
  AreDiffusedBy,
  AreShownAround,
  AreShownAroundBy,
  IsDiffusedScan,
  in_picture,
  is_back,
};
ghost use Rattle.pix_table.specs.diffuse.Done.{AreLatest, AreNeighborErrors, IsColorError, IsColorErrorAbove};
ghost use Rattle.pix_table.specs.declared.diffuse.ScanOrder.{ScanOrder};
ghost use Rattle.pix_table.specs.declared.diffuse.ScanOrder.TheVariants.{Serpentine, LeftToRight};

use crate::color::{Color, TableColor, TablePixel};
use crate::diffuse::diffused_color::{
    ColorError, DiffusedColor, FindsNearest, NO_ERROR, NeighborErrors, ShownAs,
};
use crate::diffuse::error_bound::error_bound;
use crate::matching::matcher::visit_nearest;
use crate::matching::nearest_search::{NearestSearch, SearchVisitor};

pub(crate) mod diffused_color;
pub(crate) mod error_bound;

/// How the pixels of a picture are indexed by error diffusion.
#[derive(Clone, Copy, Debug, PartialEq, Eq)]
pub struct Diffusion {
    /// How many pixels a row has: at least one.
    pub width: usize,
    /// Pixels whose alpha is below this get the index `transparent_index`, and hand on no error.
    pub alpha: u8,
    /// The index of those pixels.
    pub transparent_index: u8,
    /// How many sixteenths of the errors are handed on: at most 16.
    pub strength: u8,
    /// In which order the pixels of a row are taken.
    pub scan: ScanOrder,
}

/// The order of the pixels of a picture: its rows from above, and each in a direction.
#[derive(Clone, Copy, Debug, PartialEq, Eq)]
pub enum ScanOrder {
    /// Each row from left to right.
    LeftToRight,
    /// The first row from left to right, the second from right to left, and so on in turn. In a row
    /// from right to left the shares are mirrored too.
    Serpentine,
}

/// Returns how many colors of work memory [`diffuse_indexed`] takes for rows of this many pixels,
/// which are those of four rows. Returns `None` where that is more than a `usize` can count.
pub fn diffuse_indexed_work(width: usize) -> Option<usize>
    ensures { MatchOption result (2 ^ 64 ≤ 4 * width) (λ count. count ≡ 4 * width) }
{
    width.checked_mul(4)
}

/// Sets the index of each pixel by error diffusion. The index is that of the entry that is nearest
/// to the pixel's color plus its share of the errors of the pixels before it.
///
/// The pixels are in rows, from left to right and from above. The error of a pixel is what was
/// wanted there less the entry that was found. The next pixel of the row gets 7 sixteenths of it,
/// the one below the pixel before it 3, the one below it 5, and the one below the next 1. Each gets
/// `how.strength` sixteenths of its share.
///
/// An error is held to a bound either way in each channel before it is handed on. So the color that
/// is looked up for a pixel differs from it by at most the bound in each channel, whatever the
/// picture is. The bound is half of the widest step between neighboring levels of the entries in a
/// channel, and at least 24.
///
/// Condition: there is at least one entry and at most 256, a row has a pixel, at most 16 sixteenths
/// are handed on, there are as many indices as pixels, and `work` has four rows of colors. Where
/// the scan order is serpentine, the rows are whole.
pub fn diffuse_indexed<C: TableColor, P: TablePixel>(
    entries: &[C],
    pixels: &[P],
    how: Diffusion,
    work: &mut [Color],
    indices: &mut [u8],
)
    requires some { 0 < length entries.now }
    requires few_entries { length entries.now ≤ 256 }
    requires row { 0 < how.width }
    requires strength { how.strength ≤ 16 }
    requires whole { how.scan ≡ Serpentine → length pixels.now % how.width ≡ 0 }
    requires work { length work.old ≡ 4 * how.width }
    requires many { length indices.old ≡ length pixels.now }
    ensures diffused { AreDiffusedBy how.scan how.strength (map C.channels entries.now) how.alpha
        how.transparent_index how.width (map P.values pixels.now) indices.new }
    ensures near { AreShownAround (map C.channels entries.now) how.alpha how.transparent_index
        (map P.values pixels.now) indices.new }
{
    let diffusing = Diffusing {
        entries,
        pixels,
        how,
    };
    visit_nearest(entries, &diffusing, pixels.len(), indices, work);
}

/// Pixels that are indexed by error diffusion to the entries of a table.
#[derive(Drop)]
struct Diffusing<'a, C, P> {
    entries: &'a [C],
    pixels: &'a [P],
    how: Diffusion,
}

impl<C: TableColor, P: TablePixel> SearchVisitor<u8> for Diffusing<'_, C, P> {
    ghost can_visit = { λ diffusing entries count work. (0 < diffusing.how.width)
        × (diffusing.how.strength ≤ 16)
        × (diffusing.how.scan ≡ Serpentine
        → length diffusing.pixels.now % diffusing.how.width ≡ 0)
        × (entries ≡ map C.channels diffusing.entries.now)
        × (work ≡ 4 * diffusing.how.width) × (count ≡ length diffusing.pixels.now) };

    ghost visits = { λ diffusing entries old new. entries ≡ map C.channels diffusing.entries.now
        → AreDiffusedBy diffusing.how.scan diffusing.how.strength entries diffusing.how.alpha
        diffusing.how.transparent_index diffusing.how.width (map P.values diffusing.pixels.now)
        new
        × AreShownAround entries diffusing.how.alpha diffusing.how.transparent_index
        (map P.values diffusing.pixels.now) new };

    // Out of line. Where it is inlined, a matcher is put together on the stack beside its place.
    #[inline(never)]
    fn visit<N: NearestSearch>(&self, search: &mut N, items: &mut [u8], work: &mut [Color]) {
        let (wanted, rest) = work.split_at_mut(self.how.width);
        let (found, _) = rest.split_at_mut(self.how.width);
        // Whole errors from left to right have a loop of their own.
        if is_plain(self.how) {
            diffuse_all(
                search,
                self.entries,
                self.pixels,
                as_plain(self.how),
                wanted,
                found,
                items,
            );
        } else {
            diffuse_all(
                search,
                self.entries,
                self.pixels,
                self.how,
                wanted,
                found,
                items,
            );
        }
    }
}

/// Returns whether whole errors are handed on, from left to right in each row.
fn is_plain(how: Diffusion) -> bool
    ensures { result ≡ true → (how.strength ≡ 16) × (how.scan ≡ LeftToRight) }
{
    match how.scan {
        ScanOrder::LeftToRight => how.strength == 16,
        ScanOrder::Serpentine => false,
    }
}

/// Returns `how`, so that the strength and the scan order are constants where it is used.
///
/// Condition: whole errors are handed on, from left to right in each row.
#[inline(always)]
fn as_plain(how: Diffusion) -> Diffusion
    requires strength { how.strength ≡ 16 }
    requires scan { how.scan ≡ LeftToRight }
    ensures { result ≡ how }
{
    Diffusion {
        strength: 16,
        scan: ScanOrder::LeftToRight,
        ..how
    }
}

/// Sets the index of each pixel by error diffusion, with a row of the colors that were last wanted,
/// and a row of those that were last found.
///
/// Condition: a row has a pixel, both rows of colors are as long, at most 16 sixteenths are handed
/// on, and there are as many indices as pixels. Where the scan order is serpentine, the rows of
/// pixels are whole.
#[inline(always)]
pub(crate) fn diffuse_all<S, N, C, P>(
    search: &mut N,
    entries: &[C],
    pixels: &[P],
    how: Diffusion,
    wanted: &mut [S],
    found: &mut [S],
    indices: &mut [u8],
)
where
    S: DiffusedColor,
    N: FindsNearest<S>,
    C: ShownAs<S>,
    P: TablePixel,
    requires row { 0 < how.width }
    requires strength { how.strength ≤ 16 }
    requires whole { how.scan ≡ Serpentine → length pixels.now % how.width ≡ 0 }
    requires wanted { length wanted.old ≡ how.width }
    requires found { length found.old ≡ how.width }
    requires many { length indices.old ≡ length pixels.now }
    requires entries { N.among search.old (map C.shown entries.now) }
    ensures diffused { IsDiffusedScan S.of_channels S.apart how.scan how.strength
        (map C.shown entries.now) how.alpha how.transparent_index how.width
        (map (λ pixel. S.given (P.values pixel)) pixels.now) indices.new }
    ensures near { AreShownAroundBy S.apart S.channels (map C.shown entries.now) how.alpha
        how.transparent_index (map (λ pixel. S.given (P.values pixel)) pixels.now) indices.new }
{
    let black = S::none();
    let bound = error_bound::<S, C>(entries);
    let mut near = NeighborErrors {
        left: NO_ERROR,
        left_above: NO_ERROR,
        above: NO_ERROR,
    };
    let mut column = 0;
    let mut back = false;
    for k in 0..pixels.len() {
        let at = place_of(how, back, k, column);
        let around = begun(near, wanted, found, how, k, column);
        let right_above = right_above(wanted, found, how, k, column);
        let clear = pixels[at].alpha() < how.alpha;
        let mut left = NO_ERROR;
        if clear {
            indices[at] = how.transparent_index;
            wanted[column] = black;
            found[column] = black;
        } else {
            let color = S::wanted(pixels[at], how, around, right_above);
            let index = search.find(color);
            let entry = color.held(bound, entries[usize::from(index)].shown());
            indices[at] = index;
            wanted[column] = color;
            found[column] = entry;
            left = color.missed(entry);
        }
        near = NeighborErrors {
            left,
            left_above: around.above,
            above: right_above,
        };
        column = next_place(column, how.width);
        back = turned(how, back, k, column, wanted, found);
    }
}

/// Returns where the pixel of number `k` in the scan order is in the picture.
#[inline(always)]
fn place_of(how: Diffusion, back: bool, k: usize, column: usize) -> usize
    requires row { 0 < how.width }
    requires column { column ≡ k % how.width }
    requires back { back ≡ is_back how.scan how.width k }
    requires few { in_picture how.scan how.width k < 2 ^ 64 }
    ensures { result ≡ in_picture how.scan how.width k }
{
    if back {
        k - column + (how.width - (column + 1))
    } else {
        k
    }
}

/// Returns the errors around pixel `k`. At the start of a row they are those of the row above, and
/// else those in `near`.
#[inline(always)]
fn begun<S: DiffusedColor>(
    near: NeighborErrors,
    wanted: &[S],
    found: &[S],
    how: Diffusion,
    k: usize,
    column: usize,
) -> NeighborErrors
    requires row { 0 < how.width }
    requires column { column ≡ k % how.width }
    requires wanted { length wanted.now ≡ how.width }
    requires found { length found.now ≡ how.width }
    ensures { (ws gs : List (List ℕ))
        → AreLatest how.scan ws how.width (k - column) column (map S.spread wanted.now)
        → AreLatest how.scan gs how.width (k - column) column (map S.spread found.now)
        → (0 < column → AreNeighborErrors how.scan ws gs how.width (k - column) column near)
        → AreNeighborErrors how.scan ws gs how.width (k - column) column result }
{
    if column > 0 {
        return near;
    }
    NeighborErrors {
        left: NO_ERROR,
        left_above: NO_ERROR,
        above: missed_at(wanted, found, how.width <= k, column),
    }
}

/// Returns the error of the pixel above the next one.
#[inline(always)]
fn right_above<S: DiffusedColor>(
    wanted: &[S],
    found: &[S],
    how: Diffusion,
    k: usize,
    column: usize,
) -> ColorError
    requires row { 0 < how.width }
    requires column { column ≡ k % how.width }
    requires wanted { length wanted.now ≡ how.width }
    requires found { length found.now ≡ how.width }
    ensures { (ws gs : List (List ℕ))
        → AreLatest how.scan ws how.width (k - column) column (map S.spread wanted.now)
        → AreLatest how.scan gs how.width (k - column) column (map S.spread found.now)
        → IsColorErrorAbove how.scan ws gs how.width (k - column) column result }
{
    let above = how.width <= k;
    let there = column + 1 < how.width && above;
    missed_at(wanted, found, there, next_place(column, how.width))
}

/// Returns the error of the pixel whose colors are stored at a place, if there is one.
#[inline(always)]
fn missed_at<S: DiffusedColor>(wanted: &[S], found: &[S], there: bool, at: usize) -> ColorError
    requires wanted { at < length wanted.now }
    requires found { at < length found.now }
    ensures { IsColorError there (slice_index_or (map S.spread wanted.now) at [])
        (slice_index_or (map S.spread found.now) at []) result }
{
    if there {
        wanted[at].missed(found[at])
    } else {
        NO_ERROR
    }
}

/// Returns the place after one, which is the first one after the last.
#[inline(always)]
fn next_place(place: usize, len: usize) -> usize
    requires { place < len }
    ensures below { result < len }
    ensures next { (k : ℕ) → place ≡ k % len → result ≡ (k + 1) % len }
{
    if place + 1 < len { place + 1 } else { 0 }
}

/// Returns whether the next pixel is in a row from right to left. Where a row begins that goes in
/// the other direction than the one before it, the colors of that one are put in the new order.
#[inline(always)]
fn turned<S: DiffusedColor>(
    how: Diffusion,
    back: bool,
    k: usize,
    next: usize,
    wanted: &mut [S],
    found: &mut [S],
) -> bool
    requires row { 0 < how.width }
    requires next { next ≡ (k + 1) % how.width }
    requires back { back ≡ is_back how.scan how.width k }
    requires wanted { length wanted.old ≡ how.width }
    requires found { length found.old ≡ how.width }
    ensures back { result ≡ is_back how.scan how.width (k + 1) }
    ensures long_wanted { length wanted.new ≡ how.width }
    ensures long_found { length found.new ≡ how.width }
    ensures wanted { (ws : List (List ℕ)) → AreLatest how.scan ws how.width (k - k % how.width)
        (k % how.width + 1) (map S.spread wanted.old) → AreLatest how.scan ws how.width
        (k + 1 - next) next (map S.spread wanted.new) }
    ensures found { (gs : List (List ℕ)) → AreLatest how.scan gs how.width (k - k % how.width)
        (k % how.width + 1) (map S.spread found.old) → AreLatest how.scan gs how.width
        (k + 1 - next) next (map S.spread found.new) }
{
    if next > 0 {
        return back;
    }
    match how.scan {
        ScanOrder::LeftToRight => false,
        ScanOrder::Serpentine => {
            wanted.reverse();
            found.reverse();
            !back
        }
    }
}
