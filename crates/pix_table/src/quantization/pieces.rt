//! The boxes of a cut: pieces of one slice of colors, one after the other.
ghost use Rattle.std.specs.Prelude.{◌≡◌, ℕ, ◌+◌, ◌<◌, ◌≤◌, ◌^◌, All, List, [], ◌∷◌, ◌++◌, length, map, take, drop, sum_by};
ghost use Rattle.pix_table.specs.quantization.Items.{times_of, weigh_items};
ghost use Rattle.pix_table.specs.quantization.Pieces.{IsKnown, IsBestCutOrNone, IsNextOrNone, total};

use crate::quantization::cutting::{Cutting, Item};
use crate::quantization::place::Place;

/// A piece of a slice of colors: how many they are, and the place where a cut gains most, if it can
/// be cut.
#[derive(Clone, Copy)]
pub(crate) struct Piece {
    /// How many colors it has.
    pub(crate) len: usize,
    /// Where a cut gains most, if it can be cut.
    pub(crate) place: Option<Place>,
}

/// The piece that is cut next: its index, how many colors come before it, and the place.
#[derive(Clone, Copy)]
pub(crate) struct Next {
    /// The index of the piece.
    pub(crate) at: usize,
    /// How many colors come before it.
    pub(crate) start: usize,
    /// Where it is cut.
    pub(crate) place: Place,
}

/// The piece whose cut gains most of those so far: its index, how many colors come before it, and
/// what the cut gains.
// The place stays in the piece. To carry it along would take longer than to compare what it gains.
#[derive(Clone, Copy)]
pub(crate) struct BestCut {
    /// The index of the piece.
    pub(crate) at: usize,
    /// How many colors come before it.
    pub(crate) start: usize,
    /// What the cut gains.
    pub(crate) gain: u128,
}

impl Piece {
    /// Returns the piece without colors.
    pub(crate) fn none() -> Piece {
        Piece {
            len: 0,
            place: None,
        }
    }

    /// Returns the piece of some colors.
    pub(crate) fn of<C: Cutting, I: Item<C>>(items: &[I]) -> Piece
        requires fit { All C.fits (map I.numbers items.now) }
        requires few { sum_by (times_of C.channels) (map I.numbers items.now) < 2 ^ 64 }
        ensures all { result.len ≡ length items.now }
        ensures known { IsKnown C.channels (weigh_items C.channels C.Sums.weigh)
            (map I.numbers items.now) result }
    {
        Piece {
            len: items.len(),
            place: I::best_place(items),
        }
    }
}

/// Returns the piece whose cut gains most, the first of equals; or `None` where none can be cut.
pub(crate) fn next_cut(pieces: &[Piece]) -> Option<Next>
    requires { total pieces.now < 2 ^ 64 }
    ensures { IsNextOrNone pieces.now result }
{
    let mut best = None;
    let mut start = 0;
    for i in 0..pieces.len() {
        best = better(best, &pieces[i], i, start);
        start += pieces[i].len;
    }
    next_of(pieces, best)
}

/// Returns the better of the best piece so far and the next one, the first of equals. The next one
/// is at an index and has so many colors before it.
#[inline(always)]
fn better(best: Option<BestCut>, piece: &Piece, at: usize, start: usize) -> Option<BestCut>
    ensures { (pieces : List Piece) → length pieces ≡ at → total pieces ≡ start
        → IsBestCutOrNone pieces best → IsBestCutOrNone (pieces ++ piece.now ∷ []) result }
{
    match (best, piece.place) {
        (_, None) => best,
        (Some(most), Some(place)) if place.gain <= most.gain => best,
        (_, Some(place)) => Some(BestCut {
            at,
            start,
            gain: place.gain,
        }),
    }
}

/// Returns the piece that gains most, with its place.
fn next_of(pieces: &[Piece], best: Option<BestCut>) -> Option<Next>
    requires { IsBestCutOrNone pieces.now best }
    ensures { IsNextOrNone pieces.now result }
{
    let most = best?;
    let place = pieces[most.at].place?;
    Some(Next {
        at: most.at,
        start: most.start,
        place,
    })
}

/// Puts two pieces in the place of one of the first `count`. The piece behind these is free.
pub(crate) fn split(pieces: &mut [Piece], count: usize, at: usize, low: Piece, high: Piece)
    requires inside { at < count }
    requires room { count < length pieces.old }
    ensures { take (count + 1) pieces.new
        ≡ take at pieces.old ++ low ∷ high ∷ drop (at + 1) (take count pieces.old) }
{
    pieces[at] = low;
    pieces[at + 1..count + 1].rotate_right(1);
    pieces[at + 1] = high;
}
