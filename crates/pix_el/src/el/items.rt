//! The channels of a [`Pix`], borrowed.
ghost use Rattle.std.specs.Prelude.{◌≡◌, ◌<◌, length, slice_get, slice_set, Some};
ghost use Rattle.std.specs.Borrow.{Lends, sem, Array};
ghost use Rattle.pix_el.specs.contracts.el.Pix.{the_row};

use crate::el::Pix;

impl<const N: usize, C, M, A, G> Pix<N, C, M, A, G> {
    /// Lends the channels.
    pub(super) fn items_mut(&mut self) -> &mut [C]
        ensures* lends { sem 𝓛 (Lends (the_row N.row C.row M.row A.row G.row)
            (Array C.row 0) self.entry result
            (λ w. record self.old { channels = w })) }
        ensures channels { result.now ≡ self.old.channels }
        ensures count { length result.now ≡ N }
    {
        &mut self.channels
    }

    /// Lends the channel of number `ch`. Condition: there is one.
    pub(super) fn item_at_mut(&mut self, ch: usize) -> &mut C
        requires { ch < N }
        ensures* lends { sem 𝓛 (Lends
            (the_row N.row C.row M.row A.row G.row) C.row self.entry result
            (λ c. record self.old { channels = slice_set self.old.channels ch c })) }
        ensures now { slice_get self.old.channels ch ≡ Some result.now }
    {
        let items = self.items_mut();
        item_mut(items, ch)
    }
}

/// Lends one item of a slice. Condition: there is one at that index.
fn item_mut<C>(items: &mut [C], index: usize) -> &mut C
    requires { index < length items.old }
    ensures* lends { sem 𝓛 (Lends (Array C.row 0) C.row items.entry result
        (slice_set items.old index)) }
    ensures now { slice_get items.old index ≡ Some result.now }
{
    &mut items[index]
}
