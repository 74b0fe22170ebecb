//! An exchange of two items.
ghost use Rattle.std.specs.Prelude.{◌<◌, length, IsPermutation};
ghost use Rattle.std.specs.List.{SwappedAt};

use crate::quantization::cutting::{Cutting, Item};

/// Exchanges two items.
// The items of the standard library's `swap` go by memory, these by registers.
#[inline(always)]
pub(crate) fn exchange<C: Cutting, I: Item<C>>(items: &mut [I], i: usize, j: usize)
    requires first { i < length items.old }
    requires second { j < length items.old }
    ensures permutation { IsPermutation items.old items.new }
    ensures by_index { SwappedAt items.old items.new i j }
{
    let first = items[i].kept();
    let second = items[j].kept();
    items[i] = second;
    items[j] = first;
}
