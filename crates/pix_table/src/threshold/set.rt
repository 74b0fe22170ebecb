//! Colors that are set in a table. The answer for each is the entry that stands for it, or the
//! color is added.
ghost use Rattle.std.specs.Prelude.{◌≡◌, ◌≤◌, length, map, take};
ghost use Rattle.pix_table.specs.matching.Nearest.{numbers};
ghost use Rattle.pix_table.specs.threshold.Setting.{Always, IsSet, StandsFor};
ghost use Rattle.pix_table.specs.threshold.TableBlocks.{IsTableCache};

use crate::color::{Color, TableColor};
use crate::threshold::standing;
use crate::threshold::table_blocks::TableCache;

/// Sets a color among the first `len` of `slots`. Returns the answer, and the number of entries
/// afterwards.
///
/// The answer is the index of the entry that stands for the color. If there is none, the color is
/// added, and the answer is its index. It is `None` where there is no slot for the color.
pub fn set_entry<C: TableColor>(
    slots: &mut [C],
    len: usize,
    clr: C,
    threshold: Color,
) -> (Option<usize>, usize)
    requires { len ≤ length slots.old }
    ensures set { IsSet C.channels (Always (numbers threshold)) (length slots.old)
        (take len slots.old) clr result.0 (take result.1 slots.new) }
    ensures room { length slots.new ≡ length slots.old }
    ensures before { take len slots.new ≡ take len slots.old }
    ensures within { result.1 ≤ length slots.new }
    ensures more { len ≤ result.1 }
{
    let at = standing(&slots[..len], clr.color(), threshold);
    set_by(slots, len, clr, threshold, at)
}

/// Sets a color, given the entry that stands for it, if there is one.
fn set_by<C: TableColor>(
    slots: &mut [C],
    len: usize,
    clr: C,
    threshold: Color,
    at: Option<usize>,
) -> (Option<usize>, usize)
    requires within { len ≤ length slots.old }
    requires standing { StandsFor (Always (numbers threshold))
        (map C.channels (take len slots.old)) (C.channels clr) at }
    ensures set { IsSet C.channels (Always (numbers threshold)) (length slots.old)
        (take len slots.old) clr result.0 (take result.1 slots.new) }
    ensures room { length slots.new ≡ length slots.old }
    ensures before { take len slots.new ≡ take len slots.old }
    ensures within { result.1 ≤ length slots.new }
    ensures more { len ≤ result.1 }
{
    if at.is_some() {
        return (at, len);
    }
    if len < slots.len() {
        slots[len] = clr;
        (Some(len), len + 1)
    } else {
        (None, len)
    }
}

/// Sets a color among the first `len` of `slots`. Returns the answer, and the number of entries
/// afterwards. A color that is cached beside the table takes no search. Any other color is searched
/// in blocks of the entries.
///
/// The answer is the index of the entry that stands for the color. If there is none, the color is
/// added, and the answer is its index. It is `None` where there is no slot for the color.
pub fn set_cached<C: TableColor>(
    slots: &mut [C],
    len: usize,
    beside: &mut TableCache,
    clr: C,
    threshold: Color,
) -> (Option<usize>, usize)
    requires within { len ≤ length slots.old }
    requires right { IsTableCache (numbers threshold) (map C.channels (take len slots.old))
        beside.old }
    ensures set { IsSet C.channels (Always (numbers threshold)) (length slots.old)
        (take len slots.old) clr result.0 (take result.1 slots.new) }
    ensures right { IsTableCache (numbers threshold)
        (map C.channels (take result.1 slots.new)) beside.new }
    ensures room { length slots.new ≡ length slots.old }
    ensures before { take len slots.new ≡ take len slots.old }
    ensures within { result.1 ≤ length slots.new }
    ensures more { len ≤ result.1 }
{
    let color = clr.color();
    if let Some(index) = beside.cache.find(color, len) {
        return (Some(index), len);
    }
    let at = beside.blocks.standing(&slots[..len], color, threshold);
    let (answer, used) = set_by(slots, len, clr, threshold, at);
    if let Some(index) = answer {
        beside.cache.keep(&slots[..used], color, index);
    }
    (answer, used)
}
