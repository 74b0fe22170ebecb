//! Colors that are cached beside a table, each with the index that stands for it. A color is cached
//! near the place that its channels give.
//!
//! Which place a color is given and how many are tried decide only how often the table is searched.
//! No answer depends on them.
ghost use Rattle.std.specs.Prelude.{◌≡◌, ◌<◌, length, map, IfSome, All};
ghost use Rattle.pix_table.specs.matching.Nearest.{numbers};
ghost use Rattle.pix_table.specs.threshold.ColorCache.{IsCached, IsPut, IsCaching, serves};

use crate::color::{Color, TableColor};
use crate::quantization::same;

/// The number of places.
const PLACES: usize = 2056;

/// How many places in a row a color may be cached at.
const TRIES: usize = 8;

/// Means any number of entries.
const ALWAYS: u16 = 65535;

/// A color, the index that stands for it, and the number of entries for which it does. An empty
/// place has 0 entries.
#[derive(Clone, Copy)]
pub struct CacheEntry {
    clr: Color,
    index: u16,
    count: u16,
}

/// Places for colors that are cached.
#[derive(Drop)]
pub struct Cache {
    cached: [CacheEntry; PLACES],
    ghost long: { length cached ≡ 2056 },
}

/// Returns the first place that a color may be cached at.
pub(crate) fn first_place(clr: Color) -> usize
    ensures { result < 2048 }
{
    let red = usize::from(clr.red);
    let green = usize::from(clr.green);
    let blue = usize::from(clr.blue);
    (red * 37 + green * 101 + blue * 167) % 2048
}

impl Cache {
    /// Makes a cache without a color.
    pub fn new() -> Cache
        ensures { All (λ kept. kept.count ≡ 0) result.cached }
    {
        let kept = CacheEntry {
            clr: Color::default(),
            index: 0,
            count: 0,
        };
        Cache {
            cached: [kept; PLACES],
        }
    }

    /// Returns the index of a color that is cached for a table of this many entries.
    pub fn find(&self, clr: Color, count: usize) -> Option<usize>
        ensures { IfSome result (IsCached self.now.cached (numbers clr) count) }
    {
        let start = first_place(clr);
        for at in start..start + TRIES {
            let kept = self.cached[at];
            if same(kept.clr, clr) && kept.serves(count) {
                return Some(usize::from(kept.index));
            }
        }
        None
    }

    /// Caches a color with the index of the entry that stands for it. If the entry equals the
    /// color, the index holds for any number of entries, and else only for the present number. A
    /// color is not cached if its index or the number of entries is too great.
    pub fn keep<C: TableColor>(&mut self, entries: &[C], clr: Color, index: usize)
        requires { index < length entries.now }
        ensures { IsCaching (map C.channels entries.now) (numbers clr) index
            self.old.cached self.new.cached }
    {
        let Ok(index16) = u16::try_from(index) else {
            return;
        };
        if same(entries[index].color(), clr) {
            self.put(clr, index16, ALWAYS);
        } else if entries.len() < usize::from(ALWAYS) {
            self.put(clr, index16, entries.len() as u16);
        }
    }

    /// Puts a color at the first of its places that is out of date, or at the first of all where
    /// none is.
    fn put(&mut self, clr: Color, index: u16, count: u16)
        ensures { IsPut self.old.cached (numbers clr) index count self.new.cached }
    {
        let at = self.free_place(first_place(clr), usize::from(count));
        self.cached[at] = CacheEntry { clr, index, count };
    }

    /// Returns the first place, from one on, that has no color for this many entries. Where each
    /// has one, it returns the place that it started at.
    fn free_place(&self, start: usize, count: usize) -> usize
        requires { start < 2048 }
        ensures { result < 2056 }
    {
        for at in start..start + TRIES {
            if !self.cached[at].serves(count) {
                return at;
            }
        }
        start
    }
}

impl CacheEntry {
    /// Returns whether it is cached for this many entries.
    fn serves(self, count: usize) -> bool
        ensures { result ≡ serves self.count count }
    {
        self.count == ALWAYS || self.count > 0 && usize::from(self.count) == count
    }
}
