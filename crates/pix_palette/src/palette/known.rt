//! Colors that are cached beside a palette while an image is indexed.
ghost use Rattle.std.specs.Prelude.{◌≡◌, ℕ, List, [], ◌∷◌, map, true};
ghost use Rattle.std.specs.Option.{option_map};
ghost use Rattle.pix_table.specs.threshold.ColorCache.{AreRight};
ghost use Rattle.pix_table.specs.matching.Nearest.{numbers as color_numbers};
ghost use Rattle.pix_table.specs.threshold.Setting.{IsSet, StandsFor};
ghost use Rattle.pix_palette.specs.Palette.{Answers, numbers};
ghost use Rattle.pix_palette.specs.Finder.{Follows, HasThresholdSearch, IsNowhere, IsWhole};

use super::finder::Finder;
use super::table::{Palette, Threshold};
use super::threshold_search::ThresholdSearch;
use pix_el::rgb::SRgb8;
use pix_table::{Cache, Color, TableColor};
use std::alloc::Global;

/// Returns whether all channels of a color are 0.
fn is_zero(clr: Color) -> bool
    ensures { result ≡ true → color_numbers clr ≡ 0 ∷ 0 ∷ 0 ∷ [] }
{
    clr.red == 0 && clr.green == 0 && clr.blue == 0
}

impl Palette {
    /// Returns the entry that stands for a color. It is the first that equals the color, which the
    /// finder knows, or else one within the threshold.
    ///
    /// Condition: the finder has all entries.
    fn standing_found(&self, alloc: Global, finder: &mut Finder, clr: SRgb8) -> Option<usize>
        requires finder { Follows (map numbers self.now.colors.items) finder.old }
        requires whole { IsWhole (map numbers self.now.colors.items)
            finder.old.lists.latest.items finder.old.lists.earlier.items }
        ensures standing { StandsFor
            (Answers Threshold.post (option_map (λ chosen. chosen.f) self.now.threshold))
            (map numbers self.now.colors.items) (numbers clr) result }
        ensures finder { Follows (map numbers self.now.colors.items) finder.new }
    {
        match finder.first(&self.colors, clr) {
            Some(first) => Some(first),
            None => self.standing_near(alloc, &mut finder.near, clr),
        }
    }

    /// Returns the entry that stands for a color which no entry equals. Where the threshold is 0
    /// there is none, and then nothing is made.
    fn standing_near(&self, alloc: Global, near: &mut ThresholdSearch, clr: SRgb8) -> Option<usize>
        requires nowhere { IsNowhere (map numbers self.now.colors.items) (numbers clr) }
        requires near { HasThresholdSearch (map numbers self.now.colors.items) near.old }
        ensures standing { StandsFor
            (Answers Threshold.post (option_map (λ chosen. chosen.f) self.now.threshold))
            (map numbers self.now.colors.items) (numbers clr) result }
        ensures near { HasThresholdSearch (map numbers self.now.colors.items) near.new }
    {
        let threshold = self.threshold().color();
        if is_zero(threshold) {
            return None;
        }
        near.standing(alloc, &self.colors, clr.color(), threshold)
    }

    /// Returns the entry that stands for a color. It uses a finder, which is made and kept up to
    /// date where there are enough entries.
    fn standing_known(&self, alloc: Global, finder: &mut Finder, clr: SRgb8) -> Option<usize>
        requires finder { Follows (map numbers self.now.colors.items) finder.old }
        ensures standing { StandsFor
            (Answers Threshold.post (option_map (λ chosen. chosen.f) self.now.threshold))
            (map numbers self.now.colors.items) (numbers clr) result }
        ensures finder { Follows (map numbers self.now.colors.items) finder.new }
    {
        if finder.follow(alloc, &self.colors) {
            self.standing_found(alloc, finder, clr)
        } else {
            self.standing(clr)
        }
    }

    /// Makes a finder of no entries for this many colors that are set one after the other.
    pub(super) fn finder_of(&self, alloc: Global, count: usize) -> Finder
        ensures { (colors : List (List ℕ)) → Follows colors result }
    {
        let most = self.colors.len().saturating_add(count);
        Finder::new(alloc, most.min(self.limit))
    }

    /// Sets a color, and returns its index: that of the entry that stands for it, or that of the
    /// color, which is then appended. The answer is `None` where the limit is reached. A cached
    /// color takes no search.
    pub(super) fn set_known(
        &mut self,
        alloc: Global,
        cache: &mut Cache,
        finder: &mut Finder,
        clr: SRgb8,
    ) -> Option<usize>
        requires right { AreRight
            (Answers Threshold.post (option_map (λ chosen. chosen.f) self.old.threshold))
            (map numbers self.old.colors.items) cache.old.cached }
        requires finder { Follows (map numbers self.old.colors.items) finder.old }
        ensures set { IsSet numbers
            (Answers Threshold.post (option_map (λ chosen. chosen.f) self.old.threshold))
            self.old.limit self.old.colors.items clr result self.new.colors.items }
        ensures right { AreRight
            (Answers Threshold.post (option_map (λ chosen. chosen.f) self.old.threshold))
            (map numbers self.new.colors.items) cache.new.cached }
        ensures finder { Follows (map numbers self.new.colors.items) finder.new }
        ensures limit { self.new.limit ≡ self.old.limit }
        ensures threshold { self.new.threshold ≡ self.old.threshold }
    {
        let color = clr.color();
        if let Some(index) = cache.find(color, self.colors.len()) {
            return Some(index);
        }
        let standing = self.standing_known(alloc, finder, clr);
        let index = self.set_by(clr, standing)?;
        cache.keep(&self.colors, color, index);
        Some(index)
    }
}
