//! Many colors, set in one call.
ghost use Rattle.std.specs.Prelude.{◌≡◌, length};
ghost use Rattle.std.specs.Option.{option_map};
ghost use Rattle.pix_table.specs.threshold.Setting.{IsSet};
ghost use Rattle.pix_palette.specs.Palette.{Answers, numbers};
ghost use Rattle.pix_palette.specs.Entries.{AreEntriesSet};

use super::table::{Palette, Threshold};
use pix_el::rgb::SRgb8;
use pix_table::Cache;
use std::alloc::Global;

impl Palette {
    /// Sets colors, one after the other. The answer at the place of each is what
    /// [`set_entry`](Palette::set_entry) returns: the index of the color, or `None` where the limit
    /// is reached. The colors after that one are set too. For many colors this takes far less time
    /// than one call for each.
    ///
    /// It allocates memory only for its search. Where that fails the search takes longer, and the
    /// answers are the same.
    ///
    /// Condition: there are as many answers as colors.
    ///
    /// # Examples
    ///
    /// ```rust
    /// let (red, blue) = (SRgb8::new::<u8>(200, 0, 0), SRgb8::new::<u8>(0, 0, 200));
    /// let mut palette = Palette::new(alloc, 16)?;
    /// let mut answers = [None; 3];
    /// palette.set_entries(alloc, &[red, blue, red], &mut answers); // Some(0), Some(1) and Some(0)
    /// ```
    pub fn set_entries(&mut self, alloc: Global, colors: &[SRgb8], answers: &mut [Option<usize>])
        requires { length answers.old ≡ length colors.now }

        // Each color is set as `set_entry` sets it, in the palette that those before it left.
        ensures set { AreEntriesSet (IsSet numbers
            (Answers Threshold.post (option_map (λ chosen. chosen.f) self.old.threshold))
            self.old.limit)
            self.old.colors.items colors.now answers.new self.new.colors.items }
        ensures limit { self.new.limit ≡ self.old.limit }
        ensures threshold { self.new.threshold ≡ self.old.threshold }
    {
        let mut cache = Cache::new();
        let mut finder = self.finder_of(alloc, colors.len());
        for i in 0..colors.len() {
            let clr = colors[i];
            answers[i] = self.set_known(alloc, &mut cache, &mut finder, clr);
        }
    }
}
