//! Changes of a raster: clears, copies, composites, and runs of them.
ghost use Rattle.std.specs.Prelude.{◌≡◌, ℕ, ℤ, ◌<◌, IsTrue, true, List, length, ◌+◌, ◌∷◌, []};
ghost use Rattle.pix_el.specs.PixelComposite.{matte_numbers, matte_value};
ghost use Rattle.pix_el.specs.Transparent.{IsUnchanged};
ghost use Rattle.pix_raster.specs.Image.{point, region_of, Changed};
ghost use Rattle.pix_raster.specs.Run.{run_at, done_at, op_of, HasSwappedNeighbours};
ghost use Rattle.pix_ops.specs.ExactRun.{IsWithinBudget, IsWithinPremultipliedBound, HasSmallBudget};
ghost use Rattle.pix_raster.specs.Bounds.{OfEachChannel};
ghost use Rattle.pix_raster.specs.PremultipliedRuns.{KeepsPremultiplied};
ghost use Rattle.pix_raster.specs.Stays.{StaysUnderTransparent, keeps_under};
ghost use Rattle.pix_raster.specs.Reach.{is_paired};
ghost use Rattle.pix_raster.specs.View.{IsShaped, IsWindow, where_covered, where_paired};
ghost use Rattle.pix_raster.specs.Draw.{image_in, IsSource, IsSound, command_in};
ghost use Rattle.pix_raster.specs.declared.command.Command.{Command};

use super::Raster;
use crate::command::Command;
use crate::region::Region;
use crate::view::{
    self, Blit, Commands, Draw, Fill, NoMattes, Shape, Single, Source, Window, WindowCommand,
    paint_by_bands,
};
use pix_chan::chan::{Alpha, Linear, Premultiplied};
use pix_el::el::{Pix, Pixel};
use pix_el::matte::Matte;
use pix_el::rows::{CopiedColor, CopiedPixels};
use pix_el::stored::Coverage;
use pix_ops::ops::{Blend, SliceVisitor};
use std::marker::PhantomData;

impl<P: Pixel> Raster<P> {
    /// Clears the raster: every pixel becomes the default one, whose channels are all 0.
    ///
    /// # Examples
    ///
    /// ```rust
    /// page.composite_color(Region::new(0, 0, 32, 48), Rgba8p::new(0, 0, 64, 64), SrcOver);
    /// let copy = page.try_clone(alloc)?;
    /// page.clear();
    /// ```
    pub fn clear(&mut self)
        ensures { Changed P.numbers self.old self.new (done_at P.layout P.numbers
            (region_of self.old) Command.Clear) }
    {
        P::copy_color(&mut self.pixels, &P::default());
    }

    /// Copies `clr` to each point of `reg`, clipped to the raster. No other pixel changes.
    ///
    /// # Examples
    ///
    /// ```rust
    /// let mut page = Raster::with_color(alloc, 64, 48, Rgba8p::new(255, 255, 255, 255))?;
    /// page.copy_color(Region::new(-8, 40, 16, 16), Rgba8p::new(255, 0, 0, 255));
    /// page.composite_color(Region::new(0, 0, 32, 48), Rgba8p::new(0, 0, 64, 64), SrcOver);
    /// ```
    pub fn copy_color(&mut self, reg: Region, clr: P)
        ensures { Changed P.numbers self.old self.new (done_at P.layout P.numbers
            (region_of self.old) (Command.CopyColor reg clr)) }
    {
        let format = PhantomData;
        self.fill_region(reg, &CopiedColor::<P, P> { clr, format });
    }

    /// Copies the region `from` of `src` to the region `to` of this raster.
    ///
    /// Points are paired by their offsets from the corners of both regions. An offset counts where
    /// it lies within the sides of both regions, its point of `to` lies in this raster, and its
    /// point of `from` lies in `src`. No other pixel changes.
    ///
    /// # Examples
    ///
    /// ```rust
    /// let copy = page.try_clone(alloc)?;
    /// page.clear();
    /// page.copy_raster(Region::from((8, 8)), &copy, copy.region()); // clipped to the page
    /// ```
    pub fn copy_raster(&mut self, to: Region, src: &Raster<P>, from: Region)
        ensures { Changed P.numbers self.old self.new (done_at P.layout P.numbers
            (region_of self.old) (Command.CopyRaster to src.entry from)) }
    {
        let format = PhantomData;
        self.blit_region(to, src, from, &CopiedPixels::<P> { format });
    }

    /// Returns the region `from` of the raster as a source.
    pub(crate) fn source(&self, from: Region) -> Source<'_, P>
        ensures image { image_in result ≡ self.now }
        ensures region { result.from ≡ from }
        ensures sound { IsSource result }
    {
        let shape = Shape {
            width: self.width(),
            height: self.height(),
            stride: self.width() as usize,
        };
        Source {
            pixels: self.pixels(),
            shape,
            from,
        }
    }
}

impl<P> Raster<P> {
    /// Returns the shape of the pixels: the rows follow one another.
    pub(super) fn shape(&self) -> Shape
        ensures value { result ≡ record {
          width = self.now.width;
          height = self.now.height;
          stride = self.now.width;
        } }
        ensures fits { IsShaped result (length self.now.pixels) }
    {
        Shape {
            width: self.width,
            height: self.height,
            stride: self.width as usize,
        }
    }

    /// Returns the raster as the window of a picture that begins with it.
    fn window(&self) -> Window
        ensures value { result ≡ record {
          left = 0;
          top = 0;
          shape = record {
            width = self.now.width;
            height = self.now.height;
            stride = self.now.width;
          };
        } }
        ensures fits { IsWindow result (length self.now.pixels) }
    {
        let shape = self.shape();
        Window {
            left: 0,
            top: 0,
            shape,
        }
    }

    /// Changes each point of `reg`, clipped to the raster.
    fn fill_region<F: Fill<P>>(&mut self, reg: Region, change: &F)
        requires { F.can_fill }
        ensures { Changed F.reads self.old self.new (where_covered reg (F.makes change.now)) }
    {
        let shape = self.shape();
        view::fill_region(&mut self.pixels, shape, reg, change);
    }

    /// Changes each point of the overlap of two regions by its point of the source.
    fn blit_region<S, B: Blit<P, S>>(
        &mut self,
        to: Region,
        src: &Raster<S>,
        from: Region,
        change: &B,
    )
        requires { B.can_blit }
        ensures { Changed B.reads self.old self.new (where_paired to
            (region_of self.old) from (region_of src.now)
            (point B.source_reads src.now) (B.makes change.now)) }
    {
        let shape = self.shape();
        view::blit_region(
            &mut self.pixels,
            shape,
            to,
            &src.pixels,
            src.shape(),
            from,
            change,
        );
    }
}

impl<P: Pixel<Alpha = Premultiplied, Gamma = Linear>> Raster<P> {
    /// Runs a single drawing. Condition: its sources are sound, and it composites.
    fn draw<M: Coverage<P::Chan>, O: Blend>(&mut self, single: &Single<'_, P, M, O>, op: O)
        requires has_alpha { P.layout.count ≡ P.layout.alpha + 1 }
        requires sound { IsSound single.now.draw }
        requires composites { O.op ≡ op_of (command_in O.op single.now.draw) }
        ensures { Changed P.numbers self.old self.new (run_at P.layout P.numbers M.numbers
            (region_of self.old) (command_in O.op single.now.draw ∷ [])) }
    {
        let window = self.window();
        let formats = PhantomData;
        let there = WindowCommand::<P, M, Single<'_, P, M, O>> {
            command: single,
            window,
            formats,
        };
        there.visit(&mut self.pixels, op);
    }

    /// Composites a region of another raster at one opacity.
    // A call of its own: the borrow checker does not cover the loan of a value whose type has
    // `P::Chan` in it beside another loan.
    fn composite_faded<M: Coverage<P::Chan>, O: Blend>(
        &mut self,
        to: Region,
        src: &Raster<P>,
        from: Region,
        alpha: &M,
        op: O,
    )
        requires has_alpha { P.layout.count ≡ P.layout.alpha + 1 }
        ensures { Changed P.numbers self.old self.new (run_at P.layout P.numbers M.numbers
            (region_of self.old) (Command.RasterAlpha to src.entry from alpha.now O.op ∷ [])) }
    {
        let single = Single::<P, M, O> {
            draw: Draw::ImageAlpha {
                to,
                src: src.source(from),
                alpha,
            },
            op: PhantomData,
        };
        self.draw(&single, op);
    }
}

impl<P: Pixel<Alpha = Premultiplied, Gamma = Linear>> Raster<P> {
    /// Composites `clr` with each pixel of `reg`, clipped to the raster. No other pixel changes.
    ///
    /// Condition: the format has an alpha channel.
    ///
    /// # Examples
    ///
    /// ```rust
    /// let mut page = Raster::with_color(alloc, 64, 48, Rgba8p::new(255, 255, 255, 255))?;
    /// page.copy_color(Region::new(-8, 40, 16, 16), Rgba8p::new(255, 0, 0, 255));
    /// page.composite_color(Region::new(0, 0, 32, 48), Rgba8p::new(0, 0, 64, 64), SrcOver);
    /// ```
    pub fn composite_color<O: Blend>(&mut self, reg: Region, clr: P, op: O)
        requires has_alpha { P.layout.count ≡ P.layout.alpha + 1 }
        ensures { Changed P.numbers self.old self.new (done_at P.layout P.numbers
            (region_of self.old) (Command.Color reg clr O.op)) }
    {
        let single = Single::<P, NoMattes, O> {
            draw: Draw::Color { reg, clr: &clr },
            op: PhantomData,
        };
        self.draw(&single, op);
    }

    /// Composites the region `from` of `src` with the region `to` of this raster. Points are paired
    /// as in [`Raster::copy_raster`]. No other pixel changes.
    ///
    /// Condition: the format has an alpha channel.
    ///
    /// # Examples
    ///
    /// ```rust
    /// let sprite = Raster::with_color(alloc, 16, 16, Rgba8p::new(0, 0, 64, 64))?;
    /// let corner = Region::from((56, -8)); // partly outside of the page
    /// page.composite_raster(corner, &sprite, sprite.region(), SrcOver);
    /// ```
    pub fn composite_raster<O: Blend>(&mut self, to: Region, src: &Raster<P>, from: Region, op: O)
        requires has_alpha { P.layout.count ≡ P.layout.alpha + 1 }
        ensures { Changed P.numbers self.old self.new (done_at P.layout P.numbers
            (region_of self.old) (Command.Raster to src.entry from O.op)) }
    {
        let single = Single::<P, NoMattes, O> {
            draw: Draw::Image {
                to,
                src: src.source(from),
            },
            op: PhantomData,
        };
        self.draw(&single, op);
    }

    /// Composites `clr` with the region `to` of this raster through the region `from` of `src`, a
    /// raster of coverage masks. Each pixel uses the matte that it is paired with, as in
    /// [`Raster::copy_raster`]. No other pixel changes.
    ///
    /// Condition: the format has an alpha channel.
    ///
    /// # Examples
    ///
    /// ```rust
    /// let glyph = Raster::with_color(alloc, 5, 7, Matte8::new(128))?;
    /// let (at, ink) = (Region::from((10, 10)), Rgba8p::new(64, 0, 0, 255));
    /// page.composite_matte(at, &glyph, glyph.region(), ink, SrcOver);
    /// ```
    pub fn composite_matte<const N: usize, A: Alpha, O: Blend>(
        &mut self,
        to: Region,
        src: &Raster<Pix<N, P::Chan, Matte, A, Linear>>,
        from: Region,
        clr: P,
        op: O,
    )
        requires has_alpha { P.layout.count ≡ P.layout.alpha + 1 }
        ensures { Changed P.numbers self.old self.new (run_at P.layout P.numbers
            (matte_numbers P.Chan.number) (region_of self.old)
            (Command.Matte to src.entry from clr O.op ∷ [])) }
    {
        let single = Single::<P, Pix<N, P::Chan, Matte, A, Linear>, O> {
            draw: Draw::Matte {
                to,
                src: src.source(from),
                clr: &clr,
            },
            op: PhantomData,
        };
        self.draw(&single, op);
    }

    /// Composites the region `from` of `src` with the region `to` of this raster through the region
    /// `mask_from` of `mask`, a raster of coverage masks.
    ///
    /// Points are paired by their offsets from the corners of all three regions. An offset counts
    /// where it lies within the sides of all three, and its points lie in this raster, in `src` and
    /// in `mask`. No other pixel changes.
    ///
    /// Condition: the format has an alpha channel.
    ///
    /// # Examples
    ///
    /// ```rust
    /// let at = Region::from((10, 10));
    /// let soft = Raster::with_color(alloc, 16, 16, Matte8::new(64))?;
    /// page.composite_raster_matte(at, sprite, sprite.region(), &soft, soft.region(), SrcOver);
    /// ```
    pub fn composite_raster_matte<const N: usize, A: Alpha, O: Blend>(
        &mut self,
        to: Region,
        src: &Raster<P>,
        from: Region,
        mask: &Raster<Pix<N, P::Chan, Matte, A, Linear>>,
        mask_from: Region,
        op: O,
    )
        requires has_alpha { P.layout.count ≡ P.layout.alpha + 1 }
        ensures change { Changed P.numbers self.old self.new (run_at P.layout P.numbers
            (matte_numbers P.Chan.number) (region_of self.old)
            (Command.RasterMatte to src.entry from mask.entry mask_from O.op ∷ [])) }

        // A mask of one value, which has a matte wherever the source has a pixel, is that opacity.
        ensures opacity { (alpha : Pix N P.Chan Matte A Linear) → ((x y : ℕ) → x < mask.now.width
            → y < mask.now.height → point (matte_numbers P.Chan.number) mask.now x y ≡
            matte_numbers P.Chan.number alpha) → ((i j : ℤ) →
            is_paired to (region_of self.old) from (region_of src.now) i j ≡ true →
            is_paired to (region_of self.old) mask_from (region_of mask.now) i j ≡ true)
            → Changed P.numbers self.old self.new (run_at P.layout P.numbers
            (matte_numbers P.Chan.number) (region_of self.old)
            (Command.RasterAlpha to src.entry from alpha O.op ∷ [])) }
    {
        let single = Single::<P, Pix<N, P::Chan, Matte, A, Linear>, O> {
            draw: Draw::ImageMatte {
                to,
                src: src.source(from),
                mask: mask.source(mask_from),
            },
            op: PhantomData,
        };
        self.draw(&single, op);
    }

    /// Composites the region `from` of `src` with the region `to` of this raster at one opacity.
    /// Points are paired as in [`Raster::copy_raster`]. Each pixel is composited as through a matte
    /// of the value of `alpha`. No other pixel changes.
    ///
    /// Condition: the format has an alpha channel.
    ///
    /// # Examples
    ///
    /// ```rust
    /// let at = Region::from((10, 10));
    /// let half = Matte8::new(128);
    /// page.composite_raster_alpha(at, sprite, sprite.region(), half, SrcOver);
    /// ```
    pub fn composite_raster_alpha<const N: usize, A: Alpha, O: Blend>(
        &mut self,
        to: Region,
        src: &Raster<P>,
        from: Region,
        alpha: Pix<N, P::Chan, Matte, A, Linear>,
        op: O,
    )
        requires has_alpha { P.layout.count ≡ P.layout.alpha + 1 }
        ensures change { Changed P.numbers self.old self.new (run_at P.layout P.numbers
            (matte_numbers P.Chan.number) (region_of self.old)
            (Command.RasterAlpha to src.entry from alpha O.op ∷ [])) }

        // At the maximum it is the plain composite.
        ensures whole { matte_value P.layout (matte_numbers P.Chan.number alpha) ≡ P.layout.max
            → Changed P.numbers self.old self.new (done_at P.layout P.numbers
            (region_of self.old) (Command.Raster to src.entry from O.op)) }

        // At 0 nothing changes, by an operator that keeps a pixel under a transparent source.
        ensures none { matte_value P.layout (matte_numbers P.Chan.number alpha) ≡ 0
            → IsTrue (keeps_under O.op) → (x y : ℕ) → x < self.old.width → y < self.old.height
            → IsUnchanged P.layout (point P.numbers self.old x y)
            (point P.numbers self.new x y) }
    {
        self.composite_faded(to, src, from, &alpha, op);
    }

    /// Runs `commands` in order. At each point those that reach it run one after the other. No
    /// other pixel changes.
    ///
    /// **After any list of clears, copies and composites run on a raster, every pixel is the fold
    /// of just those commands whose clipped regions reach it, no other pixel changes, and each
    /// non-hue channel lies within its budget of the same run in exact fractions: at most n units
    /// after n unmatted commands of the listed kinds, n² + n after n unmatted commands of any
    /// kind.**
    ///
    /// A unit is one step of a channel, 1/`MAX`. A command is unmatted if it composites neither
    /// through a raster of mattes nor at an opacity. The listed kinds are clears, copies, and
    /// composites by `Src`, `Dest`, `SrcOver`, `DestOut`, `DestIn`, `Clear` and `Plus`. The budget
    /// is how far rounding may have moved a channel, counted from the commands. Twice the distance,
    /// in units, is within it, since each channel product is rounded to the nearest. A run takes no
    /// memory and cannot fail.
    ///
    /// Condition: the format has an alpha channel.
    ///
    /// # Examples
    ///
    /// ```rust
    /// let (reg, clr) = (Region::new(8, 8, 16, 16), Rgba8p::new(0, 0, 64, 64));
    /// let op = Op::SrcOver;
    /// let commands: [Command<'_, Rgba8p, Matte8>; 3] = [
    ///     Command::Clear,
    ///     Command::CopyColor { reg, clr },
    ///     Command::Color { reg, clr, op },
    /// ];
    /// page.run(&commands);
    /// ```
    pub fn run<const N: usize, A: Alpha>(
        &mut self,
        commands: &[Command<'_, P, Pix<N, P::Chan, Matte, A, Linear>>],
    )
        requires has_alpha { P.layout.count ≡ P.layout.alpha + 1 }
        ensures fold { Changed P.numbers self.old self.new
            (run_at P.layout P.numbers (matte_numbers P.Chan.number)
            (region_of self.old) commands.now) }

        // Two neighbours that reach no common point may be swapped.
        ensures swapped { (others : List (Command P (Pix N P.Chan Matte A Linear)))
            → HasSwappedNeighbours P.numbers
            (matte_numbers P.Chan.number) self.old commands.now others
            → Changed P.numbers self.old self.new (run_at P.layout P.numbers
            (matte_numbers P.Chan.number) (region_of self.old) others) }

        // Where every color and source pixel that reaches a premultiplied pixel is premultiplied,
        // the pixel stays premultiplied, and only the sum of `Plus` ever saturates.
        ensures premultiplied { KeepsPremultiplied P.layout P.numbers
            (matte_numbers P.Chan.number) commands.now self.old self.new }

        // Each channel but a hue, the alpha among them, lies within its rounding budget of the
        // exact run.
        ensures within_budget { OfEachChannel P.layout P.numbers
            (matte_numbers P.Chan.number) commands.now self.old self.new
            (IsWithinBudget P.layout.max) }

        // The budgets after n unmatted commands are at most n² + n, and at most n after those of
        // the listed kinds.
        ensures small_budget { OfEachChannel P.layout P.numbers
            (matte_numbers P.Chan.number) commands.now self.old self.new
            (λ _ effects _. HasSmallBudget effects) }

        // With premultiplied sources the bound is twice the count of products: at most 4n after n
        // unmatted commands.
        ensures premultiplied_bound { OfEachChannel P.layout P.numbers
            (matte_numbers P.Chan.number) commands.now self.old self.new
            (IsWithinPremultipliedBound P.layout.max) }

        // A pixel that only transparent sources under `SrcOver` reach stays as it was, the hue
        // included.
        ensures transparent { StaysUnderTransparent P.layout P.numbers
            (matte_numbers P.Chan.number) commands.now self.old self.new }
    {
        let window = self.window();
        let formats = PhantomData;
        let list = Commands::<
            P,
            Pix<N, P::Chan, Matte, A, Linear>,
            Command<'_, P, Pix<N, P::Chan, Matte, A, Linear>>,
        > { commands, formats };
        paint_by_bands(&mut self.pixels, window, &list);
    }
}
