//! The laws of pictures at another size: what holds of each, whatever the picture is.
ghost use Rattle.std.specs.Prelude.{◌≡◌, ◌≢◌, ℕ, ℤ, pos, ◌+◌, ◌-◌, ◌*◌, ◌/◌, ◌<◌, ◌≤◌};
ghost use Rattle.pix_el.specs.Pixel.{Layout};
ghost use Rattle.pix_scale.specs.Signed.{Taps, total_of, sum_by, cut_by};
ghost use Rattle.pix_scale.specs.SignedCall.{signed_taps};
ghost use Rattle.pix_scale.specs.declared.filter.SignedFilter.{SignedFilter};
ghost use Rattle.pix_scale.specs.Axis.{Axis, IsAxis, axis, lowest, scaled, total};
ghost use Rattle.pix_scale.specs.declared.filter.Filter.{Filter};
ghost use Rattle.pix_scale.specs.declared.filter.Filter.TheVariants.{Nearest, Area, Linear};

/// States what holds of every picture at another size. It does nothing.
pub fn laws()
    // By any filter, what the places count adds up to the whole.
    ensures weights { (filter : Filter) (n m : ℕ) → 0 < n → 0 < m → n ≤ 65535
        → IsAxis (axis filter n m) m }

    // Of two pictures, one nowhere above the other, the new one is nowhere above the other's. With
    // the channels of a color and those of the alpha: a premultiplied picture stays premultiplied.
    ensures order { (max : ℕ) (across down : Axis) (f g : ℕ → ℕ → ℕ) (x y : ℕ)
        → 0 < across.whole * down.whole
        → ((u v : ℕ) → u < across.places → v < down.places → f u v ≤ g u v)
        → scaled max across down f x y ≤ scaled max across down g x y }

    // A picture of one value keeps it.
    ensures value { (max : ℕ) (across down : Axis) (width height x y a : ℕ)
        → IsAxis across width → IsAxis down height → x < width → y < height → a ≤ max
        → scaled max across down (λ u v. a) x y ≡ a }

    // By any filter, a picture at its own size is the picture itself.
    ensures size { (max : ℕ) (filter : Filter) (width height : ℕ) (f : ℕ → ℕ → ℕ) (x y : ℕ)
        → x < width → y < height → f x y ≤ max
        → scaled max (axis filter width width) (axis filter height height) f x y ≡ f x y }

    // At whole factors k and l, the nearest pixel is repeated k times across and l times down.
    ensures nearest { (max k l width height : ℕ) (f : ℕ → ℕ → ℕ) (x y : ℕ)
        → x < k * width → y < l * height → f (x / k) (y / l) ≤ max
        → scaled max (axis Nearest width (k * width)) (axis Nearest height (l * height)) f x y
        ≡ f (x / k) (y / l) }

    // By areas, each place of the old side counts as much as any other for all new ones together.
    ensures areas { (n m j : ℕ) → 0 < n → 0 < m → n ≤ 65535 → j < n
        → total m (λ i. (axis Area n m).weight i j) ≡ lowest m n }

    // A picture whose rows became columns before is the new one, turned the same way.
    ensures turned { (max : ℕ) (across down : Axis) (f : ℕ → ℕ → ℕ) (x y : ℕ)
        → scaled max across down f x y ≡ scaled max down across (λ v u. f u v) y x }

    // By areas, and by linear where it enlarges, a picture mirrored before is mirrored after.
    ensures mirrored { (max : ℕ) (filter : Filter) (n m : ℕ) (down : Axis) (f : ℕ → ℕ → ℕ)
        (x y z : ℕ) → 0 < n → n ≤ 65535 → filter ≢ Nearest → (filter ≡ Linear → n ≤ m)
        → x + z + 1 ≡ m → scaled max (axis filter n m) down f z y
        ≡ scaled max (axis filter n m) down (λ u v. f (n - 1 - u) v) x y }

    // By weights that may be negative too, a color is at most the alpha: what is premultiplied
    // stays so.
    ensures premultiplied { (layout : Layout) (sums : ℕ → ℤ) (c : ℕ)
        → layout.alpha < layout.count → cut_by layout sums c ≤ cut_by layout sums layout.alpha }

    // By such weights too, a premultiplied picture of one value keeps it.
    ensures signed_value { (layout : Layout) (across down : Taps) (a : ℕ → ℕ) (c : ℕ)
        → total_of across.count across.weight ≡ pos 16384
        → total_of down.count down.weight ≡ pos 16384
        → a c ≤ layout.max
        → (layout.alpha < layout.count → a layout.alpha ≤ layout.max)
        → (layout.alpha < layout.count → a c ≤ a layout.alpha)
        → cut_by layout (λ ch. sum_by across down (λ u v. a ch)) c ≡ a c }

    // By such weights too, a picture whose rows became columns before is the new one, turned.
    ensures signed_turned { (across down : Taps) (get : ℕ → ℕ → ℕ)
        → sum_by across down get ≡ sum_by down across (λ v u. get u v) }

    // By any such filter, the weights add up to 2^14.
    ensures signed_weights { (filter : SignedFilter) (n m i : ℕ) → 0 < n → 0 < m → n ≤ 65535
        → i < m → total_of (signed_taps filter n m i).count (signed_taps filter n m i).weight
        ≡ pos 16384 }

    // By any such filter, a premultiplied picture at its own size is the picture itself.
    ensures signed_size { (layout : Layout) (filter : SignedFilter) (width height : ℕ)
        (get : ℕ → ℕ → ℕ → ℕ) (x y c : ℕ) → x < width → y < height → get c x y ≤ layout.max
        → (layout.alpha < layout.count → get layout.alpha x y ≤ layout.max)
        → (layout.alpha < layout.count → get c x y ≤ get layout.alpha x y)
        → cut_by layout (λ ch. sum_by (signed_taps filter width width x)
        (signed_taps filter height height y) (get ch)) c ≡ get c x y }
{}
