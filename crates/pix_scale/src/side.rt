//! A side of a picture: how many places become how many, by which kernel.
ghost use Rattle.std.specs.Prelude.{◌≡◌, ◌+◌, ◌-◌, ◌*◌, ◌/◌, ◌<◌, ◌≤◌, min};
ghost use Rattle.std.specs.Int.{IsGcd};
ghost use Rattle.pix_scale.specs.Axis.{axis, axis_of, common, kernel_of, lowest};
ghost use Rattle.pix_scale.specs.Table.{IsSide};

use crate::filter::{Filter, Kernel};

/// So many places of a side become `m` for each `n` of them.
#[derive(Clone, Copy)]
pub(crate) struct Side {
    pub(crate) kernel: Kernel,
    pub(crate) places: u32,
    pub(crate) n: u32,
    pub(crate) m: u32,
}

/// Returns the greatest common divisor. Condition: both numbers are positive.
fn gcd(a: u32, b: u32) -> u32
    requires a { 0 < a }
    requires b { 0 < b }
    ensures some { 0 < result }
    ensures divides { IsGcd a b result }
    ensures value { result ≡ common (min a b) a b }
{
    let mut x = a;
    let mut y = b;
    'steps: while y > 0 {
        let rest = x % y;
        x = y;
        y = rest;
    }
    x
}

/// Returns the kernel of a filter where `n` places become `m`.
fn kernel_of(filter: Filter, n: u32, m: u32) -> Kernel
    ensures { result ≡ kernel_of filter n m }
{
    match filter {
        Filter::Nearest => Kernel::Point,
        Filter::Area => Kernel::Box,
        Filter::Linear => {
            if n <= m {
                Kernel::Line
            } else {
                Kernel::Triangle
            }
        }
    }
}

impl Side {
    /// Returns the side of `n` places that become `m`. Condition: both are positive.
    pub(crate) fn new(filter: Filter, n: u32, m: u32) -> Side
        requires n { 0 < n }
        requires m { 0 < m }
        ensures kernel { result.kernel ≡ kernel_of filter n m }
        ensures places { result.places ≡ n }
        ensures n { result.n ≡ lowest n m }
        ensures m { result.m ≡ lowest m n }
        ensures side { n ≤ 65535 → IsSide result.kernel result.places m result.n result.m }
        ensures axis { axis_of result.kernel result.places result.n result.m ≡ axis filter n m }
        ensures some_n { 0 < result.n }
        ensures some_m { 0 < result.m }
    {
        let by = gcd(n, m);
        Side {
            kernel: kernel_of(filter, n, m),
            places: n,
            n: n / by,
            m: m / by,
        }
    }

    /// Returns what all places count together for one of the new side.
    pub(crate) fn whole(self) -> u64
        ensures value { result ≡ (axis_of self.kernel self.places self.n self.m).whole }
        ensures small { result < 8589934592 }
    {
        match self.kernel {
            Kernel::Point => 1,
            Kernel::Box => u64::from(self.n),
            Kernel::Line => 2 * u64::from(self.m),
            Kernel::Triangle => 32768,
        }
    }

    /// Returns how many places count something for one of the new side, at most.
    pub(crate) fn taps(self) -> u64
        requires some_m { 0 < self.m }
        ensures value { result ≡ (axis_of self.kernel self.places self.n self.m).taps }
        ensures small { result ≤ self.places }
    {
        let (places, n, m) = (u64::from(self.places), u64::from(self.n), u64::from(self.m));
        match self.kernel {
            Kernel::Point => places.min(1),
            Kernel::Box => places.min((n + 2 * m - 2) / m),
            Kernel::Line => places.min(2),
            Kernel::Triangle => places.min((2 * n + m - 1) / m),
        }
    }
}
