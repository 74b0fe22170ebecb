//! Why a script gives no image.
ghost use Rattle.std.specs.Prelude.{◌≡◌, Some};
ghost use Rattle.pix_script.specs.Fault.{problem_number, problem_text, fault_number, fault_line};
ghost use Rattle.pix_script.specs.Fault.{fault_text};
ghost use Rattle.pix_script.specs.declared.fault.PaintFault.TheVariants.{OutOfMemory};

use std::alloc::AllocError;
use std::fmt;
use thiserror::Error;

/// The problem of a faulty line, in the order of the numbers. A line is tested in another order:
/// for `UnknownWord`, `WrongCount`, `NoImage` or `SecondImage`, and then for the others as they are
/// listed here.
#[derive(Clone, Copy, Debug, PartialEq, Eq, Error)]
pub enum Problem {
    /// Another command comes before `image`.
    NoImage,
    /// `image` comes again.
    SecondImage,
    /// The first word names no command, or the word in an operator's place names no operator.
    UnknownWord,
    /// The command takes fewer or more words.
    WrongCount,
    /// A word is no coordinate, or no side.
    BadNumber,
    /// A word isn't eight hexadecimal digits.
    BadColor,
    /// A side of the image is above 1024.
    TooBig,
    /// `copy` or `comp` comes before `keep`.
    NothingKept,
}

/// Why a script gives no image.
#[derive(Clone, Copy, Debug, PartialEq, Eq, Error)]
pub enum PaintFault {
    /// The number of the first faulty line, counted from 1, and its problem.
    Line(usize, Problem),
    /// An allocation failed.
    OutOfMemory,
    /// The script has more than [`MAX_SCRIPT`](crate::MAX_SCRIPT) bytes.
    TooLong,
}

impl Problem {
    /// Returns the problem's number, from 1 to 8.
    fn number(&self) -> u32
        ensures { result ≡ problem_number self.now }
    {
        match self {
            Problem::NoImage => 1,
            Problem::SecondImage => 2,
            Problem::UnknownWord => 3,
            Problem::WrongCount => 4,
            Problem::BadNumber => 5,
            Problem::BadColor => 6,
            Problem::TooBig => 7,
            Problem::NothingKept => 8,
        }
    }
}

impl fmt::Display for Problem {
    ghost output = { λ problem. Some (problem_text problem) };

    fn fmt<W: fmt::Write>(&self, f: &mut fmt::Formatter<W>) -> fmt::Result {
        f.write_str(match self {
            Problem::NoImage => "no image",
            Problem::SecondImage => "second image",
            Problem::UnknownWord => "unknown word",
            Problem::WrongCount => "wrong number of words",
            Problem::BadNumber => "bad number",
            Problem::BadColor => "bad color",
            Problem::TooBig => "image too big",
            Problem::NothingKept => "nothing kept",
        })
    }
}

impl fmt::Display for PaintFault {
    ghost output = { λ fault. Some (fault_text fault) };

    fn fmt<W: fmt::Write>(&self, f: &mut fmt::Formatter<W>) -> fmt::Result {
        match self {
            PaintFault::Line(line, problem) => write!(f, "line {line}: {problem}"),
            PaintFault::OutOfMemory => f.write_str("out of memory"),
            PaintFault::TooLong => f.write_str("input too long"),
        }
    }
}

impl PaintFault {
    /// Returns the fault's number. It is 1 to 8 for the problem of a line, 9 for an allocation
    /// failure, and 10 for a script that is too long.
    pub fn number(&self) -> u32
        ensures { result ≡ fault_number self.now }
    {
        match self {
            PaintFault::Line(_, problem) => problem.number(),
            PaintFault::OutOfMemory => 9,
            PaintFault::TooLong => 10,
        }
    }

    /// Returns the number of the faulty line, counted from 1, or `None` where the fault is not in a
    /// line.
    pub fn line(&self) -> Option<usize>
        ensures { result ≡ fault_line self.now }
    {
        match self {
            PaintFault::Line(line, _) => Some(*line),
            PaintFault::OutOfMemory | PaintFault::TooLong => None,
        }
    }
}

impl From<AllocError> for PaintFault {
    ghost from_gives = { λ _ fault. fault ≡ OutOfMemory };

    fn from(_error: AllocError) -> PaintFault {
        PaintFault::OutOfMemory
    }
}
