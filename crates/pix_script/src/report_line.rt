//! The line of a report, which needs no allocation.
ghost use Rattle.std.specs.Prelude.{◌≡◌, [], Some};
ghost use Rattle.std.specs.Io.{WritesAtMost};
ghost use Rattle.std.specs.Io.KnownBytes.{Keeps, WriteAppends};
ghost use Rattle.pix_script.specs.ReportLine.{bytes_of};

use std::io;
use std::io::Write;

/// More bytes than any report has.
const MAX_REPORT: usize = 64;

/// The line of a report, which a writer fills: the first bytes of an array.
// No writer of std over an array tells which bytes it holds.
#[derive(Drop)]
pub(crate) struct ReportLine {
    room: [u8; MAX_REPORT],
    filled: usize,
}

impl ReportLine {
    /// Makes an empty line.
    pub(crate) fn new() -> ReportLine
        ensures { bytes_of result ≡ [] }
    {
        ReportLine {
            room: [0; MAX_REPORT],
            filled: 0,
        }
    }

    /// Returns the bytes that were written.
    pub(crate) fn bytes(&self) -> &[u8]
        ensures { result.now ≡ bytes_of self.now }
    {
        &self.room[..self.filled.min(MAX_REPORT)]
    }
}

impl Write for ReportLine {
    ghost contents = { λ line. Some (bytes_of line) };

    // It takes the bytes that there is room for.
    fn write(&mut self, buf: &[u8]) -> io::Result<usize>
        ensures bound { WritesAtMost result buf.now }
        ensures bytes { WriteAppends (Some (bytes_of self.old)) (Some (bytes_of self.new)) result
            buf.now }
    {
        let start = self.filled.min(MAX_REPORT);
        let count = buf.len().min(MAX_REPORT - start);
        self.room[start..start + count].copy_from_slice(&buf[..count]);
        self.filled = start + count;
        Ok(count)
    }

    fn flush(&mut self) -> io::Result<()>
        ensures bytes { Keeps (Some (bytes_of self.old)) (Some (bytes_of self.new)) }
    {
        Ok(())
    }
}
