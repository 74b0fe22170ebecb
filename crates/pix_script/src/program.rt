//! A run from an input to an output, with its report and its exit status.
ghost use Rattle.std.specs.Prelude.{◌≡◌};
ghost use Rattle.pix_script.specs.Run.{AppendsOrPart, Ends, status_of, stop_line};

use crate::fault::PaintFault;
use crate::report_line::ReportLine;
use crate::stop::{PaintStop, paint_io};
use std::alloc::Global;
use std::io;
use std::io::{ErrorKind, Read, Write};

/// Renders the script of an input to an output by [`paint_io`]. It reports a stop in one line on an
/// error output. The exit status is 0 after an image, 1 after a fault of the script, 2 after an
/// allocation failure, and 3 after a failed read or write.
pub fn run<R: Read, W: Write, E: Write>(
    alloc: Global,
    input: &mut R,
    output: &mut W,
    errors: &mut E,
) -> u8
    ensures { Ends (R.remaining input.old) (R.remaining input.new)
        (W.contents output.old) (W.contents output.new)
        (E.contents errors.old) (E.contents errors.new) result }
{
    match paint_io(alloc, input, output) {
        Ok(()) => 0,
        Err(stop) => {
            // Where this fails too, only the status tells of the stop.
            let _ = report(errors, stop);
            status(stop)
        }
    }
}

/// Writes the line that reports a stop, and flushes it.
fn report<E: Write>(errors: &mut E, stop: PaintStop) -> io::Result<()>
    ensures { AppendsOrPart (E.contents errors.old) (E.contents errors.new) (stop_line stop)
        result }
{
    let mut line = ReportLine::new();
    writeln!(line, "{stop}")?;
    write_part(errors, line.bytes())?;
    errors.flush()
}

/// Writes all bytes, or those up to a failure. An interrupted write is tried again.
// `write_all` promises nothing of what was written before it failed.
fn write_part<W: Write>(writer: &mut W, bytes: &[u8]) -> io::Result<()>
    ensures { AppendsOrPart (W.contents writer.old) (W.contents writer.new) bytes.now result }
{
    let mut done = 0;
    'parts: for _ in 0..u64::MAX {
        if done == bytes.len() {
            return Ok(());
        }
        match writer.write(&bytes[done..]) {
            Ok(0) => return Err(ErrorKind::WriteZero.into()),
            Ok(count) => done += count,
            Err(error) => {
                if error.kind() != ErrorKind::Interrupted {
                    return Err(error);
                }
            }
        }
    }
    Err(ErrorKind::TimedOut.into())
}

/// Returns the exit status after a stop.
fn status(stop: PaintStop) -> u8
    ensures { result ≡ status_of stop }
{
    match stop {
        PaintStop::Script(PaintFault::OutOfMemory) => 2,
        PaintStop::Script(_) => 1,
        PaintStop::Read | PaintStop::Write => 3,
    }
}
