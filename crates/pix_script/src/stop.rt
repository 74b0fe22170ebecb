//! A script from a reader, and its text to a writer.
ghost use Rattle.std.specs.Prelude.{◌≡◌, IfOk, IfErr, IfSome, Some};
ghost use Rattle.pix_script.specs.Stop.{IsInput, IsReadStop, Leaves, LeavesFor, stop_text};
ghost use Rattle.pix_script.specs.declared.stop.PaintStop.TheVariants.{Script};
ghost use Rattle.pix_script.specs.declared.fault.PaintFault.TheVariants.{OutOfMemory};

use crate::fault::PaintFault;
use crate::script::{MAX_SCRIPT, paint_text};
use std::alloc::{AllocError, Global};
use std::fmt;
use std::io::{Read, Write};
use thiserror::Error;

/// Why no text was written.
#[derive(Clone, Copy, Debug, PartialEq, Eq, Error)]
pub enum PaintStop {
    /// The script has this fault, or an allocation failed.
    Script(PaintFault),
    /// A read failed.
    Read,
    /// A write or the flush after it failed.
    Write,
}

impl fmt::Display for PaintStop {
    ghost output = { λ stop. Some (stop_text stop) };

    fn fmt<W: fmt::Write>(&self, f: &mut fmt::Formatter<W>) -> fmt::Result {
        match self {
            PaintStop::Script(fault) => write!(f, "{fault}"),
            PaintStop::Read => f.write_str("read failed"),
            PaintStop::Write => f.write_str("write failed"),
        }
    }
}

impl From<AllocError> for PaintStop {
    ghost from_gives = { λ _ stop. stop ≡ Script OutOfMemory };

    fn from(_error: AllocError) -> PaintStop {
        PaintStop::Script(PaintFault::OutOfMemory)
    }
}

/// Reads a script, renders it and writes its text, in one call of `write_all` and a flush.
///
/// It reads up to the end, or 1,048,577 bytes, which are too many for a script.
///
/// # Errors
///
/// `Read` after a failed read, also an interrupted one. `Script` with the fault that [`paint_text`]
/// returns for the bytes read, or where memory runs out. `Write` after a failed write or flush of
/// the text of a script without a fault. After `Read` and `Script` nothing was written.
pub fn paint_io<R: Read, W: Write>(
    alloc: Global,
    reader: &mut R,
    writer: &mut W,
) -> Result<(), PaintStop>
    // The text is that of the bytes that were read.
    ensures read { Leaves (R.remaining reader.old) (R.remaining reader.new)
        (W.contents writer.old) (W.contents writer.new) result }
    // These are the script, where the reader tells which bytes it has.
    ensures known { IfSome (R.remaining reader.old) (λ script.
        LeavesFor script (W.contents writer.old) (W.contents writer.new) result) }
{
    let script = read_bytes(alloc, reader)?;
    write_text(alloc, &script, writer)
}

/// Renders a script and writes its text.
fn write_text<W: Write>(alloc: Global, script: &[u8], writer: &mut W) -> Result<(), PaintStop>
    ensures { LeavesFor script.now (W.contents writer.old) (W.contents writer.new) result }
{
    let text = paint_text(alloc, script).map_err(PaintStop::Script)?;
    writer.write_all(&text).map_err(|_| PaintStop::Write)?;
    writer.flush().map_err(|_| PaintStop::Write)?;
    Ok(())
}

/// Reads the bytes up to the end, or as many as show that they are too many for a script.
// The readers of whole streams in std retry an interrupted read.
fn read_bytes<R: Read>(alloc: Global, reader: &mut R) -> Result<Vec<u8>, PaintStop>
    ensures ok { IfOk result (λ script.
        IsInput (R.remaining reader.old) (R.remaining reader.new) script.items) }
    ensures err { IfErr result IsReadStop }
{
    let mut script = Vec::new(alloc);
    let mut buffer = [0; 4096];
    while script.len() <= MAX_SCRIPT {
        let room = buffer.len().min(MAX_SCRIPT + 1 - script.len());
        let count = reader
            .read(&mut buffer[..room])
            .map_err(|_| PaintStop::Read)?;
        if count == 0 {
            break;
        }
        script.extend_from_slice(&buffer[..count])?;
    }
    Ok(script)
}
