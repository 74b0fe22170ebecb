//! Scripts from their bytes, and from a reader to a writer.
use pix_script::{PaintFault, PaintStop};
use std::alloc::Global;

const SCRIPT: &[u8] =
    b"image 2 1\nfill 0 0 1 1 40806080\nkeep\nclear\ncopy 1 0 0 0 1 1\ncomp Plus 1 0 0 0 1 1\n";

const TEXT: &[u8] = b"00000000 80ffc0ff\n";

pub(crate) fn paint_text(alloc: Global) -> bool {
    match pix_script::paint_text(alloc, SCRIPT) {
        Ok(text) => text.as_slice() == TEXT,
        Err(fault) => fault == PaintFault::OutOfMemory,
    }
}

/// The writer asks for memory too: where that is refused, the write has failed.
pub(crate) fn paint_io(alloc: Global) -> bool {
    let mut reader = SCRIPT;
    let mut writer = Vec::new(alloc);
    match pix_script::paint_io(alloc, &mut reader, &mut writer) {
        Ok(()) => writer.as_slice() == TEXT,
        Err(PaintStop::Script(fault)) => fault == PaintFault::OutOfMemory && writer.is_empty(),
        Err(PaintStop::Read) => false,
        Err(PaintStop::Write) => true,
    }
}
