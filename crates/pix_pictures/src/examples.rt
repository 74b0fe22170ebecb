//! Scripts of the folder `examples`, each beside the text that it has to give.
use pix_script::paint_text;
use std::alloc::{AllocError, Global};
use std::{fs, io};

/// The scripts NAME.paint, each with its result in NAME.txt.
const EXAMPLES: [&str; 12] = [
    "image",
    "clear",
    "fill",
    "paint",
    "keep",
    "copy",
    "comp",
    "operators",
    "two-pixels",
    "beyond-the-edges",
    "faint-color",
    "unknown-operator",
];

/// Paints each script, and prints whether the result is that of the file beside it.
pub(crate) fn print(rt: &HostRuntime) -> io::Result<()> {
    let alloc = rt.alloc();
    for name in EXAMPLES {
        let script = fs::read(rt, format!(in alloc; "{name}.paint")?)?;
        let wanted = fs::read(rt, format!(in alloc; "{name}.txt")?)?;
        let outcome = outcome(alloc, &script)?;
        let verdict = if outcome.as_slice() == wanted.as_slice() {
            "as it should be"
        } else {
            "differs"
        };
        println!(rt; "{name}: {verdict}")?;
    }
    Ok(())
}

/// Returns the text of a script's image, or of its fault.
fn outcome(alloc: Global, script: &[u8]) -> Result<Vec<u8>, AllocError> {
    match paint_text(alloc, script) {
        Ok(text) => Ok(text),
        Err(fault) => Ok(format!(in alloc; "{fault}\n")?.into_bytes()),
    }
}
