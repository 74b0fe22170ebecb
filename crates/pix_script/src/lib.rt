//! Paint scripts: lines of text that draw an image. Its pixels are printed as text.
//!
//! # Examples
//!
//! The text of a script in memory, or that of its fault:
//!
//! ```rust
//! match paint_text(alloc, script) {
//!     Ok(text) => Ok(text),
//!     Err(fault) => Ok(format!(in alloc; "{fault}\n")?.into_bytes()),
//! }
//! ```
//!
//! A program that reads a script from standard input, and writes its text to standard output:
//!
//! ```rust
//! use pix_script::run;
//! use std::process::ExitCode;
//!
//! fn main(rt: HostRuntime) -> ExitCode {
//!     ExitCode::from(run(rt.alloc(), &mut rt.stdin(), &mut rt.stdout(), &mut rt.stderr()))
//! }
//! ```
#![tactic(auto)]

mod command;
mod fault;
mod lines;
mod number;
mod parse;
mod picture;
mod pixel;
mod program;
mod report_line;
mod script;
mod stop;
mod text;

pub use fault::{PaintFault, Problem};
pub use program::run;
pub use script::{MAX_SCRIPT, paint_text};
pub use stop::{PaintStop, paint_io};
