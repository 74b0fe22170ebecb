//! Renders the script on standard input, and writes the text of its image to standard output.
//!
//! A stop is printed on standard error. The exit status is 0 after an image, 1 after a fault of the
//! script, 2 after an allocation failure, and 3 after a failed read or write.
#![tactic(auto)]

use pix_script::run;
use std::process::ExitCode;

fn main(rt: HostRuntime) -> ExitCode {
    ExitCode::from(run(
        rt.alloc(),
        &mut rt.stdin(),
        &mut rt.stdout(),
        &mut rt.stderr(),
    ))
}
