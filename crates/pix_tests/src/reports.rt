//! Runs of scripts over readers and writers, with the statuses and the reports.
use crate::devices::{ALL, Sink, Source};
use pix_script::run;
use std::alloc::Global;
use std::io::ErrorKind;

/// The status of a run.
fn status(alloc: Global, input: &mut Source<'_>, output: &mut Sink, errors: &mut Sink) -> u8 {
    run(alloc, input, output, errors)
}

/// The text and the report are flushed, and go on after short and after interrupted writes.
#[test]
fn statuses_and_reports(rt: HostRuntime) {
    for (script, wanted, text, report) in [
        ("image 2 1", 0, "00000000 00000000\n", ""),
        ("", 0, "", ""),
        (
            "image 1 1\nclear 1",
            1,
            "",
            "line 2: wrong number of words\n",
        ),
        ("image 1025 1", 1, "", "line 1: image too big\n"),
    ] {
        for step in [5, ALL] {
            let mut input = Source::new(script.as_bytes(), step);
            let mut output = Sink::new(rt.alloc(), step);
            let mut errors = Sink::new(rt.alloc(), step);
            output.is_interrupted = step < ALL;
            errors.is_interrupted = step < ALL;
            let made = status(rt.alloc(), &mut input, &mut output, &mut errors);
            assert_eq!(rt; made, wanted, "{script:?}");
            assert!(rt; output.flushed.as_slice() == text.as_bytes(), "{script:?}");
            assert!(rt;
                errors.flushed.as_slice() == report.as_bytes(),
                "{script:?}"
            );
        }
    }
}

/// A failed read, also an interrupted one, a failed write, and a report that fails: then the status
/// alone tells of the stop.
#[test]
fn devices_that_fail(rt: HostRuntime) {
    for (script, read, written, reported, wanted, report) in [
        ("image 1 1", 1, 0, 0, 3, "read failed\n"),
        ("image 1 1", 0, 1, 0, 3, "write failed\n"),
        ("clear", 0, 0, 1, 1, ""),
    ] {
        let mut input = Source::new(script.as_bytes(), ALL);
        input.kind = ErrorKind::Interrupted;
        input.fails_at = read;
        let mut output = Sink::new(rt.alloc(), ALL);
        output.fails_at = written;
        let mut errors = Sink::new(rt.alloc(), ALL);
        errors.fails_at = reported;
        let made = status(rt.alloc(), &mut input, &mut output, &mut errors);
        assert_eq!(rt; made, wanted, "{script:?}");
        assert_eq!(rt; output.calls, written, "{script:?}");
        assert!(rt;
            errors.flushed.as_slice() == report.as_bytes(),
            "{script:?}"
        );
    }
}
