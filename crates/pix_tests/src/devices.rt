//! Scripts from readers and to writers that fail, give little at a time, or take little.
use pix_script::paint_io;
use std::alloc::{AllocError, Global};
use std::io;
use std::io::{ErrorKind, Read, Write};
use std::test::Fail;

/// Gives at most `step` bytes a call, and fails at the call of the number `fails_at`, counted from
/// 1.
#[derive(Drop)]
pub(crate) struct Source<'a> {
    bytes: &'a [u8],
    step: usize,
    calls: u32,
    pub(crate) fails_at: u32,
    pub(crate) kind: ErrorKind,
}

impl<'a> Source<'a> {
    pub(crate) fn new(bytes: &'a [u8], step: usize) -> Source<'a> {
        Source {
            bytes,
            step,
            calls: 0,
            fails_at: 0,
            kind: ErrorKind::Other,
        }
    }
}

impl Read for Source<'_> {
    fn read(&mut self, buf: &mut [u8]) -> io::Result<usize> {
        self.calls = self.calls.wrapping_add(1);
        if self.calls == self.fails_at {
            return Err(self.kind.into());
        }
        let count = self.bytes.len().min(buf.len()).min(self.step);
        let (now, rest) = self.bytes.split_at(count);
        buf[..count].copy_from_slice(now);
        self.bytes = rest;
        Ok(count)
    }
}

/// Keeps what it is given until a flush. It takes at most `step` bytes a call, and fails at the
/// call of the number `fails_at`, counted from 1, or at a flush. It may be interrupted at each
/// second call.
#[derive(Drop)]
pub(crate) struct Sink {
    kept: Vec<u8>,
    pub(crate) flushed: Vec<u8>,
    step: usize,
    pub(crate) calls: u32,
    pub(crate) fails_at: u32,
    pub(crate) is_interrupted: bool,
    flushes: u32,
    flush_fails: bool,
}

impl Sink {
    pub(crate) fn new(alloc: Global, step: usize) -> Sink {
        Sink {
            kept: Vec::new(alloc),
            flushed: Vec::new(alloc),
            step,
            calls: 0,
            fails_at: 0,
            is_interrupted: false,
            flushes: 0,
            flush_fails: false,
        }
    }
}

impl Write for Sink {
    fn write(&mut self, buf: &[u8]) -> io::Result<usize> {
        self.calls = self.calls.wrapping_add(1);
        if self.calls == self.fails_at {
            return Err(ErrorKind::StorageFull.into());
        }
        if self.is_interrupted && self.calls % 2 == 0 {
            return Err(ErrorKind::Interrupted.into());
        }
        let count = buf.len().min(self.step);
        if self.kept.extend_from_slice(&buf[..count]).is_err() {
            return Err(ErrorKind::OutOfMemory.into());
        }
        Ok(count)
    }

    fn flush(&mut self) -> io::Result<()> {
        self.flushes = self.flushes.wrapping_add(1);
        if self.flush_fails {
            return Err(ErrorKind::StorageFull.into());
        }
        if self.flushed.extend_from_slice(&self.kept).is_err() {
            return Err(ErrorKind::OutOfMemory.into());
        }
        self.kept.clear();
        Ok(())
    }
}

/// The text of the stop of a script from a reader to a writer, or no text after its image.
fn stop(alloc: Global, source: &mut Source<'_>, sink: &mut Sink) -> Result<String, AllocError> {
    match paint_io(alloc, source, sink) {
        Ok(()) => Ok(String::new(alloc)),
        Err(stop) => format!(in alloc; "{stop}"),
    }
}

const SCRIPT: &[u8] = b"image 2 1\nfill 0 0 1 1 40806080\n";

const TEXT: &[u8] = b"40806080 00000000\n";

pub(crate) const ALL: usize = 1_000_000;

/// The text is written in one call and then flushed, however the script comes. A writer that takes
/// little gets the rest.
#[test]
fn scripts_in_parts(rt: HostRuntime) -> Result<(), Fail> {
    for (read, written) in [(1, ALL), (7, ALL), (ALL, ALL), (ALL, 1), (ALL, 5)] {
        let mut sink = Sink::new(rt.alloc(), written);
        let text = stop(rt.alloc(), &mut Source::new(SCRIPT, read), &mut sink)?;
        assert_eq!(rt; text.as_str(), "");
        assert!(rt; sink.flushed.as_slice() == TEXT);
        assert_eq!(rt; sink.flushes, 1);
        assert!(rt; written < ALL || sink.calls == 1);
    }
    Ok(())
}

/// A failed read stops it, also where it was interrupted and where bytes came before; nothing is
/// written.
#[test]
fn failed_reads(rt: HostRuntime) -> Result<(), Fail> {
    for kind in [ErrorKind::Other, ErrorKind::Interrupted] {
        for fails_at in [1, 2] {
            let mut source = Source::new(SCRIPT, 9);
            source.kind = kind;
            source.fails_at = fails_at;
            let mut sink = Sink::new(rt.alloc(), ALL);
            let text = stop(rt.alloc(), &mut source, &mut sink)?;
            assert_eq!(rt; text.as_str(), "read failed");
            assert_eq!(rt; (source.calls, sink.calls, sink.flushes), (fails_at, 0, 0));
        }
    }
    Ok(())
}

/// A failed write stops it: the first call, the second after a short one, and one that takes
/// nothing. So does a failed flush, after all was written.
#[test]
fn failed_writes(rt: HostRuntime) -> Result<(), Fail> {
    for (fails_at, step, flushes) in [(1, ALL, 0), (2, 5, 0), (0, 0, 0), (0, ALL, 1)] {
        let mut sink = Sink::new(rt.alloc(), step);
        sink.fails_at = fails_at;
        sink.flush_fails = true;
        let text = stop(rt.alloc(), &mut Source::new(SCRIPT, ALL), &mut sink)?;
        assert_eq!(rt; text.as_str(), "write failed");
        assert_eq!(rt; sink.flushes, flushes);
        assert!(rt; flushes == 0 || sink.kept.as_slice() == TEXT);
    }
    Ok(())
}

/// Where the script has a fault, nothing is written and nothing is flushed.
#[test]
fn faults_of_scripts(rt: HostRuntime) -> Result<(), Fail> {
    for (script, wanted) in [
        ("clear", "line 1: no image"),
        ("image 1 1\nimage 1 1", "line 2: second image"),
        ("image 1 1\n\nfill 0 0 1 1 4080608", "line 3: bad color"),
        ("image 1 1\ncopy 0 0 0 0 1 1", "line 2: nothing kept"),
        ("image 1 1025", "line 1: image too big"),
    ] {
        let mut sink = Sink::new(rt.alloc(), ALL);
        let text = stop(
            rt.alloc(),
            &mut Source::new(script.as_bytes(), 9),
            &mut sink,
        )?;
        assert_eq!(rt; text.as_str(), wanted);
        assert_eq!(rt; (sink.calls, sink.flushes), (0, 0), "{script:?}");
    }
    Ok(())
}

/// No read follows the byte that shows that the input is too long; after the longest script one
/// more finds its end.
#[test]
fn long_inputs(rt: HostRuntime) -> Result<(), Fail> {
    let spaces = vec![in rt.alloc(); b' '; 1_048_600]?;
    let mut sink = Sink::new(rt.alloc(), ALL);
    let mut source = Source::new(&spaces, 4096);
    let text = stop(rt.alloc(), &mut source, &mut sink)?;
    assert_eq!(rt; text.as_str(), "input too long");
    assert_eq!(rt; source.bytes.len(), 23);
    assert_eq!(rt; (source.calls, sink.calls, sink.flushes), (257, 0, 0));
    let longest = vec![in rt.alloc(); b' '; 1_048_576]?;
    let mut source = Source::new(&longest, 4096);
    let text = stop(rt.alloc(), &mut source, &mut sink)?;
    assert_eq!(rt; text.as_str(), "");
    assert_eq!(rt; source.calls, 257);
    assert!(rt; sink.flushed.is_empty());
    Ok(())
}
