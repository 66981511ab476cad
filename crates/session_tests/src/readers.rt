//! Readers that give little, that fail in mid-stream, and that give bytes that are no text.
use anyhow::{Result, bail};
use iso_session_core::{Obstacle, TextFault, read_text};
use std::io;
use std::io::ErrorKind;

/// A reader that gives at most so many bytes a call, and fails in this way once so many are given.
#[derive(Clone, Copy)]
struct Source {
    bytes: &'static [u8],
    at: usize,
    step: usize,
    fails_at: usize,
    failure: ErrorKind,
}

impl io::Read for Source {
    fn read(&mut self, buf: &mut [u8]) -> io::Result<usize> {
        if self.at >= self.fails_at {
            return Err(io::Error::from(self.failure));
        }
        let rest = self.bytes.get(self.at..).unwrap_or(&[]);
        let count = buf.len().min(rest.len()).min(self.step);
        buf[..count].copy_from_slice(&rest[..count]);
        self.at = self.at.saturating_add(count);
        Ok(count)
    }
}

/// A reader of these bytes that does not fail.
fn whole(bytes: &'static [u8], step: usize) -> Source {
    Source {
        bytes,
        at: 0,
        step,
        fails_at: usize::MAX,
        failure: ErrorKind::Other,
    }
}

/// A reader that fails in this way behind eight bytes of eleven.
fn failing(failure: ErrorKind) -> Source {
    Source {
        bytes: b"p(1). p(2).",
        at: 0,
        step: 4,
        fails_at: 8,
        failure,
    }
}

/// Says the text that the reader gives, or why it gives none. The error: memory was refused, and not by the reader, or
/// what is said can't be written.
fn say(rt: &HostRuntime, mut source: Source) -> Result<()> {
    let is_refused = source.failure == ErrorKind::OutOfMemory;
    match read_text(rt.alloc(), &mut source) {
        Ok(text) => println!(rt; "{text}")?,
        Err(TextFault::NoMemory) if !is_refused => bail!("no memory"),
        Err(fault) => println!(rt; "{fault}")?,
    }
    Ok(())
}

/// Says what is read of each of these, and the fault that no reader here comes to.
pub fn say_all(rt: &HostRuntime) -> Result<()> {
    let sources = [
        whole("p('é').".as_bytes(), 1),
        whole("p('é').".as_bytes(), 2),
        whole("p('é').".as_bytes(), 100),
        failing(ErrorKind::Other),
        failing(ErrorKind::IsADirectory),
        failing(ErrorKind::TimedOut),
        failing(ErrorKind::NotFound),
        failing(ErrorKind::PermissionDenied),
        failing(ErrorKind::OutOfMemory),
        whole(b"\xff", 3),
        whole(b"p(\xff).", 3),
        whole(b"p(\xc3\xa9\xff).", 3),
        whole(b"p(\xc3", 3),
        whole(b"p(\xe2\x82", 3),
        whole(b"p(a).\n\xc0\xaf", 3),
    ];
    for source in sources {
        say(rt, source)?;
    }
    println!(rt; "{}", TextFault::Unreadable(Obstacle::NoEnd))?;
    Ok(())
}
