//! Writers that fail, that take little, and that take nothing.
use std::alloc::Global;
use std::io;
use std::io::ErrorKind;

/// A writer that takes at most so many bytes a call, and fails, or takes nothing, once its room is used up.
#[derive(Drop)]
pub struct Sink {
    pub bytes: Vec<u8>,
    pub step: usize,
    pub room: usize,
    pub fails: bool,
}

impl Sink {
    /// A writer that takes so many bytes, and fails then.
    pub fn with_room(alloc: Global, room: usize) -> Sink {
        Sink {
            bytes: Vec::new(alloc),
            step: usize::MAX,
            room,
            fails: true,
        }
    }
}

impl io::Write for Sink {
    fn write(&mut self, buf: &[u8]) -> io::Result<usize> {
        let count = buf.len().min(self.step).min(self.room);
        if count == 0 && self.fails {
            return Err(io::Error::from(ErrorKind::BrokenPipe));
        }
        if self.bytes.extend_from_slice(&buf[..count]).is_err() {
            return Err(io::Error::from(ErrorKind::OutOfMemory));
        }
        self.room -= count;
        Ok(count)
    }

    fn flush(&mut self) -> io::Result<()> {
        Ok(())
    }
}
