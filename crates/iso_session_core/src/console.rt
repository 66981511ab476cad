//! Where a session writes: outputs as they are, and lines that begin at the start of a line.
ghost use Rattle.std.specs.Prelude.{◌≡◌, ℕ, List, [], ◌∷◌, ◌++◌, IfOk, OnOk, OnErr, if◌then◌else◌, false};
ghost use Rattle.std.specs.Io.KnownBytes.{Appends};
ghost use Rattle.iso_model.specs.Session.Sessions.{ends_within};
ghost use Rattle.iso_model.specs.Session.Beginnings.{Begins};
ghost use Rattle.iso_session_core.specs.Consoles.{place};
ghost use Rattle.iso_session_core.specs.Progress.{PutsLine, ended_of, closing_bytes};

use super::flows::{Flow, ended_by, limit_line};
use super::statuses::{Ended, Fault};
use iso_model::Limit;
use std::alloc::AllocError;
use std::io::Write;

/// A writer, and whether the last byte that was written to it is no newline.
#[derive(Drop)]
pub struct Console<'a, W> {
    out: &'a mut W,
    within_line: bool,
}

impl<'a, W: Write> Console<'a, W> {
    /// A console at the start of a line.
    pub fn new(out: &'a mut W) -> Console<'a, W>
        ensures writer { result.out.ghost_name ≡ out.entry.ghost_name }
        ensures place { place W.contents result ≡ (W.contents out.old, false) }
    {
        Console {
            out,
            within_line: false,
        }
    }

    /// Writes all of the bytes, by writes of what is left; an empty output is not written at all, and does not fail.
    /// The error: a write answered an error, or took 0 bytes; a beginning was written, and something is left.
    fn write_whole(&mut self, bytes: &[u8]) -> Result<(), Fault>
        ensures ok { OnOk result (Appends (W.contents self.old.out.now) (W.contents self.new.out.now) bytes.now) }
        ensures err { OnErr result (Begins (W.contents self.old.out.now) (W.contents self.new.out.now) bytes.now) }
        ensures within { self.new.within_line ≡ self.old.within_line }
        ensures writer { self.new.out.ghost_name ≡ self.old.out.ghost_name }
    {
        let mut done = 0;
        while done < bytes.len() {
            let Ok(count) = self.out.write(&bytes[done..]) else {
                return Err(Fault::Output);
            };
            if count == 0 {
                return Err(Fault::Output);
            }
            done += count;
        }
        Ok(())
    }

    /// Writes an output of the program. The error is that of `write_whole`.
    pub fn write_output(&mut self, bytes: &[u8]) -> Result<(), Fault>
        ensures ok { OnOk result (Appends (W.contents self.old.out.now) (W.contents self.new.out.now) bytes.now) }
        ensures within { OnOk result (self.new.within_line ≡ ends_within self.old.within_line bytes.now) }
        ensures err { OnErr result (Begins (W.contents self.old.out.now) (W.contents self.new.out.now) bytes.now) }
        ensures writer { self.new.out.ghost_name ≡ self.old.out.ghost_name }
    {
        self.write_whole(bytes)?;
        if let Some(last) = bytes.last() {
            self.within_line = *last != b'\n';
        }
        Ok(())
    }

    /// Writes a line, which is given with its newline; it begins at the start of a line. The error is that of
    /// `write_whole`.
    fn write_line(&mut self, line: &[u8]) -> Result<(), Fault>
        ensures ok { OnOk result (Appends (W.contents self.old.out.now) (W.contents self.new.out.now) ((if self.old.within_line then 10 ∷ [] else []) ++ line.now)) }
        ensures within { OnOk result (self.new.within_line ≡ false) }
        ensures err { OnErr result (Begins (W.contents self.old.out.now) (W.contents self.new.out.now) ((if self.old.within_line then 10 ∷ [] else []) ++ line.now)) }
        ensures writer { self.new.out.ghost_name ≡ self.old.out.ghost_name }
    {
        if self.within_line {
            self.write_whole(b"\n")?;
        }
        self.write_whole(line)?;
        self.within_line = false;
        Ok(())
    }

    /// Writes a line that was composed, with its newline, and answers how the session goes on behind it; where the line
    /// could not be composed nothing is written, and the session stops.
    pub fn put_line(&mut self, line: Result<Vec<u8>, AllocError>, flow: Flow) -> Result<Flow, Fault>
        ensures puts { (text : List ℕ) → IfOk line (λ bytes. bytes.items ≡ text ++ 10 ∷ [])
            → PutsLine text flow (place W.contents self.old) (place W.contents self.new) result }
        ensures writer { self.new.out.ghost_name ≡ self.old.out.ghost_name }
    {
        let Ok(line) = line else {
            return Ok(Flow::Stops(Limit::Memory));
        };
        self.put_fixed(line.as_slice(), flow)
    }

    /// Writes a line, which is given with its newline, and answers how the session goes on behind it.
    pub fn put_fixed(&mut self, line: &[u8], flow: Flow) -> Result<Flow, Fault>
        ensures puts { (text : List ℕ) → line.now ≡ text ++ 10 ∷ []
            → PutsLine text flow (place W.contents self.old) (place W.contents self.new) result }
        ensures writer { self.new.out.ghost_name ≡ self.old.out.ghost_name }
    {
        self.write_line(line)?;
        Ok(flow)
    }

    /// Ends the session behind its last part: the line of a limit is written, which takes no memory. The error is
    /// that of `write_whole`.
    pub fn close(&mut self, flow: Flow) -> Result<Ended, Fault>
        ensures ended { IfOk result (λ ended. ended ≡ ended_of flow) }
        ensures ok { OnOk result (Appends (W.contents self.old.out.now) (W.contents self.new.out.now) (closing_bytes self.old.within_line flow)) }
        ensures err { OnErr result (Begins (W.contents self.old.out.now) (W.contents self.new.out.now) (closing_bytes self.old.within_line flow)) }
        ensures writer { self.new.out.ghost_name ≡ self.old.out.ghost_name }
    {
        match flow {
            Flow::On => Ok(Ended::Done),
            Flow::Halts(status) => Ok(Ended::Halt(status)),
            Flow::Stops(limit) => {
                self.write_line(limit_line(limit))?;
                Ok(ended_by(limit))
            }
        }
    }
}
