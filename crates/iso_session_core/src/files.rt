//! The program's reading of a file or of standard input, whole.
ghost use Rattle.std.specs.Prelude.{◌≡◌, ◌≢◌, Err, IfErr, IfOk, IfSome, MatchResult, string_bytes};
ghost use Rattle.std.specs.IoError.{error_kind};
ghost use Rattle.std.specs.Str.{IsUtf8};
ghost use Rattle.std.specs.Str.Lossy.{utf8_valid_len};
ghost use Rattle.std.specs.declared.io.ErrorKind.TheVariants.{OutOfMemory};
ghost use Rattle.iso_session_core.specs.Files.{Explains, refused};
ghost use Rattle.iso_session_core.specs.declared.files.Obstacle.TheVariants.{Refused, NotUtf8};
ghost use Rattle.iso_session_core.specs.declared.files.TextFault.TheVariants.{Unreadable};

use std::alloc::Global;
use std::io::{ErrorKind, Read};
use std::{fmt, io};

/// What stands in the way of a text. Its `Display` is a reason in a user's words, which counts bytes from 1.
#[derive(Clone, Copy, Debug, PartialEq, Eq)]
pub enum Obstacle {
    /// The system refused to open it or to read on, for this reason.
    Refused(ErrorKind),
    /// The bytes aren't UTF-8; so many of them, from the first on, are.
    NotUtf8(usize),
    /// No end came within 4,294,967,295 reads.
    NoEnd,
}

impl fmt::Display for Obstacle {
    fn fmt<W: fmt::Write>(&self, f: &mut fmt::Formatter<W>) -> fmt::Result {
        match self {
            Obstacle::Refused(ErrorKind::NotFound) => f.write_str("there is no such file"),
            Obstacle::Refused(ErrorKind::PermissionDenied) => f.write_str("it may not be read"),
            Obstacle::Refused(ErrorKind::IsADirectory) => f.write_str("it is a directory"),
            Obstacle::Refused(kind) => write!(f, "{kind}"),
            Obstacle::NotUtf8(valid) => {
                let place = valid.saturating_add(1);
                write!(f, "byte {place} is not UTF-8")
            }
            Obstacle::NoEnd => f.write_str("it has no end within 4294967295 reads"),
        }
    }
}

/// Why a text could not be read.
#[derive(Clone, Copy, Debug, PartialEq, Eq, thiserror::Error)]
pub enum TextFault {
    /// Something stands in its way.
    #[error("{0}")]
    Unreadable(Obstacle),
    /// Memory was refused.
    #[error("no memory")]
    NoMemory,
}

impl From<io::Error> for TextFault {
    ghost from_gives = { λ error fault. fault ≡ refused (error_kind error) };

    fn from(error: io::Error) -> TextFault {
        match error.kind() {
            ErrorKind::OutOfMemory => TextFault::NoMemory,
            kind => TextFault::Unreadable(Obstacle::Refused(kind)),
        }
    }
}

/// How many bytes are asked for in a read.
const PIECE: usize = 8192;

/// The bytes that the reader has left, as text, in at most 4,294,967,295 reads. Unreadable where a read fails, where no
/// end comes, or where the bytes aren't UTF-8; NoMemory where memory was refused, to a read too.
pub fn read_text<R: Read>(alloc: Global, reader: &mut R) -> Result<String, TextFault>
    ensures text { IfOk result (λ text. IfSome (R.remaining reader.old) (λ bytes. string_bytes text ≡ bytes)) }
    ensures fault { IfErr result (λ fault. IfSome (R.remaining reader.old) (λ bytes. Explains bytes fault)) }
    ensures memory { result ≢ Err (Unreadable (Refused OutOfMemory)) }
{
    let mut bytes = Vec::new(alloc);
    let mut piece = [0u8; PIECE];
    for _ in 0..u32::MAX {
        let count = reader.read(&mut piece)?;
        if count == 0 {
            return text_of(bytes);
        }
        if bytes.extend_from_slice(&piece[..count]).is_err() {
            return Err(TextFault::NoMemory);
        }
    }
    Err(TextFault::Unreadable(Obstacle::NoEnd))
}

/// The bytes as text. The error: they aren't UTF-8, and so many from the first on are.
fn text_of(bytes: Vec<u8>) -> Result<String, TextFault>
    ensures { MatchResult result (λ text. string_bytes text ≡ bytes.items)
        (λ fault. (fault ≡ Unreadable (NotUtf8 (utf8_valid_len bytes.items))) × ¬ IsUtf8 bytes.items) }
{
    match String::from_utf8(bytes) {
        Ok(text) => Ok(text),
        Err(error) => {
            let valid = error.utf8_error().valid_up_to();
            Err(TextFault::Unreadable(Obstacle::NotUtf8(valid)))
        }
    }
}
