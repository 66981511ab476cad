//! Why a toplevel breaks off.
ghost use Rattle.std.specs.Prelude.{◌≡◌, ◌≢◌};
ghost use Rattle.std.specs.IoError.{error_kind};
ghost use Rattle.std.specs.declared.io.ErrorKind.TheVariants.{OutOfMemory};
ghost use Rattle.iso_session_core.specs.declared.statuses.Fault.{Fault as SessionFault};
ghost use Rattle.iso_toplevel_core.specs.declared.faults.Fault.TheVariants.{Output};

use iso_session_core::{Fault as SessionFault, Obstacle};
use thiserror::Error;

/// Why a toplevel breaks off.
#[derive(Debug, Drop, Error)]
pub enum Fault {
    /// A write of at least one byte answered an error or took 0 bytes; what was written is a beginning.
    #[error("the output can't be written")]
    Output,
    /// The input can't be read on; what was written is a beginning, in whole pieces.
    #[error("{0}")]
    Input(Obstacle),
}

impl From<SessionFault> for Fault {
    ghost from_gives = { λ _ fault. fault ≡ Output };

    fn from(_broken: SessionFault) -> Fault {
        Fault::Output
    }
}
