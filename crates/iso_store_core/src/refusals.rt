//! A refused allocation as a store's fault.
ghost use Rattle.std.specs.Prelude.{◌≡◌};

use super::shapes::StoreFault;
use std::alloc::{AllocError, AllocFailed};

impl From<AllocError> for StoreFault {
    ghost use Rattle.iso_store_core.specs.declared.shapes.StoreFault.TheVariants.{NoMemory};

    ghost from_gives = { λ _ e. e ≡ NoMemory };

    fn from(_refused: AllocError) -> StoreFault {
        StoreFault::NoMemory
    }
}

impl<T: Drop> From<AllocFailed<T>> for StoreFault {
    ghost use Rattle.iso_store_core.specs.declared.shapes.StoreFault.TheVariants.{NoMemory};

    ghost from_gives = { λ _ e. e ≡ NoMemory };

    fn from(_refused: AllocFailed<T>) -> StoreFault {
        StoreFault::NoMemory
    }
}
