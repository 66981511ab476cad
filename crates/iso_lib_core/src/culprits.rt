//! Errors whose culprit is what a word stands for (7.12.2), as the faults of the procedures that raise them.
ghost use Rattle.std.specs.Prelude.{◌<◌};
ghost use Rattle.iso_model.specs.Search.Errors.{key, type_error, domain_error};
ghost use Rattle.iso_store_core.specs.Presents.{Holds, meaning};
ghost use Rattle.iso_lib_core.specs.Replies.{IsFault};

use super::errors;
use super::outcomes::Fault;
use iso_store_core::Store;
use std::alloc::Global;

/// `type_error(kind, culprit)`, raised by this procedure (7.12.2 b); or memory was refused.
pub fn wrong_type<S: Store>(
    alloc: Global,
    store: &S,
    kind: &str,
    culprit: S::Word,
    by: &str,
    by_arity: usize,
) -> Fault
    requires culprit { Holds (S.present store.now) culprit }
    requires by_arity { by_arity < 256 }
    ensures { IsFault (type_error kind.now (meaning (S.present store.now) culprit) (key by.now by_arity)) result }
{
    let Ok(culprit) = store.copy_out(culprit) else {
        return Fault::NoMemory;
    };
    let Ok(ball) = errors::wrong_type(alloc, kind, culprit, by, by_arity) else {
        return Fault::NoMemory;
    };
    Fault::Raise(ball)
}

/// `domain_error(domain, culprit)`, raised by this procedure (7.12.2 c); or memory was refused.
pub fn out_of_domain<S: Store>(
    alloc: Global,
    store: &S,
    domain: &str,
    culprit: S::Word,
    by: &str,
    by_arity: usize,
) -> Fault
    requires culprit { Holds (S.present store.now) culprit }
    requires by_arity { by_arity < 256 }
    ensures { IsFault (domain_error domain.now (meaning (S.present store.now) culprit) (key by.now by_arity)) result }
{
    let Ok(culprit) = store.copy_out(culprit) else {
        return Fault::NoMemory;
    };
    let Ok(ball) = errors::out_of_domain(alloc, domain, culprit, by, by_arity) else {
        return Fault::NoMemory;
    };
    Fault::Raise(ball)
}
