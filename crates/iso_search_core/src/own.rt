//! What lists of goals keep of a clause, as the program's clauses have it.
use super::lists::Lists;
use iso_model::NoMemory;
use iso_program::checked::Checked;
use iso_program::kept::{Kept, OfClause};
use iso_store_core::Store;
use std::alloc::Global;

/// What lists of this kind keep of a clause.
#[derive(Drop)]
pub struct OwnOf<S: Store, L: Lists<S>> {
    pub kept: L::Own,
}

impl<S: Store, L: Lists<S>> OfClause for OwnOf<S, L> {
    ghost keeps = { λ names own c. L.own names own.kept c };

    ghost stays = { λ old new own. L.stays old new own.kept };
}

impl<S: Store, L: Lists<S>> Kept<S> for OwnOf<S, L> {
    /// What is kept of a clause that was checked. The error is that memory was refused.
    fn keep(alloc: Global, store: &mut S, checked: &Checked) -> Result<OwnOf<S, L>, NoMemory> {
        let kept = L::keep(alloc, store, checked)?;
        Ok(OwnOf { kept })
    }
}
