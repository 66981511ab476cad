//! What an engine keeps of a clause besides the program's own: what it runs.
ghost use Rattle.std.specs.Prelude.{◌≡◌, ℕ, List, IfOk};
ghost use Rattle.iso_model.specs.Search.Databases as databases;
ghost use Rattle.iso_store_core.specs.Retaining.{Retains};
ghost use Rattle.iso_program.specs.Kept.{IsChecked, StaysKept};

use super::checked::Checked;
use iso_model::NoMemory;
use iso_store_core::Store;
use std::alloc::Global;

/// Something that is kept of a clause.
pub trait OfClause: Drop {
    /// It is kept of this clause, where these are the names of the atoms.
    ghost keeps: { List (List ℕ) → Self → databases.Clause → Type 0 };
    /// It stays so where names come.
    ghost stays: { StaysKept keeps };
}

/// What an engine keeps of a clause, over a store of this kind.
pub trait Kept<S: Store>: OfClause {
    /// What is kept of a clause that was checked. The error is that memory was refused.
    fn keep(alloc: Global, store: &mut S, checked: &Checked) -> Result<Self, NoMemory>
        ensures kept { (c : databases.Clause) → IsChecked checked.now c
            → IfOk result (λ own. Self.keeps (S.names store.new) own c) }
        ensures rest { Retains S.Store store.old store.new }
        ensures present { S.present store.new ≡ S.present store.old };
}
