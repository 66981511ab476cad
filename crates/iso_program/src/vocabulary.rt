//! The names that an engine knows beforehand, as atoms of its store.
ghost use Rattle.std.specs.Prelude.{◌≡◌, IfOk};
ghost use Rattle.iso_store_core.specs.Retaining.{Retains};
ghost use Rattle.iso_program.specs.Vocabularies.{IsVocabulary};

use super::controls::Controls;
use iso_arith::Evaluables;
use iso_model::NoMemory;
use iso_store_core::Store;
use std::alloc::Global;

/// The names of the control constructs and of the evaluables.
#[derive(Drop)]
pub struct Vocabulary {
    pub controls: Controls,
    pub evaluables: Evaluables,
}

impl Vocabulary {
    /// The atoms of these names in the store: those that they have, or new ones. The error is that memory was
    /// refused; some names may have atoms then that had none.
    pub fn new<S: Store>(alloc: Global, store: &mut S) -> Result<Vocabulary, NoMemory>
        ensures vocabulary { IfOk result (IsVocabulary (S.names store.new)) }
        ensures rest { Retains S.Store store.old store.new }
        ensures present { S.present store.new ≡ S.present store.old }
    {
        let controls = Controls::new(store)?;
        let evaluables = Evaluables::new(alloc, store)?;
        Ok(Vocabulary {
            controls,
            evaluables,
        })
    }
}
