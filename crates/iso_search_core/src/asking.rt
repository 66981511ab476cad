//! What goals of bagof/3 and setof/3 ask for (8.10.2, 8.10.3).
ghost use Rattle.std.specs.Prelude.{◌≡◌, IfOk, Err};
ghost use Rattle.iso_store_core.specs.Presents.{Holds, meaning};
ghost use Rattle.iso_store_core.specs.Arguments.{arity};
ghost use Rattle.iso_store_core.specs.Retaining.{Retains, Takes};
ghost use Rattle.iso_search_core.specs.Asking.{AsksFor, template_cells};

use iso_lib::{Meeting, make_template, strip};
use iso_store_core::{Store, StoreFault};
use std::alloc::Global;

/// What a goal of bagof/3 or setof/3 asks for.
#[derive(Clone, Copy)]
pub struct Asked<W> {
    /// The goal that is run.
    pub goal: W,
    /// The pair of the witness and the first argument, of which copies are gathered.
    pub template: W,
    /// How the groups come.
    pub by: Meeting<W>,
}

/// What this goal of bagof/3 or setof/3 asks for, whose template is made. The errors: the store is full, or memory was
/// refused.
pub fn ask_groups<S: Store>(
    alloc: Global,
    store: &mut S,
    goal: S::Word,
    sorts: bool,
) -> Result<Asked<S::Word>, StoreFault>
    requires goal { Holds (S.present store.old) goal }
    requires three { arity (meaning (S.present store.old) goal) ≡ 3 }
    ensures asked { IfOk result (AsksFor (S.present store.old) (S.present store.new) (meaning (S.present store.old) goal) sorts) }
    ensures full { result ≡ Err StoreFault.Full → S.full store.new }
    ensures cells { Takes S.Store store.old store.new (template_cells (meaning (S.present store.old) goal)) }
    ensures rest { Retains S.Store store.old store.new }
{
    let item = store.arg(goal, 0);
    let solved = store.arg(goal, 1);
    let result = store.arg(goal, 2);
    let (goal, free) = strip(alloc, store, item, solved)?;
    let (witness, template) = make_template(alloc, store, free.as_slice(), item)?;
    let by = Meeting {
        witness,
        result,
        sorts,
    };
    Ok(Asked { goal, template, by })
}
