//! A definite run, answer by answer, with the plain engine over either store.
ghost use Rattle.std.specs.Prelude.{◌≡◌};
ghost use Rattle.iso_model.specs.Search.Engines.{Ready};
ghost use Rattle.iso_model.specs.Search.Walker.{State};

use anyhow::Result;
use iso_logic::{resume_definite, start_definite};
use iso_model::{Engine, Pause, Term};
use iso_plain::plain::Plain;
use iso_store::{Heap, Nodes};
use std::alloc::{AllocError, Global};

/// Whether the query `p` over the fact `p` has one answer, and then no more.
fn has_one_answer<E: Engine>(alloc: Global, engine: &mut E) -> Result<bool, AllocError>
    requires ready { E.phase engine.old ≡ Ready }
    requires stands { (s : State) × E.stands_for engine.old s }
{
    let p = Term::Atom(String::from_str(alloc, "p")?);
    if engine.consult(&p).is_err() || start_definite(engine, &p, 10).is_err() {
        return Ok(false);
    }
    match resume_definite(engine) {
        Pause::Answer(values) => {
            Ok(values.is_empty() && matches!(resume_definite(engine), Pause::NoMore))
        }
        _ => Ok(false),
    }
}

/// Whether a fact has one answer over cells and over nodes. The error: memory was refused.
pub fn fact_has_one_answer(alloc: Global) -> Result<bool> {
    let mut over_cells = Plain::new(alloc, Heap::new(alloc, 100)?, 10)?;
    let mut over_nodes = Plain::new(alloc, Nodes::new(alloc, 100)?, 10)?;
    Ok(has_one_answer(alloc, &mut over_cells)? && has_one_answer(alloc, &mut over_nodes)?)
}
