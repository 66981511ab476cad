//! The code of a clause that was checked: it is compiled and loaded.
ghost use Rattle.std.specs.Prelude.{◌≡◌, IfOk};
ghost use Rattle.iso_model.specs.Search.Databases as databases;
ghost use Rattle.iso_store_core.specs.Retaining.{Retains};
ghost use Rattle.iso_program.specs.Kept.{IsChecked};
ghost use Rattle.iso_clause_code.specs.Keeping.{KeepsCode};

use iso_alloc::{assign, head_arguments};
use iso_bodies::{head_name, load_clause};
use iso_compile::compile;
use iso_instructions::Code;
use iso_model::NoMemory;
use iso_program::checked::Checked;
use iso_store_core::Store;
use std::alloc::Global;

/// The code of a clause that was checked. The error is that memory was refused.
pub fn kept_code<S: Store>(
    alloc: Global,
    store: &mut S,
    checked: &Checked,
) -> Result<Code, NoMemory>
    ensures kept { (c : databases.Clause) → IsChecked checked.now c → IfOk result (λ code. KeepsCode (S.names store.new) code c) }
    ensures rest { Retains S.Store store.old store.new }
    ensures present { S.present store.new ≡ S.present store.old }
{
    let prepared = &checked.prepared;
    let name = head_name(store, prepared.head())?;
    let plan = assign(alloc, prepared)?;
    let compiled = compile(alloc, prepared, &plan)?;
    let arity = head_arguments(prepared.head()).len();
    let variables = prepared.variables();
    let low = plan.registers();
    load_clause(alloc, store, name, low, arity, variables, &compiled)
}
