//! New variables.
ghost use Rattle.std.specs.Prelude.{◌≡◌, ◌+◌, ◌<◌, ◌^◌, IfOk, Err};
ghost use Rattle.iso_model.specs.Terms.Copies.{numbers_from};
ghost use Rattle.iso_store_core.specs.Retaining.{RetainsAll, Takes};
ghost use Rattle.iso_search_core.specs.Words.{AreVariables, Extends};

use iso_store_core::{Store, StoreFault};
use std::alloc::Global;

/// So many new variables, numbered from the next number on. The errors: the store is full, or memory was refused.
pub fn new_variables<S: Store>(
    alloc: Global,
    store: &mut S,
    count: usize,
) -> Result<Vec<S::Word>, StoreFault>
    requires { (S.present store.old).next + count < 2 ^ 63 }
    ensures variables { IfOk result (λ ws. AreVariables (S.present store.new) ws.items (numbers_from (S.present store.old).next count)) }
    ensures extends { IfOk result (λ _. Extends (S.present store.old) (S.present store.new) count) }
    ensures full { result ≡ Err StoreFault.Full → S.full store.new }
    ensures cells { Takes S.Store store.old store.new count }
    ensures rest { RetainsAll S.Store store.old store.new }
{
    let mut variables = Vec::new(alloc);
    for _made in 0..count {
        let word = store.fresh()?;
        variables.push(word)?;
    }
    Ok(variables)
}
