//! A clause is entered for a call whose arguments are words.
ghost use Rattle.std.specs.Prelude.{◌≡◌, ◌≤◌, ◌<◌, ◌+◌, ◌++◌, ◌^◌, ℕ, List, Some, IfOk, IsTrue, length, take, drop};
ghost use Rattle.std.specs.List.{All};
ghost use Rattle.iso_model.specs.Terms.Trees as trees;
ghost use Rattle.iso_model.specs.Terms.Sizes.{size};
ghost use Rattle.iso_model.specs.Search.Databases as databases;
ghost use Rattle.iso_store_core.specs.Presents.{Holds, Grows};
ghost use Rattle.iso_store_core.specs.Retaining.{CountsCells, RetainsAll};
ghost use Rattle.iso_plain_core.specs.Entering.{Adds};
ghost use Rattle.iso_alloc.specs.Plans.{arguments_of};
ghost use Rattle.iso_clause_code.specs.Keeping.{KeepsCode};
ghost use Rattle.iso_environments.specs.Met.{HasMet};

use super::words::Words;
use iso_cells::Cells;
use iso_instructions::Code;
use iso_machine_core::enter_clause;
use iso_store_core::StoreFault;

/// Enters the clause for the call with these arguments (7.7.10): false where its head and the call don't unify; then it
/// is open what is bound. Words are appended, one for each variable of the clause: where the two unify, they are its
/// environment. The lists of compounds and of made words lose what they had. The caller keeps the next number below
/// 2^63. The errors: the store is full, or memory was refused.
pub fn meet_clause<S: Cells>(
    store: &mut S,
    words: &mut Words<S::Word>,
    code: &Code,
    arguments: &[S::Word],
    compounds: &mut Vec<S::Word>,
    made: &mut Vec<S::Word>,
) -> Result<bool, StoreFault>
    requires clause { (c : databases.Clause) × KeepsCode (S.names store.old) code.now c
        × (trees.count (arguments_of (Some c.head)) ≡ length arguments.now) }
    requires held { All (Holds (S.present store.old)) arguments.now }
    requires numbers { (S.present store.old).next + code.now.variables < 2 ^ 63 }
    ensures meets { (f : List ℕ) (c : databases.Clause) → KeepsCode (S.names store.old) code.now c
        → trees.count (arguments_of (Some c.head)) ≡ length arguments.now
        → IfOk result (λ met. HasMet (S.present store.old) (S.present store.new) f arguments.now
        (arguments_of (Some c.head)) (drop (length words.old.items) words.new.items) met) }
    ensures environment { IfOk result (λ met. length words.new.items ≡ length words.old.items + code.now.variables) }
    ensures words { Adds words.old.items words.new.items }
    ensures known { IfOk result (λ met. IsTrue met → (n : ℕ) → n < length (S.names store.new)
        → Holds (S.present store.new) (S.atom_word n)) }
    ensures cells { (c : databases.Clause) → KeepsCode (S.names store.old) code.now c → CountsCells S.Store
        → Grows (S.present store.old) (S.present store.new)
        (c.variables + size (arguments_of (Some c.head))) c.variables }
    ensures full { result ≡ Err StoreFault.Full → S.full store.new }
    ensures rest { RetainsAll S.Store store.old store.new }
{
    let base = words.len();
    let filler = store.int(0)?;
    words.grow(code.variables, filler)?;
    store.know_atoms();
    let environment = &mut words.file.as_mut_slice()[base..base + code.variables];
    let entered = enter_clause(
        store,
        &code.head,
        code.fresh.as_slice(),
        arguments,
        environment,
        compounds,
        made,
    )?;
    Ok(entered.is_some())
}
