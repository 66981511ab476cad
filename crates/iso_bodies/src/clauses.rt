//! The code of a clause is loaded.
ghost use Rattle.std.specs.Prelude.{◌≡◌, ◌≤◌, IfOk, Some, map, option_map, true};
ghost use Rattle.iso_model.specs.Search.Keys.{Key, key_of};
ghost use Rattle.iso_model.specs.Terms.Trees.{Tree, count};
ghost use Rattle.iso_model.specs.Terms.TermOf.{term_of};
ghost use Rattle.iso_model.specs.Terms.Sorts.{is_row};
ghost use Rattle.iso_store_core.specs.Retaining.{Retains};
ghost use Rattle.iso_compile.specs.Heads as heads;
ghost use Rattle.iso_compile.specs.Control.{AreBehind};
ghost use Rattle.iso_compile.specs.Emitted.{block_of, get_of};
ghost use Rattle.iso_bodies.specs.Clauses.{IsLoadedCode, IsNameOf};

use super::bodies::load_body;
use super::fresh::fresh_behind;
use iso_atoms::Atom;
use iso_code::load_head;
use iso_instructions::{Code, form_of};
use iso_model::{NoMemory, Term};
use iso_store_core::Store;
use std::alloc::Global;

/// The atom of the name that a head has; of no text where it has none. The error is that memory was refused.
pub fn head_name<S: Store>(store: &mut S, head: Option<&Term>) -> Result<Atom, NoMemory>
    ensures name { (t : Tree) (k : Key) → option_map (λ h. term_of h.now) head.entry ≡ Some t → key_of t ≡ Some k
        → IfOk result (λ name. IsNameOf (S.names store.new) name t) }
    ensures present { S.present store.new ≡ S.present store.old }
    ensures rest { Retains S.Store store.old store.new }
{
    match head {
        Some(Term::Atom(name)) => store.intern(name.as_str()),
        Some(Term::Compound(name, _)) => store.intern(name.as_str()),
        _ => store.intern(""),
    }
}

/// The code of a clause that was compiled, with names as atoms, where its head has this name and so many arguments, it
/// has so many variables, and compounds have the registers from `low` on. The error is that memory was refused.
pub fn load_clause<S: Store>(
    alloc: Global,
    store: &mut S,
    name: Atom,
    low: usize,
    arity: usize,
    variables: usize,
    compiled: &iso_compile::Code,
) -> Result<Code, NoMemory>
    requires form { (ts : Tree) × (map get_of compiled.now.gets.items ≡ heads.gets 0 ts) × (map block_of compiled.now.blocks.items ≡ heads.head_blocks 0 low ts) × (count ts ≡ arity) × (is_row ts ≡ true) }
    requires registers { arity ≤ low }
    requires behind { AreBehind low compiled.now.body.items }
    ensures loaded { IfOk result (λ code. IsLoadedCode (S.names store.new) low arity variables compiled.now code) }
    ensures key { IfOk result (λ code. (code.name ≡ name) × (code.arity ≡ arity)) }
    ensures present { S.present store.new ≡ S.present store.old }
    ensures rest { Retains S.Store store.old store.new }
{
    let gets = compiled.gets.as_slice();
    let blocks = compiled.blocks.as_slice();
    let head = load_head(alloc, store, low, arity, gets, blocks)?;
    let fresh = fresh_behind(alloc, &head, variables)?;
    let body = load_body(alloc, store, low, compiled.body.as_slice())?;
    let form = form_of(body.as_slice());
    Ok(Code {
        name,
        arity,
        variables,
        form,
        body,
        head,
        fresh,
    })
}
