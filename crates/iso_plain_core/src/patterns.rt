//! Bodies written out for the store, with numbers for their names: once, before any goal is run.
ghost use Rattle.std.specs.Prelude.{◌≡◌, ◌↔◌, ℕ, IsTrue, IfOk, codes};
ghost use Rattle.iso_model.specs.Terms.Trees.{Name};
ghost use Rattle.iso_model.specs.Terms.TermOf.{term_of};
ghost use Rattle.iso_model.specs.Search.Bodies.{Body};
ghost use Rattle.iso_prep.specs.Classes.{goals_of};
ghost use Rattle.iso_store_core.specs.Retaining.{Retains};
ghost use Rattle.iso_program.specs.Written.{IsPatternOf, IsWrittenFor};
ghost use Rattle.iso_model.specs.Search.Databases.{Clause};
ghost use Rattle.iso_program.specs.Kept.{AreTemplates, IsBodyTerm, IsChecked};
ghost use Rattle.iso_plain_core.specs.Nodes.{IsAlike, AreAlike, EndsWith, ArePartsOf, EachGoal};
ghost use Rattle.iso_plain_core.specs.Kept.{IsKeptGoal, KeepsBody, goals_in, kept_goals};

use super::bodies::{ClauseBody, Node};
use iso_model::{NoMemory, Term};
use iso_prep::Prepared;
use iso_prep::constructs::constructs;
use iso_program::checked::Checked;
use iso_store_core::{Pattern, Store};
use std::alloc::Global;

/// The part with its goal written out. The error is that memory was refused.
fn written_part<S: Store>(store: &mut S, part: &Node<&Term>) -> Result<Node<Pattern>, NoMemory>
    ensures written { IfOk result (IsAlike (IsWrittenFor (S.names store.new)) part.now) }
    ensures rest { Retains S.Store store.old store.new }
    ensures present { S.present store.new ≡ S.present store.old }
{
    match part.goal() {
        Ok(goal) => Ok(Node::Run(store.pattern(goal)?)),
        Err(construct) => Ok(construct),
    }
}

/// The parts with their goals written out. The error is that memory was refused.
fn written_parts<S: Store>(
    alloc: Global,
    store: &mut S,
    parts: &[Node<&Term>],
) -> Result<Vec<Node<Pattern>>, NoMemory>
    ensures written { IfOk result (λ written. AreAlike (IsWrittenFor (S.names store.new)) parts.now written.items) }
    ensures rest { Retains S.Store store.old store.new }
    ensures present { S.present store.new ≡ S.present store.old }
{
    let mut written = Vec::with_capacity(alloc, parts.len())?;
    for part in parts {
        let goal = written_part(store, part)?;
        written.push(goal)?;
    }
    Ok(written)
}

/// The parts of the converted body, written out; where the body's goals can be kept, so can those among the parts.
/// The error is that memory was refused.
pub fn written_body<S: Store>(
    alloc: Global,
    store: &mut S,
    body: &Prepared,
) -> Result<Vec<Node<Pattern>>, NoMemory>
    ensures ends { IfOk result (λ parts. EndsWith (IsPatternOf (S.names store.new)) parts.items body.now.body) }
    ensures goals { (n : ℕ) → AreTemplates n (goals_of body.now.body) → IfOk result (λ parts. EachGoal (IsKeptGoal (S.names store.new) n) parts.items) }
    ensures terms { IfOk result (λ parts. goals_in (S.names store.new) parts.items ≡ goals_of body.now.body) }
    ensures rest { Retains S.Store store.old store.new }
    ensures present { S.present store.new ≡ S.present store.old }
{
    let parts = body.constructs(alloc)?;
    written_parts(alloc, store, parts.as_slice())
}

/// Whether the body is `true`, as a fact's is.
fn is_true(body: &Term) -> bool
    ensures { IsTrue result ↔ (term_of body.now ≡ Name (codes "true")) }
{
    match body {
        Term::Atom(name) => name.as_str() == "true",
        _ => false,
    }
}

/// The parts of a clause's converted body, written out, none of one that is `true`; where the body's goals can be
/// kept, so can those among the parts. The error is that memory was refused.
fn clause_parts<S: Store>(
    alloc: Global,
    store: &mut S,
    body: &Term,
) -> Result<Vec<Node<Pattern>>, NoMemory>
    ensures parts { (b : Body) → IsBodyTerm (term_of body.now) b → IfOk result (λ parts. ArePartsOf (IsPatternOf (S.names store.new)) parts.items b) }
    ensures goals { (n : ℕ) (b : Body) → IsBodyTerm (term_of body.now) b → AreTemplates n (goals_of b)
        → IfOk result (λ parts. EachGoal (IsKeptGoal (S.names store.new) n) parts.items) }
    ensures terms { (b : Body) → IsBodyTerm (term_of body.now) b → IfOk result (λ parts. goals_in (S.names store.new) parts.items ≡ kept_goals b) }
    ensures rest { Retains S.Store store.old store.new }
    ensures present { S.present store.new ≡ S.present store.old }
{
    if is_true(body) {
        return Ok(Vec::new(alloc));
    }
    let parts = constructs(alloc, body)?;
    written_parts(alloc, store, parts.as_slice())
}

/// The body of the clause that was checked. The error is that memory was refused.
pub fn kept_body<S: Store>(
    alloc: Global,
    store: &mut S,
    checked: &Checked,
) -> Result<ClauseBody, NoMemory>
    ensures kept { (c : Clause) → IsChecked checked.now c → IfOk result (λ body. KeepsBody (S.names store.new) body c) }
    ensures rest { Retains S.Store store.old store.new }
    ensures present { S.present store.new ≡ S.present store.old }
{
    let parts = clause_parts(alloc, store, checked.prepared.body())?;
    Ok(ClauseBody { parts })
}
