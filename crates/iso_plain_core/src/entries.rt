//! The entry of a clause: its head is unified with the goal, with new variables, and the parts of its body are copied
//! (7.7.10, 7.7.11).
ghost use Rattle.std.specs.Prelude.{◌≡◌, ◌+◌, ◌<◌, ◌^◌, IfOk, OnOk, length, Err};
ghost use Rattle.std.specs.List.{All};
ghost use Rattle.iso_model.specs.Terms.Substitutions.{apply};
ghost use Rattle.iso_model.specs.Terms.Copies.{numbers_from};
ghost use Rattle.iso_store_core.specs.Presents.{KeepsNumbers, Makes, Holds, Grows};
ghost use Rattle.iso_store_core.specs.Retaining.{RetainsAll, CountsCells, Takes};
ghost use Rattle.iso_search_core.specs.Cells.{term_cells};
ghost use Rattle.iso_plain_core.specs.Cells.{part_cells, parts_cells, entry_cells};
ghost use Rattle.iso_search_core.specs.Words.{AreVariables, Extends, word_terms};
ghost use Rattle.iso_plain_core.specs.Nodes.{IfGoal};
ghost use Rattle.iso_program.specs.Written.{term_in};
ghost use Rattle.iso_plain_core.specs.Entering.{Enters, GoalFits, HeadFits, PartsFit, CopiesPart, Copies, Adds};

use super::bodies::{ClauseBody, Node};
use iso_program::clauses::Clause;
use iso_store_core::{Pattern, Store, StoreFault};

/// The pattern's term in the store, with these words for its variables 0, 1, .. The errors: the store is full, or
/// memory was refused.
fn instantiate<S: Store>(
    store: &mut S,
    pattern: &Pattern,
    variables: &[S::Word],
) -> Result<S::Word, StoreFault>
    requires fits { GoalFits (S.names store.old) (length variables.now) pattern.now }
    requires variables { All (λ w. Holds (S.present store.old) w) variables.now }
    ensures made { IfOk result (λ w. Makes (S.present store.old) (S.present store.new) w
        (apply (word_terms (S.present store.old) variables.now) (term_in (S.names store.old) pattern.now))) }
    ensures numbers { OnOk result (KeepsNumbers (S.present store.old) (S.present store.new)) }
    ensures full { result ≡ Err StoreFault.Full → S.full store.new }
    ensures cells { CountsCells S.Store → Grows (S.present store.old) (S.present store.new) (term_cells (term_in (S.names store.old) pattern.now)) 0 }
    ensures rest { RetainsAll S.Store store.old store.new }
{
    store.instantiate(pattern, variables)
}

/// The part with its goal in the store, these words for its variables. The errors: the store is full, or memory was
/// refused.
fn copied_part<S: Store>(
    store: &mut S,
    part: &Node<Pattern>,
    variables: &[S::Word],
) -> Result<Node<S::Word>, StoreFault>
    requires fits { IfGoal (GoalFits (S.names store.old) (length variables.now)) part.now }
    requires variables { All (λ w. Holds (S.present store.old) w) variables.now }
    ensures copies { IfOk result (CopiesPart (S.names store.old) (S.present store.old) (S.present store.new) (word_terms (S.present store.old) variables.now) part.now) }
    ensures full { result ≡ Err StoreFault.Full → S.full store.new }
    ensures cells { CountsCells S.Store → Grows (S.present store.old) (S.present store.new) (part_cells (S.names store.old) part.now) 0 }
    ensures rest { RetainsAll S.Store store.old store.new }
{
    match part.goal() {
        Ok(goal) => Ok(Node::Run(instantiate(store, goal, variables)?)),
        Err(construct) => Ok(construct),
    }
}

/// Appends the parts to the nodes, their goals made in the store with these words for their variables. The errors:
/// the store is full, or memory was refused.
pub fn copy_parts<S: Store>(
    store: &mut S,
    nodes: &mut Vec<Node<S::Word>>,
    parts: &[Node<Pattern>],
    variables: &[S::Word],
) -> Result<(), StoreFault>
    requires fits { PartsFit (S.names store.old) (length variables.now) parts.now }
    requires variables { All (λ w. Holds (S.present store.old) w) variables.now }
    ensures copies { OnOk result (Copies (S.names store.old) (S.present store.new) (word_terms (S.present store.old) variables.now) nodes.old.items nodes.new.items parts.now) }
    ensures extends { OnOk result (Extends (S.present store.old) (S.present store.new) 0) }
    ensures full { result ≡ Err StoreFault.Full → S.full store.new }
    ensures nodes { Adds nodes.old.items nodes.new.items }
    ensures cells { CountsCells S.Store → Grows (S.present store.old) (S.present store.new) (parts_cells (S.names store.old) parts.now) 0 }
    ensures rest { RetainsAll S.Store store.old store.new }
{
    for part in parts {
        let node = copied_part(store, part, variables)?;
        nodes.push(node)?;
    }
    Ok(())
}

/// What trying a clause comes to.
#[derive(Clone, Copy)]
pub enum Entered {
    /// Its head doesn't unify with the goal.
    Missed,
    /// Its head was unified, and its body is `true`.
    Fact,
    /// Its head was unified, and its body is at this place of the nodes.
    Body(usize),
}

/// Enters the clause, which has this body, for the goal (7.7.10): its head is unified with the goal, and its body's
/// parts are appended. The list is for the words of the clause's variables, and loses what it had. The errors: the
/// store is full, or memory was refused.
pub fn enter<S: Store, C>(
    store: &mut S,
    nodes: &mut Vec<Node<S::Word>>,
    words: &mut Vec<S::Word>,
    clause: &Clause<C>,
    body: &ClauseBody,
    goal: S::Word,
) -> Result<Entered, StoreFault>
    requires goal { Holds (S.present store.old) goal }
    requires room { (S.present store.old).next + clause.now.variables < 2 ^ 63 }
    requires head_fits { HeadFits (S.names store.old) clause.now.variables clause.now }
    requires parts_fit { PartsFit (S.names store.old) clause.now.variables body.now.parts.items }
    ensures enters { IfOk result (Enters (S.names store.old) (S.present store.old) (S.present store.new) nodes.old.items nodes.new.items
        ((S.present store.old).term goal) clause.now body.now.parts.items) }
    ensures full { result ≡ Err StoreFault.Full → S.full store.new }
    ensures nodes { Adds nodes.old.items nodes.new.items }
    ensures cells { CountsCells S.Store → Grows (S.present store.old) (S.present store.new) (entry_cells (S.names store.old) clause.now body.now.parts.items) clause.now.variables }
    ensures rest { RetainsAll S.Store store.old store.new }
{
    if !store.unify_head(clause.head(), goal, clause.variables, words)? {
        return Ok(Entered::Missed);
    }
    let parts = body.parts.as_slice();
    if parts.is_empty() {
        return Ok(Entered::Fact);
    }
    copy_parts(store, nodes, parts, words.as_slice())?;
    Ok(Entered::Body(nodes.len() - 1))
}
