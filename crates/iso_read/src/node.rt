//! Terms as they are read, and which of them an operator takes as its operands.
ghost use Rattle.std.specs.Prelude.{◌≡◌, ◌<◌, ◌+◌, ◌^◌, [], ◌∷◌, IfOk, IfErr, max};
ghost use Rattle.iso_model.specs.Syntax.Grammar as model;
ghost use Rattle.iso_model.specs.Syntax.Lists.{curly};
ghost use Rattle.iso_model.specs.Syntax.Operators as operators;
ghost use Rattle.iso_model.specs.Syntax.Reading as reading;
ghost use Rattle.iso_model.specs.Terms.TermOf.{term_of};
ghost use Rattle.iso_model.specs.Terms.Trees.{Apply, row};
ghost use Rattle.iso_read.specs.Views.{node_of, operator_of};
ghost use Rattle.iso_read.specs.declared.clause.ReadFault.TheVariants.{NoMemory};

use crate::clause::ReadFault;
use crate::operators::Operator;
use iso_model::Term;
use std::alloc::Global;
use std::mem::replace;

/// A term that was read, with what decides where it may stand.
#[derive(Drop)]
pub struct Node {
    pub term: Term,
    /// 0, or that of the operator that made it (6.3.4.1).
    pub priority: u16,
    /// How deep the deepest part stands in it.
    pub height: usize,
    /// Whether an operator made it that takes a right operand of its own priority.
    pub is_open: bool,
}

/// Operands in a row, and the height of the tallest.
#[derive(Drop)]
pub struct Row {
    pub terms: Vec<Term>,
    pub height: usize,
}

/// A term of priority 0.
pub fn closed(term: Term, height: usize) -> Node
    ensures { node_of result ≡ model.closed (term_of term) height }
{
    Node {
        term,
        priority: 0,
        height,
        is_open: false,
    }
}

/// The greatest priority of the operator's left operand.
fn left_of(operator: &Operator) -> u16
    ensures { result ≡ operators.left_of (operator_of operator.now) }
{
    operator.spec.left_priority(operator.priority)
}

/// The greatest priority of the operator's right operand.
pub fn right_of(operator: &Operator) -> u16
    ensures { result ≡ operators.right_of (operator_of operator.now) }
{
    operator.spec.right_priority(operator.priority)
}

/// Whether the node may be the operator's left operand, in a place of at most this priority. A term that an operator
/// made that is open on its right is no left operand, without brackets, of an operator of the same priority that takes
/// an equal one (own).
pub fn fits(most: u16, left: &Node, operator: &Operator) -> bool
    ensures { result ≡ reading.fits most (node_of left.now) (operator_of operator.now) }
{
    operator.priority <= most
        && left.priority <= left_of(operator)
        && !(left.is_open && left.priority == operator.priority && operator.spec.takes_equal())
}

/// Makes of the left operand what an infix operator makes of both (6.3.4.2).
#[inline(never)]
pub fn join(
    alloc: Global,
    left: &mut Node,
    operator: Operator,
    right: Node,
) -> Result<(), ReadFault>
    requires { max left.old.height right.height + 1 < 2 ^ 64 }
    ensures node { IfOk result (λ _. node_of left.new ≡ model.joined (node_of left.old) (operator_of operator) (node_of right)) }
    ensures refused { IfErr result (λ fault. fault ≡ NoMemory) }
{
    let mut operands = Vec::new(alloc);
    operands.push(replace(&mut left.term, Term::Var(0)))?;
    operands.push(right.term)?;
    left.is_open = operator.spec.is_right_open();
    left.height = left.height.max(right.height) + 1;
    left.priority = operator.priority;
    left.term = Term::Compound(operator.name, operands);
    Ok(())
}

/// Makes of the operand what a prefix or postfix operator makes of it (6.3.4.2).
#[inline(never)]
pub fn apply(alloc: Global, operator: Operator, operand: &mut Node) -> Result<(), ReadFault>
    requires { operand.old.height + 1 < 2 ^ 64 }
    ensures node { IfOk result (λ _. node_of operand.new ≡ model.applied (operator_of operator) (node_of operand.old)) }
    ensures refused { IfErr result (λ fault. fault ≡ NoMemory) }
{
    let mut operands = Vec::new(alloc);
    operands.push(replace(&mut operand.term, Term::Var(0)))?;
    operand.is_open = operator.spec.is_right_open();
    operand.height += 1;
    operand.priority = operator.priority;
    operand.term = Term::Compound(operator.name, operands);
    Ok(())
}

/// The term that braces make of the term in them (6.3.6).
#[inline(never)]
pub fn in_braces(alloc: Global, inner: Node) -> Result<Node, ReadFault>
    requires { inner.height + 1 < 2 ^ 64 }
    ensures node { IfOk result (λ node. node_of node ≡ model.closed (Apply curly (row (term_of inner.term ∷ []))) (inner.height + 1)) }
    ensures refused { IfErr result (λ fault. fault ≡ NoMemory) }
{
    let name = String::from_str(alloc, "{}")?;
    let mut operands = Vec::new(alloc);
    operands.push(inner.term)?;
    Ok(closed(Term::Compound(name, operands), inner.height + 1))
}
