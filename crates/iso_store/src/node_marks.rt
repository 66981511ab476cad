//! Marks on a list of nodes, and taking bindings back.
ghost use Rattle.std.specs.Prelude.{◌≡◌, ◌≤◌, vec_len, take, drop};
ghost use Rattle.iso_store.specs.NodeStores.{unbound_at, reset};

use super::nodes::Node;

/// What a store of nodes was: its nodes, its bindings and its next variable number.
#[derive(Clone, Copy, Debug, PartialEq, Eq)]
pub struct NodesMark {
    pub(crate) nodes: usize,
    pub(crate) trail: usize,
    pub(crate) next: u64,
}

/// Takes the binding at this place back.
pub(crate) fn unbind(nodes: &mut Vec<Node>, place: usize)
    ensures { nodes.new.items ≡ unbound_at nodes.old.items place }
{
    if place < nodes.len() {
        if let Node::Var(_, target) = &mut nodes[place] {
            *target = None;
        }
    }
}

/// Takes the bindings from the place `top` of the trail on back, the newest first.
pub(crate) fn unwind(nodes: &mut Vec<Node>, trail: &mut Vec<usize>, top: usize)
    requires { top ≤ vec_len trail.old }
    ensures nodes { nodes.new.items ≡ reset (drop top trail.old.items) nodes.old.items }
    ensures trail { trail.new.items ≡ take top trail.old.items }
{
    while trail.len() > top {
        if let Some(place) = trail.pop() {
            unbind(nodes, place);
        }
    }
}
