//! Converted bodies as lists of their parts (7.6.2).
ghost use Rattle.std.specs.Prelude.{◌≡◌, MatchResult};
ghost use Rattle.iso_prep.specs.declared.bodies.Node.TheVariants as node;
ghost use Rattle.iso_prep.specs.Trees.{IsAlike, joint};

use super::connectives::Connective;

/// A part of a converted body, over goals of this type. The last part of a construct stands right before it; the
/// numbers say how far back its other parts end.
#[derive(Clone, Copy, Debug, Drop)]
pub enum Node<G> {
    /// A goal.
    Run(G),
    /// `!` (7.8.4).
    Cut,
    /// `A, B`; A ends so far back (7.8.5).
    And(usize),
    /// `A ; B`, where A is no if-then; A ends so far back (7.8.6).
    Or(usize),
    /// `C -> T` alone; C ends so far back (7.8.7).
    If(usize),
    /// `C -> T ; E`; C and T end so far back (7.8.8).
    Choose(usize, usize),
}

impl<G> Node<G> {
    /// The construct of two parts, the first of which ends so far back.
    pub fn joined(connective: Connective, distance: usize) -> Node<G>
        ensures { result ≡ joint connective distance }
    {
        match connective {
            Connective::And => Node::And(distance),
            Connective::Or => Node::Or(distance),
            Connective::If => Node::If(distance),
        }
    }

    /// The goal; or the part itself, which has none, as one over goals of another type.
    pub fn goal<H>(&self) -> Result<&G, Node<H>>
        ensures { MatchResult result (λ g. self.now ≡ node.Run g.now) (λ part. IsAlike (λ goal other. ⊥) self.now part) }
    {
        match self {
            Node::Run(goal) => Ok(goal),
            Node::Cut => Err(Node::Cut),
            Node::And(first) => Err(Node::And(*first)),
            Node::Or(first) => Err(Node::Or(*first)),
            Node::If(condition) => Err(Node::If(*condition)),
            Node::Choose(condition, next) => Err(Node::Choose(*condition, *next)),
        }
    }
}
