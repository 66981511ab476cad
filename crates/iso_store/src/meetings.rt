//! What to do with two terms that are to be made equal (ISO/IEC 13211-1:1995, 7.3.4.1).
ghost use Rattle.std.specs.Prelude.{◌≡◌, ℕ, List, true};
ghost use Rattle.iso_atoms.specs.Texts.{EachOnce};
ghost use Rattle.iso_model.specs.Terms.Trees.{Tree};
ghost use Rattle.iso_model.specs.Terms.Sorts.{is_term};
ghost use Rattle.iso_store_core.specs.Shapes.{IsShape};
ghost use Rattle.iso_store.specs.Meetings.{IsMeeting};

use iso_store_core::Shape;

/// How two terms meet.
#[derive(Clone, Copy, Debug, PartialEq, Eq)]
pub(crate) enum Meeting {
    /// They are one variable or one constant.
    Same,
    /// Nothing makes them equal.
    Clash,
    /// The first is an unbound variable, and no older one than the second.
    FirstVariable(u64),
    /// The second is an unbound variable, and no older one than the first.
    SecondVariable(u64),
    /// Compounds of one name, with so many arguments.
    Arguments(usize),
}

/// How the terms of the two shapes meet.
#[inline(always)]
pub(crate) fn meet(first: Shape, second: Shape) -> Meeting
    ensures { (names : List (List ℕ)) (a b : Tree) → EachOnce names → IsShape names first a → IsShape names second b → is_term a ≡ true → is_term b ≡ true → IsMeeting result a b }
{
    match first {
        Shape::Var(x) => match second {
            Shape::Var(y) if x == y => Meeting::Same,
            Shape::Var(y) if x < y => Meeting::SecondVariable(y),
            _ => Meeting::FirstVariable(x),
        },
        Shape::Int(x) => match second {
            Shape::Var(y) => Meeting::SecondVariable(y),
            Shape::Int(y) if x == y => Meeting::Same,
            _ => Meeting::Clash,
        },
        Shape::Atom(_) => match second {
            Shape::Var(y) => Meeting::SecondVariable(y),
            _ if first == second => Meeting::Same,
            _ => Meeting::Clash,
        },
        Shape::Compound(_, n) => match second {
            Shape::Var(y) => Meeting::SecondVariable(y),
            _ if first == second => Meeting::Arguments(n),
            _ => Meeting::Clash,
        },
    }
}
