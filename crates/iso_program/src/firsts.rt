//! What the first arguments of heads and goals show, before anything is made (7.7.10).
ghost use Rattle.std.specs.Prelude.{◌≡◌, ℕ, List, IfSome, MatchOption, true};
ghost use Rattle.iso_model.specs.Terms.Trees.{Tree};
ghost use Rattle.iso_model.specs.Terms.Arguments.{arity};
ghost use Rattle.iso_store_core.specs.Presents.{Holds, meaning};
ghost use Rattle.iso_store_core.specs.Exact.{are_exact};
ghost use Rattle.iso_store_core.specs.Patterns.{IsPattern};
ghost use Rattle.iso_program.specs.Firsts.{HasFirst, HasNoFirst, IsFirstArgument, ShowsFirst, TakesMore, Leaves};
ghost use Rattle.iso_program.specs.FirstKeys as keys;
ghost use Rattle.iso_program.specs.FirstKeys.{ShowsKey};

use iso_db::FirstKey;
use iso_store_core::{Part, Shape, Store};

/// How many of so many terms the part leaves as they are; none where it takes more than there are.
fn left_by(part: Part, count: usize) -> Option<usize>
    ensures { MatchOption result (TakesMore part count) (λ left. Leaves part count left) }
{
    match part {
        Part::Variable(_) | Part::Integer(_) | Part::Atom(_) => Some(count),
        Part::Compound(_, taken) => {
            if count < taken {
                return None;
            }
            Some(count - taken)
        }
    }
}

/// The outermost part of the first argument of the term that has these parts; none where it has no argument.
pub(crate) fn first_part(parts: &[Part]) -> Option<Part>
    requires { are_exact parts.now 0 ≡ true }
    ensures { (names : List (List ℕ)) (t : Tree) → IsPattern names parts.now t
        → MatchOption result (HasNoFirst t) (λ k. HasFirst names k t) }
{
    let mut first = 0;
    let mut open = 0;
    let mut index = 0;
    while index + 1 < parts.len() {
        let Some(left) = left_by(parts[index], open) else {
            return None;
        };
        if left == 0 {
            first = index;
        }
        open = left + 1;
        index += 1;
    }
    if open == 0 {
        return None;
    }
    Some(parts[first])
}

/// The key of an integer.
#[inline(always)]
fn key_of_integer(value: i128) -> FirstKey
    ensures { result ≡ keys.key_of_integer value }
{
    if let Ok(value) = i64::try_from(value) {
        return FirstKey::Integer(value);
    }
    let high = value >> 64;
    let low = value - high * (1 << 64);
    FirstKey::Wide(high as i64, low as u64)
}

/// The key of a clause, of the first argument of whose head this is the outermost part.
pub(crate) fn key_of_first(first: Option<Part>) -> Option<FirstKey>
    ensures { result ≡ keys.key_of_first first }
{
    match first? {
        Part::Variable(_) => None,
        Part::Integer(value) => Some(key_of_integer(value)),
        Part::Atom(name) => Some(FirstKey::Atom(name.number())),
        Part::Compound(name, count) => Some(FirstKey::Compound(name.number(), count)),
    }
}

/// The key of a goal whose first argument has this shape.
fn key_of_shape(shape: Shape) -> Option<FirstKey>
    ensures { result ≡ keys.key_of_shape shape }
{
    match shape {
        Shape::Var(_) => None,
        Shape::Int(value) => Some(key_of_integer(value)),
        Shape::Atom(name) => Some(FirstKey::Atom(name.number())),
        Shape::Compound(name, count) => Some(FirstKey::Compound(name.number(), count)),
    }
}

/// The shape of the first of the goal's so many arguments; none where it has none.
#[inline(always)]
fn first_shape<S: Store>(store: &S, goal: S::Word, count: usize) -> Option<Shape>
    requires goal { Holds (S.present store.now) goal }
    requires count { count ≡ arity (meaning (S.present store.now) goal) }
    ensures { MatchOption result (HasNoFirst (meaning (S.present store.now) goal))
        (λ shape. ShowsFirst (S.names store.now) shape (meaning (S.present store.now) goal)) }
{
    if count == 0 {
        return None;
    }
    Some(store.shape(store.arg(goal, 0)))
}

/// The key of the first of the goal's so many arguments; none where it is a variable, or where there is no argument.
#[inline(always)]
pub fn argument_key<S: Store>(store: &S, goal: S::Word, count: usize) -> Option<FirstKey>
    requires goal { Holds (S.present store.now) goal }
    requires count { count ≡ arity (meaning (S.present store.now) goal) }
    ensures { ShowsKey (S.names store.now) result (meaning (S.present store.now) goal) }
{
    key_of_shape(first_shape(store, goal, count)?)
}

/// The key of the first argument of a call, which this word stands for; none where it is a variable, or where there is
/// no argument.
#[inline(always)]
pub fn key_of_argument<S: Store>(store: &S, first: Option<S::Word>) -> Option<FirstKey>
    requires { IfSome first (Holds (S.present store.now)) }
    ensures { (call : Tree) → IsFirstArgument (S.present store.now) first call
        → ShowsKey (S.names store.now) result call }
{
    key_of_shape(store.shape(first?))
}

/// The key of the goal's first argument; none where it is a variable, or where the goal has no argument.
pub fn first_key<S: Store>(store: &S, goal: S::Word) -> Option<FirstKey>
    requires { Holds (S.present store.now) goal }
    ensures { ShowsKey (S.names store.now) result (meaning (S.present store.now) goal) }
{
    let Shape::Compound(_, count) = store.shape(goal) else {
        return None;
    };
    argument_key(store, goal, count)
}
