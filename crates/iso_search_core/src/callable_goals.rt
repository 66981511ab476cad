//! Goals where they stand in the store: the control constructs that they are, by the atoms of their names, and whether
//! they can be converted (7.6.2).
ghost use Rattle.std.specs.Prelude.{◌≡◌, None, Err, IfOk, OnOk, MatchOption, codes};
ghost use Rattle.iso_model.specs.Search.Bodies.{one};
ghost use Rattle.iso_store_core.specs.Presents.{Grows, Holds, meaning, Makes, KeepsNumbers};
ghost use Rattle.iso_store_core.specs.Retaining.{RetainsAll, Takes};
ghost use Rattle.iso_prep.specs.Connectives.{control_of};
ghost use Rattle.iso_prep.specs.Conversions.{is_callable};
ghost use Rattle.iso_program.specs.Controls.{AreControls};
ghost use Rattle.iso_search_core.specs.Constructs.{IsConstruct};

use iso_prep::Connective;
use iso_program::controls::Controls;
use iso_store_core::{Shape, Store, StoreFault};
use std::alloc::{AllocError, Global};

/// A control construct of two parts.
#[derive(Clone, Copy)]
pub struct Construct<W> {
    pub connective: Connective,
    pub first: W,
    pub second: W,
}

/// The control construct that the word stands for, where it is one.
pub fn control<S: Store>(
    store: &S,
    controls: &Controls,
    word: S::Word,
) -> Option<Construct<S::Word>>
    requires word { Holds (S.present store.now) word }
    requires controls { AreControls (S.names store.now) controls.now }
    ensures { MatchOption result (control_of (meaning (S.present store.now) word) ≡ None) (IsConstruct (S.present store.now) (meaning (S.present store.now) word)) }
{
    match store.shape(word) {
        Shape::Compound(name, count) => {
            if count != 2 {
                return None;
            }
            let connective = controls.connective(name)?;
            let (first, second) = (store.arg(word, 0), store.arg(word, 1));
            Some(Construct {
                connective,
                first,
                second,
            })
        }
        Shape::Var(_) | Shape::Int(_) | Shape::Atom(_) => None,
    }
}

/// Whether a part that is no control construct of two parts can be a goal: it is no number.
fn is_goal<S: Store>(store: &S, word: S::Word) -> bool
    requires { Holds (S.present store.now) word }
    ensures { control_of (meaning (S.present store.now) word) ≡ None → result ≡ is_callable (meaning (S.present store.now) word) }
{
    match store.shape(word) {
        Shape::Int(_) => false,
        Shape::Var(_) | Shape::Atom(_) | Shape::Compound(_, _) => true,
    }
}

/// Whether the goal can be converted: none of its parts, through its control constructs, is a number. A goal that is
/// no control construct takes no memory. The error is that memory was refused.
pub fn can_be_called<S: Store>(
    alloc: Global,
    store: &S,
    controls: &Controls,
    goal: S::Word,
) -> Result<bool, AllocError>
    requires goal { Holds (S.present store.now) goal }
    requires controls { AreControls (S.names store.now) controls.now }
    ensures { IfOk result (λ can. can ≡ is_callable (meaning (S.present store.now) goal)) }
{
    let mut parts = Vec::new(alloc);
    let mut next = Some(goal);
    'looking: while let Some(part) = next {
        next = match control(store, controls, part) {
            Some(whole) => {
                parts.push(whole.second)?;
                Some(whole.first)
            }
            None if is_goal(store, part) => parts.pop(),
            None => return Ok(false),
        };
    }
    Ok(true)
}

/// The goal `call(X)`, where the word is the one of X. The errors: the store is full, or memory was refused.
pub fn call_of<S: Store>(
    alloc: Global,
    store: &mut S,
    controls: &Controls,
    word: S::Word,
) -> Result<S::Word, StoreFault>
    requires word { Holds (S.present store.old) word }
    requires controls { AreControls (S.names store.old) controls.now }
    ensures made { IfOk result (λ w. Makes (S.present store.old) (S.present store.new) w (one (codes "call") ((S.present store.old).term word))) }
    ensures numbers { OnOk result (KeepsNumbers (S.present store.old) (S.present store.new)) }
    ensures full { result ≡ Err StoreFault.Full → S.full store.new }
    ensures cells { Takes S.Store store.old store.new 2 }
    ensures grows { Grows (S.present store.old) (S.present store.new) 2 0 }
    ensures rest { RetainsAll S.Store store.old store.new }
{
    let mut arguments = Vec::with_capacity(alloc, 1)?;
    arguments.push(word)?;
    store.compound(controls.call, arguments.as_slice())
}
