//! Goals that are called: converted where they stand in the store, and placed to be run (7.8.3).
ghost use Rattle.std.specs.Prelude.{◌≡◌, ◌<◌, ◌&&◌, ℕ, Err, IfOk, OnOk, MatchBool, MatchOption, Some, codes, map, length, true, false, nat_lt};
ghost use Rattle.std.specs.List.{All};
ghost use Rattle.iso_atoms.specs.Texts.{EachOnce, text_at};
ghost use Rattle.iso_model.specs.Terms.Trees.{Tree, Variable, row};
ghost use Rattle.iso_model.specs.Terms.Sorts.{is_row, is_term};
ghost use Rattle.iso_model.specs.Terms.Arguments as parts;
ghost use Rattle.iso_model.specs.Search.Bodies.{Body, converted};
ghost use Rattle.iso_model.specs.Search.BuiltIns as table;
ghost use Rattle.iso_model.specs.Search.BuiltIns.{goal_reply};
ghost use Rattle.iso_model.specs.Search.Errors.{key};
ghost use Rattle.iso_model.specs.declared.built_ins.BuiltIn.TheVariants as built_in;
ghost use Rattle.iso_store_core.specs.Presents.{Holds, meaning};
ghost use Rattle.iso_store_core.specs.Retaining.{RetainsAll, Takes};
ghost use Rattle.iso_store_core.specs.ArgumentWords.{AreArguments};
ghost use Rattle.iso_prep.specs.Conversions.{is_callable};
ghost use Rattle.iso_search_core.specs.Cells.{conversion_cells, goal_cells, reply_cells, IsBound, called_of};
ghost use Rattle.iso_program.specs.Controls.{AreControls};
ghost use Rattle.iso_search_core.specs.Constructs.{compound_of};
ghost use Rattle.iso_search_core.specs.Placing.{IsConverted};
ghost use Rattle.iso_search_core.specs.Standing.{Keeps};
ghost use Rattle.iso_search_core.specs.Replies.{CanBeRun, HasName, HasNoName, IsRefused, IsRunAs, IsPlaced, IsRaising};

use super::callable_goals::can_be_called;
use super::lists::Lists;
use iso_atoms::Atom;
use iso_lib::errors;
use iso_model::{Ball, MAX_ARITY, NoMemory};
use iso_program::controls::Controls;
use iso_store_core::{Shape, Store, StoreFault};
use std::alloc::Global;

/// What a goal that is to be run comes to.
#[derive(Drop)]
pub enum Placed<B> {
    /// Its body was placed.
    Body(B),
    /// This error is raised.
    Raises(Ball),
}

/// How many arguments the term has that the word stands for.
fn argument_count<S: Store>(store: &S, word: S::Word) -> usize
    requires { Holds (S.present store.now) word }
    ensures count { result ≡ parts.arity (meaning (S.present store.now) word) }
    ensures few { result < 256 }
    ensures term { is_term (meaning (S.present store.now) word) ≡ true }
{
    match store.shape(word) {
        Shape::Compound(_, count) => count,
        Shape::Var(_) | Shape::Int(_) | Shape::Atom(_) => 0,
    }
}

/// Appends words for the arguments of the term that the word stands for. The error is that memory was refused.
fn push_arguments<S: Store>(
    store: &S,
    word: S::Word,
    words: &mut Vec<S::Word>,
) -> Result<(), NoMemory>
    requires word { Holds (S.present store.now) word }
    requires words { All (λ w. Holds (S.present store.now) w) words.old.items }
    ensures values { OnOk result (row (map (meaning (S.present store.now)) words.new.items)
        ≡ parts.joined (row (map (meaning (S.present store.now)) words.old.items)) (parts.arguments (meaning (S.present store.now) word))) }
    ensures hold { OnOk result (All (λ w. Holds (S.present store.now) w) words.new.items) }
    ensures term { is_term (meaning (S.present store.now) word) ≡ true }
{
    let count = argument_count(store, word);
    for index in 0..count {
        words.push(store.arg(word, index))?;
    }
    Ok(())
}

/// Reads the arguments of the goal into the list, in place of what it had. The error is that memory was refused.
pub fn read_arguments<S: Store>(
    store: &S,
    goal: S::Word,
    words: &mut Vec<S::Word>,
) -> Result<(), NoMemory>
    requires { Holds (S.present store.now) goal }
    ensures arguments { OnOk result (AreArguments (S.present store.now) words.new.items (meaning (S.present store.now) goal)) }
    ensures term { is_term (meaning (S.present store.now) goal) ≡ true }
{
    words.clear();
    push_arguments(store, goal, words)?;
    Ok(())
}

/// The name of the atom or of the compound that the word stands for.
fn name_of<S: Store>(store: &S, word: S::Word) -> Option<Atom>
    requires { Holds (S.present store.now) word }
    ensures name { MatchOption result (HasNoName (meaning (S.present store.now) word))
        (λ name. (name < length (S.names store.now)) × HasName (text_at (S.names store.now) name) (meaning (S.present store.now) word)) }
    ensures names { EachOnce (S.names store.now) }
{
    match store.shape(word) {
        Shape::Atom(name) => Some(name),
        Shape::Compound(name, _) => Some(name),
        Shape::Var(_) | Shape::Int(_) => None,
    }
}

/// Whether the word stands for a variable. A term has at most 255 arguments.
fn is_unbound<S: Store>(store: &S, word: S::Word) -> bool
    requires { Holds (S.present store.now) word }
    ensures unbound { MatchBool result ((n : ℕ) × (meaning (S.present store.now) word ≡ Variable n)) (IsBound (meaning (S.present store.now) word)) }
    ensures few { nat_lt 255 (parts.arity (meaning (S.present store.now) word)) ≡ false }
{
    match store.shape(word) {
        Shape::Var(_) => true,
        Shape::Int(_) | Shape::Atom(_) | Shape::Compound(_, _) => false,
    }
}

/// The error that the procedure of this name and arity raises where it was called for the goal: the goal is unbound,
/// or it can't be converted (7.8.3.3). The error of the call is that memory was refused.
pub fn goal_error<S: Store>(
    alloc: Global,
    store: &S,
    controls: &Controls,
    goal: S::Word,
    name: &str,
    arity: usize,
) -> Result<Option<Ball>, NoMemory>
    requires goal { Holds (S.present store.now) goal }
    requires controls { AreControls (S.names store.now) controls.now }
    requires arity { arity < 256 }
    ensures error { IfOk result (λ error. MatchOption error (CanBeRun (meaning (S.present store.now) goal)) (IsRefused (meaning (S.present store.now) goal) (key name.now arity))) }
    ensures few { nat_lt 255 (parts.arity (meaning (S.present store.now) goal)) ≡ false }
{
    if is_unbound(store, goal) {
        return Ok(Some(errors::instantiation(alloc, name, arity)?));
    }
    if can_be_called(alloc, store, controls, goal)? {
        return Ok(None);
    }
    let culprit = store.copy_out(goal)?;
    Ok(Some(errors::not_callable(alloc, culprit, name, arity)?))
}

/// Converts the goal (7.6.2) and places it, or gives the error that the procedure of this name
/// and arity raises: the goal is unbound, or it can't be converted. Nothing is made for an error. The errors: the
/// store is full, or memory was refused.
fn place_goal<S: Store, L: Lists<S>>(
    alloc: Global,
    store: &mut S,
    controls: &Controls,
    lists: &mut L,
    goal: S::Word,
    name: &str,
    arity: usize,
) -> Result<Placed<L::Body>, StoreFault>
    requires goal { Holds (S.present store.old) goal }
    requires controls { AreControls (S.names store.old) controls.now }
    requires arity { arity < 256 }
    ensures placed { IfOk result (IsRunAs L.Lists (S.present store.old) (S.present store.new) lists.old lists.new
        (λ runs. goal_reply runs (meaning (S.present store.old) goal) (key name.now arity))) }
    ensures raises { IfOk result (IsRaising L.Lists (S.present store.old) (S.present store.new)) }
    ensures few { nat_lt 255 (parts.arity (meaning (S.present store.old) goal)) ≡ false }
    ensures full { result ≡ Err StoreFault.Full → S.full store.new }
    ensures keeps { Keeps L.Lists lists.old lists.new }
    ensures cells { Takes S.Store store.old store.new (goal_cells (meaning (S.present store.old) goal)) }
    ensures rest { RetainsAll S.Store store.old store.new }
{
    if let Some(ball) = goal_error(alloc, store, controls, goal, name, arity)? {
        return Ok(Placed::Raises(ball));
    }
    let place = lists.place_goal(alloc, store, controls, goal)?;
    Ok(Placed::Body(place))
}

/// Places the body of the goal that is the argument at this place, for which the procedure of this name and arity
/// was called, or gives the error that it raises. The errors: the store is full, or memory was refused.
pub fn place_argument<S: Store, L: Lists<S>>(
    alloc: Global,
    store: &mut S,
    controls: &Controls,
    lists: &mut L,
    arguments: &[S::Word],
    index: usize,
    name: &str,
    arity: usize,
) -> Result<Placed<L::Body>, StoreFault>
    requires arguments { All (λ w. Holds (S.present store.old) w) arguments.now }
    requires arity { arity < 256 }
    requires index { index < length arguments.now }
    requires controls { AreControls (S.names store.old) controls.now }
    ensures placed { (t : Tree) → AreArguments (S.present store.old) arguments.now t
        → IfOk result (IsRunAs L.Lists (S.present store.old) (S.present store.new) lists.old lists.new
        (λ runs. goal_reply runs (parts.argument index t) (key name.now arity))) }
    ensures raises { IfOk result (IsRaising L.Lists (S.present store.old) (S.present store.new)) }
    ensures full { result ≡ Err StoreFault.Full → S.full store.new }
    ensures keeps { Keeps L.Lists lists.old lists.new }
    ensures cells { (t : Tree) → AreArguments (S.present store.old) arguments.now t
        → Takes S.Store store.old store.new (goal_cells (parts.argument index t)) }
    ensures rest { RetainsAll S.Store store.old store.new }
{
    place_goal(alloc, store, controls, lists, arguments[index], name, arity)
}

/// Whether both goals can be converted. The error is that memory was refused.
fn both_can_be_called<S: Store>(
    alloc: Global,
    store: &S,
    controls: &Controls,
    first: S::Word,
    second: S::Word,
) -> Result<bool, NoMemory>
    requires first { Holds (S.present store.now) first }
    requires second { Holds (S.present store.now) second }
    requires controls { AreControls (S.names store.now) controls.now }
    ensures { IfOk result (λ can. can ≡ is_callable (meaning (S.present store.now) first) && is_callable (meaning (S.present store.now) second)) }
{
    if !can_be_called(alloc, store, controls, first)? {
        return Ok(false);
    }
    Ok(can_be_called(alloc, store, controls, second)?)
}

/// The error that a goal of `call/N` of this arity raises where it is for the compound of this name and these
/// arguments: the compound can't be converted. The error of the call is that memory was refused.
fn compound_error<S: Store>(
    alloc: Global,
    store: &S,
    controls: &Controls,
    name: Atom,
    words: &[S::Word],
    arity: usize,
) -> Result<Option<Ball>, NoMemory>
    requires name { name < length (S.names store.now) }
    requires names { EachOnce (S.names store.now) }
    requires words { All (λ w. Holds (S.present store.now) w) words.now }
    requires controls { AreControls (S.names store.now) controls.now }
    requires arity { arity < 256 }
    ensures { let goal = compound_of (S.present store.now) (S.names store.now) name words.now in
        IfOk result (λ error. MatchOption error (CanBeRun goal) (IsRefused goal (key (codes "call") arity))) }
{
    if words.len() != 2 {
        return Ok(None);
    }
    if controls.connective(name).is_none() {
        return Ok(None);
    }
    let (first, second) = (words[0], words[1]);
    if both_can_be_called(alloc, store, controls, first, second)? {
        return Ok(None);
    }
    let (first, second) = (store.copy_out(first)?, store.copy_out(second)?);
    let culprit = errors::compound2(alloc, store.text(name), first, second)?;
    Ok(Some(errors::not_callable(alloc, culprit, "call", arity)?))
}

/// Makes the compound of this name and these arguments, for which a goal of `call/N` of this arity was called, and
/// places its body; or gives the error that it can't be converted, for which nothing is made. The errors: the store is
/// full, or memory was refused.
fn place_compound<S: Store, L: Lists<S>>(
    alloc: Global,
    store: &mut S,
    controls: &Controls,
    lists: &mut L,
    name: Atom,
    words: &[S::Word],
    arity: usize,
) -> Result<Placed<L::Body>, StoreFault>
    requires name { name < length (S.names store.old) }
    requires names { EachOnce (S.names store.old) }
    requires words { All (λ w. Holds (S.present store.old) w) words.now }
    requires some { 0 < length words.now }
    requires few { length words.now < 256 }
    requires controls { AreControls (S.names store.old) controls.now }
    requires arity { arity < 256 }
    ensures placed { IfOk result (IsRunAs L.Lists (S.present store.old) (S.present store.new) lists.old lists.new
        (λ runs. goal_reply runs (compound_of (S.present store.old) (S.names store.old) name words.now) (key (codes "call") arity))) }
    ensures raises { IfOk result (IsRaising L.Lists (S.present store.old) (S.present store.new)) }
    ensures full { result ≡ Err StoreFault.Full → S.full store.new }
    ensures keeps { Keeps L.Lists lists.old lists.new }
    ensures cells { is_row (row (map (meaning (S.present store.old)) words.now)) ≡ true
        → Takes S.Store store.old store.new (goal_cells (compound_of (S.present store.old) (S.names store.old) name words.now)) }
    ensures rest { RetainsAll S.Store store.old store.new }
{
    if let Some(ball) = compound_error(alloc, store, controls, name, words, arity)? {
        return Ok(Placed::Raises(ball));
    }
    let goal = store.compound(name, words)?;
    let place = lists.place_goal(alloc, store, controls, goal)?;
    Ok(Placed::Body(place))
}

/// Places the body of the goal that a goal of `call/N` with these arguments is for (7.8.3): its first argument, with
/// the others behind its own. Or gives the error that it raises, for which nothing is made. The errors: the store is
/// full, or memory was refused.
pub fn place_called<S: Store, L: Lists<S>>(
    alloc: Global,
    store: &mut S,
    controls: &Controls,
    lists: &mut L,
    arguments: &[S::Word],
) -> Result<Placed<L::Body>, StoreFault>
    requires arguments { All (λ w. Holds (S.present store.old) w) arguments.now }
    requires some { 0 < length arguments.now }
    requires few { length arguments.now < 256 }
    requires controls { AreControls (S.names store.old) controls.now }
    ensures placed { (t : Tree) → is_term t ≡ true → AreArguments (S.present store.old) arguments.now t
        → IfOk result (IsPlaced L.Lists (S.present store.old) (S.present store.new) lists.old lists.new
        (called_of t) (key (codes "call") (parts.arity t))) }
    ensures raises { IfOk result (IsRaising L.Lists (S.present store.old) (S.present store.new)) }
    ensures full { result ≡ Err StoreFault.Full → S.full store.new }
    ensures keeps { Keeps L.Lists lists.old lists.new }
    ensures cells { (t : Tree) → is_term t ≡ true → AreArguments (S.present store.old) arguments.now t
        → Takes S.Store store.old store.new (reply_cells (table.reply built_in.Call t)) }
    ensures rest { RetainsAll S.Store store.old store.new }
{
    let arity = arguments.len();
    let first = arguments[0];
    let others = &arguments[1..];
    if others.is_empty() {
        return place_goal(alloc, store, controls, lists, first, "call", arity);
    }
    let Some(name) = name_of(store, first) else {
        return place_goal(alloc, store, controls, lists, first, "call", arity);
    };
    if argument_count(store, first) + others.len() > MAX_ARITY {
        let ball = errors::too_many_arguments(alloc, "call", arity)?;
        return Ok(Placed::Raises(ball));
    }
    let mut words = Vec::new(alloc);
    push_arguments(store, first, &mut words)?;
    words.extend_from_slice(others)?;
    place_compound(alloc, store, controls, lists, name, words.as_slice(), arity)
}
