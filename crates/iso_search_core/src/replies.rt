//! What goals of the language's own procedures come to (7.8, 8).
ghost use Rattle.std.specs.Prelude.{◌≡◌, ◌≢◌, ◌<◌, ◌^◌, List, length, codes, true, IfOk, Err};
ghost use Rattle.std.specs.List.{All};
ghost use Rattle.iso_model.specs.Search.Library.{library_answer, library_arity};
ghost use Rattle.iso_model.specs.Search.AtomTexts.{text_answer, text_arity};
ghost use Rattle.iso_model.specs.Search.BuiltIns as table;
ghost use Rattle.iso_model.specs.declared.built_ins.BuiltIn.TheVariants as built_in;
ghost use Rattle.iso_model.specs.Search.Replies.{answered};
ghost use Rattle.iso_store_core.specs.Presents.{Holds};
ghost use Rattle.iso_store_core.specs.Retaining.{Retains, Takes};
ghost use Rattle.iso_store_core.specs.ArgumentWords.{AreArguments};
ghost use Rattle.iso_lib_core.specs.Cells.{made_for};
ghost use Rattle.iso_search_core.specs.Arities.{HasArity};
ghost use Rattle.iso_search_core.specs.Cells.{reply_cells};
ghost use Rattle.iso_program.specs.Controls.{AreControls};
ghost use Rattle.iso_program.specs.Vocabularies.{IsVocabulary};
ghost use Rattle.iso_search_core.specs.Replies.{IsReply, IsHalt, Asks, replied_of};
ghost use Rattle.iso_model.specs.Terms.Trees.{Tree, arities_fit};
ghost use Rattle.iso_model.specs.Terms.Sorts.{is_term};
ghost use Rattle.iso_model.specs.Terms.TermOf.{term_of};
ghost use Rattle.iso_model.specs.Terms.Arguments as parts;
ghost use Rattle.iso_model.specs.Search.Errors.{key};
ghost use Rattle.iso_search_core.specs.Standing.{Keeps};

use super::exists::stripped;
use super::goals::{Placed, goal_error, place_argument, place_called};
use super::lists::Lists;
use iso_lib::{Fault, Reply, builtin, errors, lists};
use iso_model::{AtomPart, Ball, BuiltIn, Library, NoMemory, Output, Setting, Storage, Term, Text};
use iso_program::controls::Controls;
use iso_program::vocabulary::Vocabulary;
use iso_store_core::{Shape, Store, StoreFault};
use std::alloc::Global;

/// What a goal of a built-in comes to.
#[derive(Drop)]
pub enum Replied<B> {
    /// The search goes on behind it.
    GoesOn,
    /// It fails.
    Fails,
    /// This error is raised.
    Raises(Ball),
    /// This body is run, and a cut in it is local to it (7.8.3).
    Calls(B),
    /// The same, for its first solution (8.15.2).
    CallsOnce(B),
    /// The same, and it succeeds where the body has no solution (8.15.1).
    Refutes(B),
    /// It succeeds each time that it is tried (8.15.3).
    Repeats,
    /// Its first argument is run inside a catch (7.8.9).
    Catches,
    /// This error is raised inside a catch (7.8.9).
    RaisesInside(Ball),
    /// Its second argument is run for all of its solutions (8.10.1).
    Gathers,
    /// What is left of its second argument behind each `V^` is run for all of its solutions, which come in groups;
    /// their lists are sorted, or not (8.10.2, 8.10.3).
    Groups(bool),
    /// The session ends with this status (8.17.3, 8.17.4).
    Halts(u8),
    /// What it comes to rests on the operators and the flags (8.14.3, 8.14.4, 8.17.1, 8.17.2).
    AsksSettings(Setting),
    /// What it comes to rests on the database (8.8, 8.9).
    AsksDatabase(Storage),
    /// Its arguments are unified with parts of atoms, or an error is raised (8.16.2, 8.16.3).
    TakesApart(AtomPart),
    /// It writes, or an error is raised, and what it writes rests on the operators (8.12.3, 8.14.2).
    Writes(Output),
}

/// Runs a goal of this built-in with these arguments: what it comes to. The errors: the store is full, or memory was
/// refused.
pub fn reply<S: Store, L: Lists<S>>(
    alloc: Global,
    store: &mut S,
    vocabulary: &Vocabulary,
    lists: &mut L,
    built_in: BuiltIn,
    arguments: &[S::Word],
) -> Result<Replied<L::Body>, StoreFault>
    requires arguments { All (λ w. Holds (S.present store.old) w) arguments.now }
    requires count { HasArity built_in (length arguments.now) }
    requires next { (S.present store.old).next < 2 ^ 63 }
    requires vocabulary { IsVocabulary (S.names store.old) vocabulary.now }
    ensures replies { (t : Tree) → is_term t ≡ true → AreArguments (S.present store.old) arguments.now t
        → IfOk result (IsReply L.Lists (S.present store.old) (S.present store.new) lists.old lists.new (table.reply built_in t)) }
    ensures asks { IfOk result (Asks built_in) }
    ensures keeps { Keeps L.Lists lists.old lists.new }
    ensures full { result ≡ Err StoreFault.Full → S.full store.new }
    ensures cells { (t : Tree) → is_term t ≡ true → AreArguments (S.present store.old) arguments.now t
        → Takes S.Store store.old store.new (reply_cells (table.reply built_in t)) }
    ensures rest { Retains S.Store store.old store.new }
{
    let controls = &vocabulary.controls;
    match built_in {
        BuiltIn::True => Ok(Replied::GoesOn),
        BuiltIn::Fail => Ok(Replied::Fails),
        BuiltIn::Repeat => Ok(Replied::Repeats),
        BuiltIn::Call => match place_called(alloc, store, controls, lists, arguments)? {
            Placed::Body(place) => Ok(Replied::Calls(place)),
            Placed::Raises(ball) => Ok(Replied::Raises(ball)),
        },
        BuiltIn::Once => match place_argument(
            alloc, store, controls, lists, arguments, 0, "once", 1,
        )? {
            Placed::Body(place) => Ok(Replied::CallsOnce(place)),
            Placed::Raises(ball) => Ok(Replied::Raises(ball)),
        },
        BuiltIn::Not => match place_argument(
            alloc, store, controls, lists, arguments, 0, "\\+", 1,
        )? {
            Placed::Body(place) => Ok(Replied::Refutes(place)),
            Placed::Raises(ball) => Ok(Replied::Raises(ball)),
        },
        BuiltIn::Catch => Ok(catches::<S, L>(alloc, store, controls, arguments)?),
        BuiltIn::Throw => Ok(Replied::Raises(thrown(alloc, store, arguments)?)),
        BuiltIn::Halt => Ok(Replied::Halts(0)),
        BuiltIn::HaltWith => halted(alloc, store, arguments),
        BuiltIn::Findall => Ok(findall::<S, L>(alloc, store, controls, arguments)?),
        BuiltIn::Bagof => Ok(groups::<S, L>(alloc, store, controls, arguments, "bagof", false)?),
        BuiltIn::Setof => Ok(groups::<S, L>(alloc, store, controls, arguments, "setof", true)?),
        BuiltIn::Exists => match place_argument(
            alloc, store, controls, lists, arguments, 1, "^", 2,
        )? {
            Placed::Body(place) => Ok(Replied::Calls(place)),
            Placed::Raises(ball) => Ok(Replied::Raises(ball)),
        },
        BuiltIn::Library(row) => library::<S, L>(alloc, store, vocabulary, row, arguments),
        BuiltIn::Setting(row) => Ok(Replied::AsksSettings(row)),
        BuiltIn::Storage(row) => Ok(Replied::AsksDatabase(row)),
        BuiltIn::AtomPart(row) => Ok(Replied::TakesApart(row)),
        BuiltIn::Text(row) => text::<S, L>(alloc, store, row, arguments),
        BuiltIn::Output(row) => Ok(Replied::Writes(row)),
    }
}

/// What a goal of `catch/3` comes to (7.8.9). The error is that memory was refused.
fn catches<S: Store, L: Lists<S>>(
    alloc: Global,
    store: &S,
    controls: &Controls,
    arguments: &[S::Word],
) -> Result<Replied<L::Body>, NoMemory>
    requires arguments { All (λ w. Holds (S.present store.now) w) arguments.now }
    requires count { length arguments.now ≡ 3 }
    requires controls { AreControls (S.names store.now) controls.now }
    ensures replies { (t : Tree) → AreArguments (S.present store.now) arguments.now t
        → (lists : L) → IfOk result
        (IsReply L.Lists (S.present store.now) (S.present store.now) lists lists (table.reply built_in.Catch t)) }
    ensures asks { (built_in : BuiltIn) → IfOk result (Asks built_in) }
{
    let goal = arguments[0];
    match goal_error(alloc, store, controls, goal, "catch", 3)? {
        None => Ok(Replied::Catches),
        Some(ball) => Ok(Replied::RaisesInside(ball)),
    }
}

/// The ball that a goal of `throw/1` throws, or the error where it is unbound (7.8.10). The error is that memory was
/// refused.
fn thrown<S: Store>(alloc: Global, store: &S, arguments: &[S::Word]) -> Result<Ball, NoMemory>
    requires arguments { All (λ w. Holds (S.present store.now) w) arguments.now }
    requires count { length arguments.now ≡ 1 }
    ensures ball { (t : Tree) → AreArguments (S.present store.now) arguments.now t
        → IfOk result (λ b. table.throw_reply (parts.argument 0 t) (key (codes "throw") 1) ≡ table.Raises (term_of b.term.value)) }
    ensures fits { IfOk result (λ b. arities_fit (term_of b.term.value) ≡ true) }
{
    let argument = arguments[0];
    match store.shape(argument) {
        Shape::Var(_) => errors::instantiation(alloc, "throw", 1),
        Shape::Int(_) | Shape::Atom(_) | Shape::Compound(_, _) => {
            let term = store.copy_out(argument)?;
            Ok(Ball {
                term: Box::new(alloc, term)?,
            })
        }
    }
}

/// What a goal of `halt/1` comes to (8.17.4). The error is that memory was refused.
fn halted<S: Store, B>(
    alloc: Global,
    store: &S,
    arguments: &[S::Word],
) -> Result<Replied<B>, StoreFault>
    requires arguments { All (λ w. Holds (S.present store.now) w) arguments.now }
    requires count { length arguments.now ≡ 1 }
    ensures halts { (t : Tree) → AreArguments (S.present store.now) arguments.now t
        → IfOk result (IsHalt (table.halt_reply (parts.argument 0 t) (key (codes "halt") 1))) }
    ensures asks { (built_in : BuiltIn) → IfOk result (Asks built_in) }
    ensures full { result ≢ Err StoreFault.Full }
{
    let argument = arguments[0];
    match store.shape(argument) {
        Shape::Var(_) => Ok(Replied::Raises(errors::instantiation(alloc, "halt", 1)?)),
        Shape::Int(status) if status < 0 || status > 255 => Ok(Replied::Raises(
            errors::out_of_domain(alloc, "exit_code", Term::Int(status), "halt", 1)?,
        )),
        Shape::Int(status) => Ok(Replied::Halts(status as u8)),
        Shape::Atom(_) | Shape::Compound(_, _) => Ok(Replied::Raises(errors::wrong_type(
            alloc,
            "integer",
            store.copy_out(argument)?,
            "halt",
            1,
        )?)),
    }
}

/// What a goal of `findall/3` comes to (8.10.1). The error is that memory was refused.
fn findall<S: Store, L: Lists<S>>(
    alloc: Global,
    store: &S,
    controls: &Controls,
    arguments: &[S::Word],
) -> Result<Replied<L::Body>, NoMemory>
    requires arguments { All (λ w. Holds (S.present store.now) w) arguments.now }
    requires count { length arguments.now ≡ 3 }
    requires controls { AreControls (S.names store.now) controls.now }
    ensures replies { (t : Tree) → AreArguments (S.present store.now) arguments.now t
        → (lists : L) → IfOk result
        (IsReply L.Lists (S.present store.now) (S.present store.now) lists lists (table.reply built_in.Findall t)) }
    ensures asks { (built_in : BuiltIn) → IfOk result (Asks built_in) }
{
    let (goal, solutions) = (arguments[1], arguments[2]);
    if let Some(ball) = goal_error(alloc, store, controls, goal, "findall", 3)? {
        return Ok(Replied::Raises(ball));
    }
    if !lists::is_partial_list(store, solutions) {
        let culprit = store.copy_out(solutions)?;
        let ball = errors::wrong_type(alloc, "list", culprit, "findall", 3)?;
        return Ok(Replied::Raises(ball));
    }
    Ok(Replied::Gathers)
}

/// What a goal of `bagof/3` or `setof/3` comes to, whose name this is (8.10.2, 8.10.3). The error is that memory was
/// refused.
fn groups<S: Store, L: Lists<S>>(
    alloc: Global,
    store: &S,
    controls: &Controls,
    arguments: &[S::Word],
    name: &str,
    sorts: bool,
) -> Result<Replied<L::Body>, NoMemory>
    requires arguments { All (λ w. Holds (S.present store.now) w) arguments.now }
    requires count { length arguments.now ≡ 3 }
    requires controls { AreControls (S.names store.now) controls.now }
    ensures replies { (t : Tree) → AreArguments (S.present store.now) arguments.now t
        → (lists : L) → IfOk result (IsReply L.Lists (S.present store.now) (S.present store.now) lists lists
        (table.groups_reply sorts (parts.argument 0 t) (parts.argument 1 t) (parts.argument 2 t) (key name.now 3))) }
    ensures asks { (built_in : BuiltIn) → IfOk result (Asks built_in) }
{
    let (goal, list) = (stripped(store, arguments[1]), arguments[2]);
    if let Some(ball) = goal_error(alloc, store, controls, goal, name, 3)? {
        return Ok(Replied::Raises(ball));
    }
    if !lists::is_partial_list(store, list) {
        let culprit = store.copy_out(list)?;
        let ball = errors::wrong_type(alloc, "list", culprit, name, 3)?;
        return Ok(Replied::Raises(ball));
    }
    Ok(Replied::Groups(sorts))
}

/// What a goal comes to that runs no other (8.2 to 8.7). The errors: the store is full, or memory was refused.
fn library<S: Store, L: Lists<S>>(
    alloc: Global,
    store: &mut S,
    vocabulary: &Vocabulary,
    row: Library,
    arguments: &[S::Word],
) -> Result<Replied<L::Body>, StoreFault>
    requires arguments { All (λ w. Holds (S.present store.old) w) arguments.now }
    requires count { length arguments.now ≡ library_arity row }
    requires next { (S.present store.old).next < 2 ^ 63 }
    requires vocabulary { IsVocabulary (S.names store.old) vocabulary.now }
    ensures replies { (t : Tree) → AreArguments (S.present store.old) arguments.now t
        → (lists : L) → IfOk result (IsReply L.Lists (S.present store.old) (S.present store.new) lists lists (answered (library_answer row t))) }
    ensures asks { (built_in : BuiltIn) → IfOk result (Asks built_in) }
    ensures full { result ≡ Err StoreFault.Full → S.full store.new }
    ensures cells { (t : Tree) → AreArguments (S.present store.old) arguments.now t
        → Takes S.Store store.old store.new (made_for (library_answer row t)) }
    ensures rest { Retains S.Store store.old store.new }
{
    answered(builtin(alloc, store, &vocabulary.evaluables, row, arguments))
}

/// What a goal on the characters of atoms or on the text of a number comes to (8.16). The errors: the store is full,
/// or memory was refused.
fn text<S: Store, L: Lists<S>>(
    alloc: Global,
    store: &mut S,
    row: Text,
    arguments: &[S::Word],
) -> Result<Replied<L::Body>, StoreFault>
    requires arguments { All (λ w. Holds (S.present store.old) w) arguments.now }
    requires count { length arguments.now ≡ text_arity row }
    ensures replies { (t : Tree) → AreArguments (S.present store.old) arguments.now t
        → (lists : L) → IfOk result (IsReply L.Lists (S.present store.old) (S.present store.new) lists lists (answered (text_answer row t))) }
    ensures asks { (built_in : BuiltIn) → IfOk result (Asks built_in) }
    ensures full { result ≡ Err StoreFault.Full → S.full store.new }
    ensures cells { (t : Tree) → AreArguments (S.present store.old) arguments.now t
        → Takes S.Store store.old store.new (made_for (text_answer row t)) }
    ensures rest { Retains S.Store store.old store.new }
{
    answered(iso_text::builtin(alloc, store, row, arguments))
}

/// What a goal comes to that was answered so. The errors: the store is full, or memory was refused.
fn answered<B>(answer: Result<Reply, Fault>) -> Result<Replied<B>, StoreFault>
    ensures { result ≡ replied_of answer }
{
    match answer {
        Ok(Reply::Done) => Ok(Replied::GoesOn),
        Ok(Reply::Fail) => Ok(Replied::Fails),
        Err(Fault::Raise(ball)) => Ok(Replied::Raises(ball)),
        Err(Fault::Full) => Err(StoreFault::Full),
        Err(Fault::NoMemory) => Err(StoreFault::NoMemory),
    }
}
