//! A clause is entered for a call whose arguments were put, over the store and the lists, with no search.
ghost use Rattle.std.specs.Prelude.{◌≡◌, ◌≢◌, ◌≤◌, ◌<◌, ◌+◌, ◌-◌, ◌*◌, ◌++◌, ◌^◌, ℕ, List, Some, Err, IfOk, Vec};
ghost use Rattle.std.specs.Prelude.{length};
ghost use Rattle.std.specs.Prelude.{true, false, ◌⊎◌};
ghost use Rattle.iso_atoms.specs.Texts.{text_at};
ghost use Rattle.iso_model.specs.Terms.Trees.{Tree};
ghost use Rattle.iso_model.specs.Search.Databases as databases;
ghost use Rattle.iso_model.specs.Search.Keys.{Key, key, key_of};
ghost use Rattle.iso_model.specs.Search.Walker.{Member, arguments_size, body_size};
ghost use Rattle.iso_store_core.specs.Presents.{Present, Grows};
ghost use Rattle.iso_store_core.specs.Retaining.{CountsCells, RetainsAll};
ghost use Rattle.iso_program.specs.Kept.{IsClause};
ghost use Rattle.iso_plain_core.specs.Entering.{Adds};
ghost use Rattle.iso_search_core.specs.Bodies.{body_cost, most};
ghost use Rattle.iso_search_core.specs.Own.{own_of};
ghost use Rattle.iso_clause_code.specs.Keeping.{KeepsCode};
ghost use Rattle.iso_frames.specs.Frames.{Chain};
ghost use Rattle.iso_frames.specs.Costs.{cells_from};
ghost use Rattle.iso_environments.specs.Stacks.{stack};
ghost use Rattle.iso_instructions.specs.Forms.{is_one_call, makes_frame};
ghost use Rattle.iso_environments.specs.Entered.{HasEnvironment, clause_members};
ghost use Rattle.iso_machine.specs.Engines.{framed};
ghost use Rattle.std.specs.Global.{Global};
ghost use Rattle.iso_frames.specs.declared.frames.Frame.{Frame};
ghost use Rattle.iso_machine.specs.LastCalls.{CallsAlone, HasFrame, place_of, with_frames};
ghost use Rattle.iso_machine.specs.Entered.{Begins, IfAt, Comes};
ghost use Rattle.iso_machine.specs.Lists.{IsList, IsPut, cost_at, extent_of, pending_at};

use super::framed::Framed;
use iso_atoms::Atom;
use iso_cells::Cells;
use iso_environments::{Put, is_fact, meet_clause, push_clause};
use iso_frames::Rest;
use iso_instructions::{Code, Form};
use iso_program::clauses::Clause;
use iso_search_core::own::OwnOf;
use iso_store_core::{Store, StoreFault};
use std::alloc::AllocError;
use std::rc::Rc;

/// What entering a clause for a call came to.
#[derive(Clone, Copy)]
pub(crate) enum Entered {
    /// Its head and the call don't unify.
    Missed,
    /// The clause was entered: the list begins at this place.
    At(Option<Rest>),
    /// The clause was entered, whose body is one goal of a procedure: it has no frame, and its environment is the last
    /// of the words.
    Last,
}

/// Whether the body of the clause is one goal of a procedure.
fn is_one_call(code: &Code) -> bool
    ensures form { result ≡ is_one_call code.now.form }
    ensures alone { result ≡ true → CallsAlone code.now }
{
    match code.form {
        Form::OneCall => true,
        Form::Fact | Form::Other => false,
    }
}

/// Whether a clause with this code has a frame when it is entered: it is no fact's, and not that of one goal of a
/// procedure where it is said to be the last.
pub(crate) fn makes_frame(code: &Code, last: bool) -> bool
    ensures { result ≡ makes_frame code.now.form last }
{
    match code.form {
        Form::Fact => false,
        Form::OneCall => !last,
        Form::Other => true,
    }
}

/// Whether the clause with this code has this name, and so many arguments.
fn is_called(code: &Code, name: Atom, count: usize) -> bool
    ensures same { result ≡ true → (code.now.name ≡ name) × (code.now.arity ≡ count) }
    ensures other { result ≡ false → code.now.name ≡ name → code.now.arity ≢ count }
{
    code.arity == count && code.name == name
}

/// Where the list begins behind the head of a clause that was entered for this call with this cut mark: at a frame of
/// its own where its body is a goal, unless it is said to be the last and its body is one goal of a procedure. Its
/// environment is the last of the words. The error is that memory was refused.
fn begin<S: Cells>(
    lists: &mut Framed<S>,
    code: &Rc<Code>,
    put: &Put,
    mark: usize,
    last: bool,
) -> Result<Entered, AllocError>
    requires { 0 < length code.now.value.body.items }
    ensures list { (p : Present S.Word) (names : List (List ℕ)) (c : databases.Clause)
        (below environment : List S.Word) (ms : List Member)
        → lists.old.words.items ≡ below ++ environment
        → HasEnvironment S.atom_word p names code.now.value c environment
        → Chain S.atom_word p (stack lists.old.nodes.items lists.old.frames.items below) put.now.behind ms
        → IfOk result (λ e. IfAt e (λ place. IsList S.atom_word p lists.new (extent_of lists.new) place
        (clause_members p environment mark c ++ ms))) }
    ensures cost { IfOk result (λ e. IfAt e (λ place. cost_at lists.new place
        ≤ body_cost most (cost_at lists.old put.now.behind))) }
    ensures pending { IfOk result (λ e. IfAt e (λ place. pending_at lists.new place
        ≤ cells_from code.now.value (length code.now.value.body.items - 1) + pending_at lists.old put.now.behind)) }
    ensures frames { Adds lists.old.frames.items lists.new.frames.items }
    ensures same { lists.new ≡ record lists.old { frames = lists.new.frames } }
    ensures met { result ≢ Ok Entered.Missed }
    ensures last { result ≡ Ok Entered.Last → (last ≡ true) × (lists.new ≡ lists.old) × CallsAlone code.now.value }
{
    if is_fact(code.as_ref()) {
        return Ok(Entered::At(put.behind));
    }
    if last && is_one_call(code.as_ref()) {
        return Ok(Entered::Last);
    }
    let place = push_clause(
        &mut lists.frames,
        lists.words.as_slice(),
        code,
        mark,
        put.behind,
    )?;
    Ok(Entered::At(Some(place)))
}

/// Enters the clause for this call, whose arguments were put, with this cut mark (7.7.10): without a frame where it is
/// said to be the last and its body is one goal of a procedure. The caller keeps the next number below 2^63. The
/// errors: the store is full, or memory was refused.
pub(crate) fn enter<S: Cells>(
    store: &mut S,
    lists: &mut Framed<S>,
    clause: &Clause<OwnOf<S, Framed<S>>>,
    put: &Put,
    mark: usize,
    last: bool,
) -> Result<Entered, StoreFault>
    requires { (c : databases.Clause) × (goal : Tree) × (ms : List Member)
        × IsClause (own_of (framed S.atom_word)) (S.names store.old) clause.now c
        × IsPut S.atom_word (S.present store.old) lists.old put.now.name goal
        × IsList S.atom_word (S.present store.old) lists.old (extent_of lists.old) put.now.behind ms
        × ((S.present store.old).next + clause.now.variables < 2 ^ 63) }
    ensures comes { (c : databases.Clause) (goal : Tree) (ms : List Member)
        → IsClause (own_of (framed S.atom_word)) (S.names store.old) clause.now c
        → IsPut S.atom_word (S.present store.old) lists.old put.now.name goal
        → IsList S.atom_word (S.present store.old) lists.old (extent_of lists.old) put.now.behind ms
        → IfOk result (λ e. Comes S.atom_word (S.present store.old) (S.present store.new) goal c mark ms lists.new e) }
    ensures cost { IfOk result (λ e. IfAt e (λ place. cost_at lists.new place
        ≤ body_cost most (cost_at lists.old put.now.behind))) }
    ensures pending { (c : databases.Clause) → IsClause (own_of (framed S.atom_word)) (S.names store.old) clause.now c
        → IfOk result (λ e. IfAt e (λ place. pending_at lists.new place
        ≤ 2 * body_size c.body + pending_at lists.old put.now.behind)) }
    ensures cells { (c : databases.Clause) → IsClause (own_of (framed S.atom_word)) (S.names store.old) clause.now c
        → CountsCells S.Store → Grows (S.present store.old) (S.present store.new)
        (c.variables + arguments_size c.head) c.variables }
    ensures alone { result ≡ Ok Entered.Last → (last ≡ true) × (lists.new.frames ≡ lists.old.frames)
        × CallsAlone clause.now.own.kept.value }
    ensures last { (fs : Vec Frame Global) (c : databases.Clause) (goal : Tree) (ms : List Member)
        → result ≡ Ok Entered.Last → HasFrame lists.new fs clause.now.own.kept mark put.now.behind
        → IsClause (own_of (framed S.atom_word)) (S.names store.old) clause.now c
        → IsPut S.atom_word (S.present store.old) lists.old put.now.name goal
        → IsList S.atom_word (S.present store.old) lists.old (extent_of lists.old) put.now.behind ms
        → Begins S.atom_word (S.present store.old) (S.present store.new) goal c mark ms (with_frames lists.new fs)
        (Some (place_of lists.new)) }
    ensures nodes { lists.new.nodes ≡ lists.old.nodes }
    ensures arguments { lists.new.arguments ≡ lists.old.arguments }
    ensures frames { Adds lists.old.frames.items lists.new.frames.items }
    ensures words { Adds lists.old.words.items lists.new.words.items }
    ensures full { result ≡ Err StoreFault.Full → S.full store.new }
    ensures rest { RetainsAll S.Store store.old store.new }
{
    let code = &clause.own.kept;
    let count = lists.arguments.len();
    if !is_called(code.as_ref(), put.name, count) {
        return Ok(Entered::Missed);
    }
    let met = meet_clause(
        store,
        &mut lists.words,
        code.as_ref(),
        lists.arguments.as_slice(),
        &mut lists.compounds,
        &mut lists.made,
    )?;
    if !met {
        return Ok(Entered::Missed);
    }
    Ok(begin(lists, code, put, mark, last)?)
}
