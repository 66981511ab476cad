//! What a goal calls (7.7.7).
ghost use Rattle.std.specs.Prelude.{◌≡◌, ◌<◌, ℕ, List, None, Some, IfOk, IfSome, MatchOption, length};
ghost use Rattle.iso_model.specs.Terms.Trees.{Tree};
ghost use Rattle.iso_model.specs.Terms.Arguments.{arity as arity_of};
ghost use Rattle.iso_model.specs.Terms.TermOf.{term_of};
ghost use Rattle.iso_model.specs.Search.BuiltIns.{built_in};
ghost use Rattle.iso_model.specs.Search.Databases as databases;
ghost use Rattle.iso_model.specs.Search.Walker.{World};
ghost use Rattle.iso_model.specs.Search.Errors.{Key, key, existence_error};
ghost use Rattle.iso_model.specs.Search.Databases.{key_of};
ghost use Rattle.iso_atoms.specs.Texts.{EachOnce, text_at};
ghost use Rattle.iso_db.specs.Presents.{contents};
ghost use Rattle.iso_db.specs.Keyed.{remaining_keyed};
ghost use Rattle.iso_db.specs.declared.keyed.KeyedView.{KeyedView};
ghost use Rattle.iso_store_core.specs.Presents.{Holds, meaning};
ghost use Rattle.iso_search.specs.Worlds.{IsWorld};
ghost use Rattle.iso_program.specs.Callables.{Finds, callee_of};
ghost use Rattle.iso_program.specs.Firsts.{IsFirstArgument};
ghost use Rattle.iso_program.specs.FirstKeys.{ShowsKey};
ghost use Rattle.iso_program.specs.Leaving.{AreLeft};
ghost use Rattle.iso_program.specs.Keying.{AreKeyed};
ghost use Rattle.iso_program.specs.Programs.{kept_at, kind_of};
ghost use Rattle.iso_search_core.specs.Own.{own_of};
ghost use Rattle.iso_search.specs.Called.{IsNamed, IsCalled};

use super::search::Search;
use iso_atoms::Atom;
use iso_db::{ClauseId, FirstKey, KeyedView};
use iso_lib::errors;
use iso_model::{Ball, BuiltIn};
use iso_ops::Unknown;
use iso_program::callables::{self, Callee};
use iso_program::firsts::{argument_key, key_of_argument};
use iso_program::left_clauses::first_left;
use iso_search_core::lists::Lists;
use iso_store_core::{Shape, Store};
use std::alloc::AllocError;

/// What a goal calls.
#[derive(Clone, Copy)]
pub enum Called {
    /// A procedure of the language itself.
    BuiltIn(BuiltIn),
    /// A procedure, by the first of its clauses that are left for the goal.
    User(ClauseId),
    /// A procedure of which no clause is left for the goal; or none, and the flag `unknown` says that it fails.
    Fails,
    /// No procedure, and the flag `unknown` says that it is an error.
    Unknown,
}

/// A goal that is next, where the list behind it begins, and what it calls.
#[derive(Clone, Copy)]
pub struct NextGoal<W, P> {
    pub goal: W,
    pub rest: P,
    pub called: Called,
}

/// What the member that is next came to.
#[derive(Clone, Copy)]
pub enum Next {
    /// It is a goal of a procedure with clauses, which was called.
    Went,
    /// It is one, and no choice or frame may be made any more; the engine is spent.
    Full,
    /// It is left: a goal that calls something else, or for which no step is left, which is told beside this; or no
    /// goal.
    Other,
}

impl<S: Store + Drop, L: Lists<S>> Search<S, L> {
    /// What a call of an unknown procedure comes to, by the flag `unknown` (7.11.2.4).
    fn unknown(&self) -> Called
        ensures { (names : List (List ℕ)) (later : KeyedView) (w : World) (k : Key) (t : Tree)
            → IsWorld S.Store L.Lists self.entry.now w → built_in k ≡ None
            → kind_of (kept_at (contents self.entry.now.db) k) ≡ None
            → IsNamed (AreLeft (own_of L.Lists) names self.entry.now.db) later w k t result }
    {
        match self.flags.unknown {
            Unknown::Error => Called::Unknown,
            Unknown::Fail => Called::Fails,
        }
    }

    /// The error that the goal calls no procedure (7.7.7). The error is that memory was refused.
    pub(crate) fn unknown_procedure(&self, goal: S::Word) -> Result<Ball, AllocError>
        requires goal { Holds (S.present self.now.store) goal }
        requires named { (k : Key) × (key_of (meaning (S.present self.now.store) goal) ≡ Some k) }
        ensures { (k : Key) → key_of (meaning (S.present self.entry.now.store) goal) ≡ Some k
            → IfOk result (λ ball. term_of ball.term.value ≡ existence_error k) }
    {
        let (name, arity) = match self.store.shape(goal) {
            Shape::Atom(name) => (name, 0),
            Shape::Compound(name, arity) => (name, arity),
            Shape::Var(_) | Shape::Int(_) => unreachable!(),
        };
        errors::unknown_procedure(self.alloc, self.store.text(name), arity)
    }

    /// What is called under this name and arity; none where nothing is.
    #[inline(always)]
    fn callee(&self, name: Atom, arity: usize) -> Option<Callee>
        requires name { name < length (S.names self.now.store) }
        requires each_once { EachOnce (S.names self.now.store) }
        requires found { Finds (S.names self.now.store) self.now.callables.items (contents self.now.db) }
        ensures { let k = key (text_at (S.names self.entry.now.store) name) arity
            in MatchOption result ((built_in k ≡ None) × (kind_of (kept_at (contents self.entry.now.db) k) ≡ None))
            (λ callee. callee_of (contents self.entry.now.db) k ≡ Some callee) }
    {
        callables::find(self.callables.as_slice(), name, arity)
    }

    /// What is called of the procedure at this place, where the first argument of the call has this key. `later`, which
    /// gave nothing, gives the clauses behind the first then.
    #[inline(always)]
    fn left_of(&self, place: usize, key: Option<FirstKey>, later: &mut KeyedView) -> Called
        requires called { (k : Key) × (callee_of (contents self.now.db) k ≡ Some (Callee.User place)) }
        requires keyed { AreKeyed self.now.db }
        requires nothing { remaining_keyed later.old ≡ 0 }
        ensures { (w : World) (k : Key) (t : Tree) → IsWorld S.Store L.Lists self.entry.now w
            → callee_of (contents self.entry.now.db) k ≡ Some (Callee.User place)
            → ShowsKey (S.names self.entry.now.store) key t
            → IsNamed (AreLeft (own_of L.Lists) (S.names self.entry.now.store) self.entry.now.db) later.new w k t result }
    {
        match first_left(&self.db, place, key, later) {
            Ok(Some(clause)) => Called::User(clause),
            Ok(None) => Called::Fails,
            Err(_) => self.unknown(),
        }
    }

    /// What a call of this name and arity calls, whose first argument is this word; none where it has no argument. Of a
    /// procedure those clauses are left whose heads the call may meet, as its first argument shows: `later`, which gave
    /// nothing, gives those behind the first then.
    pub fn named(
        &self,
        name: Atom,
        arity: usize,
        first: Option<S::Word>,
        later: &mut KeyedView,
    ) -> Called
        requires name { name < length (S.names self.now.store) }
        requires each_once { EachOnce (S.names self.now.store) }
        requires first { IfSome first (Holds (S.present self.now.store)) }
        requires found { Finds (S.names self.now.store) self.now.callables.items (contents self.now.db) }
        requires keyed { AreKeyed self.now.db }
        requires nothing { remaining_keyed later.old ≡ 0 }
        ensures { (w : World) (t : Tree) → IsWorld S.Store L.Lists self.entry.now w
            → IsFirstArgument (S.present self.entry.now.store) first t
            → IsNamed (AreLeft (own_of L.Lists) (S.names self.entry.now.store) self.entry.now.db) later.new w
            (key (text_at (S.names self.entry.now.store) name) arity) t result }
    {
        match self.callee(name, arity) {
            Some(Callee::BuiltIn(built_in)) => Called::BuiltIn(built_in),
            Some(Callee::User(place)) => {
                self.left_of(place, key_of_argument(&self.store, first), later)
            }
            None => self.unknown(),
        }
    }

    /// What the goal of this name and arity calls, as `named` says.
    fn named_goal(&self, name: Atom, arity: usize, goal: S::Word, later: &mut KeyedView) -> Called
        requires name { name < length (S.names self.now.store) }
        requires each_once { EachOnce (S.names self.now.store) }
        requires goal { Holds (S.present self.now.store) goal }
        requires arity { arity ≡ arity_of (meaning (S.present self.now.store) goal) }
        requires found { Finds (S.names self.now.store) self.now.callables.items (contents self.now.db) }
        requires keyed { AreKeyed self.now.db }
        requires nothing { remaining_keyed later.old ≡ 0 }
        ensures { (w : World) → IsWorld S.Store L.Lists self.entry.now w
            → IsNamed (AreLeft (own_of L.Lists) (S.names self.entry.now.store) self.entry.now.db) later.new w
            (key (text_at (S.names self.entry.now.store) name) arity)
            (meaning (S.present self.entry.now.store) goal) result }
    {
        match self.callee(name, arity) {
            Some(Callee::BuiltIn(built_in)) => Called::BuiltIn(built_in),
            Some(Callee::User(place)) => {
                self.left_of(place, argument_key(&self.store, goal, arity), later)
            }
            None => self.unknown(),
        }
    }

    /// What the goal calls; one without a name fails. `later`, which gave nothing, gives the clauses behind the first
    /// then.
    pub fn called(&self, goal: S::Word, later: &mut KeyedView) -> Called
        requires goal { Holds (S.present self.now.store) goal }
        requires found { Finds (S.names self.now.store) self.now.callables.items (contents self.now.db) }
        requires keyed { AreKeyed self.now.db }
        requires nothing { remaining_keyed later.old ≡ 0 }
        ensures { (w : World) → IsWorld S.Store L.Lists self.entry.now w → IsCalled (AreLeft (own_of L.Lists)
            (S.names self.entry.now.store) self.entry.now.db) later.new w
            (meaning (S.present self.entry.now.store) goal) result }
    {
        let (name, arity) = match self.store.shape(goal) {
            Shape::Atom(name) => (name, 0),
            Shape::Compound(name, arity) => (name, arity),
            Shape::Var(_) | Shape::Int(_) => return Called::Fails,
        };
        self.named_goal(name, arity, goal, later)
    }
}
