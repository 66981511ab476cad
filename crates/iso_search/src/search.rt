//! A search, over any store and however its lists of goals are kept: its parts, and how a run ends.
ghost use Rattle.std.specs.Prelude.{◌≡◌, ◌≤◌, [], List};
ghost use Rattle.iso_model.specs.Search.Walker.{Member};

use iso_db::Db;
use iso_model::{Ball, Pause};
use iso_ops::{Flags, OpTable};
use iso_program::callables::Callables;
use iso_program::clauses::Clause;
use iso_program::vocabulary::Vocabulary;
use iso_search_core::choices::Choice;
use iso_search_core::lists::Lists;
use iso_search_core::nows::Now;
use iso_search_core::own::OwnOf;
use iso_store_core::Store;
use std::alloc::Global;

/// Whether a move goes on without an event, or ends a call of `resume`.
#[derive(Drop)]
pub enum Move {
    Goes,
    Pauses(Pause),
}

/// A search, for any store, and for any way to keep lists of goals.
#[derive(Drop)]
pub struct Search<S: Store, L: Lists<S>> {
    pub alloc: Global,
    pub store: S,
    /// The lists of goals that stand.
    pub lists: L,
    /// The alternatives that stand, the newest last.
    pub choices: Vec<Choice<S::Word, S::Mark, L::Kept, L::Place, L::Call>>,
    /// What comes next.
    pub now: Now<L::Next, L::Place>,
    /// The clauses of the procedures.
    pub db: Db<Clause<OwnOf<S, L>>>,
    /// What is callable under each name, by the number of its atom.
    pub callables: Callables,
    /// The names that it knows beforehand.
    pub vocabulary: Vocabulary,
    /// The operators as they are now.
    pub ops: OpTable,
    /// The flags as they are now.
    pub flags: Flags,
    /// How many alternatives may stand at once.
    pub limit: u32,
    /// How many steps the query may still make.
    pub steps: u32,
    /// A ball that was thrown, until it is taken: by what catches it, or by the end of the query.
    pub raised: Option<Ball>,
    /// The words of the query's variables 0, 1, ..
    pub query: Vec<S::Word>,
    /// Where the words of a clause's variables are while it is entered, and those of the arguments of a built-in's
    /// goal while it is run.
    pub words: Vec<S::Word>,
    /// The store as it was when it was empty.
    pub base: S::Mark,
}

impl<S: Store + Drop, L: Lists<S>> Search<S, L> {
    ghost use Rattle.iso_search.specs.Stays.{Stays};
    ghost use Rattle.iso_model.specs.Terms.Trees.{Variable};
    ghost use Rattle.iso_model.specs.Search.Walker.{World, idle};
    ghost use Rattle.iso_model.specs.Search.Engines.{IsAwake};
    ghost use Rattle.iso_search.specs.Worlds.{IsWorld};
    ghost use Rattle.iso_search.specs.EngineStates.{IsBase, IsEngine, IsBehind, phase_of};
    ghost use Rattle.iso_search_core.specs.Costs.{now_cost};
    ghost use Rattle.iso_search_core.specs.declared.nows.Now.TheVariants.{Idle};

    /// Drops what is left of a run.
    pub fn clear(&mut self)
        requires { IsBase S.Store self.old.store self.old.base }
        ensures idle { (w : World) → IsWorld S.Store L.Lists self.old w → IsEngine S.Store L.Lists self.new (idle w) }
        ensures now { self.new.now ≡ Idle }
        ensures substitution { (S.present self.new.store).substitution ≡ Variable }
        ensures next { (S.present self.new.store).next ≡ 0 }
        ensures cells { (S.present self.new.store).cells ≡ 0 }
        ensures variables { (S.present self.new.store).variables ≡ 0 }
        ensures lists { L.empty self.new.lists }
        ensures choices { self.new.choices.items ≡ [] }
        ensures query { self.new.query.items ≡ [] }
        ensures raised { self.new.raised ≡ None }
        ensures stays { Stays S.Store self.old self.new }
        ensures base { IsBase S.Store self.new.store self.new.base }
    {
        self.choices.clear();
        self.db.forget_views();
        self.lists.clear();
        self.query.clear();
        self.raised = None;
        self.steps = 0;
        self.now = Now::Idle;
        self.store.undo(self.base);
    }

    /// What comes first from the place on, or an answer where nothing is left.
    pub fn coming(&self, place: L::Place) -> Now<L::Next, L::Place>
        requires { (ms : List Member) × L.list (S.present self.now.store) self.now.lists (L.whole self.now.lists) place ms }
        ensures behind { (ms : List Member) → L.list (S.present self.entry.now.store) self.entry.now.lists
            (L.whole self.entry.now.lists) place ms → IsBehind L.Lists (S.present self.entry.now.store)
            self.entry.now.lists place result ms }
        ensures cost { now_cost (L.first_cost self.entry.now.lists) result ≤ L.cost self.entry.now.lists place }
        ensures awake { IsAwake (phase_of result) }
    {
        match self.lists.at(place) {
            Some(first) => Now::Running(first),
            None => Now::Answering,
        }
    }
}
