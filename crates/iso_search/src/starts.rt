//! How an engine is made, and how a goal is started and a clause added (7.5, 7.7).
ghost use Rattle.std.specs.Prelude.{◌≡◌, ◌<◌, ◌^◌, IfOk, OnOk, OnErr, None, true, [], Err};
ghost use Rattle.iso_model.specs.Terms.Trees.{Tree, arities_fit};
ghost use Rattle.iso_model.specs.Terms.TermOf.{term_of};
ghost use Rattle.iso_model.specs.Terms.Copies.{IsNumbered};
ghost use Rattle.iso_model.specs.Search.Bodies.{converted};
ghost use Rattle.iso_model.specs.Search.Additions.{consulted};
ghost use Rattle.iso_model.specs.Search.Walker.{World, first_world, idle, started};

use super::search::Search;
use iso_db::Db;
use iso_lib::errors;
use iso_lib::indicators::Functor;
use iso_model::{AddFault, Term};
use iso_ops::{Flags, OpTable};
use iso_prep::{Fault, Prepared};
use iso_program::procedures::{self, Way};
use iso_program::vocabulary::Vocabulary;
use iso_program::{callables, clauses, patterns};
use iso_search_core::lists::Lists;
use iso_search_core::nows::Now;
use iso_search_core::variables::new_variables;
use iso_store_core::{Store, StoreFault};
use std::alloc::{AllocError, Global};

impl<S: Store + Drop, L: Lists<S>> Search<S, L> {
    ghost use Rattle.iso_search.specs.Limits.{IsWithin};
    ghost use Rattle.iso_model.specs.Terms.Trees.{Variable};
    ghost use Rattle.iso_search.specs.Stays.{Stays};
    ghost use Rattle.iso_search.specs.EngineStates.{IsEngine, Represents, Keeps, StandsFor, phase_of};
    ghost use Rattle.iso_search.specs.Starts.{IsQuery, IsFresh, Comes};
    ghost use Rattle.iso_search_core.specs.Fitting.{FitsState};
    ghost use Rattle.iso_model.specs.Search.Engines.{Ready, Midway};
    ghost use Rattle.iso_search_core.specs.declared.nows.Now.TheVariants.{Idle};

    /// An engine that no goal was started on, without clauses, with the operators and flags before any is set, over
    /// this empty store, in which at most so many alternatives (1 to 16,777,216) stand at once. The error is that memory
    /// was refused; the store is dropped then.
    pub fn new(alloc: Global, mut store: S, frames: u32) -> Result<Search<S, L>, AllocError>
        requires substitution { (S.present store).substitution ≡ Variable }
        requires next { (S.present store).next ≡ 0 }
        requires cells { (S.present store).cells ≡ 0 }
        ensures stands { IfOk result (λ e. StandsFor S.Store L.Lists e (idle first_world)) }
        ensures ready { IfOk result (λ e. phase_of e.now ≡ Ready) }
        ensures limit { IfOk result (λ e. e.limit ≡ frames) }
        ensures store { IfOk result (λ e. S.present e.store ≡ S.present store) }
        ensures within { IfOk result (λ e. IsWithin e) }
    {
        let ops = OpTable::initial(alloc)?;
        let callables = callables::of_built_ins(alloc, &mut store)?;
        let vocabulary = Vocabulary::new(alloc, &mut store)?;
        let base = store.mark();
        Ok(Search {
            alloc,
            store,
            lists: L::none(alloc),
            db: Db::new(alloc),
            callables,
            vocabulary,
            ops,
            flags: Flags::initial(),
            choices: Vec::new(alloc),
            limit: frames,
            steps: 0,
            now: Now::Idle,
            raised: None,
            query: Vec::new(alloc),
            words: Vec::new(alloc),
            base,
        })
    }

    /// Keeps the error of the query that can't be converted (7.6.2), raised by `call/1`; the culprit is all of it.
    fn raise_query(&mut self, culprit: Term) -> Result<(), AllocError>
        requires refused { converted (term_of culprit) ≡ None }
        requires fits { arities_fit (term_of culprit) ≡ true }
        ensures started { OnOk result ((w : World) → IsFresh S.Store L.Lists self.old w
            → Represents S.Store L.Lists self.new (started (term_of culprit) self.old.steps w)) }
        ensures kept { (w : World) → IsFresh S.Store L.Lists self.old w
            → OnErr result (Keeps S.Store L.Lists self.new w []) }
        ensures midway { OnOk result (phase_of self.new.now ≡ Midway) }
        ensures stays { Stays S.Store self.old self.new }
    {
        let ball = errors::not_callable(self.alloc, culprit, "call", 1)?;
        self.raised = Some(ball);
        self.now = Now::Raising(L::nothing());
        Ok(())
    }

    /// Places the body of the query, its variables new in the store, to be run next. The errors: the store is full, or
    /// memory was refused.
    fn place_query(&mut self, query: &Prepared) -> Result<(), StoreFault>
        requires query { (t : Tree) × IsQuery query.now t }
        requires next { (S.present self.old.store).next ≡ 0 }
        requires steps { self.old.steps < 2 ^ 32 }
        ensures started { OnOk result ((t : Tree) (w : World) → IsQuery query.now t → IsFresh S.Store L.Lists self.old w
            → Represents S.Store L.Lists self.new (started t self.old.steps w)) }
        ensures kept { (w : World) → IsFresh S.Store L.Lists self.old w
            → OnErr result (Keeps S.Store L.Lists self.new w []) }
        ensures fits { (t : Tree) (w : World) → IsQuery query.now t → IsFresh S.Store L.Lists self.old w
            → OnErr result (FitsState S.Store (S.present self.new.store) 0 (started t self.old.steps w)) }
        ensures midway { OnOk result (phase_of self.new.now ≡ Midway) }
        ensures full { result ≡ Err StoreFault.Full → S.full self.new.store }
        ensures stays { Stays S.Store self.old self.new }
    {
        let count = query.variables();
        let variables = new_variables(self.alloc, &mut self.store, count)?;
        let body = self
            .lists
            .place_query(self.alloc, &mut self.store, query, variables.as_slice())?;
        let first = self.lists.run(body, 0, L::nothing())?;
        self.query = variables;
        self.now = Now::Running(first);
        Ok(())
    }

    /// Starts the goal with this budget over an engine that was cleared. A goal that can't be converted is raised as an
    /// error next (7.6.2). The errors: the store is full, or memory was refused.
    pub(crate) fn begin(&mut self, goal: &Term, budget: u32) -> Result<(), StoreFault>
        requires fits { arities_fit (term_of goal.now) ≡ true }
        requires numbered { IsNumbered (term_of goal.now) }
        requires substitution { (S.present self.old.store).substitution ≡ Variable }
        requires next { (S.present self.old.store).next ≡ 0 }
        requires cells { (S.present self.old.store).cells ≡ 0 }
        requires variables { (S.present self.old.store).variables ≡ 0 }
        ensures started { OnOk result ((w : World) → IsEngine S.Store L.Lists self.old (idle w)
            → Represents S.Store L.Lists self.new (started (term_of goal.now) budget w)) }
        ensures kept { (w : World) → IsEngine S.Store L.Lists self.old (idle w)
            → OnErr result (Keeps S.Store L.Lists self.new w []) }
        ensures fits { (w : World) → result ≡ Err StoreFault.Full → IsEngine S.Store L.Lists self.old (idle w)
            → FitsState S.Store (S.present self.new.store) 0 (started (term_of goal.now) budget w) }
        ensures midway { OnOk result (phase_of self.new.now ≡ Midway) }
        ensures full { result ≡ Err StoreFault.Full → S.full self.new.store }
        ensures stays { Stays S.Store self.old self.new }
    {
        self.steps = budget;
        match iso_prep::prepare_goal(self.alloc, goal) {
            Ok(query) => self.place_query(&query),
            Err(Fault::Callable(culprit)) => Ok(self.raise_query(culprit)?),
            Err(Fault::NoMemory) => Err(StoreFault::NoMemory),
            Err(Fault::Instantiation | Fault::TooManyVariables) => unreachable!(),
        }
    }

    /// Adds the clause at the end of its procedure, in an engine that was cleared (7.5, 8.9.2). The errors: the
    /// clause is refused, or memory was refused.
    pub(crate) fn add(&mut self, clause: &Term) -> Result<(), AddFault>
        requires fits { arities_fit (term_of clause.now) ≡ true }
        requires now { self.old.now ≡ Idle }
        requires engine { (w : World) × IsEngine S.Store L.Lists self.old (idle w) }
        ensures comes { (w : World) → IsEngine S.Store L.Lists self.old (idle w)
            → Comes S.Store L.Lists (consulted (term_of clause.now) w.database) w result self.new }
        ensures now { self.new.now ≡ self.old.now }
        ensures stays { Stays S.Store self.old self.new }
        ensures present { S.present self.new.store ≡ S.present self.old.store }
        ensures base { self.new.base ≡ self.old.base }
    {
        let checked = clauses::checked_clause(self.alloc, clause, "consult")?;
        let Some((text, arity)) = clauses::indicator_of(checked.head()) else {
            unreachable!();
        };
        let kept = patterns::written_clause(self.alloc, &mut self.store, &checked)?;
        let name = self.store.intern(text)?;
        procedures::add(
            self.alloc,
            &mut self.db,
            &mut self.callables,
            Functor { name, arity },
            text,
            Way::Consulted,
            kept,
        )?;
        Ok(())
    }
}
