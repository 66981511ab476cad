//! The search's moves at goals that read or change the database (7.4.2, 8.8, 8.9).
ghost use Rattle.std.specs.Prelude.{◌≡◌, ◌+◌, ◌<◌, ◌≤◌, IfOk, OnOk, OnErr, Err, List, [], ◌∷◌, length, Some, None};
ghost use Rattle.std.specs.Prelude.{true, false};
ghost use Rattle.iso_model.specs.Terms.Trees.{Tree};
ghost use Rattle.iso_model.specs.Search.Databases as databases;
ghost use Rattle.iso_model.specs.Search.Storages.{clause_cost, storage_settled};
ghost use Rattle.iso_model.specs.Search.Settlements as settlements;
ghost use Rattle.iso_model.specs.Search.Walker as walker;
ghost use Rattle.iso_model.specs.Search.Walker.{State, Alternative, with_rights, tried_right, offered};
ghost use Rattle.iso_model.specs.Search.BuiltIns.{built_in};
ghost use Rattle.iso_db.specs.Presents.{contents};
ghost use Rattle.iso_store_core.specs.Presents.{Holds, meaning};
ghost use Rattle.iso_store_core.specs.ArgumentWords.{AreArguments};
ghost use Rattle.iso_program.specs.Callables.{Finds};
ghost use Rattle.iso_atoms.specs.Texts.{EachOnce, text_at};
ghost use Rattle.iso_model.specs.Search.Errors.{key};
ghost use Rattle.iso_program.specs.ClauseOffers.{clause_offer};
ghost use Rattle.iso_search_core.specs.Fitting.{FitsState};
ghost use Rattle.iso_search_core.specs.declared.choices.Choice as kept;

use super::backtracking::Newest;
use super::search::{Move, Search};
use iso_atoms::Atom;
use iso_model::Storage;
use iso_program::callables::{self, Callee};
use iso_program::left_clauses::next_left;
use iso_program::showing::Showing;
use iso_search_core::choices::Left;
use iso_search_core::lists::Lists;
use iso_search_core::nows::Now;
use iso_storage::shown::unify_clause;
use iso_storage::{StorageReply, store_goal};
use iso_store_core::{Shape, Store, StoreFault};
use std::alloc::AllocError;

impl<S: Store + Drop, L: Lists<S>> Search<S, L> {
    ghost use Rattle.iso_search.specs.Shows.{Shows, HasUnified, IsUserPlace, StoresAt, ShowsNext, WasGivenUp};
    ghost use Rattle.iso_search.specs.Shows.{WasSettled, GainsAlternative, shown_row, offers_of};
    ghost use Rattle.iso_search.specs.EngineStates.{StandsAs, Remains, Keeps, WentBack, WasTried, cost, kept_cost, cost_from};
    ghost use Rattle.iso_search.specs.EngineStates.{phase_of, went_back};
    ghost use Rattle.iso_search_core.specs.Bodies.{body_cost, left_cost, most};
    ghost use Rattle.iso_search_core.specs.Costs.{now_cost};
    ghost use Rattle.iso_model.specs.Search.Engines.{IsAwake};
    ghost use Rattle.iso_search.specs.Stays.{Stays};
    ghost use Rattle.iso_search.specs.Moved.{FallsFrom};
    ghost use Rattle.iso_search.specs.Limits.{ResultMet, ResultFull};
    ghost use Rattle.iso_search_core.specs.declared.nows.Now.TheVariants as now;
    ghost use Rattle.iso_search_core.specs.declared.choices.Left.TheVariants as left;

    /// The place of the user procedure with this name and so many arguments, if it has one.
    fn user_place(&self, name: Atom, arity: usize) -> Option<usize>
        requires name { name < length (S.names self.now.store) }
        requires each_once { EachOnce (S.names self.now.store) }
        requires found { Finds (S.names self.now.store) self.now.callables.items (contents self.now.db) }
        ensures { built_in (key (text_at (S.names self.entry.now.store) name) arity) ≡ None → IsUserPlace
            (contents self.entry.now.db) (key (text_at (S.names self.entry.now.store) name) arity) result }
    {
        match callables::find(self.callables.as_slice(), name, arity) {
            Some(Callee::User(place)) => Some(place),
            Some(Callee::BuiltIn(_)) => None,
            None => None,
        }
    }

    /// The place of the user procedure of this head, if it has one.
    fn place_of(&self, head: S::Word) -> Option<usize>
        requires head { Holds (S.present self.now.store) head }
        requires found { Finds (S.names self.now.store) self.now.callables.items (contents self.now.db) }
        ensures { (k : databases.Key) → databases.key_of (meaning (S.present self.entry.now.store) head) ≡ Some k
            → built_in k ≡ None → IsUserPlace (contents self.entry.now.db) k result }
    {
        match self.store.shape(head) {
            Shape::Atom(name) => self.user_place(name, 0),
            Shape::Compound(name, arity) => self.user_place(name, arity),
            Shape::Var(_) | Shape::Int(_) => None,
        }
    }

    /// Whether the head and the body that are shown unify with those of the clause that comes first; then their
    /// unifier is bound. The errors: the store is full, or memory was refused.
    fn unify_shown(&mut self, shown: Showing<S::Word>) -> Result<bool, StoreFault>
        requires shows { (place : L.Place) × (s : State) × (k : databases.Key) × (c : databases.Clause)
            × (cs : List databases.Clause) × Shows S.Store L.Lists self.old shown place s k c cs }
        requires failing { self.old.now ≡ now.Failing }
        ensures unified { (place : L.Place) (s : State) (k : databases.Key) (c : databases.Clause)
            (cs : List databases.Clause) → Shows S.Store L.Lists self.old shown place s k c cs → IfOk result
            (HasUnified S.Store L.Lists self.new (shown_row (S.present self.old.store) shown) place s c) }
        ensures kept { (place : L.Place) (s : State) (k : databases.Key) (c : databases.Clause)
            (cs : List databases.Clause) → Shows S.Store L.Lists self.old shown place s k c cs
            → OnErr result (Remains S.Store L.Lists self.new (record s { built = s.built + clause_cost c })) }
        ensures full { result ≡ Err StoreFault.Full → S.full self.new.store }
        ensures same { self.new ≡ record self.old { store = self.new.store } }
        ensures stays { Stays S.Store self.old self.new }
    {
        let clause = self.db.clause(shown.clause);
        unify_clause(&mut self.store, clause, shown.head, shown.body)
    }

    /// Unifies the head and the body that are shown with those of the clause that comes first, and goes on (8.8.1);
    /// where they don't unify it fails next. The errors: the store is full, or memory was refused.
    fn try_shown(&mut self, shown: Showing<S::Word>, place: L::Place) -> Result<(), StoreFault>
        requires shows { (s : State) × (k : databases.Key) × (c : databases.Clause) × (cs : List databases.Clause)
            × Shows S.Store L.Lists self.old shown place s k c cs }
        requires failing { self.old.now ≡ now.Failing }
        requires stays { shown.removes ≡ false }
        ensures tried { (s : State) (k : databases.Key) (c : databases.Clause) (cs : List databases.Clause)
            → Shows S.Store L.Lists self.old shown place s k c cs → OnOk result (StandsAs S.Store L.Lists self.new
            (tried_right (shown_row (S.present self.old.store) shown) (clause_offer shown.removes k c) s.list s)) }
        ensures kept { (s : State) (k : databases.Key) (c : databases.Clause) (cs : List databases.Clause)
            → Shows S.Store L.Lists self.old shown place s k c cs
            → OnErr result (Keeps S.Store L.Lists self.new s.world s.stack × FitsState S.Store (S.present self.new.store) 0
            (tried_right (shown_row (S.present self.old.store) shown) (clause_offer shown.removes k c) s.list s)) }
        ensures awake { OnOk result (IsAwake (phase_of self.new.now)) }
        ensures full { result ≡ Err StoreFault.Full → S.full self.new.store }
        ensures same { self.new ≡ record self.old { store = self.new.store; now = self.new.now } }
        ensures cost { OnOk result (now_cost (L.first_cost self.old.lists) self.new.now ≤ L.cost self.old.lists place) }
        ensures stays { Stays S.Store self.old self.new }
    {
        if self.unify_shown(shown)? {
            self.now = self.coming(place);
        }
        Ok(())
    }

    /// Unifies the head and the body that are shown with those of the clause that comes first, removes it, and goes
    /// on (8.9.3); where it was removed before, or they don't unify, it fails next. The errors: the store is full, or
    /// memory was refused.
    fn try_removal(&mut self, shown: Showing<S::Word>, place: L::Place) -> Result<(), StoreFault>
        requires shows { (s : State) × (k : databases.Key) × (c : databases.Clause) × (cs : List databases.Clause)
            × Shows S.Store L.Lists self.old shown place s k c cs }
        requires failing { self.old.now ≡ now.Failing }
        requires removes { shown.removes ≡ true }
        ensures tried { (s : State) (k : databases.Key) (c : databases.Clause) (cs : List databases.Clause)
            → Shows S.Store L.Lists self.old shown place s k c cs → OnOk result (StandsAs S.Store L.Lists self.new
            (tried_right (shown_row (S.present self.old.store) shown) (clause_offer shown.removes k c) s.list s)) }
        ensures kept { (s : State) (k : databases.Key) (c : databases.Clause) (cs : List databases.Clause)
            → Shows S.Store L.Lists self.old shown place s k c cs
            → OnErr result (Keeps S.Store L.Lists self.new s.world s.stack × FitsState S.Store (S.present self.new.store) 0
            (tried_right (shown_row (S.present self.old.store) shown) (clause_offer shown.removes k c) s.list s)) }
        ensures awake { OnOk result (IsAwake (phase_of self.new.now)) }
        ensures full { result ≡ Err StoreFault.Full → S.full self.new.store }
        ensures same { self.new ≡ record self.old { store = self.new.store; db = self.new.db; now = self.new.now } }
        ensures cost { OnOk result (now_cost (L.first_cost self.old.lists) self.new.now ≤ L.cost self.old.lists place) }
        ensures stays { Stays S.Store self.old self.new }
    {
        let Some(procedure) = self.place_of(shown.head) else {
            return Ok(());
        };
        if !self.db.has(procedure, shown.clause) {
            return Ok(());
        }
        if self.unify_shown(shown)? {
            self.db.remove_from(procedure, shown.clause);
            self.now = self.coming(place);
        }
        Ok(())
    }

    /// Unifies the head and the body that are shown with those of the clause that comes first, which is removed then
    /// where it is to be; where they don't unify, or it was removed before, it fails next. The errors: the store is
    /// full, or memory was refused.
    fn show_clause(&mut self, shown: Showing<S::Word>, place: L::Place) -> Result<(), StoreFault>
        requires { (s : State) × (k : databases.Key) × (c : databases.Clause) × (cs : List databases.Clause)
            × Shows S.Store L.Lists self.old shown place s k c cs }
        ensures tried { (s : State) (k : databases.Key) (c : databases.Clause) (cs : List databases.Clause)
            → Shows S.Store L.Lists self.old shown place s k c cs → OnOk result (StandsAs S.Store L.Lists self.new
            (tried_right (shown_row (S.present self.old.store) shown) (clause_offer shown.removes k c) s.list s)) }
        ensures kept { (s : State) (k : databases.Key) (c : databases.Clause) (cs : List databases.Clause)
            → Shows S.Store L.Lists self.old shown place s k c cs
            → OnErr result (Keeps S.Store L.Lists self.new s.world s.stack × FitsState S.Store (S.present self.new.store) 0
            (tried_right (shown_row (S.present self.old.store) shown) (clause_offer shown.removes k c) s.list s)) }
        ensures awake { OnOk result (IsAwake (phase_of self.new.now)) }
        ensures full { result ≡ Err StoreFault.Full → S.full self.new.store }
        ensures same { self.new ≡ record self.old { store = self.new.store; db = self.new.db; now = self.new.now } }
        ensures cost { OnOk result (now_cost (L.first_cost self.old.lists) self.new.now ≤ L.cost self.old.lists place) }
        ensures stays { Stays S.Store self.old self.new }
    {
        self.now = Now::Failing;
        if shown.removes {
            self.try_removal(shown, place)
        } else {
            self.try_shown(shown, place)
        }
    }

    /// Keeps the clauses behind the first as a choice where there are any (7.7.8); false where no choice may be made
    /// any more. The error is that memory was refused.
    fn push_shown(&mut self, shown: Showing<S::Word>, place: L::Place) -> Result<bool, AllocError>
        requires { (s : State) × (k : databases.Key) × (c : databases.Clause) × (cs : List databases.Clause)
            × Shows S.Store L.Lists self.old shown place s k c cs }
        ensures shows { (s : State) (k : databases.Key) (c : databases.Clause) (cs : List databases.Clause)
            → Shows S.Store L.Lists self.old shown place s k c cs → result ≡ Ok true
            → Shows S.Store L.Lists self.new shown place
            (with_rights (shown_row (S.present self.old.store) shown) (offers_of shown k cs) s.list s) k c cs }
        ensures present { S.present self.new.store ≡ S.present self.old.store }
        ensures kept { (s : State) (k : databases.Key) (c : databases.Clause) (cs : List databases.Clause)
            → Shows S.Store L.Lists self.old shown place s k c cs
            → OnErr result (Remains S.Store L.Lists self.new s) }
        ensures over { (s : State) (k : databases.Key) (c : databases.Clause) (cs : List databases.Clause)
            → Shows S.Store L.Lists self.old shown place s k c cs → result ≡ Ok false
            → (self.new ≡ self.old) × (self.old.limit ≤ length self.old.choices.items) × (0 < length cs) }
        ensures same { self.new ≡ record self.old { store = self.new.store; choices = self.new.choices } }
        ensures costs { kept_cost L.Lists self.new ≤ kept_cost L.Lists self.old
            + left_cost most (L.cost self.old.lists place) }
        ensures stays { Stays S.Store self.old self.new }
    {
        let mut later = shown.later;
        let Some(clause) = next_left(&self.db, &mut later) else {
            return Ok(true);
        };
        let behind = Showing {
            clause,
            later,
            ..shown
        };
        self.push_choice(Left::Shown(behind), place)
    }

    /// Unifies the head and the body that are shown with those of the first clause; those behind it are one choice.
    /// The errors: the store is full, or memory was refused; then no choices are left. Where no choice may be made
    /// any more the engine is spent.
    fn show(&mut self, shown: Showing<S::Word>, place: L::Place) -> Result<Move, StoreFault>
        requires { (s : State) × (k : databases.Key) × (c : databases.Clause) × (cs : List databases.Clause)
            × Shows S.Store L.Lists self.old shown place s k c cs }
        ensures called { (s : State) (k : databases.Key) (c : databases.Clause) (cs : List databases.Clause)
            → Shows S.Store L.Lists self.old shown place s k c cs → IfOk result
            (λ m. WasTried S.Store L.Lists m self.new s
            (offered (shown_row (S.present self.old.store) shown) (offers_of shown k (c ∷ cs)) s.list s)) }
        ensures kept { (s : State) (k : databases.Key) (c : databases.Clause) (cs : List databases.Clause)
            → Shows S.Store L.Lists self.old shown place s k c cs
            → OnErr result (Keeps S.Store L.Lists self.new s.world [] × FitsState S.Store (S.present self.new.store) 0
            (offered (shown_row (S.present self.old.store) shown) (offers_of shown k (c ∷ cs)) s.list s)) }
        ensures falls { FallsFrom L.Lists self.old (cost_from L.Lists self.old place) result self.new }
        ensures frames { (s : State) (k : databases.Key) (c : databases.Clause) (cs : List databases.Clause)
            → Shows S.Store L.Lists self.old shown place s k c cs
            → ResultFull ((self.old.limit ≤ length self.old.choices.items) × (0 < length cs)) result }
        ensures met { ResultMet S.Store result self.new }
        ensures stays { Stays S.Store self.old self.new }
    {
        match self.push_shown(shown, place) {
            Ok(true) => {}
            Ok(false) => return Ok(self.full_frames()),
            Err(_) => {
                self.choices.clear();
                return Err(StoreFault::NoMemory);
            }
        }
        if let Err(fault) = self.show_clause(shown, place) {
            self.choices.clear();
            return Err(fault);
        }
        Ok(Move::Goes)
    }

    /// Runs the goal of this row, whose arguments were read, before the list from this place on. The errors: the store
    /// is full, or memory was refused; where no choice may be made any more the engine is spent.
    pub(crate) fn database_goal(
        &mut self,
        row: Storage,
        goal: S::Word,
        place: L::Place,
    ) -> Result<Move, StoreFault>
        requires stores { (s : State) × StoresAt S.Store L.Lists self.old row goal s place }
        requires arguments { AreArguments (S.present self.old.store) self.old.words.items
            (meaning (S.present self.old.store) goal) }
        ensures called { (s : State) → StoresAt S.Store L.Lists self.old row goal s place
            → IfOk result (λ m. WasSettled S.Store L.Lists m self.new s
            (storage_settled row (meaning (S.present self.old.store) goal) s.next s.world)) }
        ensures kept { (s : State) → StoresAt S.Store L.Lists self.old row goal s place
            → OnErr result (WasGivenUp S.Store L.Lists self.new s
            (storage_settled row (meaning (S.present self.old.store) goal) s.next s.world)) }
        ensures falls { FallsFrom L.Lists self.old (cost_from L.Lists self.old place + 1) result self.new }
        ensures frames { (s : State) → StoresAt S.Store L.Lists self.old row goal s place
            → ResultFull ((self.old.limit ≤ length self.old.choices.items) × GainsAlternative s
            (storage_settled row (meaning (S.present self.old.store) goal) s.next s.world)) result }
        ensures met { ResultMet S.Store result self.new }
        ensures stays { Stays S.Store self.old self.new }
    {
        let arguments = self.words.as_slice();
        match store_goal(
            self.alloc,
            &mut self.store,
            &mut self.db,
            &mut self.callables,
            row,
            arguments,
        ) {
            Ok(StorageReply::Done) => {
                self.now = self.coming(place);
                Ok(Move::Goes)
            }
            Ok(StorageReply::Fails) => {
                self.now = Now::Failing;
                Ok(Move::Goes)
            }
            Ok(StorageReply::Shows(shown)) => self.show(shown, place),
            Err(fault) => self.behind_fault(fault, place),
        }
    }

    /// Leaves the newest choice at its next clause, or takes it away where this is its last one.
    fn leave_shown(&mut self, mark: S::Mark, shown: Showing<S::Word>)
        requires some { 0 < length self.old.choices.items }
        requires back { (c : kept.Choice S.Word S.Mark L.Kept L.Place L.Call) × (s : State) × (a : Alternative)
            × (below : List Alternative) × (c.mark ≡ mark) × (c.left ≡ left.Shown shown)
            × WentBack S.Store L.Lists self.old c s a below }
        ensures shows { (c : kept.Choice S.Word S.Mark L.Kept L.Place L.Call) (s : State) (a : Alternative)
            (below : List Alternative) → c.mark ≡ mark → c.left ≡ left.Shown shown
            → WentBack S.Store L.Lists self.old c s a below
            → ShowsNext S.Store L.Lists self.new shown c.rest s a below }
        ensures costs { (c : kept.Choice S.Word S.Mark L.Kept L.Place L.Call) (s : State) (a : Alternative)
            (below : List Alternative) → c.mark ≡ mark → c.left ≡ left.Shown shown
            → WentBack S.Store L.Lists self.old c s a below → kept_cost L.Lists self.new
            + (body_cost most (L.cost self.old.lists c.rest) + 1) ≤ kept_cost L.Lists self.old }
        ensures same { self.new ≡ record self.old { store = self.new.store; choices = self.new.choices } }
        ensures stays { Stays S.Store self.old self.new }
    {
        let mut later = shown.later;
        if let Some(clause) = next_left(&self.db, &mut later) {
            let newest = self.choices.len() - 1;
            self.choices[newest].left = Left::Shown(Showing {
                clause,
                later,
                ..shown
            });
        } else {
            self.drop_choice(mark);
        }
    }

    /// Unifies a head and a body with those of the first clause that was left at the newest choice; then it goes on,
    /// or fails next. The errors: the store is full, or memory was refused; then no choices are left.
    pub(crate) fn show_next(
        &mut self,
        newest: Newest<S::Mark, L::Place>,
        shown: Showing<S::Word>,
    ) -> Result<(), StoreFault>
        requires some { 0 < length self.old.choices.items }
        requires back { (c : kept.Choice S.Word S.Mark L.Kept L.Place L.Call) × (s : State) × (a : Alternative)
            × (below : List Alternative) × (c.mark ≡ newest.mark) × (c.rest ≡ newest.rest) × (c.left ≡ left.Shown shown)
            × WentBack S.Store L.Lists self.old c s a below }
        ensures tried { (c : kept.Choice S.Word S.Mark L.Kept L.Place L.Call) (s : State) (a : Alternative)
            (below : List Alternative) (first : Tree) (rights : List settlements.Offer) → c.mark ≡ newest.mark
            → c.rest ≡ newest.rest → c.left ≡ left.Shown shown → WentBack S.Store L.Lists self.old c s a below
            → a.left ≡ walker.Offered first rights
            → OnOk result (StandsAs S.Store L.Lists self.new (offered first rights a.list (went_back a below s))) }
        ensures kept { (c : kept.Choice S.Word S.Mark L.Kept L.Place L.Call) (s : State) (a : Alternative)
            (below : List Alternative) (first : Tree) (rights : List settlements.Offer) → c.mark ≡ newest.mark
            → c.rest ≡ newest.rest → c.left ≡ left.Shown shown → WentBack S.Store L.Lists self.old c s a below
            → a.left ≡ walker.Offered first rights
            → OnErr result (Keeps S.Store L.Lists self.new s.world [] × FitsState S.Store (S.present self.new.store) 0
            (offered first rights a.list (went_back a below s))) }
        ensures awake { OnOk result (IsAwake (phase_of self.new.now)) }
        ensures full { result ≡ Err StoreFault.Full → S.full self.new.store }
        ensures steps { self.new.steps ≡ self.old.steps }
        ensures costs { OnOk result (cost L.Lists self.new < kept_cost L.Lists self.old) }
        ensures stays { Stays S.Store self.old self.new }
    {
        self.leave_shown(newest.mark, shown);
        if let Err(fault) = self.show_clause(shown, newest.rest) {
            self.choices.clear();
            return Err(fault);
        }
        Ok(())
    }
}
