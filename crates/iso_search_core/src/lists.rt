//! How an engine keeps its lists of goals: what is left of clauses' bodies, and the ends of goals that run others.
ghost use Rattle.std.specs.Prelude.{◌≡◌, ◌≤◌, ◌<◌, ◌+◌, ◌*◌, ◌++◌, ◌^◌, ℕ, List, [], ◌∷◌, IfOk, IfSome, Err, MatchOption, length, true};
ghost use Rattle.std.specs.List.{All};
ghost use Rattle.iso_model.specs.Terms.Trees.{Tree, Variable};
ghost use Rattle.iso_model.specs.Terms.Substitutions.{Subst};
ghost use Rattle.iso_model.specs.Search.Bodies as bodies;
ghost use Rattle.iso_model.specs.Search.Bodies.{Run, map_body};
ghost use Rattle.iso_model.specs.Search.Walker.{Member, Goal, body_size};
ghost use Rattle.iso_model.specs.Search.RunLaws.Sameness.{SameList};
ghost use Rattle.iso_store_core.specs.Presents.{Present, Grows, Holds, KeepsWords, meaning};
ghost use Rattle.iso_store_core.specs.Retaining.{CountsCells, Retains, RetainsAll, Takes};
ghost use Rattle.iso_prep.specs.Classes.{goals_of};
ghost use Rattle.iso_prep.specs.Conversions.{is_callable};
ghost use Rattle.iso_program.specs.Controls.{AreControls};
ghost use Rattle.iso_search_core.specs.Cells.{conversion_cells};
ghost use Rattle.iso_search_core.specs.Words.{Extends, word_terms};
ghost use Rattle.iso_program.specs.Values.{HasValues};
ghost use Rattle.iso_model.specs.Search.Databases.{Clause};
ghost use Rattle.iso_program.specs.Kept.{AreTemplates, IsChecked, Keeping, StaysKept};
ghost use Rattle.iso_search_core.specs.Bodies.{most, body_cost};
ghost use Rattle.iso_search_core.specs.Keeping.{KeepsOf, KeepsAll, EndHolds, Passes, ending, end_cost};
ghost use Rattle.iso_search_core.specs.Placing.{IsConverted};

use super::ends::{End, Past};
use iso_model::NoMemory;
use iso_prep::Prepared;
use iso_program::checked::Checked;
use iso_program::controls::Controls;
use iso_store_core::{Store, StoreFault};
use std::alloc::{AllocError, Global};

/// Lists of goals over the words of a store. A place names a list. What stands can be brought back to what stood when
/// so much was kept; lists that were kept then are still there.
pub trait Lists<S: Store>: Drop {
    /// How much stands.
    type Kept: Copy;
    /// Where a list begins.
    type Place: Copy;
    /// A goal that a procedure was called for, as clauses are tried for it.
    type Call: Copy;
    /// What comes first of a list, and where the list behind it begins.
    type Next: Copy;
    /// A body that was placed, to be run.
    type Body: Copy;
    /// What is kept of a clause, to run it.
    type Own: Drop;

    // the list from a place on, among those that were kept when so much stood
    ghost list: { Present S.Word → Self → Self.Kept → Self.Place → List Member → Type 0 };
    // what the call is for
    ghost call: { Present S.Word → Self → Self.Kept → Self.Call → Tree → Type 0 };
    // the list of which this comes first
    ghost first: { Present S.Word → Self → Self.Next → List Member → Type 0 };
    // it is kept of this clause, where these are the names of the atoms
    ghost own: { Keeping Self.Own };
    // it stays so where names come
    ghost stays: { StaysKept own };
    // the body
    ghost body: { Present S.Word → Self → Self.Body → bodies.Body → Type 0 };
    // so much stands
    ghost within: { Self → Self.Kept → Type 0 };
    // the second keeps all that the first does
    ghost below: { Self.Kept → Self.Kept → Type 0 };
    // all that stands
    ghost whole: { Self → Self.Kept };
    // nothing stands
    ghost empty: { Self → Type 0 };
    // what is to be done at most from a place on before a goal takes a step, and where this comes first
    ghost cost: { Self → Self.Place → ℕ };

    ghost first_cost: { Self → Self.Next → ℕ };
    // how many cells goals are still to take from a place on, and where this comes first
    ghost pending: { Self → Self.Place → ℕ };

    ghost first_pending: { Self → Self.Next → ℕ };
    // how many ends a thrown ball passes at most
    ghost depth: { Self → Self.Place → ℕ };

    /// Lists of which nothing stands yet.
    fn none(alloc: Global) -> Self
        ensures { empty result };

    /// What is kept of a clause that was checked. The error is that memory was refused.
    fn keep(alloc: Global, store: &mut S, checked: &Checked) -> Result<Self::Own, NoMemory>
        ensures own { (c : Clause) → IsChecked checked.now c → IfOk result (λ kept. own (S.names store.new) kept c) }
        ensures rest { Retains S.Store store.old store.new }
        ensures present { S.present store.new ≡ S.present store.old };

    /// How much stands.
    fn kept(&self) -> Self::Kept
        ensures { result ≡ whole self.now };

    /// Brings back what stood when so much was kept.
    fn go_back(&mut self, kept: Self::Kept)
        requires { within self.old kept }
        ensures keeps { KeepsOf list call within cost pending (λ j. below j kept) self.old self.new }
        ensures whole { whole self.new ≡ kept };

    /// Drops all that stands.
    fn clear(&mut self)
        ensures { empty self.new };

    /// The list without members.
    fn nothing() -> Self::Place
        ensures list { (p : Present S.Word) (l : Self) (k : Self.Kept) → list p l k result [] }
        ensures cost { (l : Self) → cost l result ≡ 1 }
        ensures pending { (l : Self) → pending l result ≡ 0 };

    /// What comes first from the place on; none where nothing is left.
    fn at(&self, place: Self::Place) -> Option<Self::Next>
        requires { (p : Present S.Word) × (ms : List Member) × list p self.now (whole self.now) place ms }
        ensures first { (p : Present S.Word) (ms : List Member) → list p self.now (whole self.now) place ms
            → MatchOption result (ms ≡ []) (λ n. first p self.now n ms) }
        ensures cost { MatchOption result (1 ≤ cost self.now place) (λ n. first_cost self.now n ≤ cost self.now place) }
        ensures pending { IfSome result (λ n. first_pending self.now n ≤ pending self.now place) };

    /// Passes some of the list from the place on, up to the end of a catch; none where nothing is left.
    fn pass(&self, place: Self::Place) -> Option<Past<Self::Place>>
        requires { (p : Present S.Word) × (ms : List Member) × list p self.now (whole self.now) place ms }
        ensures passes { (p : Present S.Word) (ms : List Member) → list p self.now (whole self.now) place ms
            → MatchOption result (ms ≡ []) (Passes (list p self.now (whole self.now)) ms) }
        ensures falls { IfSome result (λ past. depth self.now past.behind < depth self.now place) };

    /// Places this end, before the list from the place on. The error is that memory was refused.
    fn place_end(
        &mut self,
        end: End<S::Word>,
        behind: Self::Place,
    ) -> Result<Self::Place, AllocError>
        requires { (p : Present S.Word) × (ms : List Member) × EndHolds p end × list p self.old (whole self.old) behind ms }
        ensures placed { (p : Present S.Word) (ms : List Member) → EndHolds p end → list p self.old (whole self.old) behind ms
            → IfOk result (λ place. list p self.new (whole self.new) place (ending p end ms)) }
        ensures cost { IfOk result (λ place. cost self.new place ≡ end_cost end + cost self.old behind) }
        ensures pending { IfOk result (λ place. pending self.new place ≤ pending self.old behind) }
        ensures keeps { KeepsAll list call within cost pending self.old self.new }
        ensures bodies { (p : Present S.Word) (i : Self.Body) (b : bodies.Body) → body p self.old i b → body p self.new i b };

    /// Converts a goal that can be converted (7.6.2), and places its body. The errors: the store is full, or memory was
    /// refused.
    fn place_goal(
        &mut self,
        alloc: Global,
        store: &mut S,
        controls: &Controls,
        goal: S::Word,
    ) -> Result<Self::Body, StoreFault>
        requires goal { Holds (S.present store.old) goal }
        requires callable { is_callable (meaning (S.present store.old) goal) ≡ true }
        requires controls { AreControls (S.names store.old) controls.now }
        ensures placed { IfOk result (IsConverted body (S.present store.old) (S.present store.new) self.new (meaning (S.present store.old) goal)) }
        ensures keeps { KeepsAll list call within cost pending self.old self.new }
        ensures full { result ≡ Err StoreFault.Full → S.full store.new }
        ensures cells { Takes S.Store store.old store.new (conversion_cells (meaning (S.present store.old) goal)) }
        ensures rest { RetainsAll S.Store store.old store.new };

    /// Places the body of a query, with these words for its variables 0, 1, .. The errors: the store is full, or memory
    /// was refused.
    fn place_query(
        &mut self,
        alloc: Global,
        store: &mut S,
        query: &Prepared,
        variables: &[S::Word],
    ) -> Result<Self::Body, StoreFault>
        requires goals { AreTemplates (length variables.now) (goals_of query.now.body) }
        requires variables { All (λ w. Holds (S.present store.old) w) variables.now }
        ensures placed { IfOk result (λ i. body (S.present store.new) self.new i
            (map_body (word_terms (S.present store.old) variables.now) query.now.body)) }
        ensures extends { IfOk result (λ _. Extends (S.present store.old) (S.present store.new) 0) }
        ensures cells { CountsCells S.Store → Grows (S.present store.old) (S.present store.new) (2 * body_size query.now.body) 0 }
        ensures keeps { KeepsAll list call within cost pending self.old self.new }
        ensures full { result ≡ Err StoreFault.Full → S.full store.new }
        ensures rest { Retains S.Store store.old store.new };

    /// Places the body that is this goal, as it is. The error is that memory was refused.
    fn place_run(&mut self, goal: S::Word) -> Result<Self::Body, AllocError>
        ensures placed { (p : Present S.Word) → p.holds goal ≡ true → IfOk result (λ i. body p self.new i (Run (p.term goal))) }
        ensures keeps { KeepsAll list call within cost pending self.old self.new };

    /// The body comes first, with this cut mark, before the list from the place on. The error is that memory was
    /// refused.
    fn run(
        &mut self,
        placed: Self::Body,
        mark: usize,
        behind: Self::Place,
    ) -> Result<Self::Next, AllocError>
        requires { (p : Present S.Word) × (b : bodies.Body) × (ms : List Member) × body p self.old placed b
            × list p self.old (whole self.old) behind ms }
        ensures first { (p : Present S.Word) (b : bodies.Body) (ms : List Member) → body p self.old placed b
            → list p self.old (whole self.old) behind ms → IfOk result (λ n. first p self.new n (Goal b mark ∷ ms)) }
        ensures cost { IfOk result (λ n. first_cost self.new n ≤ body_cost most (cost self.old behind)) }
        ensures pending { IfOk result (λ n. first_pending self.new n ≤ pending self.old behind) }
        ensures keeps { KeepsAll list call within cost pending self.old self.new };

    // words that stand on have their terms
    ghost words: { (p q : Present S.Word) (l : Self) (k : Self.Kept) (i : Self.Place) (ms : List Member) → KeepsWords p q → list p l k i ms → list q l k i ms };
    // so have those of bodies
    ghost body_words: { (p q : Present S.Word) (l : Self) (i : Self.Body) (b : bodies.Body) → KeepsWords p q → body p l i b → body q l i b };
    // where words have their values under a substitution, goals have them
    ghost values: { (p q : Present S.Word) (u : Subst) (l : Self) (k : Self.Kept) (i : Self.Place) (ms : List Member) → HasValues p q u
        → list p l k i ms → SameList q.substitution u ms ms };
    // what is kept of less is kept of more
    ghost more: { (p : Present S.Word) (l : Self) (j k : Self.Kept) (i : Self.Place) (ms : List Member) → below j k → list p l j i ms → list p l k i ms };
    // as much keeps as much
    ghost itself: { (k : Self.Kept) → below k k };
    // all of it stands
    ghost all: { (l : Self) → within l (whole l) };
    // and keeps all that anything keeps
    ghost top: { (l : Self) (k : Self.Kept) → within l k → below k (whole l) };
}
