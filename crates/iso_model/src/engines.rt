//! The trait that an engine meets.
ghost use Rattle.std.specs.Prelude.{◌≡◌, ℕ, true};
ghost use Rattle.iso_model.specs.Terms.Trees.{arities_fit};
ghost use Rattle.iso_model.specs.Terms.TermOf.{term_of};
ghost use Rattle.iso_model.specs.Terms.Copies.{IsNumbered};
ghost use Rattle.iso_model.specs.Search.Additions.{consulted};
ghost use Rattle.iso_model.specs.Search.Walker.{State, World, idle, started};
ghost use Rattle.iso_model.specs.Search.Engines.{Phase, Ready, IsAwake, HoldsWhereItIs, Spent, Starts, Pauses, StaysSpent, Consults, FallsAtEvent, MayMeet, RefusesStart, MeetsLimit, KeepsLimits, GivesTerms, RefusesByTerm};
ghost use Rattle.iso_model.specs.declared.limit.Limit.{Limit};
ghost use Rattle.iso_model.specs.declared.pauses.Pause.TheVariants as pause;

use super::pauses::{AddFault, Pause, StartFault};
use super::terms::Term;
use iso_ops::{Flags, OpTable};

/// A search for the solutions of goals over a list of clauses, event by event (7.7). An engine stands for a state of
/// the standard's search; what it answers are that state's events and its ending.
pub trait Engine {
    /// The states of the search that the engine may be in: what it doesn't keep is free.
    ghost stands_for: { Self → State → Type 0 };
    /// Whether a goal may be started, a run goes on, or a limit was met.
    ghost phase: { Self → Phase };
    /// A number that falls at each event.
    ghost left: { Self → ℕ };
    /// The pieces of a walk, each from a start or an event to the next event or the ending, in which the heap may be
    /// full. A piece is named by the state that it begins at.
    ghost heap_pieces: { Self → State → Type 0 };
    /// The pieces of a walk in which the frames may be full.
    ghost frames_pieces: { Self → State → Type 0 };

    /// Begins the search for the solutions of the goal, whose variables are numbered 0, 1, .. by first occurrence;
    /// the rest of a run is dropped. The errors: the cells are used up, or memory was refused; the engine is spent
    /// then.
    fn start(&mut self, goal: &Term, budget: u32) -> Result<(), StartFault>
        requires ready { phase self.old ≡ Ready }
        requires stands { (s : State) × stands_for self.old s }
        requires fits { arities_fit (term_of goal.now) ≡ true }
        requires numbered { IsNumbered (term_of goal.now) }
        ensures starts { (s : State) → stands_for self.old s
            → Starts (term_of goal.now) budget s result (stands_for self.new) (phase self.new) }
        ensures limit { (s : State) → stands_for self.old s
            → RefusesStart (MayMeet (heap_pieces self.new) (frames_pieces self.new)) (started (term_of goal.now) budget s.world) result }
        ensures limits { KeepsLimits (MayMeet (heap_pieces self.old) (frames_pieces self.old)) (MayMeet (heap_pieces self.new) (frames_pieces self.new)) };

    /// Goes on to the next event of the search, or to its end. An idle engine answers NoMore, a spent one Spent.
    fn resume(&mut self) -> Pause
        requires { (s : State) × stands_for self.old s }
        ensures pauses { (s : State) → stands_for self.old s → IsAwake (phase self.old)
            → Pauses s result (stands_for self.new) (phase self.new) }
        ensures idle { (w : World) → stands_for self.old (idle w) → phase self.old ≡ Ready → result ≡ pause.NoMore }
        ensures spent { (s : State) → stands_for self.old s → (limit : Limit) → phase self.old ≡ Spent limit
            → StaysSpent s limit result (stands_for self.new) (phase self.new) }
        ensures limit { (s : State) → stands_for self.old s → MeetsLimit (MayMeet (heap_pieces self.new) (frames_pieces self.new)) s result }
        ensures limits { KeepsLimits (MayMeet (heap_pieces self.old) (frames_pieces self.old)) (MayMeet (heap_pieces self.new) (frames_pieces self.new)) }
        ensures left { FallsAtEvent result (left self.old) (left self.new) }
        ensures fits { GivesTerms result };

    /// The operators as they are now; of a spent engine, as they were where it stopped.
    fn ops(&self) -> &OpTable
        ensures { (s : State) → stands_for self.now s → HoldsWhereItIs (phase self.now) s (λ t. result.now ≡ t.world.operators) };

    /// The flags as they are now; of a spent engine, as they were where it stopped.
    fn flags(&self) -> &Flags
        ensures { (s : State) → stands_for self.now s → HoldsWhereItIs (phase self.now) s (λ t. result.now ≡ t.world.flags) };

    /// Adds a clause at the end of its procedure; the rest of a run is dropped. The errors: the clause is refused
    /// with its error, or memory was refused; the database is as it was then.
    fn consult(&mut self, clause: &Term) -> Result<(), AddFault>
        requires ready { phase self.old ≡ Ready }
        requires stands { (s : State) × stands_for self.old s }
        requires fits { arities_fit (term_of clause.now) ≡ true }
        ensures consults { (s : State) → stands_for self.old s
            → Consults (consulted (term_of clause.now) s.world.database) s result (stands_for self.new) }
        ensures fits { RefusesByTerm result }
        ensures ready { phase self.new ≡ Ready }
        ensures limits { KeepsLimits (MayMeet (heap_pieces self.old) (frames_pieces self.old)) (MayMeet (heap_pieces self.new) (frames_pieces self.new)) };
}
