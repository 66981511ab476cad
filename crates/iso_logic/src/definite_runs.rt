//! `start` and `resume` for a caller who runs definite queries over definite clauses, with any engine.
ghost use Rattle.std.specs.Prelude.{◌≡◌, ℕ, List, [], true, IfOk};
ghost use Rattle.iso_model.specs.Terms.Trees.{Tree, arities_fit};
ghost use Rattle.iso_model.specs.Terms.TermOf.{term_of};
ghost use Rattle.iso_model.specs.Terms.Copies.{IsNumbered};
ghost use Rattle.iso_model.specs.Search.Engines.{Ready, IsAwake, Starts, Pauses};
ghost use Rattle.iso_model.specs.Search.Walker.{State, World};
ghost use Rattle.iso_logic.specs.DefiniteClauses.{IsDefinite};
ghost use Rattle.iso_logic.specs.DefiniteQueries.{IsDefiniteQuery};
ghost use Rattle.iso_logic.specs.EngineAnswers.{IsBehind, Concludes};

use iso_model::{Engine, Pause, StartFault, Term};

/// `start`: the engine is in the run of the goal then, behind no answer. The errors are those of `start`.
pub fn start_definite<E: Engine>(engine: &mut E, goal: &Term, budget: u32) -> Result<(), StartFault>
    requires ready { E.phase engine.old ≡ Ready }
    requires stands { (s : State) × E.stands_for engine.old s }
    requires fits { arities_fit (term_of goal.now) ≡ true }
    requires numbered { IsNumbered (term_of goal.now) }
    ensures starts { (s : State) → E.stands_for engine.old s
        → Starts (term_of goal.now) budget s result (E.stands_for engine.new) (E.phase engine.new) }
    ensures behind { (s : State) → E.stands_for engine.old s
        → IfOk result (λ u. IsBehind (term_of goal.now) budget s.world [] (E.stands_for engine.new)) }
{
    engine.start(goal, budget)
}

/// `resume`, with what its answer lets a caller conclude who knows that the engine is in the run of a definite query
/// over definite clauses, and which answers it gave.
pub fn resume_definite<E: Engine>(engine: &mut E) -> Pause
    requires stands { (s : State) × E.stands_for engine.old s }
    requires awake { IsAwake (E.phase engine.old) }
    ensures pauses { (s : State) → E.stands_for engine.old s
        → Pauses s result (E.stands_for engine.new) (E.phase engine.new) }
    ensures concludes { (goal : Tree) (budget : ℕ) (w : World) (answers : List (List Tree))
        → IsDefinite w.database.procedures → IsDefiniteQuery goal
        → IsBehind goal budget w answers (E.stands_for engine.old)
        → Concludes goal budget w answers result (E.stands_for engine.new) }
{
    engine.resume()
}
