//! Arithmetic that a clause has written out.
ghost use Rattle.std.specs.Prelude.{◌≡◌, ℕ, List, ◌∷◌, Some, Err};
ghost use Rattle.iso_model.specs.Terms.Trees.{Tree};
ghost use Rattle.iso_model.specs.Terms.Substitutions.{apply};
ghost use Rattle.iso_model.specs.Search.Bodies.{Run};
ghost use Rattle.iso_model.specs.Search.Library.{library_answer};
ghost use Rattle.iso_model.specs.Search.Walker as walker;
ghost use Rattle.iso_model.specs.Search.RunLaws.Sameness.{open_list};
ghost use Rattle.iso_model.specs.declared.kinds.Library.{Library};
ghost use Rattle.iso_model.specs.declared.built_ins.BuiltIn.TheVariants as built_in;
ghost use Rattle.iso_store_core.specs.Retaining.{RetainsAll, Takes};
ghost use Rattle.iso_prep.specs.declared.bodies.Node.{Node};
ghost use Rattle.iso_arith.specs.Evaluables.{AreEvaluables};
ghost use Rattle.iso_lib_core.specs.Cells.{made_for};
ghost use Rattle.iso_search_core.specs.GoalKinds.{IsBuiltIn};
ghost use Rattle.iso_frames.specs.Frames.{Chain};
ghost use Rattle.iso_environments.specs.Stacks.{stack};
ghost use Rattle.iso_environments.specs.Answering.{IsArithmeticThere, IsBelow, HasAnswered};

use iso_arith::Evaluables;
use iso_cells::Cells;
use iso_evaluation::{compare, evaluate};
use iso_frames::{Frame, Rest, Work};
use iso_instructions::Instruction;
use iso_lib_core::{Fault, Reply};
use std::alloc::Global;

/// What the goal of the arithmetic at this place comes to (8.6.1, 8.7.1). The list of values loses what it had. The
/// errors: one is raised, the store is full, or memory was refused.
pub fn answer<S: Cells>(
    alloc: Global,
    store: &mut S,
    evaluables: &Evaluables,
    frames: &[Frame],
    words: &[S::Word],
    rest: Rest,
    values: &mut Vec<i128>,
) -> Result<Reply, Fault>
    requires evaluables { AreEvaluables (S.names store.old) evaluables.now }
    requires arithmetic { (nodes : List (Node S.Word)) × (all : List walker.Member)
        × Chain S.atom_word (S.present store.old) (stack nodes frames.now words.now) (Some rest) all
        × IsArithmeticThere frames.now rest }
    ensures replies { (nodes : List (Node S.Word)) (all : List walker.Member)
        → Chain S.atom_word (S.present store.old) (stack nodes frames.now words.now) (Some rest) all
        → HasAnswered S.atom_word (S.present store.old) (S.present store.new) (stack nodes frames.now words.now) rest
        all result }
    ensures places { (nodes : List (Node S.Word)) (all : List walker.Member)
        → Chain S.atom_word (S.present store.old) (stack nodes frames.now words.now) (Some rest) all
        → IsBelow frames.now rest }
    ensures cells { (nodes : List (Node S.Word)) (all : List walker.Member) (term : Tree) (mark : ℕ)
        (behind : List walker.Member) (row : Library)
        → Chain S.atom_word (S.present store.old) (stack nodes frames.now words.now) (Some rest) all
        → open_list all ≡ walker.Goal (Run term) mark ∷ behind
        → IsBuiltIn (apply (S.present store.old).substitution term) (built_in.Library row)
        → Takes S.Store store.old store.new
        (made_for (library_answer row (apply (S.present store.old).substitution term))) }
    ensures full { result ≡ Err Fault.Full → S.full store.new }
    ensures rest { RetainsAll S.Store store.old store.new }
{
    let frame = &frames[rest.frame];
    let Work::Clause(code, _) = &frame.work else {
        unreachable!();
    };
    let environment = &words[frame.top - code.variables..frame.top];
    match &code.body[rest.address] {
        Instruction::Is(left, steps) => evaluate(
            alloc,
            store,
            evaluables,
            left,
            steps.as_slice(),
            environment,
            values,
        ),
        Instruction::Compare(comparison, steps) => compare(
            alloc,
            store,
            evaluables,
            *comparison,
            steps.as_slice(),
            environment,
            values,
        ),
        _ => unreachable!(),
    }
}
