//! The frame of a clause that was entered.
ghost use Rattle.std.specs.Prelude.{◌≡◌, ◌<◌, ◌-◌, ◌++◌, ◌+◌, ℕ, List, [], IfOk, length, true};
ghost use Rattle.iso_model.specs.Search.Databases as databases;
ghost use Rattle.iso_model.specs.Search.Walker.{Member};
ghost use Rattle.iso_store_core.specs.Presents.{Present};
ghost use Rattle.iso_prep.specs.declared.bodies.Node.{Node};
ghost use Rattle.iso_plain_core.specs.Entering.{Adds};
ghost use Rattle.iso_search_core.specs.Bodies.{body_cost};
ghost use Rattle.iso_compile.specs.Clauses.{body_members};
ghost use Rattle.iso_clause_code.specs.Keeping.{KeepsCode};
ghost use Rattle.iso_frames.specs.Frames.{Chain};
ghost use Rattle.iso_frames.specs.Costs.{cost_of, pending_of, cells_from};
ghost use Rattle.iso_environments.specs.Stacks.{stack};
ghost use Rattle.iso_instructions.specs.Forms.{is_fact};
ghost use Rattle.iso_environments.specs.Entered.{HasEnvironment, clause_members};

use iso_frames::{Frame, Rest, Work};
use iso_instructions::{Code, Form};
use std::alloc::AllocError;
use std::rc::Rc;

/// Whether the body of the clause is no goal: its code only ends.
pub fn is_fact(code: &Code) -> bool
    ensures form { result ≡ is_fact code.now.form }
    ensures body { (names : List (List ℕ)) (c : databases.Clause) → KeepsCode names code.now c → result ≡ true
        → body_members true c.body ≡ [] }
{
    match code.form {
        Form::Fact => true,
        Form::OneCall | Form::Other => false,
    }
}

/// Appends the frame of a clause that was entered with this cut mark, before the list from the place on. Its
/// environment is the last of the words. The error is that memory was refused.
pub fn push_clause<W: Copy>(
    frames: &mut Vec<Frame>,
    words: &[W],
    code: &Rc<Code>,
    height: usize,
    behind: Option<Rest>,
) -> Result<Rest, AllocError>
    requires { 0 < length code.now.value.body.items }
    ensures list { (atom_word : ℕ → W) (p : Present W) (nodes : List (Node W)) (below environment : List W)
        (names : List (List ℕ)) (c : databases.Clause) (ms : List Member) → words.now ≡ below ++ environment
        → HasEnvironment atom_word p names code.now.value c environment
        → Chain atom_word p (stack nodes frames.old.items below) behind ms
        → IfOk result (λ rest. Chain atom_word p (stack nodes frames.new.items words.now) (Some rest)
        (clause_members p environment height c ++ ms)) }
    ensures stand { Adds frames.old.items frames.new.items }
    ensures cost { IfOk result (λ rest. cost_of frames.new.items (Some rest)
        ≡ body_cost (length code.now.value.body.items - 1) (cost_of frames.old.items behind)) }
    ensures pending { IfOk result (λ rest. pending_of frames.new.items (Some rest)
        ≡ cells_from code.now.value (length code.now.value.body.items - 1) + pending_of frames.old.items behind) }
{
    let frame = frames.len();
    let address = code.body.len() - 1;
    frames.push(Frame {
        work: Work::Clause(code.clone()?, None),
        height,
        top: words.len(),
        behind,
    })?;
    Ok(Rest { frame, address })
}
