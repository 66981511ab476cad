//! The goals of a converted body, from the left through its control constructs; a cut is none.
ghost use Rattle.std.specs.Prelude.{◌≡◌, ◌+◌, ◌<◌, ◌++◌, IfOk, OnOk};
ghost use Rattle.iso_model.specs.Terms.TermOf.{term_of};
ghost use Rattle.iso_model.specs.Terms.Sizes.{size};
ghost use Rattle.iso_prep.specs.Classes.{goals_of};
ghost use Rattle.iso_prep.specs.Loads.{terms_load};
ghost use Rattle.iso_prep.specs.Readings.{read};
ghost use Rattle.iso_prep.specs.Uses.{goals_left, goal_terms};

use super::bodies::Node;
use super::connectives::control;
use super::constructs::leaf;
use iso_model::Term;
use std::alloc::{AllocError, Global};

/// Appends a goal, and leaves the parts of a control construct.
fn collect_next<'t>(
    part: &'t Term,
    rest: &mut Vec<&'t Term>,
    goals: &mut Vec<&'t Term>,
) -> Result<(), AllocError>
    ensures goals { OnOk result (goal_terms goals.new.items ++ goals_left rest.new.items ≡ goal_terms goals.old.items ++ (goals_of (read (term_of part.now)) ++ goals_left rest.old.items)) }
    ensures load { OnOk result (terms_load rest.new.items < size (term_of part.now) + terms_load rest.old.items) }
{
    if let Some((_, first, second)) = control(part) {
        rest.push(second)?;
        rest.push(first)?;
        return Ok(());
    }
    if let Node::Run(goal) = leaf(part) {
        goals.push(goal)?;
    }
    Ok(())
}

/// The goals of a body that is converted. The error is that memory was refused.
pub fn collected(alloc: Global, body: &Term) -> Result<Vec<&Term>, AllocError>
    ensures { IfOk result (λ goals. goal_terms goals.items ≡ goals_of (read (term_of body.now))) }
{
    let mut rest = Vec::new(alloc);
    let mut goals = Vec::new(alloc);
    rest.push(body)?;
    while let Some(part) = rest.pop() {
        collect_next(part, &mut rest, &mut goals)?;
    }
    Ok(goals)
}
