//! How the variables of a clause are used, found in one pass through its head and its goals.
ghost use Rattle.std.specs.Prelude.{◌≡◌, ◌+◌, ◌*◌, ◌<◌, ◌∷◌, [], vec_len, sum_by, get_or, nat_lt, ◌&&◌, ◌||◌, IfOk, OnOk, if◌then◌else◌, option_map};
ghost use Rattle.iso_model.specs.Terms.TermOf.{term_of, row_of};
ghost use Rattle.iso_model.specs.Terms.Sizes.{size};
ghost use Rattle.iso_model.specs.Terms.Rows.{row_load};
ghost use Rattle.iso_prep.specs.declared.classes.Class.TheVariants.{Void, Temporary, Permanent};
ghost use Rattle.iso_prep.specs.Classes.{goals_of};
ghost use Rattle.iso_prep.specs.Readings.{read};
ghost use Rattle.iso_prep.specs.Uses.{AreUses, noted, with_use, with_term, with_rows, with_goals, goal_terms, head_or_end};

use super::classes::Class;
use super::goals::collected;
use iso_model::Term;
use std::alloc::{AllocError, Global};

/// How a variable is used.
#[derive(Clone, Copy)]
pub struct Use {
    /// How often it occurs; 2 where more than once.
    pub times: usize,
    /// Whether it occurs in the head.
    pub in_head: bool,
    /// The first goal in which it occurs, counted from 1; 0 for none.
    pub first: usize,
    /// The last goal in which it occurs, counted from 1; 0 for none.
    pub last: usize,
}

/// A variable that isn't used yet.
const UNUSED: Use = Use {
    times: 0,
    in_head: false,
    first: 0,
    last: 0,
};

impl Use {
    /// The use with an occurrence more, in the goal of this number; the head is 0.
    fn noted(self, goal: usize) -> Use
        ensures { result ≡ noted goal self }
    {
        Use {
            times: if self.times == 0 { 1 } else { 2 },
            in_head: self.in_head || goal == 0,
            first: if self.first == 0 { goal } else { self.first },
            last: goal,
        }
    }

    /// The class of a clause's variable.
    pub fn class(self) -> Class
        ensures { result ≡ if nat_lt self.times 2 then Void else (if nat_lt self.first self.last || (self.in_head && nat_lt 1 self.last) then Permanent else Temporary) }
    {
        if self.times < 2 {
            Class::Void
        } else if self.first < self.last || (self.in_head && self.last > 1) {
            Class::Permanent
        } else {
            Class::Temporary
        }
    }
}

/// Notes a variable in the goal of this number; one that has no uses here is left out.
fn note_use(goal: usize, variable: u64, uses: &mut Vec<Use>)
    ensures { uses.new.items ≡ with_use goal variable uses.old.items }
{
    let variable = variable as usize;
    if variable < uses.len() {
        uses[variable] = uses[variable].noted(goal);
    }
}

/// Notes a variable, and leaves a compound's arguments to be gone through.
fn note_next<'t>(
    goal: usize,
    term: &'t Term,
    rows: &mut Vec<&'t [Term]>,
    uses: &mut Vec<Use>,
) -> Result<(), AllocError>
    ensures uses { OnOk result (with_rows goal rows.new.items uses.new.items ≡ with_rows goal rows.old.items (with_term goal (term_of term.now) uses.old.items)) }
    ensures load { OnOk result (sum_by row_load rows.new.items < 2 * size (term_of term.now) + sum_by row_load rows.old.items) }
{
    match term {
        Term::Var(number) => {
            note_use(goal, *number, uses);
            Ok(())
        }
        Term::Int(_) | Term::Atom(_) => Ok(()),
        Term::Compound(_, arguments) => {
            rows.push(arguments.as_slice())?;
            Ok(())
        }
    }
}

/// Goes through the first term of a row, and leaves the others.
fn note_row<'t>(
    goal: usize,
    row: &'t [Term],
    rows: &mut Vec<&'t [Term]>,
    uses: &mut Vec<Use>,
) -> Result<(), AllocError>
    ensures uses { OnOk result (with_rows goal rows.new.items uses.new.items ≡ with_rows goal rows.old.items (with_term goal (row_of row.now) uses.old.items)) }
    ensures load { OnOk result (sum_by row_load rows.new.items < 1 + 2 * size (row_of row.now) + sum_by row_load rows.old.items) }
{
    match row {
        [] => Ok(()),
        [only] => note_next(goal, only, rows, uses),
        [first, others @ ..] => {
            rows.push(others)?;
            note_next(goal, first, rows, uses)
        }
    }
}

/// Notes each variable of the term in the goal of this number. The error is that memory was refused.
fn note_term(alloc: Global, goal: usize, term: &Term, uses: &mut Vec<Use>) -> Result<(), AllocError>
    ensures { OnOk result (uses.new.items ≡ with_term goal (term_of term.now) uses.old.items) }
{
    let mut rows = Vec::new(alloc);
    note_next(goal, term, &mut rows, uses)?;
    while let Some(row) = rows.pop() {
        note_row(goal, row, &mut rows, uses)?;
    }
    Ok(())
}

/// Notes each variable of the head, where there is one. The error is that memory was refused.
fn note_head(alloc: Global, head: Option<&Term>, uses: &mut Vec<Use>) -> Result<(), AllocError>
    ensures { OnOk result (uses.new.items ≡ with_term 0 (head_or_end (option_map (λ h. term_of h.now) head.entry)) uses.old.items) }
{
    match head {
        Some(head) => note_term(alloc, 0, head, uses),
        None => Ok(()),
    }
}

/// Notes each variable of the goals, which are numbered from 1. The error is that memory was refused.
fn note_goals(alloc: Global, goals: &[&Term], uses: &mut Vec<Use>) -> Result<(), AllocError>
    ensures { OnOk result (uses.new.items ≡ with_goals 1 (goal_terms goals.now) uses.old.items) }
{
    for (index, goal) in goals.iter().enumerate() {
        note_term(alloc, index + 1, goal, uses)?;
    }
    Ok(())
}

/// The uses of so many variables in the head, where there is one, and in the goals of the body. The error is that
/// memory was refused.
pub fn uses_of(
    alloc: Global,
    count: usize,
    head: Option<&Term>,
    body: &Term,
) -> Result<Vec<Use>, AllocError>
    ensures { IfOk result (λ uses. AreUses uses.items count (head_or_end (option_map (λ h. term_of h.now) head.entry)) (goals_of (read (term_of body.now)))) }
{
    let mut uses = vec![in alloc; UNUSED; count]?;
    note_head(alloc, head, &mut uses)?;
    let goals = collected(alloc, body)?;
    note_goals(alloc, goals.as_slice(), &mut uses)?;
    Ok(uses)
}
