//! The control constructs of a converted body as a list of parts, each part before what it is a part of.
ghost use Rattle.std.specs.Prelude.{◌≡◌, ◌+◌, ◌*◌, ◌<◌, ◌++◌, None, Some, IfOk, MatchOption};
ghost use Rattle.iso_model.specs.Terms.TermOf.{term_of};
ghost use Rattle.iso_model.specs.Terms.Sizes.{size};
ghost use Rattle.iso_model.specs.Search.Bodies.{Body, two, converted, body_term};
ghost use Rattle.iso_prep.specs.declared.connectives.Connective.TheVariants as connective;
ghost use Rattle.iso_prep.specs.Connectives.{text_of, control_of};
ghost use Rattle.iso_prep.specs.Trees.{EndsWith, IsBorrowed, borrowed, goals_in};
ghost use Rattle.iso_prep.specs.Classes.{goals_of};
ghost use Rattle.iso_prep.specs.Readings.{read, NoChoice, IsLeaf, Does, Leads, Works, task_load, tasks_load, next_load, task_goals, tasks_goals, all_goals};

use super::bodies::Node;
use super::connectives::{Connective, control};
use iso_model::Term;
use std::alloc::{AllocError, Global};

/// What is left to do behind a part that was read.
#[derive(Clone, Copy)]
enum Task<'t> {
    /// It was the first of two parts; this is the second.
    Second(Connective, &'t Term),
    /// It was the second; the first ends at this place.
    Join(Connective, usize),
    /// It was a condition; these are the next and the other.
    Next(&'t Term, &'t Term),
    /// It was the next; the condition ends at this place, and this is the other.
    Other(usize, &'t Term),
    /// It was the other; the condition and the next end at these places.
    Choose(usize, usize),
}

/// The condition and the next of an if-then-else, where the connective and its first part are one's.
fn choice(joint: Connective, first: &Term) -> Option<(&Term, &Term)>
    ensures { MatchOption result (NoChoice joint (term_of first.now))
        (λ c. (joint ≡ connective.Or) × (term_of first.now ≡ two (text_of connective.If) (term_of c.0.now) (term_of c.1.now))) }
{
    if joint != Connective::Or {
        return None;
    }
    match control(first) {
        Some((Connective::If, condition, next)) => Some((condition, next)),
        _ => None,
    }
}

/// A cut or a goal.
pub(crate) fn leaf(term: &Term) -> Node<&Term>
    ensures { control_of (term_of term.now) ≡ None → IsLeaf result (read (term_of term.now)) }
{
    match term {
        Term::Atom(name) if name.as_str() == "!" => Node::Cut,
        _ => Node::Run(term),
    }
}

/// Appends a part that has none itself, or else leaves all but the first of its own, which is the next to be read.
fn read_part<'t>(
    term: &'t Term,
    tasks: &mut Vec<Task<'t>>,
    parts: &mut Vec<Node<&'t Term>>,
) -> Result<Option<&'t Term>, AllocError>
    ensures works { IfOk result (λ next. (whole : Body) → Leads parts.old.items tasks.old.items (read (term_of term.now)) whole → Works parts.new.items tasks.new.items next whole) }
    ensures goals { IfOk result (λ next. all_goals parts.new.items tasks.new.items next ≡ goals_in borrowed parts.old.items ++ (goals_of (read (term_of term.now)) ++ tasks_goals tasks.old.items)) }
    ensures load { IfOk result (λ next. next_load next + tasks_load tasks.new.items < 1 + 4 * size (term_of term.now) + tasks_load tasks.old.items) }
{
    let Some((connective, first, second)) = control(term) else {
        parts.push(leaf(term))?;
        return Ok(None);
    };
    if let Some((condition, next)) = choice(connective, first) {
        tasks.push(Task::Next(next, second))?;
        return Ok(Some(condition));
    }
    tasks.push(Task::Second(connective, second))?;
    Ok(Some(first))
}

/// Goes on behind the last part with the next one to be read, or appends what it is the last part of.
fn go_on<'t>(
    task: Task<'t>,
    tasks: &mut Vec<Task<'t>>,
    parts: &mut Vec<Node<&'t Term>>,
) -> Result<Option<&'t Term>, AllocError>
    ensures works { IfOk result (λ next. (b m whole : Body) → EndsWith IsBorrowed parts.old.items b → Does parts.old.items task.entry b m → Leads parts.old.items tasks.old.items m whole
        → Works parts.new.items tasks.new.items next whole) }
    ensures goals { IfOk result (λ next. all_goals parts.new.items tasks.new.items next ≡ goals_in borrowed parts.old.items ++ (task_goals task.entry ++ tasks_goals tasks.old.items)) }
    ensures load { IfOk result (λ next. next_load next + tasks_load tasks.new.items < task_load task.entry + tasks_load tasks.old.items) }
{
    let count = parts.len();
    let last = count.saturating_sub(1);
    match task {
        Task::Second(connective, second) => {
            tasks.push(Task::Join(connective, last))?;
            Ok(Some(second))
        }
        Task::Next(next, other) => {
            tasks.push(Task::Other(last, other))?;
            Ok(Some(next))
        }
        Task::Other(condition, other) => {
            tasks.push(Task::Choose(condition, last))?;
            Ok(Some(other))
        }
        Task::Join(connective, first) => {
            parts.push(Node::joined(connective, count.saturating_sub(first)))?;
            Ok(None)
        }
        Task::Choose(condition, next) => {
            let (condition, next) = (count.saturating_sub(condition), count.saturating_sub(next));
            parts.push(Node::Choose(condition, next))?;
            Ok(None)
        }
    }
}

/// The parts of what the term is, where no part of it needs to be converted.
pub(crate) fn parts_of(alloc: Global, body: &Term) -> Result<Vec<Node<&Term>>, AllocError>
    ensures ends { IfOk result (λ parts. EndsWith IsBorrowed parts.items (read (term_of body.now))) }
    ensures goals { IfOk result (λ parts. goals_in borrowed parts.items ≡ goals_of (read (term_of body.now))) }
{
    let mut tasks = Vec::new(alloc);
    let mut parts = Vec::new(alloc);
    let mut next = Some(body);
    'reading: loop {
        next = match next {
            Some(term) => read_part(term, &mut tasks, &mut parts)?,
            None => match tasks.pop() {
                Some(task) => go_on(task, &mut tasks, &mut parts)?,
                None => return Ok(parts),
            },
        };
    }
}

/// The parts of a converted body, each part before what it is a part of, and the whole last; their goals are the
/// body's. The error is that memory was refused.
pub fn constructs(alloc: Global, body: &Term) -> Result<Vec<Node<&Term>>, AllocError>
    ensures ends { IfOk result (λ parts. (b : Body) → converted (term_of body.now) ≡ Some b → body_term b ≡ term_of body.now → EndsWith IsBorrowed parts.items b) }
    ensures goals { IfOk result (λ parts. (b : Body) → converted (term_of body.now) ≡ Some b → body_term b ≡ term_of body.now → goals_in borrowed parts.items ≡ goals_of b) }
{
    parts_of(alloc, body)
}
