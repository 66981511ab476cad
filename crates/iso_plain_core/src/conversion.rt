//! Goals are converted where they stand in the store (7.6.2), by the atoms of their control constructs' names.
ghost use Rattle.std.specs.Prelude.{◌≡◌, ◌+◌, ◌*◌, ◌≤◌, Option, None, Some, Err, IfOk, OnOk, MatchOption, codes};
ghost use Rattle.iso_model.specs.Terms.Sizes.{size};
ghost use Rattle.iso_model.specs.Search.Bodies.{Body, one, converted};
ghost use Rattle.iso_store_core.specs.Presents.{Present, Holds, meaning, Makes, KeepsNumbers};
ghost use Rattle.iso_store_core.specs.Retaining.{RetainsAll, Takes};
ghost use Rattle.iso_prep.specs.declared.connectives.Connective.TheVariants as connective;
ghost use Rattle.iso_prep.specs.Connectives.{control_of};
ghost use Rattle.iso_prep.specs.Conversions.{is_callable};
ghost use Rattle.iso_prep.specs.Readings.{NoChoice};
ghost use Rattle.iso_search_core.specs.Cells.{leaf_cells, conversion_cells};
ghost use Rattle.iso_plain_core.specs.Cells.{word_cells, task_cells, tasks_cells, next_cells, read_cells};
ghost use Rattle.iso_program.specs.Controls.{AreControls};
ghost use Rattle.iso_plain_core.specs.Entering.{Adds};
ghost use Rattle.iso_search_core.specs.Words.{Extends};
ghost use Rattle.iso_plain_core.specs.Nodes.{EndsWith};
ghost use Rattle.iso_search_core.specs.Constructs.{IsConstruct};
ghost use Rattle.iso_plain_core.specs.Conversions.{IsValue, IsLeaf, Does, Leads, GoesOn, IsRead, Places, task_load, tasks_load};

use super::bodies::Node;
use iso_prep::Connective;
use iso_program::controls::Controls;
use iso_search_core::callable_goals::{Construct, call_of, control};
use iso_store_core::{Shape, Store, StoreFault};
use std::alloc::{AllocError, Global};

/// What is left to do behind a part that was read.
#[derive(Clone, Copy)]
enum Task<W> {
    /// It was the first of two parts; this is the second.
    Second(Connective, W),
    /// It was the second; the first ends at this place.
    Join(Connective, usize),
    /// It was a condition; these are the next and the other.
    Next(W, W),
    /// It was the next; the condition ends at this place, and this is the other.
    Other(usize, W),
    /// It was the other; the condition and the next end at these places.
    Choose(usize, usize),
}

/// What reading a part came to.
#[derive(Clone, Copy)]
enum Read<W> {
    /// It has parts, the first of which is read next.
    Into(W),
    /// It has none, and was appended.
    Whole,
    /// It is a number.
    Number,
}

/// The if-then that makes an if-then-else of a construct with this connective, whose first part the word is.
fn if_then<S: Store>(
    store: &S,
    controls: &Controls,
    joint: Connective,
    first: S::Word,
) -> Option<Construct<S::Word>>
    requires first { Holds (S.present store.now) first }
    requires controls { AreControls (S.names store.now) controls.now }
    ensures { MatchOption result (NoChoice joint (meaning (S.present store.now) first))
        (λ c. (joint ≡ connective.Or) × (c.connective ≡ connective.If) × IsConstruct (S.present store.now) (meaning (S.present store.now) first) c) }
{
    if joint != Connective::Or {
        return None;
    }
    let front = control(store, controls, first)?;
    if front.connective != Connective::If {
        return None;
    }
    Some(front)
}

/// The node of a part that is no control construct of two parts; a number has none. A variable X becomes call(X). The
/// errors: the store is full, or memory was refused.
fn leaf<S: Store>(
    alloc: Global,
    store: &mut S,
    controls: &Controls,
    word: S::Word,
) -> Result<Option<Node<S::Word>>, StoreFault>
    requires word { Holds (S.present store.old) word }
    requires controls { AreControls (S.names store.old) controls.now }
    ensures leaf { IfOk result (λ leaf. control_of (meaning (S.present store.old) word) ≡ None
        → MatchOption leaf (converted (meaning (S.present store.old) word) ≡ None)
        (λ node. (b : Body) × (converted (meaning (S.present store.old) word) ≡ Some b) × IsLeaf (S.present store.new) node b)) }
    ensures extends { OnOk result (Extends (S.present store.old) (S.present store.new) 0) }
    ensures full { result ≡ Err StoreFault.Full → S.full store.new }
    ensures cells { Takes S.Store store.old store.new (leaf_cells (meaning (S.present store.old) word)) }
    ensures rest { RetainsAll S.Store store.old store.new }
{
    match store.shape(word) {
        Shape::Int(_) => Ok(None),
        Shape::Var(_) => Ok(Some(Node::Run(call_of(alloc, store, controls, word)?))),
        Shape::Atom(name) if controls.is_cut(name) => Ok(Some(Node::Cut)),
        Shape::Atom(_) | Shape::Compound(_, _) => Ok(Some(Node::Run(word))),
    }
}

/// Appends a part that has none itself, or else leaves all but the first of its own, which is the next to be read.
/// The errors: the store is full, or memory was refused.
fn read_part<S: Store>(
    alloc: Global,
    store: &mut S,
    controls: &Controls,
    word: S::Word,
    tasks: &mut Vec<Task<S::Word>>,
    nodes: &mut Vec<Node<S::Word>>,
) -> Result<Read<S::Word>, StoreFault>
    requires word { Holds (S.present store.old) word }
    requires controls { AreControls (S.names store.old) controls.now }
    ensures reads { IfOk result (λ read. (whole : Option Body) → Leads (S.present store.old) nodes.old.items tasks.old.items (converted (meaning (S.present store.old) word)) whole
        → IsRead (S.present store.new) nodes.new.items tasks.new.items whole (1 + 4 * size (meaning (S.present store.old) word) + tasks_load (S.present store.old) tasks.old.items) read) }
    ensures extends { OnOk result (Extends (S.present store.old) (S.present store.new) 0) }
    ensures full { result ≡ Err StoreFault.Full → S.full store.new }
    ensures nodes { Adds nodes.old.items nodes.new.items }
    ensures cells { Takes S.Store store.old store.new (leaf_cells (meaning (S.present store.old) word)) }
    ensures left { IfOk result (λ read. (whole : Option Body) → Leads (S.present store.old) nodes.old.items tasks.old.items (converted (meaning (S.present store.old) word)) whole
        → leaf_cells (meaning (S.present store.old) word) + (read_cells (S.present store.new) read + tasks_cells (S.present store.new) tasks.new.items)
        ≤ word_cells (S.present store.old) word + tasks_cells (S.present store.old) tasks.old.items) }
    ensures rest { RetainsAll S.Store store.old store.new }
{
    let Some(whole) = control(store, controls, word) else {
        let Some(node) = leaf(alloc, store, controls, word)? else {
            return Ok(Read::Number);
        };
        nodes.push(node)?;
        return Ok(Read::Whole);
    };
    if let Some(front) = if_then(store, controls, whole.connective, whole.first) {
        tasks.push(Task::Next(front.second, whole.second))?;
        return Ok(Read::Into(front.first));
    }
    tasks.push(Task::Second(whole.connective, whole.second))?;
    Ok(Read::Into(whole.first))
}

/// Goes on behind the last part with the next one to be read, or appends what it is the last part of.
fn go_on<W: Copy>(
    task: Task<W>,
    tasks: &mut Vec<Task<W>>,
    nodes: &mut Vec<Node<W>>,
) -> Result<Option<W>, AllocError>
    ensures goes_on { IfOk result (λ next. (q : Present W) (b : Body) (m whole : Option Body) → EndsWith (IsValue q) nodes.old.items b → Does q nodes.old.items task (Some b) m
        → Leads q nodes.old.items tasks.old.items m whole
        → GoesOn q nodes.new.items tasks.new.items next whole (task_load q task + tasks_load q tasks.old.items)) }
    ensures left { IfOk result (λ next. (q : Present W) → next_cells q next + tasks_cells q tasks.new.items ≤ task_cells q task + tasks_cells q tasks.old.items) }
    ensures nodes { Adds nodes.old.items nodes.new.items }
{
    let count = nodes.len();
    let last = count.saturating_sub(1);
    match task {
        Task::Second(connective, second) => {
            tasks.push(Task::Join(connective, last))?;
            Ok(Some(second))
        }
        Task::Next(next, other) => {
            tasks.push(Task::Other(last, other))?;
            Ok(Some(next))
        }
        Task::Other(condition, other) => {
            tasks.push(Task::Choose(condition, last))?;
            Ok(Some(other))
        }
        Task::Join(connective, first) => {
            nodes.push(Node::joined(connective, count.saturating_sub(first)))?;
            Ok(None)
        }
        Task::Choose(condition, next) => {
            let (condition, next) = (count.saturating_sub(condition), count.saturating_sub(next));
            nodes.push(Node::Choose(condition, next))?;
            Ok(None)
        }
    }
}

/// Converts the goal and appends its parts to the nodes: the place where it ends, or nothing where a part is a
/// number. The errors: the store is full, or memory was refused.
pub fn convert<S: Store>(
    alloc: Global,
    store: &mut S,
    controls: &Controls,
    nodes: &mut Vec<Node<S::Word>>,
    goal: S::Word,
) -> Result<Option<usize>, StoreFault>
    requires goal { Holds (S.present store.old) goal }
    requires controls { AreControls (S.names store.old) controls.now }
    ensures converts { IfOk result (λ place. MatchOption place (converted (meaning (S.present store.old) goal) ≡ None)
        (λ place. (b : Body) × (converted (meaning (S.present store.old) goal) ≡ Some b) × Places (S.present store.old) (S.present store.new) nodes.old.items nodes.new.items b place)) }
    ensures extends { OnOk result (Extends (S.present store.old) (S.present store.new) 0) }
    ensures full { result ≡ Err StoreFault.Full → S.full store.new }
    ensures nodes { Adds nodes.old.items nodes.new.items }
    ensures cells { Takes S.Store store.old store.new (conversion_cells (meaning (S.present store.old) goal)) }
    ensures rest { RetainsAll S.Store store.old store.new }
{
    let mut tasks = Vec::new(alloc);
    let mut next = Some(goal);
    'reading: loop {
        next = match next {
            Some(word) => match read_part(alloc, store, controls, word, &mut tasks, nodes)? {
                Read::Into(first) => Some(first),
                Read::Whole => None,
                Read::Number => return Ok(None),
            },
            None => match tasks.pop() {
                Some(task) => go_on(task, &mut tasks, nodes)?,
                None => return Ok(Some(nodes.len().saturating_sub(1))),
            },
        };
    }
}
