//! The moves at members of the list that are no goals: control constructs, cuts, failure, and the ends of goals that
//! run others (7.8).
ghost use Rattle.std.specs.Prelude.{◌≡◌};
ghost use Rattle.iso_model.specs.Search.Walker.{State};
ghost use Rattle.iso_prep.specs.declared.bodies.Node.TheVariants as node;
ghost use Rattle.iso_plain_core.specs.Standing.{IsAt};
ghost use Rattle.iso_plain_core.specs.declared.members.Todo.TheVariants as todo;
ghost use Rattle.iso_search.specs.EngineStates.{Represents};
ghost use Rattle.iso_search.specs.Moved.{Moved};
ghost use Rattle.iso_control.specs.Firsts.{Begins, link_of};
ghost use Rattle.iso_control.specs.Members.{IsNoGoal};

use super::members::Members;
use iso_plain_core::bodies::Node;
use iso_plain_core::members::Todo;
use iso_search::search::{Move, Search};
use iso_search_core::choices::{Left, keep_choice};
use iso_search_core::lists::Lists;
use iso_search_core::nows::Now;
use iso_store_core::{Store, StoreFault};

/// A member that comes first: what it asks for, its height, and where the list behind it begins.
#[derive(Clone, Copy)]
pub struct First<P> {
    pub todo: Todo,
    pub height: usize,
    pub behind: P,
}

/// Does what the member that comes first asks for, which is no goal. The errors: the store is full, or memory was
/// refused.
pub fn run_member<S: Store + Drop, L: Members<S>>(
    search: &mut Search<S, L>,
    first: First<L::Place>,
) -> Result<Move, StoreFault>
    requires now { Begins L.leads search.old.now first }
    requires other { IsNoGoal (L.nodes search.old.lists) first.todo }
    requires stands { (s : State) × Represents S.Store L.Lists search.old s }
    ensures { Moved S.Store L.Lists (L.over search.old.limit) search.old result search.new }
{
    match first.todo {
        Todo::Body(place) => run_body(search, first, place),
        Todo::CutTo => Ok(search.cut(first.height, first.behind)),
        Todo::Fail => Ok(search.fail_first()),
        Todo::Leave => Ok(search.leave(first.behind)),
        Todo::Gather(place) => gather(search, first, place),
    }
}

/// Gathers a solution: a copy of the template, whose word is at this place of the nodes, comes to what the choice at
/// the member's height has gathered, and the engine fails next (8.10.1). The error is that memory was refused.
fn gather<S: Store + Drop, L: Members<S>>(
    search: &mut Search<S, L>,
    first: First<L::Place>,
    place: usize,
) -> Result<Move, StoreFault>
    requires now { Begins L.leads search.old.now first }
    requires gathers { first.todo ≡ todo.Gather place }
    requires stands { (s : State) × Represents S.Store L.Lists search.old s }
    ensures { Moved S.Store L.Lists (λ s. ⊥) search.old result search.new }
{
    let Node::Run(template) = search.lists.node(place) else {
        unreachable!();
    };
    search.gather(first.height, template)
}

/// Runs the body at this place of the nodes, which the member asks for and which is no goal. The errors are those of
/// `run_member`.
fn run_body<S: Store + Drop, L: Members<S>>(
    search: &mut Search<S, L>,
    first: First<L::Place>,
    place: usize,
) -> Result<Move, StoreFault>
    requires now { Begins L.leads search.old.now first }
    requires body { first.todo ≡ todo.Body place }
    requires other { IsNoGoal (L.nodes search.old.lists) (todo.Body place) }
    requires stands { (s : State) × Represents S.Store L.Lists search.old s }
    ensures { Moved S.Store L.Lists (L.over search.old.limit) search.old result search.new }
{
    match search.lists.node(place) {
        Node::Run(_) => unreachable!(),
        Node::Cut => Ok(search.cut(first.height, first.behind)),
        Node::And(distance) => conjunction(search, first, place, distance),
        Node::Or(distance) => disjunction(search, first, place, distance),
        Node::If(distance) => if_then(search, first, place, distance),
        Node::Choose(condition, next) => if_then_else(search, first, place, condition, next),
    }
}

/// Runs the first body of the conjunction at this place, which ends so far back, before its second one (7.8.5). The
/// error is that memory was refused.
fn conjunction<S: Store + Drop, L: Members<S>>(
    search: &mut Search<S, L>,
    first: First<L::Place>,
    place: usize,
    distance: usize,
) -> Result<Move, StoreFault>
    requires now { Begins L.leads search.old.now first }
    requires there { IsAt (L.nodes search.old.lists) (link_of first) place (node.And distance) }
    requires stands { (s : State) × Represents S.Store L.Lists search.old s }
    ensures { Moved S.Store L.Lists (λ s. ⊥) search.old result search.new }
{
    let second = search
        .lists
        .push_member(Todo::Body(place - 1), first.height, first.behind)?;
    let next = L::first_member(Todo::Body(place - distance), first.height, second);
    search.now = Now::Running(next);
    Ok(Move::Goes)
}

/// Runs the condition of the if-then at this place, which ends so far back; its first solution is its only one (7.8.7).
/// The error is that memory was refused.
fn if_then<S: Store + Drop, L: Members<S>>(
    search: &mut Search<S, L>,
    first: First<L::Place>,
    place: usize,
    distance: usize,
) -> Result<Move, StoreFault>
    requires now { Begins L.leads search.old.now first }
    requires there { IsAt (L.nodes search.old.lists) (link_of first) place (node.If distance) }
    requires stands { (s : State) × Represents S.Store L.Lists search.old s }
    ensures { Moved S.Store L.Lists (λ s. ⊥) search.old result search.new }
{
    let height = search.choices.len();
    let lists = &mut search.lists;
    let behind = lists.push_member(Todo::Body(place - 1), first.height, first.behind)?;
    let once = lists.push_member(Todo::CutTo, height, behind)?;
    let next = L::first_member(Todo::Body(place - distance), height, once);
    search.now = Now::Running(next);
    Ok(Move::Goes)
}

/// Runs the first body of the disjunction at this place, which ends so far back; its second one is left as a choice
/// (7.8.6). The error is that memory was refused; where no choice may be made any more the engine is spent.
fn disjunction<S: Store + Drop, L: Members<S>>(
    search: &mut Search<S, L>,
    first: First<L::Place>,
    place: usize,
    distance: usize,
) -> Result<Move, StoreFault>
    requires now { Begins L.leads search.old.now first }
    requires there { IsAt (L.nodes search.old.lists) (link_of first) place (node.Or distance) }
    requires stands { (s : State) × Represents S.Store L.Lists search.old s }
    ensures { Moved S.Store L.Lists (L.over search.old.limit) search.old result search.new }
{
    if !L::has_room(search) {
        return Ok(search.full_frames());
    }
    let lists = &mut search.lists;
    let second = lists.push_member(Todo::Body(place - 1), first.height, first.behind)?;
    let kept = lists.kept();
    keep_choice(
        &mut search.store,
        &mut search.choices,
        kept,
        second,
        Left::AsIs,
    )?;
    let next = L::first_member(Todo::Body(place - distance), first.height, first.behind);
    search.now = Now::Running(next);
    Ok(Move::Goes)
}

/// Runs the condition of the if-then-else at this place; the condition and the body behind it end so far back, and the
/// body for where it fails is left as a choice (7.8.8). The error is that memory was refused; where no choice may be
/// made any more the engine is spent.
fn if_then_else<S: Store + Drop, L: Members<S>>(
    search: &mut Search<S, L>,
    first: First<L::Place>,
    place: usize,
    condition: usize,
    next: usize,
) -> Result<Move, StoreFault>
    requires now { Begins L.leads search.old.now first }
    requires there { IsAt (L.nodes search.old.lists) (link_of first) place (node.Choose condition next) }
    requires stands { (s : State) × Represents S.Store L.Lists search.old s }
    ensures { Moved S.Store L.Lists (L.over search.old.limit) search.old result search.new }
{
    if !L::has_room(search) {
        return Ok(search.full_frames());
    }
    let height = search.choices.len();
    let lists = &mut search.lists;
    let other = lists.push_member(Todo::Body(place - 1), first.height, first.behind)?;
    let kept = lists.kept();
    keep_choice(
        &mut search.store,
        &mut search.choices,
        kept,
        other,
        Left::AsIs,
    )?;
    let lists = &mut search.lists;
    let behind = lists.push_member(Todo::Body(place - next), first.height, first.behind)?;
    let once = lists.push_member(Todo::CutTo, height, behind)?;
    let comes = L::first_member(Todo::Body(place - condition), height + 1, once);
    search.now = Now::Running(comes);
    Ok(Move::Goes)
}
