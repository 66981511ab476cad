//! Lists of goals that have nodes of bodies, and members over them.
ghost use Rattle.std.specs.Prelude.{◌≡◌, ◌<◌, ◌≤◌, ℕ, List, ◌∷◌, IfOk, Some, length, true, false, ◌⊎◌};
ghost use Rattle.std.specs.List.{slice_get};
ghost use Rattle.iso_search.specs.Limits.{ComesFull};
ghost use Rattle.iso_model.specs.Search.Walker.{State, Member};
ghost use Rattle.iso_prep.specs.declared.bodies.Node.{Node};
ghost use Rattle.iso_store_core.specs.Presents.{Present};
ghost use Rattle.iso_plain_core.specs.Costs.{todo_cost};
ghost use Rattle.iso_plain_core.specs.Standing.{IsMember};
ghost use Rattle.iso_plain_core.specs.declared.members.Todo.{Todo};
ghost use Rattle.iso_search_core.specs.Keeping.{KeepsAll};
ghost use Rattle.iso_search.specs.EngineStates.{Represents};
ghost use Rattle.iso_control.specs.Members.{plain_link, GivesMember, ComesFirst, CostsMember, TakesNone};

use iso_plain_core::bodies::Node;
use iso_plain_core::members::Todo;
use iso_search::search::Search;
use iso_search_core::lists::Lists;
use iso_store_core::Store;
use std::alloc::AllocError;

/// Lists of goals that have nodes of bodies that were placed, and members over them.
pub trait Members<S: Store>: Lists<S> {
    // the nodes of bodies
    ghost nodes: { Self → List (Node S.Word) };
    // this member comes first, with its height, before the list from the place on
    ghost leads: { Self.Next → Todo → ℕ → Self.Place → Type 0 };
    // in the piece of a walk that begins with this state the frames may be full, where so many may stand
    ghost over: { ℕ → State → Type 0 };

    /// The node at this place.
    fn node(&self, place: usize) -> Node<S::Word>
        requires { place < length (nodes self.now) }
        ensures { slice_get (nodes self.now) place ≡ Some result };

    /// Appends a member with this height, before the list from the place on. The error is that memory was refused.
    fn push_member(
        &mut self,
        todo: Todo,
        height: usize,
        behind: Self::Place,
    ) -> Result<Self::Place, AllocError>
        ensures placed { (p : Present S.Word) (m : Member) (ms : List Member)
            → IsMember p (nodes self.old) (plain_link todo height) m
            → Self.list p self.old (Self.whole self.old) behind ms
            → IfOk result (λ place. Self.list p self.new (Self.whole self.new) place (m ∷ ms)) }
        ensures cost { IfOk result (λ place. Self.cost self.new place ≡ todo_cost todo (Self.cost self.old behind)) }
        ensures pending { IfOk result (λ place. Self.pending self.new place ≡ Self.pending self.old behind) }
        ensures keeps { KeepsAll Self.list Self.call Self.within Self.cost Self.pending self.old self.new }
        ensures nodes { nodes self.new ≡ nodes self.old };

    /// What comes first, where this member does, before the list from the place on.
    fn first_member(todo: Todo, height: usize, behind: Self::Place) -> Self::Next
        ensures { leads result todo height behind };

    /// Whether one more choice may be made.
    fn has_room(search: &Search<S, Self>) -> bool
        ensures room { result ≡ true → length search.entry.now.choices.items < search.entry.now.limit }
        ensures full { result ≡ false → (search.entry.now.limit ≤ length search.entry.now.choices.items)
            ⊎ ((s : State) → Represents S.Store Self.Lists search.entry.now s → over search.entry.now.limit s) };

    // a list of which such a member comes first begins with it
    ghost led: { GivesMember Self.Lists nodes leads };
    // the member with its list comes first
    ghost leading: { ComesFirst Self.Lists nodes leads };
    // what is to be done there
    ghost led_cost: { CostsMember Self.Lists nodes leads };
    // the member takes no cells
    ghost led_pending: { TakesNone Self.Lists nodes leads };
    // the frames may be full where the search comes to more alternatives, and to a state that spans more
    ghost spans: { (limit : ℕ) (s : State) → ComesFull limit s → over limit s };
}
