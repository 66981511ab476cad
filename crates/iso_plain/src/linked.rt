//! Lists of goals as linked members over bodies that were made.
ghost use Rattle.std.specs.Prelude.{◌≡◌, ◌+◌, ℕ, List, [], ◌∷◌, IfOk, true};
ghost use Rattle.iso_model.specs.Search.Bodies.{Body, Run};
ghost use Rattle.iso_model.specs.Search.Walker.{Member};
ghost use Rattle.iso_store_core.specs.Presents.{Present};
ghost use Rattle.iso_plain_core.specs.BodyNames.{body_kept};
ghost use Rattle.iso_plain_core.specs.Entering.{Adds};
ghost use Rattle.iso_plain_core.specs.Kept.{KeepsBody};
ghost use Rattle.iso_plain_core.specs.Standing.{IsBody, IsMember};
ghost use Rattle.iso_search_core.specs.Keeping.{EndHolds, ending, end_cost};
ghost use Rattle.iso_plain.specs.Links.{IsNoMore, IsList, IsFirst, IsFor, IsNothing, IsWithin, KeepsLinks};
ghost use Rattle.iso_plain.specs.Links.{catch_of, extent_of, cost_at, first_cost, depth_of};
ghost use Rattle.iso_plain.specs.Links.{list_words, list_values, body_words, list_more, as_much};

use iso_model::NoMemory;
use iso_plain_core::bodies::{ClauseBody, Node};
use iso_plain_core::conversion::convert;
use iso_plain_core::entries::copy_parts;
use iso_plain_core::members::{Link, Todo, push_link};
use iso_plain_core::patterns::{kept_body, written_body};
use iso_prep::Prepared;
use iso_program::checked::Checked;
use iso_program::controls::Controls;
use iso_search_core::ends::{End, Past};
use iso_search_core::lists::Lists;
use iso_store_core::{Store, StoreFault};
use std::alloc::{AllocError, Global};

/// How many nodes and members stand.
#[derive(Clone, Copy)]
pub struct Extent {
    nodes: usize,
    members: usize,
}

/// Bodies, and linked members.
#[derive(Drop)]
pub struct Linked<S: Store> {
    /// The nodes of the bodies.
    pub(crate) nodes: Vec<Node<S::Word>>,
    /// The members of all lists: each is before those behind it.
    pub(crate) members: Vec<Link>,
}

/// The height of the catch whose end the link asks for, where it asks for one.
fn left_catch(link: Link) -> Option<usize>
    ensures { result ≡ catch_of link.todo link.height }
{
    match link.todo {
        Todo::Leave => Some(link.height),
        Todo::Body(_) | Todo::CutTo | Todo::Fail | Todo::Gather(_) => None,
    }
}

impl<S: Store> Linked<S> {
    /// Appends a member with this height, before the members from the place on. The error is that memory was refused.
    pub(crate) fn push_member(
        &mut self,
        todo: Todo,
        height: usize,
        behind: Option<usize>,
    ) -> Result<Option<usize>, AllocError>
        ensures placed { (p : Present S.Word) (m : Member) (ms : List Member)
            → IsMember p self.old.nodes.items (record { todo = todo; height = height; next = behind }) m
            → IsList p self.old (extent_of self.old) behind ms
            → IfOk result (λ place. IsList p self.new (extent_of self.new) place (m ∷ ms)) }
        ensures cost { IfOk result (λ place. cost_at self.new place
            ≡ first_cost self.old (record { todo = todo; height = height; next = behind })) }
        ensures members { Adds self.old.members.items self.new.members.items }
        ensures nodes { self.new.nodes ≡ self.old.nodes }
    {
        let link = Link {
            todo,
            height,
            next: behind,
        };
        let place = push_link(&mut self.members, link)?;
        Ok(Some(place))
    }

    /// Appends a body that is this goal. The error is that memory was refused.
    fn push_goal(&mut self, goal: S::Word) -> Result<usize, AllocError>
        ensures placed { (p : Present S.Word) → p.holds goal ≡ true
            → IfOk result (λ i. IsBody p self.new.nodes.items i (Run (p.term goal))) }
        ensures nodes { Adds self.old.nodes.items self.new.nodes.items }
        ensures members { self.new.members ≡ self.old.members }
    {
        let place = self.nodes.len();
        self.nodes.push(Node::Run(goal))?;
        Ok(place)
    }
}

impl<S: Store> Lists<S> for Linked<S> {
    type Kept = Extent;

    type Place = Option<usize>;

    type Call = S::Word;

    type Next = Link;

    type Body = usize;

    type Own = ClauseBody;

    ghost list = { IsList };

    ghost call = { IsFor };

    ghost first = { IsFirst };

    ghost own = { KeepsBody };

    ghost stays = { body_kept };

    ghost body = { λ p l i b. IsBody p l.nodes.items i b };

    ghost within = { IsWithin };

    ghost below = { IsNoMore };

    ghost whole = { extent_of };

    ghost empty = { IsNothing };

    ghost cost = { cost_at };

    ghost first_cost = { first_cost };

    ghost pending = { λ l place. 0 };

    ghost first_pending = { λ l link. 0 };

    ghost depth = { λ l place. depth_of place };

    fn none(alloc: Global) -> Self {
        Linked {
            nodes: Vec::new(alloc),
            members: Vec::new(alloc),
        }
    }

    fn keep(alloc: Global, store: &mut S, checked: &Checked) -> Result<ClauseBody, NoMemory> {
        kept_body(alloc, store, checked)
    }

    fn kept(&self) -> Extent {
        Extent {
            nodes: self.nodes.len(),
            members: self.members.len(),
        }
    }

    fn go_back(&mut self, kept: Extent) {
        self.nodes.truncate(kept.nodes);
        self.members.truncate(kept.members);
    }

    fn clear(&mut self) {
        self.nodes.clear();
        self.members.clear();
    }

    fn nothing() -> Option<usize> {
        None
    }

    fn at(&self, place: Option<usize>) -> Option<Link> {
        match place {
            Some(place) => Some(self.members[place]),
            None => None,
        }
    }

    fn pass(&self, place: Option<usize>) -> Option<Past<Option<usize>>> {
        let link = self.members[place?];
        Some(Past {
            leave: left_catch(link),
            behind: link.next,
        })
    }

    fn place_end(
        &mut self,
        end: End<S::Word>,
        behind: Option<usize>,
    ) -> Result<Option<usize>, AllocError>
        requires { (p : Present S.Word) × (ms : List Member) × EndHolds p end
            × IsList p self.old (extent_of self.old) behind ms }
        ensures placed { (p : Present S.Word) (ms : List Member) → EndHolds p end
            → IsList p self.old (extent_of self.old) behind ms
            → IfOk result (λ place. IsList p self.new (extent_of self.new) place (ending p end ms)) }
        ensures cost { IfOk result (λ place. cost_at self.new place ≡ end_cost end + cost_at self.old behind) }
        ensures keeps { KeepsLinks (λ j. Unit {0}) self.old self.new }
        ensures bodies { (p : Present S.Word) (i : ℕ) (b : Body) → IsBody p self.old.nodes.items i b
            → IsBody p self.new.nodes.items i b }
    {
        match end {
            End::CutTo(height) => self.push_member(Todo::CutTo, height, behind),
            End::Refute(height) => {
                let failure = self.push_member(Todo::Fail, height, behind)?;
                self.push_member(Todo::CutTo, height, failure)
            }
            End::Leave(height) => self.push_member(Todo::Leave, height, behind),
            End::Gather(height, template) => {
                let place = self.push_goal(template)?;
                self.push_member(Todo::Gather(place), height, behind)
            }
        }
    }

    fn place_goal(
        &mut self,
        alloc: Global,
        store: &mut S,
        controls: &Controls,
        goal: S::Word,
    ) -> Result<usize, StoreFault> {
        match convert(alloc, store, controls, &mut self.nodes, goal)? {
            Some(place) => Ok(place),
            None => unreachable!(),
        }
    }

    fn place_query(
        &mut self,
        alloc: Global,
        store: &mut S,
        query: &Prepared,
        variables: &[S::Word],
    ) -> Result<usize, StoreFault> {
        let parts = written_body(alloc, store, query)?;
        copy_parts(store, &mut self.nodes, parts.as_slice(), variables)?;
        Ok(self.nodes.len() - 1)
    }

    fn place_run(&mut self, goal: S::Word) -> Result<usize, AllocError> {
        self.push_goal(goal)
    }

    fn run(
        &mut self,
        placed: usize,
        mark: usize,
        behind: Option<usize>,
    ) -> Result<Link, AllocError> {
        Ok(Link {
            todo: Todo::Body(placed),
            height: mark,
            next: behind,
        })
    }

    ghost words = { list_words };

    ghost body_words = { body_words };

    ghost values = { list_values };

    ghost more = { list_more };

    ghost itself = { as_much };

    ghost all = { λ l. as_much (extent_of l) };

    ghost top = { λ l k within. within };
}
