//! Lists of goals as frames over environments, and members over bodies that were placed.
ghost use Rattle.std.specs.Prelude.{◌≡◌, ◌≤◌, ◌+◌, ℕ, List, [], ◌∷◌, IfOk, IfSome, length, take, true};
ghost use Rattle.iso_model.specs.Search.Bodies.{Body, Run};
ghost use Rattle.iso_model.specs.Search.Walker.{Member};
ghost use Rattle.iso_store_core.specs.Presents.{Present};
ghost use Rattle.iso_plain_core.specs.Costs.{todo_cost};
ghost use Rattle.iso_plain_core.specs.Entering.{Adds};
ghost use Rattle.iso_plain_core.specs.Standing.{IsBody, IsMember};
ghost use Rattle.iso_search_core.specs.Keeping.{EndHolds, ending, end_cost};
ghost use Rattle.iso_clause_code.specs.Keeping.{KeepsCode};
ghost use Rattle.iso_clause_code.proofs.KeptLemmas.{code_stays};
ghost use Rattle.iso_frames.specs.Frames.{depth_of, plain_link};
ghost use Rattle.iso_frames.specs.Costs.{first_cost, first_pending};
ghost use Rattle.iso_machine.specs.Firsts.{GoesOn, IsFirstOf, catch_of};
ghost use Rattle.iso_machine.specs.Comings.{ComesAt};
ghost use Rattle.iso_machine.specs.Lists.{IsList, IsFor, IsFirst, IsWithin, IsNoMore, IsNothing, KeepsFrames};
ghost use Rattle.iso_machine.specs.Lists.{extent_of, cost_at, pending_at};
ghost use Rattle.iso_machine.specs.Lists.{list_words, body_words, list_values, list_more, as_much};

use iso_atoms::Atom;
use iso_cells::Cells;
use iso_clause_code::kept_code;
use iso_environments::Words;
use iso_frames::{Frame, Link, Next, Rest, Work, going};
use iso_instructions::Code;
use iso_model::NoMemory;
use iso_plain_core::bodies::Node;
use iso_plain_core::conversion::convert;
use iso_plain_core::entries::copy_parts;
use iso_plain_core::members::Todo;
use iso_plain_core::patterns::written_body;
use iso_prep::Prepared;
use iso_program::checked::Checked;
use iso_program::controls::Controls;
use iso_search_core::ends::{End, Past};
use iso_search_core::lists::Lists;
use iso_store_core::{Store, StoreFault};
use std::alloc::{AllocError, Global};
use std::rc::Rc;

/// How many nodes, frames and words stand.
#[derive(Clone, Copy)]
pub struct Extent {
    pub(crate) nodes: usize,
    pub(crate) frames: usize,
    pub(crate) words: usize,
}

/// A call: its name, where the words of its arguments are kept, and how many there are.
#[derive(Clone, Copy)]
pub struct KeptCall {
    pub(crate) name: Atom,
    pub(crate) start: usize,
    pub(crate) count: usize,
}

/// Frames, the words of their environments and of calls that choice points keep, and bodies that were placed.
#[derive(Drop)]
pub struct Framed<S: Store> {
    /// The nodes of bodies that were placed.
    pub(crate) nodes: Vec<Node<S::Word>>,
    /// The frames: each is before those that go on with it.
    pub(crate) frames: Vec<Frame>,
    /// The words of environments, and of the arguments of calls.
    pub(crate) words: Words<S::Word>,
    /// The arguments of the call that is made.
    pub(crate) arguments: Words<S::Word>,
    /// Compounds that a head or a goal has.
    pub(crate) compounds: Vec<S::Word>,
    /// The arguments of a compound that is made.
    pub(crate) made: Vec<S::Word>,
    /// The values that the steps of an expression leave.
    pub(crate) values: Vec<i128>,
}

/// What comes first of this frame, where it goes on there; none where its clause ends.
pub(crate) fn first_of<W: Copy>(frame: &Frame, rest: Rest) -> Option<Next<W>>
    requires { GoesOn frame.now.work rest.address }
    ensures { IsFirstOf frame.now rest frame.now.work result }
{
    match &frame.work {
        Work::Member(todo) => Some(Next::Member(Link {
            todo: *todo,
            height: frame.height,
            behind: frame.behind,
        })),
        Work::Clause(code, _) => {
            let address = going(code.as_ref(), rest.address)?;
            Some(Next::Code(Rest {
                frame: rest.frame,
                address,
            }))
        }
    }
}

/// The height of the catch whose end the frame is, where it is one.
fn left_catch(frame: &Frame) -> Option<usize>
    ensures { result ≡ catch_of frame.now.work frame.now.height }
{
    match &frame.work {
        Work::Member(Todo::Leave) => Some(frame.height),
        Work::Member(_) | Work::Clause(_, _) => None,
    }
}

impl<S: Cells> Framed<S> {
    /// Appends a member with this height, before the list from the place on. The error is that memory was refused.
    pub(crate) fn push_member(
        &mut self,
        todo: Todo,
        height: usize,
        behind: Option<Rest>,
    ) -> Result<Option<Rest>, AllocError>
        ensures placed { (p : Present S.Word) (m : Member) (ms : List Member)
            → IsMember p self.old.nodes.items (plain_link todo height) m
            → IsList S.atom_word p self.old (extent_of self.old) behind ms
            → IfOk result (λ place. IsList S.atom_word p self.new (extent_of self.new) place (m ∷ ms)) }
        ensures cost { IfOk result (λ place. cost_at self.new place ≡ todo_cost todo (cost_at self.old behind)) }
        ensures pending { IfOk result (λ place. pending_at self.new place ≡ pending_at self.old behind) }
        ensures frames { Adds self.old.frames.items self.new.frames.items }
        ensures nodes { self.new.nodes ≡ self.old.nodes }
        ensures words { self.new.words ≡ self.old.words }
    {
        let frame = self.frames.len();
        self.frames.push(Frame {
            work: Work::Member(todo),
            height,
            top: self.words.len(),
            behind,
        })?;
        Ok(Some(Rest { frame, address: 0 }))
    }

    /// The place of the instruction that comes first of the list from the place on; none where a member comes first, or
    /// nothing is left.
    #[inline(always)]
    pub(crate) fn code_from(&self, place: Option<Rest>) -> Option<Rest>
        requires { (p : Present S.Word) × (ms : List Member)
            × IsList S.atom_word p self.now (extent_of self.now) place ms }
        ensures { IfSome result (ComesAt S.atom_word self.now place) }
    {
        let mut place = place;
        while let Some(rest) = place {
            let frame = &self.frames[rest.frame];
            match first_of::<S::Word>(frame, rest) {
                Some(Next::Code(rest)) => return Some(rest),
                Some(_) => return None,
                None => place = frame.behind,
            }
        }
        None
    }

    /// Appends a body that is this goal. The error is that memory was refused.
    fn push_goal(&mut self, goal: S::Word) -> Result<usize, AllocError>
        ensures placed { (p : Present S.Word) → p.holds goal ≡ true
            → IfOk result (λ i. IsBody p self.new.nodes.items i (Run (p.term goal))) }
        ensures nodes { Adds self.old.nodes.items self.new.nodes.items }
        ensures frames { self.new.frames ≡ self.old.frames }
        ensures words { self.new.words ≡ self.old.words }
    {
        let place = self.nodes.len();
        self.nodes.push(Node::Run(goal))?;
        Ok(place)
    }
}

impl<S: Cells> Framed<S> {
    /// Cuts nodes, frames and words down to so many; no more than stand.
    #[inline(always)]
    pub(crate) fn cut_down(&mut self, kept: Extent)
        requires { IsNoMore kept (extent_of self.old) }
        ensures nodes { self.new.nodes.items ≡ take kept.nodes self.old.nodes.items }
        ensures frames { self.new.frames.items ≡ take kept.frames self.old.frames.items }
        ensures words { self.new.words.items ≡ take kept.words self.old.words.items }
        ensures extent { extent_of self.new ≡ kept }
        ensures same { self.new ≡ record self.old {
          nodes = self.new.nodes;
          frames = self.new.frames;
          words = self.new.words;
        } }
    {
        self.nodes.truncate(kept.nodes);
        self.frames.truncate(kept.frames);
        self.words.truncate(kept.words);
    }
}

impl<S: Cells> Lists<S> for Framed<S> {
    type Kept = Extent;

    type Place = Option<Rest>;

    type Call = KeptCall;

    type Next = Next<S::Word>;

    type Body = usize;

    type Own = Rc<Code>;

    ghost list = { IsList S.atom_word };

    ghost call = { IsFor S.atom_word };

    ghost first = { IsFirst S.atom_word };

    ghost own = { λ names code c. KeepsCode names code.value c };

    ghost stays = { λ old new code c texts keeps. code_stays old new code.value c texts keeps };

    ghost body = { λ p l i b. IsBody p l.nodes.items i b };

    ghost within = { IsWithin };

    ghost below = { IsNoMore };

    ghost whole = { extent_of };

    ghost empty = { IsNothing };

    ghost cost = { cost_at };

    ghost first_cost = { λ l next. first_cost l.frames.items next };

    ghost pending = { pending_at };

    ghost first_pending = { λ l next. first_pending l.frames.items next };

    ghost depth = { λ l place. depth_of place };

    fn none(alloc: Global) -> Self {
        Framed {
            nodes: Vec::new(alloc),
            frames: Vec::new(alloc),
            words: Words::new(alloc),
            arguments: Words::new(alloc),
            compounds: Vec::new(alloc),
            made: Vec::new(alloc),
            values: Vec::new(alloc),
        }
    }

    fn keep(alloc: Global, store: &mut S, checked: &Checked) -> Result<Rc<Code>, NoMemory> {
        let code = kept_code(alloc, store, checked)?;
        Ok(Rc::new(alloc, code)?)
    }

    fn kept(&self) -> Extent {
        Extent {
            nodes: self.nodes.len(),
            frames: self.frames.len(),
            words: self.words.len(),
        }
    }

    fn go_back(&mut self, kept: Extent) {
        self.cut_down(kept);
    }

    fn clear(&mut self) {
        self.nodes.clear();
        self.frames.clear();
        self.words.clear();
    }

    fn nothing() -> Option<Rest> {
        None
    }

    fn at(&self, place: Option<Rest>) -> Option<Next<S::Word>> {
        let mut place = place;
        while let Some(rest) = place {
            let frame = &self.frames[rest.frame];
            if let Some(next) = first_of(frame, rest) {
                return Some(next);
            }
            place = frame.behind;
        }
        None
    }

    fn pass(&self, place: Option<Rest>) -> Option<Past<Option<Rest>>> {
        let frame = &self.frames[place?.frame];
        Some(Past {
            leave: left_catch(frame),
            behind: frame.behind,
        })
    }

    fn place_end(
        &mut self,
        end: End<S::Word>,
        behind: Option<Rest>,
    ) -> Result<Option<Rest>, AllocError>
        requires { (p : Present S.Word) × (ms : List Member) × EndHolds p end
            × IsList S.atom_word p self.old (extent_of self.old) behind ms }
        ensures placed { (p : Present S.Word) (ms : List Member) → EndHolds p end
            → IsList S.atom_word p self.old (extent_of self.old) behind ms
            → IfOk result (λ place. IsList S.atom_word p self.new (extent_of self.new) place (ending p end ms)) }
        ensures cost { IfOk result (λ place. cost_at self.new place ≡ end_cost end + cost_at self.old behind) }
        ensures pending { IfOk result (λ place. pending_at self.new place ≤ pending_at self.old behind) }
        ensures keeps { KeepsFrames S.atom_word (λ j. Unit {0}) self.old self.new }
        ensures bodies { (p : Present S.Word) (i : ℕ) (b : Body) → IsBody p self.old.nodes.items i b
            → IsBody p self.new.nodes.items i b }
    {
        match end {
            End::CutTo(height) => self.push_member(Todo::CutTo, height, behind),
            End::Refute(height) => {
                let failure = self.push_member(Todo::Fail, height, behind)?;
                self.push_member(Todo::CutTo, height, failure)
            }
            End::Leave(height) => self.push_member(Todo::Leave, height, behind),
            End::Gather(height, template) => {
                let place = self.push_goal(template)?;
                self.push_member(Todo::Gather(place), height, behind)
            }
        }
    }

    fn place_goal(
        &mut self,
        alloc: Global,
        store: &mut S,
        controls: &Controls,
        goal: S::Word,
    ) -> Result<usize, StoreFault> {
        match convert(alloc, store, controls, &mut self.nodes, goal)? {
            Some(place) => Ok(place),
            None => unreachable!(),
        }
    }

    fn place_query(
        &mut self,
        alloc: Global,
        store: &mut S,
        query: &Prepared,
        variables: &[S::Word],
    ) -> Result<usize, StoreFault> {
        let parts = written_body(alloc, store, query)?;
        copy_parts(store, &mut self.nodes, parts.as_slice(), variables)?;
        Ok(self.nodes.len() - 1)
    }

    fn place_run(&mut self, goal: S::Word) -> Result<usize, AllocError> {
        self.push_goal(goal)
    }

    fn run(
        &mut self,
        placed: usize,
        mark: usize,
        behind: Option<Rest>,
    ) -> Result<Next<S::Word>, AllocError> {
        Ok(Next::Member(Link {
            todo: Todo::Body(placed),
            height: mark,
            behind,
        }))
    }

    ghost words = { list_words S.atom_word };

    ghost body_words = { body_words };

    ghost values = { list_values S.atom_word };

    ghost more = { list_more S.atom_word };

    ghost itself = { as_much };

    ghost all = { λ l. as_much (extent_of l) };

    ghost top = { λ l k within. within };
}
