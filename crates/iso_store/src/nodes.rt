//! A store of nodes: a vector of at most `limit` of them.
ghost use Rattle.std.specs.Prelude.{◌≡◌, ℕ, ◌+◌, ◌<◌, ◌≤◌, ◌++◌, ◌∷◌, [], length, IfOk, OnOk, is_ok, if◌then◌else◌, MatchOption, true, false};
ghost use Rattle.std.specs.List.{slice_get, position_or_len};
ghost use Rattle.iso_atoms.specs.Texts.{EachOnce};
ghost use Rattle.iso_model.specs.Terms.Sizes.{size};
ghost use Rattle.iso_model.specs.Terms.Substitutions.{apply};
ghost use Rattle.iso_store.specs.declared.nodes.Node.TheVariants.{Var};
ghost use Rattle.iso_store.specs.NodeTerms.{term_at, substitution_of};
ghost use Rattle.iso_store.specs.NodeStores.{IsStore, LeadsBack, MayPush, StandsFor, IsOlder, has_number, is_bound, variable_nodes, present_of, empty};
ghost use Rattle.iso_store.specs.NodeNumbers.{nodes-untouched, variables-within};

use super::copies::{build, copy_out};
use super::duplicates::duplicate;
use super::heads::unify_head;
use super::instances::{instantiate, pick_words};
use super::meetings::{Meeting, meet};
use super::node_marks::{NodesMark, unwind};
use super::order::compare;
use super::patterns::{Places, written};
use super::primitives::Primitives;
use super::reaches::{farther, within};
use super::renewals::renew;
use super::scratch::Scratch;
use super::unify::unify;
use super::variables::variables;
use iso_atoms::{Atom, Atoms};
use iso_model::{NoMemory, Term};
use iso_store_core::{Part, Pattern, Shape, Store, StoreFault};
use std::alloc::Global;
use std::cmp::Ordering;
use std::mem;

/// What a place of the store holds. Places are named by their index.
#[derive(Debug, Drop)]
pub(crate) enum Node {
    /// A variable, with the place that it is bound to.
    Var(u64, Option<usize>),
    Int(i128),
    Atom(Atom),
    /// A name with the places of its arguments.
    Compound(Atom, Vec<usize>),
}

/// Terms as nodes.
#[derive(Drop)]
pub struct Nodes {
    alloc: Global,
    /// The names that have an atom.
    atoms: Atoms,
    limit: u32,
    next: u64,
    nodes: Vec<Node>,
    trail: Vec<usize>,
    /// No binding leads from a place before its target to a target behind this place.
    forward: usize,
    /// What calls keep from one to the next, but while one has it.
    scratch: Option<Box<Scratch<usize>>>,
    /// The words of a term that is made, which is empty between calls.
    words: Vec<usize>,
    ghost is_store: { IsStore atoms nodes.items trail.items next },
    ghost leads_back: { LeadsBack nodes.items forward },
    ghost each_once: { EachOnce atoms },
}

impl Nodes {
    /// An empty store of at most `limit` nodes. The error is that memory was refused.
    pub fn new(alloc: Global, limit: u32) -> Result<Nodes, NoMemory>
        ensures { IfOk result (λ s. ⟦<Nodes as Store>⟧.present s ≡ empty limit) }
    {
        Ok(Nodes {
            alloc,
            atoms: Atoms::new(alloc),
            limit,
            next: 0,
            nodes: Vec::new(alloc),
            trail: Vec::new(alloc),
            forward: 0,
            scratch: Some(Box::new(alloc, Scratch::new(alloc))?),
            words: Vec::new(alloc),
        })
    }

    /// The place of the node, which comes behind the others.
    fn push(&mut self, node: Node) -> Result<usize, StoreFault>
        requires { MayPush self.old.atoms self.old.nodes.items self.old.next node }
        ensures place { IfOk result (λ w. w ≡ length self.old.nodes.items) }
        ensures nodes { self.new.nodes.items ≡ (if is_ok result then self.old.nodes.items ++ node ∷ [] else self.old.nodes.items) }
        ensures atoms { self.new.atoms ≡ self.old.atoms }
        ensures trail { self.new.trail ≡ self.old.trail }
        ensures next { self.new.next ≡ self.old.next }
        ensures limit { self.new.limit ≡ self.old.limit }
        ensures variables { OnOk result (variable_nodes self.new.nodes.items ≡ variable_nodes self.old.nodes.items + variable_nodes (node ∷ [])) }
        ensures within { length self.old.nodes.items ≤ self.old.limit → length self.new.nodes.items ≤ self.new.limit }
        ensures full { result ≡ Err StoreFault.Full → self.old.limit ≤ length self.old.nodes.items }
    {
        let place = self.nodes.len();
        if place >= self.limit as usize {
            return Err(StoreFault::Full);
        }
        if self.nodes.push(node).is_err() {
            return Err(StoreFault::NoMemory);
        }
        Ok(place)
    }

    /// The place that the variable at this place is bound to.
    fn bound_to(&self, word: usize) -> Option<usize>
        requires { word < length self.now.nodes.items }
        ensures { MatchOption result (is_bound (slice_get self.now.nodes.items word) ≡ false)
            (λ target. (n : ℕ) × (slice_get self.now.nodes.items word ≡ Some (Var n (Some target)))) }
    {
        match &self.nodes[word] {
            Node::Var(_, target) => *target,
            _ => None,
        }
    }

    /// The end of the bindings that begin at this place.
    fn walked(&self, word: usize) -> usize
        requires { word < length self.now.nodes.items }
        ensures within { result < length self.now.nodes.items }
        ensures end { is_bound (slice_get self.now.nodes.items result) ≡ false }
        ensures same { apply (substitution_of self.now.atoms self.now.nodes.items self.now.trail.items) (term_at self.now.atoms self.now.nodes.items result)
            ≡ apply (substitution_of self.now.atoms self.now.nodes.items self.now.trail.items) (term_at self.now.atoms self.now.nodes.items word) }
    {
        let mut at = word;
        while let Some(next) = self.bound_to(at) {
            at = next;
        }
        at
    }
}

impl Primitives for Nodes {
    type Word = usize;

    type Mark = NodesMark;

    ghost names = { λ s. s.atoms };

    ghost present = { λ s. present_of s.atoms s.nodes.items s.trail.items s.next s.limit };

    ghost stands = { λ s. StandsFor s.atoms s.limit s.nodes.items s.trail.items };

    ghost full = { λ s. s.limit ≤ length s.nodes.items };

    ghost at_place = { λ s k. apply (substitution_of s.atoms s.nodes.items s.trail.items) (term_at s.atoms s.nodes.items k) };

    ghost variable_place = { λ s n. position_or_len (has_number n) s.nodes.items };

    ghost at_end = { λ s w. is_bound (slice_get s.nodes.items w) ≡ false };

    ghost takes_memory = { true };

    ghost atomic = { 1 };

    ghost width = { λ _. 1 };

    fn shape(&self, word: usize) -> Shape {
        let at = self.walked(word);
        match &self.nodes[at] {
            Node::Var(number, _) => Shape::Var(*number),
            Node::Int(value) => {
                let value = *value;
                Shape::Int(value)
            }
            Node::Atom(name) => Shape::Atom(*name),
            Node::Compound(name, arguments) => Shape::Compound(*name, arguments.len()),
        }
    }

    fn arg(&self, word: usize, index: usize) -> usize {
        let at = self.walked(word);
        let Node::Compound(_, arguments) = &self.nodes[at] else {
            unreachable!()
        };
        arguments[index]
    }

    fn end(&self, word: usize) -> usize {
        self.walked(word)
    }

    fn end_of_arg(&self, compound: usize, count: usize, index: usize) -> usize {
        self.walked(Primitives::arg(self, compound, index))
    }

    fn place(&self, word: usize) -> Option<usize> {
        Some(self.walked(word))
    }

    fn is_apart(&self, variable: usize, word: usize) -> bool {
        let place = self.walked(variable);
        self.forward < place && self.walked(word) < place
    }

    fn bind(&mut self, number: u64, variable: usize, word: usize) -> Result<(), StoreFault> {
        let place = self.walked(variable);
        let target = self.walked(word);
        if self.trail.push(place).is_err() {
            return Err(StoreFault::NoMemory);
        }
        self.forward = farther(self.forward, place, target);
        self.nodes[place] = Node::Var(number, Some(target));
        Ok(())
    }

    fn meet_ends(&mut self, one: usize, other: usize) -> Result<Meeting, StoreFault> {
        Ok(meet(Primitives::shape(self, one), Primitives::shape(self, other)))
    }

    fn alloc(&self) -> Global {
        self.alloc
    }

    fn swap_scratch(&mut self, scratch: &mut Option<Box<Scratch<usize>>>) {
        mem::swap(&mut self.scratch, scratch);
    }

    fn swap_words(&mut self, words: &mut Vec<usize>) {
        mem::swap(&mut self.words, words);
    }

    fn reserve(&mut self, count: u64) -> u64 {
        let number = self.next;
        self.next += count;
        number
    }

    fn int(&mut self, value: i128) -> Result<usize, StoreFault> {
        self.push(Node::Int(value))
    }

    fn intern(&mut self, name: &str) -> Result<Atom, NoMemory> {
        self.atoms.intern(name)
    }

    fn text(&self, atom: Atom) -> &str {
        self.atoms.text(atom)
    }

    fn atom(&mut self, name: Atom) -> Result<usize, StoreFault> {
        self.push(Node::Atom(name))
    }

    fn compound(&mut self, name: Atom, arguments: &[usize]) -> Result<usize, StoreFault> {
        let Ok(arguments) = Vec::from_slice(self.alloc, arguments) else {
            return Err(StoreFault::NoMemory);
        };
        self.push(Node::Compound(name, arguments))
    }

    fn compound_of(
        &mut self,
        name: Atom,
        places: &[Part],
        variables: &[usize],
    ) -> Result<usize, StoreFault> {
        let words = pick_words(self.alloc, places, variables)?;
        Primitives::compound(self, name, words.as_slice())
    }

    fn variable(&mut self, number: u64) -> Result<usize, StoreFault> {
        self.push(Node::Var(number, None))
    }

    ghost untouched = { λ s n none. nodes-untouched s.atoms s.nodes.items s.trail.items s.next s.is_store s.limit n none };
}

impl Store for Nodes {
    ghost use Rattle.std.proofs.Common.{ap, arith};

    type Word = usize;

    type Mark = NodesMark;

    ghost names = { λ s. s.atoms };

    ghost present = { λ s. present_of s.atoms s.nodes.items s.trail.items s.next s.limit };

    ghost stands = { λ s. StandsFor s.atoms s.limit s.nodes.items s.trail.items };

    ghost older = { IsOlder };

    ghost full = { λ s. s.limit ≤ length s.nodes.items };

    ghost takes_memory = { true };

    ghost atomic_cells = { 1 };

    ghost built_cells = { size };

    fn shape(&self, word: usize) -> Shape {
        Primitives::shape(self, word)
    }

    fn arg(&self, word: usize, index: usize) -> usize {
        Primitives::arg(self, word, index)
    }

    fn reserve(&mut self, count: u64) -> u64 {
        Primitives::reserve(self, count)
    }

    fn int(&mut self, value: i128) -> Result<usize, StoreFault> {
        Primitives::int(self, value)
    }

    fn intern(&mut self, name: &str) -> Result<Atom, NoMemory> {
        Primitives::intern(self, name)
    }

    fn text(&self, atom: Atom) -> &str {
        Primitives::text(self, atom)
    }

    fn atom(&mut self, name: Atom) -> Result<usize, StoreFault> {
        Primitives::atom(self, name)
    }

    fn compound(&mut self, name: Atom, arguments: &[usize]) -> Result<usize, StoreFault> {
        Primitives::compound(self, name, arguments)
    }

    fn variable(&mut self, number: u64) -> Result<usize, StoreFault> {
        Primitives::variable(self, number)
    }

    fn fresh(&mut self) -> Result<usize, StoreFault> {
        let number = Primitives::reserve(self, 1);
        Primitives::variable(self, number)
    }

    fn build(&mut self, term: &Term) -> Result<usize, StoreFault> {
        build(self.alloc, self, term)
    }

    fn pattern(&mut self, term: &Term) -> Result<Pattern, NoMemory> {
        written(self.alloc, self, term, Places::Numbers)
    }

    fn instantiate(&mut self, pattern: &Pattern, variables: &[usize]) -> Result<usize, StoreFault> {
        instantiate(self.alloc, self, pattern, variables)
    }

    fn renew(&mut self, parts: &[Part], count: usize) -> Result<usize, StoreFault> {
        renew(self.alloc, self, parts, count)
    }

    fn unify(&mut self, first: usize, second: usize) -> Result<bool, StoreFault> {
        unify(self, first, second)
    }

    fn unify_head(
        &mut self,
        head: &[Part],
        goal: usize,
        count: usize,
        words: &mut Vec<usize>,
    ) -> Result<bool, StoreFault> {
        unify_head(self, head, goal, count, words)
    }

    fn compare(&mut self, one: usize, other: usize) -> Result<Ordering, NoMemory> {
        compare(self, one, other)
    }

    fn mark(&mut self) -> NodesMark {
        NodesMark {
            nodes: self.nodes.len(),
            trail: self.trail.len(),
            next: self.next,
        }
    }

    fn undo(&mut self, mark: NodesMark) {
        self.nodes.truncate(mark.nodes);
        unwind(&mut self.nodes, &mut self.trail, mark.trail);
        self.forward = within(self.forward, self.nodes.len());
        self.next = mark.next;
    }

    fn forget(&mut self, mark: NodesMark) {
        // all bindings are on the trail, so that nothing is to be done
        let _ = mark;
    }

    fn copy_out(&self, word: usize) -> Result<Term, NoMemory> {
        copy_out(self.alloc, self, word)
    }

    fn copy(&mut self, word: usize) -> Result<usize, StoreFault> {
        duplicate(self.alloc, self, word)
    }

    fn variables(&self, word: usize) -> Result<Vec<usize>, NoMemory> {
        variables(self.alloc, self, word)
    }

    ghost untouched = { λ s n none. nodes-untouched s.atoms s.nodes.items s.trail.items s.next s.is_store s.limit n none };

    ghost variables_within = { λ s. variables-within s.nodes.items };

    ghost full_used = { λ s h. Prim.omega arith };

    ghost limit_stands = { λ s m p h. ap (λ q. q.limit) h.present };
}
