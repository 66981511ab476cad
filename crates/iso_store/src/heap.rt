//! A store of cells in one area: what is made stands on its low stack, the trail on the high one.
ghost use Rattle.std.specs.Prelude.{◌≡◌, ◌≢◌, ℕ, ◌+◌, ◌<◌, ◌≤◌, ◌++◌, ◌∷◌, [], length, map, take, IfOk, IfSome, OnOk, OnErr, slice_get, slice_set, is_ok, if◌then◌else◌, None, Some, true, false};
ghost use Rattle.std.specs.List.{All, list_any, position_or_len};
ghost use Rattle.iso_atoms.specs.Texts.{EachOnce};
ghost use Rattle.iso_model.specs.Terms.Order.{term_cmp};
ghost use Rattle.iso_model.specs.Terms.Trees.{Variable};
ghost use Rattle.iso_model.specs.Terms.Sorts.{is_term};
ghost use Rattle.iso_model.specs.Terms.Substitutions.{apply, single};
ghost use Rattle.iso_model.specs.Terms.Variables.{occurs};
ghost use Rattle.iso_store.specs.HeapTerms.{made_term, heap_substitution, bound_count, variable_cells};
ghost use Rattle.iso_store.specs.HeapStores.{IsHeap, HeapStandsFor, HeapLeadsBack, IsOlderMark, MayCome, empty_heap, has_cell_number, is_variable_cell, is_word, next_word, present_of_heap, trailed, variable_of};
ghost use Rattle.iso_model.specs.Terms.Sizes.{size};
ghost use Rattle.iso_store_core.specs.Presents.{Binds, Grows, Holds, KeepsMarks, KeepsWords, meaning};
ghost use Rattle.iso_store.specs.Meetings.{IsYounger};
ghost use Rattle.iso_store_core.specs.Retaining.{CountsCells};
ghost use Rattle.iso_store_core.specs.Shapes.{IsShape};
ghost use Rattle.iso_store.specs.HeapLemmas.{place_term};
ghost use Rattle.iso_store.specs.Writing.{IsPlace, picked};
ghost use Rattle.iso_store.specs.FlatCells.{IsStorable, is_unbound};
ghost use Rattle.iso_store.specs.HeapUntouched.{heap-untouched};
ghost use Rattle.iso_store.specs.HeapRoom.{full-used, variables-within};
ghost use Rattle.iso_store.specs.HeapProps.{IsBefore-prop, Settles-prop};
ghost use Rattle.std.proofs.Common.{ap};
ghost use Rattle.std.proofs.Props.{props};

use super::copies::copy_out;
use super::flat_cells::CellArea;
use super::heads::unify_head;
use super::heap_arguments::{push_arguments, push_places};
use super::heap_builds::{build_in_place, renew_in_place};
use super::heap_cells::{Cell, HeapMark, HeapWord};
use super::heap_copies::copy_in_place;
use super::heap_marks::unwind;
use super::heap_meetings::meet_at_once;
use super::instances::instantiate;
use super::meetings::Meeting;
use super::order::compare;
use super::patterns::{Places, written};
use super::primitives::Primitives;
use super::reaches::{farther_to, place_of, within};
use super::scratch::Scratch;
use super::unify::unify;
use super::variables::variables;
use iso_area::Full;
use iso_atoms::{Atom, Atoms};
use iso_model::{NoMemory, Term};
use iso_store_core::{Part, Pattern, Shape, Store, StoreFault};
use std::alloc::Global;
use std::cmp::Ordering;
use std::mem;

/// Terms as cells. No call but `new` takes memory for cells.
#[derive(Drop)]
pub struct Heap {
    alloc: Global,
    /// The names that have an atom.
    atoms: Atoms,
    /// How many names had an atom when one was last put into a word or a cell.
    named: usize,
    next: u64,
    pub(crate) area: CellArea,
    /// The cells at the newest mark: a binding is trailed if its cell is one of these.
    newest: usize,
    /// No binding leads from a cell before its target to a target behind this place.
    forward: usize,
    /// What calls keep from one to the next, but while one has it.
    scratch: Option<Box<Scratch<HeapWord>>>,
    /// The words of a term that is made, which is empty between calls.
    words: Vec<HeapWord>,
    ghost is_heap: { IsHeap (take named atoms) area.low next } by { Prim.hlevel (props, IsBefore-prop, Settles-prop) },
    ghost named_within: { named ≤ length atoms },
    ghost newest_within: { newest ≤ length area.low },
    ghost trail_within: { length area.high ≤ bound_count area.low },
    ghost leads_back: { HeapLeadsBack area.low forward },
    ghost each_once: { EachOnce atoms },
}

/// Writes a binding into the cell at this place, and its entry on the trail if the cell is older than the newest
/// mark. The error is that there is no room for the entry; then nothing changed.
#[inline(always)]
fn bind_cell(area: &mut CellArea, newest: usize, place: usize, binding: Cell) -> Result<(), Full>
    requires index { place < length area.old.low }
    requires storable { IsStorable binding }
    ensures low { OnOk result (area.new.low ≡ slice_set area.old.low place binding) }
    ensures high { OnOk result (area.new.high ≡ trailed newest place area.old.high) }
    ensures capacity { area.new.capacity ≡ area.old.capacity }
    ensures unchanged { OnErr result (area.new ≡ area.old) }
    ensures full { OnErr result (area.old.capacity ≤ length area.old.low + length area.old.high) }
{
    if place >= newest {
        area.set_low(place, binding);
        return Ok(());
    }
    area.push_high(Cell::Entry(place))?;
    area.set_low(place, binding);
    Ok(())
}

impl Heap {
    /// An empty store of at most `cells` cells, those of the trail among them, which is counted in cells. The error is
    /// that memory was refused.
    pub fn new(alloc: Global, cells: u32) -> Result<Heap, NoMemory>
        ensures empty { IfOk result (λ s. ⟦<Heap as Store>⟧.present s ≡ empty_heap cells) }
        ensures counted { CountsCells ⟦<Heap as Store>⟧ }
    {
        let area = CellArea::new(alloc, cells as usize)?;
        Ok(Heap {
            alloc,
            atoms: Atoms::new(alloc),
            named: 0,
            next: 0,
            area,
            newest: 0,
            forward: 0,
            scratch: Some(Box::new(alloc, Scratch::new(alloc))?),
            words: Vec::new(alloc),
        })
    }

    /// The place of the cell, which comes behind the others.
    #[inline(always)]
    pub(crate) fn push(&mut self, cell: Cell) -> Result<usize, StoreFault>
        requires { MayCome (take self.old.named self.old.atoms) self.old.area.low self.old.next cell }
        ensures place { IfOk result (λ a. a ≡ length self.old.area.low) }
        ensures low { self.new.area.low ≡ (if is_ok result then self.old.area.low ++ cell ∷ [] else self.old.area.low) }
        ensures high { self.new.area.high ≡ self.old.area.high }
        ensures capacity { self.new.area.capacity ≡ self.old.area.capacity }
        ensures atoms { self.new.atoms ≡ self.old.atoms }
        ensures named { self.new.named ≡ self.old.named }
        ensures next { self.new.next ≡ self.old.next }
        ensures newest { self.new.newest ≡ self.old.newest }
        ensures variables { OnOk result (variable_cells self.new.area.low ≡ variable_cells self.old.area.low + variable_cells (cell ∷ [])) }
        ensures room { IfOk result (λ _. length self.old.area.low < self.old.area.capacity) }
        ensures never { result ≢ Err StoreFault.NoMemory }
        ensures full { result ≡ Err StoreFault.Full → self.old.area.capacity ≤ length self.old.area.low + length self.old.area.high }
    {
        let place = self.area.low_len();
        if self.area.push_low(cell).is_err() {
            return Err(StoreFault::Full);
        }
        Ok(place)
    }

    /// From now on words and cells may have each atom.
    #[inline(always)]
    pub(crate) fn know_names(&mut self)
        ensures words { KeepsWords (⟦<Heap as Primitives>⟧.present self.old) (⟦<Heap as Primitives>⟧.present self.new) }
        ensures substitution { (⟦<Heap as Primitives>⟧.present self.new).substitution ≡ (⟦<Heap as Primitives>⟧.present self.old).substitution }
        ensures named { self.new.named ≡ length self.old.atoms }
        ensures every { take self.new.named self.new.atoms ≡ self.old.atoms }
        ensures atoms { self.new.atoms ≡ self.old.atoms }
        ensures area { self.new.area ≡ self.old.area }
        ensures next { self.new.next ≡ self.old.next }
        ensures newest { self.new.newest ≡ self.old.newest }
        ensures marks { KeepsMarks (⟦<Heap as Primitives>⟧.stands self.old) (⟦<Heap as Primitives>⟧.stands self.new) }
    {
        self.named = self.atoms.len();
    }

    /// What the variable of this cell is bound to.
    #[inline(always)]
    fn bound_to(&self, place: usize) -> Option<HeapWord>
        requires index { place < length self.now.area.low }
        requires variable { is_variable_cell (slice_get self.now.area.low place) ≡ true }
        ensures { result ≡ next_word self.now.area.low (HeapWord.Var place) }
    {
        self.area.held(place)
    }

    /// The end of the bindings that the word begins.
    pub(crate) fn walked(&self, word: HeapWord) -> HeapWord
        requires { is_word (take self.now.named self.now.atoms) self.now.area.low word ≡ true }
        ensures holds { is_word (take self.now.named self.now.atoms) self.now.area.low result ≡ true }
        ensures end { next_word self.now.area.low result ≡ None }
        ensures same { apply (heap_substitution (take self.now.named self.now.atoms) self.now.area.low) (made_term (take self.now.named self.now.atoms) self.now.area.low result)
            ≡ apply (heap_substitution (take self.now.named self.now.atoms) self.now.area.low) (made_term (take self.now.named self.now.atoms) self.now.area.low word) }
    {
        let HeapWord::Var(first) = word else {
            return word;
        };
        let mut at = first;
        loop {
            let Some(target) = self.bound_to(at) else {
                return HeapWord::Var(at);
            };
            let HeapWord::Var(next) = target else {
                return target;
            };
            at = next;
        }
    }

    /// As `walked`, for a word that seldom leads on.
    #[inline(always)]
    pub(crate) fn walked_near(&self, word: HeapWord) -> HeapWord
        requires { is_word (take self.now.named self.now.atoms) self.now.area.low word ≡ true }
        ensures holds { is_word (take self.now.named self.now.atoms) self.now.area.low result ≡ true }
        ensures end { next_word self.now.area.low result ≡ None }
        ensures same { apply (heap_substitution (take self.now.named self.now.atoms) self.now.area.low) (made_term (take self.now.named self.now.atoms) self.now.area.low result)
            ≡ apply (heap_substitution (take self.now.named self.now.atoms) self.now.area.low) (made_term (take self.now.named self.now.atoms) self.now.area.low word) }
    {
        let HeapWord::Var(place) = word else {
            return word;
        };
        match self.bound_to(place) {
            None => word,
            Some(_) => self.walked_far(word),
        }
    }

    /// As `walked`, apart from its callers.
    #[cold]
    #[inline(never)]
    fn walked_far(&self, word: HeapWord) -> HeapWord
        requires { is_word (take self.now.named self.now.atoms) self.now.area.low word ≡ true }
        ensures holds { is_word (take self.now.named self.now.atoms) self.now.area.low result ≡ true }
        ensures end { next_word self.now.area.low result ≡ None }
        ensures same { apply (heap_substitution (take self.now.named self.now.atoms) self.now.area.low) (made_term (take self.now.named self.now.atoms) self.now.area.low result)
            ≡ apply (heap_substitution (take self.now.named self.now.atoms) self.now.area.low) (made_term (take self.now.named self.now.atoms) self.now.area.low word) }
    {
        self.walked(word)
    }

    /// Whether it shows without a search that the unbound variable whose cell is at this place does not occur in what the
    /// word stands for, which is at the end of its bindings.
    #[inline(always)]
    pub(crate) fn is_end_apart(&self, place: usize, word: &HeapWord) -> bool
        requires unbound { is_unbound (slice_get self.now.area.low place) ≡ true }
        ensures { (n : ℕ) → meaning (⟦<Heap as Primitives>⟧.present self.now) (HeapWord.Var place) ≡ Variable n → result ≡ true
            → occurs n (meaning (⟦<Heap as Primitives>⟧.present self.now) word.now) ≡ false }
    {
        match place_of(word) {
            Some(target) => self.forward < place && target < place,
            None => true,
        }
    }

    /// The shape of the compound whose functor is at this place.
    #[inline(always)]
    pub(crate) fn compound_shape(&self, place: usize) -> Shape
        requires { Holds (⟦<Heap as Primitives>⟧.present self.now) (HeapWord.Structure place) }
        ensures shape { IsShape self.now.atoms result (meaning (⟦<Heap as Primitives>⟧.present self.now) (HeapWord.Structure place)) }
        ensures term { is_term (meaning (⟦<Heap as Primitives>⟧.present self.now) (HeapWord.Structure place)) ≡ true }
        ensures each_once { EachOnce self.now.atoms }
    {
        let (name, count) = self.area.functor(place);
        Shape::Compound(name, count)
    }

    /// How two integers of at most 64 bits compare; none where a word stands for anything else.
    #[inline(always)]
    fn compare_short(&self, one: &HeapWord, other: &HeapWord) -> Option<Ordering>
        requires one { Holds (⟦<Heap as Primitives>⟧.present self.now) one.now }
        requires other { Holds (⟦<Heap as Primitives>⟧.present self.now) other.now }
        ensures { IfSome result (λ order. order ≡ term_cmp (meaning (⟦<Heap as Primitives>⟧.present self.now) one.now) (meaning (⟦<Heap as Primitives>⟧.present self.now) other.now)) }
    {
        let HeapWord::Int(first) = self.walked(*one) else {
            return None;
        };
        let HeapWord::Int(second) = self.walked(*other) else {
            return None;
        };
        Some(first.cmp(&second))
    }

    /// Binds the unbound variable of this number, whose cell is at this place, to what the word stands for; that one is
    /// at the end of its bindings. The error is that there is no room for it on the trail.
    #[inline(always)]
    pub(crate) fn bind_place(
        &mut self,
        number: u64,
        place: usize,
        target: HeapWord,
    ) -> Result<(), Full>
        requires free { slice_get self.old.area.low place ≡ Some (Cell.Unbound number) }
        requires holds { Holds (⟦<Heap as Primitives>⟧.present self.old) target }
        requires end { next_word self.old.area.low target ≡ None }
        requires absent { occurs number (meaning (⟦<Heap as Primitives>⟧.present self.old) target) ≡ false }
        requires younger { IsYounger number (meaning (⟦<Heap as Primitives>⟧.present self.old) target) }
        ensures bound { OnOk result (Binds (⟦<Heap as Primitives>⟧.present self.old) (⟦<Heap as Primitives>⟧.present self.new) (single number (meaning (⟦<Heap as Primitives>⟧.present self.old) target))) }
        ensures places { OnOk result ((k : ℕ) → ⟦<Heap as Primitives>⟧.at_place self.new k ≡ apply (single number (meaning (⟦<Heap as Primitives>⟧.present self.old) target)) (⟦<Heap as Primitives>⟧.at_place self.old k)) }
        ensures cells { Grows (⟦<Heap as Primitives>⟧.present self.old) (⟦<Heap as Primitives>⟧.present self.new) 0 0 }
        ensures full { OnErr result (⟦<Heap as Primitives>⟧.full self.new) }
        ensures names { self.new.atoms ≡ self.old.atoms }
        ensures marks { KeepsMarks (⟦<Heap as Primitives>⟧.stands self.old) (⟦<Heap as Primitives>⟧.stands self.new) }
    {
        // The variable's number is below the next one, so it is not the number beside arguments.
        let _next = self.next;
        self.forward = farther_to(self.forward, place, &target);
        bind_cell(
            &mut self.area,
            self.newest,
            place,
            Cell::Bound(number, target),
        )?;
        Ok(())
    }
}

impl Primitives for Heap {
    type Word = HeapWord;

    type Mark = HeapMark;

    ghost names = { λ s. s.atoms };

    ghost present = { λ s. present_of_heap (take s.named s.atoms) s.area.low s.next s.area.capacity };

    ghost stands = { λ s. HeapStandsFor s.atoms s.area.capacity s.newest s.area.low s.area.high };

    ghost full = { λ s. s.area.capacity ≤ length s.area.low + length s.area.high };

    ghost at_place = { λ s k. apply (heap_substitution (take s.named s.atoms) s.area.low) (place_term (take s.named s.atoms) s.area.low k) };

    ghost variable_place = { λ s n. position_or_len (has_cell_number n) s.area.low };

    ghost at_end = { λ s w. next_word s.area.low w ≡ None };

    ghost takes_memory = { false };

    ghost atomic = { 0 };

    ghost width = { λ n. n + 1 };

    fn shape(&self, word: HeapWord) -> Shape {
        match self.walked(word) {
            HeapWord::Var(place) => Shape::Var(self.area.number(place)),
            HeapWord::Structure(place) => self.compound_shape(place),
            HeapWord::Int(value) => Shape::Int(i128::from(value)),
            HeapWord::Boxed(place) => Shape::Int(self.area.wide(place)),
            HeapWord::Atom(name) => Shape::Atom(name),
        }
    }

    fn arg(&self, word: HeapWord, index: usize) -> HeapWord {
        let HeapWord::Structure(place) = self.walked(word) else {
            unreachable!()
        };
        let (_, count) = self.area.functor(place);
        let place = place - (count - index);
        match self.area.held(place) {
            Some(word) => word,
            None => HeapWord::Var(place),
        }
    }

    #[inline(always)]
    fn end(&self, word: HeapWord) -> HeapWord {
        self.walked(word)
    }

    #[inline(always)]
    fn end_of_arg(&self, compound: HeapWord, count: usize, index: usize) -> HeapWord {
        let HeapWord::Structure(place) = compound else {
            unreachable!()
        };
        let at = place - (count - index);
        match self.area.held(at) {
            Some(word) => self.walked(word),
            None => HeapWord::Var(at),
        }
    }

    fn place(&self, word: HeapWord) -> Option<usize> {
        match self.walked(word) {
            HeapWord::Var(place) | HeapWord::Structure(place) | HeapWord::Boxed(place) => Some(
                place,
            ),
            HeapWord::Int(_) | HeapWord::Atom(_) => None,
        }
    }

    fn is_apart(&self, variable: HeapWord, word: HeapWord) -> bool {
        let HeapWord::Var(place) = self.walked(variable) else {
            return false;
        };
        let target = self.walked(word);
        self.is_end_apart(place, &target)
    }

    #[inline(always)]
    fn bind(&mut self, number: u64, variable: HeapWord, word: HeapWord) -> Result<(), StoreFault> {
        let HeapWord::Var(place) = self.walked(variable) else {
            unreachable!()
        };
        let target = self.walked(word);
        match self.bind_place(number, place, target) {
            Ok(()) => Ok(()),
            Err(Full) => Err(StoreFault::Full),
        }
    }

    #[inline(always)]
    fn meet_ends(&mut self, one: HeapWord, other: HeapWord) -> Result<Meeting, StoreFault> {
        meet_at_once(self, one, other)
    }

    fn alloc(&self) -> Global {
        self.alloc
    }

    fn swap_scratch(&mut self, scratch: &mut Option<Box<Scratch<HeapWord>>>) {
        mem::swap(&mut self.scratch, scratch);
    }

    fn swap_words(&mut self, words: &mut Vec<HeapWord>) {
        mem::swap(&mut self.words, words);
    }

    fn reserve(&mut self, count: u64) -> u64 {
        let number = self.next;
        self.next += count;
        number
    }

    fn int(&mut self, value: i128) -> Result<HeapWord, StoreFault> {
        if let Ok(value) = i64::try_from(value) {
            return Ok(HeapWord::Int(value));
        }
        let place = self.push(Cell::Wide(value))?;
        Ok(HeapWord::Boxed(place))
    }

    fn intern(&mut self, name: &str) -> Result<Atom, NoMemory> {
        self.atoms.intern(name)
    }

    fn text(&self, atom: Atom) -> &str {
        self.atoms.text(atom)
    }

    fn atom(&mut self, name: Atom) -> Result<HeapWord, StoreFault> {
        self.know_names();
        Ok(HeapWord::Atom(name))
    }

    fn compound(&mut self, name: Atom, arguments: &[HeapWord]) -> Result<HeapWord, StoreFault> {
        self.know_names();
        push_arguments(self, arguments)?;
        let place = self.push(Cell::Functor(name, arguments.len()))?;
        Ok(HeapWord::Structure(place))
    }

    fn compound_of(
        &mut self,
        name: Atom,
        places: &[Part],
        variables: &[HeapWord],
    ) -> Result<HeapWord, StoreFault> {
        self.know_names();
        push_places(self, places, variables)?;
        let place = self.push(Cell::Functor(name, places.len()))?;
        Ok(HeapWord::Structure(place))
    }

    fn variable(&mut self, number: u64) -> Result<HeapWord, StoreFault> {
        let place = self.push(Cell::Unbound(number))?;
        Ok(HeapWord::Var(place))
    }

    ghost untouched = { λ s n none. heap-untouched (take s.named s.atoms) s.area.low s.next s.is_heap s.area.capacity n none };
}

impl Store for Heap {
    type Word = HeapWord;

    type Mark = HeapMark;

    ghost names = { λ s. s.atoms };

    ghost present = { λ s. present_of_heap (take s.named s.atoms) s.area.low s.next s.area.capacity };

    ghost stands = { λ s. HeapStandsFor s.atoms s.area.capacity s.newest s.area.low s.area.high };

    ghost older = { IsOlderMark };

    ghost full = { λ s. s.area.capacity ≤ length s.area.low + length s.area.high };

    ghost takes_memory = { false };

    ghost atomic_cells = { 0 };

    ghost built_cells = { size };

    fn shape(&self, word: HeapWord) -> Shape {
        Primitives::shape(self, word)
    }

    fn arg(&self, word: HeapWord, index: usize) -> HeapWord {
        Primitives::arg(self, word, index)
    }

    fn reserve(&mut self, count: u64) -> u64 {
        Primitives::reserve(self, count)
    }

    fn int(&mut self, value: i128) -> Result<HeapWord, StoreFault> {
        Primitives::int(self, value)
    }

    fn intern(&mut self, name: &str) -> Result<Atom, NoMemory> {
        Primitives::intern(self, name)
    }

    fn text(&self, atom: Atom) -> &str {
        Primitives::text(self, atom)
    }

    fn atom(&mut self, name: Atom) -> Result<HeapWord, StoreFault> {
        Primitives::atom(self, name)
    }

    fn compound(&mut self, name: Atom, arguments: &[HeapWord]) -> Result<HeapWord, StoreFault> {
        Primitives::compound(self, name, arguments)
    }

    fn variable(&mut self, number: u64) -> Result<HeapWord, StoreFault> {
        Primitives::variable(self, number)
    }

    fn fresh(&mut self) -> Result<HeapWord, StoreFault> {
        let number = Primitives::reserve(self, 1);
        Primitives::variable(self, number)
    }

    fn build(&mut self, term: &Term) -> Result<HeapWord, StoreFault> {
        match term {
            Term::Var(_) => Store::fresh(self),
            _ => build_in_place(self.alloc, self, term),
        }
    }

    fn pattern(&mut self, term: &Term) -> Result<Pattern, NoMemory> {
        written(self.alloc, self, term, Places::Numbers)
    }

    fn instantiate(
        &mut self,
        pattern: &Pattern,
        variables: &[HeapWord],
    ) -> Result<HeapWord, StoreFault> {
        instantiate(self.alloc, self, pattern, variables)
    }

    fn renew(&mut self, parts: &[Part], count: usize) -> Result<HeapWord, StoreFault> {
        renew_in_place(self.alloc, self, parts, count)
    }

    fn unify(&mut self, first: HeapWord, second: HeapWord) -> Result<bool, StoreFault> {
        unify(self, first, second)
    }

    fn unify_head(
        &mut self,
        head: &[Part],
        goal: HeapWord,
        count: usize,
        words: &mut Vec<HeapWord>,
    ) -> Result<bool, StoreFault> {
        unify_head(self, head, goal, count, words)
    }

    fn compare(&mut self, one: HeapWord, other: HeapWord) -> Result<Ordering, NoMemory> {
        match self.compare_short(&one, &other) {
            Some(order) => Ok(order),
            None => compare(self, one, other),
        }
    }

    fn mark(&mut self) -> HeapMark {
        let mark = HeapMark {
            cells: self.area.low_len(),
            trail: self.area.high_len(),
            next: self.next,
            named: self.named,
            before: self.newest,
        };
        self.newest = mark.cells;
        mark
    }

    fn undo(&mut self, mark: HeapMark) {
        self.area.cut_low(mark.cells);
        unwind(&mut self.area, mark.trail);
        self.forward = within(self.forward, mark.cells);
        self.next = mark.next;
        self.named = mark.named;
        self.newest = mark.cells;
    }

    fn forget(&mut self, mark: HeapMark) {
        self.newest = mark.before;
    }

    fn copy_out(&self, word: HeapWord) -> Result<Term, NoMemory> {
        copy_out(self.alloc, self, word)
    }

    fn copy(&mut self, word: HeapWord) -> Result<HeapWord, StoreFault> {
        copy_in_place(self.alloc, self, word)
    }

    fn variables(&self, word: HeapWord) -> Result<Vec<HeapWord>, NoMemory> {
        variables(self.alloc, self, word)
    }

    ghost untouched = { λ s n none. heap-untouched (take s.named s.atoms) s.area.low s.next s.is_heap s.area.capacity n none };

    ghost variables_within = { λ s. variables-within s.area.low };

    ghost full_used = { λ s h. full-used s.area.low s.area.high s.area.capacity s.trail_within h };

    ghost limit_stands = { λ s m p h. ap (λ q. q.limit) h.present };
}
