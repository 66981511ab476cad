//! What a machine's instructions do on a heap: compounds are read and made cell by cell.
ghost use Rattle.std.specs.Prelude.{◌≡◌, ◌≢◌, ℕ, List, [], ◌∷◌, ◌++◌, IfOk, IfSome, IfNone, OnOk, take, true, false, None};
ghost use Rattle.std.specs.List.{slice_get};
ghost use Rattle.iso_model.specs.Terms.Integers.{is_short};
ghost use Rattle.iso_model.specs.Terms.Trees.{Tree, Integer};
ghost use Rattle.iso_store_core.specs.Copying.{wide_cells};
ghost use Rattle.iso_store_core.specs.Presents.{meaning, KeepsWords, KeepsNumbers, Grows, IsUnification, KeepsMarks};
ghost use Rattle.iso_store.specs.declared.heap_cells.HeapWord.TheVariants as heap_word;
ghost use Rattle.iso_store.specs.FlatCells.{is_unbound};
ghost use Rattle.iso_store.specs.HeapTerms.{made_term};
ghost use Rattle.iso_store.specs.HeapStores.{is_word, next_word};
ghost use Rattle.iso_store.specs.HeapInstructions.{AreLast, IsConstant, none-last, atom-named};
ghost use Rattle.iso_store.specs.HeapSorted.{sorted-meaning, substitution-is, next-untaken};

use super::heap::Heap;
use super::heap_cells::{Cell, HeapWord};
use super::primitives::Primitives;
use iso_area::Full;
use iso_atoms::Atom;
use iso_cells::{Cells, Opened};
use iso_store_core::StoreFault;

/// Pushes the word as an argument.
#[inline(always)]
fn push_argument(heap: &mut Heap, word: HeapWord) -> Result<(), StoreFault>
    requires { is_word (take heap.old.named heap.old.atoms) heap.old.area.low word ≡ true }
    ensures pushed { (ts : List Tree) → AreLast (take heap.old.named heap.old.atoms) heap.old.area.low ts
        → OnOk result (AreLast (take heap.new.named heap.new.atoms) heap.new.area.low (ts ++ made_term (take heap.old.named heap.old.atoms) heap.old.area.low word ∷ [])) }
    ensures words { KeepsWords (⟦<Heap as Primitives>⟧.present heap.old) (⟦<Heap as Primitives>⟧.present heap.new) }
    ensures substitution { (⟦<Heap as Primitives>⟧.present heap.new).substitution ≡ (⟦<Heap as Primitives>⟧.present heap.old).substitution }
    ensures numbers { KeepsNumbers (⟦<Heap as Primitives>⟧.present heap.old) (⟦<Heap as Primitives>⟧.present heap.new) }
    ensures cells { Grows (⟦<Heap as Primitives>⟧.present heap.old) (⟦<Heap as Primitives>⟧.present heap.new) 1 0 }
    ensures never { result ≢ Err StoreFault.NoMemory }
    ensures full { result ≡ Err StoreFault.Full → ⟦<Heap as Primitives>⟧.full heap.new }
    ensures names { heap.new.atoms ≡ heap.old.atoms }
    ensures marks { KeepsMarks (⟦<Heap as Primitives>⟧.stands heap.old) (⟦<Heap as Primitives>⟧.stands heap.new) }
{
    heap.push(Cell::Argument(word))?;
    Ok(())
}

/// Binds the unbound variable whose cell is at this place to the constant.
#[inline(always)]
fn bind_constant(heap: &mut Heap, place: usize, constant: HeapWord) -> Result<bool, StoreFault>
    requires unbound { is_unbound (slice_get heap.old.area.low place) ≡ true }
    requires holds { is_word (take heap.old.named heap.old.atoms) heap.old.area.low constant ≡ true }
    requires end { next_word heap.old.area.low constant ≡ None }
    requires constant { IsConstant (made_term (take heap.old.named heap.old.atoms) heap.old.area.low constant) }
    ensures unified { IfOk result (IsUnification (⟦<Heap as Primitives>⟧.present heap.old) (⟦<Heap as Primitives>⟧.present heap.new)
        (meaning (⟦<Heap as Primitives>⟧.present heap.old) (HeapWord.Var place)) (made_term (take heap.old.named heap.old.atoms) heap.old.area.low constant)) }
    ensures cells { Grows (⟦<Heap as Primitives>⟧.present heap.old) (⟦<Heap as Primitives>⟧.present heap.new) 0 0 }
    ensures never { result ≢ Err StoreFault.NoMemory }
    ensures full { result ≡ Err StoreFault.Full → ⟦<Heap as Primitives>⟧.full heap.new }
    ensures names { heap.new.atoms ≡ heap.old.atoms }
    ensures marks { KeepsMarks (⟦<Heap as Primitives>⟧.stands heap.old) (⟦<Heap as Primitives>⟧.stands heap.new) }
{
    let number = heap.area.number(place);
    match heap.bind_place(number, place, constant) {
        Ok(()) => Ok(true),
        Err(Full) => Err(StoreFault::Full),
    }
}

/// Binds the unbound variable whose cell is at this place to the integer, which has a cell of its own where it has more
/// than 64 bits.
fn bind_integer(heap: &mut Heap, place: usize, value: i128) -> Result<bool, StoreFault>
    requires unbound { is_unbound (slice_get heap.old.area.low place) ≡ true }
    ensures unified { IfOk result (IsUnification (⟦<Heap as Primitives>⟧.present heap.old) (⟦<Heap as Primitives>⟧.present heap.new)
        (meaning (⟦<Heap as Primitives>⟧.present heap.old) (HeapWord.Var place)) (Integer value)) }
    ensures cells { Grows (⟦<Heap as Primitives>⟧.present heap.old) (⟦<Heap as Primitives>⟧.present heap.new) (wide_cells value) 0 }
    ensures never { result ≢ Err StoreFault.NoMemory }
    ensures full { result ≡ Err StoreFault.Full → ⟦<Heap as Primitives>⟧.full heap.new }
    ensures names { heap.new.atoms ≡ heap.old.atoms }
    ensures marks { KeepsMarks (⟦<Heap as Primitives>⟧.stands heap.old) (⟦<Heap as Primitives>⟧.stands heap.new) }
{
    if let Ok(short) = i64::try_from(value) {
        return bind_constant(heap, place, HeapWord::Int(short));
    }
    let wide = heap.push(Cell::Wide(value))?;
    bind_constant(heap, place, HeapWord::Boxed(wide))
}

/// The integer, where it has at most 64 bits.
fn narrowed(value: i128) -> Option<i64>
    ensures value { IfSome result (λ short. short ≡ value) }
    ensures none { IfNone result (is_short value ≡ false) }
{
    if let Ok(short) = i64::try_from(value) {
        return Some(short);
    }
    None
}

impl Cells for Heap {
    ghost pushed = { λ s ts. AreLast (take s.named s.atoms) s.area.low ts };

    ghost atom_word = { heap_word.Atom };

    #[inline(always)]
    fn open(&self, word: HeapWord, name: Atom, count: usize) -> Opened<HeapWord> {
        match self.walked(word) {
            HeapWord::Var(place) => Opened::Write(HeapWord::Var(place)),
            HeapWord::Structure(place) => {
                let (found, arity) = self.area.functor(place);
                if found == name && arity == count {
                    Opened::Read(HeapWord::Structure(place))
                } else {
                    Opened::Missed
                }
            }
            HeapWord::Int(_) | HeapWord::Boxed(_) | HeapWord::Atom(_) => Opened::Missed,
        }
    }

    #[inline(always)]
    fn argument(&self, compound: HeapWord, count: usize, index: usize) -> HeapWord {
        let HeapWord::Structure(place) = compound else {
            unreachable!()
        };
        let place = place - (count - index);
        match self.area.held(place) {
            Some(word) => word,
            None => HeapWord::Var(place),
        }
    }

    fn meet_integer(&mut self, word: HeapWord, value: i128) -> Result<bool, StoreFault> {
        match self.walked(word) {
            HeapWord::Var(place) => bind_integer(self, place, value),
            HeapWord::Int(other) => Ok(i128::from(other) == value),
            HeapWord::Boxed(place) => Ok(self.area.wide(place) == value),
            HeapWord::Structure(_) | HeapWord::Atom(_) => Ok(false),
        }
    }

    #[inline(always)]
    fn short(&self, word: HeapWord) -> Option<i64> {
        match self.walked(word) {
            HeapWord::Int(value) => Some(value),
            HeapWord::Boxed(place) => narrowed(self.area.wide(place)),
            _ => None,
        }
    }

    fn meet_short(&mut self, word: HeapWord, value: i64) -> Result<bool, StoreFault> {
        match self.walked(word) {
            HeapWord::Var(place) => bind_constant(self, place, HeapWord::Int(value)),
            HeapWord::Int(other) => Ok(i128::from(other) == i128::from(value)),
            HeapWord::Boxed(place) => Ok(self.area.wide(place) == i128::from(value)),
            HeapWord::Structure(_) | HeapWord::Atom(_) => Ok(false),
        }
    }

    fn meet_atom(&mut self, word: HeapWord, name: Atom) -> Result<bool, StoreFault> {
        match self.walked(word) {
            HeapWord::Var(place) => {
                self.know_names();
                bind_constant(self, place, HeapWord::Atom(name))
            }
            HeapWord::Atom(other) => Ok(other == name),
            HeapWord::Structure(_) | HeapWord::Int(_) | HeapWord::Boxed(_) => Ok(false),
        }
    }

    #[inline(always)]
    fn push_word(&mut self, word: HeapWord) -> Result<(), StoreFault> {
        push_argument(self, word)
    }

    #[inline(always)]
    fn push_integer(&mut self, value: i128) -> Result<(), StoreFault> {
        let Ok(short) = i64::try_from(value) else {
            unreachable!()
        };
        push_argument(self, HeapWord::Int(short))
    }

    #[inline(always)]
    fn push_atom(&mut self, name: Atom) -> Result<(), StoreFault> {
        self.know_names();
        push_argument(self, HeapWord::Atom(name))
    }

    #[inline(always)]
    fn push_variable(&mut self, number: u64) -> Result<HeapWord, StoreFault> {
        let place = self.push(Cell::Unbound(number))?;
        Ok(HeapWord::Var(place))
    }

    #[inline(always)]
    fn close(&mut self, name: Atom, count: usize) -> Result<HeapWord, StoreFault> {
        self.know_names();
        let place = self.push(Cell::Functor(name, count))?;
        Ok(HeapWord::Structure(place))
    }

    #[inline(always)]
    fn is_apart(&self, variable: HeapWord, word: HeapWord) -> bool {
        let HeapWord::Var(place) = self.walked_near(variable) else {
            return false;
        };
        let target = self.walked(word);
        self.is_end_apart(place, &target)
    }

    #[inline(always)]
    fn bind_made(&mut self, variable: HeapWord, compound: HeapWord) -> Result<(), StoreFault> {
        let HeapWord::Var(place) = self.walked_near(variable) else {
            unreachable!()
        };
        let number = self.area.number(place);
        let target = self.walked(compound);
        match self.bind_place(number, place, target) {
            Ok(()) => Ok(()),
            Err(Full) => Err(StoreFault::Full),
        }
    }

    #[inline(always)]
    fn know_atoms(&mut self) {
        self.know_names();
    }

    ghost none = { λ s. none-last (take s.named s.atoms) s.area.low };

    ghost sorted = { λ s w h. sorted-meaning (take s.named s.atoms) s.area.low s.next s.is_heap w h };

    ghost settled = { λ s. substitution-is (take s.named s.atoms) s.area.low s.next s.is_heap };

    ghost named = { λ s n holds. atom-named s.named s.atoms n holds };

    ghost once = { λ s. s.each_once };

    ghost unreserved = { λ s n high. next-untaken (take s.named s.atoms) s.area.low s.next s.is_heap n high };
}
