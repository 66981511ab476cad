//! What unification, copying in and copying out need of a store.
ghost use Rattle.std.specs.Prelude.{◌≡◌, ℕ, Bool, List, Some, slice_get, ◌+◌, ◌<◌, ◌≤◌, ◌^◌, IfOk, IfSome, IsSome, OnOk, OnErr, length, map, true, false};
ghost use Rattle.std.specs.List.{All};
ghost use Rattle.iso_atoms.specs.Texts.{EachOnce, KeepsTexts, text_at};
ghost use Rattle.iso_model.specs.Terms.Trees.{Tree, Integer, Name, Apply, Variable, row};
ghost use Rattle.iso_model.specs.Terms.Sorts.{is_term};
ghost use Rattle.iso_model.specs.Terms.Variables.{occurs};
ghost use Rattle.iso_model.specs.Terms.Substitutions.{Subst, apply, single};
ghost use Rattle.iso_store_core.specs.Presents.{Present, Holds, meaning, KeepsWords, Makes, KeepsNumbers, TakesNumber, MovesOn, Grows, Binds, KeepsMarks, Untouched};
ghost use Rattle.iso_store_core.specs.Arguments.{arity, argument};
ghost use Rattle.iso_store_core.specs.Copying.{wide_cells};
ghost use Rattle.iso_store_core.specs.Shapes.{IsShape};
ghost use Rattle.iso_store.specs.Meetings.{IsYounger, IsMetFirst};
ghost use Rattle.iso_store.specs.Writing.{IsPlace, picked};

use super::meetings::Meeting;
use super::scratch::Scratch;
use iso_atoms::Atom;
use iso_model::NoMemory;
use iso_store_core::{Part, Shape, StoreFault};
use std::alloc::Global;

/// Words that stand for terms under one substitution, which grows by one binding at a time.
pub(crate) trait Primitives {
    type Word: Copy;

    type Mark: Copy;

    ghost names: { Self → List (List ℕ) };

    ghost present: { Self → Present Self.Word };

    ghost stands: { Self → Self.Mark → Present Self.Word → Type 0 };

    ghost full: { Self → Type 0 };
    // what stands at a place, seen through bindings
    ghost at_place: { Self → ℕ → Tree };
    // the place of the variable of a number
    ghost variable_place: { Self → ℕ → ℕ };
    // whether the word is at the end of its bindings
    ghost at_end: { Self → Self.Word → Type 0 };
    // whether a call that makes a word may take memory
    ghost takes_memory: { Bool };
    // how many cells an integer or an atom takes
    ghost atomic: { ℕ };
    // how many cells a compound of so many arguments takes
    ghost width: { ℕ → ℕ };

    /// What the word stands for, seen through bindings.
    fn shape(&self, word: Self::Word) -> Shape
        requires { Holds (present self.now) word }
        ensures shape { IsShape (names self.now) result (meaning (present self.now) word) }
        ensures term { is_term (meaning (present self.now) word) ≡ true }
        ensures each_once { EachOnce (names self.now) };

    /// An argument of the compound that the word stands for.
    fn arg(&self, word: Self::Word, index: usize) -> Self::Word
        requires word { Holds (present self.now) word }
        requires index { index < arity (meaning (present self.now) word) }
        ensures holds { Holds (present self.now) result }
        ensures value { meaning (present self.now) result ≡ argument index (meaning (present self.now) word) };

    /// The end of the bindings that the word begins, which was made with the arguments that the word has.
    fn end(&self, word: Self::Word) -> Self::Word
        requires { Holds (present self.now) word }
        ensures holds { Holds (present self.now) result }
        ensures same { meaning (present self.now) result ≡ meaning (present self.now) word }
        ensures made { arity ((present self.now).term result) ≡ arity (meaning (present self.now) word) }
        ensures end { at_end self.now result };

    /// The end of the bindings that an argument begins, of a word that was made as a compound of so many arguments.
    fn end_of_arg(&self, compound: Self::Word, count: usize, index: usize) -> Self::Word
        requires word { Holds (present self.now) compound }
        requires arity { arity ((present self.now).term compound) ≡ count }
        requires index { index < count }
        ensures holds { Holds (present self.now) result }
        ensures value { meaning (present self.now) result ≡ argument index (meaning (present self.now) compound) }
        ensures made { arity ((present self.now).term result) ≡ arity (meaning (present self.now) result) }
        ensures end { at_end self.now result };

    /// The place of what the word stands for: words of one place stand for one term. Variables and compounds have
    /// places.
    fn place(&self, word: Self::Word) -> Option<usize>
        requires { Holds (present self.now) word }
        ensures value { IfSome result (λ k. at_place self.now k ≡ meaning (present self.now) word) }
        ensures variable { (n : ℕ) → meaning (present self.now) word ≡ Variable n → result ≡ Some (variable_place self.now n) }
        ensures compound { 0 < arity (meaning (present self.now) word) → IsSome result };

    /// Whether it shows without a search that the unbound variable does not occur in what the other word stands for.
    /// False says nothing.
    fn is_apart(&self, variable: Self::Word, word: Self::Word) -> bool
        requires variable { Holds (present self.now) variable }
        requires word { Holds (present self.now) word }
        ensures { (number : ℕ) → meaning (present self.now) variable ≡ Variable number → result ≡ true
            → occurs number (meaning (present self.now) word) ≡ false };

    /// Binds the unbound variable of this number to what the other word stands for.
    fn bind(
        &mut self,
        number: u64,
        variable: Self::Word,
        word: Self::Word,
    ) -> Result<(), StoreFault>
        requires variable_holds { Holds (present self.old) variable }
        requires word_holds { Holds (present self.old) word }
        requires variable { meaning (present self.old) variable ≡ Variable number }
        requires absent { occurs number (meaning (present self.old) word) ≡ false }
        requires younger { IsYounger number (meaning (present self.old) word) }
        ensures bound { OnOk result (Binds (present self.old) (present self.new) (single number (meaning (present self.old) word))) }
        ensures places { OnOk result ((k : ℕ) → at_place self.new k ≡ apply (single number (meaning (present self.old) word)) (at_place self.old k)) }
        ensures cells { Grows (present self.old) (present self.new) 0 0 }
        ensures full { result ≡ Err StoreFault.Full → full self.new }
        ensures names { names self.new ≡ names self.old }
        ensures marks { KeepsMarks (stands self.old) (stands self.new) };

    /// How two words meet that are at the end of their bindings. A variable is bound at once where it shows without a
    /// search that it may be: then they are the same. Else nothing changes.
    fn meet_ends(&mut self, one: Self::Word, other: Self::Word) -> Result<Meeting, StoreFault>
        requires one { Holds (present self.old) one }
        requires other { Holds (present self.old) other }
        requires one_end { at_end self.old one }
        requires other_end { at_end self.old other }
        ensures met { IfOk result (IsMetFirst (present self.old) (present self.new) (meaning (present self.old) one) (meaning (present self.old) other)) }
        ensures places { OnOk result ((s : Subst) × Binds (present self.old) (present self.new) s × ((k : ℕ) → at_place self.new k ≡ apply s (at_place self.old k))) }
        ensures cells { Grows (present self.old) (present self.new) 0 0 }
        ensures full { result ≡ Err StoreFault.Full → full self.new }
        ensures names { names self.new ≡ names self.old }
        ensures marks { KeepsMarks (stands self.old) (stands self.new) };

    /// The allocator of the store's memory.
    fn alloc(&self) -> Global;

    /// Exchanges the notes and lists that the store keeps for these.
    fn swap_scratch(&mut self, scratch: &mut Option<Box<Scratch<Self::Word>>>)
        ensures present { present self.new ≡ present self.old }
        ensures full { full self.old → full self.new }
        ensures names { names self.new ≡ names self.old }
        ensures marks { KeepsMarks (stands self.old) (stands self.new) };

    /// Exchanges the list that the store keeps for the words of terms that are made for this one.
    fn swap_words(&mut self, words: &mut Vec<Self::Word>)
        ensures present { present self.new ≡ present self.old }
        ensures full { full self.old → full self.new }
        ensures names { names self.new ≡ names self.old }
        ensures marks { KeepsMarks (stands self.old) (stands self.new) };

    /// The next variable number, which moves on by `count`.
    fn reserve(&mut self, count: u64) -> u64
        requires count { count < 2 ^ 63 }
        requires next { (present self.old).next < 2 ^ 63 }
        ensures number { result ≡ (present self.old).next }
        ensures words { KeepsWords (present self.old) (present self.new) }
        ensures substitution { (present self.new).substitution ≡ (present self.old).substitution }
        ensures numbers { MovesOn (present self.old) (present self.new) count }
        ensures free { (n : ℕ) → result ≤ n → (present self.new).taken n ≡ false }
        ensures cells { Grows (present self.old) (present self.new) 0 0 }
        ensures names { names self.new ≡ names self.old }
        ensures marks { KeepsMarks (stands self.old) (stands self.new) };

    /// An integer. One that has more than 64 bits takes a cell more than an atom.
    fn int(&mut self, value: i128) -> Result<Self::Word, StoreFault>
        ensures made { IfOk result (λ w. Makes (present self.old) (present self.new) w (Integer value)) }
        ensures numbers { OnOk result (KeepsNumbers (present self.old) (present self.new)) }
        ensures cells { Grows (present self.old) (present self.new) (atomic + wide_cells value) 0 }
        ensures full { result ≡ Err StoreFault.Full → full self.new }
        ensures memory { result ≡ Err StoreFault.NoMemory → takes_memory ≡ true }
        ensures names { names self.new ≡ names self.old }
        ensures marks { KeepsMarks (stands self.old) (stands self.new) };

    /// The atom of this name: the one that it has, or a new one. The error is that memory was refused; nothing
    /// changed then.
    fn intern(&mut self, name: &str) -> Result<Atom, NoMemory>
        ensures place { IfOk result (λ atom. slice_get (names self.new) atom ≡ Some name.now) }
        ensures each_once { EachOnce (names self.new) }
        ensures names { KeepsTexts (names self.old) (names self.new) }
        ensures unchanged { OnErr result (names self.new ≡ names self.old) }
        ensures present { present self.new ≡ present self.old }
        ensures marks { KeepsMarks (stands self.old) (stands self.new) };

    /// The name of this atom. Takes no memory.
    fn text(&self, atom: Atom) -> &str
        requires { atom < length (names self.now) }
        ensures { slice_get (names self.now) atom ≡ Some result.now };

    /// An atom.
    fn atom(&mut self, name: Atom) -> Result<Self::Word, StoreFault>
        requires name { name < length (names self.old) }
        ensures made { IfOk result (λ w. Makes (present self.old) (present self.new) w (Name (text_at (names self.old) name))) }
        ensures numbers { OnOk result (KeepsNumbers (present self.old) (present self.new)) }
        ensures cells { Grows (present self.old) (present self.new) atomic 0 }
        ensures full { result ≡ Err StoreFault.Full → full self.new }
        ensures memory { result ≡ Err StoreFault.NoMemory → takes_memory ≡ true }
        ensures names { names self.new ≡ names self.old }
        ensures marks { KeepsMarks (stands self.old) (stands self.new) };

    /// A compound of 1 to 255 arguments.
    fn compound(&mut self, name: Atom, arguments: &[Self::Word]) -> Result<Self::Word, StoreFault>
        requires name { name < length (names self.old) }
        requires some { 0 < length arguments.now }
        requires few { length arguments.now < 256 }
        requires arguments { All (λ w. Holds (present self.old) w) arguments.now }
        ensures made { IfOk result (λ w. Makes (present self.old) (present self.new) w (Apply (text_at (names self.old) name) (row (map (present self.old).term arguments.now)))) }
        ensures numbers { OnOk result (KeepsNumbers (present self.old) (present self.new)) }
        ensures cells { Grows (present self.old) (present self.new) (width (length arguments.now)) 0 }
        ensures full { result ≡ Err StoreFault.Full → full self.new }
        ensures memory { result ≡ Err StoreFault.NoMemory → takes_memory ≡ true }
        ensures names { names self.new ≡ names self.old }
        ensures marks { KeepsMarks (stands self.old) (stands self.new) };

    /// A compound whose arguments are the words at the places of these 1 to 255 parts, each of which is a variable.
    fn compound_of(
        &mut self,
        name: Atom,
        places: &[Part],
        variables: &[Self::Word],
    ) -> Result<Self::Word, StoreFault>
        requires name { name < length (names self.old) }
        requires some { 0 < length places.now }
        requires few { length places.now < 256 }
        requires places { All (IsPlace (length variables.now)) places.now }
        requires variables { All (λ w. Holds (present self.old) w) variables.now }
        ensures made { IfOk result (λ w. Makes (present self.old) (present self.new) w (Apply (text_at (names self.old) name) (row (map (present self.old).term (picked variables.now places.now))))) }
        ensures numbers { OnOk result (KeepsNumbers (present self.old) (present self.new)) }
        ensures cells { Grows (present self.old) (present self.new) (width (length places.now)) 0 }
        ensures full { result ≡ Err StoreFault.Full → full self.new }
        ensures memory { result ≡ Err StoreFault.NoMemory → takes_memory ≡ true }
        ensures names { names self.new ≡ names self.old }
        ensures marks { KeepsMarks (stands self.old) (stands self.new) };

    /// The variable of a reserved number that has none yet.
    fn variable(&mut self, number: u64) -> Result<Self::Word, StoreFault>
        requires reserved { number < (present self.old).next }
        requires free { (present self.old).taken number ≡ false }
        ensures made { IfOk result (λ w. Makes (present self.old) (present self.new) w (Variable number)) }
        ensures numbers { OnOk result (TakesNumber (present self.old) (present self.new) number) }
        ensures cells { Grows (present self.old) (present self.new) 1 1 }
        ensures cell { OnOk result ((present self.old).cells < (present self.new).cells) }
        ensures full { result ≡ Err StoreFault.Full → full self.new }
        ensures memory { result ≡ Err StoreFault.NoMemory → takes_memory ≡ true }
        ensures names { names self.new ≡ names self.old }
        ensures marks { KeepsMarks (stands self.old) (stands self.new) };

    // a number that no variable has stands for itself and is in no term that a word stands for
    ghost untouched: { (s : Self) (n : ℕ) → (present s).taken n ≡ false → Untouched (present s) n };
}
