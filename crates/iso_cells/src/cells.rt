//! The contract that a machine's instructions stand on.
ghost use Rattle.std.specs.Prelude.{◌≡◌, ◌≢◌, ℕ, ℤ, List, [], ◌∷◌, ◌++◌, ◌+◌, ◌<◌, ◌≤◌, IfOk, IfSome, IfNone, OnOk, length, true, false};
ghost use Rattle.iso_atoms.specs.Texts.{EachOnce, text_at};
ghost use Rattle.iso_model.specs.Terms.Integers.{is_short};
ghost use Rattle.iso_model.specs.Terms.Trees.{Tree, Integer, Name, Apply, Variable, row};
ghost use Rattle.iso_model.specs.Terms.Sorts.{is_term};
ghost use Rattle.iso_model.specs.Terms.Substitutions.{IsSubstitution};
ghost use Rattle.iso_model.specs.Terms.Variables.{occurs};
ghost use Rattle.iso_store_core.specs.Presents.{Present, Holds, meaning, KeepsWords, Makes, KeepsNumbers, TakesNumber, Grows, IsUnification, KeepsMarks};
ghost use Rattle.iso_store_core.specs.Arguments.{arity, argument};
ghost use Rattle.iso_store_core.specs.Copying.{wide_cells};
ghost use Rattle.iso_cells.specs.Opening.{IsOpened};

use iso_atoms::Atom;
use iso_store_core::{Store, StoreFault};

/// How a word meets a compound.
#[derive(Clone, Copy)]
pub enum Opened<W> {
    /// It stands for such a compound, which was made as this word.
    Read(W),
    /// It stands for an unbound variable, which was made as this word.
    Write(W),
    /// It stands for anything else.
    Missed,
}

/// A store of cells. A call that makes or binds something fails where the store is full, or where memory was refused,
/// as its `StoreFault` says. After an error, and after a meeting that answers false, the caller goes back to a mark.
pub trait Cells: Store {
    // the last arguments that were pushed are of these terms
    ghost pushed: { Self → List Tree → Type 0 };
    // the word of an atom
    ghost atom_word: { ℕ → Self.Word };

    /// Whether the word stands for a compound of this name and so many arguments, or for an unbound variable
    /// (`get_structure`, `get_list`).
    fn open(&self, word: Self::Word, name: Atom, count: usize) -> Opened<Self::Word>
        requires word { Holds (Self.present self.now) word }
        requires name { name < length (Self.names self.now) }
        ensures { IsOpened (Self.names self.now) (Self.present self.now) word name count result };

    /// The argument at this place, from 0 on, of a word that was made as a compound of so many arguments.
    fn argument(&self, compound: Self::Word, count: usize, index: usize) -> Self::Word
        requires word { Holds (Self.present self.now) compound }
        requires arity { arity ((Self.present self.now).term compound) ≡ count }
        requires index { index < count }
        ensures holds { Holds (Self.present self.now) result }
        ensures value { meaning (Self.present self.now) result ≡ argument index (meaning (Self.present self.now) compound) };

    /// Whether the word and the integer unify; then an unbound variable is bound (`get_constant`, `unify_constant`).
    fn meet_integer(&mut self, word: Self::Word, value: i128) -> Result<bool, StoreFault>
        requires { Holds (Self.present self.old) word }
        ensures unified { IfOk result (IsUnification (Self.present self.old) (Self.present self.new) (meaning (Self.present self.old) word) (Integer value)) }
        ensures cells { Grows (Self.present self.old) (Self.present self.new) (wide_cells value) 0 }
        ensures full { result ≡ Err StoreFault.Full → Self.full self.new }
        ensures memory { result ≡ Err StoreFault.NoMemory → Self.takes_memory ≡ true }
        ensures names { Self.names self.new ≡ Self.names self.old }
        ensures marks { KeepsMarks (Self.stands self.old) (Self.stands self.new) };

    /// The integer of at most 64 bits that the word stands for; none where it stands for anything else.
    fn short(&self, word: Self::Word) -> Option<i64>
        requires { Holds (Self.present self.now) word }
        ensures value { IfSome result (λ value. meaning (Self.present self.now) word ≡ Integer value) }
        ensures none { IfNone result ((value : ℤ) → is_short value ≡ true → meaning (Self.present self.now) word ≢ Integer value) };

    /// As `meet_integer`, for an integer of at most 64 bits, which takes no cell.
    fn meet_short(&mut self, word: Self::Word, value: i64) -> Result<bool, StoreFault>
        requires { Holds (Self.present self.old) word }
        ensures unified { IfOk result (IsUnification (Self.present self.old) (Self.present self.new) (meaning (Self.present self.old) word) (Integer value)) }
        ensures cells { Grows (Self.present self.old) (Self.present self.new) 0 0 }
        ensures full { result ≡ Err StoreFault.Full → Self.full self.new }
        ensures memory { result ≡ Err StoreFault.NoMemory → Self.takes_memory ≡ true }
        ensures names { Self.names self.new ≡ Self.names self.old }
        ensures marks { KeepsMarks (Self.stands self.old) (Self.stands self.new) };

    /// Whether the word and the atom unify; then an unbound variable is bound (`get_constant`, `unify_constant`).
    fn meet_atom(&mut self, word: Self::Word, name: Atom) -> Result<bool, StoreFault>
        requires word { Holds (Self.present self.old) word }
        requires name { name < length (Self.names self.old) }
        ensures unified { IfOk result (IsUnification (Self.present self.old) (Self.present self.new) (meaning (Self.present self.old) word) (Name (text_at (Self.names self.old) name))) }
        ensures cells { Grows (Self.present self.old) (Self.present self.new) 0 0 }
        ensures full { result ≡ Err StoreFault.Full → Self.full self.new }
        ensures memory { result ≡ Err StoreFault.NoMemory → Self.takes_memory ≡ true }
        ensures names { Self.names self.new ≡ Self.names self.old }
        ensures marks { KeepsMarks (Self.stands self.old) (Self.stands self.new) };

    /// Pushes an argument of a compound that is made (`set_value`).
    fn push_word(&mut self, word: Self::Word) -> Result<(), StoreFault>
        requires { Holds (Self.present self.old) word }
        ensures pushed { (ts : List Tree) → Self.pushed self.old ts → OnOk result (Self.pushed self.new (ts ++ (Self.present self.old).term word ∷ [])) }
        ensures words { KeepsWords (Self.present self.old) (Self.present self.new) }
        ensures substitution { (Self.present self.new).substitution ≡ (Self.present self.old).substitution }
        ensures numbers { KeepsNumbers (Self.present self.old) (Self.present self.new) }
        ensures cells { Grows (Self.present self.old) (Self.present self.new) 1 0 }
        ensures full { result ≡ Err StoreFault.Full → Self.full self.new }
        ensures memory { result ≡ Err StoreFault.NoMemory → Self.takes_memory ≡ true }
        ensures names { Self.names self.new ≡ Self.names self.old }
        ensures marks { KeepsMarks (Self.stands self.old) (Self.stands self.new) };

    /// Pushes an integer of at most 64 bits as an argument (`set_constant`).
    fn push_integer(&mut self, value: i128) -> Result<(), StoreFault>
        requires { is_short value ≡ true }
        ensures pushed { (ts : List Tree) → Self.pushed self.old ts → OnOk result (Self.pushed self.new (ts ++ Integer value ∷ [])) }
        ensures words { KeepsWords (Self.present self.old) (Self.present self.new) }
        ensures substitution { (Self.present self.new).substitution ≡ (Self.present self.old).substitution }
        ensures numbers { KeepsNumbers (Self.present self.old) (Self.present self.new) }
        ensures cells { Grows (Self.present self.old) (Self.present self.new) 1 0 }
        ensures full { result ≡ Err StoreFault.Full → Self.full self.new }
        ensures memory { result ≡ Err StoreFault.NoMemory → Self.takes_memory ≡ true }
        ensures names { Self.names self.new ≡ Self.names self.old }
        ensures marks { KeepsMarks (Self.stands self.old) (Self.stands self.new) };

    /// Pushes an atom as an argument (`set_constant`).
    fn push_atom(&mut self, name: Atom) -> Result<(), StoreFault>
        requires { name < length (Self.names self.old) }
        ensures pushed { (ts : List Tree) → Self.pushed self.old ts → OnOk result (Self.pushed self.new (ts ++ Name (text_at (Self.names self.old) name) ∷ [])) }
        ensures words { KeepsWords (Self.present self.old) (Self.present self.new) }
        ensures substitution { (Self.present self.new).substitution ≡ (Self.present self.old).substitution }
        ensures numbers { KeepsNumbers (Self.present self.old) (Self.present self.new) }
        ensures cells { Grows (Self.present self.old) (Self.present self.new) 1 0 }
        ensures full { result ≡ Err StoreFault.Full → Self.full self.new }
        ensures memory { result ≡ Err StoreFault.NoMemory → Self.takes_memory ≡ true }
        ensures names { Self.names self.new ≡ Self.names self.old }
        ensures marks { KeepsMarks (Self.stands self.old) (Self.stands self.new) };

    /// Pushes the variable of a reserved number that has none yet as an argument, and gives its word (`set_variable`).
    fn push_variable(&mut self, number: u64) -> Result<Self::Word, StoreFault>
        requires reserved { number < (Self.present self.old).next }
        requires free { (Self.present self.old).taken number ≡ false }
        ensures pushed { (ts : List Tree) → Self.pushed self.old ts → OnOk result (Self.pushed self.new (ts ++ Variable number ∷ [])) }
        ensures made { IfOk result (λ w. Makes (Self.present self.old) (Self.present self.new) w (Variable number)) }
        ensures numbers { OnOk result (TakesNumber (Self.present self.old) (Self.present self.new) number) }
        ensures cells { Grows (Self.present self.old) (Self.present self.new) 1 1 }
        ensures full { result ≡ Err StoreFault.Full → Self.full self.new }
        ensures memory { result ≡ Err StoreFault.NoMemory → Self.takes_memory ≡ true }
        ensures names { Self.names self.new ≡ Self.names self.old }
        ensures marks { KeepsMarks (Self.stands self.old) (Self.stands self.new) };

    /// The compound of the last arguments that were pushed, so many (`put_structure`, `put_list`).
    fn close(&mut self, name: Atom, count: usize) -> Result<Self::Word, StoreFault>
        requires name { name < length (Self.names self.old) }
        requires some { 0 < count }
        requires few { count < 256 }
        requires pushed { (ts : List Tree) × Self.pushed self.old ts × (length ts ≡ count) }
        ensures made { (ts : List Tree) → Self.pushed self.old ts → length ts ≡ count
            → IfOk result (λ w. Makes (Self.present self.old) (Self.present self.new) w (Apply (text_at (Self.names self.old) name) (row ts))) }
        ensures numbers { OnOk result (KeepsNumbers (Self.present self.old) (Self.present self.new)) }
        ensures cells { Grows (Self.present self.old) (Self.present self.new) 1 0 }
        ensures full { result ≡ Err StoreFault.Full → Self.full self.new }
        ensures memory { result ≡ Err StoreFault.NoMemory → Self.takes_memory ≡ true }
        ensures names { Self.names self.new ≡ Self.names self.old }
        ensures marks { KeepsMarks (Self.stands self.old) (Self.stands self.new) };

    /// From now on the word of each atom stands.
    fn know_atoms(&mut self)
        ensures known { (n : ℕ) → n < length (Self.names self.old) → Holds (Self.present self.new) (Self.atom_word n) }
        ensures words { KeepsWords (Self.present self.old) (Self.present self.new) }
        ensures substitution { (Self.present self.new).substitution ≡ (Self.present self.old).substitution }
        ensures numbers { KeepsNumbers (Self.present self.old) (Self.present self.new) }
        ensures cells { Grows (Self.present self.old) (Self.present self.new) 0 0 }
        ensures names { Self.names self.new ≡ Self.names self.old }
        ensures marks { KeepsMarks (Self.stands self.old) (Self.stands self.new) };

    /// Whether it shows without a search that the unbound variable does not occur in what the other word stands for.
    /// False says nothing.
    fn is_apart(&self, variable: Self::Word, word: Self::Word) -> bool
        requires variable { Holds (Self.present self.now) variable }
        requires word { Holds (Self.present self.now) word }
        ensures { (number : ℕ) → meaning (Self.present self.now) variable ≡ Variable number → result ≡ true
            → occurs number (meaning (Self.present self.now) word) ≡ false };

    /// Binds an unbound variable to a compound in which it does not occur.
    fn bind_made(&mut self, variable: Self::Word, compound: Self::Word) -> Result<(), StoreFault>
        requires variable { Holds (Self.present self.old) variable }
        requires word { Holds (Self.present self.old) compound }
        requires compound { 0 < arity (meaning (Self.present self.old) compound) }
        requires apart { (number : ℕ) × (meaning (Self.present self.old) variable ≡ Variable number)
            × (occurs number (meaning (Self.present self.old) compound) ≡ false) }
        ensures unified { OnOk result (IsUnification (Self.present self.old) (Self.present self.new) (meaning (Self.present self.old) variable) (meaning (Self.present self.old) compound) true) }
        ensures cells { Grows (Self.present self.old) (Self.present self.new) 0 0 }
        ensures full { result ≡ Err StoreFault.Full → Self.full self.new }
        ensures memory { result ≡ Err StoreFault.NoMemory → Self.takes_memory ≡ true }
        ensures names { Self.names self.new ≡ Self.names self.old }
        ensures marks { KeepsMarks (Self.stands self.old) (Self.stands self.new) };

    // nothing needs to be pushed
    ghost none: { (s : Self) → Self.pushed s [] };

    // what a word stands for is a term
    ghost sorted: { (s : Self) (w : Self.Word) → Holds (Self.present s) w → is_term (meaning (Self.present s) w) ≡ true };

    // its bindings are a substitution
    ghost settled: { (s : Self) → IsSubstitution (Self.present s).substitution };

    // where the word of an atom stands, it stands for the atom's name
    ghost named: { (s : Self) (n : ℕ) → Holds (Self.present s) (Self.atom_word n)
        → (n < length (Self.names s)) × ((Self.present s).term (Self.atom_word n) ≡ Name (text_at (Self.names s) n)) };

    // each name has one atom
    ghost once: { (s : Self) → EachOnce (Self.names s) };

    // no variable has a number that is still to come
    ghost unreserved: { (s : Self) (n : ℕ) → (Self.present s).next ≤ n → (Self.present s).taken n ≡ false };
}
