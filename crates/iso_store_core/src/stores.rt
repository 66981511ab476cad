//! The contract that the engine and every built-in stand on: terms under one substitution, which marks bring back.
ghost use Rattle.std.specs.Prelude.{◌≡◌, ℕ, Bool, List, Some, slice_get, ◌+◌, ◌<◌, ◌≤◌, ◌^◌, IfOk, OnOk, OnErr, length, map, true, false};
ghost use Rattle.std.specs.List.{All};
ghost use Rattle.iso_atoms.specs.Texts.{EachOnce, KeepsTexts, text_at};
ghost use Rattle.iso_model.specs.Terms.Trees.{Tree, Integer, Name, Apply, Variable, row, arities_fit};
ghost use Rattle.iso_model.specs.Terms.TermOf.{term_of};
ghost use Rattle.iso_model.specs.Terms.Sorts.{is_term};
ghost use Rattle.iso_model.specs.Terms.Variables.{variables, variable_count};
ghost use Rattle.iso_model.specs.Terms.Substitutions.{IsSubstitution, apply};
ghost use Rattle.iso_model.specs.Terms.Copies.{copy_from, renamed};
ghost use Rattle.iso_model.specs.Terms.Order.{term_cmp};
ghost use Rattle.iso_store_core.specs.Presents.{Present, Holds, meaning, KeepsWords, Makes, KeepsNumbers, TakesNumber, MovesOn, Grows, NumbersHaveCells, IsUnification, KeepsMarks, Untouched};
ghost use Rattle.iso_store_core.specs.Arguments.{arity, argument};
ghost use Rattle.iso_store_core.specs.Shapes.{IsShape};
ghost use Rattle.iso_store_core.specs.Copying.{cells_of, wide_cells};
ghost use Rattle.iso_store_core.specs.Exact.{are_exact};
ghost use Rattle.iso_store_core.specs.Patterns.{IsPattern, HasPlaces, at_places};
ghost use Rattle.iso_store_core.specs.Heads.{IsHeadMet};

use super::patterns::{Part, Pattern};
use super::shapes::{Shape, StoreFault};
use iso_atoms::Atom;
use iso_model::{NoMemory, Term};
use std::cmp::Ordering;

/// Words that stand for terms. A word has the term that it was made with, and stands for what the bindings make of it.
/// A call that makes words fails where the store is full or memory was refused, as its `StoreFault` says.
/// After an error, after `unify` or `unify_head` answers false, the caller goes back to a mark.
pub trait Store {
    /// What stands for a term.
    type Word: Copy;
    /// What stands for the store as it was.
    type Mark: Copy;

    // the names that have an atom, in the order of their numbers
    ghost names: { Self → List (List ℕ) };
    // the store as it is
    ghost present: { Self → Present Self.Word };
    // what a mark brings back
    ghost stands: { Self → Self.Mark → Present Self.Word → Type 0 };
    // the first mark is older than the second
    ghost older: { Self.Mark → Self.Mark → Type 0 };
    // no cell is left
    ghost full: { Self → Type 0 };
    // whether a call that makes a word may take memory
    ghost takes_memory: { Bool };
    // how many cells an atom takes at most, or an integer of 64 bits
    ghost atomic_cells: { ℕ };
    // how many cells a copy of the term takes at most
    ghost built_cells: { Tree → ℕ };

    /// What the word stands for.
    fn shape(&self, word: Self::Word) -> Shape
        requires { Holds (present self.now) word }
        ensures shape { IsShape (names self.now) result (meaning (present self.now) word) }
        ensures term { is_term (meaning (present self.now) word) ≡ true }
        ensures each_once { EachOnce (names self.now) };

    /// The argument at this place, from 0 on, of the compound that the word stands for.
    fn arg(&self, word: Self::Word, index: usize) -> Self::Word
        requires word { Holds (present self.now) word }
        requires index { index < arity (meaning (present self.now) word) }
        ensures holds { Holds (present self.now) result }
        ensures value { meaning (present self.now) result ≡ argument index (meaning (present self.now) word) };

    /// The next variable number, which moves on by `count`. The caller keeps it below 2^63.
    fn reserve(&mut self, count: u64) -> u64
        requires count { count < 2 ^ 32 }
        requires next { (present self.old).next < 2 ^ 63 }
        ensures number { result ≡ (present self.old).next }
        ensures words { KeepsWords (present self.old) (present self.new) }
        ensures substitution { (present self.new).substitution ≡ (present self.old).substitution }
        ensures numbers { MovesOn (present self.old) (present self.new) count }
        ensures free { (n : ℕ) → result ≤ n → (present self.new).taken n ≡ false }
        ensures cells { Grows (present self.old) (present self.new) 0 0 }
        ensures names { names self.new ≡ names self.old }
        ensures marks { KeepsMarks (stands self.old) (stands self.new) };

    /// An integer. One that has more than 64 bits takes a cell more than an atom.
    fn int(&mut self, value: i128) -> Result<Self::Word, StoreFault>
        ensures made { IfOk result (λ w. Makes (present self.old) (present self.new) w (Integer value)) }
        ensures numbers { OnOk result (KeepsNumbers (present self.old) (present self.new)) }
        ensures cells { Grows (present self.old) (present self.new) (atomic_cells + wide_cells value) 0 }
        ensures full { result ≡ Err StoreFault.Full → full self.new }
        ensures memory { result ≡ Err StoreFault.NoMemory → takes_memory ≡ true }
        ensures names { names self.new ≡ names self.old }
        ensures marks { KeepsMarks (stands self.old) (stands self.new) };

    /// The atom of this name: the one that it has, or a new one. The error is that memory was refused; nothing
    /// changed then.
    fn intern(&mut self, name: &str) -> Result<Atom, NoMemory>
        ensures place { IfOk result (λ atom. slice_get (names self.new) atom ≡ Some name.now) }
        ensures each_once { EachOnce (names self.new) }
        ensures names { KeepsTexts (names self.old) (names self.new) }
        ensures unchanged { OnErr result (names self.new ≡ names self.old) }
        ensures present { present self.new ≡ present self.old }
        ensures marks { KeepsMarks (stands self.old) (stands self.new) };

    /// The name of this atom. Takes no memory.
    fn text(&self, atom: Atom) -> &str
        requires { atom < length (names self.now) }
        ensures { slice_get (names self.now) atom ≡ Some result.now };

    /// An atom.
    fn atom(&mut self, name: Atom) -> Result<Self::Word, StoreFault>
        requires name { name < length (names self.old) }
        ensures made { IfOk result (λ w. Makes (present self.old) (present self.new) w (Name (text_at (names self.old) name))) }
        ensures numbers { OnOk result (KeepsNumbers (present self.old) (present self.new)) }
        ensures cells { Grows (present self.old) (present self.new) atomic_cells 0 }
        ensures full { result ≡ Err StoreFault.Full → full self.new }
        ensures memory { result ≡ Err StoreFault.NoMemory → takes_memory ≡ true }
        ensures names { names self.new ≡ names self.old }
        ensures marks { KeepsMarks (stands self.old) (stands self.new) };

    /// A compound of 1 to 255 arguments.
    fn compound(&mut self, name: Atom, arguments: &[Self::Word]) -> Result<Self::Word, StoreFault>
        requires name { name < length (names self.old) }
        requires some { 0 < length arguments.now }
        requires few { length arguments.now < 256 }
        requires arguments { All (λ w. Holds (present self.old) w) arguments.now }
        ensures made { IfOk result (λ w. Makes (present self.old) (present self.new) w (Apply (text_at (names self.old) name) (row (map (present self.old).term arguments.now)))) }
        ensures numbers { OnOk result (KeepsNumbers (present self.old) (present self.new)) }
        ensures cells { Grows (present self.old) (present self.new) (length arguments.now + 1) 0 }
        ensures full { result ≡ Err StoreFault.Full → full self.new }
        ensures memory { result ≡ Err StoreFault.NoMemory → takes_memory ≡ true }
        ensures names { names self.new ≡ names self.old }
        ensures marks { KeepsMarks (stands self.old) (stands self.new) };

    /// The variable of a reserved number that has none yet.
    fn variable(&mut self, number: u64) -> Result<Self::Word, StoreFault>
        requires reserved { number < (present self.old).next }
        requires free { (present self.old).taken number ≡ false }
        ensures made { IfOk result (λ w. Makes (present self.old) (present self.new) w (Variable number)) }
        ensures numbers { OnOk result (TakesNumber (present self.old) (present self.new) number) }
        ensures cells { Grows (present self.old) (present self.new) 1 1 }
        ensures full { result ≡ Err StoreFault.Full → full self.new }
        ensures memory { result ≡ Err StoreFault.NoMemory → takes_memory ≡ true }
        ensures names { names self.new ≡ names self.old }
        ensures marks { KeepsMarks (stands self.old) (stands self.new) };

    /// A variable of the next number, which the caller keeps below 2^63.
    fn fresh(&mut self) -> Result<Self::Word, StoreFault>
        requires { (present self.old).next < 2 ^ 63 }
        ensures made { IfOk result (λ w. Makes (present self.old) (present self.new) w (Variable (present self.old).next)) }
        ensures numbers { OnOk result (MovesOn (present self.old) (present self.new) 1) }
        ensures cells { Grows (present self.old) (present self.new) 1 1 }
        ensures counted { OnOk result (NumbersHaveCells (present self.old) (present self.new)) }
        ensures full { result ≡ Err StoreFault.Full → full self.new }
        ensures memory { result ≡ Err StoreFault.NoMemory → takes_memory ≡ true }
        ensures names { names self.new ≡ names self.old }
        ensures marks { KeepsMarks (stands self.old) (stands self.new) };

    /// The copy of a well-formed term, with its variables numbered from the next number on by first occurrence.
    /// The caller keeps the next number below 2^63.
    fn build(&mut self, term: &Term) -> Result<Self::Word, StoreFault>
        requires well_formed { arities_fit (term_of term.now) ≡ true }
        requires next { (present self.old).next < 2 ^ 63 }
        ensures made { IfOk result (λ w. Makes (present self.old) (present self.new) w (copy_from (term_of term.now) (present self.old).next)) }
        ensures numbers { OnOk result (MovesOn (present self.old) (present self.new) (variable_count (term_of term.now))) }
        ensures cells { Grows (present self.old) (present self.new) (built_cells (term_of term.now)) (variable_count (term_of term.now)) }
        ensures counted { OnOk result (NumbersHaveCells (present self.old) (present self.new)) }
        ensures full { result ≡ Err StoreFault.Full → full self.new }
        ensures names { KeepsTexts (names self.old) (names self.new) }
        ensures marks { KeepsMarks (stands self.old) (stands self.new) };

    /// The term written out for this store, where the number of a variable is its place. The error is that memory was
    /// refused; some names may have atoms then that had none.
    fn pattern(&mut self, term: &Term) -> Result<Pattern, NoMemory>
        ensures pattern { IfOk result (λ r. IsPattern (names self.new) r.parts.items (term_of term.now)) }
        ensures names { KeepsTexts (names self.old) (names self.new) }
        ensures present { present self.new ≡ present self.old }
        ensures marks { KeepsMarks (stands self.old) (stands self.new) };

    /// The term of a pattern of this store, well formed, with the word at its place for each variable.
    fn instantiate(
        &mut self,
        pattern: &Pattern,
        variables: &[Self::Word],
    ) -> Result<Self::Word, StoreFault>
        requires pattern { (t : Tree) × IsPattern (names self.old) pattern.now.parts.items t × (arities_fit t ≡ true) × HasPlaces (length variables.now) t }
        requires variables { All (λ w. Holds (present self.old) w) variables.now }
        ensures made { (t : Tree) → IsPattern (names self.old) pattern.now.parts.items t
            → IfOk result (λ w. Makes (present self.old) (present self.new) w (apply (at_places (map (present self.old).term variables.now)) t)) }
        ensures numbers { OnOk result (KeepsNumbers (present self.old) (present self.new)) }
        ensures cells { (t : Tree) → IsPattern (names self.old) pattern.now.parts.items t → Grows (present self.old) (present self.new) (cells_of atomic_cells (λ n. n + 1) t) 0 }
        ensures full { result ≡ Err StoreFault.Full → full self.new }
        ensures names { names self.new ≡ names self.old }
        ensures marks { KeepsMarks (stands self.old) (stands self.new) };

    /// The term of the parts of a pattern of this store, well formed, with new variables, numbered from the next number on by
    /// their places, so many. No cell comes for a variable that doesn't occur. The caller keeps the next number below
    /// 2^63.
    fn renew(&mut self, parts: &[Part], count: usize) -> Result<Self::Word, StoreFault>
        requires pattern { (t : Tree) × IsPattern (names self.old) parts.now t × (arities_fit t ≡ true) × HasPlaces count t }
        requires next { (present self.old).next + count < 2 ^ 63 }
        ensures made { (t : Tree) → IsPattern (names self.old) parts.now t
            → IfOk result (λ w. Makes (present self.old) (present self.new) w (renamed (present self.old).next t)) }
        ensures numbers { OnOk result (MovesOn (present self.old) (present self.new) count) }
        ensures cells { (t : Tree) → IsPattern (names self.old) parts.now t → Grows (present self.old) (present self.new) (built_cells t) (variable_count t) }
        ensures full { result ≡ Err StoreFault.Full → full self.new }
        ensures names { names self.new ≡ names self.old }
        ensures marks { KeepsMarks (stands self.old) (stands self.new) };

    /// Whether the two terms unify (7.3.4; no variable may occur in its own value, own); then their unifier is bound.
    /// False leaves it open what is bound.
    fn unify(&mut self, first: Self::Word, second: Self::Word) -> Result<bool, StoreFault>
        requires first { Holds (present self.old) first }
        requires second { Holds (present self.old) second }
        ensures unified { IfOk result (IsUnification (present self.old) (present self.new) (meaning (present self.old) first) (meaning (present self.old) second)) }
        ensures cells { Grows (present self.old) (present self.new) 0 0 }
        ensures full { result ≡ Err StoreFault.Full → full self.new }
        ensures names { names self.new ≡ names self.old }
        ensures marks { KeepsMarks (stands self.old) (stands self.new) };

    /// Unifies the goal with the head of a clause, which has these parts, read one by one (7.7.10), and says
    /// whether they unify. The clause's variables, so many, get the next numbers, and the list has words of their
    /// values in place of what it had. False, where nothing makes the two equal, leaves it open what is bound, and
    /// what the list has. The caller keeps the next number below 2^63.
    fn unify_head(
        &mut self,
        head: &[Part],
        goal: Self::Word,
        count: usize,
        words: &mut Vec<Self::Word>,
    ) -> Result<bool, StoreFault>
        requires goal { Holds (present self.old) goal }
        requires head { (t : Tree) × IsPattern (names self.old) head.now t × (arities_fit t ≡ true) × HasPlaces count t }
        requires exact { are_exact head.now 0 ≡ true }
        requires next { (present self.old).next + count < 2 ^ 63 }
        ensures met { (t : Tree) → IsPattern (names self.old) head.now t
            → IfOk result (λ answer. IsHeadMet (present self.old) (present self.new) goal t count words.new.items answer) }
        ensures substitution { IsSubstitution (present self.new).substitution }
        ensures cells { (t : Tree) → IsPattern (names self.old) head.now t → Grows (present self.old) (present self.new) (count + cells_of atomic_cells (λ n. n + 1) t) count }
        ensures full { result ≡ Err StoreFault.Full → full self.new }
        ensures names { names self.new ≡ names self.old }
        ensures marks { KeepsMarks (stands self.old) (stands self.new) };

    /// How the two terms compare in the standard order (7.2; that older variables come first is own). The error is
    /// that memory was refused; where neither is a compound, none is asked for.
    fn compare(&mut self, one: Self::Word, other: Self::Word) -> Result<Ordering, NoMemory>
        requires one { Holds (present self.old) one }
        requires other { Holds (present self.old) other }
        ensures order { IfOk result (λ o. o ≡ term_cmp (meaning (present self.old) one) (meaning (present self.old) other)) }
        ensures present { present self.new ≡ present self.old }
        ensures names { names self.new ≡ names self.old }
        ensures marks { KeepsMarks (stands self.old) (stands self.new) };

    /// A mark, which stands for the store as it is.
    fn mark(&mut self) -> Self::Mark
        ensures present { present self.new ≡ present self.old }
        ensures substitution { IsSubstitution (present self.old).substitution }
        ensures stands { stands self.new result (present self.old) }
        ensures older { (m : Self.Mark) (p : Present Self.Word) → stands self.old m p → older m result }
        ensures names { names self.new ≡ names self.old }
        ensures marks { KeepsMarks (stands self.old) (stands self.new) };

    /// Brings back what a standing mark stands for. It stands on; those made after it fall.
    fn undo(&mut self, mark: Self::Mark)
        requires { (p : Present Self.Word) × stands self.old mark p }
        ensures back { (p : Present Self.Word) → stands self.old mark p → present self.new ≡ p }
        ensures stands { (p : Present Self.Word) → stands self.old mark p → stands self.new mark p }
        ensures names { names self.new ≡ names self.old }
        ensures marks { (m : Self.Mark) (p : Present Self.Word) → older m mark → stands self.old m p → stands self.new m p };

    /// Gives up a standing mark and those made after it; the bindings stay.
    fn forget(&mut self, mark: Self::Mark)
        requires { (p : Present Self.Word) × stands self.old mark p }
        ensures present { present self.new ≡ present self.old }
        ensures names { names self.new ≡ names self.old }
        ensures marks { (m : Self.Mark) (p : Present Self.Word) → older m mark → stands self.old m p → stands self.new m p };

    /// The term that the word stands for. The error is that memory was refused.
    fn copy_out(&self, word: Self::Word) -> Result<Term, NoMemory>
        requires { Holds (present self.now) word }
        ensures value { IfOk result (λ t. term_of t ≡ meaning (present self.now) word) }
        ensures well_formed { IfOk result (λ t. arities_fit (term_of t) ≡ true) };

    /// The copy of the term that the word stands for, with its variables numbered from the next number on by first
    /// occurrence; what stands at one place is copied once. The caller keeps the next number below 2^63. A term of
    /// more than 536,870,912 variables is refused as memory is.
    fn copy(&mut self, word: Self::Word) -> Result<Self::Word, StoreFault>
        requires word { Holds (present self.old) word }
        requires next { (present self.old).next < 2 ^ 63 }
        ensures made { IfOk result (λ w. Makes (present self.old) (present self.new) w (copy_from (meaning (present self.old) word) (present self.old).next)) }
        ensures numbers { OnOk result (MovesOn (present self.old) (present self.new) (variable_count (meaning (present self.old) word))) }
        ensures few { OnOk result (variable_count (meaning (present self.old) word) ≤ 536870912) }
        ensures cells { Grows (present self.old) (present self.new)
            (built_cells (meaning (present self.old) word)) (variable_count (meaning (present self.old) word)) }
        ensures counted { OnOk result (NumbersHaveCells (present self.old) (present self.new)) }
        ensures full { result ≡ Err StoreFault.Full → full self.new }
        ensures names { names self.new ≡ names self.old }
        ensures marks { KeepsMarks (stands self.old) (stands self.new) };

    /// Words for the variables of the term that the word stands for, each once, in the order of first occurrence. The
    /// error is that memory was refused.
    fn variables(&self, word: Self::Word) -> Result<Vec<Self::Word>, NoMemory>
        requires { Holds (present self.now) word }
        ensures hold { IfOk result (λ ws. All (λ w. Holds (present self.now) w) ws.items) }
        ensures variables { IfOk result (λ ws. map (meaning (present self.now)) ws.items ≡ map Variable (variables (meaning (present self.now) word))) };

    // a number that no variable has, as one that is only reserved, stands for itself and is in no term that a word
    // stands for
    ghost untouched: { (s : Self) (n : ℕ) → (present s).taken n ≡ false → Untouched (present s) n };

    // each variable has a cell of its own
    ghost variables_within: { (s : Self) → (present s).variables ≤ (present s).cells };

    // it is full only where so many cells are used: each of them was made, or keeps the binding of a variable, one
    // for each variable at most
    ghost full_used: { (s : Self) → full s → (present s).limit ≤ (present s).cells + (present s).variables };

    // a mark brings back a store that may have as many cells
    ghost limit_stands: { (s : Self) (m : Self.Mark) (p : Present Self.Word) → stands s m p → p.limit ≡ (present s).limit };
}
