//! Terms copied into a store and out of it.
ghost use Rattle.std.specs.Prelude.{◌≡◌, ℕ, ◌+◌, ◌<◌, ◌≤◌, ◌*◌, ◌^◌, ◌∷◌, [], ◌++◌, IfOk, OnOk, length, map, true, false};
ghost use Rattle.std.specs.List.{All};
ghost use Rattle.iso_atoms.specs.Texts.{KeepsTexts};
ghost use Rattle.iso_model.specs.Terms.Trees.{Variable, arities_fit};
ghost use Rattle.iso_model.specs.Terms.TermOf.{term_of};
ghost use Rattle.iso_model.specs.Terms.Sizes.{size};
ghost use Rattle.iso_model.specs.Terms.Building.{with_step, with_steps, step_load, steps_load};
ghost use Rattle.iso_model.specs.Terms.Variables.{variable_count};
ghost use Rattle.iso_model.specs.Terms.Substitutions.{apply};
ghost use Rattle.iso_model.specs.Terms.Copies.{copy_from, numbers_from};
ghost use Rattle.iso_model.specs.Terms.Unification.Listed.{Covers};
ghost use Rattle.iso_store_core.specs.Presents.{Holds, meaning, Gathers, Makes, KeepsNumbers, MovesOn, TakesFrom, Grows, NumbersHaveCells, KeepsMarks};
ghost use Rattle.iso_store_core.specs.Copying.{cells_of};
ghost use Rattle.iso_store.specs.Placed.{placed_terms};
ghost use Rattle.iso_store.specs.Tasks.{IsTask, step_of, steps_of};

use super::instances::instantiate;
use super::patterns::{Places, written};
use super::primitives::Primitives;
use iso_atoms::Atom;
use iso_model::terms::build_last;
use iso_model::{NoMemory, Numbering, Term};
use iso_store_core::{Shape, StoreFault};
use std::alloc::Global;

/// What is left to do of copying a term out.
#[derive(Clone, Copy)]
enum Task<W: Copy> {
    /// The arguments of the compound that the word stands for are to be copied, from this place on; in all it has so
    /// many.
    Copy(W, usize, usize),
    /// A compound of this name is to be built of the last copies, so many.
    Build(Atom, usize),
}

/// Copies what the word stands for where it has no arguments, and leaves a compound to be copied by its arguments.
fn copy_next<S: Primitives>(
    alloc: Global,
    store: &S,
    word: S::Word,
    tasks: &mut Vec<Task<S::Word>>,
    copies: &mut Vec<Term>,
) -> Result<(), NoMemory>
    requires word { Holds (S.present store.now) word }
    requires tasks { All (IsTask (S.present store.now) (S.names store.now)) tasks.old.items }
    ensures tasks { OnOk result (All (IsTask (S.present store.now) (S.names store.now)) tasks.new.items) }
    ensures steps { OnOk result (with_steps (steps_of (S.present store.now) (S.names store.now) tasks.new.items) (map term_of copies.new.items)
        ≡ with_steps (steps_of (S.present store.now) (S.names store.now) tasks.old.items) (map term_of copies.old.items ++ meaning (S.present store.now) word ∷ [])) }
    ensures load { OnOk result (steps_load (steps_of (S.present store.now) (S.names store.now) tasks.new.items)
        < 2 * size (meaning (S.present store.now) word) + steps_load (steps_of (S.present store.now) (S.names store.now) tasks.old.items)) }
{
    match store.shape(word) {
        Shape::Var(number) => {
            copies.push(Term::Var(number))?;
            Ok(())
        }
        Shape::Int(value) => {
            copies.push(Term::Int(value))?;
            Ok(())
        }
        Shape::Atom(name) => {
            copies.push(Term::Atom(String::from_str(alloc, store.text(name))?))?;
            Ok(())
        }
        Shape::Compound(name, count) => {
            tasks.push(Task::Build(name, count))?;
            tasks.push(Task::Copy(word, 0, count))?;
            Ok(())
        }
    }
}

/// Copies the argument at this place, and leaves those behind it; in all the compound has so many.
fn copy_argument<S: Primitives>(
    alloc: Global,
    store: &S,
    word: S::Word,
    index: usize,
    count: usize,
    tasks: &mut Vec<Task<S::Word>>,
    copies: &mut Vec<Term>,
) -> Result<(), NoMemory>
    requires task { IsTask (S.present store.now) (S.names store.now) (Task.Copy word index count) }
    requires tasks { All (IsTask (S.present store.now) (S.names store.now)) tasks.old.items }
    ensures tasks { OnOk result (All (IsTask (S.present store.now) (S.names store.now)) tasks.new.items) }
    ensures steps { OnOk result (with_steps (steps_of (S.present store.now) (S.names store.now) tasks.new.items) (map term_of copies.new.items)
        ≡ with_steps (steps_of (S.present store.now) (S.names store.now) tasks.old.items)
        (with_step (step_of (S.present store.now) (S.names store.now) (Task.Copy word index count)) (map term_of copies.old.items))) }
    ensures load { OnOk result (steps_load (steps_of (S.present store.now) (S.names store.now) tasks.new.items)
        < step_load (step_of (S.present store.now) (S.names store.now) (Task.Copy word index count))
        + steps_load (steps_of (S.present store.now) (S.names store.now) tasks.old.items)) }
{
    let argument = store.arg(word, index);
    if index + 1 == count {
        return copy_next(alloc, store, argument, tasks, copies);
    }
    tasks.push(Task::Copy(word, index + 1, count))?;
    copy_next(alloc, store, argument, tasks, copies)
}

/// Does what a task says.
fn do_task<S: Primitives>(
    alloc: Global,
    store: &S,
    task: Task<S::Word>,
    tasks: &mut Vec<Task<S::Word>>,
    copies: &mut Vec<Term>,
) -> Result<(), NoMemory>
    requires task { IsTask (S.present store.now) (S.names store.now) task }
    requires tasks { All (IsTask (S.present store.now) (S.names store.now)) tasks.old.items }
    ensures tasks { OnOk result (All (IsTask (S.present store.now) (S.names store.now)) tasks.new.items) }
    ensures steps { OnOk result (with_steps (steps_of (S.present store.now) (S.names store.now) tasks.new.items) (map term_of copies.new.items)
        ≡ with_steps (steps_of (S.present store.now) (S.names store.now) tasks.old.items)
        (with_step (step_of (S.present store.now) (S.names store.now) task) (map term_of copies.old.items))) }
    ensures load { OnOk result (steps_load (steps_of (S.present store.now) (S.names store.now) tasks.new.items)
        < step_load (step_of (S.present store.now) (S.names store.now) task) + steps_load (steps_of (S.present store.now) (S.names store.now) tasks.old.items)) }
{
    match task {
        Task::Copy(word, index, count) => {
            copy_argument(alloc, store, word, index, count, tasks, copies)
        }
        Task::Build(name, count) => build_last(alloc, store.text(name), count, copies),
    }
}

/// The term that the word stands for.
pub(crate) fn copy_out<S: Primitives>(
    alloc: Global,
    store: &S,
    word: S::Word,
) -> Result<Term, NoMemory>
    requires { Holds (S.present store.now) word }
    ensures { IfOk result (λ t. term_of t ≡ meaning (S.present store.now) word) }
{
    let mut tasks = Vec::new(alloc);
    let mut copies = Vec::new(alloc);
    copy_next(alloc, store, word, &mut tasks, &mut copies)?;
    while let Some(task) = tasks.pop() {
        do_task(alloc, store, task, &mut tasks, &mut copies)?;
    }
    let Some(copy) = copies.pop() else {
        unreachable!()
    };
    Ok(copy)
}

/// The term, with the word at its place for each variable.
fn make<S: Primitives>(
    alloc: Global,
    store: &mut S,
    term: &Term,
    variables: &Numbering,
    words: &[S::Word],
) -> Result<S::Word, StoreFault>
    requires covered { Covers variables.now (term_of term.now) }
    requires count { length words.now ≡ length variables.now }
    requires words { All (λ w. Holds (S.present store.old) w) words.now }
    requires fits { arities_fit (term_of term.now) ≡ true }
    ensures made { IfOk result (λ w. Makes (S.present store.old) (S.present store.new) w
        (apply (placed_terms (map (S.present store.old).term words.now) variables.now) (term_of term.now))) }
    ensures numbers { OnOk result (KeepsNumbers (S.present store.old) (S.present store.new)) }
    ensures cells { Grows (S.present store.old) (S.present store.new) (cells_of S.atomic S.width (term_of term.now)) 0 }
    ensures full { result ≡ Err StoreFault.Full → S.full store.new }
    ensures names { KeepsTexts (S.names store.old) (S.names store.new) }
    ensures marks { KeepsMarks (S.stands store.old) (S.stands store.new) }
{
    let pattern = written(alloc, store, term, Places::Among(variables))?;
    instantiate(alloc, store, &pattern, words)
}

/// Words for variables of these reserved numbers, from `first` on.
pub(crate) fn variables_from<S: Primitives>(
    alloc: Global,
    store: &mut S,
    first: u64,
    count: usize,
) -> Result<Vec<S::Word>, StoreFault>
    requires reserved { first + count ≤ (S.present store.old).next }
    requires fits { first + count < 2 ^ 64 }
    requires free { (n : ℕ) → first ≤ n → (S.present store.old).taken n ≡ false }
    ensures made { IfOk result (λ ws. Gathers (S.present store.old) (S.present store.new) ws.items (map Variable (numbers_from first count))) }
    ensures numbers { OnOk result (TakesFrom (S.present store.old) (S.present store.new) first) }
    ensures cells { Grows (S.present store.old) (S.present store.new) count count }
    ensures each_cell { OnOk result ((S.present store.old).cells + count ≤ (S.present store.new).cells) }
    ensures full { result ≡ Err StoreFault.Full → S.full store.new }
    ensures names { S.names store.new ≡ S.names store.old }
    ensures marks { KeepsMarks (S.stands store.old) (S.stands store.new) }
{
    let mut words = Vec::new(alloc);
    for place in 0..count {
        let word = store.variable(first + place as u64)?;
        if words.push(word).is_err() {
            return Err(StoreFault::NoMemory);
        }
    }
    Ok(words)
}

/// The copy of the term, with its variables numbered from the next number on by first occurrence.
pub(crate) fn build<S: Primitives>(
    alloc: Global,
    store: &mut S,
    term: &Term,
) -> Result<S::Word, StoreFault>
    requires fits { arities_fit (term_of term.now) ≡ true }
    requires next { (S.present store.old).next < 2 ^ 63 }
    ensures made { IfOk result (λ w. Makes (S.present store.old) (S.present store.new) w (copy_from (term_of term.now) (S.present store.old).next)) }
    ensures numbers { OnOk result (MovesOn (S.present store.old) (S.present store.new) (variable_count (term_of term.now))) }
    ensures cells { Grows (S.present store.old) (S.present store.new) (variable_count (term_of term.now) + cells_of S.atomic S.width (term_of term.now)) (variable_count (term_of term.now)) }
    ensures counted { OnOk result (NumbersHaveCells (S.present store.old) (S.present store.new)) }
    ensures full { result ≡ Err StoreFault.Full → S.full store.new }
    ensures names { KeepsTexts (S.names store.old) (S.names store.new) }
    ensures marks { KeepsMarks (S.stands store.old) (S.stands store.new) }
{
    let mut variables = Numbering::new(alloc);
    let Ok(()) = variables.note_all(alloc, term) else {
        return Err(StoreFault::NoMemory);
    };
    let first = store.reserve(variables.len() as u64);
    let words = variables_from(alloc, store, first, variables.len())?;
    make(alloc, store, term, &variables, words.as_slice())
}
