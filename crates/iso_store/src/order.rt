//! The standard order of terms (ISO/IEC 13211-1:1995, 7.2; that older variables come first is own). Terms are gone
//! through by a list of tasks, and two compounds that were found identical are joined: so no pair of subterms that
//! are shared is gone through again.
ghost use Rattle.std.specs.Prelude.{◌≡◌, ℕ, ◌<◌, List, ◌∷◌, [], ◌++◌, IfOk, length, true};
ghost use Rattle.std.specs.Ordering.{nat_cmp, ordering_then};
ghost use Rattle.std.specs.Cmp.Lexicographic.{slice_cmp};
ghost use Rattle.iso_atoms.specs.Texts.{text_at};
ghost use Rattle.iso_model.specs.Terms.Trees.{Tree, Apply, count};
ghost use Rattle.iso_model.specs.Terms.Sorts.{is_term};
ghost use Rattle.iso_model.specs.Terms.Order.{term_cmp, kind};
ghost use Rattle.iso_store_core.specs.Presents.{Holds, meaning, KeepsMarks};
ghost use Rattle.iso_store_core.specs.Shapes.{IsShape};
ghost use Rattle.iso_store.specs.Unifying.{IsPair, Stands, Steps};
ghost use Rattle.iso_store.specs.Comparing.{IsComparison, order_left};

use super::joins::join;
use super::notes::Notes;
use super::primitives::Primitives;
use super::scratch::{keep, take_scratch};
use super::unify::{Task, leave_arguments};
use iso_atoms::Atom;
use iso_model::NoMemory;
use iso_store_core::Shape;
use std::cmp::Ordering;

/// What decides how two terms compare.
#[derive(Clone, Copy)]
enum Comparison {
    /// This is their order.
    Decided(Ordering),
    /// They are compounds of one name with so many arguments, and these decide.
    Arguments(usize),
}

/// The place of a kind of term in the order.
fn kind_of(shape: Shape) -> u8
    ensures { (names : List (List ℕ)) (t : Tree) → IsShape names shape t → result ≡ kind t }
{
    match shape {
        Shape::Var(_) => 0,
        Shape::Int(_) => 1,
        Shape::Atom(_) => 2,
        Shape::Compound(_, _) => 3,
    }
}

/// How two names compare: by their character codes, which is how their bytes compare.
fn compare_names<S: Primitives>(store: &S, one: Atom, other: Atom) -> Ordering
    requires one { one < length (S.names store.now) }
    requires other { other < length (S.names store.now) }
    ensures { result ≡ slice_cmp nat_cmp (text_at (S.names store.now) one) (text_at (S.names store.now) other) }
{
    if one == other {
        return Ordering::Equal;
    }
    store.text(one).cmp(store.text(other))
}

/// What decides how two compounds of these names compare: how many arguments they have, then their names, then the
/// arguments.
fn compare_compounds<S: Primitives>(
    store: &S,
    one: Atom,
    one_count: usize,
    other: Atom,
    other_count: usize,
) -> Comparison
    requires one { one < length (S.names store.now) }
    requires other { other < length (S.names store.now) }
    ensures { (ts us : Tree) → count ts ≡ one_count → count us ≡ other_count
        → IsComparison result (Apply (text_at (S.names store.now) one) ts) (Apply (text_at (S.names store.now) other) us) }
{
    let arities = one_count.cmp(&other_count);
    if arities != Ordering::Equal {
        return Comparison::Decided(arities);
    }
    let names = compare_names(store, one, other);
    if names != Ordering::Equal {
        return Comparison::Decided(names);
    }
    Comparison::Arguments(one_count)
}

/// What decides how the terms of the two words compare.
fn compare_heads<S: Primitives>(store: &S, one: S::Word, other: S::Word) -> Comparison
    requires one { Holds (S.present store.now) one }
    requires other { Holds (S.present store.now) other }
    ensures comparison { IsComparison result (meaning (S.present store.now) one) (meaning (S.present store.now) other) }
    ensures one_term { is_term (meaning (S.present store.now) one) ≡ true }
    ensures other_term { is_term (meaning (S.present store.now) other) ≡ true }
{
    let first = store.shape(one);
    let second = store.shape(other);
    match first {
        Shape::Var(x) => {
            if let Shape::Var(y) = second {
                return Comparison::Decided(x.cmp(&y));
            }
        }
        Shape::Int(x) => {
            if let Shape::Int(y) = second {
                return Comparison::Decided(x.cmp(&y));
            }
        }
        Shape::Atom(x) => {
            if let Shape::Atom(y) = second {
                return Comparison::Decided(compare_names(store, x, y));
            }
        }
        Shape::Compound(f, m) => {
            if let Shape::Compound(g, n) = second {
                return compare_compounds(store, f, m, g, n);
            }
        }
    }
    Comparison::Decided(kind_of(first).cmp(&kind_of(second)))
}

/// Compares the arguments from this place on, up to the first that are both compounds of one name with as many
/// arguments; these are left to be compared, and the arguments behind them. Each compound has so many. As far as it
/// was looked, they are alike where it answers that they are equal.
fn compare_arguments<S: Primitives>(
    store: &S,
    one: S::Word,
    other: S::Word,
    index: usize,
    count: usize,
    joined: &mut Notes<S::Word>,
    tasks: &mut Vec<Task<S::Word>>,
) -> Result<Ordering, NoMemory>
    requires pair { IsPair (S.present store.now) (Task.Arguments one other index count) }
    requires stands { Stands (S.present store.now) (S.at_place store.now) joined.old [] [] (tasks.old.items ++ Task.Arguments one other index count ∷ []) }
    ensures stands { IfOk result (λ o. o ≡ Ordering.Equal → Stands (S.present store.now) (S.at_place store.now) joined.new [] [] tasks.new.items) }
    ensures steps { IfOk result (λ o. o ≡ Ordering.Equal → Steps (S.present store.now) (S.present store.now) [] [] (tasks.old.items ++ Task.Arguments one other index count ∷ []) tasks.new.items) }
    ensures order { IfOk result (λ o. ordering_then o (order_left (S.present store.now) [] [] tasks.new.items)
        ≡ order_left (S.present store.now) [] [] (tasks.old.items ++ Task.Arguments one other index count ∷ [])) }
{
    let one_end = store.end(one);
    let other_end = store.end(other);
    let mut index = index;
    'comparing: loop {
        let first = store.end_of_arg(one_end, count, index);
        let second = store.end_of_arg(other_end, count, index);
        index += 1;
        match compare_heads(store, first, second) {
            Comparison::Decided(order) if order != Ordering::Equal => return Ok(order),
            Comparison::Decided(_) if index == count => return Ok(Ordering::Equal),
            Comparison::Decided(_) => {}
            Comparison::Arguments(many) => {
                if index < count {
                    tasks.push(Task::Arguments(one, other, index, count))?;
                }
                leave_arguments(store, first, second, many, joined, tasks)?;
                return Ok(Ordering::Equal);
            }
        }
    }
}

/// Does what a task says. As far as it goes, the terms are alike where it answers that they are equal.
fn do_task<S: Primitives>(
    store: &S,
    task: Task<S::Word>,
    joined: &mut Notes<S::Word>,
    tasks: &mut Vec<Task<S::Word>>,
) -> Result<Ordering, NoMemory>
    requires pair { IsPair (S.present store.now) task }
    requires stands { Stands (S.present store.now) (S.at_place store.now) joined.old [] [] (tasks.old.items ++ task ∷ []) }
    ensures stands { IfOk result (λ o. o ≡ Ordering.Equal → Stands (S.present store.now) (S.at_place store.now) joined.new [] [] tasks.new.items) }
    ensures steps { IfOk result (λ o. o ≡ Ordering.Equal → Steps (S.present store.now) (S.present store.now) [] [] (tasks.old.items ++ task ∷ []) tasks.new.items) }
    ensures order { IfOk result (λ o. ordering_then o (order_left (S.present store.now) [] [] tasks.new.items)
        ≡ order_left (S.present store.now) [] [] (tasks.old.items ++ task ∷ [])) }
{
    match task {
        Task::Arguments(one, other, index, count) => {
            compare_arguments(store, one, other, index, count, joined, tasks)
        }
        Task::Join(one, other) => {
            join(store, one, other, joined)?;
            Ok(Ordering::Equal)
        }
    }
}

/// How two compounds of one name with so many arguments compare, with these notes, and this list for what is left to
/// do.
fn compare_alike<S: Primitives>(
    store: &S,
    one: S::Word,
    other: S::Word,
    count: usize,
    joined: &mut Notes<S::Word>,
    tasks: &mut Vec<Task<S::Word>>,
) -> Result<Ordering, NoMemory>
    requires one { Holds (S.present store.now) one }
    requires other { Holds (S.present store.now) other }
    requires comparison { IsComparison (Comparison.Arguments count) (meaning (S.present store.now) one) (meaning (S.present store.now) other) }
    requires one_term { is_term (meaning (S.present store.now) one) ≡ true }
    requires other_term { is_term (meaning (S.present store.now) other) ≡ true }
    ensures { IfOk result (λ o. o ≡ term_cmp (meaning (S.present store.now) one) (meaning (S.present store.now) other)) }
{
    joined.begin();
    tasks.clear();
    leave_arguments(store, one, other, count, joined, tasks)?;
    while let Some(task) = tasks.pop() {
        let order = do_task(store, task, joined, tasks)?;
        if order != Ordering::Equal {
            return Ok(order);
        }
    }
    Ok(Ordering::Equal)
}

/// How what the words stand for compares. The error is that memory was refused; unless both are compounds of one name
/// with as many arguments, none is asked for.
#[inline(never)]
pub(crate) fn compare<S: Primitives>(
    store: &mut S,
    one: S::Word,
    other: S::Word,
) -> Result<Ordering, NoMemory>
    requires one { Holds (S.present store.old) one }
    requires other { Holds (S.present store.old) other }
    ensures order { IfOk result (λ o. o ≡ term_cmp (meaning (S.present store.old) one) (meaning (S.present store.old) other)) }
    ensures present { S.present store.new ≡ S.present store.old }
    ensures names { S.names store.new ≡ S.names store.old }
    ensures marks { KeepsMarks (S.stands store.old) (S.stands store.new) }
{
    let count = match compare_heads(store, one, other) {
        Comparison::Decided(order) => return Ok(order),
        Comparison::Arguments(count) => count,
    };
    let mut scratch = take_scratch(store)?;
    let inside = &mut *scratch;
    let answer = compare_alike(
        store,
        one,
        other,
        count,
        &mut inside.notes.joined,
        &mut inside.tasks,
    );
    keep(store, scratch);
    answer
}
