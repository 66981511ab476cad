//! Unification (ISO/IEC 13211-1:1995, 7.3.4), with the check that no variable occurs in its own value (own). Terms
//! are gone through by a list of tasks, and two words that came to stand for one term are joined: so no pair of
//! subterms that are shared is gone through again.
ghost use Rattle.std.specs.Prelude.{◌≡◌, ◌≢◌, ℕ, ◌+◌, ◌<◌, ◌≤◌, ◌∷◌, [], ◌++◌, IfOk, OnOk, MatchBool, IsTrue, if◌then◌else◌, true, false};
ghost use Rattle.std.specs.List.{All};
ghost use Rattle.iso_model.specs.Terms.Trees.{Variable, row};
ghost use Rattle.iso_model.specs.Terms.Sorts.{is_term};
ghost use Rattle.iso_model.specs.Terms.Variables.{occurs};
ghost use Rattle.iso_model.specs.Terms.Unifiers.{NeverEqual};
ghost use Rattle.iso_store_core.specs.Presents.{Holds, meaning, IsUnification, Grows, KeepsMarks};
ghost use Rattle.iso_store.specs.Meetings.{IsYounger, IsMeeting};
ghost use Rattle.iso_store.specs.Met.{IsMet};
ghost use Rattle.iso_store.specs.Unifying.{IsPair, AreJoined, Stands, Steps, ones, others};
ghost use Rattle.iso_store.specs.Comparing.{order_left};

use super::joins::{are_at_one_place, end_of_joins, join};
use super::meetings::{Meeting, meet};
use super::notes::Notes;
use super::occurs::occurs;
use super::primitives::Primitives;
use super::scratch::{UnifyNotes, keep, take_scratch};
use iso_model::NoMemory;
use iso_store_core::{Shape, StoreFault};

/// What is left to do of making two terms equal.
#[derive(Clone, Copy)]
pub(crate) enum Task<W: Copy> {
    /// The arguments of the compounds that the words stand for are to be made equal, from this place on; each has so
    /// many.
    Arguments(W, W, usize, usize),
    /// The words stand for one term, as all arguments are equal that are made so before this task.
    Join(W, W),
}

/// What came of two terms that were to be made equal.
#[derive(Clone, Copy)]
enum Met {
    /// They are equal.
    Equal,
    /// Nothing makes them equal.
    Never,
    /// Compounds of one name, with so many arguments, which are to be made equal.
    Compounds(usize),
}

/// Whether the word stands for a compound. Else no variable that may be bound to it occurs in it.
#[inline(always)]
fn is_compound<S: Primitives>(store: &S, word: S::Word) -> bool
    requires { Holds (S.present store.now) word }
    ensures { result ≡ false → (number : ℕ) → IsYounger number (meaning (S.present store.now) word)
        → occurs number (meaning (S.present store.now) word) ≡ false }
{
    match store.shape(word) {
        Shape::Compound(_, _) => true,
        Shape::Var(_) | Shape::Int(_) | Shape::Atom(_) => false,
    }
}

/// Whether the unbound variable of this number, which may be bound to what the other word stands for, occurs there; it
/// is searched only where it is not clear without.
#[inline(always)]
fn occurs_for<S: Primitives>(
    store: &S,
    number: u64,
    variable: S::Word,
    word: S::Word,
    notes: &mut UnifyNotes<S::Word>,
) -> Result<bool, NoMemory>
    requires variable_holds { Holds (S.present store.now) variable }
    requires word_holds { Holds (S.present store.now) word }
    requires variable { meaning (S.present store.now) variable ≡ Variable number }
    requires younger { IsYounger number (meaning (S.present store.now) word) }
    ensures occurs { IfOk result (λ b. b ≡ occurs number (meaning (S.present store.now) word)) }
    ensures joined { notes.new.joined ≡ notes.old.joined }
{
    if !is_compound(store, word) || store.is_apart(variable, word) {
        return Ok(false);
    }
    occurs(
        store,
        number,
        word,
        &mut notes.searched,
        &mut notes.searches,
    )
}

/// Binds the variable of this number to what the other word stands for, unless it occurs there.
#[inline(never)]
fn bind_checked<S: Primitives>(
    store: &mut S,
    number: u64,
    variable: S::Word,
    word: S::Word,
    notes: &mut UnifyNotes<S::Word>,
) -> Result<bool, StoreFault>
    requires variable_holds { Holds (S.present store.old) variable }
    requires word_holds { Holds (S.present store.old) word }
    requires variable { meaning (S.present store.old) variable ≡ Variable number }
    requires younger { IsYounger number (meaning (S.present store.old) word) }
    ensures unified { IfOk result (IsUnification (S.present store.old) (S.present store.new) (meaning (S.present store.old) variable) (meaning (S.present store.old) word)) }
    ensures joined { AreJoined (S.present store.old) (S.at_place store.old) notes.old.joined
        → IfOk result (λ answer. IsTrue answer → AreJoined (S.present store.new) (S.at_place store.new) notes.new.joined) }
    ensures cells { Grows (S.present store.old) (S.present store.new) 0 0 }
    ensures full { result ≡ Err StoreFault.Full → S.full store.new }
    ensures names { S.names store.new ≡ S.names store.old }
    ensures marks { KeepsMarks (S.stands store.old) (S.stands store.new) }
{
    if occurs_for(store, number, variable, word, notes)? {
        return Ok(false);
    }
    store.bind(number, variable, word)?;
    Ok(true)
}

/// What came of two terms where a variable was to be bound to the other.
#[inline(always)]
fn met_by(bound: bool) -> Met
    ensures { result ≡ (if bound then Met.Equal else Met.Never) }
{
    if bound { Met::Equal } else { Met::Never }
}

/// Makes what the words stand for equal, where no arguments have to be for it. The words are at the end of their
/// bindings.
#[inline(always)]
fn meet_ends<S: Primitives>(
    store: &mut S,
    one: S::Word,
    other: S::Word,
    notes: &mut UnifyNotes<S::Word>,
) -> Result<Met, StoreFault>
    requires one { Holds (S.present store.old) one }
    requires other { Holds (S.present store.old) other }
    requires one_end { S.at_end store.old one }
    requires other_end { S.at_end store.old other }
    ensures met { IfOk result (IsMet (S.present store.old) (S.present store.new) (meaning (S.present store.old) one) (meaning (S.present store.old) other)) }
    ensures joined { AreJoined (S.present store.old) (S.at_place store.old) notes.old.joined
        → IfOk result (λ met. met ≢ Met.Never → AreJoined (S.present store.new) (S.at_place store.new) notes.new.joined) }
    ensures cells { Grows (S.present store.old) (S.present store.new) 0 0 }
    ensures full { result ≡ Err StoreFault.Full → S.full store.new }
    ensures names { S.names store.new ≡ S.names store.old }
    ensures marks { KeepsMarks (S.stands store.old) (S.stands store.new) }
{
    match store.meet_ends(one, other)? {
        Meeting::Same => Ok(Met::Equal),
        Meeting::Clash => Ok(Met::Never),
        Meeting::FirstVariable(number) => {
            Ok(met_by(bind_checked(store, number, one, other, notes)?))
        }
        Meeting::SecondVariable(number) => {
            Ok(met_by(bind_checked(store, number, other, one, notes)?))
        }
        Meeting::Arguments(count) => Ok(Met::Compounds(count)),
    }
}

/// Leaves two compounds of so many arguments to be made equal, unless they are joined; they will be, where anything
/// is left behind them.
pub(crate) fn leave_arguments<S: Primitives>(
    store: &S,
    one: S::Word,
    other: S::Word,
    count: usize,
    joined: &mut Notes<S::Word>,
    tasks: &mut Vec<Task<S::Word>>,
) -> Result<(), NoMemory>
    requires one { Holds (S.present store.now) one }
    requires other { Holds (S.present store.now) other }
    requires meeting { IsMeeting (Meeting.Arguments count) (meaning (S.present store.now) one) (meaning (S.present store.now) other) }
    requires one_term { is_term (meaning (S.present store.now) one) ≡ true }
    requires other_term { is_term (meaning (S.present store.now) other) ≡ true }
    requires stands { Stands (S.present store.now) (S.at_place store.now) joined.old (meaning (S.present store.now) one ∷ []) (meaning (S.present store.now) other ∷ []) tasks.old.items }
    ensures stands { OnOk result (Stands (S.present store.now) (S.at_place store.now) joined.new [] [] tasks.new.items) }
    ensures steps { OnOk result (Steps (S.present store.now) (S.present store.now) (meaning (S.present store.now) one ∷ []) (meaning (S.present store.now) other ∷ []) tasks.old.items tasks.new.items) }
    ensures order { OnOk result (order_left (S.present store.now) [] [] tasks.new.items
        ≡ order_left (S.present store.now) (meaning (S.present store.now) one ∷ []) (meaning (S.present store.now) other ∷ []) tasks.old.items) }
{
    let one = end_of_joins(store, one, joined);
    let other = end_of_joins(store, other, joined);
    if are_at_one_place(store, one, other) {
        return Ok(());
    }
    if tasks.is_empty() {
        tasks.push(Task::Arguments(one, other, 0, count))?;
        return Ok(());
    }
    tasks.push(Task::Join(one, other))?;
    tasks.push(Task::Arguments(one, other, 0, count))?;
    Ok(())
}

/// Makes the arguments from this place on equal, up to the first that are both compounds; these are left to be made
/// equal, and the arguments behind them. Each compound has so many. False where nothing makes them equal.
fn unify_arguments<S: Primitives>(
    store: &mut S,
    one: S::Word,
    other: S::Word,
    index: usize,
    count: usize,
    notes: &mut UnifyNotes<S::Word>,
    tasks: &mut Vec<Task<S::Word>>,
) -> Result<bool, StoreFault>
    requires pair { IsPair (S.present store.old) (Task.Arguments one other index count) }
    requires stands { Stands (S.present store.old) (S.at_place store.old) notes.old.joined [] [] (tasks.old.items ++ Task.Arguments one other index count ∷ []) }
    ensures stands { IfOk result (λ answer. IsTrue answer → Stands (S.present store.new) (S.at_place store.new) notes.new.joined [] [] tasks.new.items) }
    ensures steps { IfOk result (λ answer. MatchBool answer
        (Steps (S.present store.old) (S.present store.new) [] [] (tasks.old.items ++ Task.Arguments one other index count ∷ []) tasks.new.items)
        (NeverEqual (row (ones (S.present store.old) [] (tasks.old.items ++ Task.Arguments one other index count ∷ [])))
        (row (others (S.present store.old) [] (tasks.old.items ++ Task.Arguments one other index count ∷ []))))) }
    ensures cells { Grows (S.present store.old) (S.present store.new) 0 0 }
    ensures full { result ≡ Err StoreFault.Full → S.full store.new }
    ensures names { S.names store.new ≡ S.names store.old }
    ensures marks { KeepsMarks (S.stands store.old) (S.stands store.new) }
{
    let one_end = store.end(one);
    let other_end = store.end(other);
    let mut index = index;
    'meeting: loop {
        let first = store.end_of_arg(one_end, count, index);
        let second = store.end_of_arg(other_end, count, index);
        index += 1;
        match meet_ends(store, first, second, notes)? {
            Met::Equal if index == count => return Ok(true),
            Met::Equal => {}
            Met::Never => return Ok(false),
            Met::Compounds(many) => {
                if index < count {
                    tasks.push(Task::Arguments(one, other, index, count))?;
                }
                leave_arguments(store, first, second, many, &mut notes.joined, tasks)?;
                return Ok(true);
            }
        }
    }
}

/// Does what a task says. False where nothing makes its terms equal.
fn do_task<S: Primitives>(
    store: &mut S,
    task: Task<S::Word>,
    notes: &mut UnifyNotes<S::Word>,
    tasks: &mut Vec<Task<S::Word>>,
) -> Result<bool, StoreFault>
    requires pair { IsPair (S.present store.old) task }
    requires stands { Stands (S.present store.old) (S.at_place store.old) notes.old.joined [] [] (tasks.old.items ++ task ∷ []) }
    ensures stands { IfOk result (λ answer. IsTrue answer → Stands (S.present store.new) (S.at_place store.new) notes.new.joined [] [] tasks.new.items) }
    ensures steps { IfOk result (λ answer. MatchBool answer
        (Steps (S.present store.old) (S.present store.new) [] [] (tasks.old.items ++ task ∷ []) tasks.new.items)
        (NeverEqual (row (ones (S.present store.old) [] (tasks.old.items ++ task ∷ []))) (row (others (S.present store.old) [] (tasks.old.items ++ task ∷ []))))) }
    ensures cells { Grows (S.present store.old) (S.present store.new) 0 0 }
    ensures full { result ≡ Err StoreFault.Full → S.full store.new }
    ensures names { S.names store.new ≡ S.names store.old }
    ensures marks { KeepsMarks (S.stands store.old) (S.stands store.new) }
{
    match task {
        Task::Arguments(one, other, index, count) => {
            unify_arguments(store, one, other, index, count, notes, tasks)
        }
        Task::Join(one, other) => {
            join(store, one, other, &mut notes.joined)?;
            Ok(true)
        }
    }
}

/// Whether two compounds of one name with so many arguments can be made equal, which then is bound, with these notes,
/// and this list for what is left to do.
#[inline(always)]
fn unify_compounds<S: Primitives>(
    store: &mut S,
    one: S::Word,
    other: S::Word,
    count: usize,
    notes: &mut UnifyNotes<S::Word>,
    tasks: &mut Vec<Task<S::Word>>,
) -> Result<bool, StoreFault>
    requires one { Holds (S.present store.old) one }
    requires other { Holds (S.present store.old) other }
    requires meeting { IsMeeting (Meeting.Arguments count) (meaning (S.present store.old) one) (meaning (S.present store.old) other) }
    requires one_term { is_term (meaning (S.present store.old) one) ≡ true }
    requires other_term { is_term (meaning (S.present store.old) other) ≡ true }
    ensures unified { IfOk result (IsUnification (S.present store.old) (S.present store.new) (meaning (S.present store.old) one) (meaning (S.present store.old) other)) }
    ensures cells { Grows (S.present store.old) (S.present store.new) 0 0 }
    ensures full { result ≡ Err StoreFault.Full → S.full store.new }
    ensures names { S.names store.new ≡ S.names store.old }
    ensures marks { KeepsMarks (S.stands store.old) (S.stands store.new) }
{
    notes.joined.begin();
    tasks.clear();
    let mut task = Task::Arguments(one, other, 0, count);
    'working: loop {
        if !do_task(store, task, notes, tasks)? {
            return Ok(false);
        }
        let Some(next) = tasks.pop() else {
            return Ok(true);
        };
        task = next;
    }
}

/// Whether what the words stand for can be made equal, which then is bound, with these notes, and this list for what
/// is left to do.
pub(crate) fn unify_with<S: Primitives>(
    store: &mut S,
    one: S::Word,
    other: S::Word,
    notes: &mut UnifyNotes<S::Word>,
    tasks: &mut Vec<Task<S::Word>>,
) -> Result<bool, StoreFault>
    requires one { Holds (S.present store.old) one }
    requires other { Holds (S.present store.old) other }
    ensures unified { IfOk result (IsUnification (S.present store.old) (S.present store.new) (meaning (S.present store.old) one) (meaning (S.present store.old) other)) }
    ensures cells { Grows (S.present store.old) (S.present store.new) 0 0 }
    ensures full { result ≡ Err StoreFault.Full → S.full store.new }
    ensures names { S.names store.new ≡ S.names store.old }
    ensures marks { KeepsMarks (S.stands store.old) (S.stands store.new) }
{
    let one = store.end(one);
    let other = store.end(other);
    match meet_ends(store, one, other, notes)? {
        Met::Equal => Ok(true),
        Met::Never => Ok(false),
        Met::Compounds(count) => unify_compounds(store, one, other, count, notes, tasks),
    }
}

/// Whether the word stands for an integer or an atom.
fn is_constant<S: Primitives>(store: &S, word: S::Word) -> bool
    requires { Holds (S.present store.now) word }
    ensures { result ≡ true → (number : ℕ) → occurs number (meaning (S.present store.now) word) ≡ false }
{
    match store.shape(word) {
        Shape::Int(_) | Shape::Atom(_) => true,
        Shape::Var(_) | Shape::Compound(_, _) => false,
    }
}

/// Binds the variable of this number to the constant that the other word stands for.
fn bind_constant<S: Primitives>(
    store: &mut S,
    number: u64,
    variable: S::Word,
    word: S::Word,
) -> Result<bool, StoreFault>
    requires variable_holds { Holds (S.present store.old) variable }
    requires word_holds { Holds (S.present store.old) word }
    requires variable { meaning (S.present store.old) variable ≡ Variable number }
    requires absent { occurs number (meaning (S.present store.old) word) ≡ false }
    requires younger { IsYounger number (meaning (S.present store.old) word) }
    ensures unified { IfOk result (IsUnification (S.present store.old) (S.present store.new) (meaning (S.present store.old) variable) (meaning (S.present store.old) word)) }
    ensures cells { Grows (S.present store.old) (S.present store.new) 0 0 }
    ensures full { result ≡ Err StoreFault.Full → S.full store.new }
    ensures names { S.names store.new ≡ S.names store.old }
    ensures marks { KeepsMarks (S.stands store.old) (S.stands store.new) }
{
    store.bind(number, variable, word)?;
    Ok(true)
}

/// As `unify_with`; where the first word stands for an unbound variable, it is bound at once.
pub(crate) fn unify_made<S: Primitives>(
    store: &mut S,
    one: S::Word,
    other: S::Word,
    notes: &mut UnifyNotes<S::Word>,
    tasks: &mut Vec<Task<S::Word>>,
) -> Result<bool, StoreFault>
    requires one { Holds (S.present store.old) one }
    requires other { Holds (S.present store.old) other }
    ensures unified { IfOk result (IsUnification (S.present store.old) (S.present store.new) (meaning (S.present store.old) one) (meaning (S.present store.old) other)) }
    ensures cells { Grows (S.present store.old) (S.present store.new) 0 0 }
    ensures full { result ≡ Err StoreFault.Full → S.full store.new }
    ensures names { S.names store.new ≡ S.names store.old }
    ensures marks { KeepsMarks (S.stands store.old) (S.stands store.new) }
{
    match meet(store.shape(one), store.shape(other)) {
        Meeting::FirstVariable(number) if is_constant(store, other) => {
            bind_constant(store, number, one, other)
        }
        Meeting::FirstVariable(number) => bind_checked(store, number, one, other, notes),
        _ => unify_with(store, one, other, notes, tasks),
    }
}

/// Whether what the words stand for can be made equal, which then is bound.
pub(crate) fn unify<S: Primitives>(
    store: &mut S,
    first: S::Word,
    second: S::Word,
) -> Result<bool, StoreFault>
    requires first { Holds (S.present store.old) first }
    requires second { Holds (S.present store.old) second }
    ensures unified { IfOk result (IsUnification (S.present store.old) (S.present store.new) (meaning (S.present store.old) first) (meaning (S.present store.old) second)) }
    ensures cells { Grows (S.present store.old) (S.present store.new) 0 0 }
    ensures full { result ≡ Err StoreFault.Full → S.full store.new }
    ensures names { S.names store.new ≡ S.names store.old }
    ensures marks { KeepsMarks (S.stands store.old) (S.stands store.new) }
{
    let mut scratch = take_scratch(store)?;
    let inside = &mut *scratch;
    let answer = unify_with(store, first, second, &mut inside.notes, &mut inside.tasks);
    keep(store, scratch);
    answer
}
