//! Whether a variable occurs in a term; each compound of a large one is searched once.
ghost use Rattle.std.specs.Prelude.{◌≡◌, ◌<◌, ◌+◌, ◌*◌, ◌∷◌, [], ◌++◌, IfOk, OnOk, sum_by, true, false};
ghost use Rattle.std.specs.List.{All};
ghost use Rattle.iso_model.specs.Terms.Trees.{row};
ghost use Rattle.iso_model.specs.Terms.Sizes.{size};
ghost use Rattle.iso_model.specs.Terms.Variables.{occurs};
ghost use Rattle.iso_store_core.specs.Presents.{Holds, meaning};
ghost use Rattle.iso_store_core.specs.Arguments.{arguments_from};
ghost use Rattle.iso_store.specs.Searching.{IsThere, IsClear, AreSound, found, load};

use super::few::in_few;
use super::notes::Notes;
use super::primitives::Primitives;
use iso_model::NoMemory;
use iso_store_core::Shape;

/// What is left to do of a search.
#[derive(Clone, Copy)]
pub(crate) enum Task<W: Copy> {
    /// The arguments of the compound that the word stands for are to be searched, from this place on; in all it has
    /// so many.
    Search(W, usize, usize),
    /// All that stands at the place was searched.
    Leave(usize),
}

/// Whether the word stands for the variable; a compound that was not searched is left to be.
fn look_into<S: Primitives>(
    store: &S,
    number: u64,
    word: S::Word,
    searched: &Notes<()>,
    tasks: &mut Vec<Task<S::Word>>,
) -> Result<bool, NoMemory>
    requires word { Holds (S.present store.now) word }
    requires clear { IsClear (S.at_place store.now) number searched.now }
    requires there { All (IsThere (S.present store.now)) tasks.old.items }
    requires sound { AreSound (S.present store.now) (S.at_place store.now) number (occurs number (meaning (S.present store.now) word)) tasks.old.items }
    ensures there { OnOk result (All (IsThere (S.present store.now)) tasks.new.items) }
    ensures sound { IfOk result (λ b. AreSound (S.present store.now) (S.at_place store.now) number b tasks.new.items) }
    ensures found { IfOk result (λ b. found (S.present store.now) (S.at_place store.now) number b tasks.new.items
        ≡ found (S.present store.now) (S.at_place store.now) number (occurs number (meaning (S.present store.now) word)) tasks.old.items) }
    ensures load { OnOk result (sum_by (load (S.present store.now)) tasks.new.items < 2 * size (meaning (S.present store.now) word) + sum_by (load (S.present store.now)) tasks.old.items) }
{
    match store.shape(word) {
        Shape::Var(other) => Ok(other == number),
        Shape::Int(_) | Shape::Atom(_) => Ok(false),
        Shape::Compound(_, count) => {
            let Some(place) = store.place(word) else {
                unreachable!()
            };
            if searched.at(place).is_some() {
                return Ok(false);
            }
            tasks.push(Task::Leave(place))?;
            tasks.push(Task::Search(word, 0, count))?;
            Ok(false)
        }
    }
}

/// Searches the argument at this place, and leaves those behind it; in all the compound has so many.
fn search_argument<S: Primitives>(
    store: &S,
    number: u64,
    word: S::Word,
    index: usize,
    count: usize,
    searched: &Notes<()>,
    tasks: &mut Vec<Task<S::Word>>,
) -> Result<bool, NoMemory>
    requires task { IsThere (S.present store.now) (Task.Search word index count) }
    requires clear { IsClear (S.at_place store.now) number searched.now }
    requires there { All (IsThere (S.present store.now)) tasks.old.items }
    requires sound { AreSound (S.present store.now) (S.at_place store.now) number (occurs number (row (arguments_from index (meaning (S.present store.now) word)))) tasks.old.items }
    ensures there { OnOk result (All (IsThere (S.present store.now)) tasks.new.items) }
    ensures sound { IfOk result (λ b. AreSound (S.present store.now) (S.at_place store.now) number b tasks.new.items) }
    ensures found { IfOk result (λ b. found (S.present store.now) (S.at_place store.now) number b tasks.new.items
        ≡ found (S.present store.now) (S.at_place store.now) number (occurs number (row (arguments_from index (meaning (S.present store.now) word)))) tasks.old.items) }
    ensures load { OnOk result (sum_by (load (S.present store.now)) tasks.new.items
        < load (S.present store.now) (Task.Search word index count) + sum_by (load (S.present store.now)) tasks.old.items) }
{
    let argument = store.arg(word, index);
    if index + 1 == count {
        return look_into(store, number, argument, searched, tasks);
    }
    tasks.push(Task::Search(word, index + 1, count))?;
    look_into(store, number, argument, searched, tasks)
}

/// Does what a task says; true where the variable is found.
fn do_task<S: Primitives>(
    store: &S,
    number: u64,
    task: Task<S::Word>,
    searched: &mut Notes<()>,
    tasks: &mut Vec<Task<S::Word>>,
) -> Result<bool, NoMemory>
    requires task { IsThere (S.present store.now) task }
    requires clear { IsClear (S.at_place store.now) number searched.old }
    requires there { All (IsThere (S.present store.now)) tasks.old.items }
    requires sound { AreSound (S.present store.now) (S.at_place store.now) number false (tasks.old.items ++ task ∷ []) }
    ensures clear { OnOk result (IsClear (S.at_place store.now) number searched.new) }
    ensures there { OnOk result (All (IsThere (S.present store.now)) tasks.new.items) }
    ensures sound { IfOk result (λ b. AreSound (S.present store.now) (S.at_place store.now) number b tasks.new.items) }
    ensures found { IfOk result (λ b. found (S.present store.now) (S.at_place store.now) number b tasks.new.items
        ≡ found (S.present store.now) (S.at_place store.now) number false (tasks.old.items ++ task ∷ [])) }
    ensures load { OnOk result (sum_by (load (S.present store.now)) tasks.new.items < load (S.present store.now) task + sum_by (load (S.present store.now)) tasks.old.items) }
{
    match task {
        Task::Search(word, index, count) => {
            search_argument(store, number, word, index, count, searched, tasks)
        }
        Task::Leave(place) => {
            searched.note(place, ())?;
            Ok(false)
        }
    }
}

/// Whether the variable of this number occurs in what the word stands for, with this list for what is left to do. The
/// error is that memory was refused.
#[inline(never)]
pub(crate) fn occurs<S: Primitives>(
    store: &S,
    number: u64,
    word: S::Word,
    searched: &mut Notes<()>,
    tasks: &mut Vec<Task<S::Word>>,
) -> Result<bool, NoMemory>
    requires { Holds (S.present store.now) word }
    ensures { IfOk result (λ b. b ≡ occurs number (meaning (S.present store.now) word)) }
{
    if let Some(found) = in_few(store, number, word, tasks)? {
        return Ok(found);
    }
    searched.begin();
    tasks.clear();
    if look_into(store, number, word, searched, tasks)? {
        return Ok(true);
    }
    while let Some(task) = tasks.pop() {
        if do_task(store, number, task, searched, tasks)? {
            return Ok(true);
        }
    }
    Ok(false)
}
