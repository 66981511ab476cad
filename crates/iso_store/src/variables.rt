//! The variables of a term, each once, in the order of first occurrence; each compound is searched once.
ghost use Rattle.std.specs.Prelude.{◌≡◌, ℕ, ◌<◌, ◌+◌, ◌*◌, ◌∷◌, [], IfOk, OnOk, map};
ghost use Rattle.std.specs.List.{All};
ghost use Rattle.iso_model.specs.Terms.Trees.{Variable, row};
ghost use Rattle.iso_model.specs.Terms.Sizes.{size};
ghost use Rattle.iso_model.specs.Terms.Variables.{variables, distinct_from};
ghost use Rattle.iso_store_core.specs.Presents.{Holds, meaning};
ghost use Rattle.iso_store_core.specs.Arguments.{arguments_from};
ghost use Rattle.iso_store.specs.Searching.{IsThere, load};
ghost use Rattle.iso_store.specs.Listing.{IsListing, AreSeen, seen, seen_after, listing_load};

use super::notes::Notes;
use super::occurs::Task;
use super::primitives::Primitives;
use iso_model::NoMemory;
use iso_store_core::Shape;
use std::alloc::Global;
use std::mem;

/// A search for the variables of a term.
#[derive(Drop)]
struct Listing<W: Copy> {
    /// A word for each variable that was found.
    found: Vec<W>,
    /// The places of these, and of the compounds that the search is through with.
    searched: Notes<()>,
    /// What is left to do.
    tasks: Vec<Task<W>>,
}

/// Adds the variable that the word stands for if it wasn't found; a compound that was not searched is left to be.
fn list_next<S: Primitives>(
    store: &S,
    listing: &mut Listing<S::Word>,
    word: S::Word,
) -> Result<(), NoMemory>
    requires word { Holds (S.present store.now) word }
    requires listing { IsListing (S.present store.now) (S.at_place store.now) (S.variable_place store.now)
        (distinct_from (seen (S.present store.now) listing.old) (meaning (S.present store.now) word)) listing.old }
    ensures listing { OnOk result (IsListing (S.present store.now) (S.at_place store.now) (S.variable_place store.now) (seen (S.present store.now) listing.new) listing.new) }
    ensures seen { OnOk result (seen_after (S.present store.now) (seen (S.present store.now) listing.new) listing.new.tasks.items
        ≡ seen_after (S.present store.now) (distinct_from (seen (S.present store.now) listing.old) (meaning (S.present store.now) word)) listing.old.tasks.items) }
    ensures load { OnOk result (listing_load (S.present store.now) listing.new < 2 * size (meaning (S.present store.now) word) + listing_load (S.present store.now) listing.old) }
{
    let shape = store.shape(word);
    let Some(place) = store.place(word) else {
        return Ok(());
    };
    if listing.searched.at(place).is_some() {
        return Ok(());
    }
    match shape {
        Shape::Var(_) => {
            listing.searched.note(place, ())?;
            listing.found.push(word)?;
            Ok(())
        }
        Shape::Int(_) | Shape::Atom(_) => Ok(()),
        Shape::Compound(_, count) => {
            listing.tasks.push(Task::Leave(place))?;
            listing.tasks.push(Task::Search(word, 0, count))?;
            Ok(())
        }
    }
}

/// Goes through the argument at this place, and leaves those behind it; in all the compound has so many.
fn list_argument<S: Primitives>(
    store: &S,
    listing: &mut Listing<S::Word>,
    word: S::Word,
    index: usize,
    count: usize,
) -> Result<(), NoMemory>
    requires task { IsThere (S.present store.now) (Task.Search word index count) }
    requires listing { IsListing (S.present store.now) (S.at_place store.now) (S.variable_place store.now)
        (distinct_from (seen (S.present store.now) listing.old) (row (arguments_from index (meaning (S.present store.now) word)))) listing.old }
    ensures listing { OnOk result (IsListing (S.present store.now) (S.at_place store.now) (S.variable_place store.now) (seen (S.present store.now) listing.new) listing.new) }
    ensures seen { OnOk result (seen_after (S.present store.now) (seen (S.present store.now) listing.new) listing.new.tasks.items
        ≡ seen_after (S.present store.now) (distinct_from (seen (S.present store.now) listing.old) (row (arguments_from index (meaning (S.present store.now) word)))) listing.old.tasks.items) }
    ensures load { OnOk result (listing_load (S.present store.now) listing.new < load (S.present store.now) (Task.Search word index count) + listing_load (S.present store.now) listing.old) }
{
    let argument = store.arg(word, index);
    if index + 1 == count {
        return list_next(store, listing, argument);
    }
    listing.tasks.push(Task::Search(word, index + 1, count))?;
    list_next(store, listing, argument)
}

/// Does what the task says.
fn do_task<S: Primitives>(
    store: &S,
    listing: &mut Listing<S::Word>,
    task: Task<S::Word>,
) -> Result<(), NoMemory>
    requires task { IsThere (S.present store.now) task }
    requires done { AreSeen (S.present store.now) (S.at_place store.now) (seen (S.present store.now) listing.old) (task ∷ []) }
    requires listing { IsListing (S.present store.now) (S.at_place store.now) (S.variable_place store.now)
        (seen_after (S.present store.now) (seen (S.present store.now) listing.old) (task ∷ [])) listing.old }
    ensures listing { OnOk result (IsListing (S.present store.now) (S.at_place store.now) (S.variable_place store.now) (seen (S.present store.now) listing.new) listing.new) }
    ensures seen { OnOk result (seen_after (S.present store.now) (seen (S.present store.now) listing.new) listing.new.tasks.items
        ≡ seen_after (S.present store.now) (seen_after (S.present store.now) (seen (S.present store.now) listing.old) (task ∷ [])) listing.old.tasks.items) }
    ensures load { OnOk result (listing_load (S.present store.now) listing.new < load (S.present store.now) task + listing_load (S.present store.now) listing.old) }
{
    match task {
        Task::Search(word, index, count) => list_argument(store, listing, word, index, count),
        Task::Leave(place) => {
            listing.searched.note(place, ())?;
            Ok(())
        }
    }
}

/// Words for the variables of the term that the word stands for, each once, in the order of first occurrence, with
/// these notes. The error is that memory was refused.
pub(crate) fn variables_with<S: Primitives>(
    alloc: Global,
    store: &S,
    word: S::Word,
    searched: &mut Notes<()>,
) -> Result<Vec<S::Word>, NoMemory>
    requires { Holds (S.present store.now) word }
    ensures hold { IfOk result (λ ws. All (λ w. Holds (S.present store.now) w) ws.items) }
    ensures variables { IfOk result (λ ws. map (meaning (S.present store.now)) ws.items ≡ map Variable (variables (meaning (S.present store.now) word))) }
{
    searched.begin();
    let mut listing = Listing {
        found: Vec::new(alloc),
        searched: Notes::new(alloc),
        tasks: Vec::new(alloc),
    };
    mem::swap(&mut listing.searched, searched);
    list_next(store, &mut listing, word)?;
    while let Some(task) = listing.tasks.pop() {
        do_task(store, &mut listing, task)?;
    }
    mem::swap(&mut listing.searched, searched);
    Ok(listing.found)
}

/// Words for the variables of the term that the word stands for, each once, in the order of first occurrence. The
/// error is that memory was refused.
pub(crate) fn variables<S: Primitives>(
    alloc: Global,
    store: &S,
    word: S::Word,
) -> Result<Vec<S::Word>, NoMemory>
    requires { Holds (S.present store.now) word }
    ensures hold { IfOk result (λ ws. All (λ w. Holds (S.present store.now) w) ws.items) }
    ensures variables { IfOk result (λ ws. map (meaning (S.present store.now)) ws.items ≡ map Variable (variables (meaning (S.present store.now) word))) }
{
    let mut searched = Notes::new(alloc);
    variables_with(alloc, store, word, &mut searched)
}
