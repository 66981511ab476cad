//! Plans of copies: what stands at one place is planned once, and is known from then on.
ghost use Rattle.std.specs.Prelude.{◌≡◌, ℕ, ◌+◌, ◌<◌, ◌≤◌, ◌*◌, ◌∷◌, [], ◌++◌, Some, IsSome, IfOk, OnOk, length, map, slice_get, true};
ghost use Rattle.std.specs.List.{All};
ghost use Rattle.iso_model.specs.Terms.Trees.{Variable};
ghost use Rattle.iso_model.specs.Terms.Sizes.{size};
ghost use Rattle.iso_model.specs.Terms.Building.{with_step, with_steps, step_load, steps_load};
ghost use Rattle.iso_model.specs.Terms.Variables.{variables, is_in};
ghost use Rattle.iso_model.specs.Terms.Unification.Listed.{Covers};
ghost use Rattle.iso_store_core.specs.Presents.{Holds, meaning};
ghost use Rattle.iso_store.specs.Notes.{noted};
ghost use Rattle.iso_store.specs.Plans.{IsPlan};
ghost use Rattle.iso_store.specs.Planning.{IsPlanning, IsTask, AreDue, numbers_of, numbers, planned, step_of, steps_of};

use super::notes::Notes;
use super::primitives::Primitives;
use iso_atoms::Atom;
use iso_model::NoMemory;
use iso_store_core::{Part, Shape};
use std::alloc::Global;
use std::mem;

/// The most variables of a term that is copied; one with more is refused as memory is.
pub(crate) const MOST_VARIABLES: usize = 536_870_912;

/// What is left to do of planning a copy.
#[derive(Clone, Copy)]
enum Task<W: Copy> {
    /// The arguments of the compound that the word stands for are to be planned, from this place on; in all it has so
    /// many.
    Plan(W, usize, usize),
    /// A compound of this name is to be made of the last terms, so many. It stands at this place.
    Make(Atom, usize, usize),
}

/// A plan of a copy, as far as it goes. Its part `Variable` is the term at that place among those that are known: the
/// variables, and then each compound that the plan makes.
#[derive(Drop)]
struct Planning<W: Copy> {
    /// Words for the variables.
    variables: Vec<W>,
    /// What is to be done.
    parts: Vec<Part>,
    /// How many compounds the parts make.
    made: usize,
    /// For the place of a term that is known, its place among these.
    known: Notes<usize>,
    /// What is left to do.
    tasks: Vec<Task<W>>,
}

/// Plans the copy of what the word stands for, where that is no compound or one that is known; another is left to be
/// planned by its arguments.
fn plan_next<S: Primitives>(
    store: &S,
    planning: &mut Planning<S::Word>,
    word: S::Word,
) -> Result<(), NoMemory>
    requires word { Holds (S.present store.now) word }
    requires covered { Covers (numbers (S.present store.now) planning.old) (meaning (S.present store.now) word) }
    requires planning { IsPlanning (S.present store.now) (S.names store.now) (S.at_place store.now) (S.variable_place store.now)
        ((planned (S.present store.now) (S.names store.now) planning.old).terms ++ meaning (S.present store.now) word ∷ []) planning.old }
    ensures planning { OnOk result (IsPlanning (S.present store.now) (S.names store.now) (S.at_place store.now) (S.variable_place store.now)
        (planned (S.present store.now) (S.names store.now) planning.new).terms planning.new) }
    ensures steps { OnOk result (with_steps (steps_of (S.present store.now) (S.names store.now) planning.new.tasks.items) (planned (S.present store.now) (S.names store.now) planning.new).terms
        ≡ with_steps (steps_of (S.present store.now) (S.names store.now) planning.old.tasks.items)
        ((planned (S.present store.now) (S.names store.now) planning.old).terms ++ meaning (S.present store.now) word ∷ [])) }
    ensures load { OnOk result (steps_load (steps_of (S.present store.now) (S.names store.now) planning.new.tasks.items)
        < 2 * size (meaning (S.present store.now) word) + steps_load (steps_of (S.present store.now) (S.names store.now) planning.old.tasks.items)) }
    ensures variables { planning.new.variables ≡ planning.old.variables }
{
    match store.shape(word) {
        Shape::Int(value) => {
            planning.parts.push(Part::Integer(value))?;
            Ok(())
        }
        Shape::Atom(name) => {
            planning.parts.push(Part::Atom(name))?;
            Ok(())
        }
        Shape::Var(_) => {
            let Some(place) = store.place(word) else {
                unreachable!()
            };
            let Some(index) = planning.known.at(place) else {
                unreachable!()
            };
            planning.parts.push(Part::Variable(index))?;
            Ok(())
        }
        Shape::Compound(name, count) => {
            let Some(place) = store.place(word) else {
                unreachable!()
            };
            if let Some(index) = planning.known.at(place) {
                planning.parts.push(Part::Variable(index))?;
                return Ok(());
            }
            planning.tasks.push(Task::Make(name, count, place))?;
            planning.tasks.push(Task::Plan(word, 0, count))?;
            Ok(())
        }
    }
}

/// Plans the argument at this place, and leaves those behind it; in all the compound has so many.
fn plan_argument<S: Primitives>(
    store: &S,
    planning: &mut Planning<S::Word>,
    word: S::Word,
    index: usize,
    count: usize,
) -> Result<(), NoMemory>
    requires task { IsTask (S.present store.now) (S.names store.now) (numbers (S.present store.now) planning.old) (Task.Plan word index count) }
    requires planning { IsPlanning (S.present store.now) (S.names store.now) (S.at_place store.now) (S.variable_place store.now)
        (with_step (step_of (S.present store.now) (S.names store.now) (Task.Plan word index count)) (planned (S.present store.now) (S.names store.now) planning.old).terms) planning.old }
    ensures planning { OnOk result (IsPlanning (S.present store.now) (S.names store.now) (S.at_place store.now) (S.variable_place store.now)
        (planned (S.present store.now) (S.names store.now) planning.new).terms planning.new) }
    ensures steps { OnOk result (with_steps (steps_of (S.present store.now) (S.names store.now) planning.new.tasks.items) (planned (S.present store.now) (S.names store.now) planning.new).terms
        ≡ with_steps (steps_of (S.present store.now) (S.names store.now) planning.old.tasks.items)
        (with_step (step_of (S.present store.now) (S.names store.now) (Task.Plan word index count)) (planned (S.present store.now) (S.names store.now) planning.old).terms)) }
    ensures load { OnOk result (steps_load (steps_of (S.present store.now) (S.names store.now) planning.new.tasks.items)
        < step_load (step_of (S.present store.now) (S.names store.now) (Task.Plan word index count)) + steps_load (steps_of (S.present store.now) (S.names store.now) planning.old.tasks.items)) }
    ensures variables { planning.new.variables ≡ planning.old.variables }
{
    let argument = store.arg(word, index);
    if index + 1 == count {
        return plan_next(store, planning, argument);
    }
    planning.tasks.push(Task::Plan(word, index + 1, count))?;
    plan_next(store, planning, argument)
}

/// Plans a compound of the last terms, so many, which is known from then on, as what stands at this place.
fn plan_made<S: Primitives>(
    store: &S,
    planning: &mut Planning<S::Word>,
    name: Atom,
    count: usize,
    place: usize,
) -> Result<(), NoMemory>
    requires task { IsTask (S.present store.now) (S.names store.now) (numbers (S.present store.now) planning.old) (Task.Make name count place) }
    requires due { AreDue (S.present store.now) (S.names store.now) (S.at_place store.now) (planned (S.present store.now) (S.names store.now) planning.old).terms (Task.Make name count place ∷ []) }
    requires planning { IsPlanning (S.present store.now) (S.names store.now) (S.at_place store.now) (S.variable_place store.now)
        (with_step (step_of (S.present store.now) (S.names store.now) (Task.Make name count place)) (planned (S.present store.now) (S.names store.now) planning.old).terms) planning.old }
    ensures planning { OnOk result (IsPlanning (S.present store.now) (S.names store.now) (S.at_place store.now) (S.variable_place store.now)
        (planned (S.present store.now) (S.names store.now) planning.new).terms planning.new) }
    ensures terms { OnOk result ((planned (S.present store.now) (S.names store.now) planning.new).terms
        ≡ with_step (step_of (S.present store.now) (S.names store.now) (Task.Make name count place)) (planned (S.present store.now) (S.names store.now) planning.old).terms) }
    ensures tasks { planning.new.tasks ≡ planning.old.tasks }
    ensures variables { planning.new.variables ≡ planning.old.variables }
{
    let index = planning.variables.len() + planning.made;
    planning.parts.push(Part::Compound(name, count))?;
    planning.made += 1;
    planning.known.note(place, index)?;
    Ok(())
}

/// Does what the task says.
fn do_task<S: Primitives>(
    store: &S,
    planning: &mut Planning<S::Word>,
    task: Task<S::Word>,
) -> Result<(), NoMemory>
    requires task { IsTask (S.present store.now) (S.names store.now) (numbers (S.present store.now) planning.old) task }
    requires due { AreDue (S.present store.now) (S.names store.now) (S.at_place store.now) (planned (S.present store.now) (S.names store.now) planning.old).terms (task ∷ []) }
    requires planning { IsPlanning (S.present store.now) (S.names store.now) (S.at_place store.now) (S.variable_place store.now)
        (with_step (step_of (S.present store.now) (S.names store.now) task) (planned (S.present store.now) (S.names store.now) planning.old).terms) planning.old }
    ensures planning { OnOk result (IsPlanning (S.present store.now) (S.names store.now) (S.at_place store.now) (S.variable_place store.now)
        (planned (S.present store.now) (S.names store.now) planning.new).terms planning.new) }
    ensures steps { OnOk result (with_steps (steps_of (S.present store.now) (S.names store.now) planning.new.tasks.items) (planned (S.present store.now) (S.names store.now) planning.new).terms
        ≡ with_steps (steps_of (S.present store.now) (S.names store.now) planning.old.tasks.items)
        (with_step (step_of (S.present store.now) (S.names store.now) task) (planned (S.present store.now) (S.names store.now) planning.old).terms)) }
    ensures load { OnOk result (steps_load (steps_of (S.present store.now) (S.names store.now) planning.new.tasks.items)
        < step_load (step_of (S.present store.now) (S.names store.now) task) + steps_load (steps_of (S.present store.now) (S.names store.now) planning.old.tasks.items)) }
    ensures variables { planning.new.variables ≡ planning.old.variables }
{
    match task {
        Task::Plan(word, index, count) => plan_argument(store, planning, word, index, count),
        Task::Make(name, count, place) => plan_made(store, planning, name, count, place),
    }
}

/// Notes of the place of each of these variables its place among them, and nothing else. The error is that memory was
/// refused.
fn place_variables<S: Primitives>(
    store: &S,
    variables: &[S::Word],
    places: &mut Notes<usize>,
) -> Result<(), NoMemory>
    requires hold { All (λ w. Holds (S.present store.now) w) variables.now }
    requires variables { map (meaning (S.present store.now)) variables.now ≡ map Variable (numbers_of (S.present store.now) variables.now) }
    ensures sound { OnOk result ((k i : ℕ) → noted places.new k ≡ Some i → slice_get (map (meaning (S.present store.now)) variables.now) i ≡ Some (S.at_place store.now k)) }
    ensures known { OnOk result ((n : ℕ) → is_in n (numbers_of (S.present store.now) variables.now) ≡ true → IsSome (noted places.new (S.variable_place store.now n))) }
{
    places.begin();
    for index in 0..variables.len() {
        let Some(place) = store.place(variables[index]) else {
            unreachable!()
        };
        places.note(place, index)?;
    }
    Ok(())
}

/// A plan of the copy of the term that the word stands for, with these notes. `words` are those for its variables.
/// The error is that memory was refused.
pub(crate) fn plan<S: Primitives>(
    alloc: Global,
    store: &S,
    word: S::Word,
    words: Vec<S::Word>,
    known: &mut Notes<usize>,
) -> Result<Vec<Part>, NoMemory>
    requires word { Holds (S.present store.now) word }
    requires hold { All (λ w. Holds (S.present store.now) w) words.items }
    requires variables { map (meaning (S.present store.now)) words.items ≡ map Variable (variables (meaning (S.present store.now) word)) }
    requires few { length words.items ≤ 536870912 }
    ensures { IfOk result (λ parts. IsPlan (S.names store.now) (map (meaning (S.present store.now)) words.items) parts.items (meaning (S.present store.now) word)) }
{
    place_variables(store, words.as_slice(), known)?;
    let mut planning = Planning {
        variables: words,
        parts: Vec::new(alloc),
        made: 0,
        known: Notes::new(alloc),
        tasks: Vec::new(alloc),
    };
    mem::swap(&mut planning.known, known);
    plan_next(store, &mut planning, word)?;
    while let Some(task) = planning.tasks.pop() {
        do_task(store, &mut planning, task)?;
    }
    mem::swap(&mut planning.known, known);
    Ok(planning.parts)
}
