//! Whether a variable occurs in a term of few arguments, without notes. Most terms that a variable is bound to are
//! small, and for these it takes longer to note each compound than to look at one that is shared again.
ghost use Rattle.std.specs.Prelude.{◌≡◌, ◌≤◌, IfOk, IfSome};
ghost use Rattle.iso_model.specs.Terms.Variables.{occurs};
ghost use Rattle.iso_store_core.specs.Presents.{Holds, meaning};
ghost use Rattle.iso_store_core.specs.Arguments.{arity};
ghost use Rattle.iso_store.specs.Looks.{IsLook, IsFound};

use super::occurs::Task;
use super::primitives::Primitives;
use iso_model::NoMemory;
use iso_store_core::Shape;

/// So often a compound is gone into, or gone on with, without notes. One that is shared counts each time.
const FEW: usize = 4096;

/// Compounds of so many arguments in all are gone into without notes.
const MOST: usize = 4096;

/// What a term is to a search for a variable.
#[derive(Clone, Copy)]
enum Look {
    /// The variable.
    There,
    /// Another variable, or a constant.
    Absent,
    /// A compound of so many arguments.
    Compound(usize),
}

/// What the word stands for, to a search for the variable of this number.
#[inline(always)]
fn look_at<S: Primitives>(store: &S, number: u64, word: S::Word) -> Look
    requires { Holds (S.present store.now) word }
    ensures { IsLook number (meaning (S.present store.now) word) result }
{
    match store.shape(word) {
        Shape::Var(other) => {
            if other == number {
                Look::There
            } else {
                Look::Absent
            }
        }
        Shape::Int(_) | Shape::Atom(_) => Look::Absent,
        Shape::Compound(_, count) => Look::Compound(count),
    }
}

/// What the arguments of a compound are to a search for a variable, from a place on.
#[derive(Clone, Copy)]
enum Found<W: Copy> {
    /// The variable is among them.
    There,
    /// It is in none of them.
    Absent,
    /// It is in none before this compound, which has so many arguments; the place behind it comes first.
    Compound(W, usize, usize),
}

/// What the arguments from this place on are to a search for the variable of this number, of a compound of so many.
#[inline(always)]
fn look_on<S: Primitives>(
    store: &S,
    number: u64,
    compound: S::Word,
    index: usize,
    count: usize,
) -> Found<S::Word>
    requires compound { Holds (S.present store.now) compound }
    requires made { arity ((S.present store.now).term compound) ≡ count }
    requires arity { arity (meaning (S.present store.now) compound) ≡ count }
    requires index { index ≤ count }
    ensures { IsFound (S.present store.now) number (meaning (S.present store.now) compound) index count result }
{
    let mut index = index;
    while index < count {
        let argument = store.end_of_arg(compound, count, index);
        index += 1;
        match look_at(store, number, argument) {
            Look::There => return Found::There,
            Look::Compound(many) => return Found::Compound(argument, index, many),
            Look::Absent => {}
        }
    }
    Found::Absent
}

/// Whether the variable of this number occurs in what the word stands for, with this list for what is left to do;
/// none where that has too many compounds to tell without notes. The error is that memory was refused.
pub(crate) fn in_few<S: Primitives>(
    store: &S,
    number: u64,
    word: S::Word,
    tasks: &mut Vec<Task<S::Word>>,
) -> Result<Option<bool>, NoMemory>
    requires { Holds (S.present store.now) word }
    ensures { IfOk result (λ found. IfSome found (λ b. b ≡ occurs number (meaning (S.present store.now) word))) }
{
    let all = match look_at(store, number, word) {
        Look::There => return Ok(Some(true)),
        Look::Absent => return Ok(Some(false)),
        Look::Compound(all) => all,
    };
    tasks.clear();
    let mut compound = store.end(word);
    let mut index = 0;
    let mut count = all;
    let mut room = MOST;
    for _turn in 0..FEW {
        match look_on(store, number, compound, index, count) {
            Found::There => return Ok(Some(true)),
            Found::Compound(inner, next, many) => {
                if room < many {
                    return Ok(None);
                }
                room -= many;
                if next < count {
                    tasks.push(Task::Search(compound, next, count))?;
                }
                compound = inner;
                index = 0;
                count = many;
            }
            Found::Absent => {
                let Some(task) = tasks.pop() else {
                    return Ok(Some(false));
                };
                let Task::Search(next, start, many) = task else {
                    return Ok(None);
                };
                compound = next;
                index = start;
                count = many;
            }
        }
    }
    Ok(None)
}
