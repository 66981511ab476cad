//! What is callable under each name, by the numbers of atoms: no name is compared as text where a goal is run (7.7.7).
ghost use Rattle.std.specs.Prelude.{◌≡◌, ◌<◌, ◌&&◌, ◌==◌, ℕ, List, [], ◌∷◌, ◌++◌, IfOk, OnOk, OnErr, option_map};
ghost use Rattle.std.specs.Prelude.{length};
ghost use Rattle.std.specs.Option.{option_or};
ghost use Rattle.iso_model.specs.Search.BuiltIns.{built_in};
ghost use Rattle.iso_program.specs.Callables.{Indexes, callee_in, callee_at, callee_among, where_holds};

use iso_atoms::Atom;
use iso_model::{BuiltIn, Row, built_in_rows};
use iso_store_core::Store;
use std::alloc::{AllocError, Global};

/// What a goal calls.
#[derive(Clone, Copy)]
pub enum Callee {
    /// A procedure of the language itself.
    BuiltIn(BuiltIn),
    /// The procedure at this place of the database.
    User(usize),
}

/// What is called under a name with this many arguments.
#[derive(Clone, Copy)]
pub struct Callable {
    pub arity: usize,
    pub calls: Callee,
}

/// What is called under the name of each atom, by the atom's number.
pub type Callables = Vec<Vec<Callable>>;

/// What has this arity among the callables of a name.
fn among(callables: &[Callable], arity: usize) -> Option<Callee>
    ensures { result ≡ callee_in callables.now arity }
{
    for callable in callables {
        if callable.arity == arity {
            return Some(callable.calls);
        }
    }
    None
}

/// What a goal of this name and arity calls.
pub fn find(callables: &[Vec<Callable>], name: Atom, arity: usize) -> Option<Callee>
    ensures { result ≡ callee_at callables.now name arity }
{
    let place = name.number();
    if place >= callables.len() {
        return None;
    }
    among(callables[place].as_slice(), arity)
}

/// Makes room for the callables of this name, and of those that have an atom before it. The error is that memory was
/// refused.
fn reach(alloc: Global, callables: &mut Callables, place: usize) -> Result<(), AllocError>
    ensures there { OnOk result (place < length callables.new.items) }
    ensures same { (a n : ℕ) → callee_at callables.new.items a n ≡ callee_at callables.old.items a n }
{
    let count = callables.len();
    if place < count {
        return Ok(());
    }
    for _row in count..=place {
        callables.push(Vec::new(alloc))?;
    }
    Ok(())
}

/// Adds what a goal of this name and arity calls, where it called nothing. The error is that memory was refused.
pub fn insert(
    alloc: Global,
    callables: &mut Callables,
    name: Atom,
    arity: usize,
    calls: Callee,
) -> Result<(), AllocError>
    ensures ok { OnOk result ((a n : ℕ) → callee_at callables.new.items a n
        ≡ option_or (callee_at callables.old.items a n) (where_holds (a == name && arity == n) calls)) }
    ensures err { OnErr result ((a n : ℕ) → callee_at callables.new.items a n ≡ callee_at callables.old.items a n) }
{
    let place = name.number();
    reach(alloc, callables, place)?;
    callables[place].push(Callable { arity, calls })?;
    Ok(())
}

/// Adds what a goal of a procedure of the language itself calls, whose name gets an atom. The error is that memory
/// was refused.
fn insert_built_in<S: Store>(
    alloc: Global,
    store: &mut S,
    callables: &mut Callables,
    row: &Row,
) -> Result<(), AllocError>
    ensures found { (rows : List Row) → Indexes (S.names store.old) callables.old.items (callee_among rows)
        → OnOk result (Indexes (S.names store.new) callables.new.items (callee_among (rows ++ row.now ∷ []))) }
    ensures present { S.present store.new ≡ S.present store.old }
{
    let Row(text, arity, built_in) = *row;
    let name = store.intern(text)?;
    insert(alloc, callables, name, arity, Callee::BuiltIn(built_in))
}

/// What goals of these procedures of the language itself call, whose names get atoms. The error is that memory was
/// refused.
fn of_rows<S: Store>(alloc: Global, store: &mut S, rows: &[Row]) -> Result<Callables, AllocError>
    ensures found { IfOk result (λ callables. Indexes (S.names store.new) callables.items (callee_among rows.now)) }
    ensures present { S.present store.new ≡ S.present store.old }
{
    let mut callables = Vec::new(alloc);
    for row in rows {
        insert_built_in(alloc, store, &mut callables, row)?;
    }
    Ok(callables)
}

/// What goals of the language's own procedures call. The error is that memory was refused.
pub fn of_built_ins<S: Store>(alloc: Global, store: &mut S) -> Result<Callables, AllocError>
    ensures found { IfOk result (λ rows. Indexes (S.names store.new) rows.items
        (λ k. option_map Callee.BuiltIn (built_in k))) }
    ensures present { S.present store.new ≡ S.present store.old }
{
    of_rows(alloc, store, built_in_rows())
}
