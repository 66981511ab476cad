//! Where procedures stand: the place of each name and number of arguments, and the kind of the procedure there.
ghost use Rattle.std.specs.Prelude.{◌≡◌, ◌<◌, ℕ, List, Option, Some, None, [], ◌∷◌, ◌++◌, length, map, unwrap_or, IfOk, OnOk, OnErr};
ghost use Rattle.std.specs.List.{slice_get};
ghost use Rattle.std.specs.Option.{option_and_then};
ghost use Rattle.iso_db.specs.Keys.{Heading, key, place_of, at_heading};
ghost use Rattle.iso_db.specs.Indexes.{found, index_of, place_in, row_at, put_at, KeepsNames};

use super::kinds::Kind;
use indexmap::IndexSet;
use std::alloc::{AllocError, Global};
use std::marker::Model;

/// A number of arguments under some name, with the place of the procedure.
#[derive(Clone, Copy)]
struct Named {
    arity: usize,
    place: usize,
}

/// A key, its name by its number, and the kind of its procedure, if that is there.
#[derive(Clone, Copy)]
struct Functor {
    name: usize,
    arity: usize,
    kind: Option<Kind>,
}

/// The keys and the kinds of the procedures, each at its place.
#[derive(Drop)]
pub(crate) struct Places {
    /// The names.
    names: IndexSet<String>,
    /// What stands under each name.
    rows: Vec<Vec<Named>>,
    /// The keys, each with its procedure's kind.
    keys: Vec<Functor>,
}

impl Model for Places {
    ghost use Rattle.std.specs.Prelude.{List};
    ghost use Rattle.iso_db.specs.Keys.{Heading};

    ghost Value = { List Heading };

    ghost use Rattle.iso_db.specs.Indexes.{headings_of, IsIndex};

    ghost view = { λ p. headings_of p.names.keys p.keys.items };

    ghost invariant = { λ p. IsIndex p.names.keys p.rows.items p.keys.items };
}

/// What stands in a row under this number of arguments.
fn among(row: &[Named], arity: usize) -> Option<usize>
    ensures { result ≡ place_in row.now arity }
{
    match row {
        [] => None,
        [first, others @ ..] => {
            if first.arity == arity {
                return Some(first.place);
            }
            among(others, arity)
        }
    }
}

/// The number of this name, with its row: those that it has, or new ones. The error is that memory was refused.
fn numbered(
    names: &mut IndexSet<String>,
    rows: &mut Vec<Vec<Named>>,
    name: &str,
) -> Result<usize, AllocError>
    requires { length rows.old.items ≡ length names.old.keys }
    ensures index { IfOk result (λ i. index_of names.new.keys name.now ≡ Some i) }
    ensures within { IfOk result (λ i. i < length rows.new.items) }
    ensures rows { length rows.new.items ≡ length names.new.keys }
    ensures kept { KeepsNames names.old.keys names.new.keys }
    ensures found { (n : List ℕ) (a : ℕ) → found names.new.keys rows.new.items n a ≡ found names.old.keys rows.old.items n a }
{
    if let Some(index) = names.get_index_of(name) {
        return Ok(index);
    }
    let alloc = *names.allocator();
    let text = String::from_str(alloc, name)?;
    rows.push(Vec::new(alloc))?;
    let Ok((index, _)) = names.insert_full(text) else {
        let _ = rows.pop();
        return Err(AllocError);
    };
    Ok(index)
}

/// Adds a key whose name has this number behind the others; its procedure is absent. The error is that memory was
/// refused; nothing changed then.
fn put(
    rows: &mut Vec<Vec<Named>>,
    keys: &mut Vec<Functor>,
    name: usize,
    arity: usize,
) -> Result<(), AllocError>
    requires { name < length rows.old.items }
    ensures keys { OnOk result (keys.new.items ≡ keys.old.items ++ record { name = name; arity = arity; kind = None } ∷ []) }
    ensures row { OnOk result ((i : ℕ) → row_at rows.new.items i ≡ put_at name (record { arity = arity; place = length keys.old.items }) i (row_at rows.old.items i)) }
    ensures rows { length rows.new.items ≡ length rows.old.items }
    ensures same { OnErr result (keys.new.items ≡ keys.old.items) }
    ensures unchanged { OnErr result ((i : ℕ) → row_at rows.new.items i ≡ row_at rows.old.items i) }
{
    let place = keys.len();
    keys.push(Functor {
        name,
        arity,
        kind: None,
    })?;
    if rows[name].push(Named { arity, place }).is_err() {
        let _ = keys.pop();
        return Err(AllocError);
    }
    Ok(())
}

impl Places {
    /// No keys. Takes no memory.
    pub(crate) fn new(alloc: Global) -> Places
        ensures { result ≡ [] }
    {
        Places {
            names: IndexSet::new(alloc),
            rows: Vec::new(alloc),
            keys: Vec::new(alloc),
        }
    }

    /// The place of this key. Takes no memory.
    pub(crate) fn find(&self, name: &str, arity: usize) -> Option<usize>
        ensures { result ≡ place_of (map (λ h. h.key) self.now) name.now arity }
    {
        let index = self.names.get_index_of(name)?;
        among(self.rows[index].as_slice(), arity)
    }

    /// The kind of the procedure at this place, if it is there. Takes no memory.
    pub(crate) fn kind(&self, place: usize) -> Option<Kind>
        requires { place < length self.now }
        ensures { result ≡ option_and_then (λ h. h.kind) (slice_get self.now place) }
    {
        self.keys[place].kind
    }

    /// Gives the procedure at this place this kind, where it is absent. Takes no memory.
    pub(crate) fn make_present(&mut self, place: usize, kind: Kind)
        requires { place < length self.old }
        ensures { self.new ≡ at_heading place (λ h. record h { kind = Some (unwrap_or h.kind kind) }) self.old }
    {
        let functor = &mut self.keys[place];
        functor.kind = Some(functor.kind.unwrap_or(kind));
    }

    /// Makes the procedure at this place absent. Takes no memory.
    pub(crate) fn make_absent(&mut self, place: usize)
        requires { place < length self.old }
        ensures { self.new ≡ at_heading place (λ h. record h { kind = None }) self.old }
    {
        self.keys[place].kind = None;
    }

    /// Adds a key that has no place yet, behind the others; its procedure is absent. The error is that memory was
    /// refused; nothing changed then.
    pub(crate) fn add(&mut self, name: &str, arity: usize) -> Result<(), AllocError>
        requires { place_of (map (λ h. h.key) self.old) name.now arity ≡ None }
        ensures added { OnOk result
            (self.new ≡ self.old ++ record { key = key name.now arity; kind = None } ∷ []) }
        ensures unchanged { OnErr result (self.new ≡ self.old) }
    {
        let index = numbered(&mut self.names, &mut self.rows, name)?;
        put(&mut self.rows, &mut self.keys, index, arity)?;
        Ok(())
    }
}
