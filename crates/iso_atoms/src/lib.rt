//! Atoms: names as numbers (ISO/IEC 13211-1:1995, 6.1.2 and 7.1.4). Each name has one number, which stands for it for
//! good.
#![tactic(auto)]

ghost use Rattle.std.specs.Prelude.{◌≡◌, ◌≤◌, ◌<◌, [], length, slice_get, IsTrue, IsOk, IfOk, OnOk, OnErr};
ghost use Rattle.std.specs.Cmp.Lexicographic.{slice_cmp};
ghost use Rattle.std.specs.Ordering.{nat_cmp};
ghost use Rattle.iso_atoms.specs.Texts.{has_text, numbered, text_at, EachOnce, KeepsTexts};

use indexmap::IndexSet;
pub use std::alloc::AllocError as NoMemory;
use std::alloc::Global;
use std::cmp::Ordering;
use std::marker::Model;

/// A name by its number: its place among the names of the `Atoms` that made it.
#[derive(Clone, Copy, Debug, PartialEq, Eq, Hash)]
pub struct Atom(usize);

impl Model for Atom {
    ghost use Rattle.std.specs.Prelude.{ℕ};

    ghost Value = { ℕ };

    ghost view = { λ atom. atom.0 };

    ghost inverse = { λ place. record { 0 = place } };
}

impl Atom {
    /// The number of the name.
    pub fn number(self) -> usize
        ensures { result ≡ self }
    {
        self.0
    }
}

/// The names that have a number, each once, in the order of their numbers.
#[derive(Drop)]
pub struct Atoms {
    names: IndexSet<String>,
}

impl Model for Atoms {
    ghost use Rattle.std.specs.Prelude.{ℕ, List, map};
    ghost use Rattle.std.specs.String.{string_bytes};
    ghost use Rattle.iso_atoms.specs.Texts.{EachOnce};

    ghost Value = { List (List ℕ) };

    ghost view = { λ atoms. map string_bytes atoms.names.keys };

    ghost invariant = { λ atoms. EachOnce (map string_bytes atoms.names.keys) };
}

impl Atoms {
    /// No names. Takes no memory.
    pub fn new(alloc: Global) -> Self
        ensures { result ≡ [] }
    {
        Atoms {
            names: IndexSet::new(alloc),
        }
    }

    /// The number of the name `text`: the one that it has, without taking memory, or else the next one.
    /// The error is that memory was refused; then the name has no number, and nothing changed.
    pub fn intern(&mut self, text: &str) -> Result<Atom, NoMemory>
        ensures numbers { OnOk result (self.new ≡ numbered self.old text.now) }
        ensures place { IfOk result (λ atom. slice_get self.new atom ≡ Some text.now) }
        ensures within { IfOk result (λ atom. atom < length self.new) }
        ensures each_once { EachOnce self.new }
        ensures kept { KeepsTexts self.old self.new }
        ensures grows { length self.old ≤ length self.new }

        // A name that has a number is never refused.
        ensures known { IsTrue (has_text self.old text.now) → IsOk result }
        ensures unchanged { OnErr result (self.new ≡ self.old) }
    {
        if let Some(place) = self.names.get_index_of(text) {
            return Ok(Atom(place));
        }
        let name = String::from_str(*self.names.allocator(), text)?;
        let (place, _) = self.names.insert_full(name)?;
        Ok(Atom(place))
    }

    /// The name that has this number. Takes no memory.
    pub fn text(&self, atom: Atom) -> &str
        requires { atom < length self.now }
        ensures text { slice_get self.now atom ≡ Some result.now }
        ensures each_once { EachOnce self.now }
    {
        self.names.as_slice()[atom.0].as_str()
    }

    /// How many names have a number. Takes no memory.
    pub fn len(&self) -> usize
        ensures { result ≡ length self.now }
    {
        self.names.len()
    }

    /// How two names compare by their character codes (7.2), which is how their UTF-8 bytes compare. Takes no memory.
    pub fn order(&self, left: Atom, right: Atom) -> Ordering
        requires left { left < length self.now }
        requires right { right < length self.now }
        ensures { result ≡ slice_cmp nat_cmp (text_at self.now left) (text_at self.now right) }
    {
        self.text(left).cmp(self.text(right))
    }
}
