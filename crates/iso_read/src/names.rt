//! The names of a clause's variables.
ghost use Rattle.std.specs.Prelude.{◌≡◌, ◌++◌, ◌∷◌, [], map, None, IfOk, OnOk};
ghost use Rattle.std.specs.String.{string_bytes};
ghost use Rattle.iso_model.specs.Syntax.Grammar as model;

use std::alloc::{AllocError, Global};
use std::collections::BTreeMap;
use std::marker::Model;

/// The names of the variables so far, in the order of their first occurrence: a variable's number is the place of its
/// name. Each `_` has a place of its own.
#[derive(Drop)]
pub struct Names<'c> {
    names: Vec<&'c str>,
    /// The place of each name but `_`.
    places: BTreeMap<&'c str, usize>,
}

impl<'c> Model for Names<'c> {
    ghost use Rattle.std.specs.Prelude.{ℕ, List};

    ghost Value = { List (List ℕ) };

    ghost use Rattle.iso_read.specs.Places.{texts_of, ArePlaced};

    ghost view = { λ names. texts_of names.names.items };

    ghost invariant = { λ names. ArePlaced names.places (texts_of names.names.items) };
}

impl<'c> Names<'c> {
    /// No names.
    pub fn new(alloc: Global) -> Self
        ensures { result ≡ [] }
    {
        Names {
            names: Vec::new(alloc),
            places: BTreeMap::new(alloc),
        }
    }

    /// The place of a variable's name, if it has one; `_` has none.
    fn place(&self, name: &str) -> Option<usize>
        ensures { result ≡ model.name_place name.now self.now }
    {
        self.places.get(name).copied()
    }

    /// Puts a name behind the others, with its place unless it is `_`. Where memory is refused nothing is changed.
    fn push(&mut self, name: &'c str) -> Result<(), AllocError>
        requires { model.name_place name.now self.old ≡ None }
        ensures { OnOk result (self.new ≡ self.old ++ name.now ∷ []) }
    {
        let place = self.names.len();
        self.names.push(name)?;
        if name == "_" {
            return Ok(());
        }
        let Ok(_) = self.places.insert(name, place) else {
            self.names.pop();
            return Err(AllocError);
        };
        Ok(())
    }

    /// The number of the variable of this name, at one more occurrence.
    pub fn number(&mut self, name: &'c str) -> Result<usize, AllocError>
        ensures number { IfOk result (λ number. number ≡ model.number_of name.now self.old) }
        ensures names { OnOk result (self.new ≡ model.with_name_by name.now self.old (model.name_place name.now self.old)) }
    {
        if let Some(place) = self.place(name) {
            return Ok(place);
        }
        let number = self.names.len();
        self.push(name)?;
        Ok(number)
    }

    /// The names but `_`, each with its number.
    pub fn numbered(self, alloc: Global) -> Result<Vec<(String, u64)>, AllocError>
        ensures { IfOk result (λ numbered. map (λ entry. (string_bytes entry.0, entry.1)) numbered.items ≡ model.numbered 0 self.entry) }
    {
        let Names { names, places: _ } = self;
        let mut numbered = Vec::new(alloc);
        for (number, name) in names.into_iter().enumerate() {
            if name != "_" {
                numbered.push((String::from_str(alloc, name)?, number as u64))?;
            }
        }
        Ok(numbered)
    }
}
