//! The parts of procedures: of each its clauses with the same key, and those without.
ghost use Rattle.std.specs.Prelude.{◌≡◌, ◌≢◌, ◌<◌, ◌++◌, ◌∷◌, [], ℕ, Some, None, IfSome, IfNone, OnOk, OnErr, length, get_or};
ghost use Rattle.std.specs.List.{slice_get};

use indexmap::IndexSet;
use iso_clauses::FirstKey;
use std::alloc::{AllocError, Global};
use std::marker::Model;

/// The clauses of the procedure at a place that have this key, or those that have none.
#[derive(Clone, Copy, PartialEq, Eq, Hash)]
pub(crate) struct Part {
    place: usize,
    key: Option<FirstKey>,
}

/// The parts of procedures, each at its number.
#[derive(Drop)]
pub(crate) struct Parts {
    known: IndexSet<Part>,
    /// At the place of each procedure the number of its part without a key, if it has one.
    without_key: Vec<Option<usize>>,
}

impl Model for Parts {
    ghost use Rattle.std.specs.Prelude.{List};
    ghost use Rattle.iso_db.specs.declared.parts.Part.{Part};

    ghost Value = { List Part };

    ghost use Rattle.iso_db.specs.Parts.{IsNumbered};

    ghost view = { λ p. p.known.keys };

    ghost invariant = { λ p. IsNumbered p.without_key.items p.known.keys };
}

/// Makes the numbers reach this place; there is none at the places that come. The error is that memory was refused.
fn reach(numbers: &mut Vec<Option<usize>>, place: usize) -> Result<(), AllocError>
    ensures within { OnOk result (place < length numbers.new.items) }
    ensures same { (p : ℕ) → get_or numbers.new.items p None ≡ get_or numbers.old.items p None }
{
    if place >= numbers.len() {
        numbers.resize(place.saturating_add(1), None)?;
    }
    Ok(())
}

impl Parts {
    /// No parts. Takes no memory.
    pub(crate) fn new(alloc: Global) -> Parts
        ensures { result ≡ [] }
    {
        Parts {
            known: IndexSet::new(alloc),
            without_key: Vec::new(alloc),
        }
    }

    /// The number of this part, by its hash. Takes no memory.
    #[inline(always)]
    fn find_by_hash(&self, place: usize, key: Option<FirstKey>) -> Option<usize>
        ensures found { IfSome result (λ n. slice_get self.now n ≡ Some (record { place = place; key = key })) }
        ensures absent { IfNone result ((n : ℕ) → slice_get self.now n ≢ Some (record { place = place; key = key })) }
    {
        let part = Part { place, key };
        self.known.get_index_of(&part)
    }

    /// The number of the part without a key of the procedure at this place. Takes no memory, and makes no hash.
    #[inline(always)]
    fn find_without_key(&self, place: usize) -> Option<usize>
        ensures found { IfSome result (λ n. slice_get self.now n ≡ Some (record { place = place; key = None })) }
        ensures absent { IfNone result ((n : ℕ) → slice_get self.now n ≢ Some (record { place = place; key = None })) }
    {
        if place >= self.without_key.len() {
            return None;
        }
        self.without_key[place]
    }

    /// The number of this part. Takes no memory.
    #[inline(always)]
    pub(crate) fn find(&self, place: usize, key: Option<FirstKey>) -> Option<usize>
        ensures found { IfSome result (λ n. slice_get self.now n ≡ Some (record { place = place; key = key })) }
        ensures absent { IfNone result ((n : ℕ) → slice_get self.now n ≢ Some (record { place = place; key = key })) }
    {
        if key.is_none() {
            return self.find_without_key(place);
        }
        self.find_by_hash(place, key)
    }

    /// Adds a part that has no number yet, behind the others. The error is that memory was refused; nothing changed
    /// then.
    pub(crate) fn add(&mut self, place: usize, key: Option<FirstKey>) -> Result<(), AllocError>
        requires { (n : ℕ) → slice_get self.old n ≢ Some (record { place = place; key = key }) }
        ensures added { OnOk result (self.new ≡ self.old ++ record { place = place; key = key } ∷ []) }
        ensures unchanged { OnErr result (self.new ≡ self.old) }
    {
        if key.is_some() {
            self.known.insert(Part { place, key })?;
            return Ok(());
        }
        reach(&mut self.without_key, place)?;
        let number = self.known.len();
        self.known.insert(Part { place, key })?;
        self.without_key[place] = Some(number);
        Ok(())
    }
}
