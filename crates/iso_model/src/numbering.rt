//! Variables in the order in which they were noted, each once.
ghost use Rattle.std.specs.Prelude.{◌≡◌, ◌==◌, ◌+◌, ◌*◌, ◌<◌, ◌^◌, [], length, take, position, sum_by, IfSome, OnOk, OnErr};
ghost use Rattle.iso_model.specs.Terms.Trees.{Variable};
ghost use Rattle.iso_model.specs.Terms.TermOf.{term_of, row_of};
ghost use Rattle.iso_model.specs.Terms.Sizes.{size};
ghost use Rattle.iso_model.specs.Terms.Variables.{distinct_from};
ghost use Rattle.iso_model.specs.Terms.Copies.{place_of};
ghost use Rattle.iso_model.specs.Terms.Rows.{rows_seen, row_load};

use super::terms::Term;
use indexmap::IndexSet;
use std::alloc::{AllocError, Global};
use std::marker::Model;

/// Numbers of variables, each once and with its place: the first one's is 0. A contract sees the list of them.
#[derive(Drop)]
pub struct Numbering {
    numbers: IndexSet<u64>,
}

impl Model for Numbering {
    ghost use Rattle.std.specs.Prelude.{ℕ, List};

    ghost Value = { List ℕ };

    ghost view = { λ numbering. numbering.numbers.keys };
}

impl Numbering {
    /// No variables. Takes no memory.
    pub fn new(alloc: Global) -> Self
        ensures { result ≡ [] }
    {
        Numbering {
            numbers: IndexSet::new(alloc),
        }
    }

    /// How many variables there are.
    pub fn len(&self) -> usize
        ensures len { result ≡ length self.now }
        ensures small { result < 2 ^ 63 }
    {
        self.numbers.len()
    }

    /// The place of the variable, if it is there.
    pub fn place(&self, number: u64) -> Option<usize>
        ensures place { result ≡ position (λ m. m == number) self.now }
        ensures within { IfSome result (λ place. place < length self.now) }
    {
        self.numbers.get_index_of(&number)
    }

    /// The place of the variable; how many there are, if it is not there.
    pub fn place_or_len(&self, number: u64) -> usize
        ensures place { result ≡ place_of number self.now }
        ensures small { result < 2 ^ 63 }
    {
        let count = self.len();
        match self.place(number) {
            Some(place) => place,
            None => count,
        }
    }

    /// Adds the variable at the end, unless it is there. The error is that memory was refused; nothing changed then.
    pub fn note(&mut self, number: u64) -> Result<(), AllocError>
        ensures numbers { OnOk result (self.new ≡ distinct_from self.old (Variable number)) }
        ensures refused { OnErr result (self.new ≡ self.old) }
    {
        self.numbers.insert(number)?;
        Ok(())
    }

    /// Takes the last variables away, so that at most so many are left. Takes no memory.
    pub fn truncate(&mut self, count: usize)
        ensures { self.new ≡ take count self.old }
    {
        self.numbers.truncate(count);
    }

    /// Adds the term if it is a variable that is not there, and leaves a compound's arguments to be gone through.
    fn note_next<'t>(
        &mut self,
        rows: &mut Vec<&'t [Term]>,
        term: &'t Term,
    ) -> Result<(), AllocError>
        ensures numbers { OnOk result (rows_seen self.new rows.new.items ≡ rows_seen (distinct_from self.old (term_of term.now)) rows.old.items) }
        ensures kept { take (length self.old) self.new ≡ self.old }
        ensures load { OnOk result (sum_by row_load rows.new.items < 2 * size (term_of term.now) + sum_by row_load rows.old.items) }
    {
        match term {
            Term::Var(number) => self.note(*number),
            Term::Int(_) | Term::Atom(_) => Ok(()),
            Term::Compound(_, arguments) => {
                rows.push(arguments.as_slice())?;
                Ok(())
            }
        }
    }

    /// Goes through the first term of a row, and leaves the others.
    fn note_row<'t>(
        &mut self,
        rows: &mut Vec<&'t [Term]>,
        row: &'t [Term],
    ) -> Result<(), AllocError>
        ensures numbers { OnOk result (rows_seen self.new rows.new.items ≡ rows_seen (distinct_from self.old (row_of row.now)) rows.old.items) }
        ensures kept { take (length self.old) self.new ≡ self.old }
        ensures load { OnOk result (sum_by row_load rows.new.items < 1 + 2 * size (row_of row.now) + sum_by row_load rows.old.items) }
    {
        match row {
            [] => Ok(()),
            [only] => self.note_next(rows, only),
            [first, others @ ..] => {
                rows.push(others)?;
                self.note_next(rows, first)
            }
        }
    }

    /// Adds the variables of the term that are not there, by first occurrence. The error is that memory was refused;
    /// some of them may have been added then.
    pub fn note_all(&mut self, alloc: Global, term: &Term) -> Result<(), AllocError>
        ensures numbers { OnOk result (self.new ≡ distinct_from self.old (term_of term.now)) }
        ensures kept { take (length self.old) self.new ≡ self.old }
    {
        let mut rows = Vec::new(alloc);
        self.note_next(&mut rows, term)?;
        while let Some(row) = rows.pop() {
            self.note_row(&mut rows, row)?;
        }
        Ok(())
    }
}
