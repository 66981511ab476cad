//! What a findall/3 has gathered: copies of its solutions (8.10.1).
ghost use Rattle.std.specs.Prelude.{◌≡◌, ◌+◌, IfOk, OnOk, OnErr, ◌++◌, ◌∷◌, [], true};
ghost use Rattle.iso_model.specs.Terms.Trees.{arities_fit};
ghost use Rattle.iso_model.specs.Terms.TermOf.{term_of};
ghost use Rattle.iso_model.specs.Terms.Copies.{copy_from};
ghost use Rattle.iso_model.specs.Terms.Variables.{variable_count};
ghost use Rattle.iso_model.specs.Terms.Lists.{list_of};
ghost use Rattle.iso_search_core.specs.Solutions.{copies_of, GainsCopy};

use iso_model::{NoMemory, Numbering, Term, renumbered_from};
use std::alloc::Global;

/// The copies of the solutions so far, in their order. Their variables are 0, 1, .. up to this count, in the order of
/// the list.
#[derive(Drop)]
pub struct Gathered {
    pub copies: Vec<Term>,
    pub variables: u32,
}

/// A copy of the solution with its variables numbered from this number on, and the number behind them. The error is
/// that memory was refused, as it is for more than 4,294,967,295 variables.
pub(crate) fn copy_of(alloc: Global, solution: &Term, first: u32) -> Result<(Term, u32), NoMemory>
    ensures copy { IfOk result (λ r. term_of r.0 ≡ copy_from (term_of solution.now) first) }
    ensures next { IfOk result (λ r. r.1 ≡ first + variable_count (term_of solution.now)) }
{
    let mut variables = Numbering::new(alloc);
    variables.note_all(alloc, solution)?;
    let Ok(count) = u32::try_from(variables.len()) else {
        return Err(NoMemory);
    };
    let Some(next) = first.checked_add(count) else {
        return Err(NoMemory);
    };
    Ok((renumbered_from(alloc, solution, &variables, first)?, next))
}

impl Gathered {
    /// No solution.
    pub fn new(alloc: Global) -> Self
        ensures copies { copies_of result ≡ [] }
        ensures variables { result.variables ≡ 0 }
    {
        Gathered {
            copies: Vec::new(alloc),
            variables: 0,
        }
    }

    /// Adds a copy of the solution. The error is that memory was refused; nothing changed then.
    pub fn add(&mut self, alloc: Global, solution: &Term) -> Result<(), NoMemory>
        ensures gains { OnOk result (GainsCopy (term_of solution.now) self.old self.new) }
        ensures kept { OnErr result ((copies_of self.new ≡ copies_of self.old) × (self.new.variables ≡ self.old.variables)) }
    {
        let (copy, next) = copy_of(alloc, solution, self.variables)?;
        self.copies.push(copy)?;
        self.variables = next;
        Ok(())
    }

    /// The list of the copies. The error is that memory was refused.
    pub fn into_list(self, alloc: Global) -> Result<Term, NoMemory>
        ensures { IfOk result (λ t. term_of t ≡ list_of (copies_of self)) }
    {
        let mut copies = self.copies;
        let mut list = Term::Atom(String::from_str(alloc, "[]")?);
        while let Some(copy) = copies.pop() {
            let name = String::from_str(alloc, ".")?;
            list = Term::Compound(name, vec![in alloc; copy, list]?);
        }
        Ok(list)
    }
}
