//! What a bagof/3 or setof/3 has gathered: copies of its solutions, each a pair of a witness and an item (8.10.2,
//! 8.10.3).
ghost use Rattle.std.specs.Prelude.{◌≡◌, [], OnOk, OnErr, true};
ghost use Rattle.iso_model.specs.Terms.TermOf.{term_of};
ghost use Rattle.iso_model.specs.Search.Groups.{is_solution};
ghost use Rattle.iso_lib_core.specs.Groupings.{solution_of};
ghost use Rattle.iso_search_core.specs.Solutions.{pairs_of, GainsPair, KeepsPairs};

use super::solutions::copy_of;
use iso_model::{NoMemory, Term};
use std::alloc::Global;

/// The copies of the solutions so far, in their order. Their variables are 0, 1, .. up to this count, in the order of
/// the list.
#[derive(Drop)]
pub struct Pairs {
    pub pairs: Vec<(Term, Term)>,
    pub variables: u32,
}

/// Whether the term is a pair `W-T`.
fn is_pair(term: &Term) -> bool
    ensures { result ≡ is_solution (term_of term.now) }
{
    match term {
        Term::Compound(name, arguments) => match arguments.as_slice() {
            [_, _] => name.as_str() == "-",
            _ => false,
        },
        _ => false,
    }
}

/// The two parts of a pair.
fn parts_of(mut pair: Term) -> (Term, Term)
    requires { is_solution (term_of pair) ≡ true }
    ensures { solution_of result ≡ term_of pair }
{
    let Term::Compound(_, arguments) = &mut pair else {
        unreachable!();
    };
    let Some(item) = arguments.pop() else {
        unreachable!();
    };
    let Some(witness) = arguments.pop() else {
        unreachable!();
    };
    (witness, item)
}

impl Pairs {
    /// No solution.
    pub fn new(alloc: Global) -> Self
        ensures copies { pairs_of result ≡ [] }
        ensures variables { result.variables ≡ 0 }
    {
        Pairs {
            pairs: Vec::new(alloc),
            variables: 0,
        }
    }

    /// Adds a copy of the solution, where it is a pair. The error is that memory was refused; nothing changed then.
    pub fn add(&mut self, alloc: Global, solution: &Term) -> Result<(), NoMemory>
        ensures gains { OnOk result (GainsPair (term_of solution.now) self.old self.new) }
        ensures kept { OnErr result (KeepsPairs self.old self.new) }
    {
        if !is_pair(solution) {
            return Ok(());
        }
        let (copy, next) = copy_of(alloc, solution, self.variables)?;
        self.pairs.push(parts_of(copy))?;
        self.variables = next;
        Ok(())
    }
}
