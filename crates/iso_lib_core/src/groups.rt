//! Groups of the solutions of bagof/3 and setof/3: those whose witnesses are equal up to a renaming of variables
//! (8.10.2, 8.10.3).
ghost use Rattle.std.specs.Prelude.{◌≡◌, ◌<◌, ◌≤◌, ◌++◌, ◌∷◌, [], map, length, IfOk, OnOk};
ghost use Rattle.std.specs.List.{All};
ghost use Rattle.iso_model.specs.Terms.TermOf.{term_of};
ghost use Rattle.iso_model.specs.Terms.Lists.{list_of};
ghost use Rattle.iso_model.specs.Search.Bodies.{two};
ghost use Rattle.iso_model.specs.Search.Groups.{pair, groups_of};
ghost use Rattle.iso_lib_core.specs.Groupings.{solution_of, solutions_of, IsWhole, put_at};

use super::variants::{Piece, class_of};
use indexmap::IndexSet;
use iso_model::{NoMemory, Term};
use std::alloc::Global;

/// A group of solutions in their order: the witness and the item of each.
#[derive(Drop)]
pub struct Group {
    pub witnesses: Vec<Term>,
    pub items: Vec<Term>,
}

impl Group {
    /// No solution.
    fn new(alloc: Global) -> Self
        ensures solutions { solutions_of result ≡ [] }
        ensures whole { IsWhole result }
    {
        Group {
            witnesses: Vec::new(alloc),
            items: Vec::new(alloc),
        }
    }

    /// Adds a solution behind the others. The error is that memory was refused.
    fn add(&mut self, witness: Term, item: Term) -> Result<(), NoMemory>
        requires { IsWhole self.old }
        ensures solutions { OnOk result (solutions_of self.new ≡ solutions_of self.old ++ pair (term_of witness) (term_of item) ∷ []) }
        ensures whole { OnOk result (IsWhole self.new) }
    {
        self.witnesses.push(witness)?;
        self.items.push(item)?;
        Ok(())
    }

    /// The list of the solutions, each a pair of its witness and its item. The error is that memory was refused.
    pub fn into_list(self, alloc: Global) -> Result<Term, NoMemory>
        requires { IsWhole self }
        ensures { IfOk result (λ t. term_of t ≡ list_of (solutions_of self)) }
    {
        let Group {
            mut witnesses,
            mut items,
        } = self;
        let mut list = Term::Atom(String::from_str(alloc, "[]")?);
        while let Some(witness) = witnesses.pop() {
            let Some(item) = items.pop() else {
                return Ok(list);
            };
            let pair = compound(alloc, "-", witness, item)?;
            list = compound(alloc, ".", pair, list)?;
        }
        Ok(list)
    }
}

/// The compound of this name and these two arguments. The error is that memory was refused.
fn compound(alloc: Global, name: &str, first: Term, second: Term) -> Result<Term, NoMemory>
    ensures { IfOk result (λ t. term_of t ≡ two name.now (term_of first) (term_of second)) }
{
    let name = String::from_str(alloc, name)?;
    Ok(Term::Compound(name, vec![in alloc; first, second]?))
}

/// Adds a solution to the group at this place, or as a new one behind the others. The error is that memory was refused.
fn put(
    alloc: Global,
    groups: &mut Vec<Group>,
    place: usize,
    witness: Term,
    item: Term,
) -> Result<(), NoMemory>
    requires place { place ≤ length groups.old.items }
    requires whole { All IsWhole groups.old.items }
    ensures solutions { OnOk result (map solutions_of groups.new.items
        ≡ put_at place (pair (term_of witness) (term_of item)) (map solutions_of groups.old.items)) }
    ensures whole { OnOk result (All IsWhole groups.new.items) }
{
    if place < groups.len() {
        return groups[place].add(witness, item);
    }
    let mut group = Group::new(alloc);
    group.add(witness, item)?;
    groups.push(group)?;
    Ok(())
}

/// The groups of the solutions, each a witness and an item, in the order of their first ones; each has its solutions in
/// their order. The error is that memory was refused.
pub fn groups(alloc: Global, solutions: Vec<(Term, Term)>) -> Result<Vec<Group>, NoMemory>
    ensures groups { IfOk result (λ gs. map solutions_of gs.items ≡ groups_of (map solution_of solutions.items)) }
    ensures whole { IfOk result (λ gs. All IsWhole gs.items) }
{
    let mut classes: IndexSet<Vec<Piece>> = IndexSet::new(alloc);
    let mut groups = Vec::new(alloc);
    for (witness, item) in solutions {
        let (place, _) = classes.insert_full(class_of(alloc, &witness)?)?;
        put(alloc, &mut groups, place, witness, item)?;
    }
    Ok(groups)
}
