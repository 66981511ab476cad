//! Terms by which solutions come in groups: those of two terms are equal where the two are equal up to a renaming of
//! their variables (7.1.6.1).
ghost use Rattle.std.specs.Prelude.{◌≡◌, ◌++◌, ◌+◌, ◌*◌, ◌<◌, map, sum_by, IfOk, OnOk};
ghost use Rattle.iso_model.specs.Terms.TermOf.{term_of, row_of};
ghost use Rattle.iso_model.specs.Terms.Sizes.{size};
ghost use Rattle.iso_model.specs.Terms.Rows.{row_load};
ghost use Rattle.iso_lib_core.specs.Variants.{signs, class_of, sign_of, rows_signs};

use iso_model::{NoMemory, Numbering, Term, renumbered_from};
use std::alloc::{AllocError, Global};

/// A part of a term that is written out part by part, each compound before its arguments.
#[derive(PartialEq, Eq, Hash, Drop)]
pub(crate) enum Piece {
    /// A variable by its number.
    Variable(u64),
    /// An integer.
    Integer(i128),
    /// An atom by its text.
    Atom(String),
    /// The name of a compound and how many arguments it has.
    Compound(String, usize),
}

/// Writes out the first part of the term, and leaves a compound's arguments to be gone through.
fn write_first<'t>(
    pieces: &mut Vec<Piece>,
    rows: &mut Vec<&'t [Term]>,
    term: &'t Term,
) -> Result<(), AllocError>
    ensures signs { OnOk result (map sign_of pieces.new.items ++ rows_signs rows.new.items
        ≡ map sign_of pieces.old.items ++ (signs (term_of term.now) ++ rows_signs rows.old.items)) }
    ensures load { OnOk result (sum_by row_load rows.new.items < 2 * size (term_of term.now) + sum_by row_load rows.old.items) }
{
    match term {
        Term::Var(number) => pieces.push(Piece::Variable(*number))?,
        Term::Int(value) => pieces.push(Piece::Integer(*value))?,
        Term::Atom(text) => pieces.push(Piece::Atom(text.clone()?))?,
        Term::Compound(name, arguments) => {
            pieces.push(Piece::Compound(name.clone()?, arguments.len()))?;
            rows.push(arguments.as_slice())?;
        }
    }
    Ok(())
}

/// Writes out the first part of the first term of a row, and leaves the others to be gone through.
fn write_row<'t>(
    pieces: &mut Vec<Piece>,
    rows: &mut Vec<&'t [Term]>,
    row: &'t [Term],
) -> Result<(), AllocError>
    ensures signs { OnOk result (map sign_of pieces.new.items ++ rows_signs rows.new.items
        ≡ map sign_of pieces.old.items ++ (signs (row_of row.now) ++ rows_signs rows.old.items)) }
    ensures load { OnOk result (sum_by row_load rows.new.items < 1 + 2 * size (row_of row.now) + sum_by row_load rows.old.items) }
{
    match row {
        [] => Ok(()),
        [only] => write_first(pieces, rows, only),
        [first, others @ ..] => {
            rows.push(others)?;
            write_first(pieces, rows, first)
        }
    }
}

/// The parts of the term. The error is that memory was refused.
fn written_out(alloc: Global, term: &Term) -> Result<Vec<Piece>, AllocError>
    ensures { IfOk result (λ pieces. map sign_of pieces.items ≡ signs (term_of term.now)) }
{
    let mut pieces = Vec::new(alloc);
    let mut rows = Vec::new(alloc);
    write_first(&mut pieces, &mut rows, term)?;
    while let Some(row) = rows.pop() {
        write_row(&mut pieces, &mut rows, row)?;
    }
    Ok(pieces)
}

/// The parts of the term with its variables numbered from 0, which all variants of it have. The error is that memory
/// was refused.
pub(crate) fn class_of(alloc: Global, term: &Term) -> Result<Vec<Piece>, NoMemory>
    ensures { IfOk result (λ pieces. map sign_of pieces.items ≡ class_of (term_of term.now)) }
{
    let mut variables = Numbering::new(alloc);
    variables.note_all(alloc, term)?;
    let numbered = renumbered_from(alloc, term, &variables, 0)?;
    Ok(written_out(alloc, &numbered)?)
}
