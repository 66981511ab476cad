//! The lines of a session; each is composed whole, with its newline, before any of it is written. The
//! standard says nothing of these lines.
ghost use Rattle.std.specs.Prelude.{◌≡◌, [], ◌∷◌, ◌++◌, codes, map, IfOk, OnOk};
ghost use Rattle.iso_model.specs.Terms.TermOf.{term_of};
ghost use Rattle.iso_model.specs.Session.Lines as lines;
ghost use Rattle.iso_model.specs.Terms.Variables.{distinct_from};
ghost use Rattle.iso_session_core.specs.Named.{names_of};

use iso_model::{Numbering, Term};
use iso_ops::OpTable;
use iso_write::{Style, write_to};
use std::alloc::{AllocError, Global};

/// `syntax error in clause K`
pub fn syntax_error_line(alloc: Global, number: u64) -> Result<Vec<u8>, AllocError>
    ensures { IfOk result (λ line. line.items ≡ lines.syntax_error_line number ++ 10 ∷ []) }
{
    Ok(format!(in alloc; "syntax error in clause {number}\n")?.into_bytes())
}

/// `clause K skipped`
pub fn skipped_line(alloc: Global, number: u64) -> Result<Vec<u8>, AllocError>
    ensures { IfOk result (λ line. line.items ≡ lines.skipped_line number ++ 10 ∷ []) }
{
    Ok(format!(in alloc; "clause {number} skipped\n")?.into_bytes())
}

/// `clause K refused: E`
pub fn refused_line(
    alloc: Global,
    ops: &OpTable,
    number: u64,
    error: &Term,
) -> Result<Vec<u8>, AllocError>
    ensures { IfOk result (λ line. line.items ≡ lines.refused_line ops.now number (term_of error.now) ++ 10 ∷ []) }
{
    let mut line = format!(in alloc; "clause {number} refused: ")?.into_bytes();
    finish_with_term(alloc, ops, &mut line, error)?;
    Ok(line)
}

/// `directive K failed`
pub fn directive_failed_line(alloc: Global, number: u64) -> Result<Vec<u8>, AllocError>
    ensures { IfOk result (λ line. line.items ≡ lines.directive_failed_line number ++ 10 ∷ []) }
{
    Ok(format!(in alloc; "directive {number} failed\n")?.into_bytes())
}

/// `directive K stopped: budget`
pub fn directive_stopped_line(alloc: Global, number: u64) -> Result<Vec<u8>, AllocError>
    ensures { IfOk result (λ line. line.items ≡ lines.directive_stopped_line number ++ 10 ∷ []) }
{
    Ok(format!(in alloc; "directive {number} stopped: budget\n")?.into_bytes())
}

/// `directive K refused: BALL`
pub fn directive_refused_line(
    alloc: Global,
    ops: &OpTable,
    number: u64,
    ball: &Term,
) -> Result<Vec<u8>, AllocError>
    ensures { IfOk result (λ line. line.items ≡ lines.directive_refused_line ops.now number (term_of ball.now) ++ 10 ∷ []) }
{
    let mut line = format!(in alloc; "directive {number} refused: ")?.into_bytes();
    finish_with_term(alloc, ops, &mut line, ball)?;
    Ok(line)
}

/// `end: error BALL`
pub fn error_line(alloc: Global, ops: &OpTable, ball: &Term) -> Result<Vec<u8>, AllocError>
    ensures { IfOk result (λ line. line.items ≡ lines.error_line ops.now (term_of ball.now) ++ 10 ∷ []) }
{
    let mut line = Vec::new(alloc);
    line.extend_from_slice(b"end: error ")?;
    finish_with_term(alloc, ops, &mut line, ball)?;
    Ok(line)
}

/// `end: halt N`
pub fn halt_line(alloc: Global, status: u8) -> Result<Vec<u8>, AllocError>
    ensures { IfOk result (λ line. line.items ≡ lines.halt_line status ++ 10 ∷ []) }
{
    Ok(format!(in alloc; "end: halt {status}\n")?.into_bytes())
}

/// Appends a term as `writeq` does where a term of at most 699 may stand, by these operators; a variable is `_k`, k its
/// place among `seen`, which grows. The error is that memory was refused.
fn append_term(
    alloc: Global,
    ops: &OpTable,
    line: &mut Vec<u8>,
    term: &Term,
    seen: &mut Numbering,
) -> Result<(), AllocError>
    ensures seen { OnOk result (seen.new ≡ distinct_from seen.old (term_of term.now)) }
    ensures text { OnOk result (line.new.items ≡ line.old.items ++ lines.text_in ops.now seen.old (term_of term.now)) }
{
    write_to(alloc, line, term, Style::Writeq, 699, ops, seen)
}

/// Appends the line's only term and its newline. The error is that memory was refused.
pub fn finish_with_term(
    alloc: Global,
    ops: &OpTable,
    line: &mut Vec<u8>,
    term: &Term,
) -> Result<(), AllocError>
    ensures { OnOk result (line.new.items ≡ line.old.items ++ (lines.text_of ops.now (term_of term.now) ++ 10 ∷ [])) }
{
    let mut seen = Numbering::new(alloc);
    append_term(alloc, ops, line, term, &mut seen)?;
    line.push(b'\n')?;
    Ok(())
}

/// `answer K: X = t, Y = u` with the value of each of these variables, or `answer K: true` where there is none.
pub fn answer_line(
    alloc: Global,
    ops: &OpTable,
    answer: u64,
    names: &[(String, u64)],
    values: &[Term],
) -> Result<Vec<u8>, AllocError>
    ensures { IfOk result (λ line.
        line.items ≡ lines.answer_line ops.now answer (names_of names.now) (map term_of values.now) ++ 10 ∷ []) }
{
    let mut line = format!(in alloc; "answer {answer}:")?.into_bytes();
    append_solution(alloc, ops, &mut line, names, values)?;
    line.push(b'\n')?;
    Ok(line)
}

/// Appends the values of these variables as equations, or `true` where there is none, behind a space. The error is that
/// memory was refused.
pub fn append_solution(
    alloc: Global,
    ops: &OpTable,
    line: &mut Vec<u8>,
    names: &[(String, u64)],
    values: &[Term],
) -> Result<(), AllocError>
    ensures { OnOk result (line.new.items
        ≡ line.old.items ++ lines.solution_text ops.now (names_of names.now) (map term_of values.now)) }
{
    if names.is_empty() {
        return line.extend_from_slice(b" true");
    }
    let mut seen = Numbering::new(alloc);
    let mut before: &[u8] = b" ";
    for (name, number) in names {
        line.extend_from_slice(before)?;
        append_equation(alloc, ops, line, name.as_str(), *number, values, &mut seen)?;
        before = b", ";
    }
    Ok(())
}

/// Appends `X = t`, with the value of the variable of this number.
fn append_equation(
    alloc: Global,
    ops: &OpTable,
    line: &mut Vec<u8>,
    name: &str,
    number: u64,
    values: &[Term],
    seen: &mut Numbering,
) -> Result<(), AllocError>
    ensures seen { OnOk result (seen.new
        ≡ distinct_from seen.old (lines.value_at (map term_of values.now) number)) }
    ensures text { OnOk result (line.new.items ≡ line.old.items
        ++ (name.now ++ (codes " = " ++ lines.text_in ops.now seen.old (lines.value_at (map term_of values.now) number)))) }
{
    line.extend_from_slice(name.as_bytes())?;
    line.extend_from_slice(b" = ")?;
    match values.get(number as usize) {
        Some(value) => append_term(alloc, ops, line, value, seen),
        // An answer has a value for each variable of its query, so this does not come; an empty atom would be written.
        None => append_term(alloc, ops, line, &Term::Atom(String::new(alloc)), seen),
    }
}
