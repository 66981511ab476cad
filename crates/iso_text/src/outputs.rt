//! What goals that write are to write (8.12.3, 8.14.2).
ghost use Rattle.std.specs.Prelude.{◌≡◌, ◌≢◌, ◌∷◌, [], IfOk, Err, length};
ghost use Rattle.std.specs.List.{All};
ghost use Rattle.iso_model.specs.Terms.Trees.{Tree};
ghost use Rattle.iso_model.specs.Syntax.Characters.{newline};
ghost use Rattle.iso_model.specs.Search.Outputs.{output_reply, output_arity, written_text};
ghost use Rattle.iso_model.specs.declared.kinds.Output.TheVariants.{PutChar};
ghost use Rattle.iso_store_core.specs.Presents.{Holds, meaning};
ghost use Rattle.iso_store_core.specs.ArgumentWords.{AreArguments};
ghost use Rattle.iso_write.specs.Styles.{style_of};
ghost use Rattle.iso_text.specs.Written.{IsWritten};

use super::elements::character;
use iso_lib_core::Fault;
use iso_model::{NoMemory, Numbering, Output};
use iso_ops::OpTable;
use iso_store_core::Store;
use iso_write::{Style, write_to};
use std::alloc::Global;

/// The text of the term that the word stands for, in this style (8.14.2). The error is that memory was refused.
fn written<S: Store>(
    alloc: Global,
    store: &S,
    ops: &OpTable,
    style: Style,
    word: S::Word,
) -> Result<Vec<u8>, NoMemory>
    requires { Holds (S.present store.now) word }
    ensures { IfOk result (λ bytes. bytes.items ≡ written_text (style_of style) (meaning (S.present store.now) word) ops.now) }
{
    let term = store.copy_out(word)?;
    let mut text = Vec::new(alloc);
    let mut seen = Numbering::new(alloc);
    write_to(alloc, &mut text, &term, style, 1200, ops, &mut seen)?;
    Ok(text)
}

/// The bytes of the character that a goal of `put_char/1` is to write (8.12.3). The errors are those of `output`.
fn put_char<S: Store>(alloc: Global, store: &S, arguments: &[S::Word]) -> Result<Vec<u8>, Fault>
    requires arguments { All (λ w. Holds (S.present store.now) w) arguments.now }
    requires count { length arguments.now ≡ 1 }
    ensures written { (t : Tree) → AreArguments (S.present store.now) arguments.now t
        → IsWritten (output_reply PutChar t) [] result }
    ensures full { result ≢ Err Fault.Full }
{
    let found = character(alloc, store, arguments[0], "put_char", 1)?;
    let mut text = String::new(alloc);
    text.push(found)?;
    Ok(text.into_bytes())
}

/// A newline (8.12.3). The error is that memory was refused.
fn new_line(alloc: Global) -> Result<Vec<u8>, NoMemory>
    ensures { IfOk result (λ bytes. bytes.items ≡ newline ∷ []) }
{
    Ok(vec![in alloc; b'\n']?)
}

/// The bytes that a goal of this built-in, which has as many arguments, is to write by these operators. The errors:
/// one is raised, or memory was refused.
pub fn output<S: Store>(
    alloc: Global,
    store: &S,
    ops: &OpTable,
    row: Output,
    arguments: &[S::Word],
) -> Result<Vec<u8>, Fault>
    requires arguments { All (λ w. Holds (S.present store.now) w) arguments.now }
    requires count { length arguments.now ≡ output_arity row }
    ensures written { (t : Tree) → AreArguments (S.present store.now) arguments.now t
        → IsWritten (output_reply row t) ops.now result }
    ensures full { result ≢ Err Fault.Full }
{
    let style = match row {
        Output::PutChar => return put_char(alloc, store, arguments),
        Output::NewLine => return Ok(new_line(alloc)?),
        Output::Write => Style::Write,
        Output::Writeq => Style::Writeq,
        Output::WriteCanonical => Style::Canonical,
    };
    Ok(written(alloc, store, ops, style, arguments[0])?)
}
