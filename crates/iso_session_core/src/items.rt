//! What is read of a text, item by item.
ghost use Rattle.std.specs.Prelude.{◌≡◌, ◌<◌, length, true, IfOk, IfSome};
ghost use Rattle.iso_model.specs.Syntax.Items.{next_item};
ghost use Rattle.iso_model.specs.Search.Engines.{Ready};
ghost use Rattle.iso_model.specs.Search.Walker.{State};
ghost use Rattle.iso_session_core.specs.Read.{found, Fits};

use iso_model::Engine;
use iso_read::{Read, ReadFault, read_clause};
use iso_token::Tokens;
use std::alloc::{AllocError, Global};

/// What a text has up to an end token, or up to its end.
#[derive(Debug, Drop)]
pub enum Item {
    /// A term, with the names of its variables.
    Readable(Read),
    /// A syntax error.
    Unreadable,
}

/// The next item of a text, by the operators and flags that the engine has now; none at its end. The error is that
/// memory was refused; the tokens aren't used any more then.
pub fn take_item<E: Engine>(
    alloc: Global,
    engine: &E,
    tokens: &mut Tokens<'_>,
) -> Result<Option<Item>, AllocError>
    requires ready { E.phase engine.now ≡ Ready }
    ensures item { (s : State) → E.stands_for engine.now s
        → IfOk result (λ item. next_item s.world.operators s.world.flags tokens.old ≡ found item tokens.new) }
    ensures fits { IfOk result (λ item. IfSome item Fits) }
    ensures shorter { IfOk result (λ item. IfSome item (λ _. length tokens.new < length tokens.old)) }
{
    match read_clause(alloc, tokens, engine.ops(), engine.flags()) {
        Ok(None) => Ok(None),
        Ok(Some(read)) => Ok(Some(Item::Readable(read))),
        Err(ReadFault::Syntax) => Ok(Some(Item::Unreadable)),
        Err(ReadFault::NoMemory) => Err(AllocError),
    }
}
