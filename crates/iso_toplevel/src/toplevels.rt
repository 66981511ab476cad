//! Toplevels with the engines that the program has.
ghost use Rattle.std.specs.Prelude.{◌≡◌, ℕ, List, Some};
ghost use Rattle.iso_model.specs.Search.Runs.{ComesAbove, ComesOver};
ghost use Rattle.iso_model.specs.Search.RunLaws.Spans.{ComesBeyond};
ghost use Rattle.iso_session.specs.Pieces.{frames_pieces};
ghost use Rattle.iso_toplevel_core.specs.Dialogues.{toplevel_script};
ghost use Rattle.iso_toplevel_core.specs.Progress.{ToplevelDoes, ToplevelWalkStops};

use iso_model::Limits;
use iso_session::machine_sessions::machine_engine;
use iso_session::plain_sessions::plain_engine;
use iso_session_core::{Ended, EngineName};
use iso_toplevel_core::{Fault, Manner, refused_toplevel, toplevel_on};
use std::alloc::Global;
use std::io::{BufRead, Write};

/// A toplevel with the plain engine over cells.
fn plain_toplevel<R: BufRead, W: Write>(
    alloc: Global,
    text: &str,
    limits: &Limits,
    waits: bool,
    input: &mut R,
    out: &mut W,
) -> Result<Ended, Fault>
    ensures { (xs : List ℕ) → R.remaining input.old ≡ Some xs → ToplevelDoes (toplevel_script waits text.now xs limits.now.budget)
        (ToplevelWalkStops waits limits.now.budget (ComesAbove limits.now.cells) (ComesOver limits.now.frames)
        (toplevel_script waits text.now xs limits.now.budget))
        (W.contents out.old) (W.contents out.new) result }
{
    let Ok(mut engine) = plain_engine(alloc, limits) else {
        return refused_toplevel(out);
    };
    let manner = Manner {
        waits,
        budget: limits.budget,
    };
    toplevel_on(alloc, &mut engine, text, manner, input, out)
}

/// A toplevel with the Warren machine over cells.
fn machine_toplevel<R: BufRead, W: Write>(
    alloc: Global,
    text: &str,
    limits: &Limits,
    waits: bool,
    input: &mut R,
    out: &mut W,
) -> Result<Ended, Fault>
    ensures { (xs : List ℕ) → R.remaining input.old ≡ Some xs → ToplevelDoes (toplevel_script waits text.now xs limits.now.budget)
        (ToplevelWalkStops waits limits.now.budget (ComesAbove limits.now.cells) (ComesBeyond limits.now.frames)
        (toplevel_script waits text.now xs limits.now.budget))
        (W.contents out.old) (W.contents out.new) result }
{
    let Ok(mut engine) = machine_engine(alloc, limits) else {
        return refused_toplevel(out);
    };
    let manner = Manner {
        waits,
        budget: limits.budget,
    };
    toplevel_on(alloc, &mut engine, text, manner, input, out)
}

/// A toplevel with the engine of this name, within these limits: it consults the text, and then runs the queries of the
/// input, each over the world that those before left. Where it waits it prompts, and the person at the input says
/// behind each answer whether the query goes on. The bytes written are those of the standard's search. Where heap,
/// frames or memory end it, they are a beginning of them and the line that says which. The heap ends it only where the
/// search comes to a state twice whose load is above the cells; the frames end it with the plain engine only where it
/// comes to more alternatives than there are frames, and with the machine only where it comes to a state that spans
/// more. The errors: a write of at least one byte answered an error or took 0 bytes, or the input can't be read; what was
/// written is a beginning.
pub fn toplevel<R: BufRead, W: Write>(
    alloc: Global,
    text: &str,
    limits: &Limits,
    engine: EngineName,
    waits: bool,
    input: &mut R,
    out: &mut W,
) -> Result<Ended, Fault>
    ensures { (xs : List ℕ) → R.remaining input.old ≡ Some xs → ToplevelDoes (toplevel_script waits text.now xs limits.now.budget)
        (ToplevelWalkStops waits limits.now.budget (ComesAbove limits.now.cells) (frames_pieces engine limits.now.frames)
        (toplevel_script waits text.now xs limits.now.budget))
        (W.contents out.old) (W.contents out.new) result }
{
    match engine {
        EngineName::Plain => plain_toplevel(alloc, text, limits, waits, input, out),
        EngineName::Wam => machine_toplevel(alloc, text, limits, waits, input, out),
    }
}
