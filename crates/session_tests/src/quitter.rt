//! The smallest engine: it gives up where a goal is to be started. It shows that the trait can be met: the contract
//! asks an engine to name the pieces of a walk in which its heap or its frames may be full, and this one names all of
//! them for its heap, and none for its frames.
ghost use Rattle.std.specs.Prelude.{◌≡◌, false, if◌then◌else◌, IfOk};
ghost use Rattle.iso_ops.specs.InitialOperators.{initial_entries};
ghost use Rattle.iso_ops.specs.Settings.{initial_flags};
ghost use Rattle.iso_model.specs.Search.Walker.{idle};
ghost use Rattle.iso_model.specs.Search.Engines.{Phase, Ready, Spent};
ghost use Rattle.iso_model.specs.declared.limit.Limit.TheVariants.{Heap};

use anyhow::{Result, ensure};
use iso_model::{AddFault, Engine, NoMemory, Pause, StartFault, Term};
use iso_ops::{Flags, OpTable};
use iso_session_core::{Ended, session_on};
use std::alloc::Global;
use std::io;

/// An engine that answers a full heap to each goal that it is given, refuses memory for each clause, and keeps
/// nothing but the operators and flags.
#[derive(Drop)]
pub struct Quitter {
    spent: bool,
    ops: OpTable,
    flags: Flags,
}

impl Quitter {
    /// An engine that has not given up yet. The error is that memory was refused.
    fn new(alloc: Global) -> Result<Quitter, NoMemory>
        ensures awake { IfOk result (λ engine. engine.spent ≡ false) }
        ensures ops { IfOk result (λ engine. engine.ops ≡ initial_entries) }
        ensures flags { IfOk result (λ engine. engine.flags ≡ initial_flags) }
    {
        let ops = OpTable::initial(alloc)?;
        Ok(Quitter {
            spent: false,
            ops,
            flags: Flags::initial(),
        })
    }
}

impl Engine for Quitter {
    ghost stands_for = { λ engine s. (s ≡ idle s.world) × (s.world.operators ≡ engine.ops) × (s.world.flags ≡ engine.flags) };

    ghost phase = { λ engine. if engine.spent then Spent Heap else Ready };

    ghost left = { λ _. 0 };

    ghost heap_pieces = { λ _ _. Unit {0} };

    ghost frames_pieces = { λ _ _. ⊥ };

    fn start(&mut self, _goal: &Term, _budget: u32) -> Result<(), StartFault> {
        self.spent = true;
        Err(StartFault::HeapFull)
    }

    fn resume(&mut self) -> Pause {
        if self.spent {
            Pause::Spent
        } else {
            Pause::NoMore
        }
    }

    fn ops(&self) -> &OpTable {
        &self.ops
    }

    fn flags(&self) -> &Flags {
        &self.flags
    }

    fn consult(&mut self, _clause: &Term) -> Result<(), AddFault> {
        Err(AddFault::NoMemory)
    }
}

/// Writes a session with one query on this engine. The error: it ended otherwise than the engine does.
pub fn run(rt: &HostRuntime) -> Result<()> {
    let mut engine = Quitter::new(rt.alloc())?;
    let mut out = io::writer(rt);
    let ended = session_on(rt.alloc(), &mut engine, "", "p.", 1, &mut out)?;
    ensure!(ended == Ended::HeapFull, "the heap was not full");
    Ok(())
}
