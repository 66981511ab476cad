//! The operators and the flags by which the terms of a text are read.
ghost use Rattle.std.specs.Prelude.{◌≡◌, List, Some, None, map, unwrap_or, IfOk, OnOk};
ghost use Rattle.iso_model.specs.Terms.TermOf.{term_of};
ghost use Rattle.iso_lint_core.specs.Settings.{initial_settings, operators_behind, flags_behind, behind_goal, behind_term};
ghost use Rattle.iso_lint_core.specs.Names.{set_all};
ghost use Rattle.iso_ops.specs.Entries.{text_of};

use crate::names::names_of;
use crate::shapes::{Shape, shape_of};
use iso_model::Term;
use iso_ops::{Flags, OpFault, OpTable};
use iso_session_core::{TextTerm, text_term};
use std::alloc::{AllocError, Global};

/// The operators and the flags.
#[derive(Drop)]
pub struct Settings {
    /// The operators.
    pub ops: OpTable,
    /// The flags.
    pub flags: Flags,
}

/// The operators once each of these names is one of this priority and specifier; none where one of them can't be. The
/// error is that memory was refused.
fn with_all(
    alloc: Global,
    ops: &OpTable,
    priority: i128,
    specifier: &str,
    names: &[&str],
) -> Result<Option<OpTable>, AllocError>
    ensures { IfOk result (λ table. table ≡ set_all priority specifier.now (map text_of names.now) ops.now) }
{
    let mut table = ops.copied(alloc)?;
    for name in names {
        match table.add_op(priority, specifier, name) {
            Ok(()) => {}
            Err(fault) => match fault {
                OpFault::NoMemory => return Err(AllocError),
                _ => return Ok(None),
            },
        }
    }
    Ok(Some(table))
}

/// Sets operators as a goal `op(P, T, Names)` does (8.14.3); one that raises an error sets none. The error is that
/// memory was refused.
fn set_operators(
    alloc: Global,
    ops: &mut OpTable,
    priority: &Term,
    specifier: &Term,
    names: &Term,
) -> Result<(), AllocError>
    ensures { OnOk result (ops.new ≡ operators_behind (term_of priority.now) (term_of specifier.now) (term_of names.now) ops.old) }
{
    let Shape::Integer(priority) = shape_of(priority) else {
        return Ok(());
    };
    let Shape::Atom(specifier) = shape_of(specifier) else {
        return Ok(());
    };
    let Some(names) = names_of(alloc, names)? else {
        return Ok(());
    };
    match with_all(alloc, ops, priority, specifier, &names)? {
        Some(table) => {
            *ops = table;
            Ok(())
        }
        None => Ok(()),
    }
}

/// Sets a flag as a goal `set_prolog_flag(F, V)` does (8.17.1); one that raises an error sets none.
fn set_flag(flags: &mut Flags, flag: &Term, value: &Term)
    ensures { flags.new ≡ flags_behind (term_of flag.now) (term_of value.now) flags.old }
{
    let Shape::Atom(flag) = shape_of(flag) else {
        return;
    };
    if let Shape::Atom(value) = shape_of(value) {
        flags.set(flag, value);
    }
}

impl Settings {
    /// Those before any is set. The error is that memory was refused.
    pub fn initial(alloc: Global) -> Result<Settings, AllocError>
        ensures { IfOk result (λ settings. settings ≡ initial_settings) }
    {
        Ok(Settings {
            ops: OpTable::initial(alloc)?,
            flags: Flags::initial(),
        })
    }

    /// Sets what this goal sets. The error is that memory was refused.
    fn set_by_goal(&mut self, alloc: Global, goal: &Term) -> Result<(), AllocError>
        ensures { OnOk result (self.new ≡ behind_goal (term_of goal.now) self.old) }
    {
        match shape_of(goal) {
            Shape::Two(name, flag, value) => {
                if name == "set_prolog_flag" {
                    set_flag(&mut self.flags, flag, value);
                }
                Ok(())
            }
            Shape::Three(name, priority, specifier, names) => {
                if name == "op" {
                    set_operators(alloc, &mut self.ops, priority, specifier, names)?;
                }
                Ok(())
            }
            Shape::Variable => Ok(()),
            Shape::Integer(_) => Ok(()),
            Shape::Atom(_) => Ok(()),
            Shape::One(_, _) => Ok(()),
            Shape::Other(_, _) => Ok(()),
        }
    }

    /// Sets what this term of a text sets (7.4.2). The error is that memory was refused.
    pub fn set_by_term(&mut self, alloc: Global, term: &Term) -> Result<(), AllocError>
        ensures { OnOk result (self.new ≡ behind_term (term_of term.now) self.old) }
    {
        match text_term(term) {
            TextTerm::Directive(goal) => self.set_by_goal(alloc, goal),
            TextTerm::Clause => Ok(()),
            TextTerm::Initialization(_) => Ok(()),
            TextTerm::PassedOver => Ok(()),
        }
    }
}
