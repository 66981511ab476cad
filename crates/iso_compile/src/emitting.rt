//! The code of compounds: each block, and behind it the blocks of the compounds in it.
ghost use Rattle.std.specs.Prelude.{◌≡◌, ◌+◌, ◌*◌, ◌<◌, ◌≤◌, true, length, OnOk, MatchOption};
ghost use Rattle.std.specs.String.{string_bytes};
ghost use Rattle.iso_model.specs.Terms.Trees.{Apply};
ghost use Rattle.iso_model.specs.Terms.TermOf.{term_of, row_of};
ghost use Rattle.iso_model.specs.Terms.Sizes.{size};
ghost use Rattle.iso_compile.specs.declared.emitting.Task.TheVariants as task;
ghost use Rattle.iso_compile.specs.Emitted.{all_parts};
ghost use Rattle.iso_compile.specs.Tasks.{Goes, is_atomic, stage_of, with_row, with_task, with_tasks, task_load, tasks_load};

use super::instructions::Block;
use super::parts::{next_register, parts_in};
use iso_alloc::Plan;
use iso_model::Term;
use std::alloc::{AllocError, Global};

/// Blocks that are emitted one after the other.
#[derive(Drop)]
pub struct Emitter {
    /// The blocks so far.
    pub code: Vec<Block>,
    /// For each variable of the plan, whether the code so far meets it.
    pub met: Vec<bool>,
    /// The next register that is free.
    pub next: usize,
}

/// What is left to do.
#[derive(Clone, Copy)]
enum Task<'t> {
    /// The compounds among these terms are in the registers from this one on: emit their blocks.
    Row(usize, &'t [Term]),
    /// The compounds in that of the block at this place are done; this register was free before them.
    Close(usize, usize),
}

/// The name and the arguments of a compound.
pub fn compound(term: &Term) -> Option<(&String, &[Term])>
    ensures { MatchOption result (is_atomic (term_of term.now) ≡ true) (λ c. term_of term.now ≡ Apply (string_bytes c.0.now) (row_of c.1.now)) }
{
    match term {
        Term::Compound(name, arguments) => Some((name, arguments.as_slice())),
        Term::Var(_) | Term::Int(_) | Term::Atom(_) => None,
    }
}

impl Emitter {
    /// Emits the block of a compound in this register, and leaves what is in it to be done. The error is that memory
    /// was refused.
    fn emit_compound<'t>(
        &mut self,
        alloc: Global,
        plan: &Plan,
        register: usize,
        name: &String,
        arguments: &'t [Term],
        tasks: &mut Vec<Task<'t>>,
    ) -> Result<(), AllocError>
        requires { length self.old.met.items ≡ length plan.now.places }
        ensures made { OnOk result (with_tasks tasks.new.items (stage_of self.new) ≡ with_tasks tasks.old.items (with_row register (Apply (string_bytes name.now) (row_of arguments.now)) (stage_of self.old))) }
        ensures marks { OnOk result (Goes plan.now.places self.old self.new) }
        ensures many { length self.new.met.items ≡ length self.old.met.items }
        ensures load { OnOk result (tasks_load tasks.new.items ≤ 2 + 2 * size (row_of arguments.now) + tasks_load tasks.old.items) }
    {
        tasks.push(Task::Close(self.code.len(), self.next))?;
        tasks.push(Task::Row(self.next, arguments))?;
        let (parts, behind) = parts_in(alloc, plan, &mut self.met, self.next, arguments)?;
        let name = name.clone()?;
        self.code.push(Block {
            register,
            name,
            parts,
            inner: 0,
        })?;
        self.next = behind;
        Ok(())
    }

    /// Emits the block of the first of these terms, where it is a compound, and leaves what is in it and the others to
    /// be done. The error is that memory was refused.
    fn emit_first<'t>(
        &mut self,
        alloc: Global,
        plan: &Plan,
        register: usize,
        terms: &'t [Term],
        tasks: &mut Vec<Task<'t>>,
    ) -> Result<(), AllocError>
        requires { length self.old.met.items ≡ length plan.now.places }
        ensures made { OnOk result (with_tasks tasks.new.items (stage_of self.new) ≡ with_tasks tasks.old.items (with_row register (row_of terms.now) (stage_of self.old))) }
        ensures marks { OnOk result (Goes plan.now.places self.old self.new) }
        ensures many { length self.new.met.items ≡ length self.old.met.items }
        ensures load { OnOk result (tasks_load tasks.new.items < 1 + 2 * size (row_of terms.now) + tasks_load tasks.old.items) }
    {
        let [first, others @ ..] = terms else {
            return Ok(());
        };
        let Some((name, arguments)) = compound(first) else {
            tasks.push(Task::Row(register, others))?;
            return Ok(());
        };
        let next = next_register(register)?;
        tasks.push(Task::Row(next, others))?;
        self.emit_compound(alloc, plan, register, name, arguments, tasks)
    }

    /// Notes how many blocks are behind the one at this place, before which this register was free.
    fn close(&mut self, at: usize, first: usize)
        ensures made { stage_of self.new ≡ with_task (task.Close at first) (stage_of self.old) }
        ensures parts { all_parts self.new.code.items ≡ all_parts self.old.code.items }
        ensures met { self.new.met ≡ self.old.met }
    {
        if at < self.code.len() {
            self.code[at].inner = self.next.saturating_sub(first);
        }
    }

    /// Does a task. The error is that memory was refused.
    fn step<'t>(
        &mut self,
        alloc: Global,
        plan: &Plan,
        task: Task<'t>,
        tasks: &mut Vec<Task<'t>>,
    ) -> Result<(), AllocError>
        requires { length self.old.met.items ≡ length plan.now.places }
        ensures made { OnOk result (with_tasks tasks.new.items (stage_of self.new) ≡ with_tasks tasks.old.items (with_task task.entry (stage_of self.old))) }
        ensures marks { OnOk result (Goes plan.now.places self.old self.new) }
        ensures many { length self.new.met.items ≡ length self.old.met.items }
        ensures load { OnOk result (tasks_load tasks.new.items < task_load task.entry + tasks_load tasks.old.items) }
    {
        match task {
            Task::Row(register, terms) => self.emit_first(alloc, plan, register, terms, tasks),
            Task::Close(at, first) => {
                self.close(at, first);
                Ok(())
            }
        }
    }

    /// Emits the blocks of the compounds among these terms, which are in the registers from this one on; those in them
    /// get the registers that are free. The error is that memory was refused.
    pub fn emit(
        &mut self,
        alloc: Global,
        plan: &Plan,
        register: usize,
        terms: &[Term],
    ) -> Result<(), AllocError>
        requires { length self.old.met.items ≡ length plan.now.places }
        ensures made { OnOk result (stage_of self.new ≡ with_row register (row_of terms.now) (stage_of self.old)) }
        ensures marks { OnOk result (Goes plan.now.places self.old self.new) }
        ensures many { length self.new.met.items ≡ length self.old.met.items }
    {
        let mut tasks = Vec::new(alloc);
        tasks.push(Task::Row(register, terms))?;
        while let Some(task) = tasks.pop() {
            self.step(alloc, plan, task, &mut tasks)?;
        }
        Ok(())
    }
}
