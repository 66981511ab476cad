//! The table of operators (6.3.4.4, 8.14.3).
ghost use Rattle.std.specs.Prelude.{◌≡◌, ◌≢◌, ◌<◌, ◌≤◌, ◌++◌, codes, Some, None, false, length, map, slice_get, position, IfSome, IfOk, IfErr, OnOk, OnErr, Ok, Err, MatchResult, IsOkAnd};
ghost use Rattle.std.specs.Option.{option_map};
ghost use Rattle.iso_ops.specs.declared.specifiers.Kind.TheVariants.{Prefix, Infix, Postfix};
ghost use Rattle.iso_ops.specs.declared.table.OpFault.TheVariants.{NoMemory};
ghost use Rattle.iso_ops.specs.Specifiers.{kind_of};
ghost use Rattle.iso_ops.specs.Operators.{operator, is_for, find_op, priority_and_spec, is_protected, has_rival, asked_op, with_op, without_op, set_op, IsOpTable, AddsEntry};
ghost use Rattle.iso_ops.specs.Operators as operators;
ghost use Rattle.iso_ops.specs.Entries.{operator_of};
ghost use Rattle.iso_ops.specs.InitialOperators.{initial_entries};

use crate::initial::{initial_rows, push_entry};
use crate::specifiers::{Kind, Spec};
use std::alloc::{AllocError, Global};
use std::marker::Model;

/// An operator in a table.
#[derive(Debug, Drop)]
pub struct Entry {
    /// Its priority, 1 to 1200.
    pub priority: u16,
    /// Its specifier.
    pub spec: Spec,
    /// Its name.
    pub name: String,
}

/// Why an operator can't be set (8.14.3.3). Of several reasons the first in this order is given.
#[derive(Clone, Copy, Debug, PartialEq, Eq)]
pub enum OpFault {
    /// The priority isn't in 0..1200.
    Priority,
    /// There is no such specifier.
    Specifier,
    /// The name is `,`, `[]`, `{}` or the bar.
    Protected,
    /// The name would be an infix and a postfix operator.
    Clash,
    /// Memory was refused.
    NoMemory,
}

impl From<AllocError> for OpFault {
    ghost from_gives = { λ _ fault. fault ≡ NoMemory };

    fn from(_: AllocError) -> Self {
        OpFault::NoMemory
    }
}

/// The operators, in the order of `current_op/3`.
#[derive(Drop)]
pub struct OpTable {
    entries: Vec<Entry>,
}

impl Model for OpTable {
    ghost use Rattle.std.specs.Prelude.{List, map};
    ghost use Rattle.iso_ops.specs.Operators.{Operator, IsOpTable};
    ghost use Rattle.iso_ops.specs.Entries.{operator_of};

    ghost Value = { List Operator };

    ghost view = { λ table. map operator_of table.entries.items };

    ghost invariant = { λ table. IsOpTable (map operator_of table.entries.items) };
}

impl Entry {
    // Whether the entry is an operator of this kind and has this name.
    fn is_for(&self, kind: Kind, name: &str) -> bool
        ensures { result ≡ is_for kind name.now (operator_of self.now) }
    {
        kind == self.spec.kind() && name == self.name.as_str()
    }
}

// Whether no operator of this name may be made or changed.
fn is_protected(name: &str) -> bool
    ensures { result ≡ operators.is_protected name.now }
{
    matches!(name, "," | "[]" | "{}" | "|")
}

// The same entries, in a list of their own. The error is that memory was refused.
fn copied_entries(alloc: Global, entries: &[Entry]) -> Result<Vec<Entry>, AllocError>
    ensures { IfOk result (λ copy. map operator_of copy.items ≡ map operator_of entries.now) }
{
    let mut copy = Vec::with_capacity(alloc, entries.len())?;
    for entry in entries {
        push_entry(&mut copy, entry.priority, entry.spec, entry.name.as_str())?;
    }
    Ok(copy)
}

// The place of the operator of this kind and name.
fn place_of(entries: &[Entry], kind: Kind, name: &str) -> Option<usize>
    ensures { result ≡ position (λ entry. is_for kind name.now (operator_of entry)) entries.now }
{
    entries.iter().position(|entry| entry.is_for(kind, name))
}

impl OpTable {
    /// The operators before any is set (6.3.4.4). The error is that memory was refused.
    pub fn initial(alloc: Global) -> Result<OpTable, AllocError>
        ensures entries { IfOk result (λ table. table ≡ initial_entries) }
        ensures table { IfOk result IsOpTable }
    {
        let entries = initial_rows(alloc)?;
        Ok(OpTable { entries })
    }

    /// The prefix operator of this name: its priority, 1 to 1200, and its specifier. Takes no memory.
    pub fn prefix(&self, name: &str) -> Option<(u16, Spec)>
        ensures entry { result ≡ option_map priority_and_spec (find_op Prefix name.now self.now) }
        ensures table { IsOpTable self.now }
    {
        self.find(Kind::Prefix, name)
    }

    /// The infix operator of this name: its priority, 1 to 1200, and its specifier. Takes no memory.
    pub fn infix(&self, name: &str) -> Option<(u16, Spec)>
        ensures entry { result ≡ option_map priority_and_spec (find_op Infix name.now self.now) }
        ensures table { IsOpTable self.now }
    {
        self.find(Kind::Infix, name)
    }

    /// The postfix operator of this name: its priority, 1 to 1200, and its specifier. Takes no memory.
    pub fn postfix(&self, name: &str) -> Option<(u16, Spec)>
        ensures entry { result ≡ option_map priority_and_spec (find_op Postfix name.now self.now) }
        ensures table { IsOpTable self.now }
    {
        self.find(Kind::Postfix, name)
    }

    // The operator of this kind and name.
    fn find(&self, kind: Kind, name: &str) -> Option<(u16, Spec)>
        ensures entry { result ≡ option_map priority_and_spec (find_op kind name.now self.now) }
        ensures table { IsOpTable self.now }
    {
        let found = place_of(self.entries.as_slice(), kind, name)?;
        let entry = &self.entries[found];
        Some((entry.priority, entry.spec))
    }

    // Whether the name is an operator of the kind that this kind can't be beside.
    fn has_rival(&self, kind: Kind, name: &str) -> bool
        ensures { result ≡ has_rival kind name.now self.now }
    {
        match kind {
            Kind::Prefix => false,
            Kind::Infix => self.postfix(name).is_some(),
            Kind::Postfix => self.infix(name).is_some(),
        }
    }

    // The priority and the specifier of the operator that is asked for, or the first fault.
    fn asked(&self, priority: i128, spec: &str, name: &str) -> Result<(u16, Spec), OpFault>
        ensures asked { MatchResult result (λ op. asked_op priority spec.now name.now self.now ≡ Ok (operator op.0 op.1 name.now)) (λ fault. asked_op priority spec.now name.now self.now ≡ Err fault) }
        ensures range { IfOk result (λ op. op.0 ≤ 1200) }
        ensures free { IfOk result (λ op. (is_protected name.now ≡ false) × (1 ≤ op.0 → has_rival (kind_of op.1) name.now self.now ≡ false)) }
    {
        if priority < 0 || priority > 1200 {
            return Err(OpFault::Priority);
        }
        let Some(spec) = Spec::named(spec) else {
            return Err(OpFault::Specifier);
        };
        if is_protected(name) {
            return Err(OpFault::Protected);
        }
        if priority > 0 && self.has_rival(spec.kind(), name) {
            return Err(OpFault::Clash);
        }
        Ok((priority as u16, spec))
    }

    // Takes the operator of this kind and name away, if there is one.
    fn remove(&mut self, kind: Kind, name: &str)
        requires { is_protected name.now ≡ false }
        ensures removed { self.new ≡ without_op kind name.now self.old }
        ensures table { IsOpTable self.new }
    {
        if let Some(place) = place_of(self.entries.as_slice(), kind, name) {
            self.entries.remove(place);
        }
    }

    // Puts an operator into the place of the one of its kind and name, or behind the others. The error is that memory
    // was refused for a new one.
    fn put(&mut self, priority: u16, spec: Spec, name: &str) -> Result<(), AllocError>
        requires low { 1 ≤ priority }
        requires high { priority ≤ 1200 }
        requires other { is_protected name.now ≡ false }
        requires alone { has_rival (kind_of spec) name.now self.old ≡ false }
        ensures ok { OnOk result (self.new ≡ with_op (operator priority spec name.now) self.old) }
        ensures err { OnErr result (self.new ≡ self.old) }
        ensures is_new { OnErr result (find_op (kind_of spec) name.now self.old ≡ None) }
        ensures table { IsOpTable self.new }
    {
        match place_of(self.entries.as_slice(), spec.kind(), name) {
            Some(place) => {
                let entry = &mut self.entries[place];
                entry.priority = priority;
                entry.spec = spec;
                Ok(())
            }
            None => push_entry(&mut self.entries, priority, spec, name),
        }
    }

    /// Sets an operator (8.14.3): a new one goes last, one of the same kind and name keeps its place, and the
    /// priority 0 takes it away. The faults are found in the order of `OpFault`, and nothing changes after any.
    /// Memory is refused only where an operator is new.
    pub fn add_op(&mut self, priority: i128, spec: &str, name: &str) -> Result<(), OpFault>
        ensures set { OnOk result (IsOkAnd (asked_op priority spec.now name.now self.old) (λ op. self.new ≡ set_op op self.old)) }
        ensures fault { IfErr (asked_op priority spec.now name.now self.old) (λ fault. result ≡ Err fault) }
        ensures unchanged { OnErr result (self.new ≡ self.old) }

        // An operator that may be set is refused only for want of memory for a new entry.
        ensures allowed { IfOk (asked_op priority spec.now name.now self.old) (λ op. IfErr result (λ fault. (fault ≡ NoMemory) × AddsEntry op self.old)) }
        ensures table { OnOk result (IsOpTable self.new) }
    {
        let (priority, spec) = self.asked(priority, spec, name)?;
        if priority == 0 {
            self.remove(spec.kind(), name);
        } else {
            self.put(priority, spec, name)?;
        }
        Ok(())
    }

    /// The same operators, in a table of their own. The error is that memory was refused.
    pub fn copied(&self, alloc: Global) -> Result<OpTable, AllocError>
        ensures same { IfOk result (λ table. table ≡ self.now) }
        ensures table { IsOpTable self.now }
    {
        let entries = copied_entries(alloc, self.entries.as_slice())?;
        Ok(OpTable { entries })
    }

    /// What holds of every table, for those who prove by it. Takes no memory.
    pub fn is_table(&self)
        ensures { IsOpTable self.now }
    {
        let _is_empty = self.entries.is_empty();
    }

    /// How many operators there are. Takes no memory.
    pub fn len(&self) -> usize
        ensures length { result ≡ length self.now }
        ensures table { IsOpTable self.now }
    {
        self.entries.len()
    }

    /// The operator at a place in the order of `current_op/3`. Takes no memory.
    pub fn entry(&self, place: usize) -> &Entry
        requires { place < length self.now }
        ensures { slice_get self.now place ≡ Some (operator_of result.now) }
    {
        &self.entries[place]
    }
}
