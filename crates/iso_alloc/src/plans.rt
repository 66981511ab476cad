//! Plans: the place of each variable of a clause.
ghost use Rattle.std.specs.Prelude.{◌≡◌, ℕ, ◌+◌, ◌≤◌, ◌<◌, ◌^◌, [], ◌∷◌, ◌++◌, length, Some, IfOk, OnOk};
ghost use Rattle.std.specs.List.{slice_get};
ghost use Rattle.iso_prep.specs.Preparations.{Preparation};
ghost use Rattle.iso_prep.specs.Classes.{class_of, goals_of, last_goal};
ghost use Rattle.iso_alloc.specs.Plans.{IsPlan, arguments_of, argument_from};
ghost use Rattle.iso_alloc.specs.declared.places.Place.TheVariants.{Register, Slot};

use super::arguments::{first_arguments, head_arguments};
use super::places::Place;
use iso_prep::{Class, Prepared};
use std::alloc::{AllocError, Global};
use std::marker::Model;

/// The place of each variable of a clause or a goal. No two variables share a register or a slot.
#[derive(Debug, Drop)]
pub struct Plan {
    places: Vec<Place>,
    slots: usize,
    registers: usize,
}

impl Model for Plan {
    ghost use Rattle.iso_alloc.specs.Plans.{Layout};

    ghost Value = { Layout };

    ghost view = { λ p. record { places = p.places.items; slots = p.slots; registers = p.registers } };
}

impl Plan {
    /// The place of a variable.
    pub fn place(&self, variable: usize) -> Place
        requires { variable < length self.now.places }
        ensures { slice_get self.now.places variable ≡ Some result }
    {
        self.places[variable]
    }

    /// How many variables there are, each with a place.
    pub fn variables(&self) -> usize
        ensures { result ≡ length self.now.places }
    {
        self.places.len()
    }

    /// How many slots the environment has: the number of each slot is below.
    pub fn slots(&self) -> usize
        ensures { result ≡ self.now.slots }
    {
        self.slots
    }

    /// How many registers are used, those of the head's arguments included: the number of each is below.
    pub fn registers(&self) -> usize
        ensures { result ≡ self.now.registers }
    {
        self.registers
    }

    /// Gives the next variable this place. The error is that memory was refused.
    fn add(&mut self, place: Place) -> Result<(), AllocError>
        ensures places { OnOk result (self.new.places ≡ self.old.places ++ place ∷ []) }
        ensures slots { OnOk result (self.new.slots ≡ self.old.slots) }
        ensures registers { OnOk result (self.new.registers ≡ self.old.registers) }
    {
        self.places.push(place)?;
        Ok(())
    }

    /// Gives the next variable a slot of its own. The error is that memory was refused.
    fn add_slot(&mut self) -> Result<(), AllocError>
        requires { self.old.slots + 1 < 2 ^ 64 }
        ensures places { OnOk result (self.new.places ≡ self.old.places ++ Slot self.old.slots ∷ []) }
        ensures slots { OnOk result (self.new.slots ≡ self.old.slots + 1) }
        ensures registers { OnOk result (self.new.registers ≡ self.old.registers) }
    {
        self.add(Place::Slot(self.slots))?;
        self.slots += 1;
        Ok(())
    }

    /// Gives the next variable a register of its own. The error is that memory was refused.
    fn add_register(&mut self) -> Result<(), AllocError>
        requires { self.old.registers + 1 < 2 ^ 64 }
        ensures places { OnOk result (self.new.places ≡ self.old.places ++ Register self.old.registers ∷ []) }
        ensures slots { OnOk result (self.new.slots ≡ self.old.slots) }
        ensures registers { OnOk result (self.new.registers ≡ self.old.registers + 1) }
    {
        self.add(Place::Register(self.registers))?;
        self.registers += 1;
        Ok(())
    }

    /// Gives the next variable a place. It is of this class, the last goal that has it has this number, and it is this
    /// argument of the head, if it is one. The error is that memory was refused.
    fn give(
        &mut self,
        class: Class,
        last_use: usize,
        argument: Option<usize>,
    ) -> Result<(), AllocError>
        requires slots { self.old.slots + 1 < 2 ^ 64 }
        requires registers { self.old.registers + 1 < 2 ^ 64 }
        ensures slots { OnOk result (self.new.slots ≤ self.old.slots + 1) }
        ensures registers { OnOk result (self.new.registers ≤ self.old.registers + 1) }
        ensures plan { OnOk result ((p : Preparation) → IsPlan self.old p → class ≡ class_of p.variables p.head (goals_of p.body) → last_use ≡ last_goal p.variables (goals_of p.body)
            → argument ≡ argument_from 0 p.variables (arguments_of p.head) → IsPlan self.new (record p { variables = p.variables + 1 })) }
    {
        match (class, argument) {
            (Class::Void, _) => self.add(Place::Nowhere)?,
            (Class::Permanent, _) => self.add_slot()?,
            (Class::Temporary, _) if last_use > 1 => self.add_slot()?,
            (Class::Temporary, Some(register)) => self.add(Place::Register(register))?,
            (Class::Temporary, None) => self.add_register()?,
        }
        Ok(())
    }
}

/// A plan of a clause: void variables have no place, permanent ones have slots of the environment. So have temporary
/// ones of a goal behind the first, since the calls before it take all registers. A temporary variable that is an
/// argument of the head has the register of the first one that it is, so the head need not move it. The others have
/// registers behind those of the arguments. The error is that memory was refused.
pub fn assign(alloc: Global, prepared: &Prepared) -> Result<Plan, AllocError>
    ensures { IfOk result (λ plan. IsPlan plan prepared.now) }
{
    let uses = prepared.uses(alloc)?;
    let arguments = head_arguments(prepared.head());
    let count = prepared.variables();
    let first = first_arguments(alloc, count, arguments)?;
    let mut plan = Plan {
        places: Vec::with_capacity(alloc, count)?,
        slots: 0,
        registers: arguments.len(),
    };
    for (variable, argument) in first.iter().enumerate() {
        plan.give(uses.class(variable), uses.last_use(variable), *argument)?;
    }
    Ok(plan)
}
