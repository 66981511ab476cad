//! The classes and the last uses of a clause's variables, by which a compiler gives them registers and places in
//! environments.
ghost use Rattle.std.specs.Prelude.{◌≡◌, ◌<◌};
ghost use Rattle.iso_prep.specs.Classes.{class_of, goals_of, last_goal};

use super::prepared::Prepared;
use super::uses::Use;
use std::marker::Model;

/// Where a variable of a clause is needed.
#[derive(Clone, Copy, Debug, PartialEq, Eq)]
pub enum Class {
    /// It occurs once.
    Void,
    /// It isn't needed behind a goal.
    Temporary,
    /// It is needed behind a goal: it is in two goals of the body, or in the head and in a goal behind the first.
    Permanent,
}

/// The class and the last use of each variable of a clause or a goal that is prepared. A contract sees what is prepared.
#[derive(Drop)]
pub struct Uses<'p> {
    pub(super) prepared: &'p Prepared,
    pub(super) uses: Vec<Use>,
}

impl<'p> Model for Uses<'p> {
    ghost use Rattle.iso_prep.specs.Preparations.{Preparation};
    ghost use Rattle.iso_prep.specs.Codes.{coded_preparation};
    ghost use Rattle.iso_prep.specs.Uses.{AreUsesOf};

    ghost Value = { Preparation };

    ghost coded = { coded_preparation };

    ghost view = { λ u. u.prepared.now };

    ghost invariant = { λ u. AreUsesOf u.uses.items u.prepared.now };
}

impl<'p> Uses<'p> {
    /// The class of a variable. All those of a goal that is no clause are permanent, since their values are asked for
    /// behind it.
    pub fn class(&self, variable: usize) -> Class
        requires { variable < self.now.variables }
        ensures { result ≡ class_of variable self.now.head (goals_of self.now.body) }
    {
        match self.prepared.head() {
            Some(_) => self.uses[variable].class(),
            None => Class::Permanent,
        }
    }

    /// The number of the last goal of the body that has the variable, counted from 1; 0 where none has it.
    pub fn last_use(&self, variable: usize) -> usize
        requires { variable < self.now.variables }
        ensures { result ≡ last_goal variable (goals_of self.now.body) }
    {
        self.uses[variable].last
    }
}
