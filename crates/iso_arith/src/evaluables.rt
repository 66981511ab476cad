//! The evaluables (9.1.7, 9.3, 9.4), by the atoms of their names.
ghost use Rattle.std.specs.Prelude.{◌≡◌, ◌<◌, ℕ, List, length, IfOk};
ghost use Rattle.std.specs.Option.{option_map};
ghost use Rattle.iso_atoms.specs.Texts.{EachOnce, text_at};
ghost use Rattle.iso_model.specs.Search.Arithmetic.{among, operations_of_one, operations_of_two};
ghost use Rattle.iso_store_core.specs.Retaining.{Retains};
ghost use Rattle.iso_arith.specs.Operations.{does_unary, does_binary};

use super::operations::{Binary, Unary};
use super::tables::{find, interned};
use iso_atoms::Atom;
use iso_model::NoMemory;
use iso_store_core::Store;
use std::alloc::Global;

const UNARY: [(&'static str, Unary); 4] = [
    ("-", Unary::Negate),
    ("abs", Unary::Absolute),
    ("sign", Unary::Sign),
    ("\\", Unary::Complement),
];

const BINARY: [(&'static str, Binary); 15] = [
    ("+", Binary::Add),
    ("-", Binary::Subtract),
    ("*", Binary::Multiply),
    ("//", Binary::Divide),
    ("rem", Binary::Remainder),
    ("div", Binary::DivideDown),
    ("mod", Binary::Modulo),
    ("/", Binary::DivideWhole),
    ("min", Binary::Least),
    ("max", Binary::Greatest),
    ("^", Binary::Power),
    ("/\\", Binary::And),
    ("\\/", Binary::Or),
    ("<<", Binary::ShiftLeft),
    (">>", Binary::ShiftRight),
];

/// The evaluables of one store, by the atoms of their names.
#[derive(Drop)]
pub struct Evaluables {
    unary: Vec<(Atom, Unary)>,
    binary: Vec<(Atom, Binary)>,
}

impl Evaluables {
    ghost use Rattle.iso_arith.specs.Evaluables.{AreEvaluables};

    /// The evaluables by their atoms, which the store makes where it has none. The error is that memory was refused.
    pub fn new<S: Store>(alloc: Global, store: &mut S) -> Result<Self, NoMemory>
        ensures evaluables { IfOk result (AreEvaluables (S.names store.new)) }
        ensures rest { Retains S.Store store.old store.new }
        ensures present { S.present store.new ≡ S.present store.old }
    {
        let unary = interned(alloc, store, &UNARY)?;
        let binary = interned(alloc, store, &BINARY)?;
        Ok(Evaluables { unary, binary })
    }

    /// The operation of one argument that has this name, where there is one.
    pub fn unary(&self, name: Atom) -> Option<Unary>
        ensures { (names : List (List ℕ)) → EachOnce names → AreEvaluables names self.now → name < length names
            → option_map does_unary result ≡ among operations_of_one (text_at names name) }
    {
        find(&self.unary, name)
    }

    /// The operation of two arguments that has this name, where there is one.
    pub fn binary(&self, name: Atom) -> Option<Binary>
        ensures { (names : List (List ℕ)) → EachOnce names → AreEvaluables names self.now → name < length names
            → option_map does_binary result ≡ among operations_of_two (text_at names name) }
    {
        find(&self.binary, name)
    }
}
