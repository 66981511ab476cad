//! Steps of arithmetic are loaded: names become operations.
ghost use Rattle.std.specs.Prelude.{◌≡◌, IfOk, MatchOption};
ghost use Rattle.std.specs.List.{AllZip};
ghost use Rattle.std.specs.Option.{option_map};
ghost use Rattle.iso_model.specs.Search.Arithmetic.{among, operations_of_one, operations_of_two};
ghost use Rattle.iso_arith.specs.Operations.{does_unary, does_binary};
ghost use Rattle.iso_store_core.specs.Retaining.{Retains};
ghost use Rattle.iso_bodies.specs.Steps.{IsLoadedStep};

use iso_arith::{Binary, Unary};
use iso_code::load_part;
use iso_instructions::Step;
use iso_model::NoMemory;
use iso_store_core::Store;
use std::alloc::Global;

/// The operation of one value that has this name (9.1, 9.4).
fn operation_on_one(name: &str) -> Option<Unary>
    ensures { option_map does_unary result ≡ among operations_of_one name.now }
{
    match name {
        "-" => Some(Unary::Negate),
        "abs" => Some(Unary::Absolute),
        "sign" => Some(Unary::Sign),
        "\\" => Some(Unary::Complement),
        _ => None,
    }
}

/// The operation of two values that has this name (9.1, 9.3, 9.4).
fn operation_on_two(name: &str) -> Option<Binary>
    ensures { option_map does_binary result ≡ among operations_of_two name.now }
{
    match name {
        "+" => Some(Binary::Add),
        "-" => Some(Binary::Subtract),
        "*" => Some(Binary::Multiply),
        "//" => Some(Binary::Divide),
        "rem" => Some(Binary::Remainder),
        "div" => Some(Binary::DivideDown),
        "mod" => Some(Binary::Modulo),
        "/" => Some(Binary::DivideWhole),
        "min" => Some(Binary::Least),
        "max" => Some(Binary::Greatest),
        "^" => Some(Binary::Power),
        "/\\" => Some(Binary::And),
        "\\/" => Some(Binary::Or),
        "<<" => Some(Binary::ShiftLeft),
        ">>" => Some(Binary::ShiftRight),
        _ => None,
    }
}

/// The step with an operation in place of its name. The error is that memory was refused.
fn load_step<S: Store>(store: &mut S, step: &iso_compile::Step) -> Result<Step, NoMemory>
    ensures loaded { IfOk result (λ s. IsLoadedStep (S.names store.new) step.now s) }
    ensures present { S.present store.new ≡ S.present store.old }
    ensures rest { Retains S.Store store.old store.new }
{
    match step {
        iso_compile::Step::Value(part) => Ok(Step::Value(load_part(store, 0, part)?)),
        iso_compile::Step::One(name) => match operation_on_one(name.as_str()) {
            Some(operation) => Ok(Step::One(operation)),
            None => Ok(Step::Unknown(store.intern(name.as_str())?, 1)),
        },
        iso_compile::Step::Two(name) => match operation_on_two(name.as_str()) {
            Some(operation) => Ok(Step::Two(operation)),
            None => Ok(Step::Unknown(store.intern(name.as_str())?, 2)),
        },
    }
}

/// The steps with operations in place of their names. The error is that memory was refused.
pub(crate) fn load_steps<S: Store>(
    alloc: Global,
    store: &mut S,
    steps: &[iso_compile::Step],
) -> Result<Vec<Step>, NoMemory>
    ensures loaded { IfOk result (λ js. AllZip (IsLoadedStep (S.names store.new)) steps.now js.items) }
    ensures present { S.present store.new ≡ S.present store.old }
    ensures rest { Retains S.Store store.old store.new }
{
    let mut loaded = Vec::with_capacity(alloc, steps.len())?;
    for step in steps {
        loaded.push(load_step(store, step)?)?;
    }
    Ok(loaded)
}
