//! Code that was compiled becomes code that a machine runs: names become atoms, and the registers of compounds numbers.
ghost use Rattle.std.specs.Prelude.{◌≡◌, ◌+◌, ◌≤◌, IfOk, length, map, true};
ghost use Rattle.std.specs.List.{All, AllZip, list_any};
ghost use Rattle.iso_model.specs.Terms.Trees.{Tree, count};
ghost use Rattle.iso_model.specs.Terms.Sorts.{is_row};
ghost use Rattle.iso_store_core.specs.Retaining.{Retains};
ghost use Rattle.iso_compile.specs.Heads as heads;
ghost use Rattle.iso_compile.specs.Emitted.{AreNew, part_of, block_of, get_of};
ghost use Rattle.iso_compile.specs.Emitting.{IsWithin};
ghost use Rattle.iso_code.specs.Loaded.{IsPair};
ghost use Rattle.iso_code.specs.Loading.{IsFrom, IsFull, IsAbove, IsLoadedArguments, IsLoaded, IsLoadedBlock, IsLoadedFresh, IsLoadedGet, IsLoadedHead, IsLoadedPart, IsNew, IsOfNew, is_wide, first_operand, register_in, behind_operand, behind_operands, behind_register, behind_blocks};

use super::operands::{Arguments, Block, Get, Head, Operand, Pair, Register};
use iso_compile::Part;
use iso_model::NoMemory;
use iso_store_core::Store;
use std::alloc::Global;

/// Where code is: a variable that it meets for the first time is new in a head, and has its word before in a goal.
#[derive(Clone, Copy)]
pub(crate) enum Side {
    /// In the head of a clause.
    Head,
    /// In a goal of a body.
    Goal,
}

/// The operand of a variable that the code meets here for the first time.
fn first(side: Side, variable: usize) -> Operand
    ensures { result ≡ first_operand side variable }
{
    match side {
        Side::Head => Operand::New(variable),
        Side::Goal => Operand::Old(variable),
    }
}

/// The operand of a part, where compounds have the registers from `low` on. The error is that memory was refused.
fn load_operand<S: Store>(
    store: &mut S,
    low: usize,
    side: Side,
    part: &Part,
) -> Result<Operand, NoMemory>
    requires { IsFrom low (part_of part.now) }
    ensures loaded { IfOk result (λ operand. IsLoaded (S.names store.new) low side part.now operand) }
    ensures present { S.present store.new ≡ S.present store.old }
    ensures rest { Retains S.Store store.old store.new }
{
    match part {
        Part::New(variable, _) | Part::Void(variable) => Ok(first(side, *variable)),
        Part::Old(variable, _) => Ok(Operand::Old(*variable)),
        Part::Integer(value) => Ok(Operand::Integer(*value)),
        Part::Atom(name) => Ok(Operand::Atom(store.intern(name.as_str())?)),
        Part::Inner(register) => Ok(Operand::Inner(*register - low)),
    }
}

/// The operands of these parts. The error is that memory was refused.
fn load_operands<S: Store>(
    alloc: Global,
    store: &mut S,
    low: usize,
    side: Side,
    parts: &[Part],
) -> Result<Vec<Operand>, NoMemory>
    requires { All (λ part. IsFrom low (part_of part)) parts.now }
    ensures loaded { IfOk result (λ operands. AllZip (IsLoaded (S.names store.new) low side) parts.now operands.items) }
    ensures present { S.present store.new ≡ S.present store.old }
    ensures rest { Retains S.Store store.old store.new }
{
    let mut operands = Vec::with_capacity(alloc, parts.len())?;
    for part in parts {
        operands.push(load_operand(store, low, side, part)?)?;
    }
    Ok(operands)
}

/// Whether the operand is an integer of more than 64 bits.
fn is_operand_wide(operand: &Operand) -> bool
    ensures { result ≡ is_wide operand.now }
{
    match operand {
        Operand::Integer(value) => i64::try_from(*value).is_err(),
        Operand::New(_) | Operand::Old(_) | Operand::Atom(_) | Operand::Inner(_) => false,
    }
}

/// Whether one of the operands is an integer of more than 64 bits.
fn are_wide(operands: &[Operand]) -> bool
    ensures { result ≡ list_any is_wide operands.now }
{
    operands.iter().any(|operand| is_operand_wide(operand))
}

/// The register of this number, where so many are those of arguments, and compounds have those from `low` on.
fn load_register(low: usize, arity: usize, register: usize) -> Register
    ensures { result ≡ register_in low arity register }
{
    if register < arity {
        Register::Argument(register)
    } else {
        Register::Compound(register.saturating_sub(low))
    }
}

/// What the operands are, where so many of the blocks behind are those of compounds among them, and where this says
/// whether one of them is an integer of more than 64 bits.
fn pair_of(operands: &[Operand], inner: usize, wide: bool) -> Pair
    ensures { IsPair operands.now inner wide result }
{
    if inner != 0 || wide {
        return Pair::Other;
    }
    match operands {
        [Operand::New(one), Operand::New(two)] => Pair::NewNew(*one, *two),
        [Operand::Old(one), Operand::New(two)] => Pair::OldNew(*one, *two),
        [Operand::New(one), Operand::Old(two)] => Pair::NewOld(*one, *two),
        _ => Pair::Other,
    }
}

/// The block with names as atoms. The error is that memory was refused.
fn load_block<S: Store>(
    alloc: Global,
    store: &mut S,
    low: usize,
    arity: usize,
    side: Side,
    block: &iso_compile::Block,
) -> Result<Block, NoMemory>
    requires { All (IsFrom low) (block_of block.now).parts }
    ensures loaded { IfOk result (λ b. IsLoadedBlock (S.names store.new) low arity side block.now b) }
    ensures present { S.present store.new ≡ S.present store.old }
    ensures rest { Retains S.Store store.old store.new }
{
    let operands = load_operands(alloc, store, low, side, block.parts.as_slice())?;
    let name = store.intern(block.name.as_str())?;
    let wide = are_wide(operands.as_slice());
    let pair = pair_of(operands.as_slice(), block.inner, wide);
    Ok(Block {
        register: load_register(low, arity, block.register),
        name,
        operands,
        inner: block.inner,
        wide,
        pair,
    })
}

/// The blocks with names as atoms. The error is that memory was refused.
fn load_blocks<S: Store>(
    alloc: Global,
    store: &mut S,
    low: usize,
    arity: usize,
    side: Side,
    blocks: &[iso_compile::Block],
) -> Result<Vec<Block>, NoMemory>
    requires { All (λ b. All (IsFrom low) (block_of b).parts) blocks.now }
    ensures loaded { IfOk result (λ bs. AllZip (IsLoadedBlock (S.names store.new) low arity side) blocks.now bs.items) }
    ensures present { S.present store.new ≡ S.present store.old }
    ensures rest { Retains S.Store store.old store.new }
{
    let mut loaded = Vec::with_capacity(alloc, blocks.len())?;
    for block in blocks {
        loaded.push(load_block(alloc, store, low, arity, side, block)?)?;
    }
    Ok(loaded)
}

/// What the arguments of a head are met with that are no compounds, with names as atoms. The error is that memory was
/// refused.
fn load_gets<S: Store>(
    alloc: Global,
    store: &mut S,
    low: usize,
    gets: &[iso_compile::Get],
) -> Result<Vec<Get>, NoMemory>
    requires { All (λ g. IsFrom low (part_of g.part)) gets.now }
    ensures loaded { IfOk result (λ gs. AllZip (IsLoadedGet (S.names store.new) low) gets.now gs.items) }
    ensures present { S.present store.new ≡ S.present store.old }
    ensures rest { Retains S.Store store.old store.new }
{
    let mut loaded = Vec::with_capacity(alloc, gets.len())?;
    for get in gets {
        let operand = load_operand(store, low, Side::Head, &get.part)?;
        loaded.push(Get {
            argument: get.register,
            operand,
        })?;
    }
    Ok(loaded)
}

/// One more than the number of a compound. The error is that there is no such number: no memory holds so many
/// compounds.
fn behind(compound: usize) -> Result<usize, NoMemory>
    ensures { IfOk result (λ next. next ≡ compound + 1) }
{
    compound.checked_add(1).ok_or(NoMemory)
}

/// One more than the number of the compound that the operand is; 0 if it is none.
fn behind_operand(operand: &Operand) -> Result<usize, NoMemory>
    ensures { IfOk result (λ next. next ≡ behind_operand operand.now) }
{
    match operand {
        Operand::Inner(compound) => behind(*compound),
        Operand::New(_) | Operand::Old(_) | Operand::Integer(_) | Operand::Atom(_) => Ok(0),
    }
}

/// One more than the highest number of a compound among the operands; 0 if there is none.
fn behind_operands(operands: &[Operand]) -> Result<usize, NoMemory>
    ensures { IfOk result (λ next. next ≡ behind_operands operands.now) }
{
    let mut next = 0;
    for operand in operands {
        next = behind_operand(operand)?.max(next);
    }
    Ok(next)
}

/// One more than the number of the compound that has this register; 0 if it is an argument's.
fn behind_register(register: Register) -> Result<usize, NoMemory>
    ensures { IfOk result (λ next. next ≡ behind_register register) }
{
    match register {
        Register::Compound(compound) => behind(compound),
        Register::Argument(_) => Ok(0),
    }
}

/// One more than the highest number of a compound in the blocks; 0 if there is none.
fn behind_blocks(blocks: &[Block]) -> Result<usize, NoMemory>
    ensures { IfOk result (λ next. next ≡ behind_blocks blocks.now) }
{
    let mut next = 0;
    for block in blocks {
        let inside = behind_operands(block.operands.as_slice())?;
        next = behind_register(block.register)?.max(inside).max(next);
    }
    Ok(next)
}

/// The code of a head that was compiled, with names as atoms, where the head has so many arguments, and compounds have
/// the registers from `low` on. The error is that memory was refused.
pub fn load_head<S: Store>(
    alloc: Global,
    store: &mut S,
    low: usize,
    arity: usize,
    gets: &[iso_compile::Get],
    blocks: &[iso_compile::Block],
) -> Result<Head, NoMemory>
    requires form { (ts : Tree) × (map get_of gets.now ≡ heads.gets 0 ts) × (map block_of blocks.now ≡ heads.head_blocks 0 low ts) × (count ts ≡ arity) × (is_row ts ≡ true) }
    requires registers { arity ≤ low }
    ensures loaded { IfOk result (λ head. IsLoadedHead (S.names store.new) low arity gets.now blocks.now head) }
    ensures present { S.present store.new ≡ S.present store.old }
    ensures rest { Retains S.Store store.old store.new }
{
    let gets = load_gets(alloc, store, low, gets)?;
    let blocks = load_blocks(alloc, store, low, arity, Side::Head, blocks)?;
    let compounds = behind_blocks(blocks.as_slice())?;
    Ok(Head {
        gets,
        blocks,
        compounds,
    })
}

/// The operand of a part in the body of a clause, where compounds have the registers from `low` on. A variable has its
/// word before. The error is that memory was refused.
pub fn load_part<S: Store>(store: &mut S, low: usize, part: &Part) -> Result<Operand, NoMemory>
    requires { IsFrom low (part_of part.now) }
    ensures loaded { IfOk result (λ operand. IsLoadedPart (S.names store.new) low part.now operand) }
    ensures present { S.present store.new ≡ S.present store.old }
    ensures rest { Retains S.Store store.old store.new }
{
    load_operand(store, low, Side::Goal, part)
}

/// The code of a goal's arguments that was compiled, with names as atoms, where compounds have the registers from `low`
/// on. Each variable has its word before. The error is that memory was refused.
pub fn load_arguments<S: Store>(
    alloc: Global,
    store: &mut S,
    low: usize,
    arguments: &iso_compile::Arguments,
) -> Result<Arguments, NoMemory>
    requires { IsWithin low arguments.now }
    ensures loaded { All (IsAbove low) (map block_of arguments.now.blocks.items) → All IsFull (map block_of arguments.now.blocks.items)
        → IfOk result (λ code. IsLoadedArguments (S.names store.new) low arguments.now code) }
    ensures present { S.present store.new ≡ S.present store.old }
    ensures rest { Retains S.Store store.old store.new }
{
    let operands = load_operands(alloc, store, low, Side::Goal, arguments.parts.as_slice())?;
    let blocks = load_blocks(
        alloc,
        store,
        low,
        0,
        Side::Goal,
        arguments.blocks.as_slice(),
    )?;
    let among = behind_operands(operands.as_slice())?;
    let inside = behind_blocks(blocks.as_slice())?;
    Ok(Arguments {
        blocks,
        operands,
        compounds: among.max(inside),
    })
}

/// The operand of a variable that is new.
fn new_operand(part: &Part) -> Operand
    requires { IsNew part.now }
    ensures { IsOfNew part.now result }
{
    let Part::New(variable, _) = part else {
        unreachable!()
    };
    Operand::New(*variable)
}

/// The variables that get cells behind a head, each new there. The error is that memory was refused.
pub fn load_fresh(alloc: Global, fresh: &[Part]) -> Result<Vec<Operand>, NoMemory>
    requires { AreNew fresh.now }
    ensures { IfOk result (λ operands. IsLoadedFresh fresh.now operands.items) }
{
    let mut operands = Vec::with_capacity(alloc, fresh.len())?;
    for part in fresh {
        operands.push(new_operand(part))?;
    }
    Ok(operands)
}
