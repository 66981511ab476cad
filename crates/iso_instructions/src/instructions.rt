//! Instructions of bodies, and the code of a clause.
ghost use Rattle.std.specs.Prelude.{◌≡◌};
ghost use Rattle.iso_instructions.specs.Forms.{form_of};

use iso_arith::{Binary, Unary};
use iso_atoms::Atom;
use iso_code::{Arguments, Head, Operand};
use iso_compile::Mark;
use iso_model::Comparison;

/// A step of an expression's code, which leaves a value on a stack. The first error ends the steps.
#[derive(Clone, Copy)]
pub enum Step {
    /// Leaves the value of a constant, or of the expression that a variable stands for.
    Value(Operand),
    /// Takes the last value, and leaves what the operation makes of it (9.1, 9.4).
    One(Unary),
    /// Takes the last two values, and leaves what the operation makes of them (9.1, 9.3, 9.4).
    Two(Binary),
    /// A functor of this name, with one argument or two, that is no evaluable.
    Unknown(Atom, usize),
}

/// A goal that is called.
#[derive(Drop)]
pub struct Goal {
    /// The name of the procedure; it has as many arguments as `arguments` has operands.
    pub name: Atom,
    /// The arguments.
    pub arguments: Arguments,
}

/// An instruction of a body. Code has its last instruction first: what follows an instruction stands before it. An
/// address is a place in code.
#[derive(Drop)]
pub enum Instruction {
    /// `call`: calls the goal, and goes on behind it.
    Call(Goal),
    /// `execute`: calls the goal, behind which the clause ends.
    Execute(Goal),
    /// `is/2`: what comes first is unified with the value that the steps leave (8.6.1).
    Is(Operand, Vec<Step>),
    /// A comparison: goes on where it holds of the two values that the steps leave (8.7.1).
    Compare(Comparison, Vec<Step>),
    /// `proceed`: the clause ends.
    Proceed,
    /// `neck_cut`, `cut`: cuts back to the mark.
    Cut(Mark),
    /// `get_level`: this slot keeps the height of the stack.
    GetLevel(usize),
    /// `try_me_else`: an alternative goes on at this address.
    TryElse(usize),
    /// Goes on at this address.
    Jump(usize),
}

/// What a clause does behind its head.
#[derive(Clone, Copy)]
pub enum Form {
    /// It ends: the clause is a fact.
    Fact,
    /// It calls one goal of a procedure, and ends.
    OneCall,
    /// Anything else.
    Other,
}

/// The form of a body with this code.
pub fn form_of(body: &[Instruction]) -> Form
    ensures { result ≡ form_of body.now }
{
    match body {
        [Instruction::Proceed] => Form::Fact,
        [_, Instruction::Execute(_)] => Form::OneCall,
        _ => Form::Other,
    }
}

/// The code of a clause. Each of its variables has a word before the body begins.
#[derive(Drop)]
pub struct Code {
    /// The name of the head.
    pub name: Atom,
    /// How many arguments the head has.
    pub arity: usize,
    /// How many variables there are.
    pub variables: usize,
    /// The form of the body.
    pub form: Form,
    /// The code of the head.
    pub head: Head,
    /// The variables that the head doesn't meet.
    pub fresh: Vec<Operand>,
    /// The body, its last instruction first. No fact's is read.
    pub body: Vec<Instruction>,
    ghost formed: { form ≡ form_of body.items },
}
