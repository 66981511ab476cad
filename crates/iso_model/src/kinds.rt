//! Built-ins that look at their arguments, or unify them; they run no goal.

/// A built-in that runs no goal (8.2 to 8.7).
#[derive(Clone, Copy, Debug, PartialEq, Eq)]
pub enum Library {
    /// `=/2`, and `unify_with_occurs_check/2`, which is the same here: its two arguments are unified (8.2.1, 8.2.2).
    Unify,
    /// `\=/2`: its two arguments don't unify (8.2.3).
    Differ,
    /// The argument is of this type (8.3).
    Test(TypeTest),
    /// `is/2`: the first argument is unified with the value of the second (8.6.1).
    Is,
    /// The values of the two arguments compare so (8.7).
    Compare(Comparison),
    /// `arg/3`: the argument of the second argument at the place that is the first one is unified with the third
    /// (8.5.2).
    Arg,
    /// `copy_term/2`: the second argument is unified with a copy of the first, with new variables (8.5.4).
    CopyTerm,
    /// `functor/3`: the name and the arity of a term, or the term of a name and an arity (8.5.1).
    Functor,
    /// `=../2`: the list of a term's name and arguments, or the term of such a list (8.5.3).
    Univ,
    /// `term_variables/2`: the list of a term's variables (8.5.5 of the second corrigendum).
    TermVariables,
    /// The two arguments stand so in the standard order (8.4.1).
    Order(OrderTest),
    /// `compare/3`: the first argument is unified with `<`, `=` or `>`, as the second stands to the third in the
    /// standard order (8.4.2 of the second corrigendum).
    CompareTerms,
    /// `sort/2`: the second argument is unified with the list of the elements of the first in the standard order,
    /// identical ones merged (8.4.3 of the second corrigendum).
    Sort,
    /// `keysort/2`: the second argument is unified with the list of the pairs of the first in the order of their keys
    /// (8.4.4 of the second corrigendum).
    Keysort,
}

/// A built-in that reads or changes the operators or the flags.
#[derive(Clone, Copy, Debug, PartialEq, Eq)]
pub enum Setting {
    /// `op/3`: names become operators, or are none any more (8.14.3).
    Op,
    /// `current_op/3`: each operator (8.14.4).
    CurrentOp,
    /// `set_prolog_flag/2` (8.17.1)
    SetFlag,
    /// `current_prolog_flag/2`: each flag with its value (8.17.2).
    CurrentFlag,
}

/// A built-in that reads or changes the database of clauses.
#[derive(Clone, Copy, Debug, PartialEq, Eq)]
pub enum Storage {
    /// `asserta/1`: a clause is added before those of its procedure (8.9.1).
    Asserta,
    /// `assertz/1`: a clause is added behind those of its procedure (8.9.2).
    Assertz,
    /// `clause/2`: each clause of a procedure, its head and its body (8.8.1).
    Clause,
    /// `retract/1`: each clause that unifies is removed when it comes (8.9.3).
    Retract,
    /// `retractall/1`: all clauses are removed whose heads unify (8.9.5 of the second corrigendum).
    Retractall,
    /// `abolish/1`: a procedure goes with all its clauses (8.9.4).
    Abolish,
    /// `dynamic/1`: procedures are declared as dynamic (7.4.2.1; that it is a goal is own).
    Dynamic,
    /// `multifile/1`, which changes nothing (7.4.2.2; that it is a goal is own).
    Multifile,
    /// `discontiguous/1`, which changes nothing (7.4.2.3; that it is a goal is own).
    Discontiguous,
}

/// A built-in on the characters of atoms and on the texts of numbers (8.16). Each comes to one answer.
#[derive(Clone, Copy, Debug, PartialEq, Eq)]
pub enum Text {
    /// `atom_length/2`: how many characters an atom has (8.16.1).
    AtomLength,
    /// `atom_chars/2`: an atom and the list of its characters (8.16.4).
    AtomChars,
    /// `atom_codes/2`: an atom and the list of its characters' codes (8.16.5).
    AtomCodes,
    /// `char_code/2`: a character and its code (8.16.6).
    CharCode,
    /// `number_chars/2`: a number and the list of its characters (8.16.7).
    NumberChars,
    /// `number_codes/2`: a number and the list of its characters' codes (8.16.8).
    NumberCodes,
}

/// A built-in that joins atoms or takes them apart (8.16.2, 8.16.3); it may have several solutions.
#[derive(Clone, Copy, Debug, PartialEq, Eq)]
pub enum AtomPart {
    /// `atom_concat/3`: two atoms and the one that they are joined to (8.16.2).
    Concat,
    /// `sub_atom/5`: a part of an atom, with how many characters stand before it, in it and behind it (8.16.3).
    Sub,
}

/// A built-in that writes (8.12.3, 8.14.2).
#[derive(Clone, Copy, Debug, PartialEq, Eq)]
pub enum Output {
    /// `put_char/1`: a character (8.12.3).
    PutChar,
    /// `nl/0`: a newline (8.12.3).
    NewLine,
    /// `write/1`: a term, without quotes (8.14.2).
    Write,
    /// `writeq/1`: a term, with quotes where they are needed (8.14.2).
    Writeq,
    /// `write_canonical/1`: the same without operators (8.14.2).
    WriteCanonical,
}

/// How two integers are compared (8.7).
#[derive(Clone, Copy, Debug, PartialEq, Eq)]
pub enum Comparison {
    /// `=:=/2`
    Equal,
    /// `=\=/2`
    Unequal,
    /// `</2`
    Less,
    /// `=</2`
    AtMost,
    /// `>/2`
    Greater,
    /// `>=/2`
    AtLeast,
}

/// How two terms stand in the standard order (8.4.1).
#[derive(Clone, Copy, Debug, PartialEq, Eq)]
pub enum OrderTest {
    /// `==/2`: they are identical.
    Identical,
    /// `\==/2`
    NotIdentical,
    /// `@</2`: the first comes before the second.
    Before,
    /// `@=</2`
    NotAfter,
    /// `@>/2`
    After,
    /// `@>=/2`
    NotBefore,
}

/// A type of terms that is tested for (8.3).
#[derive(Clone, Copy, Debug, PartialEq, Eq)]
pub enum TypeTest {
    /// `var/1`: a variable.
    Var,
    /// `nonvar/1`: no variable.
    Nonvar,
    /// `atom/1`
    Atom,
    /// `integer/1`
    Integer,
    /// `float/1`: none, as there are no floats (own).
    Float,
    /// `number/1`: an integer.
    Number,
    /// `atomic/1`: an atom or an integer.
    Atomic,
    /// `compound/1`
    Compound,
    /// `callable/1`: an atom or a compound.
    Callable,
    /// `ground/1`: a term without variables.
    Ground,
}
