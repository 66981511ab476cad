//! The built-ins, by name and arity.
ghost use Rattle.std.specs.Prelude.{◌≡◌, List};
ghost use Rattle.iso_model.specs.Search.Keys.{key};
ghost use Rattle.iso_model.specs.Search.BuiltIns as table;
ghost use Rattle.iso_model.specs.Search.Rows.{entries_of};

use super::kinds::{
    AtomPart, Comparison, Library, OrderTest, Output, Setting, Storage, Text, TypeTest,
};

/// A procedure of the language itself (7.8, 8).
#[derive(Clone, Copy, Debug, PartialEq, Eq)]
pub enum BuiltIn {
    /// `true/0` (7.8.1).
    True,
    /// `fail/0` and `false/0` (7.8.2; the second name is own).
    Fail,
    /// `call/1` to `call/8`: the first argument is run, with the others behind its own (7.8.3; those beyond `call/1`
    /// are own).
    Call,
    /// `once/1`: the first solution of its argument (8.15.2).
    Once,
    /// `\+ /1`: its argument has no solution (8.15.1).
    Not,
    /// `repeat/0`: it succeeds again and again (8.15.3).
    Repeat,
    /// `catch/3`: the first argument is run; a ball thrown inside that unifies with the second goes on with the third
    /// (7.8.9).
    Catch,
    /// `throw/1`: its argument is thrown (7.8.10).
    Throw,
    /// `halt/0`: the session ends (8.17.3).
    Halt,
    /// `halt/1`: the session ends with this status (8.17.4).
    HaltWith,
    /// `findall/3`: copies of the first argument, one for each solution of the second, in a list that is unified with
    /// the third (8.10.1).
    Findall,
    /// `bagof/3`: the same for each group of solutions, those that bind the goal's free variables alike (8.10.2).
    Bagof,
    /// `setof/3`: the same, each list in the standard order and each element once (8.10.3).
    Setof,
    /// `^/2`: its second argument is run (that it is a goal of its own is own).
    Exists,
    /// One that runs no goal (8.2, 8.3, 8.5 to 8.7).
    Library(Library),
    /// One that reads or changes the operators or the flags (8.14.3, 8.14.4, 8.17.1, 8.17.2).
    Setting(Setting),
    /// One that reads or changes the database (8.8, 8.9).
    Storage(Storage),
    /// One on the characters of atoms and on the texts of numbers (8.16).
    Text(Text),
    /// One that writes (8.12.3, 8.14.2).
    Output(Output),
    /// One that joins atoms or takes them apart (8.16.2, 8.16.3).
    AtomPart(AtomPart),
}

/// The name and the arity of a built-in.
#[derive(Clone, Copy)]
pub struct Row(pub &'static str, pub usize, pub BuiltIn);

const ROWS: [Row; 82] = [
    Row("true", 0, BuiltIn::True),
    Row("fail", 0, BuiltIn::Fail),
    Row("false", 0, BuiltIn::Fail),
    Row("repeat", 0, BuiltIn::Repeat),
    Row("call", 1, BuiltIn::Call),
    Row("call", 2, BuiltIn::Call),
    Row("call", 3, BuiltIn::Call),
    Row("call", 4, BuiltIn::Call),
    Row("call", 5, BuiltIn::Call),
    Row("call", 6, BuiltIn::Call),
    Row("call", 7, BuiltIn::Call),
    Row("call", 8, BuiltIn::Call),
    Row("catch", 3, BuiltIn::Catch),
    Row("throw", 1, BuiltIn::Throw),
    Row("halt", 0, BuiltIn::Halt),
    Row("halt", 1, BuiltIn::HaltWith),
    Row("once", 1, BuiltIn::Once),
    Row("\\+", 1, BuiltIn::Not),
    Row("findall", 3, BuiltIn::Findall),
    Row("bagof", 3, BuiltIn::Bagof),
    Row("setof", 3, BuiltIn::Setof),
    Row("^", 2, BuiltIn::Exists),
    Row("=", 2, BuiltIn::Library(Library::Unify)),
    Row("\\=", 2, BuiltIn::Library(Library::Differ)),
    Row(
        "unify_with_occurs_check",
        2,
        BuiltIn::Library(Library::Unify),
    ),
    Row("var", 1, BuiltIn::Library(Library::Test(TypeTest::Var))),
    Row(
        "nonvar",
        1,
        BuiltIn::Library(Library::Test(TypeTest::Nonvar)),
    ),
    Row("atom", 1, BuiltIn::Library(Library::Test(TypeTest::Atom))),
    Row(
        "integer",
        1,
        BuiltIn::Library(Library::Test(TypeTest::Integer)),
    ),
    Row("float", 1, BuiltIn::Library(Library::Test(TypeTest::Float))),
    Row(
        "number",
        1,
        BuiltIn::Library(Library::Test(TypeTest::Number)),
    ),
    Row(
        "atomic",
        1,
        BuiltIn::Library(Library::Test(TypeTest::Atomic)),
    ),
    Row(
        "compound",
        1,
        BuiltIn::Library(Library::Test(TypeTest::Compound)),
    ),
    Row(
        "callable",
        1,
        BuiltIn::Library(Library::Test(TypeTest::Callable)),
    ),
    Row(
        "ground",
        1,
        BuiltIn::Library(Library::Test(TypeTest::Ground)),
    ),
    Row("is", 2, BuiltIn::Library(Library::Is)),
    Row(
        "=:=",
        2,
        BuiltIn::Library(Library::Compare(Comparison::Equal)),
    ),
    Row(
        "=\\=",
        2,
        BuiltIn::Library(Library::Compare(Comparison::Unequal)),
    ),
    Row("<", 2, BuiltIn::Library(Library::Compare(Comparison::Less))),
    Row(
        "=<",
        2,
        BuiltIn::Library(Library::Compare(Comparison::AtMost)),
    ),
    Row(
        ">",
        2,
        BuiltIn::Library(Library::Compare(Comparison::Greater)),
    ),
    Row(
        ">=",
        2,
        BuiltIn::Library(Library::Compare(Comparison::AtLeast)),
    ),
    Row("arg", 3, BuiltIn::Library(Library::Arg)),
    Row("copy_term", 2, BuiltIn::Library(Library::CopyTerm)),
    Row("functor", 3, BuiltIn::Library(Library::Functor)),
    Row("=..", 2, BuiltIn::Library(Library::Univ)),
    Row(
        "term_variables",
        2,
        BuiltIn::Library(Library::TermVariables),
    ),
    Row(
        "==",
        2,
        BuiltIn::Library(Library::Order(OrderTest::Identical)),
    ),
    Row(
        "\\==",
        2,
        BuiltIn::Library(Library::Order(OrderTest::NotIdentical)),
    ),
    Row("@<", 2, BuiltIn::Library(Library::Order(OrderTest::Before))),
    Row(
        "@=<",
        2,
        BuiltIn::Library(Library::Order(OrderTest::NotAfter)),
    ),
    Row("@>", 2, BuiltIn::Library(Library::Order(OrderTest::After))),
    Row(
        "@>=",
        2,
        BuiltIn::Library(Library::Order(OrderTest::NotBefore)),
    ),
    Row("compare", 3, BuiltIn::Library(Library::CompareTerms)),
    Row("sort", 2, BuiltIn::Library(Library::Sort)),
    Row("keysort", 2, BuiltIn::Library(Library::Keysort)),
    Row("op", 3, BuiltIn::Setting(Setting::Op)),
    Row("current_op", 3, BuiltIn::Setting(Setting::CurrentOp)),
    Row("set_prolog_flag", 2, BuiltIn::Setting(Setting::SetFlag)),
    Row(
        "current_prolog_flag",
        2,
        BuiltIn::Setting(Setting::CurrentFlag),
    ),
    Row("asserta", 1, BuiltIn::Storage(Storage::Asserta)),
    Row("assertz", 1, BuiltIn::Storage(Storage::Assertz)),
    Row("clause", 2, BuiltIn::Storage(Storage::Clause)),
    Row("retract", 1, BuiltIn::Storage(Storage::Retract)),
    Row("retractall", 1, BuiltIn::Storage(Storage::Retractall)),
    Row("abolish", 1, BuiltIn::Storage(Storage::Abolish)),
    Row("dynamic", 1, BuiltIn::Storage(Storage::Dynamic)),
    Row("multifile", 1, BuiltIn::Storage(Storage::Multifile)),
    Row("discontiguous", 1, BuiltIn::Storage(Storage::Discontiguous)),
    Row("atom_length", 2, BuiltIn::Text(Text::AtomLength)),
    Row("atom_chars", 2, BuiltIn::Text(Text::AtomChars)),
    Row("atom_codes", 2, BuiltIn::Text(Text::AtomCodes)),
    Row("char_code", 2, BuiltIn::Text(Text::CharCode)),
    Row("number_chars", 2, BuiltIn::Text(Text::NumberChars)),
    Row("number_codes", 2, BuiltIn::Text(Text::NumberCodes)),
    Row("atom_concat", 3, BuiltIn::AtomPart(AtomPart::Concat)),
    Row("sub_atom", 5, BuiltIn::AtomPart(AtomPart::Sub)),
    Row("put_char", 1, BuiltIn::Output(Output::PutChar)),
    Row("nl", 0, BuiltIn::Output(Output::NewLine)),
    Row("write", 1, BuiltIn::Output(Output::Write)),
    Row("writeq", 1, BuiltIn::Output(Output::Writeq)),
    Row(
        "write_canonical",
        1,
        BuiltIn::Output(Output::WriteCanonical),
    ),
];

/// The built-ins, each with its name and arity.
pub fn built_in_rows() -> &'static [Row]
    ensures { entries_of result.now ≡ table.built_ins }
{
    &ROWS
}

// The built-in of this name and arity among these rows.
fn among(rows: &[Row], name: &str, arity: usize) -> Option<BuiltIn>
    ensures { result ≡ table.built_in_among (entries_of rows.now) (key name.now arity) }
{
    for row in rows {
        if row.1 == arity && row.0 == name {
            return Some(row.2);
        }
    }
    None
}

/// The built-in of this name and arity, where there is one.
pub fn built_in(name: &str, arity: usize) -> Option<BuiltIn>
    ensures { result ≡ table.built_in (key name.now arity) }
{
    among(&ROWS, name, arity)
}

/// Whether this is the name and the arity of a control construct, which bodies are converted through (7.6.2).
pub fn is_control(name: &str, arity: usize) -> bool
    ensures { result ≡ table.is_control (key name.now arity) }
{
    matches!((name, arity), ("," | ";" | "->", 2) | ("!", 0))
}

/// Whether a procedure of this name and arity is a built-in or a control construct, which no clause may be added to.
pub fn is_built_in(name: &str, arity: usize) -> bool
    ensures { result ≡ table.is_built_in (key name.now arity) }
{
    is_control(name, arity) || built_in(name, arity).is_some()
}
