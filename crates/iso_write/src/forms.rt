//! What a term is written as: as an operator with its operands, as a list, in braces or in functional notation.
ghost use Rattle.std.specs.Prelude.{◌≡◌, ℕ, List, [], ◌+◌, ◌∷◌, option_map, IfSome};
ghost use Rattle.iso_ops.specs.Operators as ops;
ghost use Rattle.iso_model.specs.Terms.Trees.{Apply, More, End};
ghost use Rattle.iso_model.specs.Terms.TermOf.{term_of, row_of};
ghost use Rattle.iso_model.specs.Syntax.Pieces as pieces;
ghost use Rattle.iso_model.specs.Syntax.Operators as model;
ghost use Rattle.iso_write.specs.Styles.{style_of};
ghost use Rattle.iso_write.specs.Tasks.{load, form_load};
ghost use Rattle.iso_write.specs.Forms.{form_operator, form_or, form_written, arguments_written, operator_of, written};

use super::numbered::variable_number;
use super::style::Style;
use iso_model::Term;
use iso_ops::{OpTable, Spec};

/// An operator with its name.
#[derive(Clone, Copy)]
pub(crate) struct Operator<'t> {
    pub(crate) name: &'t str,
    /// From 1 to 1200.
    pub(crate) priority: u16,
    pub(crate) spec: Spec,
}

impl Operator<'_> {
    /// The greatest priority of its left operand.
    pub(crate) fn left(self) -> u16
        ensures { result ≡ model.left_of (operator_of self.entry) }
    {
        self.spec.left_priority(self.priority)
    }

    /// The greatest priority of its right operand.
    pub(crate) fn right(self) -> u16
        ensures { result ≡ model.right_of (operator_of self.entry) }
    {
        self.spec.right_priority(self.priority)
    }
}

/// The form in which a term is written.
#[derive(Clone, Copy)]
pub(crate) enum Form<'t> {
    /// A variable.
    Variable(u64),
    /// A numbered variable.
    NumberedVariable(u128),
    /// An integer.
    Integer(i128),
    /// An atom.
    Atom(&'t str),
    /// A list's cell: its element and its tail.
    List(&'t Term, &'t Term),
    /// A term in braces.
    Braces(&'t Term),
    /// A prefix operator and its operand.
    Prefix(Operator<'t>, &'t Term),
    /// An infix operator between its operands.
    Infix(Operator<'t>, &'t Term, &'t Term),
    /// A postfix operator and its operand.
    Postfix(Operator<'t>, &'t Term),
    /// A name, with arguments in brackets where there are some.
    Compound(&'t str, &'t [Term]),
}

impl<'t> Form<'t> {
    /// The operator that made it.
    fn operator(self) -> Option<Operator<'t>>
        ensures { option_map operator_of result ≡ form_operator self.entry }
    {
        match self {
            Form::Prefix(operator, _) | Form::Infix(operator, ..) | Form::Postfix(operator, _) => {
                Some(operator)
            }
            _ => None,
        }
    }

    /// The operator's priority; 0 where no operator made it.
    pub(crate) fn priority(self) -> u16
        ensures { (style : pieces.Style) (table : List ops.Operator) (seen : List ℕ) → result ≡ (form_written style table seen self.entry).priority }
    {
        match self.operator() {
            Some(operator) => operator.priority,
            None => 0,
        }
    }

    /// Whether the operator takes a right operand of its own priority.
    pub(crate) fn is_open(self) -> bool
        ensures { (style : pieces.Style) (table : List ops.Operator) (seen : List ℕ) → result ≡ (form_written style table seen self.entry).is_open }
    {
        match self.operator() {
            Some(operator) => operator.spec.is_right_open(),
            None => false,
        }
    }
}

/// The form of a compound of one argument where it is not functional notation.
fn single_form<'t>(
    name: &'t str,
    argument: &'t Term,
    style: Style,
    ops: &OpTable,
) -> Option<Form<'t>>
    ensures form { (seen : List ℕ) → form_or (style_of style) ops.now seen (arguments_written (style_of style) ops.now seen name.now (term_of argument.now ∷ [])) result
        ≡ written (style_of style) ops.now seen (Apply name.now (More (term_of argument.now) End)) }
    ensures load { IfSome result (λ form. form_load form ≡ 16 + load (term_of argument.now)) }
{
    if let Some(number) = variable_number(name, argument, style) {
        return Some(Form::NumberedVariable(number));
    }
    if !style.uses_operators() {
        return None;
    }
    if name == "{}" {
        return Some(Form::Braces(argument));
    }
    if let Some((priority, spec)) = ops.prefix(name) {
        let operator = Operator {
            name,
            priority,
            spec,
        };
        return Some(Form::Prefix(operator, argument));
    }
    let (priority, spec) = ops.postfix(name)?;
    let operator = Operator {
        name,
        priority,
        spec,
    };
    Some(Form::Postfix(operator, argument))
}

/// The form of a compound of two arguments where it is not functional notation.
fn pair_form<'t>(
    name: &'t str,
    first: &'t Term,
    second: &'t Term,
    style: Style,
    ops: &OpTable,
) -> Option<Form<'t>>
    ensures form { (seen : List ℕ) → form_or (style_of style) ops.now seen (arguments_written (style_of style) ops.now seen name.now (term_of first.now ∷ term_of second.now ∷ [])) result
        ≡ pieces.pair_written (style_of style) ops.now seen name.now (written (style_of style) ops.now seen (term_of first.now)) (written (style_of style) ops.now seen (term_of second.now)) }
    ensures load { IfSome result (λ form. form_load form ≡ 24 + load (term_of first.now) + load (term_of second.now)) }
{
    if name == "." {
        return Some(Form::List(first, second));
    }
    if !style.uses_operators() {
        return None;
    }
    let (priority, spec) = ops.infix(name)?;
    let operator = Operator {
        name,
        priority,
        spec,
    };
    Some(Form::Infix(operator, first, second))
}

/// The form of a compound.
fn compound_form<'t>(name: &'t str, arguments: &'t [Term], style: Style, ops: &OpTable) -> Form<'t>
    ensures form { (seen : List ℕ) → form_written (style_of style) ops.now seen result ≡ written (style_of style) ops.now seen (Apply name.now (row_of arguments.now)) }
    ensures load { form_load result ≡ 8 + load (row_of arguments.now) }
{
    let compound = Form::Compound(name, arguments);
    match arguments {
        [argument] => single_form(name, argument, style, ops).unwrap_or(compound),
        [first, second] => pair_form(name, first, second, style, ops).unwrap_or(compound),
        _ => compound,
    }
}

/// The form in which a term is written.
pub(crate) fn form_of<'t>(term: &'t Term, style: Style, ops: &OpTable) -> Form<'t>
    ensures form { (seen : List ℕ) → form_written (style_of style) ops.now seen result ≡ written (style_of style) ops.now seen (term_of term.now) }
    ensures load { form_load result ≡ load (term_of term.now) }
{
    match term {
        Term::Var(number) => Form::Variable(*number),
        Term::Int(value) => Form::Integer(*value),
        Term::Atom(name) => Form::Atom(name.as_str()),
        Term::Compound(name, arguments) => {
            compound_form(name.as_str(), arguments.as_slice(), style, ops)
        }
    }
}
