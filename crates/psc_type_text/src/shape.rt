//! What stands at the front of a type, as far as its text depends on it.

ghost use Rattle.std.specs.Prelude.{◌≡◌};
ghost use Rattle.psc_type_text.specs.Shapes as spec;
ghost use Rattle.psc_type_text.specs.Text.{show};

use psc_text::Qualified;
use psc_type::Ty;

#[derive(Clone, Copy, Debug)]
pub(crate) enum Shape {
    /// A name, a symbol or `_`.
    Atom,
    /// `Function` alone.
    Function,
    /// `Record` alone.
    Record,
    /// `Function` of one type.
    From,
    /// An arrow.
    Arrow,
    /// `Record` of a row.
    Braces,
    /// Another application.
    Applied,
    /// A quantified type.
    Quantified,
    /// A constrained type.
    Constrained,
    /// A row that begins with a label.
    Labels,
    /// The empty row.
    Empty,
}

fn is_prim(name: &Qualified, text: &str) -> bool
    ensures { result ≡ spec.is_prim name.now text.now }
{
    match &name.module {
        Some(module) => module.as_str() == "Prim" && name.name.as_str() == text,
        None => false,
    }
}

fn shape_of_name(name: &Qualified) -> Shape
    ensures { result ≡ spec.shape_of_name name.now }
{
    if is_prim(name, "Function") {
        Shape::Function
    } else if is_prim(name, "Record") {
        Shape::Record
    } else {
        Shape::Atom
    }
}

fn applied(function: Shape) -> Shape
    ensures { result ≡ spec.applied function }
{
    match function {
        Shape::Function => Shape::From,
        Shape::From => Shape::Arrow,
        Shape::Record => Shape::Braces,
        Shape::Atom
        | Shape::Arrow
        | Shape::Braces
        | Shape::Applied
        | Shape::Quantified
        | Shape::Constrained
        | Shape::Labels
        | Shape::Empty => Shape::Applied,
    }
}

/// The shape of a type.
pub(crate) fn shape_of(ty: &Ty) -> Shape
    ensures { result ≡ (show ty.now).shape }
{
    match ty {
        Ty::Var(_) | Ty::Unknown(_) | Ty::Symbol(_) | Ty::Any(_) => Shape::Atom,
        Ty::Con(name) => shape_of_name(name),
        Ty::App(function, _) => applied(shape_of(function.get())),
        Ty::Forall(_, _, _) => Shape::Quantified,
        Ty::Given(_, _) => Shape::Constrained,
        Ty::RowCons(_, _, _) => Shape::Labels,
        Ty::RowNil => Shape::Empty,
    }
}

/// Whether the shape is `Function` alone.
pub(crate) fn is_function(shape: Shape) -> bool
    ensures { result ≡ spec.is_function shape }
{
    matches!(shape, Shape::Function)
}

/// Whether the shape is `Record` alone.
pub(crate) fn is_record(shape: Shape) -> bool
    ensures { result ≡ spec.is_record shape }
{
    matches!(shape, Shape::Record)
}

/// Whether the shape is `Function` of one type.
pub(crate) fn is_from(shape: Shape) -> bool
    ensures { result ≡ spec.is_from shape }
{
    matches!(shape, Shape::From)
}

/// Whether the shape is a quantified type.
pub(crate) fn is_quantified(shape: Shape) -> bool
    ensures { result ≡ spec.is_quantified shape }
{
    matches!(shape, Shape::Quantified)
}

/// Whether the shape is a row that begins with a label.
pub(crate) fn is_labels(shape: Shape) -> bool
    ensures { result ≡ spec.is_labels shape }
{
    matches!(shape, Shape::Labels)
}

/// Whether the shape is the empty row.
pub(crate) fn is_empty_row(shape: Shape) -> bool
    ensures { result ≡ spec.is_empty_row shape }
{
    matches!(shape, Shape::Empty)
}

/// Whether a type of this shape is in parentheses left of an arrow.
pub(crate) fn is_open(shape: Shape) -> bool
    ensures { result ≡ spec.is_open shape }
{
    matches!(shape, Shape::Arrow | Shape::Quantified | Shape::Constrained)
}

/// Whether a type of this shape is in parentheses as an argument.
pub(crate) fn is_wide(shape: Shape) -> bool
    ensures { result ≡ spec.is_wide shape }
{
    matches!(
        shape,
        Shape::From | Shape::Arrow | Shape::Applied | Shape::Quantified | Shape::Constrained
    )
}
