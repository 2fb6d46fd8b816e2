//! Types without chains.

use crate::copies::{ident, label, mention, type_vars};
use crate::state::{Bracketing, FUEL, Reading, Space};
use psc_ast::{Constr, KindTree, RowField, RowTree, Sig, TypePrefix, TypeStep, TypeTree, TypeVar};
use psc_chain::{Size, levels};
use psc_text::{NoMemory, Span};
use sqlite_items::{Boxed, Items};

/// A type with its chains as trees.
#[cycle(types)]
pub(crate) fn x_type(
    state: &mut Bracketing,
    tree: &TypeTree,
    fuel: u32,
    size: &mut Size,
) -> Result<TypeTree, NoMemory> {
    if fuel == 0 {
        state.too_deep = true;
        return Ok(arrow(tree.span()));
    }
    let fuel = fuel - 1;
    match tree {
        TypeTree::Prefixed { .. } => prefixed(state, tree, fuel, size),
        TypeTree::Chain { .. } | TypeTree::Operation { .. } => operators(state, tree, fuel, size),
        TypeTree::Application { .. } | TypeTree::Paren { .. } => applied(state, tree, fuel, size),
        TypeTree::Row { .. } | TypeTree::XRecord { .. } => brackets(state, tree, fuel, size),
        TypeTree::Function { span } => {
            *size = size.then(Size::NONE.enclosed());
            Ok(arrow(*span))
        }
        TypeTree::Variable { .. } | TypeTree::Constructor { .. } | TypeTree::Str { .. } => leaf(
            tree,
        ),
    }
}

/// What stands for a tree that a function is not for, which no caller hands it, and for one that is too deep.
fn arrow(span: Span) -> TypeTree {
    TypeTree::Function { span }
}

fn leaf(tree: &TypeTree) -> Result<TypeTree, NoMemory> {
    match tree {
        TypeTree::Variable { name } => Ok(TypeTree::Variable { name: ident(name)? }),
        TypeTree::Constructor { name } => Ok(TypeTree::Constructor {
            name: mention(name)?,
        }),
        TypeTree::Str { value, span } => Ok(TypeTree::Str {
            value: value.clone()?,
            span: *span,
        }),
        _ => Ok(arrow(tree.span())),
    }
}

#[cycle(types)]
pub(crate) fn boxed(
    state: &mut Bracketing,
    tree: &Boxed<TypeTree>,
    fuel: u32,
    size: &mut Size,
) -> Result<Boxed<TypeTree>, NoMemory> {
    let alloc = state.alloc;
    let tree = x_type(state, tree.get(), fuel, size)?;
    Ok(Boxed::new(alloc, tree)?)
}

#[cycle(types)]
fn operators(
    state: &mut Bracketing,
    tree: &TypeTree,
    fuel: u32,
    size: &mut Size,
) -> Result<TypeTree, NoMemory> {
    match tree {
        TypeTree::Chain { span, .. } => {
            let reading = chain(state, tree, fuel)?;
            state.bracketed(Space::Types, reading, *span, size)
        }
        TypeTree::Operation {
            op,
            left,
            right,
            span,
        } => {
            let left = boxed(state, left, fuel, size)?;
            let right = boxed(state, right, fuel, size)?;
            Ok(TypeTree::Operation {
                op: mention(op)?,
                left,
                right,
                span: *span,
            })
        }
        _ => Ok(arrow(tree.span())),
    }
}

/// The operands of a chain, in which there is none any more, and the operators between them.
#[cycle(types)]
fn chain(
    state: &mut Bracketing,
    tree: &TypeTree,
    fuel: u32,
) -> Result<Reading<TypeTree>, NoMemory> {
    let mut inside = Size::NONE;
    match tree {
        TypeTree::Chain { first, rest, .. } => {
            let first = x_type(state, first.get(), fuel, &mut inside)?;
            let mut reading = Reading::start(state.alloc, first, inside);
            steps(state, rest.as_slice(), fuel, &mut reading)?;
            Ok(reading)
        }
        _ => Ok(Reading::start(state.alloc, arrow(tree.span()), inside)),
    }
}

#[cycle(types)]
fn steps(
    state: &mut Bracketing,
    steps: &[TypeStep],
    fuel: u32,
    reading: &mut Reading<TypeTree>,
) -> Result<(), NoMemory> {
    for step in steps {
        add_step(state, step, fuel, reading)?;
    }
    Ok(())
}

#[cycle(types)]
fn add_step(
    state: &mut Bracketing,
    step: &TypeStep,
    fuel: u32,
    reading: &mut Reading<TypeTree>,
) -> Result<(), NoMemory> {
    let mut inside = Size::NONE;
    let operand = x_type(state, &step.operand, fuel, &mut inside)?;
    match mention(&step.op) {
        Ok(op) => reading.add(op, operand, inside),
        Err(error) => Err(error),
    }
}

#[cycle(types)]
fn applied(
    state: &mut Bracketing,
    tree: &TypeTree,
    fuel: u32,
    size: &mut Size,
) -> Result<TypeTree, NoMemory> {
    match tree {
        TypeTree::Application {
            function,
            arguments,
            span,
        } => {
            let function = boxed(state, function, fuel, size)?;
            let arguments = type_arguments(state, arguments.as_slice(), fuel, size)?;
            Ok(TypeTree::Application {
                function,
                arguments,
                span: *span,
            })
        }
        TypeTree::Paren { inner, span } => {
            let mut inside = Size::NONE;
            let inner = boxed(state, inner, fuel, &mut inside)?;
            *size = size.then(inside.enclosed());
            Ok(TypeTree::Paren { inner, span: *span })
        }
        _ => Ok(arrow(tree.span())),
    }
}

/// Types behind one another, each under as many levels more as there are up to it.
#[cycle(types)]
fn type_arguments(
    state: &mut Bracketing,
    trees: &[TypeTree],
    fuel: u32,
    size: &mut Size,
) -> Result<Items<TypeTree>, NoMemory> {
    let mut list = Items::new(state.alloc);
    for tree in trees {
        let mut inside = Size::NONE;
        list.push(x_type(state, tree, fuel, &mut inside)?)?;
        *size = size.then(inside.under(levels(list.len())));
    }
    Ok(list)
}

/// Prefixes and the type behind them. Each arrow is a level of what it takes and of all behind it.
#[cycle(types)]
fn prefixed(
    state: &mut Bracketing,
    tree: &TypeTree,
    fuel: u32,
    size: &mut Size,
) -> Result<TypeTree, NoMemory> {
    match tree {
        TypeTree::Prefixed {
            prefixes,
            result,
            span,
        } => {
            let mut arrows: u32 = 0;
            let prefixes = prefix_list(state, prefixes.as_slice(), fuel, &mut arrows, size)?;
            let mut inside = Size::NONE;
            let result = boxed(state, result, fuel, &mut inside)?;
            *size = size.then(inside.under(arrows));
            Ok(TypeTree::Prefixed {
                prefixes,
                result,
                span: *span,
            })
        }
        _ => Ok(arrow(tree.span())),
    }
}

#[cycle(types)]
fn prefix_list(
    state: &mut Bracketing,
    prefixes: &[TypePrefix],
    fuel: u32,
    arrows: &mut u32,
    size: &mut Size,
) -> Result<Items<TypePrefix>, NoMemory> {
    let mut list = Items::new(state.alloc);
    for next in prefixes {
        if is_arrow(next) {
            *arrows = arrows.saturating_add(1);
        }
        let mut inside = Size::NONE;
        list.push(prefix(state, next, fuel, &mut inside)?)?;
        *size = size.then(inside.under(*arrows));
    }
    Ok(list)
}

fn is_arrow(prefix: &TypePrefix) -> bool {
    match prefix {
        TypePrefix::Argument { .. } => true,
        TypePrefix::Forall { .. } | TypePrefix::Given { .. } => false,
    }
}

#[cycle(types)]
fn prefix(
    state: &mut Bracketing,
    next: &TypePrefix,
    fuel: u32,
    size: &mut Size,
) -> Result<TypePrefix, NoMemory> {
    match next {
        TypePrefix::Forall { vars, span } => {
            *size = size.then(Size::KEYWORD);
            vars_size(vars.as_slice(), size);
            let vars = type_vars(state.alloc, vars.as_slice())?;
            Ok(TypePrefix::Forall { vars, span: *span })
        }
        TypePrefix::Given { constraints, span } => {
            let constraints = constraint_list(state, constraints.as_slice(), fuel, size)?;
            Ok(TypePrefix::Given {
                constraints,
                span: *span,
            })
        }
        TypePrefix::Argument {
            x_type: argument,
            span,
        } => {
            let argument = x_type(state, argument, fuel, size)?;
            Ok(TypePrefix::Argument {
                x_type: argument,
                span: *span,
            })
        }
    }
}

/// Constraints with their chains as trees. Several stand in parentheses.
#[cycle(types)]
pub(crate) fn constraint_list(
    state: &mut Bracketing,
    constraints: &[Constr],
    fuel: u32,
    size: &mut Size,
) -> Result<Items<Constr>, NoMemory> {
    let mut list = Items::new(state.alloc);
    let mut all = Size::NONE;
    for next in constraints {
        let mut inside = Size::NONE;
        list.push(constraint(state, next, fuel, &mut inside)?)?;
        all = all.beside(inside);
    }
    *size = size.then(if list.len() > 1 { all.enclosed() } else { all });
    Ok(list)
}

#[cycle(types)]
fn constraint(
    state: &mut Bracketing,
    next: &Constr,
    fuel: u32,
    size: &mut Size,
) -> Result<Constr, NoMemory> {
    let class = mention(&next.class)?;
    match type_arguments(state, next.arguments.as_slice(), fuel, size) {
        Ok(arguments) => Ok(Constr {
            class,
            arguments,
            span: next.span,
        }),
        Err(error) => Err(error),
    }
}

#[cycle(types)]
fn brackets(
    state: &mut Bracketing,
    tree: &TypeTree,
    fuel: u32,
    size: &mut Size,
) -> Result<TypeTree, NoMemory> {
    match tree {
        TypeTree::Row { row: fields, span } => Ok(TypeTree::Row {
            row: row(state, fields, fuel, size)?,
            span: *span,
        }),
        TypeTree::XRecord { row: fields, span } => Ok(TypeTree::XRecord {
            row: row(state, fields, fuel, size)?,
            span: *span,
        }),
        _ => Ok(arrow(tree.span())),
    }
}

/// The sizes in a row: of the fields before the last one, and of that with what stands behind it.
#[derive(Clone, Copy)]
struct RowSize {
    all: Size,
    last: Size,
}

#[cycle(types)]
fn row(
    state: &mut Bracketing,
    row: &RowTree,
    fuel: u32,
    size: &mut Size,
) -> Result<RowTree, NoMemory> {
    let mut inside = RowSize {
        all: Size::NONE,
        last: Size::NONE,
    };
    let fields = row_fields(state, row.fields.as_slice(), fuel, &mut inside)?;
    match row_tail(state, row, fuel, &mut inside.last) {
        Ok(tail) => {
            *size = size.then(inside.all.beside(inside.last).enclosed());
            Ok(RowTree { fields, tail })
        }
        Err(error) => Err(error),
    }
}

#[cycle(types)]
fn row_fields(
    state: &mut Bracketing,
    fields: &[RowField],
    fuel: u32,
    inside: &mut RowSize,
) -> Result<Items<RowField>, NoMemory> {
    let mut list = Items::new(state.alloc);
    for field in fields {
        inside.all = inside.all.beside(inside.last);
        inside.last = Size::NONE;
        list.push(row_field(state, field, fuel, &mut inside.last)?)?;
    }
    Ok(list)
}

#[cycle(types)]
fn row_field(
    state: &mut Bracketing,
    field: &RowField,
    fuel: u32,
    size: &mut Size,
) -> Result<RowField, NoMemory> {
    let label = label(&field.label)?;
    match x_type(state, &field.x_type, fuel, size) {
        Ok(written) => Ok(RowField {
            label,
            x_type: written,
        }),
        Err(error) => Err(error),
    }
}

/// The type behind the bar of a row, if one is written.
#[cycle(types)]
fn row_tail(
    state: &mut Bracketing,
    row: &RowTree,
    fuel: u32,
    size: &mut Size,
) -> Result<Option<Boxed<TypeTree>>, NoMemory> {
    match &row.tail {
        Some(tail) => Ok(Some(boxed(state, tail, fuel, size)?)),
        None => Ok(None),
    }
}

/// A signature with its chains as trees.
pub(crate) fn sig(state: &mut Bracketing, sig: &Sig, size: &mut Size) -> Result<Sig, NoMemory> {
    let name = ident(&sig.name)?;
    match x_type(state, &sig.x_type, FUEL, size) {
        Ok(written) => Ok(Sig {
            name,
            x_type: written,
            span: sig.span,
        }),
        Err(error) => Err(error),
    }
}

/// Types that stand behind one another as arguments.
pub(crate) fn type_list(
    state: &mut Bracketing,
    types: &[TypeTree],
    size: &mut Size,
) -> Result<Items<TypeTree>, NoMemory> {
    type_arguments(state, types, FUEL, size)
}

/// A type variable with its kind, which stands in parentheses.
fn var_size(var: &TypeVar) -> Size {
    match &var.kind {
        Some(kind) => kind_size(kind).enclosed(),
        None => Size::NONE,
    }
}

/// The variables of a head or of a `forall`.
pub(crate) fn vars_size(vars: &[TypeVar], size: &mut Size) {
    for var in vars {
        *size = size.then(var_size(var));
    }
}

/// The size of a kind: a level for each arrow and for each `Row`, which takes the kind behind it.
pub(crate) fn kind_size(kind: &KindTree) -> Size {
    match kind {
        KindTree::XType { .. } | KindTree::Constraint { .. } | KindTree::Symbol { .. } =>
            Size::NONE,
        KindTree::Row { rows, of, .. } => kind_size(of.get()).under(*rows),
        KindTree::Arrow { from, to, .. } => {
            let mut size = Size::NONE;
            let mut depth: u32 = 0;
            for part in from.as_slice() {
                depth = depth.saturating_add(1);
                size = size.then(kind_size(part).under(depth));
            }
            size.then(kind_size(to.get()).under(depth))
        }
        KindTree::Paren { inner, .. } => kind_size(inner.get()).enclosed(),
    }
}
