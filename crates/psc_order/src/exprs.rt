//! Expressions without chains.

ghost use Rattle.std.specs.Prelude.{◌≡◌, ◌<◌, ◌↔◌, ◌⊎◌, IsTrue};

use crate::binders::binder_list;
use crate::binds::{alternatives, bind_list, statements};
use crate::copies::{label, labels, mention};
use crate::state::{Bracketing, FUEL, Reading, Space};
use crate::types::boxed as boxed_type;
use psc_ast::{ChainStep, ExprTree, Field, TickStep, Update};
use psc_chain::{Size, levels};
use psc_text::{NoMemory, Span};
use sqlite_items::{Boxed, Items};

/// An expression with its chains as trees.
#[cycle(exprs)]
pub(crate) fn expr(
    state: &mut Bracketing,
    tree: &ExprTree,
    fuel: u32,
    size: &mut Size,
) -> Result<ExprTree, NoMemory> {
    if fuel == 0 {
        state.too_deep = true;
        return Ok(hole(tree.span()));
    }
    let fuel = fuel - 1;
    match tree {
        ExprTree::Chain { .. } | ExprTree::Operation { .. } | ExprTree::Ticks { .. } => operators(
            state, tree, fuel, size,
        ),
        ExprTree::Typed { .. } | ExprTree::Negate { .. } | ExprTree::Call { .. } => applied(
            state, tree, fuel, size,
        ),
        ExprTree::Lambda { .. } | ExprTree::If { .. } | ExprTree::Case { .. } => form(
            state, tree, fuel, size,
        ),
        ExprTree::Let { .. } | ExprTree::Do { .. } | ExprTree::Ado { .. } => block(
            state, tree, fuel, size,
        ),
        ExprTree::Access { .. } | ExprTree::Update { .. } | ExprTree::Paren { .. } => part(
            state, tree, fuel, size,
        ),
        ExprTree::Array { .. } | ExprTree::XRecord { .. } => brackets(state, tree, fuel, size),
        ExprTree::Variable { .. } | ExprTree::Constructor { .. } | ExprTree::Operator { .. } =>
            name(state, tree, size),
        ExprTree::Integer { .. }
        | ExprTree::Str { .. }
        | ExprTree::Character { .. }
        | ExprTree::Boolean { .. }
        | ExprTree::Hole { .. } => literal(tree),
    }
}

#[cycle(exprs)]
pub(crate) fn boxed(
    state: &mut Bracketing,
    tree: &Boxed<ExprTree>,
    fuel: u32,
    size: &mut Size,
) -> Result<Boxed<ExprTree>, NoMemory> {
    let alloc = state.alloc;
    let tree = expr(state, tree.get(), fuel, size)?;
    Ok(Boxed::new(alloc, tree)?)
}

/// An expression under some levels more.
#[cycle(exprs)]
fn boxed_under(
    state: &mut Bracketing,
    tree: &Boxed<ExprTree>,
    levels: u32,
    fuel: u32,
    size: &mut Size,
) -> Result<Boxed<ExprTree>, NoMemory> {
    let mut inside = Size::NONE;
    match boxed(state, tree, fuel, &mut inside) {
        Ok(found) => {
            *size = size.then(inside.under(levels));
            Ok(found)
        }
        Err(error) => Err(error),
    }
}

/// Expressions behind one another. As arguments of a written call each is under as many levels more as there are up to it.
#[cycle(exprs)]
fn exprs(
    state: &mut Bracketing,
    trees: &[ExprTree],
    as_arguments: bool,
    fuel: u32,
    size: &mut Size,
) -> Result<Items<ExprTree>, NoMemory> {
    let mut list = Items::new(state.alloc);
    for tree in trees {
        let mut inside = Size::NONE;
        list.push(expr(state, tree, fuel, &mut inside)?)?;
        *size = size.then(inside.under(if as_arguments { levels(list.len()) } else { 0 }));
    }
    Ok(list)
}

/// Expressions in brackets with commas between them.
#[cycle(exprs)]
fn beside(
    state: &mut Bracketing,
    trees: &[ExprTree],
    fuel: u32,
    size: &mut Size,
) -> Result<Items<ExprTree>, NoMemory> {
    let mut list = Items::new(state.alloc);
    let mut all = Size::NONE;
    for tree in trees {
        let mut inside = Size::NONE;
        list.push(expr(state, tree, fuel, &mut inside)?)?;
        all = all.beside(inside);
    }
    *size = size.then(all.enclosed());
    Ok(list)
}

/// What stands for a tree that a function is not for, which no caller hands it, and for one that is too deep.
fn hole(span: Span) -> ExprTree {
    ExprTree::Hole { span }
}

fn literal(tree: &ExprTree) -> Result<ExprTree, NoMemory> {
    match tree {
        ExprTree::Integer { value, span } => Ok(ExprTree::Integer {
            value: *value,
            span: *span,
        }),
        ExprTree::Str { value, span } => Ok(ExprTree::Str {
            value: value.clone()?,
            span: *span,
        }),
        ExprTree::Character { value, span } => Ok(ExprTree::Character {
            value: *value,
            span: *span,
        }),
        ExprTree::Boolean { value, span } => Ok(ExprTree::Boolean {
            value: *value,
            span: *span,
        }),
        _ => Ok(hole(tree.span())),
    }
}

/// A name. The parentheses of an operator count as a level where they are not those of the name's own place.
fn name(state: &Bracketing, tree: &ExprTree, size: &mut Size) -> Result<ExprTree, NoMemory> {
    match tree {
        ExprTree::Variable { name } => Ok(ExprTree::Variable {
            name: mention(name)?,
        }),
        ExprTree::Constructor { name } => Ok(ExprTree::Constructor {
            name: mention(name)?,
        }),
        ExprTree::Operator { name, span } => {
            if name.span != *span {
                *size = size.then(Size::NONE.enclosed());
            }
            let name = state.target(name, Space::Values)?;
            Ok(ExprTree::Operator { name, span: *span })
        }
        _ => Ok(hole(tree.span())),
    }
}

/// Operators, and names in backticks, each of which is an operator node. These associate to the left, so an operand lies behind
/// those before it and under those behind it.
#[cycle(exprs)]
fn operators(
    state: &mut Bracketing,
    tree: &ExprTree,
    fuel: u32,
    size: &mut Size,
) -> Result<ExprTree, NoMemory> {
    match tree {
        ExprTree::Chain { span, .. } => {
            let reading = chain(state, tree, fuel)?;
            state.bracketed(Space::Values, reading, *span, size)
        }
        ExprTree::Operation {
            op,
            left,
            right,
            span,
        } => {
            let left = boxed(state, left, fuel, size)?;
            let right = boxed(state, right, fuel, size)?;
            Ok(ExprTree::Operation {
                op: mention(op)?,
                left,
                right,
                span: *span,
            })
        }
        ExprTree::Ticks { first, rest, span } => {
            let nodes = levels(rest.len());
            let first = boxed_under(state, first, nodes, fuel, size)?;
            let rest = tick_steps(state, rest.as_slice(), nodes, fuel, size)?;
            Ok(ExprTree::Ticks {
                first,
                rest,
                span: *span,
            })
        }
        _ => Ok(hole(tree.span())),
    }
}

/// The operands of a chain, in which there is none any more, and the operators between them.
#[cycle(exprs)]
fn chain(
    state: &mut Bracketing,
    tree: &ExprTree,
    fuel: u32,
) -> Result<Reading<ExprTree>, NoMemory> {
    let mut inside = Size::NONE;
    match tree {
        ExprTree::Chain { first, rest, .. } => {
            let first = expr(state, first.get(), fuel, &mut inside)?;
            let mut reading = Reading::start(state.alloc, first, inside);
            chain_steps(state, rest.as_slice(), fuel, &mut reading)?;
            Ok(reading)
        }
        _ => Ok(Reading::start(state.alloc, hole(tree.span()), inside)),
    }
}

#[cycle(exprs)]
fn chain_steps(
    state: &mut Bracketing,
    steps: &[ChainStep],
    fuel: u32,
    reading: &mut Reading<ExprTree>,
) -> Result<(), NoMemory> {
    for step in steps {
        add_step(state, step, fuel, reading)?;
    }
    Ok(())
}

#[cycle(exprs)]
fn add_step(
    state: &mut Bracketing,
    step: &ChainStep,
    fuel: u32,
    reading: &mut Reading<ExprTree>,
) -> Result<(), NoMemory> {
    let mut inside = Size::NONE;
    let operand = expr(state, &step.operand, fuel, &mut inside)?;
    match mention(&step.op) {
        Ok(op) => reading.add(op, operand, inside),
        Err(error) => Err(error),
    }
}

#[cycle(exprs)]
fn tick_steps(
    state: &mut Bracketing,
    steps: &[TickStep],
    nodes: u32,
    fuel: u32,
    size: &mut Size,
) -> Result<Items<TickStep>, NoMemory> {
    let mut list = Items::new(state.alloc);
    for step in steps {
        let mut inside = Size::NONE;
        list.push(tick_step(state, step, fuel, &mut inside)?)?;
        *size = size.then(inside.under(nodes));
    }
    Ok(list)
}

#[cycle(exprs)]
fn tick_step(
    state: &mut Bracketing,
    step: &TickStep,
    fuel: u32,
    size: &mut Size,
) -> Result<TickStep, NoMemory> {
    let name = mention(&step.name)?;
    match expr(state, &step.operand, fuel, size) {
        Ok(operand) => Ok(TickStep { name, operand }),
        Err(error) => Err(error),
    }
}

#[cycle(exprs)]
fn applied(
    state: &mut Bracketing,
    tree: &ExprTree,
    fuel: u32,
    size: &mut Size,
) -> Result<ExprTree, NoMemory> {
    match tree {
        ExprTree::Typed {
            value,
            x_type,
            span,
        } => {
            let value = boxed(state, value, fuel, size)?;
            let x_type = boxed_type(state, x_type, FUEL, size)?;
            Ok(ExprTree::Typed {
                value,
                x_type,
                span: *span,
            })
        }
        ExprTree::Negate {
            minus,
            operand,
            span,
        } => Ok(ExprTree::Negate {
            minus: *minus,
            operand: boxed_under(state, operand, 1, fuel, size)?,
            span: *span,
        }),
        ExprTree::Call {
            function,
            arguments,
            span,
        } => {
            let written = ends_before(function.get().span(), *span);
            let function = boxed(state, function, fuel, size)?;
            let arguments = exprs(state, arguments.as_slice(), written, fuel, size)?;
            Ok(ExprTree::Call {
                function,
                arguments,
                span: *span,
            })
        }
        _ => Ok(hole(tree.span())),
    }
}

/// A form that begins with a backslash, `if` or `case`.
#[cycle(exprs)]
fn form(
    state: &mut Bracketing,
    tree: &ExprTree,
    fuel: u32,
    size: &mut Size,
) -> Result<ExprTree, NoMemory> {
    *size = size.then(Size::KEYWORD);
    match tree {
        ExprTree::Lambda {
            binders,
            body,
            span,
        } => {
            let binders = binder_list(state, binders.as_slice(), size)?;
            let body = boxed(state, body, fuel, size)?;
            Ok(ExprTree::Lambda {
                binders,
                body,
                span: *span,
            })
        }
        ExprTree::If {
            test,
            then,
            otherwise,
            span,
        } => {
            let test = boxed(state, test, fuel, size)?;
            let then = boxed(state, then, fuel, size)?;
            let otherwise = boxed(state, otherwise, fuel, size)?;
            Ok(ExprTree::If {
                test,
                then,
                otherwise,
                span: *span,
            })
        }
        ExprTree::Case {
            scrutinees,
            alternatives: list,
            span,
        } => {
            let scrutinees = exprs(state, scrutinees.as_slice(), false, fuel, size)?;
            let alternatives = alternatives(state, list.as_slice(), fuel, size)?;
            Ok(ExprTree::Case {
                scrutinees,
                alternatives,
                span: *span,
            })
        }
        _ => Ok(hole(tree.span())),
    }
}

#[cycle(exprs)]
fn block(
    state: &mut Bracketing,
    tree: &ExprTree,
    fuel: u32,
    size: &mut Size,
) -> Result<ExprTree, NoMemory> {
    match tree {
        ExprTree::Let { binds, body, span } => {
            *size = size.then(Size::KEYWORD);
            let binds = bind_list(state, binds.as_slice(), fuel, size)?;
            let body = boxed(state, body, fuel, size)?;
            Ok(ExprTree::Let {
                binds,
                body,
                span: *span,
            })
        }
        ExprTree::Do {
            statements: list,
            span,
        } => Ok(ExprTree::Do {
            statements: statements(state, list.as_slice(), fuel, size)?,
            span: *span,
        }),
        ExprTree::Ado {
            statements: list,
            result,
            span,
        } => {
            let behind = levels(list.len());
            let statements = statements(state, list.as_slice(), fuel, size)?;
            let result = boxed_under(state, result, behind, fuel, size)?;
            Ok(ExprTree::Ado {
                statements,
                result,
                span: *span,
            })
        }
        _ => Ok(hole(tree.span())),
    }
}

#[cycle(exprs)]
fn part(
    state: &mut Bracketing,
    tree: &ExprTree,
    fuel: u32,
    size: &mut Size,
) -> Result<ExprTree, NoMemory> {
    match tree {
        ExprTree::Access {
            subject,
            labels: path,
            span,
        } => {
            let subject = boxed(state, subject, fuel, size)?;
            let labels = labels(state.alloc, path.as_slice())?;
            Ok(ExprTree::Access {
                subject,
                labels,
                span: *span,
            })
        }
        ExprTree::Update {
            subject,
            updates,
            span,
        } => {
            let subject = boxed(state, subject, fuel, size)?;
            let updates = update_list(state, updates.as_slice(), fuel, size)?;
            Ok(ExprTree::Update {
                subject,
                updates,
                span: *span,
            })
        }
        ExprTree::Paren { inner, span } => {
            let mut inside = Size::NONE;
            let inner = boxed(state, inner, fuel, &mut inside)?;
            *size = size.then(inside.enclosed());
            Ok(ExprTree::Paren { inner, span: *span })
        }
        _ => Ok(hole(tree.span())),
    }
}

#[cycle(exprs)]
fn update_list(
    state: &mut Bracketing,
    updates: &[Update],
    fuel: u32,
    size: &mut Size,
) -> Result<Items<Update>, NoMemory> {
    let mut list = Items::new(state.alloc);
    let mut all = Size::NONE;
    for next in updates {
        let mut inside = Size::NONE;
        list.push(update(state, next, fuel, &mut inside)?)?;
        all = all.beside(inside);
    }
    *size = size.then(all.enclosed());
    Ok(list)
}

#[cycle(exprs)]
fn update(
    state: &mut Bracketing,
    update: &Update,
    fuel: u32,
    size: &mut Size,
) -> Result<Update, NoMemory> {
    let label = label(&update.label)?;
    match boxed(state, &update.value, fuel, size) {
        Ok(value) => Ok(Update { label, value }),
        Err(error) => Err(error),
    }
}

#[cycle(exprs)]
fn brackets(
    state: &mut Bracketing,
    tree: &ExprTree,
    fuel: u32,
    size: &mut Size,
) -> Result<ExprTree, NoMemory> {
    match tree {
        ExprTree::Array { items, span } => Ok(ExprTree::Array {
            items: beside(state, items.as_slice(), fuel, size)?,
            span: *span,
        }),
        ExprTree::XRecord { fields, span } => Ok(ExprTree::XRecord {
            fields: field_list(state, fields.as_slice(), fuel, size)?,
            span: *span,
        }),
        _ => Ok(hole(tree.span())),
    }
}

#[cycle(exprs)]
fn field_list(
    state: &mut Bracketing,
    fields: &[Field],
    fuel: u32,
    size: &mut Size,
) -> Result<Items<Field>, NoMemory> {
    let mut list = Items::new(state.alloc);
    let mut all = Size::NONE;
    for next in fields {
        let mut inside = Size::NONE;
        list.push(field(state, next, fuel, &mut inside)?)?;
        all = all.beside(inside);
    }
    *size = size.then(all.enclosed());
    Ok(list)
}

#[cycle(exprs)]
fn field(
    state: &mut Bracketing,
    field: &Field,
    fuel: u32,
    size: &mut Size,
) -> Result<Field, NoMemory> {
    let label = label(&field.label)?;
    match field_value(state, field, fuel, size) {
        Ok(value) => Ok(Field { label, value }),
        Err(error) => Err(error),
    }
}

/// The expression behind a label, if one is written.
#[cycle(exprs)]
fn field_value(
    state: &mut Bracketing,
    field: &Field,
    fuel: u32,
    size: &mut Size,
) -> Result<Option<Boxed<ExprTree>>, NoMemory> {
    match &field.value {
        Some(value) => Ok(Some(boxed(state, value, fuel, size)?)),
        None => Ok(None),
    }
}

/// Whether a place ends before another. So a call's function does, but for one that a statement calls unwritten: that has the
/// place of the whole form.
fn ends_before(one: Span, other: Span) -> bool
    ensures { IsTrue result ↔ ((one.end_line < other.end_line) ⊎ ((one.end_line ≡ other.end_line) × (one.end_column < other.end_column))) }
{
    if one.end_line < other.end_line {
        return true;
    }
    one.end_line == other.end_line && one.end_column < other.end_column
}
