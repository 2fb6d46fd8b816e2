//! Expressions with true names.
//!
//! A form that stands for a call of a name that is not written mentions that name: `-e` is a call of `negate`, a statement's
//! value one of `bind` or `discard`, and the steps and the result of an `ado` those of `map`, `apply` and `pure`. These calls
//! stand in the resolved tree, as calls of one argument.

ghost use Rattle.std.specs.Prelude.{◌≡◌, [], ◌∷◌, IfOk};
ghost use Rattle.psc_names.specs.Names as spec;

use crate::binds::{alternatives, bind_segments, do_statements};
use psc_ast::{ChainStep, ExprTree, Field, LabelAt, Mention, TickStep, Update};
use psc_mentions::{Resolver, all_binders, label, typ};
use psc_scope::{Area, Stop};
use psc_text::{NoMemory, Qualified, Span, Text};
use sqlite_items::{Boxed, Items};
use std::alloc::Global;

/// An expression with true names.
#[cycle(exprs)]
pub(crate) fn expr(state: &mut Resolver, tree: &ExprTree) -> Result<ExprTree, Stop> {
    match tree {
        ExprTree::Chain { .. } | ExprTree::Operation { .. } | ExprTree::Ticks { .. } => operators(
            state, tree,
        ),
        ExprTree::Typed { .. } | ExprTree::Negate { .. } | ExprTree::Call { .. } => applied(
            state, tree,
        ),
        ExprTree::Lambda { .. } | ExprTree::If { .. } | ExprTree::Case { .. } => form(state, tree),
        ExprTree::Let { .. } | ExprTree::Do { .. } | ExprTree::Ado { .. } => block(state, tree),
        ExprTree::Access { .. } | ExprTree::Update { .. } | ExprTree::Paren { .. } => part(
            state, tree,
        ),
        ExprTree::Array { .. } | ExprTree::XRecord { .. } => brackets(state, tree),
        ExprTree::Variable { .. } | ExprTree::Constructor { .. } | ExprTree::Operator { .. } =>
            name(state, tree),
        ExprTree::Integer { .. }
        | ExprTree::Str { .. }
        | ExprTree::Character { .. }
        | ExprTree::Boolean { .. }
        | ExprTree::Hole { .. } => Ok(literal(tree)?),
    }
}

#[cycle(exprs)]
pub(crate) fn boxed(state: &mut Resolver, tree: &Boxed<ExprTree>) -> Result<Boxed<ExprTree>, Stop> {
    match expr(state, tree.get()) {
        Ok(found) => on_heap(state.alloc, found),
        Err(stop) => Err(stop),
    }
}

/// An expression in which names are bound.
#[cycle(exprs)]
pub(crate) fn boxed_under(
    state: &mut Resolver,
    tree: &ExprTree,
    names: &[Text],
) -> Result<Boxed<ExprTree>, Stop> {
    let mark = state.values.mark();
    state.values.enter_all(names)?;
    boxed_to(state, tree, mark)
}

/// An expression, behind which all names are left that were bound since the mark.
#[cycle(exprs)]
pub(crate) fn boxed_to(
    state: &mut Resolver,
    tree: &ExprTree,
    mark: usize,
) -> Result<Boxed<ExprTree>, Stop> {
    match expr(state, tree) {
        Ok(found) => leave_boxed(state, found, mark),
        Err(stop) => Err(stop),
    }
}

/// Leaves all names that were bound since the mark.
pub(crate) fn leave_boxed(
    state: &mut Resolver,
    tree: ExprTree,
    mark: usize,
) -> Result<Boxed<ExprTree>, Stop> {
    match state.values.leave(mark) {
        Ok(()) => on_heap(state.alloc, tree),
        Err(error) => Err(Stop::from(error)),
    }
}

/// An expression on the heap.
fn on_heap(alloc: Global, tree: ExprTree) -> Result<Boxed<ExprTree>, Stop> {
    match Boxed::new(alloc, tree) {
        Ok(found) => Ok(found),
        Err(error) => Err(Stop::from(error)),
    }
}

#[cycle(exprs)]
fn exprs(state: &mut Resolver, trees: &[ExprTree]) -> Result<Items<ExprTree>, Stop> {
    let mut list = Items::new(state.alloc);
    for tree in trees {
        list.push(expr(state, tree)?)?;
    }
    Ok(list)
}

/// What stands for a tree that a function is not for, which no caller hands it.
fn hole(span: Span) -> ExprTree {
    ExprTree::Hole { span }
}

fn literal(tree: &ExprTree) -> Result<ExprTree, NoMemory> {
    match tree {
        ExprTree::Integer { value, span } => Ok(ExprTree::Integer {
            value: *value,
            span: *span,
        }),
        ExprTree::Str { value, span } => Ok(ExprTree::Str {
            value: value.clone()?,
            span: *span,
        }),
        ExprTree::Character { value, span } => Ok(ExprTree::Character {
            value: *value,
            span: *span,
        }),
        ExprTree::Boolean { value, span } => Ok(ExprTree::Boolean {
            value: *value,
            span: *span,
        }),
        _ => Ok(hole(tree.span())),
    }
}

fn name(state: &mut Resolver, tree: &ExprTree) -> Result<ExprTree, Stop> {
    match tree {
        ExprTree::Variable { name } => Ok(ExprTree::Variable {
            name: state.value(name)?,
        }),
        ExprTree::Constructor { name } => Ok(ExprTree::Constructor {
            name: state.global(Area::Constructor, name)?,
        }),
        ExprTree::Operator { name, span } => {
            let name = state.operator(Area::ValueOp, name)?;
            Ok(ExprTree::Operator { name, span: *span })
        }
        _ => Ok(hole(tree.span())),
    }
}

/// A call of a name that is not written.
pub(crate) fn made_call(
    alloc: Global,
    function: Mention,
    argument: ExprTree,
    span: Span,
) -> Result<ExprTree, NoMemory>
    ensures { IfOk result (λ call. call ≡ spec.made_call function argument span) }
{
    match one_argument(alloc, argument) {
        Ok(arguments) => call_of(alloc, function, arguments, span),
        Err(error) => Err(error),
    }
}

fn one_argument(alloc: Global, argument: ExprTree) -> Result<Items<ExprTree>, NoMemory>
    ensures { IfOk result (λ list. list ≡ argument ∷ []) }
{
    let mut arguments = Items::new(alloc);
    match arguments.push(argument) {
        Ok(()) => Ok(arguments),
        Err(error) => Err(NoMemory::from(error)),
    }
}

fn variable(alloc: Global, name: Mention) -> Result<Boxed<ExprTree>, NoMemory>
    ensures { IfOk result (λ tree. tree ≡ spec.variable name) }
{
    match Boxed::new(alloc, ExprTree::Variable { name }) {
        Ok(tree) => Ok(tree),
        Err(error) => Err(NoMemory::from(error)),
    }
}

fn call_of(
    alloc: Global,
    function: Mention,
    arguments: Items<ExprTree>,
    span: Span,
) -> Result<ExprTree, NoMemory>
    ensures { IfOk result (λ call. call ≡ spec.call function arguments span) }
{
    match variable(alloc, function) {
        Ok(function) => Ok(ExprTree::Call {
            function,
            arguments,
            span,
        }),
        Err(error) => Err(error),
    }
}

#[cycle(exprs)]
fn operators(state: &mut Resolver, tree: &ExprTree) -> Result<ExprTree, Stop> {
    match tree {
        ExprTree::Chain { first, rest, span } => {
            let first = boxed(state, first)?;
            let rest = chain_steps(state, rest.as_slice())?;
            Ok(ExprTree::Chain {
                first,
                rest,
                span: *span,
            })
        }
        ExprTree::Operation {
            op,
            left,
            right,
            span,
        } => {
            let left = boxed(state, left)?;
            let op = state.operator(Area::ValueOp, op)?;
            let right = boxed(state, right)?;
            Ok(ExprTree::Operation {
                op,
                left,
                right,
                span: *span,
            })
        }
        ExprTree::Ticks { first, rest, span } => {
            let first = boxed(state, first)?;
            let rest = tick_steps(state, rest.as_slice())?;
            Ok(ExprTree::Ticks {
                first,
                rest,
                span: *span,
            })
        }
        _ => Ok(hole(tree.span())),
    }
}

#[cycle(exprs)]
fn chain_steps(state: &mut Resolver, steps: &[ChainStep]) -> Result<Items<ChainStep>, Stop> {
    let mut list = Items::new(state.alloc);
    for step in steps {
        let op = state.operator(Area::ValueOp, &step.op)?;
        let operand = expr(state, &step.operand)?;
        list.push(ChainStep { op, operand })?;
    }
    Ok(list)
}

#[cycle(exprs)]
fn tick_steps(state: &mut Resolver, steps: &[TickStep]) -> Result<Items<TickStep>, Stop> {
    let mut list = Items::new(state.alloc);
    for step in steps {
        let name = state.value_or_constructor(&step.name)?;
        let operand = expr(state, &step.operand)?;
        list.push(TickStep { name, operand })?;
    }
    Ok(list)
}

#[cycle(exprs)]
fn applied(state: &mut Resolver, tree: &ExprTree) -> Result<ExprTree, Stop> {
    let alloc = state.alloc;
    match tree {
        ExprTree::Typed {
            value,
            x_type,
            span,
        } => {
            let value = boxed(state, value)?;
            let x_type = Boxed::new(alloc, typ(state, x_type.get())?)?;
            Ok(ExprTree::Typed {
                value,
                x_type,
                span: *span,
            })
        }
        ExprTree::Negate {
            minus,
            operand,
            span,
        } => {
            let function = state.made("negate", *minus)?;
            match expr(state, operand.get()) {
                Ok(operand) => Ok(made_call(state.alloc, function, operand, *span)?),
                Err(stop) => Err(stop),
            }
        }
        ExprTree::Call {
            function,
            arguments,
            span,
        } => {
            let function = boxed(state, function)?;
            let arguments = exprs(state, arguments.as_slice())?;
            Ok(ExprTree::Call {
                function,
                arguments,
                span: *span,
            })
        }
        _ => Ok(hole(tree.span())),
    }
}

#[cycle(exprs)]
fn form(state: &mut Resolver, tree: &ExprTree) -> Result<ExprTree, Stop> {
    match tree {
        ExprTree::Lambda {
            binders: list,
            body,
            span,
        } => {
            let mut names = Vec::new(state.alloc);
            let binders = all_binders(state, list.as_slice(), &mut names)?;
            let body = boxed_under(state, body.get(), &names)?;
            Ok(ExprTree::Lambda {
                binders,
                body,
                span: *span,
            })
        }
        ExprTree::If {
            test,
            then,
            otherwise,
            span,
        } => {
            let test = boxed(state, test)?;
            let then = boxed(state, then)?;
            let otherwise = boxed(state, otherwise)?;
            Ok(ExprTree::If {
                test,
                then,
                otherwise,
                span: *span,
            })
        }
        ExprTree::Case {
            scrutinees,
            alternatives: list,
            span,
        } => {
            let scrutinees = exprs(state, scrutinees.as_slice())?;
            let alternatives = alternatives(state, list.as_slice())?;
            Ok(ExprTree::Case {
                scrutinees,
                alternatives,
                span: *span,
            })
        }
        _ => Ok(hole(tree.span())),
    }
}

#[cycle(exprs)]
fn block(state: &mut Resolver, tree: &ExprTree) -> Result<ExprTree, Stop> {
    match tree {
        ExprTree::Let { binds, body, span } => {
            let mark = state.values.mark();
            let binds = bind_segments(state, binds.as_slice())?;
            let body = boxed_to(state, body.get(), mark)?;
            Ok(ExprTree::Let {
                binds,
                body,
                span: *span,
            })
        }
        ExprTree::Do { statements, span } => {
            let mark = state.values.mark();
            let found = do_statements(state, statements.as_slice())?;
            match state.values.leave(mark) {
                Ok(()) => Ok(ExprTree::Do {
                    statements: found,
                    span: *span,
                }),
                Err(error) => Err(Stop::from(error)),
            }
        }
        ExprTree::Ado { .. } => crate::binds::ado(state, tree),
        _ => Ok(hole(tree.span())),
    }
}

#[cycle(exprs)]
fn part(state: &mut Resolver, tree: &ExprTree) -> Result<ExprTree, Stop> {
    match tree {
        ExprTree::Access {
            subject,
            labels,
            span,
        } => {
            let subject = boxed(state, subject)?;
            let labels = label_list(state.alloc, labels.as_slice())?;
            Ok(ExprTree::Access {
                subject,
                labels,
                span: *span,
            })
        }
        ExprTree::Update {
            subject,
            updates,
            span,
        } => {
            let subject = boxed(state, subject)?;
            let updates = update_list(state, updates.as_slice())?;
            Ok(ExprTree::Update {
                subject,
                updates,
                span: *span,
            })
        }
        ExprTree::Paren { inner, span } => Ok(ExprTree::Paren {
            inner: boxed(state, inner)?,
            span: *span,
        }),
        _ => Ok(hole(tree.span())),
    }
}

fn label_list(alloc: Global, labels: &[LabelAt]) -> Result<Items<LabelAt>, NoMemory> {
    let mut list = Items::new(alloc);
    for one in labels {
        list.push(label(one)?)?;
    }
    Ok(list)
}

#[cycle(exprs)]
fn update_list(state: &mut Resolver, updates: &[Update]) -> Result<Items<Update>, Stop> {
    let mut list = Items::new(state.alloc);
    for update in updates {
        let label = label(&update.label)?;
        let value = boxed(state, &update.value)?;
        list.push(Update { label, value })?;
    }
    Ok(list)
}

#[cycle(exprs)]
fn brackets(state: &mut Resolver, tree: &ExprTree) -> Result<ExprTree, Stop> {
    match tree {
        ExprTree::Array { items, span } => Ok(ExprTree::Array {
            items: exprs(state, items.as_slice())?,
            span: *span,
        }),
        ExprTree::XRecord { fields, span } => {
            let fields = field_list(state, fields.as_slice())?;
            Ok(ExprTree::XRecord {
                fields,
                span: *span,
            })
        }
        _ => Ok(hole(tree.span())),
    }
}

#[cycle(exprs)]
fn field_list(state: &mut Resolver, fields: &[Field]) -> Result<Items<Field>, Stop> {
    let mut list = Items::new(state.alloc);
    for field in fields {
        list.push(field_of(state, field)?)?;
    }
    Ok(list)
}

#[cycle(exprs)]
fn field_of(state: &mut Resolver, field: &Field) -> Result<Field, Stop> {
    let label = label(&field.label)?;
    match field_value(state, field) {
        Ok(value) => Ok(Field {
            label,
            value: Some(value),
        }),
        Err(stop) => Err(stop),
    }
}

/// The value of a field. A label alone mentions the value of its name.
#[cycle(exprs)]
fn field_value(state: &mut Resolver, field: &Field) -> Result<Boxed<ExprTree>, Stop> {
    match &field.value {
        Some(value) => boxed(state, value),
        None => named_value(state, &field.label),
    }
}

fn named_value(state: &mut Resolver, label: &LabelAt) -> Result<Boxed<ExprTree>, Stop> {
    let mention = Mention {
        name: Qualified {
            module: None,
            name: label.label.0.clone()?,
        },
        span: label.span,
    };
    let name = state.value(&mention)?;
    Ok(variable(state.alloc, name)?)
}
