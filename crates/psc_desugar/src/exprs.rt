//! Expressions in plain forms.

use crate::ado::ado;
use crate::binds::layers_of;
use crate::calls::applied;
use crate::functions::function;
use crate::layers::{Place, wrap};
use crate::rights::alternatives;
use crate::statements::do_block;
use psc_ast::{ExprTree, Field, LabelAt, Update};
use psc_plain::{PlainAlt, PlainBinder, PlainExpr, PlainField};
use psc_plain_parts::{
    Desugar, Names, Numbers, Stop, alternative, boxed, case_of_value, local, made, made_lambdas,
    typ, value,
};
use psc_text::{Ident, NoMemory, Span};
use sqlite_items::{Boxed, Items};
use std::alloc::Global;

/// An expression in plain forms.
#[cycle(exprs)]
pub(crate) fn expr(state: &mut Desugar, tree: &ExprTree) -> Result<PlainExpr, Stop> {
    match tree {
        ExprTree::Operation { .. } | ExprTree::Ticks { .. } | ExprTree::Call { .. } => applied(
            state, tree,
        ),
        ExprTree::Lambda {
            binders,
            body,
            span,
        } => function(state, body.get(), binders.as_slice(), *span),
        ExprTree::If { .. } => if_form(state, tree),
        ExprTree::Case { .. } => case_form(state, tree),
        ExprTree::Let { .. } | ExprTree::Do { .. } | ExprTree::Ado { .. } => block(state, tree),
        ExprTree::Access { .. } => access(state, tree),
        ExprTree::Update { .. } => update(state, tree),
        ExprTree::Paren { inner, .. } => paren(state, inner.get()),
        ExprTree::Typed { .. } => typed(state, tree),
        ExprTree::Array { .. } | ExprTree::XRecord { .. } => brackets(state, tree),
        // Bracketing left no chain, and resolving names no minus.
        ExprTree::Chain { first, .. } => expr(state, first.get()),
        ExprTree::Negate { operand, .. } => expr(state, operand.get()),
        _ => atom(state, tree),
    }
}

/// A name, a literal or a hole.
pub(crate) fn atom(state: &mut Desugar, tree: &ExprTree) -> Result<PlainExpr, Stop> {
    match tree {
        ExprTree::Variable { name } => {
            if name.name.module.is_none() {
                state.scope.mention(&name.name.name)?;
            }
            Ok(PlainExpr::Variable {
                name: name.name.clone()?,
                span: name.span,
            })
        }
        ExprTree::Constructor { name } => Ok(PlainExpr::Constructor {
            name: name.name.clone()?,
            span: name.span,
        }),
        ExprTree::Operator { name, .. } => Ok(value(name)?),
        ExprTree::Hole { span } => {
            let number = state.hole();
            Ok(made(state, number, *span)?)
        }
        _ => Ok(literal(tree)?),
    }
}

/// A literal. Nothing else comes here; `false` stands for what is none.
fn literal(tree: &ExprTree) -> Result<PlainExpr, NoMemory> {
    match tree {
        ExprTree::Integer { value, span } => Ok(PlainExpr::Integer {
            value: *value,
            span: *span,
        }),
        ExprTree::Str { value, span } => Ok(PlainExpr::Str {
            value: value.clone()?,
            span: *span,
        }),
        ExprTree::Character { value, span } => Ok(PlainExpr::Character {
            value: *value,
            span: *span,
        }),
        ExprTree::Boolean { value, span } => Ok(PlainExpr::Boolean {
            value: *value,
            span: *span,
        }),
        _ => Ok(PlainExpr::Boolean {
            value: false,
            span: tree.span(),
        }),
    }
}

/// Expressions in plain forms.
#[cycle(exprs)]
fn exprs(state: &mut Desugar, trees: &[ExprTree]) -> Result<Items<PlainExpr>, Stop> {
    let mut list = Items::new(state.alloc);
    for tree in trees {
        add_expr(state, tree, &mut list)?;
    }
    Ok(list)
}

#[cycle(exprs)]
fn add_expr(state: &mut Desugar, tree: &ExprTree, list: &mut Items<PlainExpr>) -> Result<(), Stop> {
    let one = expr(state, tree)?;
    list.push(one)?;
    Ok(())
}

/// `if` is a case of its test. All that is made has its place.
#[cycle(exprs)]
fn if_form(state: &mut Desugar, tree: &ExprTree) -> Result<PlainExpr, Stop> {
    match tree {
        ExprTree::If { test, span, .. } => {
            let test = expr(state, test.get())?;
            match if_alternatives(state, tree) {
                Ok(list) => Ok(case_of_value(state.alloc, test, list, *span)?),
                Err(stop) => Err(stop),
            }
        }
        _ => atom(state, tree),
    }
}

#[cycle(exprs)]
fn if_alternatives(state: &mut Desugar, tree: &ExprTree) -> Result<Items<PlainAlt>, Stop> {
    let mut list = Items::new(state.alloc);
    if let ExprTree::If {
        then,
        otherwise,
        span,
        ..
    } = tree
    {
        let holds = PlainBinder::Boolean {
            value: true,
            span: *span,
        };
        add_if(state, then.get(), holds, *span, &mut list)?;
        add_if(
            state,
            otherwise.get(),
            PlainBinder::Wild { span: *span },
            *span,
            &mut list,
        )?;
    }
    Ok(list)
}

#[cycle(exprs)]
fn add_if(
    state: &mut Desugar,
    body: &ExprTree,
    binder: PlainBinder,
    span: Span,
    list: &mut Items<PlainAlt>,
) -> Result<(), Stop> {
    match expr(state, body) {
        Ok(body) => {
            let alt = alternative(state.alloc, binder, body, span)?;
            list.push(alt)?;
            Ok(())
        }
        Err(stop) => Err(stop),
    }
}

/// A `case`, which is a function of its scrutinees that are `_`.
#[cycle(exprs)]
fn case_form(state: &mut Desugar, tree: &ExprTree) -> Result<PlainExpr, Stop> {
    match tree {
        ExprTree::Case {
            scrutinees,
            alternatives: list,
            span,
        } => {
            let numbers = open_holes(state, holes_of(scrutinees.as_slice()))?;
            let scrutinees = exprs(state, scrutinees.as_slice())?;
            match alternatives(state, list.as_slice()) {
                Ok(alternatives) => {
                    let whole = PlainExpr::Case {
                        scrutinees,
                        alternatives,
                        span: *span,
                    };
                    Ok(made_lambdas(state, numbers, whole, *span)?)
                }
                Err(stop) => Err(stop),
            }
        }
        _ => atom(state, tree),
    }
}

/// The numbers of so many holes, which are open from now on.
fn open_holes(state: &mut Desugar, count: usize) -> Result<Numbers, NoMemory> {
    let numbers = state.numbers(count)?;
    state.open_holes(numbers)?;
    Ok(numbers)
}

fn is_hole(tree: &ExprTree) -> bool {
    matches!(tree, ExprTree::Hole { .. })
}

/// How many of these are `_`.
fn holes_of(trees: &[ExprTree]) -> usize {
    let mut count: usize = 0;
    for tree in trees {
        if is_hole(tree) {
            count = count.saturating_add(1);
        }
    }
    count
}

/// How many operands of a chain are `_`.
#[cycle(holes)]
fn chain_holes(tree: &ExprTree) -> usize {
    match tree {
        ExprTree::Hole { .. } => 1,
        ExprTree::Operation { left, right, .. } => {
            let before = chain_holes(left.get());
            before.saturating_add(chain_holes(right.get()))
        }
        ExprTree::Ticks { first, rest, .. } => {
            let mut count = chain_holes(first.get());
            for step in rest.as_slice() {
                count = count.saturating_add(chain_holes(&step.operand));
            }
            count
        }
        ExprTree::Call { arguments, .. } => holes_of(arguments.as_slice()),
        _ => 0,
    }
}

/// What stands in parentheses: a chain there is a function of its operands that are `_`.
#[cycle(exprs)]
fn paren(state: &mut Desugar, inner: &ExprTree) -> Result<PlainExpr, Stop> {
    let numbers = open_holes(state, chain_holes(inner))?;
    let whole = expr(state, inner)?;
    Ok(made_lambdas(state, numbers, whole, inner.span())?)
}

/// A `let`, a `do` or an `ado`, whose names are bound in it alone.
#[cycle(exprs)]
fn block(state: &mut Desugar, tree: &ExprTree) -> Result<PlainExpr, Stop> {
    let mark = state.scope.mark();
    let whole = open_block(state, tree)?;
    state.scope.leave(mark);
    Ok(whole)
}

#[cycle(exprs)]
fn open_block(state: &mut Desugar, tree: &ExprTree) -> Result<PlainExpr, Stop> {
    match tree {
        ExprTree::Let { binds, body, span } => {
            let place = Place {
                of_where: false,
                span: *span,
            };
            match layers_of(state, binds.as_slice()) {
                Ok(layers) => {
                    let mut layers = layers;
                    let body = expr(state, body.get())?;
                    Ok(wrap(state.alloc, &mut layers, body, place)?)
                }
                Err(stop) => Err(stop),
            }
        }
        ExprTree::Do { statements, span } => do_block(state, statements.as_slice(), *span),
        ExprTree::Ado { .. } => ado(state, tree),
        _ => atom(state, tree),
    }
}

/// Labels behind an expression; behind `_` it is a function.
#[cycle(exprs)]
fn access(state: &mut Desugar, tree: &ExprTree) -> Result<PlainExpr, Stop> {
    match tree {
        ExprTree::Access {
            subject,
            labels,
            span,
        } => {
            let count = if is_hole(subject.get()) { 1 } else { 0 };
            let numbers = open_holes(state, count)?;
            let start = subject.get().span();
            let subject = expr(state, subject.get())?;
            let whole = with_labels(state.alloc, subject, labels.as_slice(), start)?;
            Ok(made_lambdas(state, numbers, whole, *span)?)
        }
        _ => atom(state, tree),
    }
}

fn with_labels(
    alloc: Global,
    subject: PlainExpr,
    labels: &[LabelAt],
    start: Span,
) -> Result<PlainExpr, NoMemory> {
    let mut whole = subject;
    for label in labels {
        whole = with_label(alloc, whole, label, start)?;
    }
    Ok(whole)
}

fn with_label(
    alloc: Global,
    subject: PlainExpr,
    label: &LabelAt,
    start: Span,
) -> Result<PlainExpr, NoMemory> {
    match boxed(alloc, subject) {
        Ok(subject) => Ok(PlainExpr::Access {
            subject,
            label: label.label.clone()?,
            span: start.to(label.span),
        }),
        Err(error) => Err(error),
    }
}

#[cycle(exprs)]
fn update(state: &mut Desugar, tree: &ExprTree) -> Result<PlainExpr, Stop> {
    match tree {
        ExprTree::Update {
            subject,
            updates,
            span,
        } => {
            let subject = boxed_expr(state, subject.get())?;
            match update_list(state, updates.as_slice()) {
                Ok(updates) => Ok(PlainExpr::Update {
                    subject,
                    updates,
                    span: *span,
                }),
                Err(stop) => Err(stop),
            }
        }
        _ => atom(state, tree),
    }
}

#[cycle(exprs)]
fn boxed_expr(state: &mut Desugar, tree: &ExprTree) -> Result<Boxed<PlainExpr>, Stop> {
    let tree = expr(state, tree)?;
    Ok(boxed(state.alloc, tree)?)
}

/// `e :: t`
#[cycle(exprs)]
fn typed(state: &mut Desugar, tree: &ExprTree) -> Result<PlainExpr, Stop> {
    match tree {
        ExprTree::Typed {
            value,
            x_type,
            span,
        } => {
            let value = boxed_expr(state, value.get())?;
            match typ(state.alloc, x_type.get()) {
                Ok(x_type) => Ok(PlainExpr::Typed {
                    value,
                    x_type: Boxed::new(state.alloc, x_type)?,
                    span: *span,
                }),
                Err(_) => Err(Stop::NoMemory),
            }
        }
        _ => atom(state, tree),
    }
}

/// The updates of a record, no two of which have one label.
#[cycle(exprs)]
fn update_list(state: &mut Desugar, updates: &[Update]) -> Result<Items<PlainField>, Stop> {
    let mut names = state.names();
    let mut list = Items::new(state.alloc);
    for one in updates {
        add_update(state, one, &mut names, &mut list)?;
    }
    Ok(list)
}

#[cycle(exprs)]
fn add_update(
    state: &mut Desugar,
    update: &Update,
    names: &mut Names,
    list: &mut Items<PlainField>,
) -> Result<(), Stop> {
    names.add_label(&update.label.label.0, update.label.span)?;
    let value = expr(state, update.value.get())?;
    let field = field_of(&update.label, value)?;
    list.push(field)?;
    Ok(())
}

fn field_of(label: &LabelAt, value: PlainExpr) -> Result<PlainField, NoMemory> {
    match label.label.clone() {
        Ok(made) => Ok(PlainField {
            label: made,
            label_span: label.span,
            value,
        }),
        Err(_) => Err(NoMemory),
    }
}

#[cycle(exprs)]
fn brackets(state: &mut Desugar, tree: &ExprTree) -> Result<PlainExpr, Stop> {
    match tree {
        ExprTree::Array { items, span } => {
            let items = exprs(state, items.as_slice())?;
            Ok(PlainExpr::Array { items, span: *span })
        }
        ExprTree::XRecord { fields, span } => {
            let fields = field_list(state, fields.as_slice())?;
            Ok(PlainExpr::XRecord {
                fields,
                span: *span,
            })
        }
        _ => atom(state, tree),
    }
}

/// The fields of a record, no two of which have one label.
#[cycle(exprs)]
fn field_list(state: &mut Desugar, fields: &[Field]) -> Result<Items<PlainField>, Stop> {
    let mut names = state.names();
    let mut list = Items::new(state.alloc);
    for field in fields {
        add_field(state, field, &mut names, &mut list)?;
    }
    Ok(list)
}

#[cycle(exprs)]
fn add_field(
    state: &mut Desugar,
    field: &Field,
    names: &mut Names,
    list: &mut Items<PlainField>,
) -> Result<(), Stop> {
    names.add_label(&field.label.label.0, field.label.span)?;
    let value = field_value(state, field)?;
    let one = field_of(&field.label, value)?;
    list.push(one)?;
    Ok(())
}

/// The value of a field; a label alone stands for the variable of its name.
#[cycle(exprs)]
fn field_value(state: &mut Desugar, field: &Field) -> Result<PlainExpr, Stop> {
    match &field.value {
        Some(value) => expr(state, value.get()),
        None => {
            let name = &field.label.label.0;
            state.scope.mention(name)?;
            Ok(PlainExpr::Variable {
                name: local(Ident(name.clone()?)),
                span: field.label.span,
            })
        }
    }
}
