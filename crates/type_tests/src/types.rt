//! What is asked of types, on small ones.

use crate::ask::{Question, ask};
use crate::words::Make;
use psc_items::Shared;
use psc_text::NoMemory;
use psc_type::{Replaced, Ty, canonical, has_more_nodes, is_free, row_equal, substitute};
use std::test::Fail;

fn ordered(make: Make, words: &str) -> Result<Shared<Ty>, NoMemory> {
    let ty = make.ty(words)?;
    make.shared(canonical(make.alloc, ty.get()))
}

/// Whether the first type with its labels in order is the second.
pub fn is_ordered(make: Make, words: &str, want: &str) -> Result<bool, NoMemory> {
    let ty = ordered(make, words)?;
    make.is(ty.get(), want)
}

pub fn are_equal(make: Make, one: &str, other: &str) -> Result<bool, NoMemory> {
    let one = make.ty(one)?;
    let other = make.ty(other)?;
    row_equal(make.alloc, one.get(), other.get())
}

fn replacement(make: Make, name: &str, by: &str) -> Result<Replaced, NoMemory> {
    let name = make.ident(name)?;
    let by = make.owned(by)?;
    Ok(Replaced { name, by })
}

fn replacements(make: Make, name: &str, by: &str) -> Result<Vec<Replaced>, NoMemory> {
    let mut replaced = Vec::new(make.alloc);
    replaced.push(replacement(make, name, by)?)?;
    Ok(replaced)
}

fn replaced(make: Make, name: &str, by: &str, words: &str) -> Result<Shared<Ty>, NoMemory> {
    let replaced = replacements(make, name, by)?;
    let ty = make.ty(words)?;
    make.shared(substitute(make.alloc, replaced.as_slice(), ty.get()))
}

/// Whether `ty` with `by` in the place of the variable is `want`.
pub fn becomes(make: Make, name: &str, by: &str, ty: &str, want: &str) -> Result<bool, NoMemory> {
    let ty = replaced(make, name, by, ty)?;
    make.is(ty.get(), want)
}

pub fn mentions(make: Make, name: &str, words: &str) -> Result<bool, NoMemory> {
    let name = make.ident(name)?;
    let ty = make.ty(words)?;
    Ok(is_free(&name, ty.get()))
}

pub fn has_six_nodes(make: Make, words: &str) -> Result<bool, NoMemory> {
    let ty = make.ty(words)?;
    Ok(has_more_nodes(ty.get(), 5) && !has_more_nodes(ty.get(), 6))
}

const ORDERED: &[&[&str]] = &[
    &[
        "row y;var a;row x;var b;row y;var c;var r",
        "row x;var b;row y;var a;row y;var c;var r",
    ],
    &[
        "class C;row y;var a;row x;var b;row y;var c;var r;nil",
        "class C;row x;var b;row y;var a;row y;var c;var r;nil",
    ],
    &[
        "app;row y;var a;row x;var b;nil;nil",
        "app;row x;var b;row y;var a;nil;nil",
    ],
];

#[test]
fn labels_are_put_in_order(rt: HostRuntime) -> Result<(), Fail> {
    ask(&rt, rt.alloc(), Question::Ordered, ORDERED)
}

const EQUAL: &[&[&str]] = &[
    &["row x;var a;row y;var b;nil", "row y;var b;row x;var a;nil"],
    &["forall a;app;var a;var c", "forall b;app;var b;var c"],
    &["forall a;forall a;var a", "forall a;forall b;var b"],
];

#[test]
fn types_are_equal_up_to_the_order_of_labels_and_bound_names(rt: HostRuntime) -> Result<(), Fail> {
    ask(&rt, rt.alloc(), Question::Equal, EQUAL)
}

const UNEQUAL: &[&[&str]] = &[
    &["row x;var a;row x;var b;nil", "row x;var b;row x;var a;nil"],
    &["row x;var a;row y;var b;nil", "row x;var a;row x;var b;nil"],
    &["forall a;app;var a;var c", "forall c;app;var c;var c"],
    &["var a", "var b"],
    &[
        "forall a;forall b;app;var a;var b",
        "forall a;forall b;app;var b;var a",
    ],
    &["var b0", "forall a;var a"],
];

#[test]
fn types_differ_by_the_order_of_equal_labels_and_by_what_is_captured(
    rt: HostRuntime,
) -> Result<(), Fail> {
    ask(&rt, rt.alloc(), Question::Unequal, UNEQUAL)
}

/// A variable, what is put in its place, a type, and what that becomes.
const REPLACED: &[&[&str]] = &[
    &[
        "a",
        "nil",
        "app;var a;forall a;var a",
        "app;nil;forall a;var a",
    ],
    &[
        "b",
        "nil",
        "app;var a;forall a;var a",
        "app;var a;forall a;var a",
    ],
    &["a", "nil", "class C;var a;var a", "class C;nil;nil"],
    &[
        "a",
        "var b",
        "forall b;app;var a;var b",
        "forall b';app;var b;var b'",
    ],
    &[
        "a",
        "var b",
        "forall b;app;var a;app;var b;var b'",
        "forall b'';app;var b;app;var b'';var b'",
    ],
];

#[test]
fn free_variables_are_replaced_and_none_is_captured(rt: HostRuntime) -> Result<(), Fail> {
    ask(&rt, rt.alloc(), Question::Becomes, REPLACED)
}

/// Types, and whether `a` is free in them.
const FREE: &[&[&str]] = &[
    &["forall a;var a", "no"],
    &["app;forall a;var a;var a", "yes"],
    &["class C;var a;nil", "yes"],
    &["class C;var b;nil", "no"],
];

#[test]
fn a_bound_variable_is_not_free(rt: HostRuntime) -> Result<(), Fail> {
    ask(&rt, rt.alloc(), Question::Free, FREE)
}

const NODES: &[&[&str]] = &[&["class C;var a;forall a;app;nil;nil"]];

#[test]
fn nodes_are_counted(rt: HostRuntime) -> Result<(), Fail> {
    ask(&rt, rt.alloc(), Question::SixNodes, NODES)
}
