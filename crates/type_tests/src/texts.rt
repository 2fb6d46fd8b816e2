//! Texts of types and kinds, whole, against texts that were written by hand: a row has a type as words and its text.

use crate::ask::{Question, ask};
use crate::words::Make;
use psc_items::Shared;
use psc_text::NoMemory;
use psc_type::{Kind, Ty};
use psc_type_text::{kind_text, type_text};
use std::alloc::Global;
use std::test::Fail;

pub fn shows(make: Make, words: &str, want: &str) -> Result<bool, NoMemory> {
    let ty = make.ty(words)?;
    let text = type_text(make.alloc, ty.get())?;
    Ok(text.as_str() == want)
}

/// Applies the topmost type to itself.
fn double(make: Make, stack: &mut Vec<Shared<Ty>>) -> Result<(), NoMemory> {
    let ty = make.take(stack)?;
    let copy = ty.clone()?;
    make.put(stack, Ty::App(copy, ty))
}

/// A name applied to itself, that to itself, and so on: 2 ^ (times + 1) - 1 nodes.
fn put_doubled(make: Make, stack: &mut Vec<Shared<Ty>>, times: u32) -> Result<(), NoMemory> {
    make.con(stack, "Data.Sample", "N")?;
    for _ in 0..times {
        double(make, stack)?;
    }
    Ok(())
}

/// A type of 19,999 nodes.
fn put_large(make: Make, stack: &mut Vec<Shared<Ty>>) -> Result<(), NoMemory> {
    put_doubled(make, stack, 13)?;
    for times in [10, 9, 8, 4] {
        put_doubled(make, stack, times)?;
        make.app(stack)?;
    }
    Ok(())
}

/// A type of 19,999 nodes and so many more.
fn large(make: Make, more: u32) -> Result<Shared<Ty>, NoMemory> {
    let mut stack = Vec::new(make.alloc);
    put_large(make, &mut stack)?;
    for _ in 0..more {
        make.forall(&mut stack, "a")?;
    }
    make.take(&mut stack)
}

/// Whether the type of 19,999 nodes and so many more has no text but the blank.
fn is_blank(make: Make, more: u32) -> Result<bool, NoMemory> {
    let ty = large(make, more)?;
    let text = type_text(make.alloc, ty.get())?;
    Ok(text.as_str() == "_")
}

const NAMES: &[&[&str]] = &[
    &["var a", "a"],
    &["prim Int", "Int"],
    &["con Maybe", "Maybe"],
    &["app;con Maybe;prim Int", "Maybe Int"],
    &["prim Record", "Record"],
    &["prim Function", "Function"],
];

#[test]
fn names_are_printed_without_their_module(rt: HostRuntime) -> Result<(), Fail> {
    ask(&rt, rt.alloc(), Question::Shows, NAMES)
}

const RIGID: &[&[&str]] = &[
    &["var a$12", "a"],
    &["->;var é$0;var b$1", "é -> b"],
    &["forall a$3;var a$3", "forall a. a"],
];

#[test]
fn a_rigid_variable_is_printed_without_its_number(rt: HostRuntime) -> Result<(), Fail> {
    ask(&rt, rt.alloc(), Question::Shows, RIGID)
}

const BLANKS: &[&[&str]] = &[
    &["unknown", "_"],
    &["any", "_"],
    &["app;con Maybe;unknown", "Maybe _"],
    &["record;unknown", "{ | _ }"],
];

#[test]
fn what_is_not_known_is_a_blank(rt: HostRuntime) -> Result<(), Fail> {
    ask(&rt, rt.alloc(), Question::Shows, BLANKS)
}

const ARGUMENTS: &[&[&str]] = &[
    &["app;con M;app;con M;prim Int", "M (M Int)"],
    &["app;app;con E;prim Int;var a", "E Int a"],
    &["app;con M;app;app;con E;prim Int;var a", "M (E Int a)"],
    &["app;con M;->;prim Int;prim Int", "M (Int -> Int)"],
    &["app;con M;forall a;var a", "M (forall a. a)"],
    &["app;con M;class Eq;var a;var a", "M (Eq a => a)"],
    &["app;prim Function;prim Int", "Function Int"],
    &["app;con M;app;prim Function;prim Int", "M (Function Int)"],
    &["app;con M;prim Function", "M Function"],
    &["app;con M;record;nil", "M {}"],
    &["app;con M;nil", "M ()"],
    &["app;con M;sym s", "M \"s\""],
];

#[test]
fn arguments_stand_in_parentheses_unless_they_are_one_name(rt: HostRuntime) -> Result<(), Fail> {
    ask(&rt, rt.alloc(), Question::Shows, ARGUMENTS)
}

const ARROWS: &[&[&str]] = &[
    &["->;prim Int;->;var a;var b", "Int -> a -> b"],
    &["->;->;prim Int;var a;var b", "(Int -> a) -> b"],
    &["->;app;con M;prim Int;app;con M;var a", "M Int -> M a"],
    &["->;forall a;var a;prim Int", "(forall a. a) -> Int"],
    &["->;prim Int;forall a;var a", "Int -> forall a. a"],
    &["->;class Eq;var a;var a;prim Int", "(Eq a => a) -> Int"],
];

#[test]
fn arrows_associate_to_the_right(rt: HostRuntime) -> Result<(), Fail> {
    ask(&rt, rt.alloc(), Question::Shows, ARROWS)
}

const QUANTIFIERS: &[&[&str]] = &[
    &["forall a;forall b;->;var a;var b", "forall a b. a -> b"],
    &["forall a;class Eq;var a;var a", "forall a. Eq a => a"],
    &["class Eq;var a;->;var a;prim Int", "Eq a => a -> Int"],
    &[
        "class Eq;var a;class Eq;app;con M;var b;prim Int",
        "Eq a => Eq (M b) => Int",
    ],
    &["given Partial;prim Int", "Partial => Int"],
];

#[test]
fn quantifiers_are_joined_and_constraints_are_not(rt: HostRuntime) -> Result<(), Fail> {
    ask(&rt, rt.alloc(), Question::Shows, QUANTIFIERS)
}

const RECORDS: &[&[&str]] = &[
    &["record;nil", "{}"],
    &["record;var r", "{ | r }"],
    &["record;row x;prim Int;nil", "{ x :: Int }"],
    &[
        "record;row x;prim Int;row y;var a;var r",
        "{ x :: Int, y :: a | r }",
    ],
    &[
        "app;con M;record;row f;->;prim Int;prim Int;nil",
        "M { f :: Int -> Int }",
    ],
    &["nil", "()"],
    &["row x;prim Int;var r", "( x :: Int | r )"],
    &["app;con M;row x;prim Int;var r", "M ( x :: Int | r )"],
];

#[test]
fn records_are_braces_and_other_rows_parentheses(rt: HostRuntime) -> Result<(), Fail> {
    ask(&rt, rt.alloc(), Question::Shows, RECORDS)
}

const LABELS: &[&[&str]] = &[
    &["record;row b;var t;row a;var u;nil", "{ a :: u, b :: t }"],
    &[
        "row b;var t;row a;var u;row b;var v;nil",
        "( a :: u, b :: t, b :: v )",
    ],
];

#[test]
fn labels_stand_in_order_and_equal_ones_as_they_stood(rt: HostRuntime) -> Result<(), Fail> {
    ask(&rt, rt.alloc(), Question::Shows, LABELS)
}

const QUOTED: &[&[&str]] = &[
    &["row x'1_Y;prim Int;nil", "( x'1_Y :: Int )"],
    &["row _x;prim Int;nil", "( _x :: Int )"],
    &["row type;prim Int;nil", "( type :: Int )"],
    &["row _;prim Int;nil", "( \"_\" :: Int )"],
    &["row X;prim Int;nil", "( \"X\" :: Int )"],
    &["row two words;prim Int;nil", "( \"two words\" :: Int )"],
    &["row ;prim Int;nil", "( \"\" :: Int )"],
    &["row q\"\\\n;prim Int;nil", "( \"q\\\"\\\\\\n\" :: Int )"],
    &["sym a b", "\"a b\""],
    &["sym \"\t", "\"\\\"\\t\""],
];

#[test]
fn labels_that_are_no_lower_names_and_symbols_are_quoted(rt: HostRuntime) -> Result<(), Fail> {
    ask(&rt, rt.alloc(), Question::Shows, QUOTED)
}

#[test]
fn a_type_of_more_than_20_000_nodes_is_a_blank(rt: HostRuntime) -> Result<(), Fail> {
    let make = Make { alloc: rt.alloc() };
    assert!(rt; !is_blank(make, 1)?);
    assert!(rt; is_blank(make, 2)?);
    Ok(())
}

fn shared(alloc: Global, kind: Kind) -> Result<Shared<Kind>, NoMemory> {
    Ok(Shared::new(alloc, kind)?)
}

fn rows_over(alloc: Global, kind: Shared<Kind>) -> Result<Shared<Kind>, NoMemory> {
    shared(alloc, Kind::RowOf(kind))
}

fn rows_of_types(alloc: Global) -> Result<Shared<Kind>, NoMemory> {
    let kind = shared(alloc, Kind::Star)?;
    rows_over(alloc, kind)
}

fn types_to_symbols(alloc: Global) -> Result<Shared<Kind>, NoMemory> {
    let from = shared(alloc, Kind::Star)?;
    let to = shared(alloc, Kind::Sym)?;
    shared(alloc, Kind::Arrow(from, to))
}

fn kind_of(alloc: Global, words: &str) -> Result<Shared<Kind>, NoMemory> {
    match words {
        "type" => shared(alloc, Kind::Star),
        "constraint" => shared(alloc, Kind::Constr),
        "symbol" => shared(alloc, Kind::Sym),
        "unknown" => shared(alloc, Kind::Unknown(3)),
        "row of types" => rows_of_types(alloc),
        "type to symbol" => types_to_symbols(alloc),
        _ => Err(NoMemory),
    }
}

fn has_text(alloc: Global, kind: &Kind, want: &str) -> Result<bool, NoMemory> {
    let text = kind_text(alloc, kind)?;
    Ok(text.as_str() == want)
}

fn row_shows(alloc: Global, words: &str, want: &str) -> Result<bool, NoMemory> {
    let kind = kind_of(alloc, words)?;
    let rows = rows_over(alloc, kind)?;
    has_text(alloc, rows.get(), want)
}

fn arrow_to_itself(alloc: Global, words: &str) -> Result<Shared<Kind>, NoMemory> {
    let kind = kind_of(alloc, words)?;
    let copy = kind.clone()?;
    shared(alloc, Kind::Arrow(copy, kind))
}

fn arrow_shows(alloc: Global, words: &str, want: &str) -> Result<bool, NoMemory> {
    let arrow = arrow_to_itself(alloc, words)?;
    has_text(alloc, arrow.get(), want)
}

/// Whether the kind of rows over a kind and the kind of arrows from it to itself have these texts.
pub fn kind_shows(alloc: Global, words: &str, row: &str, arrow: &str) -> Result<bool, NoMemory> {
    Ok(row_shows(alloc, words, row)? && arrow_shows(alloc, words, arrow)?)
}

/// A kind, the text of the kind of rows over it, and the text of the kind of arrows from it to itself.
const KINDS: &[&[&str]] = &[
    &["type", "Row Type", "Type -> Type"],
    &["constraint", "Row Constraint", "Constraint -> Constraint"],
    &["symbol", "Row Symbol", "Symbol -> Symbol"],
    &["unknown", "Row _", "_ -> _"],
    &["row of types", "Row (Row Type)", "Row Type -> Row Type"],
    &[
        "type to symbol",
        "Row (Type -> Symbol)",
        "(Type -> Symbol) -> Type -> Symbol",
    ],
];

#[test]
fn kinds(rt: HostRuntime) -> Result<(), Fail> {
    ask(&rt, rt.alloc(), Question::KindShows, KINDS)
}
