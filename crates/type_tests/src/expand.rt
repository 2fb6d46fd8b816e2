//! Types with synonyms, and what they mean.

use crate::ask::{Question, ask};
use crate::words::Make;
use psc_expand::expand;
use psc_items::{Shared, SharedItems};
use psc_text::{Ident, NoMemory, Qualified};
use psc_type::{ExpandFault, Synonym, Synonyms, Ty};
use std::test::Fail;

/// Synonyms: their names, parameters and bodies. The second `Pair` counts for nothing.
const SYNONYMS: [(&str, &str, &str); 7] = [
    ("Twice", "a", "app;app;con Pair;var a;var a"),
    ("Pair", "a b", "app;app;con F;var a;var b"),
    ("Poly", "a", "forall b;app;app;con Pair;var a;var b"),
    ("Self", "", "app;con F;con Self"),
    ("Uses", "", "con Self"),
    ("Half", "", "app;con Pair;con N"),
    ("Pair", "", "con N"),
];

fn put_param(make: Make, params: &mut Vec<Ident>, name: &str) -> Result<(), NoMemory> {
    let name = make.ident(name)?;
    params.push(name)?;
    Ok(())
}

fn params_of(make: Make, words: &str) -> Result<SharedItems<Ident>, NoMemory> {
    let mut params = Vec::new(make.alloc);
    for word in words.split_whitespace() {
        put_param(make, &mut params, word)?;
    }
    Ok(SharedItems::from_vec(make.alloc, params)?)
}

/// What a synonym has before its body.
#[derive(Drop)]
struct Head {
    name: Qualified,
    params: SharedItems<Ident>,
}

fn head_of(make: Make, name: &str, params: &str) -> Result<Head, NoMemory> {
    let name = make.name("Data.Sample", name)?;
    let params = params_of(make, params)?;
    Ok(Head { name, params })
}

fn synonym(make: Make, name: &str, params: &str, words: &str) -> Result<Synonym, NoMemory> {
    let Head { name, params } = head_of(make, name, params)?;
    let body = make.owned(words)?;
    Ok(Synonym { name, params, body })
}

fn add(
    make: Make,
    rows: &mut Vec<Synonym>,
    name: &str,
    params: &str,
    words: &str,
) -> Result<(), NoMemory> {
    let row = synonym(make, name, params, words)?;
    rows.push(row)?;
    Ok(())
}

fn synonyms(make: Make) -> Result<Synonyms, NoMemory> {
    let mut rows = Vec::new(make.alloc);
    for (name, params, body) in SYNONYMS {
        add(make, &mut rows, name, params, body)?;
    }
    Ok(Synonyms {
        rows: SharedItems::from_vec(make.alloc, rows)?,
    })
}

/// What the type means, or why it is refused.
fn answer(make: Make, ty: &Ty) -> Result<Shared<Result<Ty, ExpandFault>>, NoMemory> {
    let synonyms = synonyms(make)?;
    match expand(make.alloc, ty, &synonyms) {
        Ok(answer) => Ok(Shared::new(make.alloc, answer)?),
        Err(error) => Err(error),
    }
}

/// Whether the type means the other one, and is not refused.
pub fn means(make: Make, words: &str, want: &str) -> Result<bool, NoMemory> {
    let ty = make.ty(words)?;
    let answer = answer(make, ty.get())?;
    match answer.get() {
        Ok(found) => make.is(found, want),
        Err(_) => Ok(false),
    }
}

/// Whether the type is refused since this synonym lacks arguments.
pub fn lacks(make: Make, words: &str, want: &str) -> Result<bool, NoMemory> {
    let ty = make.ty(words)?;
    let answer = answer(make, ty.get())?;
    match answer.get() {
        Err(ExpandFault::Partial(name)) => Ok(name.name.as_str() == want),
        _ => Ok(false),
    }
}

fn put_twice(make: Make, stack: &mut Vec<Shared<Ty>>) -> Result<(), NoMemory> {
    make.con(stack, "Data.Sample", "Twice")?;
    make.app(stack)
}

/// `Twice` so often round a name.
fn twice(make: Make, times: u32) -> Result<Shared<Ty>, NoMemory> {
    let mut stack = Vec::new(make.alloc);
    make.con(&mut stack, "Data.Sample", "N")?;
    for _ in 0..times {
        put_twice(make, &mut stack)?;
    }
    make.take(&mut stack)
}

fn is_too_large(make: Make, times: u32) -> Result<bool, NoMemory> {
    let ty = twice(make, times)?;
    let answer = answer(make, ty.get())?;
    match answer.get() {
        Err(ExpandFault::TooLarge) => Ok(true),
        _ => Ok(false),
    }
}

const MEANT: &[&[&str]] = &[
    &["app;app;con Pair;con N;con O", "app;app;con F;con N;con O"],
    &[
        "row l;app;app;con Pair;con N;con O;nil",
        "row l;app;app;con F;con N;con O;nil",
    ],
    &["con N", "con N"],
    &[
        "app;con Twice;app;con Twice;con N",
        "app;app;con F;app;app;con F;con N;con N;app;app;con F;con N;con N",
    ],
    &[
        "app;app;con Twice;con N;con O",
        "app;app;app;con F;con N;con N;con O",
    ],
    &["app;con Poly;var b", "forall b';app;app;con F;var b;var b'"],
    &["con Self", "con Self"],
    &["con Uses", "con Self"],
];

#[test]
fn a_synonym_stands_for_its_body(rt: HostRuntime) -> Result<(), Fail> {
    ask(&rt, rt.alloc(), Question::Means, MEANT)
}

const LACKING: &[&[&str]] = &[
    &["con Pair", "Pair"],
    &["app;con Pair;con N", "Pair"],
    &["con Half", "Pair"],
    &["app;con F;con Twice", "Twice"],
    &["app;con Pair;con Twice", "Twice"],
];

#[test]
fn too_few_arguments_are_refused(rt: HostRuntime) -> Result<(), Fail> {
    ask(&rt, rt.alloc(), Question::Lacks, LACKING)
}

#[test]
fn more_than_20_000_nodes_are_refused(rt: HostRuntime) -> Result<(), Fail> {
    let make = Make { alloc: rt.alloc() };
    assert!(rt; !is_too_large(make, 12)?);
    assert!(rt; is_too_large(make, 72)?);
    Ok(())
}
