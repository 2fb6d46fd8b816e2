//! What is read of a text, and what is written of rows; whole texts stand in the rows of `externs_rows`.

use crate::{read, read_places, write};
use psc_externs::{ExternType, Externs, Name, Space, ValueRow};
use psc_items::{Shared, SharedItems};
use psc_text::{Ident, Label, NoMemory, Qualified, Text, read_module_name};
use psc_type::{Constraint, Kind, Ty};
use std::alloc::Global;
use std::test::Fail;

/// The interface file of a module without rows.
const NONE: &str =
    r#"{"classes":[],"constructors":[],"exports":[],"fixities":[],"imports":[],"instances":[],"module":"M","synonyms":[],"types":[],"values":[],"version":1}"#;

const PLACES: &str =
    r#"{"decls":[{"name":"P","space":"type","span":[3,1,4,12]}],"module":"A.B","uses":[{"module":"Prim","name":"Int","space":"type","span":[3,8,3,11]}],"version":1}"#;

#[test]
fn places_have_what_the_text_says(rt: HostRuntime) -> Result<(), Fail> {
    let Some(places) = read_places(rt.alloc(), PLACES.as_bytes())? else {
        return Err(Fail::new("not read"));
    };
    assert_eq!(rt; places.module.as_str(), "A.B");
    assert_eq!(rt; places.decls.len(), 1);
    let [mention] = places.uses.as_slice() else {
        return Err(Fail::new("not one mention"));
    };
    assert_eq!(rt; mention.module.as_str(), "Prim");
    assert_eq!(rt; mention.entity.text().as_str(), "Int");
    assert!(rt; mention.entity.space() == Space::XType);
    assert_eq!(rt; mention.span.column, 8);
    assert_eq!(rt; mention.span.end_column, 11);
    Ok(())
}

#[test]
fn bytes_that_are_no_json_are_refused(rt: HostRuntime) -> Result<(), Fail> {
    let rows: [&[u8]; 6] = [b"", b"{", b"null", b"[]", b"\xff", b"{}"];
    for bytes in rows {
        assert!(rt; read(rt.alloc(), bytes)?.is_none());
        assert!(rt; read_places(rt.alloc(), bytes)?.is_none());
    }
    Ok(())
}

#[test]
fn a_deep_text_is_refused(rt: HostRuntime) -> Result<(), Fail> {
    let mut deep = Vec::new(rt.alloc());
    for _ in 0..200_000 {
        deep.push(b'[')?;
    }
    assert!(rt; read(rt.alloc(), deep.as_slice())?.is_none());
    Ok(())
}

/// `forall a. C a => a -> ( l :: "s" | r )`, as an interface file holds it.
fn sample(alloc: Global) -> Result<Ty, NoMemory> {
    let a = Ty::Var(Ident(Text::new(alloc, "a")?));
    let class = name(alloc, "A.B", "C")?;
    let mut args = Vec::new(alloc);
    args.push(a.clone()?)?;
    let args = SharedItems::from_vec(alloc, args)?;
    let label = Label(Text::new(alloc, "l")?);
    let symbol = Shared::new(alloc, Ty::Symbol(Text::new(alloc, "s")?))?;
    let tail = Shared::new(alloc, Ty::Var(Ident(Text::new(alloc, "r")?)))?;
    let row = Shared::new(alloc, Ty::RowCons(label, symbol, tail))?;
    let arrow = Shared::new(alloc, Ty::Con(name(alloc, "Prim", "Function")?))?;
    let from = Shared::new(alloc, Ty::App(arrow, Shared::new(alloc, a)?))?;
    let body = Shared::new(alloc, Ty::App(from, row))?;
    let given = Shared::new(alloc, Ty::Given(Constraint { class, args }, body))?;
    let kind = Kind::RowOf(Shared::new(alloc, Kind::Star)?);
    Ok(Ty::Forall(Ident(Text::new(alloc, "a")?), kind, given))
}

fn name(alloc: Global, module: &str, name: &str) -> Result<Qualified, NoMemory> {
    Ok(Qualified {
        module: read_module_name(alloc, module)?,
        name: Text::new(alloc, name)?,
    })
}

fn value_row(name: Option<Name>, x_type: Option<ExternType>) -> Option<ValueRow> {
    Some(ValueRow {
        name: name?,
        x_type: x_type?,
    })
}

/// One value of this type.
fn one_value(alloc: Global, ty: Ty) -> Result<Option<SharedItems<ValueRow>>, NoMemory> {
    let name = Name::new(Text::new(alloc, "x")?);
    match value_row(name, ExternType::new(ty)) {
        Some(row) => {
            let mut rows = Vec::new(alloc);
            rows.push(row)?;
            Ok(Some(SharedItems::from_vec(alloc, rows)?))
        }
        None => Ok(None),
    }
}

fn with_values(externs: Option<Externs>, values: Option<SharedItems<ValueRow>>) -> Option<Externs> {
    let values = values?;
    let externs = externs?;
    Some(Externs { values, ..externs })
}

/// The interface file without rows, with one value of this type.
fn with_value(alloc: Global, ty: Ty) -> Result<Option<Externs>, NoMemory> {
    let values = one_value(alloc, ty)?;
    Ok(with_values(read(alloc, NONE.as_bytes())?, values))
}

#[test]
fn a_type_is_written_as_its_words(rt: HostRuntime) -> Result<(), Fail> {
    let Some(externs) = with_value(rt.alloc(), sample(rt.alloc())?)? else {
        return Err(Fail::new("no such file"));
    };
    let want =
        r#"{"classes":[],"constructors":[],"exports":[],"fixities":[],"imports":[],"instances":[],"module":"M","synonyms":[],"types":[],"values":[{"name":"x","type":["forall a","R","T","given","app","con A.B.C","var a","app","app","con Prim.Function","var a","row l","sym s","var r"]}],"version":1}"#;
    assert_eq!(rt; write(rt.alloc(), &externs)?.as_str(), want);
    Ok(())
}

fn may_stand(ty: Ty) -> bool {
    ExternType::new(ty).is_some()
}

fn variable_may_stand(alloc: Global, text: &str) -> Result<bool, NoMemory> {
    Ok(may_stand(Ty::Var(Ident(Text::new(alloc, text)?))))
}

fn constructor_may_stand(alloc: Global, module: &str, text: &str) -> Result<bool, NoMemory> {
    Ok(may_stand(Ty::Con(name(alloc, module, text)?)))
}

#[test]
fn unknowns_are_refused(rt: HostRuntime) -> Result<(), Fail> {
    assert!(rt; !may_stand(Ty::Unknown(0)));
    assert!(rt; !may_stand(Ty::Any(Kind::Star)));
    assert!(rt; may_stand(Ty::RowNil));
    Ok(())
}

#[test]
fn variables_with_a_dot_or_without_a_name_are_refused(rt: HostRuntime) -> Result<(), Fail> {
    assert!(rt; variable_may_stand(rt.alloc(), "a")?);
    assert!(rt; !variable_may_stand(rt.alloc(), "a.b")?);
    assert!(rt; !variable_may_stand(rt.alloc(), "")?);
    Ok(())
}

#[test]
fn names_without_a_module_are_refused(rt: HostRuntime) -> Result<(), Fail> {
    assert!(rt; constructor_may_stand(rt.alloc(), "Prim", "Int")?);
    assert!(rt; !constructor_may_stand(rt.alloc(), "", "Int")?);
    assert!(rt; !constructor_may_stand(rt.alloc(), "Prim", "Int.Int")?);
    Ok(())
}
