//! Types, synonyms and classes in plain forms. Wrong with OverlappingNamesInLet at a variable that stands in the head already.

use psc_ast::{
    ClassDecl, Ctor, DataDecl, Dep, IdentAt, KindTree, Sig, SynonymDecl, TypeTree, TypeVar, UpperAt,
};
use psc_plain::{
    PlainClass, PlainCtor, PlainData, PlainDep, PlainMember, PlainSynonym, PlainType,
    PlainTypeDecl, PlainVar,
};
use psc_plain_parts::{Desugar, Stop, constraints, head_vars, kind, typ, typs};
use psc_text::{NoMemory, Span, Text};
use psc_type::Kind;
use sqlite_items::Items;
use std::alloc::Global;
use std::collections::BTreeMap;

/// A `data` or a `newtype`.
pub(crate) fn data_of(
    state: &Desugar,
    data: &DataDecl,
    is_newtype: bool,
    stated: Option<Kind>,
) -> Result<Option<PlainTypeDecl>, Stop> {
    match head_vars(state, data.vars.as_slice()) {
        Ok(vars) => {
            let mut made = data_with(state.alloc, data, is_newtype, stated, vars)?;
            made.ctors = ctors_of(state.alloc, data.ctors.as_slice())?;
            Ok(Some(PlainTypeDecl::XData(made)))
        }
        Err(stop) => Err(stop),
    }
}

fn data_with(
    alloc: Global,
    data: &DataDecl,
    is_newtype: bool,
    stated: Option<Kind>,
    vars: Items<PlainVar>,
) -> Result<PlainData, NoMemory> {
    match data.name.name.clone() {
        Ok(name) => Ok(PlainData {
            name,
            name_span: data.name.span,
            is_newtype,
            kind: stated,
            vars,
            ctors: Items::new(alloc),
            span: data.span,
        }),
        Err(_) => Err(NoMemory),
    }
}

fn ctors_of(alloc: Global, ctors: &[Ctor]) -> Result<Items<PlainCtor>, NoMemory> {
    let mut list = Items::new(alloc);
    for ctor in ctors {
        let one = ctor_of(alloc, ctor)?;
        list.push(one)?;
    }
    Ok(list)
}

fn ctor_of(alloc: Global, ctor: &Ctor) -> Result<PlainCtor, NoMemory> {
    match typs(alloc, ctor.fields.as_slice()) {
        Ok(fields) => Ok(PlainCtor {
            name: ctor.name.name.clone()?,
            name_span: ctor.name.span,
            fields,
            span: ctor.span,
        }),
        Err(error) => Err(error),
    }
}

/// A synonym.
pub(crate) fn synonym_of(
    state: &Desugar,
    synonym: &SynonymDecl,
    stated: Option<Kind>,
) -> Result<Option<PlainTypeDecl>, Stop> {
    match head_vars(state, synonym.vars.as_slice()) {
        Ok(vars) => {
            let made = synonym_with(state.alloc, synonym, stated, vars)?;
            Ok(Some(PlainTypeDecl::Synonym(made)))
        }
        Err(stop) => Err(stop),
    }
}

fn synonym_with(
    alloc: Global,
    synonym: &SynonymDecl,
    stated: Option<Kind>,
    vars: Items<PlainVar>,
) -> Result<PlainSynonym, NoMemory> {
    match typ(alloc, &synonym.body) {
        Ok(body) => Ok(PlainSynonym {
            name: synonym.name.name.clone()?,
            name_span: synonym.name.span,
            kind: stated,
            vars,
            body,
            span: synonym.span,
        }),
        Err(error) => Err(error),
    }
}

/// `foreign import data T :: k`
pub(crate) fn foreign_data_of(
    alloc: Global,
    name: &UpperAt,
    written: &KindTree,
    span: Span,
) -> Result<Option<PlainTypeDecl>, NoMemory> {
    match kind(alloc, written) {
        Ok(kind) => Ok(Some(PlainTypeDecl::Foreign {
            name: name.name.clone()?,
            name_span: name.span,
            kind,
            span,
        })),
        Err(error) => Err(error),
    }
}

/// A class.
pub(crate) fn class_of(
    state: &Desugar,
    class: &ClassDecl,
    stated: Option<Kind>,
) -> Result<Option<PlainTypeDecl>, Stop> {
    match head_vars(state, class.vars.as_slice()) {
        Ok(vars) => {
            let mut made = class_with(state.alloc, class, stated, vars)?;
            fill_class(state.alloc, class, &mut made)?;
            Ok(Some(PlainTypeDecl::Class(made)))
        }
        Err(stop) => Err(stop),
    }
}

fn class_with(
    alloc: Global,
    class: &ClassDecl,
    stated: Option<Kind>,
    vars: Items<PlainVar>,
) -> Result<PlainClass, NoMemory> {
    match class.name.name.clone() {
        Ok(name) => Ok(PlainClass {
            name,
            name_span: class.name.span,
            kind: stated,
            supers: Items::new(alloc),
            vars,
            deps: Items::new(alloc),
            members: Items::new(alloc),
            span: class.span,
        }),
        Err(_) => Err(NoMemory),
    }
}

fn fill_class(alloc: Global, class: &ClassDecl, made: &mut PlainClass) -> Result<(), NoMemory> {
    made.supers = constraints(alloc, class.supers.as_slice())?;
    made.deps = deps_of(alloc, class)?;
    made.members = members_of(alloc, class.members.as_slice())?;
    Ok(())
}

fn members_of(alloc: Global, members: &[Sig]) -> Result<Items<PlainMember>, NoMemory> {
    let mut list = Items::new(alloc);
    for member in members {
        let one = member_of(alloc, member)?;
        list.push(one)?;
    }
    Ok(list)
}

fn member_of(alloc: Global, member: &Sig) -> Result<PlainMember, NoMemory> {
    match typ(alloc, &member.x_type) {
        Ok(x_type) => Ok(PlainMember {
            name: member.name.name.clone()?,
            name_span: member.name.span,
            x_type,
            span: member.span,
        }),
        Err(error) => Err(error),
    }
}

/// The functional dependencies of a class by the places of its variables.
fn deps_of(alloc: Global, class: &ClassDecl) -> Result<Items<PlainDep>, NoMemory> {
    let places = var_places(alloc, class.vars.as_slice())?;
    let mut list = Items::new(alloc);
    for dep in class.deps.as_slice() {
        add_dep(alloc, &places, dep, &mut list)?;
    }
    Ok(list)
}

fn var_places(alloc: Global, vars: &[TypeVar]) -> Result<BTreeMap<Text, u32>, NoMemory> {
    let mut places = BTreeMap::new(alloc);
    let mut place: u32 = 0;
    for var in vars {
        let _before = places.insert(var.name.name.0.clone()?, place)?;
        place = place.saturating_add(1);
    }
    Ok(places)
}

fn add_dep(
    alloc: Global,
    places: &BTreeMap<Text, u32>,
    dep: &Dep,
    list: &mut Items<PlainDep>,
) -> Result<(), NoMemory> {
    let from = places_of(alloc, places, dep.from.as_slice())?;
    let to = places_of(alloc, places, dep.to.as_slice())?;
    list.push(PlainDep { from, to })?;
    Ok(())
}

fn places_of(
    alloc: Global,
    places: &BTreeMap<Text, u32>,
    names: &[IdentAt],
) -> Result<Items<u32>, NoMemory> {
    let mut list = Items::new(alloc);
    for name in names {
        if let Some(place) = places.get(&name.name.0) {
            list.push(*place)?;
        }
    }
    Ok(list)
}
