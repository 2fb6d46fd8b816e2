//! Synonyms in an order in which each stands behind those that it uses.

ghost use Rattle.std.specs.Prelude.{◌≡◌, IfOk, OnOk};
ghost use Rattle.psc_groups.specs.Graph.{AllDeclared};
ghost use Rattle.psc_groups.specs.Groups.{AllBelow};
ghost use Rattle.psc_expand.specs.Expand.{expand_over};

use crate::expanding::expand_over;
use crate::head::Prepared;
use psc_groups::{BindingGroup, binding_groups};
use psc_text::{NoMemory, Qualified};
use psc_type::{Constraint, ExpandFault, Synonym, Synonyms, Ty};
use std::alloc::Global;
use std::collections::BTreeMap;
use std::marker::Model;

/// Synonyms that are ready for use: their bodies are expanded. Contracts see the list of them.
#[derive(Debug, Drop)]
pub struct Unfolding {
    table: Vec<Prepared>,
}

impl Model for Unfolding {
    ghost use Rattle.std.specs.Prelude.{List};
    ghost use Rattle.std.specs.Coded.{codes};
    ghost use Rattle.psc_type.specs.contracts.ty.Ty as types;
    ghost use Rattle.psc_expand.specs.declared.head.Prepared.{Prepared};

    ghost Value = { List Prepared };

    ghost coded = { Prim.hlevel (codes, types.the_row.coded) };

    ghost view = { λ u. u.table.items };
}

impl Unfolding {
    /// The synonyms, each expanded once. Of two with one name the first counts. One that reaches
    /// itself is left out, so its name stands for itself wherever it is used.
    pub fn new(alloc: Global, synonyms: &Synonyms) -> Result<Unfolding, NoMemory> {
        let rows = synonyms.rows.as_slice();
        let places = places_of(alloc, rows)?;
        let groups = binding_groups(alloc, mentions_of(alloc, rows, &places)?.as_slice())?;
        let mut table = Vec::new(alloc);
        for group in &groups {
            if let Some(row) = lone_member(rows, &places, group) {
                let prepared = prepared(alloc, row, table.as_slice())?;
                table.push(prepared)?;
            }
        }
        Ok(Unfolding { table })
    }

    /// The type with each synonym replaced by its body, where no synonym has too few arguments and
    /// neither the type nor an argument of a synonym gets more than 20,000 nodes.
    ///
    /// The first fault in reading order counts; a synonym's arguments are read before it.
    pub fn expand(&self, alloc: Global, ty: &Ty) -> Result<Result<Ty, ExpandFault>, NoMemory>
        ensures { IfOk result (λ r. r ≡ expand_over self.now ty.now) }
    {
        expand_over(alloc, ty, self.table.as_slice())
    }
}

/// The type with each synonym replaced by its body: `Unfolding::expand` over these synonyms. Where many
/// types are expanded over one list, make the `Unfolding` once.
pub fn expand(
    alloc: Global,
    ty: &Ty,
    synonyms: &Synonyms,
) -> Result<Result<Ty, ExpandFault>, NoMemory> {
    Unfolding::new(alloc, synonyms)?.expand(alloc, ty)
}

fn prepared(alloc: Global, row: &Synonym, table: &[Prepared]) -> Result<Prepared, NoMemory> {
    let name = row.name.clone()?;
    let params = row.params.clone()?;
    let body = expand_over(alloc, &row.body, table)?;
    Ok(Prepared { name, params, body })
}

/// The place of the first row of each name.
fn places_of(alloc: Global, rows: &[Synonym]) -> Result<BTreeMap<Qualified, u32>, NoMemory> {
    let mut places = BTreeMap::new(alloc);
    let mut place: u32 = 0;
    for row in rows {
        if places.get(&row.name).is_none() {
            places.insert(row.name.clone()?, place)?;
        }
        place = place.checked_add(1).ok_or(NoMemory)?;
    }
    Ok(places)
}

/// For each row the places of those that its body mentions.
#[tactic(auto, using(crate::proofs::Mentioning::no_lists, crate::proofs::Mentioning::one_list))]
fn mentions_of(
    alloc: Global,
    rows: &[Synonym],
    places: &BTreeMap<Qualified, u32>,
) -> Result<Vec<Vec<u32>>, NoMemory>
    ensures { IfOk result (λ mentions. AllDeclared mentions.items) }
{
    let mut mentions = Vec::new(alloc);
    for row in rows {
        mentions.push(mentions_in(alloc, &row.body, places, rows.len())?)?;
    }
    Ok(mentions)
}

/// The places below an end that the type mentions.
#[tactic(auto, using(crate::proofs::Mentioning::no_places))]
fn mentions_in(
    alloc: Global,
    ty: &Ty,
    places: &BTreeMap<Qualified, u32>,
    end: usize,
) -> Result<Vec<u32>, NoMemory>
    ensures { IfOk result (λ list. AllBelow list.items end) }
{
    let mut list = Vec::new(alloc);
    add_mentions(ty, places, end, &mut list)?;
    Ok(list)
}

/// Notes a place. Each is below the number of rows.
#[tactic(auto, using(crate::proofs::Mentioning::one_place))]
fn add_place(place: u32, end: usize, list: &mut Vec<u32>) -> Result<(), NoMemory>
    requires { AllBelow list.old.items end }
    ensures { OnOk result (AllBelow list.new.items end) }
{
    if (place as usize) >= end {
        return Ok(());
    }
    list.push(place)?;
    Ok(())
}

#[cycle(mentions)]
fn add_mentions(
    ty: &Ty,
    places: &BTreeMap<Qualified, u32>,
    end: usize,
    list: &mut Vec<u32>,
) -> Result<(), NoMemory>
    requires { AllBelow list.old.items end }
    ensures { OnOk result (AllBelow list.new.items end) }
{
    match ty {
        Ty::Con(name) => {
            if let Some(place) = places.get(name) {
                add_place(*place, end, list)?;
            }
            Ok(())
        }
        Ty::App(left, right) | Ty::RowCons(_, left, right) => {
            add_mentions(left.get(), places, end, list)?;
            add_mentions(right.get(), places, end, list)
        }
        Ty::Forall(_, _, body) => add_mentions(body.get(), places, end, list),
        Ty::Given(given, body) => {
            add_mentions_of_all(given, places, end, list)?;
            add_mentions(body.get(), places, end, list)
        }
        Ty::Var(_) | Ty::Unknown(_) | Ty::RowNil | Ty::Symbol(_) | Ty::Any(_) => Ok(()),
    }
}

#[cycle(mentions)]
fn add_mentions_of_all(
    given: &Constraint,
    places: &BTreeMap<Qualified, u32>,
    end: usize,
    list: &mut Vec<u32>,
) -> Result<(), NoMemory>
    requires { AllBelow list.old.items end }
    ensures { OnOk result (AllBelow list.new.items end) }
{
    for arg in given.args.as_slice() {
        add_mentions(arg, places, end, list)?;
    }
    Ok(())
}

/// The row of a group that is one synonym, which does not reach itself and is the first of its name.
fn lone_member<'a>(
    rows: &'a [Synonym],
    places: &BTreeMap<Qualified, u32>,
    group: &BindingGroup,
) -> Option<&'a Synonym> {
    if group.recursive {
        return None;
    }
    let place = *group.members.as_slice().first()?;
    let row = rows.get(usize::try_from(place).ok()?)?;
    match places.get(&row.name) {
        Some(first) if *first == place => Some(row),
        _ => None,
    }
}
