//! Whether what a module exports needs an own name that it does not export.
//!
//! A value needs the types and classes in its type, a type those in its synonym's body and in its exported constructors'
//! types, a class its members, its superclasses and what stands in its members' types, an operator its target. Types are read
//! as the interface has them: written ones keep their synonyms.

use psc_error::{Code, PsError};
use psc_externs::{ClassRow, ConstructorRow, ExportRow, Externs, FixityRow, SynonymRow, ValueRow};
use psc_scope::{Area, Key, Problem, error_of};
use psc_text::{ModuleName, NoMemory, Qualified, Span, Text};
use psc_type::{Constraint, Ty};
use std::alloc::Global;
use std::collections::{BTreeMap, BTreeSet};

/// A name that an export needs.
#[derive(Drop)]
struct Lack {
    span: Span,
    name: Text,
}

/// What is looked at, and the first lack so far.
#[derive(Drop)]
struct Closing<'a> {
    alloc: Global,
    own: &'a Externs,
    /// The own names that are exported.
    exported: BTreeSet<Key>,
    first: Option<Lack>,
}

/// The places of an interface's rows by their names.
#[derive(Drop)]
struct Places {
    values: BTreeMap<Text, usize>,
    synonyms: BTreeMap<Text, usize>,
    classes: BTreeMap<Text, usize>,
    fixities: BTreeMap<Key, usize>,
    /// The constructors of each type.
    constructors: BTreeMap<Text, Vec<usize>>,
}

/// Checks that all own names which the exports need are exported.
///
/// `brought` has for each export the place that brings it. Wrong with TransitiveExportError at the first such place that
/// brings an export which lacks a name; of several names the least by bytes is its part.
pub fn exports_closed(
    alloc: Global,
    exports: &[ExportRow],
    brought: &[Span],
    own: &Externs,
) -> Result<Result<(), PsError>, NoMemory> {
    match first_lack(alloc, exports, brought, own)? {
        None => Ok(Ok(())),
        Some(lack) => Ok(Err(lack_error(alloc, &own.module, lack)?)),
    }
}

/// The first lack of all exports.
fn first_lack(
    alloc: Global,
    exports: &[ExportRow],
    brought: &[Span],
    own: &Externs,
) -> Result<Option<Lack>, NoMemory> {
    let places = Places::of(alloc, own)?;
    let mut closing = Closing {
        alloc,
        own,
        exported: own_exports(alloc, exports, &own.module)?,
        first: None,
    };
    match closing.exports(&places, exports, brought) {
        Ok(()) => Ok(closing.first),
        Err(error) => Err(error),
    }
}

fn lack_error(alloc: Global, module: &ModuleName, lack: Lack) -> Result<PsError, NoMemory> {
    let Lack { span, name } = lack;
    let mut parts = Vec::new(alloc);
    parts.push(name)?;
    error_of(
        alloc,
        module,
        Problem {
            code: Code::TransitiveExportError,
            span,
            parts,
        },
    )
}

fn own_exports(
    alloc: Global,
    exports: &[ExportRow],
    module: &ModuleName,
) -> Result<BTreeSet<Key>, NoMemory> {
    let mut names = BTreeSet::new(alloc);
    for row in exports {
        if row.module.same(module) {
            let _new = names.insert(Key::plain(Area::of(row.entity.space()), row.entity.text())?)?;
        }
    }
    Ok(names)
}

impl Places {
    fn of(alloc: Global, own: &Externs) -> Result<Places, NoMemory> {
        let mut places = Places {
            values: BTreeMap::new(alloc),
            synonyms: BTreeMap::new(alloc),
            classes: BTreeMap::new(alloc),
            fixities: BTreeMap::new(alloc),
            constructors: BTreeMap::new(alloc),
        };
        match places.add_all(alloc, own) {
            Ok(()) => Ok(places),
            Err(error) => Err(error),
        }
    }

    fn add_all(&mut self, alloc: Global, own: &Externs) -> Result<(), NoMemory> {
        self.add_values(own.values.as_slice())?;
        self.add_synonyms(own.synonyms.as_slice())?;
        self.add_classes(own.classes.as_slice())?;
        self.add_fixities(own.fixities.as_slice())?;
        self.add_constructors(alloc, own.constructors.as_slice())
    }

    fn add_values(&mut self, rows: &[ValueRow]) -> Result<(), NoMemory> {
        for (place, row) in rows.iter().enumerate() {
            let _before = self.values.insert(row.name.text().clone()?, place)?;
        }
        Ok(())
    }

    fn add_synonyms(&mut self, rows: &[SynonymRow]) -> Result<(), NoMemory> {
        for (place, row) in rows.iter().enumerate() {
            let _before = self.synonyms.insert(row.name.text().clone()?, place)?;
        }
        Ok(())
    }

    fn add_classes(&mut self, rows: &[ClassRow]) -> Result<(), NoMemory> {
        for (place, row) in rows.iter().enumerate() {
            let _before = self.classes.insert(row.name.text().clone()?, place)?;
        }
        Ok(())
    }

    fn add_fixities(&mut self, rows: &[FixityRow]) -> Result<(), NoMemory> {
        for (place, row) in rows.iter().enumerate() {
            let key = Key::plain(Area::of_operator(row.space), &row.op.0)?;
            let _before = self.fixities.insert(key, place)?;
        }
        Ok(())
    }

    fn add_constructors(&mut self, alloc: Global, rows: &[ConstructorRow]) -> Result<(), NoMemory> {
        for (place, row) in rows.iter().enumerate() {
            self.add_constructor(alloc, row.parent.text(), place)?;
        }
        Ok(())
    }

    fn add_constructor(
        &mut self,
        alloc: Global,
        parent: &Text,
        place: usize,
    ) -> Result<(), NoMemory> {
        if let Some(places) = self.constructors.get_mut(parent) {
            places.push(place)?;
            return Ok(());
        }
        let mut places = Vec::new(alloc);
        places.push(place)?;
        let _before = self.constructors.insert(parent.clone()?, places)?;
        Ok(())
    }
}

impl<'a> Closing<'a> {
    /// Looks at what all own exports need.
    fn exports(
        &mut self,
        places: &Places,
        exports: &[ExportRow],
        brought: &[Span],
    ) -> Result<(), NoMemory> {
        for (row, span) in exports.iter().zip(brought) {
            if row.module.same(&self.own.module) {
                self.export(places, row, *span)?;
            }
        }
        Ok(())
    }

    /// Looks at what an own export needs.
    fn export(&mut self, places: &Places, row: &ExportRow, span: Span) -> Result<(), NoMemory> {
        let name = row.entity.text();
        match Area::of(row.entity.space()) {
            Area::Constructor => Ok(()),
            Area::Value => self.value(places, name, span),
            Area::XType => {
                self.synonym(places, name, span)?;
                self.constructors(places, name, span)?;
                self.class(places, name, span)
            }
            Area::TypeOp => self.operator(places, Area::TypeOp, name, span),
            Area::ValueOp => self.operator(places, Area::ValueOp, name, span),
        }
    }

    fn value(&mut self, places: &Places, name: &Text, span: Span) -> Result<(), NoMemory> {
        if let Some(place) = places.values.get(name) {
            if let Some(row) = self.own.values.as_slice().get(*place) {
                self.x_type(row.x_type.ty(), span)?;
            }
        }
        Ok(())
    }

    fn synonym(&mut self, places: &Places, name: &Text, span: Span) -> Result<(), NoMemory> {
        if let Some(place) = places.synonyms.get(name) {
            if let Some(row) = self.own.synonyms.as_slice().get(*place) {
                self.x_type(row.body.ty(), span)?;
            }
        }
        Ok(())
    }

    /// The exported constructors of a type.
    fn constructors(&mut self, places: &Places, name: &Text, span: Span) -> Result<(), NoMemory> {
        if let Some(list) = places.constructors.get(name) {
            for place in list {
                self.constructor(*place, span)?;
            }
        }
        Ok(())
    }

    fn constructor(&mut self, place: usize, span: Span) -> Result<(), NoMemory> {
        if let Some(row) = self.own.constructors.as_slice().get(place) {
            let key = Key::plain(Area::Constructor, row.name.text())?;
            if self.exported.contains(&key) {
                self.x_type(row.x_type.ty(), span)?;
            }
        }
        Ok(())
    }

    fn class(&mut self, places: &Places, name: &Text, span: Span) -> Result<(), NoMemory> {
        if let Some(place) = places.classes.get(name) {
            if let Some(row) = self.own.classes.as_slice().get(*place) {
                self.class_row(places, row, span)?;
            }
        }
        Ok(())
    }

    fn class_row(&mut self, places: &Places, row: &ClassRow, span: Span) -> Result<(), NoMemory> {
        for constraint in row.supers.as_slice() {
            self.constraint(constraint.constraint(), span)?;
        }
        for member in row.members.as_slice() {
            self.needs(Area::Value, member.text(), span)?;
            self.value(places, member.text(), span)?;
        }
        Ok(())
    }

    fn operator(
        &mut self,
        places: &Places,
        area: Area,
        op: &Text,
        span: Span,
    ) -> Result<(), NoMemory> {
        let key = Key::plain(area, op)?;
        if let Some(place) = places.fixities.get(&key) {
            if let Some(row) = self.own.fixities.as_slice().get(*place) {
                if row.target.module.same(&self.own.module) {
                    self.needs(target_area(area, row), row.target.name.text(), span)?;
                }
            }
        }
        Ok(())
    }

    fn constraint(&mut self, constraint: &Constraint, span: Span) -> Result<(), NoMemory> {
        self.named(&constraint.class, span)?;
        for argument in constraint.args.as_slice() {
            self.x_type(argument, span)?;
        }
        Ok(())
    }

    /// A mention of a type or class.
    fn named(&mut self, name: &Qualified, span: Span) -> Result<(), NoMemory> {
        match &name.module {
            Some(module) if module.same(&self.own.module) => self.needs(
                Area::XType,
                &name.name,
                span,
            ),
            _ => Ok(()),
        }
    }

    /// Notes an own name that is needed, if it is not exported and comes before the first lack.
    fn needs(&mut self, area: Area, name: &Text, span: Span) -> Result<(), NoMemory> {
        let key = Key::plain(area, name)?;
        if self.exported.contains(&key) {
            return Ok(());
        }
        let comes_first = match &self.first {
            None => true,
            Some(first) => span < first.span || (span == first.span && *name < first.name),
        };
        if comes_first {
            self.first = Some(Lack {
                span,
                name: name.clone()?,
            });
        }
        Ok(())
    }

    /// The types and classes of a type. Its parts wait in a list, since a type may be deep.
    fn x_type(&mut self, ty: &Ty, span: Span) -> Result<(), NoMemory> {
        let mut waiting = Vec::new(self.alloc);
        waiting.push(ty)?;
        for _turn in 0..u64::MAX {
            let Some(next) = waiting.pop() else {
                return Ok(());
            };
            self.part(next, &mut waiting, span)?;
        }
        Err(NoMemory)
    }

    /// Notes the name at the front of a type, and puts its parts to those that wait.
    fn part<'b>(
        &mut self,
        ty: &'b Ty,
        waiting: &mut Vec<&'b Ty>,
        span: Span,
    ) -> Result<(), NoMemory> {
        match ty {
            Ty::Con(name) => self.named(name, span),
            Ty::App(one, other) | Ty::RowCons(_, one, other) => {
                waiting.push(one.get())?;
                waiting.push(other.get())?;
                Ok(())
            }
            Ty::Forall(_, _, body) => {
                waiting.push(body.get())?;
                Ok(())
            }
            Ty::Given(constraint, body) => {
                for argument in constraint.args.as_slice() {
                    waiting.push(argument)?;
                }
                waiting.push(body.get())?;
                self.named(&constraint.class, span)
            }
            Ty::Var(_) | Ty::Unknown(_) | Ty::RowNil | Ty::Symbol(_) | Ty::Any(_) => Ok(()),
        }
    }
}

/// The name space of an operator's target.
fn target_area(area: Area, row: &FixityRow) -> Area {
    match area {
        Area::TypeOp => Area::XType,
        _ => {
            if psc_scope::is_upper(row.target.name.text()) {
                Area::Constructor
            } else {
                Area::Value
            }
        }
    }
}
