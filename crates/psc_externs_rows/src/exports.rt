//! Exported names, constructors, types and values.

ghost use Rattle.std.specs.Prelude.{◌≡◌, Some};
ghost use Rattle.psc_externs.specs.declared.rows.ConstructorRow.{ConstructorRow};
ghost use Rattle.psc_externs.specs.declared.rows.ExportRow.{ExportRow};
ghost use Rattle.psc_externs.specs.declared.rows.TypeRow.{TypeRow};
ghost use Rattle.psc_externs.specs.declared.rows.ValueRow.{ValueRow};

use crate::kept::{kept_entity, kept_module, kept_name};
use crate::row::{Row, list_member, list_value, member, part};
use crate::spaces::{entity_of, space_word};
use psc_externs::{
    ConstructorRow, Entity, ExportRow, ExternKind, ExternType, Name, TypeRow, ValueRow,
};
use psc_items::SharedItems;
use psc_text::{ModuleName, NoMemory};
use serde_json::{Value, json};
use std::alloc::Global;

impl Row for ExportRow {
    ghost use Rattle.psc_externs_rows.specs.Kept as kept;
    ghost use Rattle.psc_externs_rows.specs.Rows as rows;

    ghost json = { rows.export_row };

    ghost keeps = { kept.keeps_export };

    fn value(&self, alloc: Global) -> Result<Value, NoMemory> {
        let space = space_word(self.entity.space());
        Ok(json!(in alloc; [space, kept_entity(&self.entity), kept_module(&self.module)])?)
    }

    fn read(alloc: Global, value: &Value) -> Result<Option<ExportRow>, NoMemory> {
        let space = part(alloc, value, 0)?;
        let text = part(alloc, value, 1)?;
        let module = part(alloc, value, 2)?;
        Ok(export_of(entity_of(space, text), module))
    }
}

fn export_of(entity: Option<Entity>, module: Option<ModuleName>) -> Option<ExportRow>
    ensures { (r : ExportRow) → entity ≡ Some r.entity → «module» ≡ Some r.«module» → result ≡ Some r }
{
    Some(ExportRow {
        entity: entity?,
        module: module?,
    })
}

impl Row for ConstructorRow {
    ghost use Rattle.psc_externs_rows.specs.Kept as kept;
    ghost use Rattle.psc_externs_rows.specs.Rows as rows;

    ghost json = { rows.constructor_row };

    ghost keeps = { kept.keeps_constructor };

    fn value(&self, alloc: Global) -> Result<Value, NoMemory> {
        let x_type = self.x_type.value(alloc)?;
        Ok(json!(in alloc; {
            "name": kept_name(&self.name),
            "parent": kept_name(&self.parent),
            "type": x_type
        })?)
    }

    fn read(alloc: Global, value: &Value) -> Result<Option<ConstructorRow>, NoMemory> {
        let name = member(alloc, value, "name")?;
        let parent = member(alloc, value, "parent")?;
        let x_type = member(alloc, value, "type")?;
        Ok(constructor_of(name, parent, x_type))
    }
}

fn constructor_of(
    name: Option<Name>,
    parent: Option<Name>,
    x_type: Option<ExternType>,
) -> Option<ConstructorRow>
    ensures { (r : ConstructorRow) → name ≡ Some r.name → parent ≡ Some r.parent → x_type ≡ Some r.x_type → result ≡ Some r }
{
    Some(ConstructorRow {
        name: name?,
        parent: parent?,
        x_type: x_type?,
    })
}

impl Row for TypeRow {
    ghost use Rattle.psc_externs_rows.specs.Kept as kept;
    ghost use Rattle.psc_externs_rows.specs.Rows as rows;

    ghost json = { rows.type_row };

    ghost keeps = { kept.keeps_type_row };

    fn value(&self, alloc: Global) -> Result<Value, NoMemory> {
        let constructors = list_value(alloc, self.constructors.as_slice())?;
        let kind = self.kind.value(alloc)?;
        Ok(json!(in alloc; {
            "constructors": constructors,
            "kind": kind,
            "name": kept_name(&self.name),
            "newtype": self.newtype
        })?)
    }

    fn read(alloc: Global, value: &Value) -> Result<Option<TypeRow>, NoMemory> {
        let constructors = list_member(alloc, value, "constructors")?;
        let kind = member(alloc, value, "kind")?;
        let name = member(alloc, value, "name")?;
        let newtype = member(alloc, value, "newtype")?;
        Ok(type_row_of(constructors, kind, name, newtype))
    }
}

fn type_row_of(
    constructors: Option<SharedItems<Name>>,
    kind: Option<ExternKind>,
    name: Option<Name>,
    newtype: Option<bool>,
) -> Option<TypeRow>
    ensures { (r : TypeRow) → constructors ≡ Some r.constructors → kind ≡ Some r.kind → name ≡ Some r.name → newtype ≡ Some r.newtype → result ≡ Some r }
{
    Some(TypeRow {
        constructors: constructors?,
        kind: kind?,
        name: name?,
        newtype: newtype?,
    })
}

impl Row for ValueRow {
    ghost use Rattle.psc_externs_rows.specs.Kept as kept;
    ghost use Rattle.psc_externs_rows.specs.Rows as rows;

    ghost json = { rows.value_row };

    ghost keeps = { kept.keeps_value };

    fn value(&self, alloc: Global) -> Result<Value, NoMemory> {
        let x_type = self.x_type.value(alloc)?;
        Ok(json!(in alloc; {"name": kept_name(&self.name), "type": x_type})?)
    }

    fn read(alloc: Global, value: &Value) -> Result<Option<ValueRow>, NoMemory> {
        let name = member(alloc, value, "name")?;
        let x_type = member(alloc, value, "type")?;
        Ok(value_row_of(name, x_type))
    }
}

fn value_row_of(name: Option<Name>, x_type: Option<ExternType>) -> Option<ValueRow>
    ensures { (r : ValueRow) → name ≡ Some r.name → x_type ≡ Some r.x_type → result ≡ Some r }
{
    Some(ValueRow {
        name: name?,
        x_type: x_type?,
    })
}
