//! Classes, with their parameters and dependencies.

ghost use Rattle.std.specs.Prelude.{◌≡◌, Some};
ghost use Rattle.psc_externs.specs.declared.rows.ClassRow.{ClassRow};
ghost use Rattle.psc_externs.specs.declared.rows.Dependency.{Dependency};
ghost use Rattle.psc_externs.specs.declared.rows.Param.{Param};

use crate::kept::kept_name;
use crate::row::{Row, list_member, list_part, list_value, member, part, with_row, with_rows};
use psc_externs::{ClassRow, Dependency, ExternConstraint, ExternKind, Name, Param};
use psc_items::SharedItems;
use psc_text::NoMemory;
use serde_json::{Map, Value, json};
use std::alloc::Global;

impl Row for Param {
    ghost use Rattle.psc_externs_rows.specs.Kept as kept;
    ghost use Rattle.psc_externs_rows.specs.Rows as rows;

    ghost json = { rows.param };

    ghost keeps = { kept.keeps_param };

    fn value(&self, alloc: Global) -> Result<Value, NoMemory> {
        let kind = self.kind.value(alloc)?;
        Ok(json!(in alloc; [kept_name(&self.name), kind])?)
    }

    fn read(alloc: Global, value: &Value) -> Result<Option<Param>, NoMemory> {
        let name = part(alloc, value, 0)?;
        let kind = part(alloc, value, 1)?;
        Ok(param_of(name, kind))
    }
}

fn param_of(name: Option<Name>, kind: Option<ExternKind>) -> Option<Param>
    ensures { (r : Param) → name ≡ Some r.name → kind ≡ Some r.kind → result ≡ Some r }
{
    Some(Param {
        name: name?,
        kind: kind?,
    })
}

impl Row for Dependency {
    ghost use Rattle.psc_externs_rows.specs.Kept as kept;
    ghost use Rattle.psc_externs_rows.specs.Rows as rows;

    ghost json = { rows.dependency };

    ghost keeps = { kept.keeps_dependency };

    fn value(&self, alloc: Global) -> Result<Value, NoMemory> {
        let determining = list_value(alloc, self.determining.as_slice())?;
        let determined = list_value(alloc, self.determined.as_slice())?;
        Ok(json!(in alloc; [determining, determined])?)
    }

    fn read(alloc: Global, value: &Value) -> Result<Option<Dependency>, NoMemory> {
        let determining = list_part(alloc, value, 0)?;
        let determined = list_part(alloc, value, 1)?;
        Ok(dependency_of(determining, determined))
    }
}

fn dependency_of(
    determining: Option<SharedItems<u32>>,
    determined: Option<SharedItems<u32>>,
) -> Option<Dependency>
    ensures { (r : Dependency) → determining ≡ Some r.determining → determined ≡ Some r.determined → result ≡ Some r }
{
    Some(Dependency {
        determining: determining?,
        determined: determined?,
    })
}

impl Row for ClassRow {
    ghost use Rattle.psc_externs_rows.specs.Kept as kept;
    ghost use Rattle.psc_externs_rows.specs.Rows as rows;

    ghost json = { rows.class_row };

    ghost keeps = { kept.keeps_class };

    #[tactic(auto, using(crate::proofs::Lists::objects))]
    fn value(&self, alloc: Global) -> Result<Value, NoMemory> {
        let object = Map::new(alloc);
        let object = with_rows(alloc, object, "deps", self.deps.as_slice())?;
        let object = with_rows(alloc, object, "members", self.members.as_slice())?;
        let object = with_row(alloc, object, "name", &self.name)?;
        let object = with_rows(alloc, object, "params", self.params.as_slice())?;
        let object = with_rows(alloc, object, "supers", self.supers.as_slice())?;
        Ok(Value::Object(object))
    }

    fn read(alloc: Global, value: &Value) -> Result<Option<ClassRow>, NoMemory> {
        let deps = list_member(alloc, value, "deps")?;
        let members = list_member(alloc, value, "members")?;
        let name = member(alloc, value, "name")?;
        let params = list_member(alloc, value, "params")?;
        let supers = list_member(alloc, value, "supers")?;
        Ok(class_of(deps, members, name, params, supers))
    }
}

fn class_of(
    deps: Option<SharedItems<Dependency>>,
    members: Option<SharedItems<Name>>,
    name: Option<Name>,
    params: Option<SharedItems<Param>>,
    supers: Option<SharedItems<ExternConstraint>>,
) -> Option<ClassRow>
    ensures { (r : ClassRow) → deps ≡ Some r.deps → members ≡ Some r.members → name ≡ Some r.name → params ≡ Some r.params → supers ≡ Some r.supers → result ≡ Some r }
{
    Some(ClassRow {
        deps: deps?,
        members: members?,
        name: name?,
        params: params?,
        supers: supers?,
    })
}
