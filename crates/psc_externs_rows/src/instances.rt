//! Instances and synonyms.

ghost use Rattle.std.specs.Prelude.{◌≡◌, Some};
ghost use Rattle.psc_externs.specs.declared.rows.InstanceRow.{InstanceRow};
ghost use Rattle.psc_externs.specs.declared.rows.SynonymRow.{SynonymRow};

use crate::kept::kept_name;
use crate::row::{Row, list_member, list_value, member, with_row, with_rows};
use psc_externs::{ExternConstraint, ExternType, InstanceRow, Name, Param, SynonymRow, TrueName};
use psc_items::SharedItems;
use psc_text::NoMemory;
use serde_json::{Map, Value, json};
use std::alloc::Global;

impl Row for InstanceRow {
    ghost use Rattle.psc_externs_rows.specs.Kept as kept;
    ghost use Rattle.psc_externs_rows.specs.Rows as rows;

    ghost json = { rows.instance_row };

    ghost keeps = { kept.keeps_instance };

    #[tactic(auto, using(crate::proofs::Lists::objects))]
    fn value(&self, alloc: Global) -> Result<Value, NoMemory> {
        let object = Map::new(alloc);
        let object = with_row(alloc, object, "chain", &self.chain)?;
        let object = with_row(alloc, object, "class", &self.class)?;
        let object = with_rows(alloc, object, "context", self.context.as_slice())?;
        let object = with_rows(alloc, object, "head", self.head.as_slice())?;
        let object = with_row(alloc, object, "index", &self.index)?;
        let object = with_row(alloc, object, "name", &self.name)?;
        let object = with_rows(alloc, object, "vars", self.vars.as_slice())?;
        Ok(Value::Object(object))
    }

    fn read(alloc: Global, value: &Value) -> Result<Option<InstanceRow>, NoMemory> {
        let chain = member(alloc, value, "chain")?;
        let class = member(alloc, value, "class")?;
        let index = member(alloc, value, "index")?;
        let name = member(alloc, value, "name")?;
        let context = list_member(alloc, value, "context")?;
        let head = list_member(alloc, value, "head")?;
        let vars = list_member(alloc, value, "vars")?;
        let names = InstanceNames {
            chain,
            class,
            index,
            name,
        };
        Ok(instance_of(names, context, head, vars))
    }
}

#[derive(Drop)]
struct InstanceNames {
    chain: Option<Name>,
    class: Option<TrueName>,
    index: Option<u32>,
    name: Option<Name>,
}

fn instance_of(
    names: InstanceNames,
    context: Option<SharedItems<ExternConstraint>>,
    head: Option<SharedItems<ExternType>>,
    vars: Option<SharedItems<Name>>,
) -> Option<InstanceRow>
    ensures { (r : InstanceRow) → names.chain ≡ Some r.chain → names.class ≡ Some r.class → names.index ≡ Some r.index → names.name ≡ Some r.name → context ≡ Some r.context → head ≡ Some r.head → vars ≡ Some r.vars → result ≡ Some r }
{
    Some(InstanceRow {
        chain: names.chain?,
        class: names.class?,
        context: context?,
        head: head?,
        index: names.index?,
        name: names.name?,
        vars: vars?,
    })
}

impl Row for SynonymRow {
    ghost use Rattle.psc_externs_rows.specs.Kept as kept;
    ghost use Rattle.psc_externs_rows.specs.Rows as rows;

    ghost json = { rows.synonym_row };

    ghost keeps = { kept.keeps_synonym };

    fn value(&self, alloc: Global) -> Result<Value, NoMemory> {
        let body = self.body.value(alloc)?;
        let params = list_value(alloc, self.params.as_slice())?;
        Ok(json!(in alloc; {
            "body": body,
            "name": kept_name(&self.name),
            "params": params
        })?)
    }

    fn read(alloc: Global, value: &Value) -> Result<Option<SynonymRow>, NoMemory> {
        let body = member(alloc, value, "body")?;
        let name = member(alloc, value, "name")?;
        let params = list_member(alloc, value, "params")?;
        Ok(synonym_of(body, name, params))
    }
}

fn synonym_of(
    body: Option<ExternType>,
    name: Option<Name>,
    params: Option<SharedItems<Param>>,
) -> Option<SynonymRow>
    ensures { (r : SynonymRow) → body ≡ Some r.body → name ≡ Some r.name → params ≡ Some r.params → result ≡ Some r }
{
    Some(SynonymRow {
        body: body?,
        name: name?,
        params: params?,
    })
}
