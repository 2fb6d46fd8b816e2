//! Operators.

ghost use Rattle.std.specs.Prelude.{◌≡◌, Some};
ghost use Rattle.psc_externs.specs.declared.rows.FixityRow.{FixityRow};

use crate::row::{Row, member, with_row};
use psc_externs::{Assoc, FixityRow, OpSpace, TrueName};
use psc_text::{NoMemory, OpName};
use serde_json::{Map, Value};
use std::alloc::Global;

impl Row for FixityRow {
    ghost use Rattle.psc_externs_rows.specs.Kept as kept;
    ghost use Rattle.psc_externs_rows.specs.Rows as rows;

    ghost json = { rows.fixity_row };

    ghost keeps = { kept.keeps_fixity };

    #[tactic(auto, using(crate::proofs::Lists::objects))]
    fn value(&self, alloc: Global) -> Result<Value, NoMemory> {
        let object = Map::new(alloc);
        let object = with_row(alloc, object, "assoc", &self.assoc)?;
        let object = with_row(alloc, object, "op", &self.op)?;
        let object = with_row(alloc, object, "precedence", &self.precedence)?;
        let object = with_row(alloc, object, "space", &self.space)?;
        let object = with_row(alloc, object, "target", &self.target)?;
        Ok(Value::Object(object))
    }

    fn read(alloc: Global, value: &Value) -> Result<Option<FixityRow>, NoMemory> {
        let assoc = member(alloc, value, "assoc")?;
        let op = member(alloc, value, "op")?;
        let precedence = member(alloc, value, "precedence")?;
        let space = member(alloc, value, "space")?;
        let target = member(alloc, value, "target")?;
        Ok(fixity_of(assoc, op, precedence, space, target))
    }
}

fn fixity_of(
    assoc: Option<Assoc>,
    op: Option<OpName>,
    precedence: Option<u8>,
    space: Option<OpSpace>,
    target: Option<TrueName>,
) -> Option<FixityRow>
    ensures { (r : FixityRow) → assoc ≡ Some r.assoc → op ≡ Some r.op → precedence ≡ Some r.precedence → space ≡ Some r.space → target ≡ Some r.target → result ≡ Some r }
{
    Some(FixityRow {
        assoc: assoc?,
        op: op?,
        precedence: precedence?,
        space: space?,
        target: target?,
    })
}
