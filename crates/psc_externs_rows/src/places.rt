//! Declarations and mentions, with their places.

ghost use Rattle.std.specs.Prelude.{◌≡◌, Some};
ghost use Rattle.psc_text.specs.declared.span.Span.{Span};
ghost use Rattle.psc_externs.specs.declared.places.DeclRow.{DeclRow};
ghost use Rattle.psc_externs.specs.declared.places.UseRow.{UseRow};

use crate::kept::{kept_entity, kept_module};
use crate::row::{Row, list_value, member, part};
use crate::spaces::{entity_of, space_word};
use psc_externs::{DeclRow, Entity, UseRow};
use psc_text::{ModuleName, NoMemory, Span};
use serde_json::{Value, json};
use std::alloc::Global;

impl Row for Span {
    ghost use Rattle.psc_externs_rows.specs.Kept as kept;
    ghost use Rattle.psc_externs_rows.specs.Rows as rows;

    ghost json = { rows.span };

    ghost keeps = { kept.keeps_span };

    fn value(&self, alloc: Global) -> Result<Value, NoMemory> {
        list_value(
            alloc,
            &[self.line, self.column, self.end_line, self.end_column],
        )
    }

    fn read(alloc: Global, value: &Value) -> Result<Option<Span>, NoMemory> {
        let line = part(alloc, value, 0)?;
        let column = part(alloc, value, 1)?;
        let end_line = part(alloc, value, 2)?;
        let end_column = part(alloc, value, 3)?;
        Ok(span_of(line, column, end_line, end_column))
    }
}

fn span_of(
    line: Option<u32>,
    column: Option<u32>,
    end_line: Option<u32>,
    end_column: Option<u32>,
) -> Option<Span>
    ensures { (r : Span) → line ≡ Some r.line → column ≡ Some r.column → end_line ≡ Some r.end_line → end_column ≡ Some r.end_column → result ≡ Some r }
{
    Some(Span {
        line: line?,
        column: column?,
        end_line: end_line?,
        end_column: end_column?,
    })
}

impl Row for DeclRow {
    ghost use Rattle.psc_externs_rows.specs.Kept as kept;
    ghost use Rattle.psc_externs_rows.specs.Rows as rows;

    ghost json = { rows.decl_row };

    ghost keeps = { kept.keeps_decl };

    fn value(&self, alloc: Global) -> Result<Value, NoMemory> {
        let span = self.span.value(alloc)?;
        Ok(json!(in alloc; {
            "name": kept_entity(&self.entity),
            "space": space_word(self.entity.space()),
            "span": span
        })?)
    }

    fn read(alloc: Global, value: &Value) -> Result<Option<DeclRow>, NoMemory> {
        let space = member(alloc, value, "space")?;
        let text = member(alloc, value, "name")?;
        let span = member(alloc, value, "span")?;
        Ok(decl_of(entity_of(space, text), span))
    }
}

fn decl_of(entity: Option<Entity>, span: Option<Span>) -> Option<DeclRow>
    ensures { (r : DeclRow) → entity ≡ Some r.entity → span ≡ Some r.span → result ≡ Some r }
{
    Some(DeclRow {
        entity: entity?,
        span: span?,
    })
}

impl Row for UseRow {
    ghost use Rattle.psc_externs_rows.specs.Kept as kept;
    ghost use Rattle.psc_externs_rows.specs.Rows as rows;

    ghost json = { rows.use_row };

    ghost keeps = { kept.keeps_use };

    fn value(&self, alloc: Global) -> Result<Value, NoMemory> {
        let span = self.span.value(alloc)?;
        Ok(json!(in alloc; {
            "module": kept_module(&self.module),
            "name": kept_entity(&self.entity),
            "space": space_word(self.entity.space()),
            "span": span
        })?)
    }

    fn read(alloc: Global, value: &Value) -> Result<Option<UseRow>, NoMemory> {
        let space = member(alloc, value, "space")?;
        let text = member(alloc, value, "name")?;
        let module = member(alloc, value, "module")?;
        let span = member(alloc, value, "span")?;
        Ok(use_of(module, entity_of(space, text), span))
    }
}

fn use_of(module: Option<ModuleName>, entity: Option<Entity>, span: Option<Span>) -> Option<UseRow>
    ensures { (r : UseRow) → «module» ≡ Some r.«module» → entity ≡ Some r.entity → span ≡ Some r.span → result ≡ Some r }
{
    Some(UseRow {
        module: module?,
        entity: entity?,
        span: span?,
    })
}
