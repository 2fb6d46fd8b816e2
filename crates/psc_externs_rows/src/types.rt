//! Types, kinds and constraints, each a list of words.

use crate::row::{Row, list_value, read_list};
use psc_externs::{ExternConstraint, ExternKind, ExternType};
use psc_externs_words::{
    constraint_words, kind_words, read_constraint, read_kind, read_type, type_words,
};
use psc_items::SharedItems;
use psc_text::{NoMemory, Text};
use serde_json::Value;
use std::alloc::Global;

impl Row for ExternType {
    ghost use Rattle.psc_externs_rows.specs.Kept as kept;
    ghost use Rattle.psc_externs_rows.specs.Rows as rows;

    ghost json = { rows.type_of };

    ghost keeps = { kept.keeps_type };

    fn value(&self, alloc: Global) -> Result<Value, NoMemory> {
        let words = type_words(alloc, self)?;
        list_value(alloc, words.as_slice())
    }

    fn read(alloc: Global, value: &Value) -> Result<Option<ExternType>, NoMemory> {
        let words: Option<SharedItems<Text>> = read_list(alloc, value)?;
        match words {
            Some(words) => read_type(alloc, words.as_slice()),
            None => Ok(None),
        }
    }
}

impl Row for ExternKind {
    ghost use Rattle.psc_externs_rows.specs.Kept as kept;
    ghost use Rattle.psc_externs_rows.specs.Rows as rows;

    ghost json = { rows.kind };

    ghost keeps = { kept.keeps_kind };

    fn value(&self, alloc: Global) -> Result<Value, NoMemory> {
        let words = kind_words(alloc, self)?;
        list_value(alloc, words.as_slice())
    }

    fn read(alloc: Global, value: &Value) -> Result<Option<ExternKind>, NoMemory> {
        let words: Option<SharedItems<Text>> = read_list(alloc, value)?;
        match words {
            Some(words) => read_kind(alloc, words.as_slice()),
            None => Ok(None),
        }
    }
}

impl Row for ExternConstraint {
    ghost use Rattle.psc_externs_rows.specs.Kept as kept;
    ghost use Rattle.psc_externs_rows.specs.Rows as rows;

    ghost json = { rows.constraint };

    ghost keeps = { kept.keeps_constraint };

    fn value(&self, alloc: Global) -> Result<Value, NoMemory> {
        let words = constraint_words(alloc, self)?;
        list_value(alloc, words.as_slice())
    }

    fn read(alloc: Global, value: &Value) -> Result<Option<ExternConstraint>, NoMemory> {
        let words: Option<SharedItems<Text>> = read_list(alloc, value)?;
        match words {
            Some(words) => read_constraint(alloc, words.as_slice()),
            None => Ok(None),
        }
    }
}
