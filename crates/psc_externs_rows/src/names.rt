//! Names, numbers and truth values.

ghost use Rattle.std.specs.Prelude.{◌≡◌, true, Some, IfOk};
ghost use Rattle.std.specs.String.{string_bytes};
ghost use Rattle.serde_json.specs.Data.{string};
ghost use Rattle.serde_json.specs.Find.{as_str};
ghost use Rattle.serde_json.specs.View.{view};
ghost use Rattle.psc_externs.specs.declared.name.TrueName.{TrueName};
ghost use Rattle.psc_externs_rows.specs.Kept.{keeps_true_name};
ghost use Rattle.psc_externs_rows.specs.Rows as rows;

use crate::kept::{kept_module, kept_name, kept_op, kept_text};
use crate::row::Row;
use psc_externs::{Name, TrueName};
use psc_externs_words::cut_at_last_dot;
use psc_text::{ModuleName, NoMemory, OpName, Text, read_module_name};
use serde_json::Value;
use std::alloc::Global;

/// A text as a JSON value.
pub(crate) fn string_value(alloc: Global, text: &str) -> Result<Value, NoMemory>
    ensures { IfOk result (λ v. view v ≡ string text.now) }
{
    Ok(Value::String(String::from_str(alloc, text)?))
}

/// The text that is this JSON value.
pub(crate) fn read_text(alloc: Global, value: &Value) -> Result<Option<Text>, NoMemory>
    ensures { IfOk result (λ o. o ≡ as_str (view value.now)) }
{
    match value.as_str() {
        Some(text) => Ok(Some(Text::new(alloc, text)?)),
        None => Ok(None),
    }
}

impl Row for Name {
    ghost use Rattle.serde_json.specs.Data.{string};
    ghost use Rattle.psc_externs_rows.specs.Kept.{keeps_name};

    ghost json = { λ n. string n };

    ghost keeps = { keeps_name };

    fn value(&self, alloc: Global) -> Result<Value, NoMemory> {
        string_value(alloc, kept_name(self))
    }

    fn read(alloc: Global, value: &Value) -> Result<Option<Name>, NoMemory> {
        match read_text(alloc, value)? {
            Some(text) => Ok(Name::new(text)),
            None => Ok(None),
        }
    }
}

impl Row for Text {
    ghost use Rattle.std.specs.Str.{is_utf8};
    ghost use Rattle.serde_json.specs.Data.{string};

    ghost json = { λ t. string t };

    ghost keeps = { λ t. is_utf8 t };

    fn value(&self, alloc: Global) -> Result<Value, NoMemory> {
        string_value(alloc, kept_text(self.as_str()))
    }

    fn read(alloc: Global, value: &Value) -> Result<Option<Text>, NoMemory> {
        read_text(alloc, value)
    }
}

impl Row for ModuleName {
    ghost use Rattle.serde_json.specs.Data.{string};
    ghost use Rattle.psc_externs_rows.specs.Kept.{keeps_module};

    ghost json = { λ m. string m };

    ghost keeps = { keeps_module };

    fn value(&self, alloc: Global) -> Result<Value, NoMemory> {
        string_value(alloc, kept_module(self))
    }

    fn read(alloc: Global, value: &Value) -> Result<Option<ModuleName>, NoMemory> {
        match value.as_str() {
            Some(text) => read_module_name(alloc, text),
            None => Ok(None),
        }
    }
}

impl Row for OpName {
    ghost use Rattle.serde_json.specs.Data.{string};
    ghost use Rattle.psc_externs_rows.specs.Kept.{keeps_op};

    ghost json = { λ op. string op.0 };

    ghost keeps = { keeps_op };

    fn value(&self, alloc: Global) -> Result<Value, NoMemory> {
        string_value(alloc, kept_op(self))
    }

    fn read(alloc: Global, value: &Value) -> Result<Option<OpName>, NoMemory> {
        match read_text(alloc, value)? {
            Some(text) => Ok(Some(OpName(text))),
            None => Ok(None),
        }
    }
}

/// A name behind its module and a dot.
pub(crate) fn true_name_text(alloc: Global, name: &TrueName) -> Result<String, NoMemory>
    ensures text { IfOk result (λ s. string_bytes s ≡ rows.true_name_text name.now) }
    ensures kept { IfOk result (λ _. keeps_true_name name.now ≡ true) }
{
    let (module, name) = (kept_module(&name.module), kept_name(&name.name));
    Ok(format!(in alloc; "{}.{}", module, name)?)
}

impl Row for TrueName {
    ghost use Rattle.psc_externs_rows.specs.Kept.{keeps_true_name};
    ghost use Rattle.psc_externs_rows.specs.Rows as rows;

    ghost json = { rows.true_name };

    ghost keeps = { keeps_true_name };

    fn value(&self, alloc: Global) -> Result<Value, NoMemory> {
        Ok(Value::String(true_name_text(alloc, self)?))
    }

    fn read(alloc: Global, value: &Value) -> Result<Option<TrueName>, NoMemory> {
        match value.as_str() {
            Some(text) => read_true_name(alloc, text),
            None => Ok(None),
        }
    }
}

/// The name behind its module and a dot.
fn read_true_name(alloc: Global, text: &str) -> Result<Option<TrueName>, NoMemory>
    ensures { IfOk result (λ o. (t : TrueName) → keeps_true_name t ≡ true → text.now ≡ rows.true_name_text t → o ≡ Some t) }
{
    match cut_at_last_dot(text) {
        Some((module, name)) => true_name_at(alloc, module, name),
        None => Ok(None),
    }
}

/// The name of the module that these texts spell.
fn true_name_at(alloc: Global, module: &str, name: &str) -> Result<Option<TrueName>, NoMemory>
    ensures { IfOk result (λ o. (t : TrueName) → keeps_true_name t ≡ true → «module».now ≡ t.«module» → name.now ≡ t.name → o ≡ Some t) }
{
    let module = read_module_name(alloc, module)?;
    let text = Text::new(alloc, name)?;
    let name = Name::new(text);
    Ok(true_name_of(module, name))
}

fn true_name_of(module: Option<ModuleName>, name: Option<Name>) -> Option<TrueName>
    ensures { (t : TrueName) → «module» ≡ Some t.«module» → name ≡ Some t.name → result ≡ Some t }
{
    Some(TrueName {
        module: module?,
        name: name?,
    })
}

impl Row for u32 {
    ghost use Rattle.psc_externs_rows.specs.Kept.{keeps_count};
    ghost use Rattle.psc_externs_rows.specs.Rows as rows;

    ghost json = { rows.count };

    ghost keeps = { keeps_count };

    fn value(&self, _alloc: Global) -> Result<Value, NoMemory> {
        Ok(Value::from(*self))
    }

    fn read(_alloc: Global, value: &Value) -> Result<Option<u32>, NoMemory> {
        match value.as_u64() {
            Some(number) => Ok(u32::try_from(number).ok()),
            None => Ok(None),
        }
    }
}

impl Row for u8 {
    ghost use Rattle.psc_externs_rows.specs.Kept.{keeps_byte};
    ghost use Rattle.psc_externs_rows.specs.Rows as rows;

    ghost json = { rows.count };

    ghost keeps = { keeps_byte };

    fn value(&self, _alloc: Global) -> Result<Value, NoMemory> {
        Ok(Value::from(*self))
    }

    fn read(_alloc: Global, value: &Value) -> Result<Option<u8>, NoMemory> {
        match value.as_u64() {
            Some(number) => Ok(u8::try_from(number).ok()),
            None => Ok(None),
        }
    }
}

impl Row for bool {
    ghost use Rattle.std.specs.Prelude.{true};
    ghost use Rattle.serde_json.specs.Data.{boolean};

    ghost json = { λ b. boolean b };

    ghost keeps = { λ b. true };

    fn value(&self, _alloc: Global) -> Result<Value, NoMemory> {
        Ok(Value::Bool(*self))
    }

    fn read(_alloc: Global, value: &Value) -> Result<Option<bool>, NoMemory> {
        Ok(value.as_bool())
    }
}
