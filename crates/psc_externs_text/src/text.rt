//! The whole texts.

ghost use Rattle.std.specs.Prelude.{◌≡◌, ◌↔◌, true, IfOk, Some};
ghost use Rattle.std.specs.Str.{IsUtf8};
ghost use Rattle.serde_json.specs.Data.{Data};
ghost use Rattle.serde_json.specs.Read.{read as read_text};
ghost use Rattle.serde_json.specs.View.{view};
ghost use Rattle.psc_externs.specs.declared.externs.Externs.{Externs};
ghost use Rattle.psc_externs.specs.declared.places.Places.{Places};
ghost use Rattle.psc_externs_rows.specs.Kept.{is_interface, are_places};
ghost use Rattle.psc_externs_text.specs.Parts as parts;
ghost use Rattle.psc_externs_text.specs.declared.text.First.{First};
ghost use Rattle.psc_externs_text.specs.declared.text.Last.{Last};
ghost use Rattle.psc_externs_text.specs.Texts as spec;

use psc_externs::{
    ClassRow, ConstructorRow, DeclRow, ExportRow, Externs, FixityRow, InstanceRow, Places,
    SynonymRow, TypeRow, UseRow, ValueRow,
};
use psc_externs_rows::{list_member, member, with_row, with_rows};
use psc_items::SharedItems;
use psc_text::{ModuleName, NoMemory, Text};
use serde_json::{Map, Value};
use std::alloc::Global;

/// The text of an interface file.
#[tactic(auto, using(crate::proofs::ReadBack::whole))]
pub fn write(alloc: Global, externs: &Externs) -> Result<Text, NoMemory>
    ensures text { IfOk result (λ text. text ≡ spec.externs_text externs.now) }
    ensures kept { IfOk result (λ _. is_interface externs.now ≡ true) }
{
    let value = externs_value(alloc, externs)?;
    Text::from_string(value.to_string(alloc)?)
}

/// The interface file that has this text. None exactly where the bytes are not a text that `write` gives.
pub fn read(alloc: Global, bytes: &[u8]) -> Result<Option<Externs>, NoMemory>
    ensures exactly { IfOk result (λ read. (e : Externs) → (read ≡ Some e) ↔ ((is_interface e ≡ true) × (spec.externs_text e ≡ bytes.now))) }
{
    let value = value_of(alloc, bytes)?;
    externs_if_same(alloc, read_externs(alloc, &value)?, bytes)
}

/// The interface file, where its text is these bytes.
fn externs_if_same(
    alloc: Global,
    externs: Option<Externs>,
    bytes: &[u8],
) -> Result<Option<Externs>, NoMemory>
    ensures sound { IfOk result (λ o. (e : Externs) → o ≡ Some e → (is_interface e ≡ true) × (spec.externs_text e ≡ bytes.now)) }
    ensures whole { IfOk result (λ o. (e : Externs) → externs ≡ Some e → spec.externs_text e ≡ bytes.now → o ≡ Some e) }
{
    match externs {
        Some(externs) => {
            let text = write(alloc, &externs)?;
            if text.as_str().as_bytes() == bytes {
                Ok(Some(externs))
            } else {
                Ok(None)
            }
        }
        None => Ok(None),
    }
}

/// The text of a file of places.
#[tactic(auto, using(crate::proofs::ReadBack::whole))]
pub fn write_places(alloc: Global, places: &Places) -> Result<Text, NoMemory>
    ensures text { IfOk result (λ text. text ≡ spec.places_text places.now) }
    ensures kept { IfOk result (λ _. are_places places.now ≡ true) }
{
    let value = places_value(alloc, places)?;
    Text::from_string(value.to_string(alloc)?)
}

/// The places that have this text. None exactly where the bytes are not a text that `write_places` gives.
pub fn read_places(alloc: Global, bytes: &[u8]) -> Result<Option<Places>, NoMemory>
    ensures exactly { IfOk result (λ read. (p : Places) → (read ≡ Some p) ↔ ((are_places p ≡ true) × (spec.places_text p ≡ bytes.now))) }
{
    let value = value_of(alloc, bytes)?;
    places_if_same(alloc, read_members(alloc, &value)?, bytes)
}

/// The places, where their text is these bytes.
fn places_if_same(
    alloc: Global,
    places: Option<Places>,
    bytes: &[u8],
) -> Result<Option<Places>, NoMemory>
    ensures sound { IfOk result (λ o. (p : Places) → o ≡ Some p → (are_places p ≡ true) × (spec.places_text p ≡ bytes.now)) }
    ensures whole { IfOk result (λ o. (p : Places) → places ≡ Some p → spec.places_text p ≡ bytes.now → o ≡ Some p) }
{
    match places {
        Some(places) => {
            let text = write_places(alloc, &places)?;
            if text.as_str().as_bytes() == bytes {
                Ok(Some(places))
            } else {
                Ok(None)
            }
        }
        None => Ok(None),
    }
}

/// The JSON value of the bytes: null where they are not JSON, as no file is.
fn value_of(alloc: Global, bytes: &[u8]) -> Result<Value, NoMemory>
    ensures { IfOk result (λ v. (d : Data) → IsUtf8 bytes.now → read_text bytes.now ≡ Some d → view v ≡ d) }
{
    match Value::from_slice(alloc, bytes) {
        Ok(value) => Ok(value),
        Err(error) => {
            if error.is_memory() {
                Err(NoMemory)
            } else {
                Ok(Value::Null)
            }
        }
    }
}

#[tactic(auto, using(crate::proofs::ReadBack::objects))]
fn externs_value(alloc: Global, externs: &Externs) -> Result<Value, NoMemory>
    ensures text { IfOk result (λ v. view v ≡ spec.externs externs.now) }
    ensures kept { IfOk result (λ _. is_interface externs.now ≡ true) }
{
    let object = Map::new(alloc);
    let object = with_rows(alloc, object, "classes", externs.classes.as_slice())?;
    let object = with_rows(
        alloc,
        object,
        "constructors",
        externs.constructors.as_slice(),
    )?;
    let object = with_rows(alloc, object, "exports", externs.exports.as_slice())?;
    let object = with_rows(alloc, object, "fixities", externs.fixities.as_slice())?;
    let object = with_rows(alloc, object, "imports", externs.imports.as_slice())?;
    let object = with_rows(alloc, object, "instances", externs.instances.as_slice())?;
    let object = with_row(alloc, object, "module", &externs.module)?;
    let object = with_rows(alloc, object, "synonyms", externs.synonyms.as_slice())?;
    let object = with_rows(alloc, object, "types", externs.types.as_slice())?;
    let object = with_rows(alloc, object, "values", externs.values.as_slice())?;
    let object = with_row(alloc, object, "version", &1u32)?;
    Ok(Value::Object(object))
}

#[tactic(auto, using(crate::proofs::ReadBack::objects))]
fn places_value(alloc: Global, places: &Places) -> Result<Value, NoMemory>
    ensures text { IfOk result (λ v. view v ≡ spec.places places.now) }
    ensures kept { IfOk result (λ _. are_places places.now ≡ true) }
{
    let object = Map::new(alloc);
    let object = with_rows(alloc, object, "decls", places.decls.as_slice())?;
    let object = with_row(alloc, object, "module", &places.module)?;
    let object = with_rows(alloc, object, "uses", places.uses.as_slice())?;
    let object = with_row(alloc, object, "version", &1u32)?;
    Ok(Value::Object(object))
}

fn read_externs(alloc: Global, value: &Value) -> Result<Option<Externs>, NoMemory>
    ensures { IfOk result (λ o. (e : Externs) → is_interface e ≡ true → view value.now ≡ spec.externs e → o ≡ Some e) }
{
    let first = read_first(alloc, value)?;
    let last = read_last(alloc, value)?;
    Ok(externs_of(first, last))
}

/// The members of an interface file before its instances.
#[derive(Drop)]
struct First {
    classes: SharedItems<ClassRow>,
    constructors: SharedItems<ConstructorRow>,
    exports: SharedItems<ExportRow>,
    fixities: SharedItems<FixityRow>,
    imports: SharedItems<ModuleName>,
}

/// The members of an interface file from its instances on.
#[derive(Drop)]
struct Last {
    instances: SharedItems<InstanceRow>,
    module: ModuleName,
    synonyms: SharedItems<SynonymRow>,
    types: SharedItems<TypeRow>,
    values: SharedItems<ValueRow>,
}

fn externs_of(first: Option<First>, last: Option<Last>) -> Option<Externs>
    ensures { (e : Externs) → first ≡ Some (parts.first_of e) → last ≡ Some (parts.last_of e) → result ≡ Some e }
{
    let first = first?;
    let last = last?;
    Some(joined(first, last))
}

fn joined(first: First, last: Last) -> Externs
    ensures { result ≡ parts.joined first last }
{
    Externs {
        classes: first.classes,
        constructors: first.constructors,
        exports: first.exports,
        fixities: first.fixities,
        imports: first.imports,
        instances: last.instances,
        module: last.module,
        synonyms: last.synonyms,
        types: last.types,
        values: last.values,
    }
}

fn read_first(alloc: Global, value: &Value) -> Result<Option<First>, NoMemory>
    ensures { IfOk result (λ o. (e : Externs) → is_interface e ≡ true → view value.now ≡ spec.externs e → o ≡ Some (parts.first_of e)) }
{
    let classes = list_member(alloc, value, "classes")?;
    let constructors = list_member(alloc, value, "constructors")?;
    let exports = list_member(alloc, value, "exports")?;
    let fixities = list_member(alloc, value, "fixities")?;
    let imports = list_member(alloc, value, "imports")?;
    Ok(first_of(classes, constructors, exports, fixities, imports))
}

fn first_of(
    classes: Option<SharedItems<ClassRow>>,
    constructors: Option<SharedItems<ConstructorRow>>,
    exports: Option<SharedItems<ExportRow>>,
    fixities: Option<SharedItems<FixityRow>>,
    imports: Option<SharedItems<ModuleName>>,
) -> Option<First>
    ensures { (f : First) → classes ≡ Some f.classes → constructors ≡ Some f.constructors → exports ≡ Some f.exports → fixities ≡ Some f.fixities → imports ≡ Some f.imports → result ≡ Some f }
{
    Some(First {
        classes: classes?,
        constructors: constructors?,
        exports: exports?,
        fixities: fixities?,
        imports: imports?,
    })
}

fn read_last(alloc: Global, value: &Value) -> Result<Option<Last>, NoMemory>
    ensures { IfOk result (λ o. (e : Externs) → is_interface e ≡ true → view value.now ≡ spec.externs e → o ≡ Some (parts.last_of e)) }
{
    let instances = list_member(alloc, value, "instances")?;
    let module = member(alloc, value, "module")?;
    let synonyms = list_member(alloc, value, "synonyms")?;
    let types = list_member(alloc, value, "types")?;
    let values = list_member(alloc, value, "values")?;
    Ok(last_of(instances, module, synonyms, types, values))
}

fn last_of(
    instances: Option<SharedItems<InstanceRow>>,
    module: Option<ModuleName>,
    synonyms: Option<SharedItems<SynonymRow>>,
    types: Option<SharedItems<TypeRow>>,
    values: Option<SharedItems<ValueRow>>,
) -> Option<Last>
    ensures { (l : Last) → instances ≡ Some l.instances → «module» ≡ Some l.«module» → synonyms ≡ Some l.synonyms → types ≡ Some l.types → values ≡ Some l.values → result ≡ Some l }
{
    Some(Last {
        instances: instances?,
        module: module?,
        synonyms: synonyms?,
        types: types?,
        values: values?,
    })
}

fn read_members(alloc: Global, value: &Value) -> Result<Option<Places>, NoMemory>
    ensures { IfOk result (λ o. (p : Places) → are_places p ≡ true → view value.now ≡ spec.places p → o ≡ Some p) }
{
    let decls = list_member(alloc, value, "decls")?;
    let module = member(alloc, value, "module")?;
    let uses = list_member(alloc, value, "uses")?;
    Ok(places_of(decls, module, uses))
}

fn places_of(
    decls: Option<SharedItems<DeclRow>>,
    module: Option<ModuleName>,
    uses: Option<SharedItems<UseRow>>,
) -> Option<Places>
    ensures { (p : Places) → decls ≡ Some p.decls → «module» ≡ Some p.«module» → uses ≡ Some p.uses → result ≡ Some p }
{
    Some(Places {
        decls: decls?,
        module: module?,
        uses: uses?,
    })
}
