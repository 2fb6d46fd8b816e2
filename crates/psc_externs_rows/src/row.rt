//! What is written as one JSON value, and lists of such.

ghost use Rattle.std.specs.Prelude.{◌≡◌, true, List, map, Some, IfOk};
ghost use Rattle.std.specs.List.{list_all};
ghost use Rattle.serde_json.specs.Find.{get, at};
ghost use Rattle.serde_json.specs.Data.{put as with_member};
ghost use Rattle.serde_json.specs.View.{members_view, view};
ghost use Rattle.psc_externs_rows.specs.Rows.{list_of};

use psc_items::SharedItems;
use psc_text::NoMemory;
use serde_json::{Map, Value, put};
use std::alloc::Global;

/// What is written as one JSON value, and read back from it.
pub trait Row: Drop {
    ghost use Rattle.std.specs.Prelude.{Bool};
    ghost use Rattle.serde_json.specs.Data.{Data};

    /// The value that is written.
    ghost json: { Self → Data };

    /// What each of this type keeps.
    ghost keeps: { Self → Bool };

    fn value(&self, alloc: Global) -> Result<Value, NoMemory>
        ensures text { IfOk result (λ v. view v ≡ json self.now) }
        ensures kept { IfOk result (λ _. keeps self.now ≡ true) };

    /// What has this value. None where the value is of another form.
    fn read(alloc: Global, value: &Value) -> Result<Option<Self>, NoMemory>
        ensures { IfOk result (λ o. (x : Self) → keeps x ≡ true → view value.now ≡ json x → o ≡ Some x) };
}

/// A list as a JSON array.
#[tactic(auto, using(crate::proofs::Lists::pushes))]
pub fn list_value<T: Row>(alloc: Global, rows: &[T]) -> Result<Value, NoMemory>
    ensures text { IfOk result (λ v. view v ≡ list_of T.json rows.now) }
    ensures kept { IfOk result (λ _. list_all T.keeps rows.now ≡ true) }
{
    let mut values = Vec::new(alloc);
    for row in rows {
        values.push(row.value(alloc)?)?;
    }
    Ok(Value::Array(values))
}

/// The object with one more member, which is this row.
pub fn with_row<T: Row>(
    alloc: Global,
    object: Map<String, Value>,
    key: &str,
    row: &T,
) -> Result<Map<String, Value>, NoMemory>
    ensures text { IfOk result (λ m. members_view m.entries ≡ with_member key.now (T.json row.now) (members_view object.entries)) }
    ensures kept { IfOk result (λ _. T.keeps row.now ≡ true) }
{
    let mut object = object;
    put(&mut object, alloc, key, row.value(alloc)?)?;
    Ok(object)
}

/// The object with one more member, which is the list of these rows.
pub fn with_rows<T: Row>(
    alloc: Global,
    object: Map<String, Value>,
    key: &str,
    rows: &[T],
) -> Result<Map<String, Value>, NoMemory>
    ensures text { IfOk result (λ m. members_view m.entries ≡ with_member key.now (list_of T.json rows.now) (members_view object.entries)) }
    ensures kept { IfOk result (λ _. list_all T.keeps rows.now ≡ true) }
{
    let mut object = object;
    put(&mut object, alloc, key, list_value(alloc, rows)?)?;
    Ok(object)
}

/// The list that has this array.
pub(crate) fn read_list<T: Row>(
    alloc: Global,
    value: &Value,
) -> Result<Option<SharedItems<T>>, NoMemory>
    ensures { IfOk result (λ o. (xs : List T) → list_all T.keeps xs ≡ true → view value.now ≡ list_of T.json xs → o ≡ Some xs) }
{
    match value.as_array() {
        Some(values) => read_items(alloc, values.as_slice()),
        None => Ok(None),
    }
}

fn read_items<T: Row>(alloc: Global, values: &[Value]) -> Result<Option<SharedItems<T>>, NoMemory>
    ensures { IfOk result (λ o. (xs : List T) → list_all T.keeps xs ≡ true → map view values.now ≡ map T.json xs → o ≡ Some xs) }
{
    let mut rows = Vec::new(alloc);
    for value in values {
        match T::read(alloc, value)? {
            Some(row) => rows.push(row)?,
            None => return Ok(None),
        }
    }
    Ok(Some(SharedItems::from_vec(alloc, rows)?))
}

/// What stands in a member of an object.
pub fn member<T: Row>(alloc: Global, value: &Value, key: &str) -> Result<Option<T>, NoMemory>
    ensures { IfOk result (λ o. (x : T) → T.keeps x ≡ true → get key.now (view value.now) ≡ Some (T.json x) → o ≡ Some x) }
{
    match value.get(key) {
        Some(value) => T::read(alloc, value),
        None => Ok(None),
    }
}

/// The list that stands in a member of an object.
pub fn list_member<T: Row>(
    alloc: Global,
    value: &Value,
    key: &str,
) -> Result<Option<SharedItems<T>>, NoMemory>
    ensures { IfOk result (λ o. (xs : List T) → list_all T.keeps xs ≡ true → get key.now (view value.now) ≡ Some (list_of T.json xs) → o ≡ Some xs) }
{
    match value.get(key) {
        Some(value) => read_list(alloc, value),
        None => Ok(None),
    }
}

/// What stands at a place of an array.
pub(crate) fn part<T: Row>(
    alloc: Global,
    value: &Value,
    place: usize,
) -> Result<Option<T>, NoMemory>
    ensures { IfOk result (λ o. (x : T) → T.keeps x ≡ true → at place (view value.now) ≡ Some (T.json x) → o ≡ Some x) }
{
    match value.get(place) {
        Some(value) => T::read(alloc, value),
        None => Ok(None),
    }
}

/// The list that stands at a place of an array.
pub(crate) fn list_part<T: Row>(
    alloc: Global,
    value: &Value,
    place: usize,
) -> Result<Option<SharedItems<T>>, NoMemory>
    ensures { IfOk result (λ o. (xs : List T) → list_all T.keeps xs ≡ true → at place (view value.now) ≡ Some (list_of T.json xs) → o ≡ Some xs) }
{
    match value.get(place) {
        Some(value) => read_list(alloc, value),
        None => Ok(None),
    }
}
