//! Texts of names, with what the types of names keep.

ghost use Rattle.std.specs.Prelude.{◌≡◌, true};
ghost use Rattle.std.specs.Str.{is_utf8};
ghost use Rattle.psc_externs.specs.Entities.{text_of};
ghost use Rattle.psc_externs_rows.specs.Kept as spec;

use psc_externs::{Entity, Name};
use psc_text::{ModuleName, OpName};

/// The same text: its bytes are UTF-8.
pub(crate) fn kept_text(text: &str) -> &str
    ensures same { result.now ≡ text.now }
    ensures kept { is_utf8 text.now ≡ true }
{
    let _bytes = text.as_bytes();
    text
}

pub(crate) fn kept_name(name: &Name) -> &str
    ensures same { result.now ≡ name.now }
    ensures kept { spec.keeps_name name.now ≡ true }
{
    kept_text(name.text().as_str())
}

pub(crate) fn kept_module(name: &ModuleName) -> &str
    ensures same { result.now ≡ name.now }
    ensures kept { spec.keeps_module name.now ≡ true }
{
    kept_text(name.as_str())
}

pub(crate) fn kept_op(op: &OpName) -> &str
    ensures same { result.now ≡ op.now.0 }
    ensures kept { spec.keeps_op op.now ≡ true }
{
    kept_text(op.0.as_str())
}

/// The text of a name in its name space.
pub(crate) fn kept_entity(entity: &Entity) -> &str
    ensures same { result.now ≡ text_of entity.now }
    ensures kept { spec.keeps_entity entity.now ≡ true }
{
    match entity {
        Entity::Constructor(name) | Entity::XType(name) | Entity::Value(name) => kept_name(name),
        Entity::TypeOp(op) | Entity::ValueOp(op) => kept_op(op),
    }
}
