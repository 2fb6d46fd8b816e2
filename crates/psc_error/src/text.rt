//! The texts of an error, from the error and the path of its source.

ghost use Rattle.std.specs.Prelude.{◌≡◌, ◌++◌, IfOk, string_bytes};
ghost use Rattle.serde_json.specs.View.{view};
ghost use Rattle.psc_error.specs.Texts as spec;

use crate::error::PsError;
use psc_text::{ModuleName, NoMemory, Span, Text};
use serde_json::{Value, json};
use std::alloc::{AllocError, Global};

/// The parts, with a bar between each two.
fn message(alloc: Global, parts: &[Text]) -> Result<String, NoMemory>
    ensures { IfOk result (λ s. string_bytes s ≡ spec.message parts.now) }
{
    let mut out = String::new(alloc);
    if let [first, rest @ ..] = parts {
        out.push_str(first.as_str())?;
        'parts: for part in rest {
            out.push_str(" | ")?;
            out.push_str(part.as_str())?;
        }
    }
    Ok(out)
}

/// The parts behind a colon, or nothing where there are none.
fn explanation(alloc: Global, parts: &[Text]) -> Result<String, NoMemory>
    ensures { IfOk result (λ s. string_bytes s ≡ spec.explanation parts.now) }
{
    if parts.is_empty() {
        Ok(String::new(alloc))
    } else {
        let message = message(alloc, parts)?;
        Ok(format!(in alloc; ": {}", message)?)
    }
}

/// The line of a plain report: the path, the line and the column, the code, and the parts.
pub fn error_line(alloc: Global, error: &PsError, path: &str) -> Result<Text, NoMemory>
    ensures { IfOk result (λ t. t ≡ spec.line error.now path.now) }
{
    let explanation = explanation(alloc, error.parts.as_slice())?;
    let (line, column) = (error.span.line, error.span.column);
    let name = error.code.name();
    let text = format!(in alloc; "{}:{}:{} {}{}", path, line, column, name, explanation)?;
    Text::from_string(text)
}

/// A module's name, or null.
fn module_value(alloc: Global, name: &Option<ModuleName>) -> Result<Value, AllocError>
    ensures { IfOk result (λ v. view v ≡ spec.module_data name.now) }
{
    match name {
        Some(name) => json!(in alloc; name.as_str()),
        None => Ok(Value::Null),
    }
}

fn position(alloc: Global, span: Span) -> Result<Value, AllocError>
    ensures { IfOk result (λ v. view v ≡ spec.position_data span) }
{
    json!(in alloc; {
        "startLine": span.line,
        "startColumn": span.column,
        "endLine": span.end_line,
        "endColumn": span.end_column
    })
}

/// The object whose members these are.
fn object_of(
    alloc: Global,
    name: &str,
    path: &str,
    message: &str,
    home: &Value,
    position: &Value,
) -> Result<Value, AllocError>
    ensures { IfOk result (λ v. view v ≡ spec.object_of name.now path.now message.now (view home.now) (view position.now)) }
{
    json!(in alloc; {
        "errorCode": name,
        "filename": path,
        "message": message,
        "moduleName": home,
        "position": position
    })
}

fn value_of(alloc: Global, error: &PsError, path: &str) -> Result<Value, NoMemory>
    ensures { IfOk result (λ v. view v ≡ spec.data_of error.now path.now) }
{
    let message = message(alloc, error.parts.as_slice())?;
    let home = module_value(alloc, &error.module)?;
    let position = position(alloc, error.span)?;
    let name = error.code.name();
    Ok(object_of(alloc, name, path, message.as_str(), &home, &position)?)
}

/// The object of a report for tools, as JSON without blanks, its members in the order of their names.
pub fn error_json(alloc: Global, error: &PsError, path: &str) -> Result<Text, NoMemory>
    ensures { IfOk result (λ t. t ≡ spec.json error.now path.now) }
{
    let value = value_of(alloc, error, path)?;
    Text::from_string(value.to_string(alloc)?)
}
