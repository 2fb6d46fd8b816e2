//! The texts that a run of `compile` puts to the sink, and the words that it is given.

ghost use Rattle.std.specs.Prelude.{◌≡◌, IfOk};
ghost use Rattle.std.specs.Option.{option_copied};
ghost use Rattle.std.specs.String.{string_bytes};
ghost use Rattle.psc_top.specs.Run as spec;

use crate::source::RefusedLine;
use psc_text::{ModuleName, NoMemory, Text};
use std::alloc::Global;

/// The file word of the words `compile FILE`.
pub fn file_word(words: &[Text]) -> Option<&Text>
    ensures { option_copied result ≡ spec.file_word words.now }
{
    match words {
        [command, path] if command.as_str() == "compile" => Some(path),
        _ => None,
    }
}

/// That nothing is held under the path.
pub fn not_found(alloc: Global, path: &str) -> Result<String, NoMemory>
    ensures { IfOk result (λ text. string_bytes text ≡ (spec.not_found path.now).text) }
{
    Ok(format!(in alloc; "not found: {path}\n")?)
}

/// That the reading of the file failed.
pub fn read_fault(alloc: Global, path: &str) -> Result<String, NoMemory>
    ensures { IfOk result (λ text. string_bytes text ≡ (spec.read_fault path.now).text) }
{
    Ok(format!(in alloc; "read fault: {path}\n")?)
}

/// That a line of the file is refused.
pub fn refusal(alloc: Global, path: &str, refused: RefusedLine) -> Result<String, NoMemory>
    ensures { IfOk result (λ text. string_bytes text ≡ spec.refusal path.now refused.0) }
{
    let number = refused.0;
    Ok(format!(in alloc; "{path}:{number}:1 OutsideProfile\nmodules 0 errors 1 skipped 0\n")?)
}

/// The name under which the text of a module is stored.
pub fn stored_name(alloc: Global, name: &ModuleName) -> Result<String, NoMemory>
    ensures { IfOk result (λ text. string_bytes text ≡ spec.stored_name name.now) }
{
    let mut path = String::from_str(alloc, name.as_str())?;
    path.push_str("/corefn.json")?;
    Ok(path)
}
