//! The characters of a name.

ghost use Rattle.std.specs.Prelude.{◌≡◌, ◌++◌, IfOk, chars, false};
ghost use Rattle.std.specs.Fmt.{digits};
ghost use Rattle.std.specs.String.{string_bytes};
ghost use Rattle.psc_js_names.specs.Names as spec;

use psc_text::NoMemory;
use std::alloc::Global;

/// Appends a text as it is.
pub(crate) fn put(out: &mut String, text: &str) -> Result<(), NoMemory>
    ensures { IfOk result (λ _. string_bytes out.new ≡ string_bytes out.old ++ text.now) }
{
    Ok(out.push_str(text)?)
}

fn is_plain(letter: char) -> bool
    ensures { result ≡ spec.is_plain letter }
{
    letter.is_ascii_alphanumeric() || letter == '_' || letter == '$'
}

fn hexadecimal(alloc: Global, letter: char) -> Result<String, NoMemory>
    ensures { IfOk result (λ s. string_bytes s ≡ digits 16 false letter) }
{
    let number = letter as u32;
    Ok(format!(in alloc; "{:x}", number)?)
}

fn put_hexadecimal(alloc: Global, out: &mut String, letter: char) -> Result<(), NoMemory>
    ensures { IfOk result (λ _. string_bytes out.new ≡ string_bytes out.old ++ digits 16 false letter) }
{
    put(out, hexadecimal(alloc, letter)?.as_str())
}

#[tactic(auto, unfolding(crate::specs::Names::coded))]
fn put_coded(alloc: Global, out: &mut String, letter: char) -> Result<(), NoMemory>
    ensures { IfOk result (λ _. string_bytes out.new ≡ string_bytes out.old ++ spec.coded letter) }
{
    put(out, "$")?;
    put_hexadecimal(alloc, out, letter)?;
    put(out, "$")
}

#[tactic(auto, unfolding(crate::specs::Names::letter))]
fn put_letter(alloc: Global, out: &mut String, letter: char) -> Result<(), NoMemory>
    ensures { IfOk result (λ _. string_bytes out.new ≡ string_bytes out.old ++ spec.letter letter) }
{
    if is_plain(letter) {
        Ok(out.push(letter)?)
    } else {
        put_coded(alloc, out, letter)
    }
}

/// Appends the characters of a name.
pub(crate) fn put_letters(alloc: Global, out: &mut String, text: &str) -> Result<(), NoMemory>
    ensures { IfOk result (λ _. string_bytes out.new ≡ string_bytes out.old ++ spec.letters (chars text.now)) }
{
    for letter in text.chars() {
        put_letter(alloc, out, letter)?;
    }
    Ok(())
}
