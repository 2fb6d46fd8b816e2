//! What one line is: the header `module NAME where`, or a binding `name = digits`.
//!
//! Single blanks part the words of a line. A line is read as bytes, so that a byte which is no
//! ASCII letter or digit simply is of no such form.

ghost use Rattle.std.specs.Prelude.{◌≡◌, ◌≤◌, ◌<◌, ◌^◌, length, option_map, option_copied, IsAscii, IsTrue, IfOk, IfSome, MatchOption, None, Some, FitsSigned};
ghost use Rattle.std.specs.Int.{w32};
ghost use Rattle.psc_top.specs.Words.{words, is_value_word, is_module_word};
ghost use Rattle.psc_top.specs.Line as spec;

use crate::words::{are_digits, cut, is_module_word, is_value_word};
use psc_text::{Ident, NoMemory, Span, Text};
use std::alloc::Global;

/// A binding of a name to an integer.
#[derive(Debug, Drop)]
pub struct Binding {
    pub name: Ident,
    pub value: i32,
    /// The whole line.
    pub span: Span,
    /// The digits.
    pub value_span: Span,
}

/// The text of ASCII bytes.
pub fn text_of(bytes: &[u8]) -> &str
    requires { IsAscii bytes.now }
    ensures { result.now ≡ bytes.now }
{
    match str::from_utf8(bytes) {
        Ok(text) => text,
        Err(_) => unreachable!(),
    }
}

/// The three words of a line that has three.
fn three_words(line: &[u8]) -> Option<(&[u8], &[u8], &[u8])>
    ensures three { option_map (λ w. (w.0.now, w.1.now, w.2.now)) result ≡ spec.three (words line.now) }
    ensures shorter { IfSome result (λ w. length w.0.now ≤ length line.now) }
{
    let (first, rest) = cut(line, b' ')?;
    let (second, third) = cut(rest, b' ')?;
    match cut(third, b' ') {
        Some(_) => None,
        None => Some((first, second, third)),
    }
}

/// The number that digits spell, without a leading zero, if it is an `Int` of the language.
fn number_of(digits: &[u8]) -> Option<i32>
    ensures number { result ≡ spec.number_of digits.now }
    ensures fits { IfSome result (FitsSigned w32) }
{
    if !are_digits(digits) {
        return None;
    }
    text_of(digits).parse::<i32>().ok()
}

/// The name in the header `module NAME where`.
pub fn header_of(line: &[u8]) -> Option<&[u8]>
    ensures name { option_copied result ≡ spec.header_of line.now }
    ensures upper { IfSome result (λ name. IsTrue (is_module_word name.now)) }
{
    let (module, name, last) = three_words(line)?;
    if module == b"module".as_slice() && is_module_word(name) && last == b"where".as_slice() {
        Some(name)
    } else {
        None
    }
}

/// The name and the number in a line `name = digits`.
fn written_on(line: &[u8]) -> Option<(&[u8], i32)>
    ensures parts { MatchOption result (spec.written_on line.now ≡ None) (λ w. spec.written_on line.now ≡ Some (w.0.now, w.1)) }
    ensures shorter { IfSome result (λ w. length w.0.now ≤ length line.now) }
    ensures lower { IfSome result (λ w. IsTrue (is_value_word w.0.now)) }
{
    let (name, equals, digits) = three_words(line)?;
    if is_value_word(name) && equals == b"=".as_slice() {
        let value = number_of(digits)?;
        Some((name, value))
    } else {
        None
    }
}

/// The name of a value, of its bytes.
fn ident_of(alloc: Global, name: &[u8]) -> Result<Ident, NoMemory>
    requires { IsTrue (is_value_word name.now) }
    ensures { IfOk result (λ ident. ident.0 ≡ name.now) }
{
    Ok(Ident(Text::new(alloc, text_of(name))?))
}

/// The binding on a line, whose number is given. None where the line is of another form.
pub fn binding_on(alloc: Global, number: u32, line: &[u8]) -> Result<Option<Binding>, NoMemory>
    requires { length line.now ≤ 2 ^ 30 }
    ensures { IfOk result (λ binding. binding ≡ spec.binding_on number line.now) }
{
    let Some((name, value)) = written_on(line) else {
        return Ok(None);
    };
    let end_column = line.len() as u32 + 1;
    let span = Span {
        line: number,
        column: 1,
        end_line: number,
        end_column,
    };
    let value_span = Span {
        line: number,
        column: name.len() as u32 + 4,
        end_line: number,
        end_column,
    };
    let name = ident_of(alloc, name)?;
    Ok(Some(Binding {
        name,
        value,
        span,
        value_span,
    }))
}
