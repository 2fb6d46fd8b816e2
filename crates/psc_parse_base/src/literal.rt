//! The values of literals. The lexer has seen that they are well formed.

use psc_text::{NoMemory, Text};
use std::alloc::Global;

/// The digits of an integer: their value, capped far above the range of integers, and their base.
#[derive(Clone, Copy)]
struct Digits {
    value: u64,
    base: u64,
}

/// Above the size of each integer that has a value; numbers past it need not be told apart.
const CAP: u64 = 1 << 32;

fn digit_value(letter: char) -> Option<u32> {
    match letter {
        '0'..='9' => Some(letter as u32 - '0' as u32),
        'a'..='f' => Some(letter as u32 - 'a' as u32 + 10),
        'A'..='F' => Some(letter as u32 - 'A' as u32 + 10),
        _ => None,
    }
}

impl Digits {
    /// Takes the next character; `_` and the `x` of `0x` add nothing.
    fn take(self, letter: char) -> Digits {
        if letter == 'x' {
            return Digits { value: 0, base: 16 };
        }
        match digit_value(letter) {
            Some(digit) => {
                let more = self
                    .value
                    .saturating_mul(self.base)
                    .saturating_add(u64::from(digit));
                Digits {
                    value: more.min(CAP),
                    base: self.base,
                }
            }
            None => self,
        }
    }
}

/// The size of an integer literal, at most 2 to the power of 32.
fn magnitude(text: &str) -> u64 {
    let mut digits = Digits { value: 0, base: 10 };
    for letter in text.chars() {
        digits = digits.take(letter);
    }
    digits.value
}

/// The integer that a literal stands for, negated or not. None where it is no 32-bit signed integer.
fn checked_value(text: &str, negated: bool) -> Option<i32> {
    let size = magnitude(text);
    if negated && size == 1 << 31 {
        return Some(i32::MIN);
    }
    if size >= 1 << 31 {
        return None;
    }
    let value = size as i32;
    if negated { Some(-value) } else { Some(value) }
}

/// Whether the literal, negated or not, is no 32-bit signed integer.
pub fn is_out_of_range(text: &str, negated: bool) -> bool {
    checked_value(text, negated).is_none()
}

/// The integer that a literal stands for; 0 for one that is out of range, which a module may not have.
pub fn integer_value(text: &str, negated: bool) -> i32 {
    checked_value(text, negated).unwrap_or(0)
}

/// How far a string or character in quotes is read.
#[derive(Clone, Copy)]
enum State {
    /// Before the first quote.
    Before,
    Plain,
    /// Behind `\`.
    Escape,
    /// In the digits behind `\x`, of which there are at most six.
    Hex { value: u32, digits: u8 },
    /// Between the two `\` of a gap.
    Gap,
    /// Behind the last quote.
    After,
}

/// The character that an escape of one letter stands for.
fn escaped(letter: char) -> char {
    match letter {
        't' => '\t',
        'r' => '\r',
        'n' => '\n',
        other => other,
    }
}

fn plain(letter: char, quote: char, out: &mut String) -> Result<State, NoMemory> {
    if letter == quote {
        return Ok(State::After);
    }
    if letter == '\\' {
        return Ok(State::Escape);
    }
    out.push(letter)?;
    Ok(State::Plain)
}

fn escape(letter: char, out: &mut String) -> Result<State, NoMemory> {
    match letter {
        'x' => Ok(State::Hex {
            value: 0,
            digits: 0,
        }),
        ' ' | '\t' | '\r' | '\n' => Ok(State::Gap),
        other => {
            out.push(escaped(other))?;
            Ok(State::Plain)
        }
    }
}

/// Ends a run of hex digits. A number that is no character has been refused before.
fn end_hex(value: u32, out: &mut String) -> Result<(), NoMemory> {
    if let Some(found) = char::from_u32(value) {
        out.push(found)?;
    }
    Ok(())
}

/// The next character behind `\x`: one more digit, or the first character behind the digits.
fn hex(
    value: u32,
    digits: u8,
    letter: char,
    quote: char,
    out: &mut String,
) -> Result<State, NoMemory> {
    if digits < 6
        && let Some(digit) = digit_value(letter)
    {
        let value = value.saturating_mul(16).saturating_add(digit);
        return Ok(State::Hex {
            value,
            digits: digits + 1,
        });
    }
    end_hex(value, out)?;
    plain(letter, quote, out)
}

fn step(state: State, letter: char, quote: char, out: &mut String) -> Result<State, NoMemory> {
    match state {
        State::Before => Ok(State::Plain),
        State::Plain => plain(letter, quote, out),
        State::Escape => escape(letter, out),
        State::Hex { value, digits } => hex(value, digits, letter, quote, out),
        State::Gap => Ok(if letter == '\\' {
            State::Plain
        } else {
            State::Gap
        }),
        State::After => Ok(State::After),
    }
}

/// The content of a literal in single quotes or in one double quote on each side.
fn unescaped(alloc: Global, text: &str, quote: char) -> Result<String, NoMemory> {
    let mut out = String::new(alloc);
    let mut state = State::Before;
    for letter in text.chars() {
        state = step(state, letter, quote, &mut out)?;
    }
    Ok(out)
}

/// The content of a raw string: what is left without three quotes at each end.
fn raw(alloc: Global, text: &str) -> Result<String, NoMemory> {
    let mut out = String::new(alloc);
    let mut held = String::new(alloc);
    for letter in text.chars().skip(3) {
        if letter == '"' {
            held.push(letter)?;
        } else {
            out.push_str(held.as_str())?;
            out.push(letter)?;
            held = String::new(alloc);
        }
    }
    for letter in held.chars().skip(3) {
        out.push(letter)?;
    }
    Ok(out)
}

/// The text that a string literal stands for.
pub fn string(alloc: Global, text: &str) -> Result<Text, NoMemory> {
    let content = if text.starts_with("\"\"\"") {
        raw(alloc, text)?
    } else {
        unescaped(alloc, text, '"')?
    };
    Text::from_string(content)
}

/// The character that a character literal stands for.
pub fn character(alloc: Global, text: &str) -> Result<char, NoMemory> {
    let content = unescaped(alloc, text, '\'')?;
    let mut found = ' ';
    for letter in content.chars() {
        found = letter;
    }
    Ok(found)
}
