//! Forms of PureScript that this compiler does not have, as far as tokens alone tell them. The rules of the grammar find
//! the others where they meet them.

use psc_lex::Sign;
use psc_parse_base::{Next, Sym};

/// How far a literal in quotes is read.
#[derive(Clone, Copy)]
enum Place {
    Plain,
    /// Behind `\`.
    Escape,
    /// In the digits behind `\x`, of which there are at most six.
    Hex { value: u32, digits: u8 },
}

fn digit_value(letter: char) -> Option<u32> {
    match letter {
        '0'..='9' => Some(letter as u32 - '0' as u32),
        'a'..='f' => Some(letter as u32 - 'a' as u32 + 10),
        'A'..='F' => Some(letter as u32 - 'A' as u32 + 10),
        _ => None,
    }
}

/// Where the next character leads from a place that is in no run of hex digits.
fn plain_step(letter: char) -> Place {
    if letter == '\\' {
        Place::Escape
    } else {
        Place::Plain
    }
}

fn step(place: Place, letter: char) -> Place {
    match place {
        Place::Plain => plain_step(letter),
        Place::Escape if letter == 'x' => Place::Hex {
            value: 0,
            digits: 0,
        },
        Place::Escape => Place::Plain,
        Place::Hex { value, digits } => match digit_value(letter) {
            Some(digit) if digits < 6 => {
                let value = value.saturating_mul(16).saturating_add(digit);
                Place::Hex {
                    value,
                    digits: digits + 1,
                }
            }
            _ => plain_step(letter),
        },
    }
}

/// The number of the escape that ends before this character, if one does.
fn ended(place: Place, letter: char) -> Option<u32> {
    match place {
        Place::Hex { value, digits } if digits == 6 || digit_value(letter).is_none() => Some(value),
        _ => None,
    }
}

/// Whether an escape of a string or character stands for no character that this compiler has: none past `last`.
fn has_refused_escape(text: &str, last: char) -> bool {
    let mut place = Place::Plain;
    for letter in text.chars() {
        if let Some(value) = ended(place, letter) {
            match char::from_u32(value) {
                Some(found) if found <= last => {}
                _ => return true,
            }
        }
        place = step(place, letter);
    }
    false
}

/// Whether the literal has a character that is not written by an escape and lies past U+FFFF.
fn has_far_character(text: &str) -> bool {
    text.chars().any(|letter| letter > '\u{ffff}')
}

fn is_outside(sym: &Sym) -> bool {
    let text = sym.text.as_str();
    match sym.next {
        Next::Token(Sign::Decimal | Sign::Hole | Sign::VisibleAt | Sign::QualifiedDo) => true,
        Next::Token(Sign::Str) => !text.starts_with("\"\"\"")
            && has_refused_escape(text, char::MAX),
        Next::Token(Sign::Character) => has_far_character(text)
            || has_refused_escape(text, '\u{ffff}'),
        _ => false,
    }
}

/// Whether an item begins with `derive` or with `type role`.
fn begins_outside(item: &[Sym]) -> bool {
    match item {
        [first, ..] if first.next == Next::Token(Sign::Derive) => true,
        [first, second, ..] => {
            first.next == Next::Token(Sign::XType)
                && second.next == Next::Token(Sign::Lower)
                && second.text.as_str() == "role"
        }
        _ => false,
    }
}

/// Whether an item begins as an instance.
fn begins_instance(item: &[Sym]) -> bool {
    match item {
        [first, ..] if first.next == Next::Token(Sign::Instance) => true,
        [first, second, ..] => {
            first.next == Next::Token(Sign::Else) && second.next == Next::Token(Sign::Instance)
        }
        _ => false,
    }
}

/// Whether an item of a block begins as a signature.
fn begins_signature(syms: &[Sym]) -> bool {
    match syms {
        [mark, name, colons, ..] => {
            mark.next == Next::Item
                && is_lower(name.next)
                && colons.next == Next::Token(Sign::DoubleColon)
        }
        _ => false,
    }
}

fn is_lower(next: Next) -> bool {
    match next {
        Next::Token(sign) => sign.is_lower(),
        _ => false,
    }
}

/// Whether a member of an instance is a signature: an item of its block, and of no block inside that.
fn has_member_signature(item: &[Sym]) -> bool {
    let mut depth: usize = 0;
    let mut rest = item;
    for _turn in 0..item.len() {
        let [first, after @ ..] = rest else {
            return false;
        };
        if depth == 1 && begins_signature(rest) {
            return true;
        }
        if first.next == Next::Open {
            depth = depth.saturating_add(1);
        } else if first.next == Next::Close {
            depth = depth.saturating_sub(1);
        }
        rest = after;
    }
    false
}

/// Whether a token of the item, how it begins, or a member of an instance is of a form that this compiler does not have.
pub fn has_outside_form(item: &[Sym]) -> bool {
    begins_outside(item)
        || item.iter().any(is_outside)
        || begins_instance(item) && has_member_signature(item)
}

/// Whether a module line names a module that belongs to the compiler.
pub fn names_builtin(line: &[Sym]) -> bool {
    match line {
        [first, second, ..] if first.next == Next::Token(Sign::Module) => {
            let text = second.text.as_str();
            text == "Prim" || text.starts_with("Prim.")
        }
        _ => false,
    }
}
