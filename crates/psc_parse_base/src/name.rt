//! Names: from tokens to the names of a tree.

use crate::fault::{Fault, Parsed};
use crate::literal::string;
use crate::step::peek;
use crate::symbol::{Next, Sym};
use psc_ast::{IdentAt, LabelAt, Mention, ModuleAt, OpAt, UpperAt};
use psc_lex::Sign;
use psc_text::{Ident, Label, NoMemory, OpName, Qualified, Text, goes_on, read_module_name};
use std::alloc::Global;

/// A lower name without a module, where a name is bound or declared.
pub fn ident(syms: &[Sym]) -> Parsed<'_, IdentAt> {
    match syms {
        [first, rest @ ..] if is_lower(first.next) => {
            let name = Ident(first.text.clone()?);
            Ok((
                IdentAt {
                    name,
                    span: first.span,
                },
                rest,
            ))
        }
        _ => Err(Fault::Grammar),
    }
}

/// Whether a lower name without a module stands here.
pub fn lower(syms: &[Sym]) -> bool {
    is_lower(peek(syms))
}

fn is_lower(next: Next) -> bool {
    match next {
        Next::Token(sign) => sign.is_lower(),
        _ => false,
    }
}

fn is_label(next: Next) -> bool {
    match next {
        Next::Token(sign) => sign.is_label(),
        _ => false,
    }
}

fn is_plain_operator(next: Next) -> bool {
    match next {
        Next::Token(sign) => sign.is_plain_operator(),
        _ => false,
    }
}

/// An upper name without a module.
pub fn upper(syms: &[Sym]) -> Parsed<'_, UpperAt> {
    match syms {
        [first, rest @ ..] if first.next == Next::Token(Sign::Upper) => {
            let name = first.text.clone()?;
            Ok((
                UpperAt {
                    name,
                    span: first.span,
                },
                rest,
            ))
        }
        _ => Err(Fault::Grammar),
    }
}

/// An operator without a module that is not reserved.
pub fn op(syms: &[Sym]) -> Parsed<'_, OpAt> {
    match syms {
        [first, rest @ ..] if is_plain_operator(first.next) => {
            let op = OpName(first.text.clone()?);
            Ok((
                OpAt {
                    op,
                    span: first.span,
                },
                rest,
            ))
        }
        _ => Err(Fault::Grammar),
    }
}

/// A label: a lower name, a keyword or a string.
pub fn label(alloc: Global, syms: &[Sym]) -> Parsed<'_, LabelAt> {
    match syms {
        [first, rest @ ..] if is_label(first.next) => {
            let text = if first.next == Next::Token(Sign::Str) {
                string(alloc, first.text.as_str())?
            } else {
                first.text.clone()?
            };
            Ok((
                LabelAt {
                    label: Label(text),
                    span: first.span,
                },
                rest,
            ))
        }
        _ => Err(Fault::Grammar),
    }
}

/// The name of a module.
pub fn module_name(alloc: Global, syms: &[Sym]) -> Parsed<'_, ModuleAt> {
    match syms {
        [first, rest @ ..] => {
            if !matches!(first.next, Next::Token(Sign::Upper | Sign::QualifiedUpper)) {
                return Err(Fault::Grammar);
            }
            let Some(name) = read_module_name(alloc, first.text.as_str())? else {
                return Err(Fault::Grammar);
            };
            Ok((
                ModuleAt {
                    name,
                    span: first.span,
                },
                rest,
            ))
        }
        [] => Err(Fault::Grammar),
    }
}

fn is_qualified(next: Next) -> bool {
    matches!(
        next,
        Next::Token(
            Sign::QualifiedLower
                | Sign::QualifiedUpper
                | Sign::QualifiedOperator
                | Sign::QualifiedParenthesized
        )
    )
}

/// A use of the name or operator that comes next, whichever it is; its module is split off.
pub fn mention(alloc: Global, syms: &[Sym]) -> Parsed<'_, Mention> {
    match syms {
        [first, rest @ ..] => {
            let name = if is_qualified(first.next) {
                split_off_module(alloc, first.text.as_str())?
            } else {
                Qualified {
                    module: None,
                    name: first.text.clone()?,
                }
            };
            Ok((
                Mention {
                    name,
                    span: first.span,
                },
                rest,
            ))
        }
        [] => Err(Fault::Grammar),
    }
}

/// The parts of a qualified spelling while it is read.
#[derive(Drop)]
struct Split {
    /// The whole upper names so far, with dots between them.
    module: String,
    /// The name that is being read.
    part: String,
    /// Whether that is an operator.
    is_operator: bool,
}

impl Split {
    /// Takes the next character.
    fn take(self, alloc: Global, letter: char) -> Result<Split, NoMemory> {
        let Split {
            mut module,
            mut part,
            is_operator,
        } = self;
        if !is_operator && letter == '.' && !part.is_empty() {
            if !module.is_empty() {
                module.push('.')?;
            }
            module.push_str(part.as_str())?;
            return Ok(Split {
                module,
                part: String::new(alloc),
                is_operator,
            });
        }
        if letter != '(' && letter != ')' {
            part.push(letter)?;
        }
        Ok(Split {
            module,
            part,
            is_operator: is_operator || !goes_on(letter),
        })
    }
}

/// `M.N.x` as its module `M.N` and its name `x`; the name may be an operator, with or without parentheses.
fn split_off_module(alloc: Global, text: &str) -> Result<Qualified, NoMemory> {
    let mut parts = Split {
        module: String::new(alloc),
        part: String::new(alloc),
        is_operator: false,
    };
    for letter in text.chars() {
        parts = parts.take(alloc, letter)?;
    }
    let module = read_module_name(alloc, parts.module.as_str())?;
    Ok(Qualified {
        module,
        name: Text::from_string(parts.part)?,
    })
}
