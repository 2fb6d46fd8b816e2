//! Module lines, and the head of a module: its line and the imports that it begins with.

use crate::cut::{Left, cut_line, first_item, next_item};
use crate::item::{Failed, Piece, read_item};
use crate::outside::{has_outside_form, names_builtin};
use crate::refs::exports;
use crate::verdict::{Wrong, error_at, refusal, wrong_of};
use psc_ast::{Export, ImportTree, ModuleAt};
use psc_error::{Code, PsError};
use psc_lex::{Sign, lex_layout};
use psc_nesting::deepest;
use psc_parse_base::{Parsed, Sym, expect, module_name, sees, span_of, symbols};
use psc_text::{ModuleName, NoMemory, Span};
use sqlite_items::Items;
use std::alloc::Global;

/// What a module says of itself before its declarations.
#[derive(Drop)]
pub struct ModuleHead {
    pub name: ModuleName,
    pub name_span: Span,
    pub imports: Items<ImportTree>,
    /// The line of the module's `where`.
    pub where_line: u32,
}

/// A module line.
#[derive(Drop)]
pub struct Line {
    pub name: ModuleAt,
    pub header: Span,
    pub exports: Option<Items<Export>>,
    pub where_line: u32,
}

/// The line of the symbol that comes next.
fn line_of(syms: &[Sym]) -> u32 {
    match syms {
        [first, ..] => first.span.line,
        [] => 1,
    }
}

fn module_line(alloc: Global, syms: &[Sym]) -> Parsed<'_, Line> {
    let rest = expect(syms, Sign::Module)?;
    let header = span_of(syms, rest);
    let (name, rest) = module_name(alloc, rest)?;
    let (exports, rest) = exports(alloc, rest)?;
    let where_line = line_of(rest);
    let rest = expect(rest, Sign::Where)?;
    Ok((
        Line {
            name,
            header,
            exports,
            where_line,
        },
        rest,
    ))
}

/// The place of a module line that fails: its first token, or the source's start.
fn place(line: &[Sym]) -> Span {
    match line {
        [first, ..] => first.span,
        [] => Span::START,
    }
}

/// The module line, or what is wrong with it.
fn checked_line(alloc: Global, line: &[Sym]) -> Result<Line, Wrong> {
    let is_outside = names_builtin(line) || has_outside_form(line);
    if let Some(code) = refusal(is_outside, deepest(alloc, line)?) {
        return Err(Wrong::Code(code));
    }
    match module_line(alloc, line) {
        Ok((found, [])) => Ok(found),
        Ok(_) => Err(Wrong::Code(Code::ErrorParsingModule)),
        Err(fault) => Err(wrong_of(fault)),
    }
}

/// The module line, or the error at its first token.
pub fn read_line(alloc: Global, line: &[Sym]) -> Result<Result<Line, PsError>, NoMemory> {
    match checked_line(alloc, line) {
        Ok(found) => Ok(Ok(found)),
        Err(wrong) => Ok(Err(error_at(alloc, wrong, None, place(line))?)),
    }
}

/// The imports with which a module begins, or the first of them that fails.
fn leading_imports<'a>(
    alloc: Global,
    body: &'a [Sym],
    found: &mut Items<ImportTree>,
) -> Result<(), Failed<'a>> {
    let mut left = first_item(body);
    for _turn in 0..body.len() {
        let Left::Item(item, rest) = left else {
            return Ok(());
        };
        if !sees(item, Sign::Import) {
            return Ok(());
        }
        if let Err(wrong) = push_import(alloc, item, found) {
            return Err(Failed { wrong, item });
        }
        left = next_item(rest);
    }
    Ok(())
}

fn push_import(alloc: Global, item: &[Sym], found: &mut Items<ImportTree>) -> Result<(), Wrong> {
    match read_item(alloc, item)? {
        Piece::Import(import) => found.push(import.into_inner())?,
        Piece::Decl(_) => {}
    }
    Ok(())
}

/// The head behind the module line, or the error of the first import that fails.
fn read_imports(
    alloc: Global,
    line: Line,
    body: &[Sym],
) -> Result<Result<ModuleHead, PsError>, NoMemory> {
    let Line {
        name,
        where_line,
        ..
    } = line;
    let ModuleAt { name, span } = name;
    let mut imports = Items::new(alloc);
    match leading_imports(alloc, body, &mut imports) {
        Ok(()) => Ok(Ok(ModuleHead {
            name,
            name_span: span,
            imports,
            where_line,
        })),
        Err(Failed { wrong, item }) => {
            Ok(Err(error_at(alloc, wrong, Some(name), span_of(item, &[]))?))
        }
    }
}

fn read_head(alloc: Global, syms: &[Sym]) -> Result<Result<ModuleHead, PsError>, NoMemory> {
    let (line, body) = cut_line(syms);
    match read_line(alloc, line)? {
        Ok(line) => read_imports(alloc, line, body),
        Err(error) => Ok(Err(error)),
    }
}

/// The head of a module: its line and its leading imports.
///
/// Err as `parse` has it where the module line or one of these imports is the first item that fails.
pub fn header(alloc: Global, source: &str) -> Result<Result<ModuleHead, PsError>, NoMemory> {
    let toks = lex_layout(alloc, source)?;
    let syms = symbols(alloc, toks.as_slice())?;
    read_head(alloc, syms.as_slice())
}
