//! Items one after another, and the first error among them.

ghost use Rattle.std.specs.Prelude.{◌≡◌, IfSome, IfErr, Err};
ghost use Rattle.psc_parse_decl.specs.declared.verdict.Wrong.{Wrong};
ghost use Rattle.psc_parse_decl.specs.Item as spec;

use crate::cut::{Left, cut_line, first_item, next_item};
use crate::decls::decl;
use crate::head::{Line, read_line};
use crate::outside::has_outside_form;
use crate::range::{WideLiteral, first_wide};
use crate::refs::import;
use crate::verdict::{NESTING_LIMIT, Wrong, error_at, refusal, wrong_of};
use psc_ast::{Decl, ImportTree, Module, ModuleAt};
use psc_deep_forms::has_deep_form;
use psc_error::{Code, PsError};
use psc_lex::{Sign, lex_layout};
use psc_nesting::deepest;
use psc_parse_base::{Parsed, Sym, sees, span_of, symbols};
use psc_text::{NoMemory, Span};
use sqlite_items::{Boxed, Items};
use std::alloc::Global;

/// An item as it is read.
#[derive(Drop)]
pub enum Piece {
    Import(Boxed<ImportTree>),
    Decl(Boxed<Decl>),
}

fn import_piece(alloc: Global, item: &[Sym]) -> Parsed<'_, Piece> {
    let (found, rest) = import(alloc, item)?;
    Ok((Piece::Import(Boxed::new(alloc, found)?), rest))
}

fn decl_piece(alloc: Global, item: &[Sym]) -> Parsed<'_, Piece> {
    let (found, rest) = decl(alloc, item)?;
    Ok((Piece::Decl(Boxed::new(alloc, found)?), rest))
}

fn any_piece(alloc: Global, item: &[Sym]) -> Parsed<'_, Piece> {
    if sees(item, Sign::Import) {
        import_piece(alloc, item)
    } else {
        decl_piece(alloc, item)
    }
}

/// Whether a form that this compiler does not have stands in the item, as far as it is not for `any_piece` to find: one that
/// tokens alone tell, or any where the item nests past the limit, since nothing descends into that.
fn is_known_outside(alloc: Global, item: &[Sym], nesting: u32) -> Result<bool, NoMemory> {
    if has_outside_form(item) {
        return Ok(true);
    }
    if nesting > NESTING_LIMIT {
        return has_deep_form(alloc, item);
    }
    Ok(false)
}

/// Why the item is not read at all, if so.
fn refused(alloc: Global, item: &[Sym]) -> Result<Option<Code>, NoMemory> {
    let nesting = deepest(alloc, item)?;
    Ok(refusal(is_known_outside(alloc, item, nesting)?, nesting))
}

/// The item as the grammar reads it, where it is not refused before that. Its literals may be out of range yet.
fn in_grammar(alloc: Global, item: &[Sym], refused: Option<Code>) -> Result<Piece, Wrong>
    ensures { IfSome refused (λ code. result ≡ Err (Wrong.Code code)) }
{
    if let Some(code) = refused {
        return Err(Wrong::Code(code));
    }
    match any_piece(alloc, item) {
        Ok((found, [])) => Ok(found),
        Ok(_) => Err(Wrong::Code(Code::ErrorParsingModule)),
        Err(fault) => Err(wrong_of(fault)),
    }
}

/// What was read of an item. Whatever else is wrong with it counts before a literal that is out of range.
fn in_range(read: Result<Piece, Wrong>, wide: Option<WideLiteral>) -> Result<Piece, Wrong>
    ensures { result ≡ spec.in_range read wide }
{
    match read {
        Err(unread) => Err(unread),
        Ok(found) => match wide {
            Some(literal) => Err(Wrong::Wide(literal)),
            None => Ok(found),
        },
    }
}

/// An item, wherever it stands, or the first thing that is wrong with it.
pub fn read_item(alloc: Global, item: &[Sym]) -> Result<Piece, Wrong> {
    let read = in_grammar(alloc, item, refused(alloc, item)?);
    in_range(read, first_wide(alloc, item)?)
}

/// The items of a module so far.
#[derive(Drop)]
struct Pieces {
    imports: Items<ImportTree>,
    decls: Items<Decl>,
}

/// Whether the declaration is no instance that begins with `else`, or follows an instance of its class.
fn may_go_on(before: &[Decl], decl: &Decl) -> bool {
    match decl {
        Decl::Instance(instance) if instance.goes_on => match before {
            [.., Decl::Instance(last)] => last.class.name.same(&instance.class.name),
            _ => false,
        },
        _ => true,
    }
}

impl Pieces {
    /// Whether the item may stand behind those so far: an import before all declarations, and what begins with `else`
    /// behind an instance of its class.
    fn may_follow(&self, next: &Piece) -> bool {
        match next {
            Piece::Import(_) => self.decls.is_empty(),
            Piece::Decl(decl) => may_go_on(self.decls.as_slice(), decl.get()),
        }
    }

    fn push(&mut self, next: Piece) -> Result<(), NoMemory> {
        match next {
            Piece::Import(import) => self.imports.push(import.into_inner())?,
            Piece::Decl(decl) => self.decls.push(decl.into_inner())?,
        }
        Ok(())
    }

    /// What was read of the next item, where it may stand behind those so far.
    fn in_place(&self, read: Result<Piece, Wrong>) -> Result<Piece, Wrong> {
        match read {
            Ok(found) => {
                if self.may_follow(&found) {
                    Ok(found)
                } else {
                    Err(Wrong::Code(Code::ErrorParsingModule))
                }
            }
            Err(wrong) => Err(wrong),
        }
    }

    /// Reads one more item.
    fn read(&mut self, alloc: Global, item: &[Sym]) -> Result<(), Wrong> {
        let read = self.in_place(in_grammar(alloc, item, refused(alloc, item)?));
        self.push(in_range(read, first_wide(alloc, item)?)?)?;
        Ok(())
    }

    /// Reads what comes next of the module's block. Where that is an item and something fails, it is that item.
    fn read_next<'a>(
        &mut self,
        alloc: Global,
        left: Left<'a>,
    ) -> Result<Option<Left<'a>>, Failed<'a>>
        ensures place { IfErr result (λ failed. spec.IsNext failed.item.now left.entry) }
    {
        match left {
            Left::Behind(rest) => match behind(rest) {
                Some((item, code)) => Err(Failed {
                    wrong: Wrong::Code(code),
                    item,
                }),
                None => Ok(None),
            },
            Left::Item(item, rest) => match self.read(alloc, item) {
                Ok(()) => Ok(Some(next_item(rest))),
                Err(wrong) => Err(Failed { wrong, item }),
            },
        }
    }
}

/// A token behind the module's block is an item by itself, and fails.
fn behind(syms: &[Sym]) -> Option<(&[Sym], Code)> {
    let first = syms.get(..1)?;
    let code = if has_outside_form(first) {
        Code::OutsideProfile
    } else {
        Code::ErrorParsingModule
    };
    Some((first, code))
}

/// What is wrong with the first item of a block that fails, and that item.
#[derive(Drop)]
pub struct Failed<'a> {
    pub wrong: Wrong,
    pub item: &'a [Sym],
}

/// Reads all items of the module's block, to its end or to the first item that fails.
fn read_pieces<'a>(alloc: Global, body: &'a [Sym], pieces: &mut Pieces) -> Result<(), Failed<'a>> {
    let mut left = first_item(body);
    for _turn in 0..body.len() {
        match pieces.read_next(alloc, left)? {
            Some(next) => left = next,
            None => return Ok(()),
        }
    }
    Ok(())
}

/// The module of a line and the items behind it; `syms` is all of its source.
fn joined(line: Line, pieces: Pieces, syms: &[Sym]) -> Module {
    let Line {
        name,
        header,
        exports,
        where_line,
    } = line;
    let Pieces { imports, decls } = pieces;
    Module {
        name,
        header,
        where_line,
        exports,
        imports,
        decls,
        span: span_of(syms, &[]),
    }
}

/// The module behind its line, or the error of the first item that fails.
fn read_body(
    alloc: Global,
    line: Line,
    body: &[Sym],
    syms: &[Sym],
) -> Result<Result<Module, PsError>, NoMemory> {
    let mut pieces = Pieces {
        imports: Items::new(alloc),
        decls: Items::new(alloc),
    };
    match read_pieces(alloc, body, &mut pieces) {
        Ok(()) => Ok(Ok(joined(line, pieces, syms))),
        Err(Failed { wrong, item }) => {
            let Line {
                name: ModuleAt { name, .. },
                ..
            } = line;
            Ok(Err(error_at(alloc, wrong, Some(name), span_of(item, &[]))?))
        }
    }
}

fn read_module(alloc: Global, syms: &[Sym]) -> Result<Result<Module, PsError>, NoMemory> {
    let (line, body) = cut_line(syms);
    match read_line(alloc, line)? {
        Ok(line) => read_body(alloc, line, body, syms),
        Err(error) => Ok(Err(error)),
    }
}

/// The module that a source spells.
///
/// Err of the first item that fails, where the module line is the first item of all: OutsideProfile where a form of
/// PureScript stands in it that this compiler does not have; else TooDeep where it nests deeper than `NESTING_LIMIT`; else
/// IntOutOfRange at a literal that is no 32-bit signed integer, with the literal as its part, where the item is of the
/// grammar; else ErrorParsingModule. The place is that of the item; for the module line it is that of its first token.
pub fn parse(alloc: Global, source: &str) -> Result<Result<Module, PsError>, NoMemory> {
    let toks = lex_layout(alloc, source)?;
    let syms = symbols(alloc, toks.as_slice())?;
    read_module(alloc, syms.as_slice())
}

/// The module that a file's bytes spell: as `parse`, and ErrorParsingModule at the source's start where they are not UTF-8.
pub fn parse_bytes(alloc: Global, source: &[u8]) -> Result<Result<Module, PsError>, NoMemory> {
    match str::from_utf8(source) {
        Ok(text) => parse(alloc, text),
        Err(_) => {
            let wrong = Wrong::Code(Code::ErrorParsingModule);
            Ok(Err(error_at(alloc, wrong, None, Span::START)?))
        }
    }
}
