//! Modules for the tests from rows of texts.

use crate::notation::{bindings, module_name};
use psc_core_tree::{CoreBind, CoreModule, ReExport};
use psc_items::SharedItems;
use psc_text::{Ident, ModuleName, NoMemory, Span, Text};
use sqlite_items::Items;
use std::alloc::Global;

/// Four numbers that differ.
pub const HERE: Span = Span {
    line: 1,
    column: 2,
    end_line: 3,
    end_column: 4,
};

/// A module: its lists are words, a row of the re-exports begins with the module's name, and its bindings
/// are in the notation.
#[derive(Clone, Copy)]
pub struct Row {
    pub name: &'static str,
    pub imports: &'static str,
    pub foreign: &'static str,
    pub exports: &'static str,
    pub re_exports: &'static [&'static str],
    pub binds: &'static str,
}

/// A module without imports, foreign values and re-exports.
pub fn plain(name: &'static str, exports: &'static str, binds: &'static str) -> Row {
    Row {
        name,
        imports: "",
        foreign: "",
        exports,
        re_exports: &[],
        binds,
    }
}

/// What a module takes from others.
#[derive(Drop)]
struct Taken {
    imports: SharedItems<ModuleName>,
    foreign: SharedItems<Ident>,
}

/// What a module gives to others.
#[derive(Drop)]
struct Given {
    exports: SharedItems<Text>,
    re_exports: SharedItems<ReExport>,
}

/// A module without its bindings.
#[derive(Drop)]
pub struct Head {
    name: ModuleName,
    taken: Taken,
    given: Given,
}

fn put_text(alloc: Global, texts: &mut Vec<Text>, word: &str) -> Result<(), NoMemory> {
    let text = Text::new(alloc, word)?;
    texts.push(text)?;
    Ok(())
}

fn texts_of(alloc: Global, words: &str) -> Result<SharedItems<Text>, NoMemory> {
    let mut texts = Vec::new(alloc);
    for word in words.split_whitespace() {
        put_text(alloc, &mut texts, word)?;
    }
    Ok(SharedItems::from_vec(alloc, texts)?)
}

fn put_ident(alloc: Global, idents: &mut Vec<Ident>, word: &str) -> Result<(), NoMemory> {
    let ident = Ident(Text::new(alloc, word)?);
    idents.push(ident)?;
    Ok(())
}

fn idents_of(alloc: Global, words: &str) -> Result<SharedItems<Ident>, NoMemory> {
    let mut idents = Vec::new(alloc);
    for word in words.split_whitespace() {
        put_ident(alloc, &mut idents, word)?;
    }
    Ok(SharedItems::from_vec(alloc, idents)?)
}

fn put_module(alloc: Global, names: &mut Vec<ModuleName>, word: &str) -> Result<(), NoMemory> {
    let name = module_name(alloc, word)?;
    names.push(name)?;
    Ok(())
}

fn modules_of(alloc: Global, words: &str) -> Result<SharedItems<ModuleName>, NoMemory> {
    let mut names = Vec::new(alloc);
    for word in words.split_whitespace() {
        put_module(alloc, &mut names, word)?;
    }
    Ok(SharedItems::from_vec(alloc, names)?)
}

fn re_export(alloc: Global, name: &str, words: &str) -> Result<ReExport, NoMemory> {
    let module = module_name(alloc, name)?;
    let names = texts_of(alloc, words)?;
    Ok(ReExport { module, names })
}

fn put_re_export(alloc: Global, made: &mut Vec<ReExport>, row: &str) -> Result<(), NoMemory> {
    let Some((name, words)) = row.split_once(' ') else {
        return Err(NoMemory);
    };
    let re_export = re_export(alloc, name, words)?;
    made.push(re_export)?;
    Ok(())
}

fn re_exports_of(alloc: Global, rows: &[&str]) -> Result<SharedItems<ReExport>, NoMemory> {
    let mut made = Vec::new(alloc);
    for row in rows {
        put_re_export(alloc, &mut made, *row)?;
    }
    Ok(SharedItems::from_vec(alloc, made)?)
}

fn taken_of(alloc: Global, row: &Row) -> Result<Taken, NoMemory> {
    let imports = modules_of(alloc, row.imports)?;
    let foreign = idents_of(alloc, row.foreign)?;
    Ok(Taken { imports, foreign })
}

fn given_of(alloc: Global, row: &Row) -> Result<Given, NoMemory> {
    let exports = texts_of(alloc, row.exports)?;
    let re_exports = re_exports_of(alloc, row.re_exports)?;
    Ok(Given {
        exports,
        re_exports,
    })
}

pub fn head_of(alloc: Global, row: &Row) -> Result<Head, NoMemory> {
    let name = module_name(alloc, row.name)?;
    let taken = taken_of(alloc, row)?;
    let given = given_of(alloc, row)?;
    Ok(Head { name, taken, given })
}

/// The module of this place with these bindings.
pub fn core_with(span: Span, head: Head, decls: Items<CoreBind>) -> CoreModule {
    let Head { name, taken, given } = head;
    CoreModule {
        name,
        span,
        imports: taken.imports,
        exports: given.exports,
        re_exports: given.re_exports,
        foreign: taken.foreign,
        decls,
    }
}

/// The module. It and its nodes stand at this place.
pub fn core_of(alloc: Global, span: Span, row: &Row) -> Result<CoreModule, NoMemory> {
    let head = head_of(alloc, row)?;
    let decls = bindings(alloc, span, row.name, row.binds)?;
    Ok(core_with(span, head, decls))
}
