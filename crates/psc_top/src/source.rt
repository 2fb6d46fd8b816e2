//! What a file is: a header and bindings, each on a line of its own, or the first line that is refused.
//!
//! Every line ends with a line feed, the last one too. No name is bound twice.

ghost use Rattle.std.specs.Prelude.{◌≡◌, ◌≤◌, ◌^◌, ◌+◌, ◌||◌, ◌↔◌, ℕ, List, length, not, IsTrue, IfOk, OnOk, MatchBool, [], Some, None, bytes_eq, chars, map, pos, Ok};
ghost use Rattle.std.specs.Bool.{OnTrue};
ghost use Rattle.std.specs.Ordering.{nat_cmp};
ghost use Rattle.std.specs.Cmp.Lexicographic.{slice_cmp};
ghost use Rattle.std.specs.BTreeSet.{contains};
ghost use Rattle.psc_top.specs.Words.{is_module_word};
ghost use Rattle.psc_top.specs.Reading as spec;
ghost use Rattle.psc_top.specs.Spelling.{spelling, file_of, AreRows, names_rows};
ghost use Rattle.psc_top.specs.declared.source.Source.{Source};

use crate::line::{Binding, binding_on, header_of, text_of};
use crate::words::cut;
use psc_text::{Ident, ModuleName, NoMemory, Span, Text, read_module_name};
use sqlite_items::Items;
use std::alloc::Global;
use std::collections::BTreeSet;

/// A module of integer bindings, in the order of its lines.
#[derive(Debug, Drop)]
pub struct Source {
    pub name: ModuleName,
    /// The line of the header.
    pub header: Span,
    pub bindings: Items<Binding>,
}

/// The first line that is not of the form that it should be, or that binds a name again.
#[derive(Clone, Copy, Debug, PartialEq, Eq)]
pub struct RefusedLine(pub u32);

/// Adds a name to a set, and tells whether it is new.
fn add_name(names: &mut BTreeSet<Text>, name: &Ident) -> Result<bool, NoMemory>
    ensures added { IfOk result (λ added. added ≡ not (contains (slice_cmp nat_cmp) names.old name.now.0)) }
    ensures names { OnOk result ((q : List ℕ) → contains (slice_cmp nat_cmp) names.new q ≡ (contains (slice_cmp nat_cmp) names.old q || bytes_eq name.now.0 q)) }
{
    let name = name.0.clone()?;
    Ok(names.insert(name)?)
}

/// Adds the binding on a line, and tells whether the line is one that binds a new name.
fn add_line(
    alloc: Global,
    number: u32,
    line: &[u8],
    bindings: &mut Items<Binding>,
    names: &mut BTreeSet<Text>,
) -> Result<bool, NoMemory>
    requires short { length line.now ≤ 2 ^ 30 }
    requires names { (q : List ℕ) → contains (slice_cmp nat_cmp) names.old q ≡ spec.is_bound bindings.old q }

    ensures added { IfOk result (λ added. MatchBool added
        (spec.with_line number bindings.old line.now ≡ Some bindings.new)
        (spec.with_line number bindings.old line.now ≡ None)) }
    ensures names { IfOk result (λ added. OnTrue added
        ((q : List ℕ) → contains (slice_cmp nat_cmp) names.new q ≡ spec.is_bound bindings.new q)) }
{
    let Some(binding) = binding_on(alloc, number, line)? else {
        return Ok(false);
    };
    if !add_name(names, &binding.name)? {
        return Ok(false);
    }
    bindings.push(binding)?;
    Ok(true)
}

/// The bindings behind the header, from line 2 on.
fn bindings_in(alloc: Global, bytes: &[u8]) -> Result<Result<Items<Binding>, RefusedLine>, NoMemory>
    requires { length bytes.now ≤ 2 ^ 30 }
    ensures { IfOk result (λ found. found ≡ spec.bindings_in 2 [] (spec.parts bytes.now)) }
{
    let mut bindings = Items::new(alloc);
    let mut names = BTreeSet::new(alloc);
    let mut rest = bytes;
    let mut number = 2;
    while let Some((line, after)) = cut(rest, b'\n') {
        if !add_line(alloc, number, line, &mut bindings, &mut names)? {
            return Ok(Err(RefusedLine(number)));
        }
        number += 1;
        rest = after;
    }
    if rest.is_empty() {
        Ok(Ok(bindings))
    } else {
        Ok(Err(RefusedLine(number)))
    }
}

/// The name of a module, of its bytes.
fn module_name_of(alloc: Global, name: &[u8]) -> Result<ModuleName, NoMemory>
    requires { IsTrue (is_module_word name.now) }
    ensures { IfOk result (λ made. made ≡ name.now) }
{
    match read_module_name(alloc, text_of(name))? {
        Some(module) => Ok(module),
        None => unreachable!(),
    }
}

/// What the bytes of a file are, at most 1 GiB of them.
pub fn source_of(alloc: Global, bytes: &[u8]) -> Result<Result<Source, RefusedLine>, NoMemory>
    requires { length bytes.now ≤ 2 ^ 30 }
    ensures { IfOk result (λ source. source ≡ spec.source_of bytes.now) }
{
    let Some((line, rest)) = cut(bytes, b'\n') else {
        return Ok(Err(RefusedLine(1)));
    };
    let Some(name) = header_of(line) else {
        return Ok(Err(RefusedLine(1)));
    };
    let header = Span {
        line: 1,
        column: 1,
        end_line: 1,
        end_column: line.len() as u32 + 1,
    };
    let name = module_name_of(alloc, name)?;
    match bindings_in(alloc, rest)? {
        Ok(bindings) => Ok(Ok(Source {
            name,
            header,
            bindings,
        })),
        Err(refused) => Ok(Err(refused)),
    }
}

/// A file that is accepted is spelled as its source is, and no other way.
pub fn accepted_is_spelled()
    ensures { (bytes : List ℕ) (source : Source) → spec.source_of bytes ≡ Ok source → bytes ≡ spelling source }
{}

/// A file that is spelled by the rules is accepted, and its source has the same names and numbers.
pub fn spelled_is_accepted()
    ensures { (name : List ℕ) (rows : List (List ℕ × ℕ)) → IsTrue (is_module_word name) → AreRows [] rows
        → (source : Source) × (spec.source_of (file_of name rows) ≡ Ok source) × (source.name ≡ name)
        × (names_rows source ≡ map (λ row. (row.0, pos row.1)) rows) }
{}
