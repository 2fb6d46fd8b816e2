//! Reads rows of a source, the interfaces that it imports, and what its names must be.
//!
//! `rows.txt`: a line `# name` begins a row; lines `: ..` are interface rows; lines `|text` are its source. Then `= tree` says
//! what tree the resolved module must be, `f fixities`, `u uses` and `e exports` what operators it must have and what it must
//! mention and export, and `! error line` by what error it must be refused. `c closed` or `c error line` says whether the
//! interface rows of the module itself are closed under its exports.
//! Printed are the rows that differ, the counts, and for each module of `examples.txt` whether it resolves.
#![tactic(auto)]

mod corpus;
mod interfaces;
mod lists;
mod own;
mod types;

use crate::corpus::Corpus;
use crate::interfaces::Interfaces;
use psc_ast::{Fixity, Module, Side};
use psc_ast_text::module_text;
use psc_error::{PsError, error_line};
use psc_externs::{Entity, ExportRow, Externs, Space, UseRow};
use psc_names::{Resolved, exports_closed, resolve};
use psc_parse_decl::parse;
use psc_text::{ModuleName, NoMemory};
use std::alloc::Global;
use std::{fs, mem};

/// The path that error lines name.
const PATH: &str = "M.purs";

/// What a row looks at.
#[derive(Clone, Copy, Debug, PartialEq, Eq)]
enum Look {
    Resolved,
    Fixities,
    Uses,
    Exports,
    Closed,
}

/// The row that is being read, and what was found so far.
#[derive(Drop)]
struct Rows {
    name: String,
    source: String,
    interfaces: Interfaces,
    count: u32,
    differing: u32,
    report: String,
}

fn error_text(alloc: Global, error: &PsError) -> Result<String, NoMemory> {
    let line = error_line(alloc, error, PATH)?;
    Ok(String::from_str(alloc, line.as_str())?)
}

fn space_word(entity: &Entity) -> &'static str {
    match entity.space() {
        Space::Constructor => "constructor",
        Space::XType => "type",
        Space::TypeOp => "typeop",
        Space::Value => "value",
        Space::ValueOp => "valueop",
    }
}

fn uses_text(alloc: Global, rows: &[UseRow]) -> Result<String, NoMemory> {
    let mut text = String::new(alloc);
    for row in rows {
        let (line, column) = (row.span.line, row.span.column);
        let (module, name) = (row.module.as_str(), row.entity.text().as_str());
        let word = space_word(&row.entity);
        let part = format!(in alloc; "{}:{} {} {}.{}", line, column, word, module, name)?;
        if !text.is_empty() {
            text.push_str(", ")?;
        }
        text.push_str(part.as_str())?;
    }
    if text.is_empty() {
        text.push_str("none")?;
    }
    Ok(text)
}

fn exports_text(alloc: Global, resolved: &Resolved) -> Result<String, NoMemory> {
    let mut text = String::new(alloc);
    for (row, span) in resolved.exports.iter().zip(resolved.brought.iter()) {
        let part = export_text(alloc, row, span.line, span.column)?;
        if !text.is_empty() {
            text.push_str(", ")?;
        }
        text.push_str(part.as_str())?;
    }
    Ok(text)
}

fn export_text(alloc: Global, row: &ExportRow, line: u32, column: u32) -> Result<String, NoMemory> {
    let (module, name) = (row.module.as_str(), row.entity.text().as_str());
    let word = space_word(&row.entity);
    Ok(format!(in alloc; "{} {}.{} by {}:{}", word, module, name, line, column)?)
}

fn side_word(side: Side) -> &'static str {
    match side {
        Side::Left => "infixl",
        Side::Right => "infixr",
        Side::Neither => "infix",
    }
}

fn module_word(module: &Option<ModuleName>) -> &str {
    match module {
        Some(module) => module.as_str(),
        None => "?",
    }
}

fn fixity_text(alloc: Global, row: &Fixity) -> Result<String, NoMemory> {
    let (side, power) = (side_word(row.side), row.power);
    let (op, target) = (row.op.name.as_str(), row.target.name.as_str());
    let (module, other) = (module_word(&row.op.module), module_word(&row.target.module));
    let space = if row.of_types { " type" } else { "" };
    Ok(format!(in alloc; "{side} {power}{space} {other}.{target} as {module}.{op}")?)
}

fn fixities_text(alloc: Global, rows: &[Fixity]) -> Result<String, NoMemory> {
    let mut text = String::new(alloc);
    for row in rows {
        let part = fixity_text(alloc, row)?;
        if !text.is_empty() {
            text.push_str(", ")?;
        }
        text.push_str(part.as_str())?;
    }
    if text.is_empty() {
        text.push_str("none")?;
    }
    Ok(text)
}

fn closed_text(alloc: Global, resolved: &Resolved, owns: &[Externs]) -> Result<String, NoMemory> {
    let Some(own) = owns.first() else {
        return Ok(String::from_str(alloc, "no interface of the module itself")?);
    };
    match exports_closed(alloc, &resolved.exports, &resolved.brought, own)? {
        Ok(()) => Ok(String::from_str(alloc, "closed")?),
        Err(error) => error_text(alloc, &error),
    }
}

fn resolved_text(
    alloc: Global,
    resolved: &Resolved,
    look: Look,
    owns: &[Externs],
) -> Result<String, NoMemory> {
    match look {
        Look::Resolved => module_text(alloc, &resolved.module, false),
        Look::Fixities => fixities_text(alloc, resolved.fixities.rows.as_slice()),
        Look::Uses => uses_text(alloc, &resolved.uses),
        Look::Exports => exports_text(alloc, resolved),
        Look::Closed => closed_text(alloc, resolved, owns),
    }
}

fn module_outcome(
    alloc: Global,
    module: Module,
    look: Look,
    env: &[Externs],
    owns: &[Externs],
) -> Result<String, NoMemory> {
    match resolve(alloc, module, env)? {
        Err(error) => error_text(alloc, &error),
        Ok(resolved) => resolved_text(alloc, &resolved, look, owns),
    }
}

fn note_difference(report: &mut String, name: &str, got: &str, want: &str) -> Result<(), NoMemory> {
    report.push_str(name)?;
    report.push_str("\n  got  ")?;
    report.push_str(got)?;
    report.push_str("\n  want ")?;
    report.push_str(want)?;
    report.push('\n')?;
    Ok(())
}

impl Rows {
    fn new(alloc: Global) -> Rows {
        Rows {
            name: String::new(alloc),
            source: String::new(alloc),
            interfaces: Interfaces::new(alloc),
            count: 0,
            differing: 0,
            report: String::new(alloc),
        }
    }

    fn begin(&mut self, alloc: Global, name: &str) -> Result<(), NoMemory> {
        self.name = String::from_str(alloc, name)?;
        self.source = String::new(alloc);
        self.interfaces = Interfaces::new(alloc);
        Ok(())
    }

    fn add(&mut self, line: &str) -> Result<(), NoMemory> {
        self.source.push_str(line)?;
        self.source.push('\n')?;
        Ok(())
    }

    /// What the row gives.
    fn outcome(&mut self, alloc: Global, look: Look) -> Result<String, NoMemory> {
        let interfaces = mem::replace(&mut self.interfaces, Interfaces::new(alloc));
        let (env, owns) = interfaces.into_env("M")?;
        match parse(alloc, self.source.as_str())? {
            Err(error) => error_text(alloc, &error),
            Ok(module) => module_outcome(alloc, module, look, &env, &owns),
        }
    }

    fn end(&mut self, alloc: Global, want: &str, look: Look) -> Result<(), NoMemory> {
        self.count = self.count.saturating_add(1);
        let got = self.outcome(alloc, look)?;
        if got.as_str() == want {
            Ok(())
        } else {
            self.differ(got.as_str(), want)
        }
    }

    /// Notes what a row gave where it should have given something else.
    fn differ(&mut self, got: &str, want: &str) -> Result<(), NoMemory> {
        self.differing = self.differing.saturating_add(1);
        note_difference(&mut self.report, self.name.as_str(), got, want)
    }

    fn take(&mut self, alloc: Global, line: &str) -> Result<(), NoMemory> {
        if let Some(name) = line.strip_prefix("# ") {
            return self.begin(alloc, name);
        }
        if let Some(row) = line.strip_prefix(": ") {
            return self.interfaces.take(row);
        }
        if let Some(text) = line.strip_prefix("|") {
            return self.add(text);
        }
        if let Some(want) = line.strip_prefix("= ") {
            return self.end(alloc, want, Look::Resolved);
        }
        if let Some(want) = line.strip_prefix("f ") {
            return self.end(alloc, want, Look::Fixities);
        }
        if let Some(want) = line.strip_prefix("c ") {
            return self.end(alloc, want, Look::Closed);
        }
        if let Some(want) = line.strip_prefix("u ") {
            return self.end(alloc, want, Look::Uses);
        }
        if let Some(want) = line.strip_prefix("e ") {
            return self.end(alloc, want, Look::Exports);
        }
        if let Some(want) = line.strip_prefix("! ") {
            return self.end(alloc, want, Look::Uses);
        }
        Ok(())
    }
}

fn read_rows(alloc: Global, text: &str) -> Result<String, NoMemory> {
    let mut rows = Rows::new(alloc);
    for line in text.lines() {
        rows.take(alloc, line)?;
    }
    let Rows {
        count,
        differing,
        report,
        ..
    } = rows;
    Ok(format!(in alloc; "{}{} rows, {} differ", report, count, differing)?)
}

/// Whether the modules resolve, a line for each.
fn read_examples(rt: &HostRuntime, alloc: Global, names: &str) -> anyhow::Result<()> {
    let mut corpus = Corpus::new(alloc);
    for name in names.lines() {
        let path = format!(in alloc; "examples/{name}.purs")?;
        let source = fs::read_to_string(rt, path.as_str())?;
        rt.println(corpus.next(name, source.as_str())?)?;
    }
    Ok(())
}

fn main(rt: HostRuntime) -> anyhow::Result<()> {
    let alloc = rt.alloc();
    let rows = fs::read_to_string(&rt, "rows.txt")?;
    rt.println(read_rows(alloc, rows.as_str())?)?;
    let names = fs::read_to_string(&rt, "examples.txt")?;
    read_examples(&rt, alloc, names.as_str())
}
