//! Reads rows of a source and the tree or error line that it must give, and example modules that must parse whole.
//!
//! `rows.txt`: a line `# name` begins a row; lines `|text` are its source; then `= tree`, `@ tree with places` or
//! `! error line` says what the source must give. `parts.txt`: a line `kind want text` says of a type, an expression or a
//! binder whether the text is one, or how deep it nests. `examples.txt` names a file in each line.
//! Printed are the rows and parts that differ, their counts, and the examples with their declarations.
#![tactic(auto)]

use psc_ast::Module;
use psc_ast_text::module_text;
use psc_error::{PsError, error_line};
use psc_lex::{Tok, lex_layout};
use psc_parse_decl::{parse, parse_bytes};
use psc_parse_expr::{nesting, parse_binder, parse_expr, parse_type};
use psc_text::NoMemory;
use std::alloc::Global;
use std::{fs, io};

/// The path that error lines name.
const PATH: &str = "M.purs";

/// The row that is being read, and what was found so far.
#[derive(Drop)]
struct Rows {
    name: String,
    source: String,
    count: u32,
    differing: u32,
    /// What is printed of rows that differ.
    report: String,
}

/// What a source gave: the text of its tree or its error line.
fn outcome_text(
    alloc: Global,
    outcome: Result<Module, PsError>,
    places: bool,
) -> Result<String, NoMemory> {
    match outcome {
        Ok(module) => module_text(alloc, &module, places),
        Err(error) => {
            let line = error_line(alloc, &error, PATH)?;
            Ok(String::from_str(alloc, line.as_str())?)
        }
    }
}

impl Rows {
    fn new(alloc: Global) -> Rows {
        Rows {
            name: String::new(alloc),
            source: String::new(alloc),
            count: 0,
            differing: 0,
            report: String::new(alloc),
        }
    }

    fn begin(&mut self, alloc: Global, name: &str) -> Result<(), NoMemory> {
        self.name = String::from_str(alloc, name)?;
        self.source = String::new(alloc);
        Ok(())
    }

    fn add(&mut self, line: &str) -> Result<(), NoMemory> {
        self.source.push_str(line)?;
        self.source.push('\n')?;
        Ok(())
    }

    /// Notes what a row gave where it should have given something else.
    fn differ(&mut self, got: &str, want: &str) -> Result<(), NoMemory> {
        self.differing = self.differing.saturating_add(1);
        self.report.push_str(self.name.as_str())?;
        self.report.push_str("\n  got  ")?;
        self.report.push_str(got)?;
        self.report.push_str("\n  want ")?;
        self.report.push_str(want)?;
        self.report.push('\n')?;
        Ok(())
    }

    /// Parses the row's source and compares.
    fn end(&mut self, alloc: Global, want: &str, places: bool) -> Result<(), NoMemory> {
        self.count = self.count.saturating_add(1);
        let outcome = parse(alloc, self.source.as_str())?;
        let got = outcome_text(alloc, outcome, places)?;
        if got.as_str() == want {
            Ok(())
        } else {
            self.differ(got.as_str(), want)
        }
    }

    fn take(&mut self, alloc: Global, line: &str) -> Result<(), NoMemory> {
        if let Some(name) = line.strip_prefix("# ") {
            return self.begin(alloc, name);
        }
        if let Some(text) = line.strip_prefix("|") {
            return self.add(text);
        }
        if let Some(want) = line.strip_prefix("= ") {
            return self.end(alloc, want, false);
        }
        if let Some(want) = line.strip_prefix("@ ") {
            return self.end(alloc, want, true);
        }
        if let Some(want) = line.strip_prefix("! ") {
            return self.end(alloc, want, false);
        }
        Ok(())
    }
}

fn read_rows(alloc: Global, text: &str) -> Result<String, NoMemory> {
    let mut rows = Rows::new(alloc);
    for line in text.lines() {
        rows.take(alloc, line)?;
    }
    let Rows {
        count,
        differing,
        report,
        ..
    } = rows;
    Ok(format!(in alloc; "{}{} rows, {} differ", report, count, differing)?)
}

fn is_type(alloc: Global, toks: &[Tok]) -> Result<bool, NoMemory> {
    Ok(parse_type(alloc, toks)?.is_some())
}

fn is_expr(alloc: Global, toks: &[Tok]) -> Result<bool, NoMemory> {
    Ok(parse_expr(alloc, toks)?.is_some())
}

fn is_binder(alloc: Global, toks: &[Tok]) -> Result<bool, NoMemory> {
    Ok(parse_binder(alloc, toks)?.is_some())
}

fn yes_or_no(alloc: Global, answer: bool) -> Result<String, NoMemory> {
    Ok(String::from_str(alloc, if answer { "yes" } else { "no" })?)
}

fn depth_text(alloc: Global, toks: &[Tok]) -> Result<String, NoMemory> {
    let depth = nesting(alloc, toks)?;
    Ok(format!(in alloc; "{}", depth)?)
}

/// What a part of the grammar says of a text: `yes` or `no`, or how deep it nests.
fn part_text(alloc: Global, kind: &str, text: &str) -> Result<String, NoMemory> {
    let toks = lex_layout(alloc, text)?;
    let toks = toks.as_slice();
    match kind {
        "type" => yes_or_no(alloc, is_type(alloc, toks)?),
        "expr" => yes_or_no(alloc, is_expr(alloc, toks)?),
        "binder" => yes_or_no(alloc, is_binder(alloc, toks)?),
        _ => depth_text(alloc, toks),
    }
}

/// Appends what is printed of a line `kind want text`: nothing where the part says what it must.
fn report_part(alloc: Global, line: &str, out: &mut String) -> Result<(), NoMemory> {
    let (kind, rest) = line.split_once(' ').unwrap_or((line, ""));
    let (want, text) = rest.split_once(' ').unwrap_or((rest, ""));
    let got = part_text(alloc, kind, text)?;
    if got.as_str() == want {
        return Ok(());
    }
    for part in [line, "\n  got  ", got.as_str(), "\n"] {
        out.push_str(part)?;
    }
    Ok(())
}

fn read_parts(alloc: Global, text: &str) -> Result<String, NoMemory> {
    let mut out = String::new(alloc);
    let mut count: u32 = 0;
    for line in text.lines() {
        report_part(alloc, line, &mut out)?;
        count = count.saturating_add(1);
    }
    let end = format!(in alloc; "{} parts", count)?;
    out.push_str(end.as_str())?;
    Ok(out)
}

/// How many declarations an example has, or its error line.
fn example_text(alloc: Global, name: &str, text: &str) -> Result<String, NoMemory> {
    match parse(alloc, text)? {
        Ok(module) => {
            let (imports, decls) = (module.imports.len(), module.decls.len());
            Ok(format!(in alloc; "{}: {} imports, {} declarations", name, imports, decls)?)
        }
        Err(error) => {
            let line = error_line(alloc, &error, name)?;
            Ok(String::from_str(alloc, line.as_str())?)
        }
    }
}

fn or_memory(text: Result<String, NoMemory>, alloc: Global) -> String {
    match text {
        Ok(text) => text,
        Err(NoMemory) => String::new(alloc),
    }
}

fn not_text(alloc: Global) -> Result<String, NoMemory> {
    let outcome = parse_bytes(alloc, &[0xff])?;
    outcome_text(alloc, outcome, false)
}

fn main(rt: HostRuntime) -> io::Result<()> {
    let alloc = rt.alloc();
    rt.println(or_memory(not_text(alloc), alloc))?;
    let rows = fs::read_to_string(&rt, "rows.txt")?;
    rt.println(or_memory(read_rows(alloc, rows.as_str()), alloc))?;
    let parts = fs::read_to_string(&rt, "parts.txt")?;
    rt.println(or_memory(read_parts(alloc, parts.as_str()), alloc))?;
    let names = fs::read_to_string(&rt, "examples.txt")?;
    for name in names.lines() {
        let text = fs::read_to_string(&rt, name)?;
        rt.println(or_memory(example_text(alloc, name, text.as_str()), alloc))?;
    }
    Ok(())
}
