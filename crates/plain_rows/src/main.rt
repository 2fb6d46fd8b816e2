//! Reads rows of a source and the plain form that it must have, or the error line.
//!
//! `rows.txt`: a line `# name` begins a row; lines `|text` are its source; then `= tree`, `@ tree with places` or
//! `! error line` says what it must give. Names stand for themselves here: nothing resolves them before, so a statement's value
//! is written as the call that resolving makes of it. Printed are the rows that differ, and the counts.
#![tactic(auto)]

use psc_desugar::desugar;
use psc_error::{PsError, error_line};
use psc_parse_decl::parse;
use psc_plain_text::plain_text;
use psc_text::NoMemory;
use std::alloc::Global;
use std::{fs, io};

/// The path that error lines name.
const PATH: &str = "M.purs";

/// The row that is being read, and what was found so far.
#[derive(Drop)]
struct Rows {
    name: String,
    source: String,
    count: u32,
    differing: u32,
    /// What is printed of rows that differ.
    report: String,
}

fn error_text(alloc: Global, error: &PsError) -> Result<String, NoMemory> {
    let line = error_line(alloc, error, PATH)?;
    Ok(String::from_str(alloc, line.as_str())?)
}

/// The text of a source's plain form, or its error line.
fn outcome_text(alloc: Global, source: &str, places: bool) -> Result<String, NoMemory> {
    match parse(alloc, source)? {
        Err(error) => error_text(alloc, &error),
        Ok(module) => match desugar(alloc, module)? {
            Err(error) => error_text(alloc, &error),
            Ok(plain) => plain_text(alloc, &plain, places),
        },
    }
}

/// Notes in the report what a row gave where it should have given something else.
fn note_difference(report: &mut String, name: &str, got: &str, want: &str) -> Result<(), NoMemory> {
    report.push_str(name)?;
    report.push_str("\n  got  ")?;
    report.push_str(got)?;
    report.push_str("\n  want ")?;
    report.push_str(want)?;
    report.push('\n')?;
    Ok(())
}

impl Rows {
    fn new(alloc: Global) -> Rows {
        Rows {
            name: String::new(alloc),
            source: String::new(alloc),
            count: 0,
            differing: 0,
            report: String::new(alloc),
        }
    }

    fn begin(&mut self, alloc: Global, name: &str) -> Result<(), NoMemory> {
        self.name = String::from_str(alloc, name)?;
        self.source = String::new(alloc);
        Ok(())
    }

    fn add(&mut self, line: &str) -> Result<(), NoMemory> {
        self.source.push_str(line)?;
        self.source.push('\n')?;
        Ok(())
    }

    /// Notes what a row gave where it should have given something else.
    fn differ(&mut self, got: &str, want: &str) -> Result<(), NoMemory> {
        self.differing = self.differing.saturating_add(1);
        note_difference(&mut self.report, self.name.as_str(), got, want)
    }

    /// Compares what the row's source gives.
    fn end(&mut self, alloc: Global, want: &str, places: bool) -> Result<(), NoMemory> {
        self.count = self.count.saturating_add(1);
        let got = outcome_text(alloc, self.source.as_str(), places)?;
        if got.as_str() == want {
            Ok(())
        } else {
            self.differ(got.as_str(), want)
        }
    }

    fn take(&mut self, alloc: Global, line: &str) -> Result<(), NoMemory> {
        if let Some(name) = line.strip_prefix("# ") {
            return self.begin(alloc, name);
        }
        if let Some(text) = line.strip_prefix("|") {
            return self.add(text);
        }
        if let Some(want) = line.strip_prefix("= ") {
            return self.end(alloc, want, false);
        }
        if let Some(want) = line.strip_prefix("@ ") {
            return self.end(alloc, want, true);
        }
        if let Some(want) = line.strip_prefix("! ") {
            return self.end(alloc, want, false);
        }
        Ok(())
    }
}

fn read_rows(alloc: Global, text: &str) -> Result<String, NoMemory> {
    let mut rows = Rows::new(alloc);
    for line in text.lines() {
        rows.take(alloc, line)?;
    }
    let Rows {
        count,
        differing,
        report,
        ..
    } = rows;
    Ok(format!(in alloc; "{}{} rows, {} differ", report, count, differing)?)
}

fn main(rt: HostRuntime) -> io::Result<()> {
    let alloc = rt.alloc();
    let rows = fs::read_to_string(&rt, "rows.txt")?;
    match read_rows(alloc, rows.as_str()) {
        Ok(text) => rt.println(text)?,
        Err(NoMemory) => rt.println("out of memory")?,
    }
    Ok(())
}
