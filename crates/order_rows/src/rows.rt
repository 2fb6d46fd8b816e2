//! Rows of a source and what it must give.

use crate::fixities::own_fixities;
use psc_ast::Module;
use psc_ast_text::module_text;
use psc_error::{PsError, error_line};
use psc_order::{are_declared, binding_groups, cycle_error, declaration_mentions, rebracket};
use psc_parse_decl::parse;
use psc_text::NoMemory;
use std::alloc::Global;

/// The path that error lines name.
const PATH: &str = "M.purs";

/// What a row asks of its source.
#[derive(Clone, Copy, Debug, PartialEq, Eq)]
enum Look {
    /// The text of its tree, without or with places.
    Tree { places: bool },
    /// Only whether it is accepted.
    Accepted,
    /// The declaration that needs itself.
    Cycle,
    /// The groups of its declarations.
    Groups,
}

/// The row that is being read, and what was found so far.
#[derive(Drop)]
struct Rows {
    name: String,
    source: String,
    count: u32,
    differing: u32,
    /// What is printed of rows that differ.
    report: String,
}

fn error_text(alloc: Global, error: &PsError) -> Result<String, NoMemory> {
    let line = error_line(alloc, error, PATH)?;
    Ok(String::from_str(alloc, line.as_str())?)
}

fn cycle_text(alloc: Global, module: &Module) -> Result<String, NoMemory> {
    let mentions = declaration_mentions(alloc, module)?;
    if !are_declared(&mentions) {
        return Ok(String::from_str(alloc, "a mention of no declaration")?);
    }
    let groups = binding_groups(alloc, &mentions)?;
    match cycle_error(alloc, &groups, module)? {
        Some(error) => error_text(alloc, &error),
        None => Ok(String::from_str(alloc, "none")?),
    }
}

/// The groups by the places of their declarations, with a `*` before those that mention themselves.
fn groups_text(alloc: Global, module: &Module) -> Result<String, NoMemory> {
    let mentions = declaration_mentions(alloc, module)?;
    let mut text = String::new(alloc);
    if !are_declared(&mentions) {
        return Ok(text);
    }
    for group in binding_groups(alloc, &mentions)? {
        if !text.is_empty() {
            text.push_str(" /")?;
        }
        text.push_str(if group.recursive { " *" } else { "" })?;
        for member in &group.members {
            let number = format!(in alloc; " {}", member)?;
            text.push_str(number.as_str())?;
        }
    }
    Ok(text)
}

fn tree_text(alloc: Global, module: &Module, look: Look) -> Result<String, NoMemory> {
    match look {
        Look::Tree { places } => module_text(alloc, module, places),
        Look::Accepted => Ok(String::from_str(alloc, "ok")?),
        Look::Cycle => cycle_text(alloc, module),
        Look::Groups => groups_text(alloc, module),
    }
}

fn bracketed_text(alloc: Global, module: Module, look: Look) -> Result<String, NoMemory> {
    let fixities = own_fixities(alloc, &module)?;
    match rebracket(alloc, module, &fixities)? {
        Ok(module) => tree_text(alloc, &module, look),
        Err(error) => error_text(alloc, &error),
    }
}

/// Notes in the report what a row gave where it should have given something else.
fn note_difference(report: &mut String, name: &str, got: &str, want: &str) -> Result<(), NoMemory> {
    report.push_str(name)?;
    report.push_str("\n  got  ")?;
    report.push_str(got)?;
    report.push_str("\n  want ")?;
    report.push_str(want)?;
    report.push('\n')?;
    Ok(())
}

impl Rows {
    fn new(alloc: Global) -> Rows {
        Rows {
            name: String::new(alloc),
            source: String::new(alloc),
            count: 0,
            differing: 0,
            report: String::new(alloc),
        }
    }

    fn begin(&mut self, alloc: Global, name: &str) -> Result<(), NoMemory> {
        self.name = String::from_str(alloc, name)?;
        self.source = String::new(alloc);
        Ok(())
    }

    fn add_line(&mut self, line: &str) -> Result<(), NoMemory> {
        self.source.push_str(line)?;
        self.source.push('\n')?;
        Ok(())
    }

    /// Adds a text as often as the number before it says.
    fn add_times(&mut self, line: &str) -> Result<(), NoMemory> {
        let (number, text) = line.split_once(' ').unwrap_or((line, ""));
        let times: u32 = number.parse().unwrap_or(0);
        for _ in 0..times {
            self.source.push_str(text)?;
        }
        Ok(())
    }

    /// Adds a line as often as the number before it says.
    fn add_lines(&mut self, line: &str) -> Result<(), NoMemory> {
        let (number, text) = line.split_once(' ').unwrap_or((line, ""));
        let times: u32 = number.parse().unwrap_or(0);
        for _ in 0..times {
            self.add_line(text)?;
        }
        Ok(())
    }

    /// What the row's source gives.
    fn outcome(&self, alloc: Global, look: Look) -> Result<String, NoMemory> {
        match parse(alloc, self.source.as_str())? {
            Err(error) => error_text(alloc, &error),
            Ok(module) => bracketed_text(alloc, module, look),
        }
    }

    fn end(&mut self, alloc: Global, want: &str, look: Look) -> Result<(), NoMemory> {
        let got = self.outcome(alloc, look)?;
        self.compare(got.as_str(), want)
    }

    fn compare(&mut self, got: &str, want: &str) -> Result<(), NoMemory> {
        self.count = self.count.saturating_add(1);
        if got == want {
            Ok(())
        } else {
            self.differ(got, want)
        }
    }

    /// Notes what a row gave where it should have given something else.
    fn differ(&mut self, got: &str, want: &str) -> Result<(), NoMemory> {
        self.differing = self.differing.saturating_add(1);
        note_difference(&mut self.report, self.name.as_str(), got, want)
    }

    /// Reads a line that adds to the row's source, or one that says what it must give.
    fn take(&mut self, alloc: Global, line: &str) -> Result<(), NoMemory> {
        if let Some(name) = line.strip_prefix("# ") {
            return self.begin(alloc, name);
        }
        if let Some(text) = line.strip_prefix("|") {
            return self.add_line(text);
        }
        if let Some(text) = line.strip_prefix(">") {
            self.source.push_str(text)?;
            return Ok(());
        }
        if let Some(text) = line.strip_prefix("*") {
            return self.add_times(text);
        }
        if let Some(text) = line.strip_prefix("+") {
            return self.add_lines(text);
        }
        self.take_want(alloc, line)
    }

    fn take_want(&mut self, alloc: Global, line: &str) -> Result<(), NoMemory> {
        if let Some(want) = line.strip_prefix("= ") {
            return self.end(alloc, want, Look::Tree { places: false });
        }
        if let Some(want) = line.strip_prefix("@ ") {
            return self.end(alloc, want, Look::Tree { places: true });
        }
        if let Some(want) = line.strip_prefix("! ") {
            return self.end(alloc, want, Look::Accepted);
        }
        if let Some(want) = line.strip_prefix("c ") {
            return self.end(alloc, want, Look::Cycle);
        }
        if let Some(want) = line.strip_prefix("g ") {
            return self.end(alloc, want, Look::Groups);
        }
        if line == "ok" {
            return self.end(alloc, "ok", Look::Accepted);
        }
        Ok(())
    }
}

/// The rows that differ, and how many there are.
pub(crate) fn read_rows(alloc: Global, text: &str) -> Result<String, NoMemory> {
    let mut rows = Rows::new(alloc);
    for line in text.lines() {
        rows.take(alloc, line)?;
    }
    let Rows {
        count,
        differing,
        report,
        ..
    } = rows;
    Ok(format!(in alloc; "{}{} rows, {} differ", report, count, differing)?)
}
