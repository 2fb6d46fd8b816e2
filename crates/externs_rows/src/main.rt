//! Reads texts of interface files and of places from rows, and prints what becomes of each.
//!
//! Of `rows.txt` a line `# name` is printed as it stands and begins a whole text. Lines `|text` are its
//! parts, and `externs` or `places` says what it is. Behind that, `? why`, `-old` and `+new` make
//! another text of it, with `new` in the place of the first mention of `old`; `~` appends a line end.
//! Printed is whether a text is read and written as the same bytes, or refused.
#![tactic(auto)]

use psc_externs_text::{read, read_places, write, write_places};
use psc_text::NoMemory;
use std::alloc::Global;
use std::{fs, io};

/// The whole text that others are made of, and what is printed so far.
#[derive(Drop)]
struct Rows {
    alloc: Global,
    whole: String,
    of_places: bool,
    why: String,
    old: String,
    out: String,
}

fn compared(text: &str, written: &str) -> &'static str {
    if text == written {
        "the same"
    } else {
        "another text"
    }
}

/// What becomes of the text of an interface file.
fn of_externs(alloc: Global, text: &str) -> Result<&'static str, NoMemory> {
    match read(alloc, text.as_bytes())? {
        Some(externs) => Ok(compared(text, write(alloc, &externs)?.as_str())),
        None => Ok("refused"),
    }
}

/// What becomes of the text of places.
fn of_places(alloc: Global, text: &str) -> Result<&'static str, NoMemory> {
    match read_places(alloc, text.as_bytes())? {
        Some(places) => Ok(compared(text, write_places(alloc, &places)?.as_str())),
        None => Ok("refused"),
    }
}

impl Rows {
    fn new(alloc: Global) -> Rows {
        Rows {
            alloc,
            whole: String::new(alloc),
            of_places: false,
            why: String::new(alloc),
            old: String::new(alloc),
            out: String::new(alloc),
        }
    }

    fn print(&mut self, line: &str) -> Result<(), NoMemory> {
        self.out.push_str(line)?;
        self.out.push('\n')?;
        Ok(())
    }

    /// Prints what becomes of the text, behind why it is tried.
    fn report(&mut self, text: &str) -> Result<(), NoMemory> {
        let fate = if self.of_places {
            of_places(self.alloc, text)?
        } else {
            of_externs(self.alloc, text)?
        };
        let line = format!(in self.alloc; "{}: {}", self.why.as_str(), fate)?;
        self.print(line.as_str())
    }

    fn begin(&mut self, line: &str) -> Result<(), NoMemory> {
        self.whole = String::new(self.alloc);
        self.print(line)
    }

    /// Ends the whole text.
    fn end(&mut self, of_places: bool) -> Result<(), NoMemory> {
        self.of_places = of_places;
        self.why = String::from_str(self.alloc, "whole")?;
        let text = String::from_str(self.alloc, self.whole.as_str())?;
        self.report(text.as_str())
    }

    fn with_line_end(&mut self) -> Result<(), NoMemory> {
        let text = format!(in self.alloc; "{}\n", self.whole.as_str())?;
        self.report(text.as_str())
    }

    fn with_new(&mut self, new: &str) -> Result<(), NoMemory> {
        let text = match self.whole.as_str().split_once(self.old.as_str()) {
            Some((before, behind)) => format!(in self.alloc; "{}{}{}", before, new, behind)?,
            None => return self.print("no such part"),
        };
        self.report(text.as_str())
    }

    fn change(&mut self, line: &str) -> Result<(), NoMemory> {
        if let Some(why) = line.strip_prefix("? ") {
            self.why = String::from_str(self.alloc, why)?;
        } else if let Some(old) = line.strip_prefix("-") {
            self.old = String::from_str(self.alloc, old)?;
        } else if let Some(new) = line.strip_prefix("+") {
            self.with_new(new)?;
        }
        Ok(())
    }

    fn take(&mut self, line: &str) -> Result<(), NoMemory> {
        if line.starts_with('#') {
            return self.begin(line);
        }
        if let Some(part) = line.strip_prefix("|") {
            self.whole.push_str(part)?;
            return Ok(());
        }
        match line {
            "externs" => self.end(false),
            "places" => self.end(true),
            "~" => self.with_line_end(),
            _ => self.change(line),
        }
    }
}

/// What is printed of the rows.
fn fates(alloc: Global, rows: &str) -> Result<String, NoMemory> {
    let mut taken = Rows::new(alloc);
    for line in rows.lines() {
        taken.take(line)?;
    }
    Ok(taken.out)
}

fn main(rt: HostRuntime) -> io::Result<()> {
    let alloc = rt.alloc();
    let rows = fs::read_to_string(&rt, "rows.txt")?;
    match fates(alloc, rows.as_str()) {
        Ok(text) => rt.print(text),
        Err(NoMemory) => println!(rt; "out of memory"),
    }
}
