//! Reads rows of a source and what its operators must become, or what cycle its declarations must have.
//!
//! `rows.txt`: a line `# name` begins a row. Lines `|text` are its source, a line each; `>text` is text without its line end,
//! `*N text` is that text N times, and `+N text` that line N times. Then `= tree`, `@ tree with places`, `ok` or `! error line` says what the bracketed module
//! must be, `c error line` or `c none` what cycle it must have, and `g groups` what groups.
//! The operators of a row are those that it declares. Names stand for themselves, as no module but the row's own is there.
//! Printed are the rows that differ, and the counts.
#![tactic(auto)]

mod fixities;
mod rows;

use crate::rows::read_rows;
use psc_text::NoMemory;
use std::{fs, io};

fn main(rt: HostRuntime) -> io::Result<()> {
    let alloc = rt.alloc();
    let rows = fs::read_to_string(&rt, "rows.txt")?;
    match read_rows(alloc, rows.as_str()) {
        Ok(text) => rt.println(text),
        Err(NoMemory) => rt.println("out of memory"),
    }
}
