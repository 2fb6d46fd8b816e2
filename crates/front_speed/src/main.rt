//! How long the front takes for a source, in microseconds.
//!
//! The arguments are a phase and a file. The phase `lex` goes from the text to tokens with their blocks, and `parse` to
//! the tree of the module or its error. One line is printed: the file, its bytes, how many tokens or declarations it has, the
//! phase and its microseconds. Without arguments nothing is printed.
#![tactic(auto)]

use psc_lex::lex_layout;
use psc_parse_decl::parse;
use psc_text::NoMemory;
use std::alloc::Global;
use std::time::Instant;
use std::{env, fs};

/// Does the phase, and answers how many tokens or declarations the source has; none where it has an error.
fn count(alloc: Global, phase: &str, source: &str) -> Result<usize, NoMemory> {
    if phase == "lex" {
        return Ok(lex_layout(alloc, source)?.len());
    }
    match parse(alloc, source)? {
        Ok(module) => Ok(module.decls.len()),
        Err(_) => Ok(0),
    }
}

fn main(rt: HostRuntime) -> anyhow::Result<()> {
    let alloc = rt.alloc();
    let mut words = env::args(&rt)?.skip(1);
    if let (Some(phase), Some(path)) = (words.next(), words.next()) {
        let source = fs::read_to_string(&rt, path.as_str())?;
        let start = Instant::now(&rt)?;
        let parts = count(alloc, phase.as_str(), source.as_str())?;
        let took = start.elapsed(&rt)?.as_micros();
        let bytes = source.len();
        rt.println(format!(in alloc;
            "{} bytes {} parts {} {} {}",
            path, bytes, parts, phase, took
        )?)?;
    }
    Ok(())
}
