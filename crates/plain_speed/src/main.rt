//! How long the plain form of a module takes, in microseconds.
//!
//! The argument is a file. It is read to a tree, which is not timed, and its plain form is made. Names stand for themselves, as
//! nothing resolves them before. One line is printed: the file, how many declarations of types and of values its plain form
//! has, and the microseconds, or the file and its error. Without an argument nothing is printed.
#![tactic(auto)]

use psc_ast::Module;
use psc_desugar::desugar;
use psc_error::{PsError, error_line};
use psc_parse_decl::parse;
use psc_text::NoMemory;
use std::alloc::Global;
use std::time::Instant;
use std::{env, fs};

/// How many declarations a plain form has, or the error of its module.
fn counted(alloc: Global, path: &str, module: Module) -> Result<String, NoMemory> {
    match desugar(alloc, module)? {
        Ok(plain) => {
            let (types, values) = (plain.types.len(), plain.values.len());
            Ok(format!(in alloc; "{} types {} values {}", path, types, values)?)
        }
        Err(error) => error_text(alloc, path, &error),
    }
}

fn error_text(alloc: Global, path: &str, error: &PsError) -> Result<String, NoMemory> {
    let line = error_line(alloc, error, path)?;
    Ok(String::from_str(alloc, line.as_str())?)
}

fn main(rt: HostRuntime) -> anyhow::Result<()> {
    let alloc = rt.alloc();
    let mut words = env::args(&rt)?.skip(1);
    let Some(path) = words.next() else {
        return Ok(());
    };
    let source = fs::read_to_string(&rt, path.as_str())?;
    let line = match parse(alloc, source.as_str())? {
        Ok(module) => {
            let start = Instant::now(&rt)?;
            let text = counted(alloc, path.as_str(), module)?;
            let took = start.elapsed(&rt)?.as_micros();
            format!(in alloc; "{} {}", text, took)?
        }
        Err(error) => error_text(alloc, path.as_str(), &error)?,
    };
    rt.println(line)?;
    Ok(())
}
