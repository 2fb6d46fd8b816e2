//! How long the names of a module take, in microseconds.
//!
//! The argument is a file. It is read to a tree, which is not timed, and its names are resolved, with no other module's
//! interface. One line is printed: the file, how many mentions and exports it has, and the microseconds, or the file and its
//! error. Without an argument nothing is printed.
#![tactic(auto)]

use psc_ast::Module;
use psc_error::{PsError, error_line};
use psc_names::resolve;
use psc_parse_decl::parse;
use psc_text::NoMemory;
use std::alloc::Global;
use std::time::Instant;
use std::{env, fs};

/// How many mentions and exports a module has, or its error.
fn counted(alloc: Global, path: &str, module: Module) -> Result<String, NoMemory> {
    match resolve(alloc, module, &[])? {
        Ok(found) => {
            let (uses, exports) = (found.uses.len(), found.exports.len());
            Ok(format!(in alloc; "{} uses {} exports {}", path, uses, exports)?)
        }
        Err(error) => error_text(alloc, path, &error),
    }
}

fn error_text(alloc: Global, path: &str, error: &PsError) -> Result<String, NoMemory> {
    let line = error_line(alloc, error, path)?;
    Ok(String::from_str(alloc, line.as_str())?)
}

fn main(rt: HostRuntime) -> anyhow::Result<()> {
    let alloc = rt.alloc();
    let mut words = env::args(&rt)?.skip(1);
    let Some(path) = words.next() else {
        return Ok(());
    };
    let source = fs::read_to_string(&rt, path.as_str())?;
    let line = match parse(alloc, source.as_str())? {
        Ok(module) => {
            let start = Instant::now(&rt)?;
            let text = counted(alloc, path.as_str(), module)?;
            let took = start.elapsed(&rt)?.as_micros();
            format!(in alloc; "{} {}", text, took)?
        }
        Err(error) => error_text(alloc, path.as_str(), &error)?,
    };
    rt.println(line)?;
    Ok(())
}
