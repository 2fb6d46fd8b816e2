//! Whole modules that import one another, each in the interfaces of those before it.

use crate::own::interface_of;
use psc_ast::Module;
use psc_error::{PsError, error_line};
use psc_externs::Externs;
use psc_names::resolve;
use psc_parse_decl::parse;
use psc_text::NoMemory;
use std::alloc::Global;

/// The interfaces of the modules so far.
#[derive(Drop)]
pub(crate) struct Corpus {
    alloc: Global,
    env: Vec<Externs>,
}

impl Corpus {
    pub(crate) fn new(alloc: Global) -> Corpus {
        Corpus {
            alloc,
            env: Vec::new(alloc),
        }
    }

    /// Whether a module's names resolve, or its error. Its interface comes to the others.
    pub(crate) fn next(&mut self, name: &str, source: &str) -> Result<String, NoMemory> {
        match parse(self.alloc, source)? {
            Ok(module) => self.add(name, module),
            Err(error) => error_text(self.alloc, &error, name),
        }
    }

    fn add(&mut self, name: &str, module: Module) -> Result<String, NoMemory> {
        let alloc = self.alloc;
        match resolve(alloc, module, &self.env)? {
            Ok(resolved) => {
                self.env.push(interface_of(alloc, resolved)?)?;
                Ok(format!(in alloc; "{name} resolves")?)
            }
            Err(error) => error_text(alloc, &error, name),
        }
    }
}

fn error_text(alloc: Global, error: &PsError, path: &str) -> Result<String, NoMemory> {
    let line = error_line(alloc, error, path)?;
    Ok(String::from_str(alloc, line.as_str())?)
}
