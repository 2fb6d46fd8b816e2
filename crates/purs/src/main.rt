//! The program `purs`: it hands its words, the system's files, the folder of results and standard output to the
//! compiler, and ends with the status that the compiler answers.
#![tactic(auto)]

mod folder_shelf;
mod reading;
mod real_files;
mod standard_output;
mod words;
mod writing;

use folder_shelf::FolderShelf;
use psc_outside::Status;
use psc_text::{NoMemory, Text};
use real_files::RealFiles;
use standard_output::WriterSink;
use std::process::ExitCode;
use words::words;

/// The folder that results are stored in.
const OUTPUT: &str = "output";

fn main(rt: HostRuntime) -> ExitCode {
    let status = match run(rt) {
        Ok(status) => status,
        Err(NoMemory) => Status::NoMemory,
    };
    ExitCode::from(status.number())
}

fn run(rt: HostRuntime) -> Result<Status, NoMemory> {
    let alloc = rt.alloc();
    let mut out = WriterSink::new(rt.stdout());
    let words = words(rt)?;
    let mut files = RealFiles::new(alloc, rt)?;
    let mut shelf = FolderShelf::new(rt, Text::new(alloc, OUTPUT)?);
    Ok(psc_top::compile_alone(alloc, words.as_slice(), &mut files, &mut shelf, &mut out))
}

#[cfg(test)]
mod tests;
