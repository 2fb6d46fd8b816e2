//! The files of the system. They tell contracts nothing of what they hold.

ghost use Rattle.std.specs.Prelude.{false, IfOk};
ghost use Rattle.psc_outside.specs.Contents.{nothing, IsInLimit};

use crate::reading::read_whole;
use psc_outside::{Files, ReadFile, count_read};
use psc_text::{NoMemory, Text};
use std::alloc::Global;
use std::env;
use std::fs::File;
use std::io::ErrorKind;

/// The system's files, with the count of the readings that failed.
#[derive(Drop)]
pub struct RealFiles {
    rt: HostRuntime,
    folder: Text,
    faults: u64,
}

impl RealFiles {
    /// The files as seen from the folder in which the process runs.
    pub fn new(alloc: Global, rt: HostRuntime) -> Result<RealFiles, NoMemory> {
        let folder = match env::current_dir(&rt) {
            Ok(folder) => Text::new(alloc, folder.as_path().as_str())?,
            Err(_) => Text::new(alloc, ".")?,
        };
        Ok(RealFiles {
            rt,
            folder,
            faults: 0,
        })
    }
}

impl Files for RealFiles {
    ghost tells = { false };

    ghost held = { λ _. nothing };

    ghost folder = { λ f. f.folder };

    ghost faults = { λ f. f.faults };

    fn read(&mut self, alloc: Global, path: &str) -> Result<ReadFile, NoMemory> {
        let answer = read_at(self.rt, alloc, path)?;
        self.faults = count_read(self.faults, &answer);
        Ok(answer)
    }

    fn cwd(&self) -> &Text {
        &self.folder
    }

    fn faults(&self) -> u64 {
        self.faults
    }
}

/// Reads a whole file of the system: `Absent` where there is none, `Failed` at any other error, as at a folder.
pub fn read_at(rt: HostRuntime, alloc: Global, path: &str) -> Result<ReadFile, NoMemory>
    ensures in_limit { IfOk result IsInLimit }
{
    match File::open(&rt, path) {
        Ok(mut file) => read_whole(alloc, &mut file),
        Err(error) if error.kind() == ErrorKind::NotFound => Ok(ReadFile::Absent),
        Err(_) => Ok(ReadFile::Failed),
    }
}
