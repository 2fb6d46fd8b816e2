//! A shelf in a folder of the system: each name is a path below it. It tells contracts nothing of what it holds.

ghost use Rattle.std.specs.Prelude.{false};
ghost use Rattle.psc_outside.specs.Contents.{nothing};

use crate::real_files::read_at;
use crate::writing::write_whole;
use psc_outside::{Put, ReadFile, Shelf, count_put, count_read};
use psc_text::{NoMemory, Text};
use std::alloc::Global;
use std::fs::{self, File};
use std::io;
use std::path::Path;

/// The files of a folder, with the count of the calls that failed.
#[derive(Drop)]
pub struct FolderShelf {
    rt: HostRuntime,
    folder: Text,
    faults: u64,
}

impl FolderShelf {
    /// The shelf of this folder, which the first replacement makes where it is missing.
    pub fn new(rt: HostRuntime, folder: Text) -> FolderShelf {
        FolderShelf {
            rt,
            folder,
            faults: 0,
        }
    }
}

impl Shelf for FolderShelf {
    ghost tells = { false };

    ghost held = { λ _. nothing };

    ghost faults = { λ s. s.faults };

    fn read(&mut self, alloc: Global, name: &str) -> Result<ReadFile, NoMemory> {
        let place = format!(in alloc; "{}/{name}", self.folder.as_str())?;
        let answer = read_at(self.rt, alloc, place.as_str())?;
        self.faults = count_read(self.faults, &answer);
        Ok(answer)
    }

    fn replace(&mut self, alloc: Global, name: &str, bytes: &[u8]) -> Result<Put, NoMemory> {
        let place = format!(in alloc; "{}/{name}", self.folder.as_str())?;
        let neighbour = format!(in alloc; "{}.new", place.as_str())?;
        let answer = match store(self.rt, place.as_str(), neighbour.as_str(), bytes) {
            Ok(()) => Put::Done,
            Err(_) => Put::Failed,
        };
        self.faults = count_put(self.faults, answer);
        Ok(answer)
    }

    fn faults(&self) -> u64 {
        self.faults
    }
}

/// Puts the bytes under the place, by way of the neighbour, which a fault leaves behind no more than a success does.
fn store(rt: HostRuntime, place: &str, neighbour: &str, bytes: &[u8]) -> io::Result<()> {
    if let Some(folder) = Path::new(place).parent() {
        fs::create_dir_all(&rt, folder)?;
    }
    let stored = write_and_rename(rt, place, neighbour, bytes);
    if stored.is_err() {
        let _ = fs::remove_file(&rt, neighbour);
    }
    stored
}

/// Writes the bytes to the neighbour and renames it over the place, so that no reader finds half of them there.
fn write_and_rename(rt: HostRuntime, place: &str, neighbour: &str, bytes: &[u8]) -> io::Result<()> {
    write_to(rt, neighbour, bytes)?;
    fs::rename(&rt, neighbour, place)
}

/// Writes a new file, which is closed then.
fn write_to(rt: HostRuntime, path: &str, bytes: &[u8]) -> io::Result<()> {
    let mut file = File::create(&rt, path)?;
    write_whole(&mut file, bytes)
}
