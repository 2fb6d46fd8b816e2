//! Each adapter over what it adapts, and each loop over a stream that moves a piece at a time.

use crate::folder_shelf::FolderShelf;
use crate::reading::read_whole;
use crate::real_files::RealFiles;
use crate::standard_output::WriterSink;
use crate::writing::write_whole;
use psc_outside::{Files, Put, ReadFile, Shelf, Sink};
use psc_text::Text;
use std::io::{self, ErrorKind, Read, Write};
use std::test::Fail;
use std::{env, fs, process};

/// A folder of this test alone.
fn scratch(rt: HostRuntime, name: &str) -> Result<String, Fail> {
    let folder = env::temp_dir(&rt)?;
    let id = process::id(rt.process());
    let folder = format!(in rt.alloc(); "{}/purs-{name}-{id}", folder.as_path().as_str())?;
    fs::create_dir_all(&rt, folder.as_str())?;
    Ok(folder)
}

/// Whether an answer is these bytes.
fn is_got(answer: &ReadFile, bytes: &[u8]) -> bool {
    match answer {
        ReadFile::Got(got) => got.as_slice() == bytes,
        ReadFile::Absent => false,
        ReadFile::Failed => false,
    }
}

#[test]
fn a_file_is_read_and_a_folder_is_a_fault(rt: HostRuntime) -> Result<(), Fail> {
    let alloc = rt.alloc();
    let folder = scratch(rt, "files")?;
    let path = format!(in alloc; "{}/M.purs", folder.as_str())?;
    let mut files = RealFiles::new(alloc, rt)?;
    assert!(rt; files.read(alloc, path.as_str())? == ReadFile::Absent);
    fs::write(&rt, path.as_str(), "module M where\n")?;
    assert!(rt; is_got(&files.read(alloc, path.as_str())?, b"module M where\n"));
    assert_eq!(rt; files.faults(), 0);
    assert!(rt; files.read(alloc, folder.as_str())? == ReadFile::Failed);
    assert_eq!(rt; files.faults(), 1);
    fs::remove_dir_all(&rt, folder.as_str())?;
    Ok(())
}

#[test]
fn a_shelf_makes_folders_and_leaves_no_neighbour(rt: HostRuntime) -> Result<(), Fail> {
    let alloc = rt.alloc();
    let folder = scratch(rt, "shelf")?;
    let mut shelf = FolderShelf::new(rt, Text::new(alloc, folder.as_str())?);
    assert!(rt; shelf.read(alloc, "M/corefn.json")? == ReadFile::Absent);
    assert!(rt; shelf.replace(alloc, "M/corefn.json", b"old")? == Put::Done);
    assert!(rt; shelf.replace(alloc, "M/corefn.json", b"new")? == Put::Done);
    assert!(rt; is_got(&shelf.read(alloc, "M/corefn.json")?, b"new"));
    assert!(rt; shelf.read(alloc, "M/corefn.json.new")? == ReadFile::Absent);
    assert!(rt; shelf.replace(alloc, "M/corefn.json/below", b"x")? == Put::Failed);
    assert_eq!(rt; shelf.faults(), 1);
    fs::remove_dir_all(&rt, folder.as_str())?;
    Ok(())
}

#[test]
fn a_replacement_that_fails_leaves_no_neighbour(rt: HostRuntime) -> Result<(), Fail> {
    let alloc = rt.alloc();
    let folder = scratch(rt, "fault")?;
    let taken = format!(in alloc; "{}/N/corefn.json", folder.as_str())?;
    fs::create_dir_all(&rt, taken.as_str())?;
    let mut shelf = FolderShelf::new(rt, Text::new(alloc, folder.as_str())?);
    assert!(rt; shelf.replace(alloc, "N/corefn.json", b"text")? == Put::Failed);
    assert!(rt; shelf.read(alloc, "N/corefn.json.new")? == ReadFile::Absent);
    assert_eq!(rt; shelf.faults(), 1);
    fs::remove_dir_all(&rt, folder.as_str())?;
    Ok(())
}

/// A writer that takes two bytes at a time, is interrupted first, and has room for so many in all.
#[derive(Drop)]
struct Dribble {
    calls: u64,
    room: usize,
    taken: Vec<u8>,
}

impl Write for Dribble {
    fn write(&mut self, piece: &[u8]) -> io::Result<usize> {
        self.calls = self.calls.saturating_add(1);
        if self.calls == 1 {
            return Err(io::Error::from(ErrorKind::Interrupted));
        }
        let fitting = piece.len().min(2).min(self.room);
        self.taken.extend_from_slice(&piece[..fitting])?;
        self.room -= fitting;
        Ok(fitting)
    }

    fn flush(&mut self) -> io::Result<()> {
        Ok(())
    }
}

#[test]
fn a_piece_is_written_whole_or_a_front_of_it(rt: HostRuntime) -> Result<(), Fail> {
    let mut writer = Dribble {
        calls: 0,
        room: 7,
        taken: Vec::new(rt.alloc()),
    };
    assert!(rt; write_whole(&mut writer, b"abcde").is_ok());
    assert!(rt; writer.taken.as_slice() == b"abcde".as_slice());
    assert!(rt; write_whole(&mut writer, b"fghij").is_err());
    assert!(rt; writer.taken.as_slice() == b"abcdefg".as_slice());
    assert!(rt; write_whole(&mut writer, b"").is_ok());
    Ok(())
}

#[test]
fn a_piece_that_is_not_taken_whole_is_a_fault(rt: HostRuntime) -> Result<(), Fail> {
    let alloc = rt.alloc();
    let mut sink = WriterSink::new(Dribble {
        calls: 0,
        room: 6,
        taken: Vec::new(alloc),
    });
    assert!(rt; sink.put(alloc, b"abcde")? == Put::Done);
    assert_eq!(rt; sink.faults(), 0);
    assert!(rt; sink.put(alloc, b"fg")? == Put::Failed);
    assert!(rt; sink.put(alloc, b"")? == Put::Done);
    assert_eq!(rt; sink.faults(), 1);
    Ok(())
}

/// A reader that gives two bytes at a time, is interrupted at its second call, and may fail at its end.
#[derive(Drop)]
struct Trickle {
    calls: u64,
    left: &'static [u8],
    fails: bool,
}

impl Read for Trickle {
    fn read(&mut self, room: &mut [u8]) -> io::Result<usize> {
        self.calls = self.calls.saturating_add(1);
        if self.calls == 2 {
            return Err(io::Error::from(ErrorKind::Interrupted));
        }
        if self.left.is_empty() && self.fails {
            return Err(io::Error::from(ErrorKind::UnexpectedEof));
        }
        let count = self.left.len().min(2).min(room.len());
        room[..count].copy_from_slice(&self.left[..count]);
        self.left = &self.left[count..];
        Ok(count)
    }
}

#[test]
fn a_stream_is_read_to_its_end_or_fails(rt: HostRuntime) -> Result<(), Fail> {
    let alloc = rt.alloc();
    let mut whole = Trickle {
        calls: 0,
        left: b"abcde".as_slice(),
        fails: false,
    };
    assert!(rt; is_got(&read_whole(alloc, &mut whole)?, b"abcde"));
    let mut broken = Trickle {
        calls: 0,
        left: b"abcde".as_slice(),
        fails: true,
    };
    assert!(rt; read_whole(alloc, &mut broken)? == ReadFile::Failed);
    Ok(())
}
