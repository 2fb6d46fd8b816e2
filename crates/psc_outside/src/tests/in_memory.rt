//! The objects in memory: each call on its happy path, and each kind of failing call.

use crate::tests::through_bounds::{keep, put_both};
use crate::{Files, MemFiles, MemShelf, MemSink, Put, ReadFile, Shelf, ShelfCall, Sink};
use psc_text::NoMemory;
use std::alloc::Global;
use std::test::Fail;

/// The bytes that a reading gave, or a word in parentheses.
fn answered(answer: &ReadFile) -> &[u8] {
    match answer {
        ReadFile::Got(bytes) => bytes.as_slice(),
        ReadFile::Absent => b"(absent)",
        ReadFile::Failed => b"(failed)",
    }
}

fn is_done(answer: Put) -> bool {
    match answer {
        Put::Done => true,
        Put::Failed => false,
    }
}

/// Whether each path reads as wanted, with so many faults after it.
fn read_all(
    alloc: Global,
    files: &mut MemFiles,
    readings: &[(&str, &[u8], u64)],
) -> Result<bool, NoMemory> {
    for (path, want, faults) in readings {
        let answer = files.read(alloc, path)?;
        if answered(&answer) != *want || files.faults() != *faults {
            return Ok(false);
        }
    }
    Ok(true)
}

#[test]
fn files_give_what_they_hold(rt: HostRuntime) -> Result<(), Fail> {
    let alloc = rt.alloc();
    let mut files = MemFiles::new(alloc, "/here")?;
    files.hold(alloc, "M.purs", b"old")?;
    files.hold(alloc, "N.purs", b"")?;
    files.hold(alloc, "M.purs", b"module M where")?;
    files.fail_read(2)?;
    let readings: [(&str, &[u8], u64); 4] = [
        ("M.purs", b"module M where", 0),
        ("M.purs", b"(failed)", 1),
        ("N.purs", b"", 1),
        ("Q.purs", b"(absent)", 1),
    ];
    assert!(rt; read_all(alloc, &mut files, &readings)?);
    assert_eq!(rt; files.cwd().as_str(), "/here");
    Ok(())
}

/// A call of a shelf, and what it is to answer.
#[derive(Clone, Copy)]
enum Call {
    Read(&'static str, &'static [u8]),
    Replace(&'static str, &'static [u8], Put),
}

/// Whether a call answers as wanted.
fn answers(alloc: Global, shelf: &mut MemShelf, call: &Call) -> Result<bool, NoMemory> {
    match call {
        Call::Read(name, want) => {
            let answer = shelf.read(alloc, name)?;
            Ok(answered(&answer) == *want)
        }
        Call::Replace(name, bytes, want) => {
            let answer = shelf.replace(alloc, name, bytes)?;
            Ok(answer == *want)
        }
    }
}

fn all_answer(alloc: Global, shelf: &mut MemShelf, calls: &[Call]) -> Result<bool, NoMemory> {
    for call in calls {
        if !answers(alloc, shelf, call)? {
            return Ok(false);
        }
    }
    Ok(true)
}

#[test]
fn a_shelf_keeps_what_was_put_last(rt: HostRuntime) -> Result<(), Fail> {
    let mut shelf = MemShelf::new(rt.alloc());
    let calls = [
        Call::Read("M/corefn.json", b"(absent)"),
        Call::Replace("M/corefn.json", b"old", Put::Done),
        Call::Replace("N/corefn.json", b"other", Put::Done),
        Call::Replace("M/corefn.json", b"new", Put::Done),
        Call::Read("M/corefn.json", b"new"),
        Call::Read("N/corefn.json", b"other"),
    ];
    assert!(rt; all_answer(rt.alloc(), &mut shelf, &calls)?);
    assert_eq!(rt; shelf.faults(), 0);
    Ok(())
}

/// Whether a call was noted under this name, and whether it stored.
fn is_noted(call: &ShelfCall, wanted: &(&str, bool)) -> bool {
    match call {
        ShelfCall::Read { name, .. } => name.as_str() == wanted.0 && !wanted.1,
        ShelfCall::Replace {
            name,
            is_stored,
            ..
        } => name.as_str() == wanted.0 && *is_stored == wanted.1,
    }
}

#[test]
fn a_replacement_fails_before_or_after_it_stores(rt: HostRuntime) -> Result<(), Fail> {
    let mut shelf = MemShelf::new(rt.alloc());
    shelf.fail_replace(2)?;
    shelf.fail_replace_late(3)?;
    shelf.fail_read(3)?;
    let calls = [
        Call::Replace("a", b"1", Put::Done),
        Call::Replace("a", b"2", Put::Failed),
        Call::Read("a", b"1"),
        Call::Replace("a", b"3", Put::Failed),
        Call::Read("a", b"3"),
        Call::Read("a", b"(failed)"),
        Call::Read("b", b"(absent)"),
    ];
    assert!(rt; all_answer(rt.alloc(), &mut shelf, &calls)?);
    assert_eq!(rt; shelf.faults(), 3);
    let noted = [
        ("a", true),
        ("a", false),
        ("a", false),
        ("a", true),
        ("a", false),
        ("a", false),
        ("b", false),
    ];
    assert_eq!(rt; shelf.calls().len(), noted.len());
    assert!(rt;
        shelf
            .calls()
            .iter()
            .zip(&noted)
            .all(|(call, wanted)| is_noted(call, wanted))
    );
    Ok(())
}

/// Whether each piece is taken as wanted, up to these bytes in all.
fn put_all(
    alloc: Global,
    sink: &mut MemSink,
    pieces: &[(&[u8], Put, &[u8])],
) -> Result<bool, NoMemory> {
    for (piece, want, taken) in pieces {
        let answer = sink.put(alloc, piece)?;
        if answer != *want || sink.bytes() != *taken {
            return Ok(false);
        }
    }
    Ok(true)
}

#[test]
fn a_sink_takes_pieces_until_it_fails(rt: HostRuntime) -> Result<(), Fail> {
    let mut sink = MemSink::new(rt.alloc());
    sink.fail_after(5);
    sink.fail_put(4)?;
    let pieces: [(&[u8], Put, &[u8]); 6] = [
        (b"ab", Put::Done, b"ab"),
        (b"", Put::Done, b"ab"),
        (b"cd", Put::Done, b"abcd"),
        (b"e", Put::Failed, b"abcd"),
        (b"fgh", Put::Failed, b"abcdf"),
        (b"", Put::Done, b"abcdf"),
    ];
    assert!(rt; put_all(rt.alloc(), &mut sink, &pieces)?);
    assert_eq!(rt; sink.faults(), 2);
    Ok(())
}

#[test]
fn callers_through_the_bounds_run_on_objects_in_memory(rt: HostRuntime) -> Result<(), Fail> {
    let alloc = rt.alloc();
    let mut sink = MemSink::new(alloc);
    assert!(rt; put_both(alloc, &mut sink, b"one ", b"two")?);
    assert_eq!(rt; sink.bytes(), b"one two".as_slice());
    let mut files = MemFiles::new(alloc, "")?;
    let mut shelf = MemShelf::new(alloc);
    files.hold(alloc, "M.purs", b"text")?;
    assert!(rt; keep(alloc, &mut files, &mut shelf, "M.purs")?);
    assert!(rt; answers(alloc, &mut shelf, &Call::Read("M.purs", b"text"))?);
    Ok(())
}
