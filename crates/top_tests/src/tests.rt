//! Whole runs over files, a shelf and a sink in memory: the status, the whole text and what is stored.

use psc_outside::{MemFiles, MemShelf, MemSink, Status};
use psc_text::{NoMemory, Text};
use psc_top::compile_alone;
use std::alloc::Global;
use std::process::Abort;
use std::test::Fail;

/// A file under `Q.purs`, and what `compile Q.purs` makes of it.
struct Row {
    source: &'static [u8],
    status: u8,
    said: &'static str,
    stored: Option<(&'static str, &'static str)>,
}

const ACCEPTED: &str = "modules 1 errors 0 skipped 0\n";

/// Runs the command on these words.
fn compiled(
    alloc: Global,
    words: &[&str],
    files: &mut MemFiles,
    shelf: &mut MemShelf,
    out: &mut MemSink,
) -> Result<Status, NoMemory> {
    let mut texts = Vec::new(alloc);
    for word in words {
        texts.push(Text::new(alloc, word)?)?;
    }
    Ok(compile_alone(alloc, texts.as_slice(), files, shelf, out))
}

/// What the shelf holds under the name.
fn is_held(shelf: &MemShelf, name: &str, text: &str) -> bool {
    match shelf.held(name) {
        Some(bytes) => bytes.as_slice() == text.as_bytes(),
        None => false,
    }
}

fn check_row(rt: &impl Abort, alloc: Global, row: &Row) -> Result<(), Fail> {
    let mut files = MemFiles::new(alloc, "/home")?;
    files.hold(alloc, "Q.purs", row.source)?;
    let mut shelf = MemShelf::new(alloc);
    let mut out = MemSink::new(alloc);
    let words = ["compile", "Q.purs"];
    let status = compiled(alloc, words.as_slice(), &mut files, &mut shelf, &mut out)?;
    assert_eq!(rt; status.number(), row.status);
    assert!(rt; out.bytes() == row.said.as_bytes());
    match row.stored {
        Some((name, text)) => {
            assert_eq!(rt; shelf.calls().len(), 1);
            assert!(rt; is_held(&shelf, name, text));
        }
        None => assert!(rt; shelf.calls().is_empty()),
    }
    Ok(())
}

const FILES: [Row; 12] = [
    Row {
        source: b"module M where\nx = 1\n",
        status: 0,
        said: ACCEPTED,
        stored: Some((
            "M/corefn.json",
            "{\"builtWith\":\"0.15\",\"decls\":[{\"annotation\":{\"meta\":null,\"sourceSpan\":{\"end\":[2,6],\"start\":[2,1]}},\"bindType\":\"NonRec\",\"expression\":{\"annotation\":{\"meta\":null,\"sourceSpan\":{\"end\":[2,6],\"start\":[2,5]}},\"type\":\"Literal\",\"value\":{\"literalType\":\"IntLiteral\",\"value\":1}},\"identifier\":\"x\"}],\"exports\":[\"x\"],\"foreign\":[],\"imports\":[],\"moduleName\":[\"M\"],\"reExports\":{},\"sourceSpan\":{\"end\":[2,6],\"start\":[1,1]}}",
        )),
    },
    // Binds stand in the order of the lines, exports ascend, and a word that JavaScript reserves is
    // printed with `$$` before it.
    Row {
        source: b"module Abc2 where\nz = 2147483647\nnew = 0\n",
        status: 0,
        said: ACCEPTED,
        stored: Some((
            "Abc2/corefn.json",
            "{\"builtWith\":\"0.15\",\"decls\":[{\"annotation\":{\"meta\":null,\"sourceSpan\":{\"end\":[2,15],\"start\":[2,1]}},\"bindType\":\"NonRec\",\"expression\":{\"annotation\":{\"meta\":null,\"sourceSpan\":{\"end\":[2,15],\"start\":[2,5]}},\"type\":\"Literal\",\"value\":{\"literalType\":\"IntLiteral\",\"value\":2147483647}},\"identifier\":\"z\"},{\"annotation\":{\"meta\":null,\"sourceSpan\":{\"end\":[3,8],\"start\":[3,1]}},\"bindType\":\"NonRec\",\"expression\":{\"annotation\":{\"meta\":null,\"sourceSpan\":{\"end\":[3,8],\"start\":[3,7]}},\"type\":\"Literal\",\"value\":{\"literalType\":\"IntLiteral\",\"value\":0}},\"identifier\":\"new\"}],\"exports\":[\"$$new\",\"z\"],\"foreign\":[],\"imports\":[],\"moduleName\":[\"Abc2\"],\"reExports\":{},\"sourceSpan\":{\"end\":[3,8],\"start\":[1,1]}}",
        )),
    },
    Row {
        source: b"module M where\n",
        status: 0,
        said: ACCEPTED,
        stored: Some((
            "M/corefn.json",
            "{\"builtWith\":\"0.15\",\"decls\":[],\"exports\":[],\"foreign\":[],\"imports\":[],\"moduleName\":[\"M\"],\"reExports\":{},\"sourceSpan\":{\"end\":[1,15],\"start\":[1,1]}}",
        )),
    },
    // An empty file.
    Row {
        source: b"",
        status: 1,
        said: "Q.purs:1:1 OutsideProfile\nmodules 0 errors 1 skipped 0\n",
        stored: None,
    },
    // The last line has no line end.
    Row {
        source: b"module M where\nx = 1",
        status: 1,
        said: "Q.purs:2:1 OutsideProfile\nmodules 0 errors 1 skipped 0\n",
        stored: None,
    },
    Row {
        source: b"module M where\r\nx = 1\n",
        status: 1,
        said: "Q.purs:1:1 OutsideProfile\nmodules 0 errors 1 skipped 0\n",
        stored: None,
    },
    Row {
        source: b"module M where\nx = 1\r\n",
        status: 1,
        said: "Q.purs:2:1 OutsideProfile\nmodules 0 errors 1 skipped 0\n",
        stored: None,
    },
    // A second definition of a name.
    Row {
        source: b"module M where\nx = 1\ny = 2\nx = 1\n",
        status: 1,
        said: "Q.purs:4:1 OutsideProfile\nmodules 0 errors 1 skipped 0\n",
        stored: None,
    },
    Row {
        source: b"module M where\nx = 2147483648\n",
        status: 1,
        said: "Q.purs:2:1 OutsideProfile\nmodules 0 errors 1 skipped 0\n",
        stored: None,
    },
    Row {
        source: b"module M where\nx = 01\n",
        status: 1,
        said: "Q.purs:2:1 OutsideProfile\nmodules 0 errors 1 skipped 0\n",
        stored: None,
    },
    // A byte that is not UTF-8, between a line that is accepted and one that is refused.
    Row {
        source: b"module M where\nx = 1\n\xff = 2\nlet = 3\n",
        status: 1,
        said: "Q.purs:3:1 OutsideProfile\nmodules 0 errors 1 skipped 0\n",
        stored: None,
    },
    Row {
        source: b"module M where\n\nx = 1\n",
        status: 1,
        said: "Q.purs:2:1 OutsideProfile\nmodules 0 errors 1 skipped 0\n",
        stored: None,
    },
];

#[test]
fn files_give_their_status_report_and_text(rt: HostRuntime) -> Result<(), Fail> {
    for row in FILES.iter() {
        check_row(&rt, rt.alloc(), row)?;
    }
    Ok(())
}

/// Words over the file `P.purs` that has no line, and the whole text that they lead to.
fn check_words(
    rt: &impl Abort,
    alloc: Global,
    words: &[&str],
    status: u8,
    said: &str,
) -> Result<(), Fail> {
    let mut files = MemFiles::new(alloc, "/home")?;
    files.hold(alloc, "P.purs", b"".as_slice())?;
    let mut shelf = MemShelf::new(alloc);
    let mut out = MemSink::new(alloc);
    let answer = compiled(alloc, words, &mut files, &mut shelf, &mut out)?;
    assert_eq!(rt; answer.number(), status);
    assert!(rt; out.bytes() == said.as_bytes());
    assert!(rt; shelf.calls().is_empty());
    Ok(())
}

#[test]
fn other_words_are_refused_and_an_absent_file_is_told(rt: HostRuntime) -> Result<(), Fail> {
    let alloc = rt.alloc();
    check_words(&rt, alloc, [].as_slice(), 2, "purs: bad words\n")?;
    check_words(&rt, alloc, ["compile"].as_slice(), 2, "purs: bad words\n")?;
    check_words(
        &rt,
        alloc,
        ["build", "P.purs"].as_slice(),
        2,
        "purs: bad words\n",
    )?;
    check_words(
        &rt,
        alloc,
        ["compile", "P.purs", "P.purs"].as_slice(),
        2,
        "purs: bad words\n",
    )?;
    check_words(
        &rt,
        alloc,
        ["compile", "Q.purs"].as_slice(),
        3,
        "not found: Q.purs\n",
    )
}

#[test]
fn a_failed_reading_is_told(rt: HostRuntime) -> Result<(), Fail> {
    let alloc = rt.alloc();
    let mut files = MemFiles::new(alloc, "/home")?;
    files.hold(alloc, "Q.purs", b"module M where\n".as_slice())?;
    files.fail_read(1)?;
    let mut shelf = MemShelf::new(alloc);
    let mut out = MemSink::new(alloc);
    let words = ["compile", "Q.purs"];
    let status = compiled(alloc, words.as_slice(), &mut files, &mut shelf, &mut out)?;
    assert_eq!(rt; status.number(), 3);
    assert!(rt; out.bytes() == b"read fault: Q.purs\n".as_slice());
    Ok(())
}

#[test]
fn a_failed_replacement_leaves_the_sink_alone_and_the_next_run_stores(
    rt: HostRuntime,
) -> Result<(), Fail> {
    let alloc = rt.alloc();
    let mut files = MemFiles::new(alloc, "/home")?;
    files.hold(alloc, "Q.purs", b"module M where\n".as_slice())?;
    let mut shelf = MemShelf::new(alloc);
    shelf.fail_replace(1)?;
    let mut out = MemSink::new(alloc);
    let words = ["compile", "Q.purs"];
    let first = compiled(alloc, words.as_slice(), &mut files, &mut shelf, &mut out)?;
    assert_eq!(rt; first.number(), 4);
    assert!(rt; out.bytes().is_empty());
    assert!(rt; shelf.held("M/corefn.json").is_none());
    let second = compiled(alloc, words.as_slice(), &mut files, &mut shelf, &mut out)?;
    assert_eq!(rt; second.number(), 0);
    assert!(rt; out.bytes() == ACCEPTED.as_bytes());
    assert!(rt; shelf.held("M/corefn.json").is_some());
    Ok(())
}

#[test]
fn a_sink_that_fails_after_3_bytes_gives_4(rt: HostRuntime) -> Result<(), Fail> {
    let alloc = rt.alloc();
    let mut files = MemFiles::new(alloc, "/home")?;
    files.hold(alloc, "Q.purs", b"module M where\n".as_slice())?;
    let mut shelf = MemShelf::new(alloc);
    let mut out = MemSink::new(alloc);
    out.fail_after(3);
    let words = ["compile", "Q.purs"];
    let status = compiled(alloc, words.as_slice(), &mut files, &mut shelf, &mut out)?;
    assert_eq!(rt; status.number(), 4);
    assert!(rt; out.bytes() == b"mod".as_slice());
    assert!(rt; shelf.held("M/corefn.json").is_some());
    let words = ["compile"];
    let mut out = MemSink::new(alloc);
    out.fail_after(3);
    let status = compiled(alloc, words.as_slice(), &mut files, &mut shelf, &mut out)?;
    assert_eq!(rt; status.number(), 4);
    assert!(rt; out.bytes() == b"pur".as_slice());
    Ok(())
}
