//! `compile FILE`: from the words to the stored CoreFn of a module of integer bindings.
//!
//! The steps stand in their order: the words, the reading of the file, its lines, the shelf, the sink.
//! A fault of the shelf or the sink ends the run, and nothing is put to the sink after it.

ghost use Rattle.std.specs.Prelude.{◌≡◌, ◌≢◌, ◌⊎◌, ℕ, ◌<◌, ◌≤◌, ◌^◌, List, length, Some, None, IsTrue, IfOk};
ghost use Rattle.psc_outside.specs.Faults.{Rose};
ghost use Rattle.psc_top.specs.Causes.{IsUnlessFault, IsUnreadable, IsFileOf, IsRefused, IsSource};
ghost use Rattle.psc_outside.specs.declared.read_file.ReadFile.{ReadFile};
ghost use Rattle.psc_top.specs.Run as run;
ghost use Rattle.psc_top.specs.Reading as reading;
ghost use Rattle.psc_top.specs.Calls.{Says, Makes, ReadsFile, HasRun};

use crate::core_module::core_module_of;
use crate::report::{file_word, not_found, read_fault, refusal, stored_name};
use crate::source::{Source, source_of};
use psc_corefn::corefn_text;
use psc_outside::{Files, Put, ReadFile, Shelf, Sink, Status};
use psc_text::{NoMemory, Text};
use std::alloc::Global;

/// Puts a text to the sink: the status is the given one, or tells of the fault.
fn say<K: Sink>(alloc: Global, out: &mut K, text: &str, status: Status) -> Result<Status, NoMemory>
    ensures { IfOk result (λ answer. Says K.tells K.taken K.faults out.old out.new text.now status answer) }
{
    match out.put(alloc, text.as_bytes())? {
        Put::Done => Ok(status),
        Put::Failed => Ok(Status::NotStored),
    }
}

/// Stores the CoreFn text of a source, and then reports that its module is accepted.
fn keep<S: Shelf, K: Sink>(
    alloc: Global,
    source: Source,
    shelf: &mut S,
    out: &mut K,
) -> Result<Status, NoMemory>
    ensures { IfOk result (λ answer. Makes S.tells S.held S.faults K.tells K.taken K.faults
        shelf.old shelf.new out.old out.new (run.accepted source) answer) }
{
    let name = stored_name(alloc, &source.name)?;
    let text = corefn_text(alloc, &core_module_of(alloc, source)?)?;
    match shelf.replace(alloc, name.as_str(), text.as_str().as_bytes())? {
        Put::Done => say(
            alloc,
            out,
            "modules 1 errors 0 skipped 0\n",
            Status::Accepted,
        ),
        Put::Failed => Ok(Status::NotStored),
    }
}

/// Compiles the bytes of the file under the path.
fn compile_bytes<S: Shelf, K: Sink>(
    alloc: Global,
    path: &str,
    bytes: &[u8],
    shelf: &mut S,
    out: &mut K,
) -> Result<Status, NoMemory>
    requires { length bytes.now ≤ 2 ^ 30 }
    ensures { IfOk result (λ answer. Makes S.tells S.held S.faults K.tells K.taken K.faults
        shelf.old shelf.new out.old out.new (run.of_source path.now (reading.source_of bytes.now)) answer) }
{
    match source_of(alloc, bytes)? {
        Ok(source) => keep(alloc, source, shelf, out),
        Err(refused) => {
            let report = refusal(alloc, path, refused)?;
            say(alloc, out, report.as_str(), Status::Errors)
        }
    }
}

/// Reads the file under the path, and compiles it.
fn compile_file<F: Files, S: Shelf, K: Sink>(
    alloc: Global,
    path: &str,
    files: &mut F,
    shelf: &mut S,
    out: &mut K,
) -> Result<Status, NoMemory>
    ensures ran { IfOk result (λ answer. (found : ReadFile)
        × ReadsFile F.tells F.held F.faults files.old files.new path.now found
        × Makes S.tells S.held S.faults K.tells K.taken K.faults shelf.old shelf.new out.old out.new (run.of_answer path.now found) answer) }
    ensures keeps_files { (F.held files.new ≡ F.held files.old) × (F.folder files.new ≡ F.folder files.old) }
{
    match files.read(alloc, path)? {
        ReadFile::Got(bytes) => {
            let status = compile_bytes(alloc, path, bytes.as_slice(), shelf, out)?;
            Ok(status)
        }
        ReadFile::Absent => {
            let text = not_found(alloc, path)?;
            say(alloc, out, text.as_str(), Status::Unreadable)
        }
        ReadFile::Failed => {
            let text = read_fault(alloc, path)?;
            say(alloc, out, text.as_str(), Status::Unreadable)
        }
    }
}

/// A whole run, which want of memory may end.
fn run<F: Files, S: Shelf, K: Sink>(
    alloc: Global,
    words: &[Text],
    files: &mut F,
    shelf: &mut S,
    out: &mut K,
) -> Result<Status, NoMemory>
    ensures ran { IfOk result (λ answer. HasRun F.tells F.held F.faults S.tells S.held S.faults K.tells K.taken K.faults
        files.old files.new shelf.old shelf.new out.old out.new words.now answer) }
    ensures keeps_files { (F.held files.new ≡ F.held files.old) × (F.folder files.new ≡ F.folder files.old) }
{
    match file_word(words) {
        Some(path) => compile_file(alloc, path.as_str(), files, shelf, out),
        None => say(alloc, out, "purs: bad words\n", Status::BadWords),
    }
}

/// Compiles the file that the words name, and stores its CoreFn text on the shelf.
///
/// The words are `compile` and a file word, as they stand in the call.
pub fn compile_alone<F: Files, S: Shelf, K: Sink>(
    alloc: Global,
    words: &[Text],
    files: &mut F,
    shelf: &mut S,
    out: &mut K,
) -> Status
    ensures ran { result ≢ Status.NoMemory → HasRun F.tells F.held F.faults S.tells S.held S.faults K.tells K.taken K.faults
        files.old files.new shelf.old shelf.new out.old out.new words.now result }

    // 2 exactly where the words are no such command.
    ensures bad_words { result ≡ Status.BadWords → run.file_word words.now ≡ None }
    ensures no_command { run.file_word words.now ≡ None → IsUnlessFault Status.BadWords result }

    // 3 exactly where the file is absent, or its reading failed.
    ensures unreadable { result ≡ Status.Unreadable → IsUnreadable F.tells F.held F.faults files.old files.new words.now }
    ensures absent { (path : List ℕ) → run.file_word words.now ≡ Some path → IsTrue F.tells → F.held files.old path ≡ None
        → IsUnlessFault Status.Unreadable result }
    ensures read_failed { (path : List ℕ) → run.file_word words.now ≡ Some path → F.faults files.old < F.faults files.new
        → IsUnlessFault Status.Unreadable result }

    // 1 exactly where a line of the file is refused, and 0 where none is.
    ensures errors { result ≡ Status.Errors → IsFileOf F.tells F.held F.faults files.old files.new words.now IsRefused }
    ensures accepted { result ≡ Status.Accepted → IsFileOf F.tells F.held F.faults files.old files.new words.now IsSource }
    ensures read { (path bytes : List ℕ) → run.file_word words.now ≡ Some path → IsTrue F.tells → F.held files.old path ≡ Some bytes
        → ¬ (Rose (F.faults files.old) (F.faults files.new)) → IsUnlessFault (run.of_source path (reading.source_of bytes)).status result }

    // 4 exactly where the shelf's or the sink's count rose.
    ensures not_stored { result ≡ Status.NotStored → Rose (S.faults shelf.old) (S.faults shelf.new) ⊎ Rose (K.faults out.old) (K.faults out.new) }
    ensures no_fault { result ≢ Status.NotStored → result ≢ Status.NoMemory
        → (S.faults shelf.new ≡ S.faults shelf.old) × (K.faults out.new ≡ K.faults out.old) }

    ensures keeps_files { (F.held files.new ≡ F.held files.old) × (F.folder files.new ≡ F.folder files.old) }
{
    match run(alloc, words, files, shelf, out) {
        Ok(status) => status,
        Err(NoMemory) => Status::NoMemory,
    }
}
