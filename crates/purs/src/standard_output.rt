//! Standard output. It tells contracts nothing of what it took.

ghost use Rattle.std.specs.Prelude.{◌≤◌, false, [], IfOk};
ghost use Rattle.psc_outside.specs.Faults.{PutCounts};
ghost use Rattle.purs.specs.Streams.{Takes};

use crate::writing::write_whole;
use psc_outside::{Put, Sink, count_put};
use psc_text::NoMemory;
use std::alloc::Global;
use std::io::Write;

/// A sink over a writer, with the count of the pieces that it did not take whole.
#[derive(Drop)]
pub struct WriterSink<W: Write + Drop> {
    writer: W,
    faults: u64,
}

impl<W: Write + Drop> WriterSink<W> {
    pub fn new(writer: W) -> WriterSink<W> {
        WriterSink { writer, faults: 0 }
    }
}

impl<W: Write + Drop> Sink for WriterSink<W> {
    ghost tells = { false };

    ghost taken = { λ _. [] };

    ghost faults = { λ s. s.faults };

    fn put(&mut self, _alloc: Global, piece: &[u8]) -> Result<Put, NoMemory>
        ensures takes { IfOk result (λ r. Takes (W.contents self.old.writer) (W.contents self.new.writer) piece.now r) }
        ensures counts { IfOk result (λ r. PutCounts self.old.faults self.new.faults r) }
        ensures never_falls { self.old.faults ≤ self.new.faults }
    {
        let answer = match write_whole(&mut self.writer, piece) {
            Ok(()) => Put::Done,
            Err(_) => Put::Failed,
        };
        self.faults = count_put(self.faults, answer);
        Ok(answer)
    }

    fn faults(&self) -> u64 {
        self.faults
    }
}
