//! A sink in memory.

ghost use Rattle.std.specs.Prelude.{◌≡◌, ◌≤◌, true, cond, ◌||◌, nat_lt, [], ◌++◌, length, take, None, Some, IfOk, OnOk, OnErr};
ghost use Rattle.psc_outside.specs.Contents.{Appends, AppendsPrefix};
ghost use Rattle.psc_outside.specs.Faults.{PutCounts};
ghost use Rattle.psc_outside.specs.Memory.{is_next_due, FailsToo, IsCounted, fits, room_after};
ghost use Rattle.psc_outside.specs.declared.put.Put.TheVariants as put;

use crate::counting::count_put;
use crate::put::Put;
use crate::schedule::Schedule;
use crate::sink::Sink;
use psc_text::NoMemory;
use std::alloc::Global;

/// A sink that keeps what it takes, and may be made to fail.
#[derive(Drop)]
pub struct MemSink {
    taken: Vec<u8>,
    room: Option<usize>,
    puts: Schedule,
    faults: u64,
}

impl MemSink {
    /// A sink that took nothing yet and has room for all.
    pub fn new(alloc: Global) -> MemSink
        ensures empty { result.taken.items ≡ [] }
        ensures no_bound { result.room ≡ None }
        ensures no_faults { result.faults ≡ 0 }
        ensures none_fails { result.puts.failing.items ≡ [] }
    {
        MemSink {
            taken: Vec::new(alloc),
            room: None,
            puts: Schedule::new(alloc),
            faults: 0,
        }
    }

    /// Has the putting of this number fail and take nothing, counted from 1.
    pub fn fail_put(&mut self, call: u64) -> Result<(), NoMemory>
        ensures added { OnOk result (FailsToo self.old.puts call self.new.puts) }
        ensures same_room { self.new.room ≡ self.old.room }
        ensures same_taken { self.new.taken ≡ self.old.taken }
        ensures same_faults { self.new.faults ≡ self.old.faults }
    {
        self.puts.fail_at(call)
    }

    /// Has each putting fail that does not fit into so many further bytes; of that piece only what fits is taken.
    pub fn fail_after(&mut self, bytes: usize)
        ensures room { self.new.room ≡ Some bytes }
        ensures same_puts { self.new.puts ≡ self.old.puts }
        ensures same_taken { self.new.taken ≡ self.old.taken }
        ensures same_faults { self.new.faults ≡ self.old.faults }
    {
        self.room = Some(bytes);
    }

    /// Takes as much of the piece as there is room for, and fails where that is not all.
    fn take_what_fits(&mut self, piece: &[u8]) -> Result<Put, NoMemory>
        ensures exactly { IfOk result (λ r. r ≡ cond (nat_lt (fits self.old.room (length piece.now)) (length piece.now)) put.Failed put.Done) }
        ensures taken { IfOk result (λ _. self.new.taken.items ≡ self.old.taken.items ++ take (fits self.old.room (length piece.now)) piece.now) }
        ensures room_left { IfOk result (λ _. self.new.room ≡ room_after self.old.room (length piece.now)) }
        ensures refused { OnErr result ((self.new.taken.items ≡ self.old.taken.items) × (self.new.room ≡ self.old.room)) }
        ensures same_faults { self.new.faults ≡ self.old.faults }
        ensures same_puts { self.new.puts ≡ self.old.puts }
    {
        let fitting = fitting(self.room, piece.len());
        self.taken.extend_from_slice(&piece[..fitting])?;
        self.room = match self.room {
            None => None,
            Some(room) => Some(room - fitting),
        };
        if fitting < piece.len() {
            Ok(Put::Failed)
        } else {
            Ok(Put::Done)
        }
    }

    /// The bytes that were taken.
    pub fn bytes(&self) -> &[u8]
        ensures { result.now ≡ self.now.taken.items }
    {
        self.taken.as_slice()
    }
}

impl Sink for MemSink {
    ghost tells = { true };

    ghost taken = { λ m. m.taken.items };

    ghost faults = { λ m. m.faults };

    fn put(&mut self, _alloc: Global, piece: &[u8]) -> Result<Put, NoMemory>
        ensures exactly { IfOk result (λ r. r ≡ cond (is_next_due self.old.puts || nat_lt (fits self.old.room (length piece.now)) (length piece.now)) put.Failed put.Done) }
        ensures takes_what_fits { IfOk result (λ _. self.new.taken.items ≡ self.old.taken.items ++ cond (is_next_due self.old.puts) [] (take (fits self.old.room (length piece.now)) piece.now)) }
        ensures room_left { IfOk result (λ _. self.new.room ≡ cond (is_next_due self.old.puts) self.old.room (room_after self.old.room (length piece.now))) }
        ensures counted { OnOk result (IsCounted self.old.puts self.new.puts) }
        ensures refused { OnErr result ((self.new.taken.items ≡ self.old.taken.items) × (self.new.room ≡ self.old.room)
            × (self.new.puts ≡ self.old.puts) × (self.new.faults ≡ self.old.faults)) }
        ensures takes { IfOk result (λ r. Appends self.old.taken.items piece.now self.new.taken.items r) }
        ensures prefix { AppendsPrefix self.old.taken.items piece.now self.new.taken.items }
        ensures counts { IfOk result (λ r. PutCounts self.old.faults self.new.faults r) }
        ensures never_falls { self.old.faults ≤ self.new.faults }
    {
        let answer = if self.puts.next_fails() {
            Put::Failed
        } else {
            self.take_what_fits(piece)?
        };
        self.puts.count();
        self.faults = count_put(self.faults, answer);
        Ok(answer)
    }

    fn faults(&self) -> u64 {
        self.faults
    }
}

/// How many of so many bytes there is room for.
fn fitting(room: Option<usize>, wanted: usize) -> usize
    ensures { result ≡ fits room wanted }
{
    match room {
        None => wanted,
        Some(room) => room.min(wanted),
    }
}
