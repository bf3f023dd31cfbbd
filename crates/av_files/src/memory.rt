ghost use Rattle.std.specs.Prelude.{◌≡◌, ◌≢◌, ℕ, ◌+◌, ◌-◌, ◌^◌, ◌<◌, ◌≤◌, ◌↔◌, [], min, length, take, IfOk, IsTrue, Contains, Some, None};
ghost use Rattle.std.specs.Bool.{OnTrue};
ghost use Rattle.av_files.specs.Outside.{Rose, GivesBytes, with_more};
ghost use Rattle.av_files.specs.Steps.{IfBytes, OnEnd, OnFailed, IfWrote, OnWriteFailed};
ghost use Rattle.av_files.specs.Memory.{file_at, failed_below, IsFault, IsCalled, IsCalledSink, TakesNothing, one_more, room_left};

use super::{ReadStep, Shelf, Sink, WriteStep};
use av_base::{Bytes, List, NoMemory};
use std::alloc::Global;
use std::marker::Model;

fn is_listed(numbers: &[u64], number: u64) -> bool
    ensures { IsTrue result ↔ Contains numbers.now number }
{
    numbers.contains(&number)
}

/// Whether the call of this number is to fail.
fn is_to_fail(failing: &[u64], calls: u64) -> bool
    ensures { IsTrue result ↔ IsFault failing.now calls }
{
    calls < u64::MAX && is_listed(failing, calls)
}

/// Counts one more call, and says whether it is to fail.
fn count_call(failing: &[u64], calls: &mut u64) -> bool
    ensures fails { IsTrue result ↔ IsFault failing.now calls.old }
    ensures counted { calls.new ≡ one_more calls.old }
    ensures rose { OnTrue result (Rose (failed_below failing.now calls.old) (failed_below failing.now calls.new)) }
    ensures grows { failed_below failing.now calls.old ≤ failed_below failing.now calls.new }
    ensures below { failed_below failing.now calls.new < 2 ^ 64 }
{
    let number = *calls;
    *calls = number.saturating_add(1);
    is_to_fail(failing, number)
}

/// Copies what there is of a file from a place, and what fits.
pub(super) fn give(files: &[Bytes], file: u32, at: u64, into: &mut [u8]) -> ReadStep
    requires { 0 < length into.old }
    ensures count { IfBytes result (λ n. (1 ≤ n) × (n ≤ length into.old)) }
    ensures bytes { IfBytes result (λ n. GivesBytes (file_at files.now file) at n into.new) }
    ensures all { IfBytes result (λ n. n ≡ min (length into.old) (length (file_at files.now file) - at)) }
    ensures ends { OnEnd result (length (file_at files.now file) ≤ at) }
    ensures works { result ≢ ReadStep.Failed }
{
    let Some(bytes) = files.get(file as usize) else {
        return ReadStep::End;
    };
    give_from(bytes.as_slice(), at, into)
}

fn give_from(bytes: &[u8], at: u64, into: &mut [u8]) -> ReadStep
    requires { 0 < length into.old }
    ensures count { IfBytes result (λ n. (1 ≤ n) × (n ≤ length into.old)) }
    ensures bytes { IfBytes result (λ n. GivesBytes bytes.now at n into.new) }
    ensures all { IfBytes result (λ n. n ≡ min (length into.old) (length bytes.now - at)) }
    ensures ends { OnEnd result (length bytes.now ≤ at) }
    ensures works { result ≢ ReadStep.Failed }
{
    if at >= bytes.len() as u64 {
        return ReadStep::End;
    }
    let from = at as usize;
    let n = into.len().min(bytes.len() - from);
    into[..n].copy_from_slice(&bytes[from..from + n]);
    ReadStep::Bytes(n)
}

/// Files in memory, and the numbers of the calls that fail.
#[derive(Debug, Drop)]
pub struct MemShelf {
    files: List<Bytes>,
    failing: List<u64>,
    calls: u64,
    failed: u32,
}

impl Model for MemShelf {
    ghost use Rattle.av_files.specs.Memory.{Files};

    ghost Value = { Files };

    ghost view = { λ s. record { files = s.files; failing = s.failing; calls = s.calls; failed = s.failed } };
}

impl MemShelf {
    pub fn new(files: List<Bytes>, failing: List<u64>) -> MemShelf
        ensures { result ≡ record { files = files; failing = failing; calls = 0; failed = 0 } }
    {
        MemShelf {
            files,
            failing,
            calls: 0,
            failed: 0,
        }
    }
}

impl Shelf for MemShelf {
    ghost told = { λ s k. Some (file_at s.files k) };

    ghost faults = { λ s. failed_below s.failing s.calls };

    ghost failed = { λ s. s.failed };

    ghost calls = { λ s. s.calls };

    fn read_at(&mut self, file: u32, at: u64, into: &mut [u8]) -> ReadStep
        requires { 0 < length into.old }
        ensures count { IfBytes result (λ n. (1 ≤ n) × (n ≤ length into.old)) }
        ensures bytes { IfBytes result (λ n. GivesBytes (file_at self.old.files file) at n into.new) }
        ensures ends { OnEnd result (length (file_at self.old.files file) ≤ at) }
        ensures rose { OnFailed result
            (Rose (failed_below self.old.failing self.old.calls) (failed_below self.new.failing self.new.calls)) }
        ensures failed { OnFailed result (self.new.failed ≡ file) }
        ensures grows { failed_below self.old.failing self.old.calls ≤ failed_below self.new.failing self.new.calls }
        ensures below { failed_below self.new.failing self.new.calls < 2 ^ 64 }
        ensures one_call { self.new.calls ≤ self.old.calls + 1 }
        ensures told { (k : ℕ) → Some (file_at self.new.files k) ≡ Some (file_at self.old.files k) }
        // It fails by the list alone, and else gives all that there is from that place and fits.
        ensures fails { (result ≡ ReadStep.Failed) ↔ IsFault self.old.failing self.old.calls }
        ensures all { IfBytes result (λ n. n ≡ min (length into.old) (length (file_at self.old.files file) - at)) }
        ensures called { IsCalled self.old self.new }
    {
        let fails = count_call(self.failing.as_slice(), &mut self.calls);
        if fails {
            self.failed = file;
            return ReadStep::Failed;
        }
        give(self.files.as_slice(), file, at, into)
    }
}

/// Bytes in memory, of which there is room for some, and the numbers of the calls that fail.
#[derive(Debug, Drop)]
pub struct MemSink {
    bytes: Vec<u8>,
    room: usize,
    failing: List<u64>,
    calls: u64,
    faults: u64,
}

impl Model for MemSink {
    ghost use Rattle.std.specs.Prelude.{◌≤◌, vec_len, vec_capacity};
    ghost use Rattle.av_files.specs.Memory.{Held};

    ghost Value = { Held };

    ghost view = { λ s. record
        { bytes = s.bytes.items; room = s.room; failing = s.failing; calls = s.calls; faults = s.faults } };

    ghost invariant = { λ s. (vec_len s.bytes ≤ s.room) × (s.room ≤ vec_capacity s.bytes) };
}

impl MemSink {
    pub fn new(alloc: Global, room: usize, failing: List<u64>) -> Result<MemSink, NoMemory>
        ensures { IfOk result (λ s. s ≡ record { bytes = []; room = room; failing = failing; calls = 0; faults = 0 }) }
    {
        Ok(MemSink {
            bytes: Vec::with_capacity(alloc, room)?,
            room,
            failing,
            calls: 0,
            faults: 0,
        })
    }

    pub fn bytes(&self) -> &[u8]
        ensures { result.now ≡ self.now.bytes }
    {
        self.bytes.as_slice()
    }
}

impl Sink for MemSink {
    ghost held = { λ s. Some s.bytes };

    ghost faults = { λ s. s.faults };

    fn write(&mut self, bytes: &[u8]) -> WriteStep
        requires { 0 < length bytes.now }
        ensures count { IfWrote result (λ n. (1 ≤ n) × (n ≤ length bytes.now)) }
        ensures wrote { IfWrote result (λ n. Some self.new.bytes ≡ with_more (Some self.old.bytes) (take n bytes.now)) }
        ensures rose { OnWriteFailed result (Rose self.old.faults self.new.faults) }
        ensures kept { OnWriteFailed result (Some self.new.bytes ≡ Some self.old.bytes) }
        ensures grows { self.old.faults ≤ self.new.faults }
        ensures below { self.new.faults < 2 ^ 64 }
        // It fails by the list and where no room is left, and else takes all that there is room for.
        ensures fails { (result ≡ WriteStep.Failed) ↔ TakesNothing self.old }
        ensures all { IfWrote result (λ n. n ≡ min (length bytes.now) (room_left self.old)) }
        ensures called { IsCalledSink self.old self.new }
        ensures counted { OnWriteFailed result (self.new.faults ≡ one_more self.old.faults) }
        ensures uncounted { IfWrote result (λ _. self.new.faults ≡ self.old.faults) }
    {
        let fails = count_call(self.failing.as_slice(), &mut self.calls);
        let room = self.room - self.bytes.len();
        if fails || room == 0 {
            self.faults = self.faults.saturating_add(1);
            return WriteStep::Failed;
        }
        let n = bytes.len().min(room);
        match self.bytes.extend_from_slice(&bytes[..n]) {
            Ok(()) => WriteStep::Wrote(n),
            Err(_) => unreachable!(),
        }
    }
}
