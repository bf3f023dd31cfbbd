ghost use Rattle.std.specs.Prelude.{◌≡◌, ◌≢◌, ℕ, ◌+◌, ◌-◌, ◌^◌, ◌<◌, ◌≤◌, min, length, take, Some, None};
ghost use Rattle.av_files.specs.Outside.{Rose, GivesBytes, with_more};
ghost use Rattle.av_files.specs.Steps.{IfBytes, OnEnd, OnFailed, IfWrote, OnWriteFailed};
ghost use Rattle.av_files.specs.Memory.{file_at};

use super::memory::give;
use super::{ReadStep, Shelf, Sink, WriteStep};
use av_base::{Bytes, List};
use std::marker::Model;

/// Files in memory, of which no read fails. A file whose number is past the last is empty.
#[derive(Debug, Drop)]
pub struct SteadyShelf {
    files: List<Bytes>,
}

impl Model for SteadyShelf {
    ghost use Rattle.std.specs.Prelude.{List as Sequence, ℕ};

    ghost Value = { Sequence (Sequence ℕ) };

    ghost view = { λ s. s.files };
}

impl SteadyShelf {
    pub fn new(files: List<Bytes>) -> SteadyShelf
        ensures { result ≡ files }
    {
        SteadyShelf { files }
    }
}

impl Shelf for SteadyShelf {
    ghost told = { λ s k. Some (file_at s k) };

    ghost faults = { λ _. 0 };

    ghost failed = { λ _. 0 };

    ghost calls = { λ _. 0 };

    fn read_at(&mut self, file: u32, at: u64, into: &mut [u8]) -> ReadStep
        requires { 0 < length into.old }
        ensures count { IfBytes result (λ n. (1 ≤ n) × (n ≤ length into.old)) }
        ensures bytes { IfBytes result (λ n. GivesBytes (file_at self.old file) at n into.new) }
        ensures ends { OnEnd result (length (file_at self.old file) ≤ at) }
        ensures rose { OnFailed result (Rose 0 0) }
        ensures failed { OnFailed result (0 ≡ file) }
        ensures grows { 0 ≤ 0 }
        ensures below { 0 < 2 ^ 64 }
        ensures one_call { 0 ≤ 0 + 1 }
        ensures told { (k : ℕ) → Some (file_at self.new k) ≡ Some (file_at self.old k) }
        // It never fails, and gives all that there is from that place and fits.
        ensures works { result ≢ ReadStep.Failed }
        ensures all { IfBytes result (λ n. n ≡ min (length into.old) (length (file_at self.old file) - at)) }
        ensures same { self.new ≡ self.old }
    {
        give(self.files.as_slice(), file, at, into)
    }
}

/// Keeps the number of bytes that are written to it, up to the largest `u64`, and nothing of them. No write fails.
#[derive(Debug, Drop)]
pub struct CountSink {
    count: u64,
}

impl Model for CountSink {
    ghost use Rattle.std.specs.Prelude.{ℕ};

    ghost Value = { ℕ };

    ghost view = { λ s. s.count };
}

impl CountSink {
    pub fn new() -> CountSink
        ensures { result ≡ 0 }
    {
        CountSink { count: 0 }
    }

    /// How many bytes were written.
    pub fn count(&self) -> u64
        ensures { result ≡ self.now }
    {
        self.count
    }
}

impl Sink for CountSink {
    ghost held = { λ _. None };

    ghost faults = { λ _. 0 };

    fn write(&mut self, bytes: &[u8]) -> WriteStep
        requires { 0 < length bytes.now }
        ensures count { IfWrote result (λ n. (1 ≤ n) × (n ≤ length bytes.now)) }
        ensures wrote { IfWrote result (λ n. None ≡ with_more None (take n bytes.now)) }
        ensures rose { OnWriteFailed result (Rose 0 0) }
        ensures kept { OnWriteFailed result (None ≡ with_more None bytes.now) }
        ensures grows { 0 ≤ 0 }
        ensures below { 0 < 2 ^ 64 }
        // It takes all bytes, and counts them.
        ensures all { result ≡ WriteStep.Wrote (length bytes.now) }
        ensures counted { self.new ≡ min (self.old + length bytes.now) (2 ^ 64 - 1) }
    {
        self.count = self.count.saturating_add(bytes.len() as u64);
        WriteStep::Wrote(bytes.len())
    }
}

/// Where a count of faults is 0 in every state, no read and no write fails: what is told of one that failed doesn't hold.
pub fn counts_of_zero_never_rise()
    ensures { ¬ Rose 0 0 }
{}
