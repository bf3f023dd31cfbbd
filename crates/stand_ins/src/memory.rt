//! What an agent holds.

ghost use Rattle.std.specs.Prelude.{◌≡◌, ◌+◌, ◌*◌, ◌<◌, ◌≤◌, ℕ, length, IsOk, IfOk, IfErr, OnOk, OnErr};
ghost use Rattle.std.specs.List.{HoldsAt};
ghost use Rattle.std.specs.List.Sorted.{IsSearchInRange, IsPartitionPoint};
ghost use Rattle.histories.specs.History.{numbers};
ghost use Rattle.memory_runs.specs.Operations.{is_enabled, byte_at, written, memory_after};
ghost use Rattle.stand_ins.specs.Contents.{number_of};
ghost use Rattle.stand_ins.specs.Memory.{MemoryValue, IsByteCount, bytes_of_word, contents_of, with_bytes, lane_writes};

use av_base::NoMemory;
use std::alloc::Global;
use std::marker::Model;

/// A word that was written.
#[derive(Clone, Copy)]
pub struct StoredWord {
    pub number: u32,
    pub bytes: [u8; 16],
}

/// The bytes of an agent, by words. All are 0 at first.
#[derive(Drop)]
pub(crate) struct Memory {
    /// The words that were written, in rising order of their numbers.
    words: Vec<StoredWord>,
    word_bytes: u8,
}

impl Model for Memory {
    ghost use Rattle.std.specs.Prelude.{◌-◌};
    ghost use Rattle.std.specs.Vec.{vec_capacity, vec_len};
    ghost use Rattle.stand_ins.specs.Memory.{MemoryValue, IsInOrder};

    ghost Value = { MemoryValue };

    ghost view = { λ m. record
        { words = m.words.items; word_bytes = m.word_bytes; room = vec_capacity m.words - vec_len m.words } };

    ghost invariant = { λ m. IsInOrder m.words.items m.word_bytes };
}

/// Whether a lane is enabled.
fn is_enabled(enables: u16, lane: u8) -> bool
    requires { lane < 16 }
    ensures { result ≡ is_enabled enables lane }
{
    (enables >> lane) % 2 == 1
}

/// The byte in a lane of a word.
fn byte_at(word: u128, lane: u8) -> u8
    requires { lane < 16 }
    ensures { result ≡ byte_at word lane }
{
    ((word >> (8 * lane)) % 256) as u8
}

/// The bytes of a word behind a write of its enabled lanes.
fn written_lanes(stored: [u8; 16], word_bytes: u8, word: u128, enables: u16) -> [u8; 16]
    requires bytes { IsByteCount word_bytes }
    requires len { length stored ≡ 16 }
    ensures { (memory : MemoryValue) (number : ℕ) → memory.word_bytes ≡ word_bytes
        → with_bytes memory number result
        ≡ memory_after (with_bytes memory number stored) (lane_writes word_bytes number word enables (numbers 0 word_bytes)) }
{
    let mut bytes = stored;
    'lanes: for lane in 0..word_bytes {
        if is_enabled(enables, lane) {
            bytes[lane as usize] = byte_at(word, lane);
        }
    }
    bytes
}

impl Memory {
    /// For words of so many bytes.
    pub(crate) fn new(alloc: Global, word_bytes: u8) -> Memory
        requires { IsByteCount word_bytes }
        ensures contents { contents_of result ≡ (λ (place : ℕ). 0) }
        ensures word_bytes { result.word_bytes ≡ word_bytes }
    {
        Memory {
            words: Vec::new(alloc),
            word_bytes,
        }
    }

    /// Makes room for so many words that were never written.
    pub(crate) fn reserve(&mut self, words: u32) -> Result<(), NoMemory>
        ensures ok { OnOk result (words ≤ self.new.room) }
        ensures contents { contents_of self.new ≡ contents_of self.old }
        ensures word_bytes { self.new.word_bytes ≡ self.old.word_bytes }
    {
        self.words.reserve(words as usize)?;
        Ok(())
    }

    /// Where the word with a number stands, or where it would.
    fn find(&self, number: u32) -> Result<usize, usize>
        ensures within { IsSearchInRange result (length self.now.words) }
        ensures found { IfOk result (HoldsAt (λ word. word.number ≡ number) self.now.words) }
        ensures missing { IfErr result
            (IsPartitionPoint (λ word. word.number < number) (λ word. number < word.number) self.now.words) }
    {
        self.words.binary_search_by_key(&number, |word| word.number)
    }

    /// The bytes of a word.
    fn bytes(&self, number: u32) -> [u8; 16]
        ensures { result ≡ bytes_of_word self.now.words number }
    {
        match self.find(number) {
            Ok(place) => self.words[place].bytes,
            Err(_) => [0; 16],
        }
    }

    /// Stores the bytes of a word. A new one moves those behind it.
    fn store(&mut self, number: u32, bytes: [u8; 16]) -> Result<(), NoMemory>
        ensures ok { OnOk result (contents_of self.new ≡ with_bytes self.old number bytes) }
        ensures err { OnErr result (contents_of self.new ≡ contents_of self.old) }
        ensures succeeds { 0 < self.old.room → IsOk result }
        ensures word_bytes { self.new.word_bytes ≡ self.old.word_bytes }
        ensures room { self.old.room ≤ self.new.room + 1 }
    {
        let word = StoredWord { number, bytes };
        match self.find(number) {
            Ok(place) => self.words[place] = word,
            Err(place) => self.words.insert(place, word)?,
        }
        Ok(())
    }

    /// Writes the byte at a place.
    pub(crate) fn put(&mut self, place: u32, byte: u8) -> Result<(), NoMemory>
        ensures ok { OnOk result (contents_of self.new ≡ written (contents_of self.old) place byte) }
        ensures err { OnErr result (contents_of self.new ≡ contents_of self.old) }
        ensures word_bytes { self.new.word_bytes ≡ self.old.word_bytes }
    {
        let word_bytes = u32::from(self.word_bytes);
        let number = place / word_bytes;
        let mut bytes = self.bytes(number);
        bytes[(place % word_bytes) as usize] = byte;
        self.store(number, bytes)
    }

    /// Writes the enabled lanes of the word with a number. There is room for it.
    pub(crate) fn write(&mut self, number: u32, word: u128, enables: u16)
        requires { 0 < self.old.room }
        ensures contents { contents_of self.new
            ≡ memory_after (contents_of self.old)
            (lane_writes self.old.word_bytes number word enables (numbers 0 self.old.word_bytes)) }
        ensures word_bytes { self.new.word_bytes ≡ self.old.word_bytes }
        ensures room { self.old.room ≤ self.new.room + 1 }
    {
        let bytes = written_lanes(self.bytes(number), self.word_bytes, word, enables);
        let _ = self.store(number, bytes);
    }

    /// The word with a number.
    pub(crate) fn word(&self, number: u32) -> u128
        ensures { result ≡ number_of (contents_of self.now) (number * self.now.word_bytes) self.now.word_bytes }
    {
        let bytes = self.bytes(number);
        let mut word = 0u128;
        'lanes: for k in 0..self.word_bytes {
            let lane = self.word_bytes - 1 - k;
            let byte = bytes[lane as usize];
            word = word * 256 + u128::from(byte);
        }
        word
    }
}
