//! The answers to transactions, as a run goes on.

ghost use Rattle.std.specs.Prelude.{◌≡◌, ◌≤◌, ◌*◌, length, vec_capacity};
ghost use Rattle.packet_bytes.specs.Answers.{all_words_due};

use crate::answers::put_answers;
use crate::transfers::Transfers;
use av_base::{NoMemory, Val};
use av_files::Sink;
use std::alloc::Global;

/// The replies to transactions, as the write beats of their commands are accepted and the words of their reads are given.
#[derive(Drop)]
pub struct Replies {
    pub(crate) transfers: Transfers,
    /// How many write beats were accepted, up to the largest number.
    beats: u32,
    /// How many words were given, of those that are due.
    words: u32,
    due: u32,
    /// The bytes of these words.
    bytes: Vec<u8>,
    ghost are_due: { due ≡ all_words_due transfers.word_bytes transfers.packets.items },
    ghost are_few: { words ≤ due },
    ghost have_bytes: { length bytes.items ≡ transfers.word_bytes * words },
    ghost have_room: { transfers.word_bytes * due ≤ vec_capacity bytes },
}

impl Replies {
    ghost use Rattle.std.specs.Prelude.{ℕ, ◌<◌, List as Sequence, [], IfOk};
    ghost use Rattle.marked_bytes.specs.Packing.{Writes};
    ghost use Rattle.packet_bytes.specs.Noted.{HasNoted, sent, with_beat, with_word};

    /// The replies to transactions of which nothing was done. It takes all the memory that the others use.
    pub fn new(alloc: Global, transfers: Transfers) -> Result<Replies, NoMemory>
        ensures transfers { IfOk result (λ replies. replies.transfers ≡ transfers) }
        ensures nothing { IfOk result (HasNoted 0 []) }
    {
        let due = transfers.words_due();
        let bytes = Vec::with_capacity(alloc, transfers.word_bytes as usize * due as usize)?;
        Ok(Replies {
            transfers,
            beats: 0,
            words: 0,
            due,
            bytes,
        })
    }

    /// Notes whether a write beat was accepted.
    fn note_beat(&mut self, write_taken: bool)
        ensures transfers { self.new.transfers ≡ self.old.transfers }
        ensures noted { (beats : ℕ) (words : Sequence ℕ) → HasNoted beats words self.old
            → HasNoted (with_beat beats write_taken) words self.new }
    {
        if write_taken {
            self.beats = self.beats.saturating_add(1);
        }
    }

    /// Notes a word that was given. One past the last that is due counts for nothing.
    fn note_word(&mut self, word: Val)
        ensures transfers { self.new.transfers ≡ self.old.transfers }
        ensures noted { (beats : ℕ) (words : Sequence ℕ) → HasNoted beats words self.old
            → HasNoted beats (with_word words (Some word)) self.new }
    {
        if self.due <= self.words {
            return;
        }
        let lanes = word.bits().to_le_bytes();
        let size = self.transfers.word_bytes as usize;
        match self.bytes.extend_from_slice(&lanes[..size]) {
            Ok(()) => self.words += 1,
            Err(_) => unreachable!(),
        }
    }

    /// Notes what the host did in a cycle: whether a write beat of it was accepted, and the word that it was given. What is past
    /// the last command counts for nothing. It takes no memory.
    pub fn note(&mut self, write_taken: bool, word: Option<Val>)
        ensures transfers { self.new.transfers ≡ self.old.transfers }
        ensures noted { (beats : ℕ) (words : Sequence ℕ) → HasNoted beats words self.old
            → HasNoted (with_beat beats write_taken) (with_word words word) self.new }
    {
        self.note_beat(write_taken);
        if let Some(word) = word {
            self.note_word(word);
        }
    }

    /// Writes the replies to the leading transactions whose write beats and words have all been noted: whether all were written.
    /// It takes no memory.
    pub fn write<K: Sink>(&self, sink: &mut K) -> bool
        ensures { (beats : ℕ) (words : Sequence ℕ) → HasNoted beats words self.now
            → Writes (sent self.now.transfers beats words) (K.held sink.old) (K.held sink.new) (K.faults sink.old)
            (K.faults sink.new) result }
    {
        self.transfers.size_is_known();
        put_answers(
            self.transfers.word_bytes,
            self.transfers.packets.as_slice(),
            self.beats,
            self.bytes.as_slice(),
            sink,
        )
    }
}
