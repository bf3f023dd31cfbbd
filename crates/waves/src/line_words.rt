ghost use Rattle.std.specs.Prelude.{◌≡◌, ◌+◌, ◌-◌, ◌≤◌, ◌<◌, ◌∷◌, length, take, drop};
ghost use Rattle.std.specs.List.{list_all};
ghost use Rattle.waves.specs.Cuts.{texts_from};
ghost use Rattle.waves.specs.Words.{is_silent, is_printable, is_filled, is_clean, words_of, first_word, word_at, is_none_left};

use crate::cuts::piece_len;
use std::marker::Model;

/// Words that are left of a line: what stands before, between and behind its blanks.
#[derive(Drop)]
pub struct Words<'a> {
    line: &'a [u8],
    at: usize,
}

impl<'a> Model for Words<'a> {
    ghost use Rattle.std.specs.Prelude.{ℕ, ◌+◌, ◌≤◌, List, length};
    ghost use Rattle.waves.specs.Cuts.{texts_from};

    ghost Value = { List (List ℕ) };

    ghost view = { λ w. texts_from w.at w.line.now };

    ghost invariant = { λ w. w.at ≤ length w.line.now + 1 };
}

/// Where the word ends that begins at a place on the line.
fn word_end(line: &[u8], at: usize) -> usize
    requires { at ≤ length line.now }
    ensures text { texts_from at line.now ≡ take (result - at) (drop at line.now) ∷ texts_from (result + 1) line.now }
    ensures from { at ≤ result }
    ensures within { result ≤ length line.now }
{
    at + piece_len(&line[at..], b' ')
}

/// How many words there are from a place on the line on.
fn word_count(line: &[u8], from: usize) -> usize
    requires { from ≤ length line.now + 1 }
    ensures { result ≡ length (texts_from from line.now) }
{
    let mut count = 0;
    let mut at = from;
    'words: while at <= line.len() {
        at = word_end(line, at) + 1;
        count += 1;
    }
    count
}

/// Whether no word of a line is empty.
fn are_filled(line: &[u8]) -> bool
    ensures { result ≡ list_all is_filled (words_of line.now) }
{
    let mut at = 0;
    'words: while at <= line.len() {
        let end = word_end(line, at);
        if end == at {
            return false;
        }
        at = end + 1;
    }
    true
}

impl<'a> Words<'a> {
    /// The words of a line.
    pub fn of(line: &'a [u8]) -> Words<'a>
        ensures { result ≡ words_of line.now }
    {
        Words { line, at: 0 }
    }

    /// Whether no word is left.
    pub fn is_empty(&self) -> bool
        ensures { result ≡ is_none_left self.now }
    {
        self.line.len() < self.at
    }

    /// The next word; empty where none is left.
    pub fn first(&self) -> &'a [u8]
        ensures { result.now ≡ first_word self.now }
    {
        if self.line.len() < self.at {
            return &self.line[..0];
        }
        &self.line[self.at..word_end(self.line, self.at)]
    }

    /// The words behind the next.
    pub fn rest(&self) -> Words<'a>
        ensures { result ≡ drop 1 self.now }
    {
        if self.line.len() < self.at {
            return Words {
                line: self.line,
                at: self.at,
            };
        }
        Words {
            line: self.line,
            at: word_end(self.line, self.at) + 1,
        }
    }

    /// The words from a place on.
    pub fn from(&self, place: usize) -> Words<'a>
        ensures { result ≡ drop place self.now }
    {
        let mut words = Words {
            line: self.line,
            at: self.at,
        };
        'skipped: for _ in 0..place {
            words = words.rest();
        }
        words
    }

    /// The word at a place; empty where there is none.
    pub fn word(&self, place: usize) -> &'a [u8]
        ensures { result.now ≡ word_at place self.now }
    {
        self.from(place).first()
    }

    /// How many words are left.
    pub fn len(&self) -> usize
        ensures { result ≡ length self.now }
    {
        word_count(self.line, self.at)
    }
}

/// Whether a line counts for nothing: it is empty, or begins with `#`.
pub fn is_silent(line: &[u8]) -> bool
    ensures { result ≡ is_silent line.now }
{
    line.is_empty() || line[0] == b'#'
}

fn are_printable(line: &[u8]) -> bool
    ensures { result ≡ list_all is_printable line.now }
{
    'bytes: for byte in line {
        if *byte <= 31 || 127 <= *byte {
            return false;
        }
    }
    true
}

/// Whether a line is of printable ASCII, without two blanks together or one at either end.
#[tactic(auto, unfolding(crate::specs::Words::is_clean))]
pub fn is_clean(line: &[u8]) -> bool
    ensures { result ≡ is_clean line.now }
{
    are_printable(line) && are_filled(line)
}
