//! The commands of a script.

ghost use Rattle.std.specs.Prelude.{◌≡◌, ◌==◌, IfSome, ◌+◌, ◌≤◌, ◌^◌, ◌<◌, ◌∷◌, [], ◌++◌, take, drop, length, filter, IfOk, IfErr, OnOk, OnErr, MatchResult, IsUtf8, slice_get};
ghost use Rattle.std.specs.List.{position_or_len};
ghost use Rattle.std.specs.Option.{option_map};
ghost use Rattle.std.specs.Str.Lossy.{utf8_valid_len};
ghost use Rattle.tcl_words.specs.Script.{Script, has_word, place_after};
ghost use Rattle.tcl_words.specs.Spelling.{Spells};
ghost use Rattle.tcl_words.specs.Reading.{commands_of, first_word_fault, encoding_flaw, fault_of, in_file, piece_of, view, Refuses, IsRefusedFor};

use crate::pieces::{Found, Piece, PieceFault, piece_of};
use crate::rule::{Rule, WordsFault};
use crate::scan::line_feeds;
use av_base::{List, Place, Text};
use std::alloc::Global;
use std::marker::Model;

/// A word of a script, and where its first byte stands.
#[derive(Debug, Drop)]
pub struct Word {
    pub text: Text,
    pub place: Place,
}

/// Adds the words as a command, where there are any.
fn push_line(lines: &mut List<List<Word>>, words: List<Word>) -> Result<(), WordsFault>
    ensures ok { OnOk result (lines.new ≡ lines.old ++ filter has_word (words ∷ [])) }
    ensures memory { OnErr result (result ≡ Err WordsFault.NoMemory) }
{
    if !words.is_empty() {
        lines.push(words)?;
    }
    Ok(())
}

/// The place behind the first bytes of a file.
fn place_after(file: u32, front: &[u8]) -> Place
    requires { length front.now < 2 ^ 31 }
    ensures { result ≡ place_after file front.now }
{
    Place {
        file,
        line: 1 + line_feeds(front),
        byte: front.len() as u64,
    }
}

/// How many bytes at the front are UTF-8.
fn valid_len(bytes: &[u8]) -> usize
    ensures { result ≡ utf8_valid_len bytes.now }
{
    match str::from_utf8(bytes) {
        Ok(_) => bytes.len(),
        Err(fault) => fault.valid_up_to(),
    }
}

/// How many bytes stand before the first zero byte.
fn before_zero(bytes: &[u8]) -> usize
    ensures { result ≡ position_or_len (λ byte. byte == 0) bytes.now }
{
    for (at, byte) in bytes.iter().enumerate() {
        if *byte == 0 {
            return at;
        }
    }
    bytes.len()
}

/// Where the bytes stop being UTF-8, or have a zero byte before that.
fn encoding_flaw(bytes: &[u8]) -> Option<(usize, Rule)>
    ensures flaw { encoding_flaw bytes.now ≡ option_map (λ flaw. record { at = flaw.0; rule = flaw.1 }) result }
    ensures within { IfSome result (λ flaw. flaw.0 ≤ length bytes.now) }
{
    let zero_at = before_zero(bytes);
    let valid = valid_len(bytes);
    if zero_at < valid {
        return Some((zero_at, Rule::ZeroByte));
    }
    if valid < bytes.len() {
        return Some((valid, Rule::NotUtf8));
    }
    None
}

/// Refuses bytes that aren't UTF-8 or have a zero byte, at the first such place.
fn check_encoding(file: u32, bytes: &[u8]) -> Result<(), WordsFault>
    requires { length bytes.now < 2 ^ 31 }
    ensures { MatchResult result (λ _. encoding_flaw bytes.now ≡ None) (IsRefusedFor file bytes.now (encoding_flaw bytes.now)) }
{
    match encoding_flaw(bytes) {
        None => Ok(()),
        Some((at, rule)) => Err(WordsFault::Refused {
            place: place_after(file, &bytes[..at]),
            rule,
        }),
    }
}

/// The piece that stands at a place of a file. `fresh` says whether a command would begin there.
fn piece_at(
    alloc: Global,
    file: u32,
    bytes: &[u8],
    at: usize,
    fresh: bool,
) -> Result<Found, WordsFault>
    requires short { length bytes.now < 2 ^ 31 }
    requires inside { at < length bytes.now }
    requires utf8 { IsUtf8 (drop at bytes.now) }
    ensures within { IfOk result (λ piece. (0 < piece.len) × (at + piece.len ≤ length bytes.now)) }
    ensures found { MatchResult result
        (λ piece. piece_of fresh (drop at bytes.now) ≡ Ok (view piece))
        (λ e. Refuses e (fault_of (in_file file (take at bytes.now) (drop at bytes.now) (piece_of fresh (drop at bytes.now))))) }
{
    match piece_of(alloc, fresh, &bytes[at..]) {
        Ok(found) => Ok(found),
        Err(PieceFault::NoMemory) => Err(WordsFault::NoMemory),
        Err(PieceFault::Flaw { at: behind, rule }) => Err(WordsFault::Refused {
            place: place_after(file, &bytes[..at + behind]),
            rule,
        }),
    }
}

/// The commands of a script, in order, each a list of words.
#[derive(Debug)]
pub struct Commands {
    lines: List<List<Word>>,
    end: Place,
}

/// By hand, so that what drops one calls this, and isn't followed through its fields.
impl Drop for Commands {
    fn drop(self) {
        let Commands { lines: _, end: _ } = self;
    }
}

impl Model for Commands {
    ghost use Rattle.tcl_words.specs.Script.{Script};

    ghost Value = { Script };

    ghost view = { λ c. record { commands = c.lines; end = c.end } };
}

/// The commands of bytes whose encoding is right, piece by piece.
fn commands_of(alloc: Global, file: u32, bytes: &[u8]) -> Result<Commands, WordsFault>
    requires short { length bytes.now < 2 ^ 31 }
    requires utf8 { IsUtf8 bytes.now }
    ensures { MatchResult result
        (λ script. (commands_of file bytes.now ≡ Ok script.commands) × (script.end ≡ place_after file bytes.now))
        (λ e. Refuses e (fault_of (commands_of file bytes.now))) }
{
    let mut lines = List::new(alloc);
    let mut words = List::new(alloc);
    let mut line = 1;
    let mut at = 0;
    'pieces: while at < bytes.len() {
        let found = piece_at(alloc, file, bytes, at, words.is_empty())?;
        let place = Place {
            file,
            line,
            byte: at as u64,
        };
        line += line_feeds(&bytes[at..at + found.len]);
        at += found.len;
        match found.piece {
            Piece::Gap => {}
            Piece::End => {
                push_line(&mut lines, words)?;
                words = List::new(alloc);
            }
            Piece::Says(text) => words.push(Word { text, place })?,
        }
    }
    push_line(&mut lines, words)?;
    let end = Place {
        file,
        line,
        byte: at as u64,
    };
    Ok(Commands { lines, end })
}

impl Commands {
    /// Reads the commands of a script. `file` is the number that places name.
    pub fn read(alloc: Global, file: u32, bytes: &[u8]) -> Result<Commands, WordsFault>
        requires { length bytes.now < 2 ^ 31 }
        // What is read is what the bytes spell.
        ensures spelled { IfOk result (Spells file bytes.now) }
        // What they spell is read, unless memory runs out.
        ensures only { (script : Script) → Spells file bytes.now script
            → MatchResult result (λ commands. commands ≡ script) (λ e. e ≡ WordsFault.NoMemory) }
        // A refusal is the first fault.
        ensures refused { IfErr result (λ e. Refuses e (first_word_fault file bytes.now)) }
        // Where there is a fault, nothing is read.
        ensures no_fault { OnOk result (first_word_fault file bytes.now ≡ None) }
    {
        check_encoding(file, bytes)?;
        commands_of(alloc, file, bytes)
    }

    /// How many commands there are.
    pub fn count(&self) -> usize
        ensures { result ≡ length self.now.commands }
    {
        self.lines.len()
    }

    /// The words of a command, of which there is at least one.
    pub fn command(&self, k: usize) -> &[Word]
        requires { k < length self.now.commands }
        ensures { slice_get self.now.commands k ≡ Some result.now }
    {
        let words = &self.lines.as_slice()[k];
        words.as_slice()
    }

    /// The place behind the last byte.
    pub fn end(&self) -> Place
        ensures { result ≡ self.now.end }
    {
        self.end
    }
}
