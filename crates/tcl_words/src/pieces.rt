//! The piece at the front of a script: a gap, the end of a command, or a word.

ghost use Rattle.std.specs.Prelude.{◌≡◌, ◌==◌, ◌&&◌, ◌<◌, ◌≤◌, ◌+◌, [], ◌++◌, length, drop, slice_index, IfOk, OnOk, MatchResult, IsTrue, IsUtf8, false};
ghost use Rattle.tcl_words.specs.Bytes.{hash, ends_word, kept};
ghost use Rattle.tcl_words.specs.Reading.{Finds, IsWithin, view, bare_len, braced, quoted, grouped, join_of, word_of, piece_of};

use crate::rule::Rule;
use crate::scan::{
    begins_with_line_end, begins_with_line_feed, comment_len, ends_word, is_blank, is_separator,
    join_tail, substitutes,
};
use av_base::{Bytes, NoMemory, Text};
use std::alloc::Global;

/// What a piece of a script says.
#[derive(Drop)]
pub(crate) enum Piece {
    /// Nothing: a blank, a line join or a comment.
    Gap,
    /// The end of a command.
    End,
    /// A word with this text.
    Says(Text),
}

/// A piece, and how many bytes it takes.
#[derive(Drop)]
pub(crate) struct Found {
    pub piece: Piece,
    pub len: usize,
}

/// The text of a word in braces or quotes, and how many bytes the word takes.
#[derive(Drop)]
struct Group {
    text: Bytes,
    len: usize,
}

/// Why there is no piece.
#[derive(Clone, Copy)]
pub(crate) enum PieceFault {
    /// A rule is broken, so many bytes behind the front.
    Flaw { at: usize, rule: Rule },
    NoMemory,
}

impl From<NoMemory> for PieceFault {
    ghost use Rattle.std.specs.Prelude.{◌≡◌};
    ghost use Rattle.tcl_words.specs.declared.pieces.PieceFault.TheVariants.{NoMemory as NoRoom};

    ghost from_gives = { λ _ e. e ≡ NoRoom };

    fn from(_e: NoMemory) -> PieceFault {
        PieceFault::NoMemory
    }
}

fn flaw<T>(at: usize, rule: Rule) -> Result<T, PieceFault>
    ensures { result ≡ Err (PieceFault.Flaw at rule) }
{
    Err(PieceFault::Flaw { at, rule })
}

/// How many bytes the bare word at the front takes.
fn bare_len(bytes: &[u8]) -> Result<usize, PieceFault>
    requires { ends_word bytes.now ≡ false }
    ensures found { Finds (λ len. len) result (bare_len 0 bytes.now) }
    ensures within { MatchResult result (λ len. (0 < len) × (len ≤ length bytes.now)) (IsWithin (length bytes.now)) }
    ensures ends { IfOk result (λ len. IsTrue (ends_word (drop len bytes.now))) }
{
    let mut at = 0;
    'bare: while !ends_word(&bytes[at..]) {
        let byte = bytes[at];
        if substitutes(byte) {
            return flaw(at, Rule::Substitution);
        }
        if byte == b'\\' {
            return flaw(at, Rule::Backslash);
        }
        at += 1;
    }
    Ok(at)
}

/// Adds what a byte inside braces or quotes stands for: nothing where it is a carriage return before a line feed.
fn push_kept(text: &mut Bytes, bytes: &[u8], at: usize) -> Result<(), NoMemory>
    requires { at < length bytes.now }
    ensures { OnOk result (text.new ≡ text.old ++ kept (slice_index bytes.now at) (drop (at + 1) bytes.now)) }
{
    let byte = bytes[at];
    if byte == b'\r' && begins_with_line_feed(&bytes[at + 1..]) {
        return Ok(());
    }
    text.push(byte)
}

/// The word in braces at the front, up to the brace that closes it.
fn braced(alloc: Global, bytes: &[u8]) -> Result<Group, PieceFault>
    requires { 0 < length bytes.now }
    ensures found { Finds (λ group. record { value = group.text; len = group.len }) result (braced 0 1 0 [] (drop 1 bytes.now)) }
    ensures within { MatchResult result (λ group. (0 < group.len) × (group.len ≤ length bytes.now))
        (IsWithin (length bytes.now)) }
{
    let mut text = Bytes::new(alloc);
    let mut depth = 0usize;
    let mut at = 1;
    'braced: while at < bytes.len() {
        match bytes[at] {
            b'}' if depth == 0 => return Ok(Group { text, len: at + 1 }),
            b'}' => {
                text.push(b'}')?;
                depth -= 1;
                at += 1;
            }
            b'{' => {
                text.push(b'{')?;
                depth += 1;
                at += 1;
            }
            b'\\' if begins_with_line_end(&bytes[at + 1..]) => {
                text.push(b' ')?;
                at += 1 + join_tail(&bytes[at + 1..]);
            }
            b'\\' => {
                text.append(&bytes[at..bytes.len().min(at + 2)])?;
                at += 2;
            }
            _ => {
                push_kept(&mut text, bytes, at)?;
                at += 1;
            }
        }
    }
    flaw(0, Rule::OpenBrace)
}

/// The word in quotes at the front, up to the quote that closes it.
fn quoted(alloc: Global, bytes: &[u8]) -> Result<Group, PieceFault>
    requires { 0 < length bytes.now }
    ensures found { Finds (λ group. record { value = group.text; len = group.len }) result (quoted 0 1 [] (drop 1 bytes.now)) }
    ensures within { MatchResult result (λ group. (0 < group.len) × (group.len ≤ length bytes.now))
        (IsWithin (length bytes.now)) }
{
    let mut text = Bytes::new(alloc);
    let mut at = 1;
    'quoted: while at < bytes.len() {
        let byte = bytes[at];
        if byte == b'"' {
            return Ok(Group { text, len: at + 1 });
        }
        if substitutes(byte) {
            return flaw(at, Rule::Substitution);
        }
        if byte == b'\\' {
            if !begins_with_line_end(&bytes[at + 1..]) {
                return flaw(at, Rule::Backslash);
            }
            text.push(b' ')?;
            at += 1 + join_tail(&bytes[at + 1..]);
        } else {
            push_kept(&mut text, bytes, at)?;
            at += 1;
        }
    }
    flaw(0, Rule::OpenQuote)
}

/// Bytes as text.
fn text_of(alloc: Global, bytes: &[u8]) -> Result<Text, NoMemory>
    requires { IsUtf8 bytes.now }
    ensures { IfOk result (λ text. text ≡ bytes.now) }
{
    match str::from_utf8(bytes) {
        Ok(text) => Text::copy(alloc, text),
        Err(_) => unreachable!(),
    }
}

/// A word in braces or quotes as a piece, where the word ends behind it.
fn grouped(alloc: Global, bytes: &[u8], group: Group) -> Result<Found, PieceFault>
    requires utf8 { IsUtf8 group.text }
    requires within { group.len ≤ length bytes.now }
    ensures found { Finds view result (grouped bytes.now (record { value = group.text; len = group.len })) }
    ensures len { MatchResult result (λ piece. piece.len ≡ group.len) (IsWithin (length bytes.now)) }
{
    if !ends_word(&bytes[group.len..]) {
        return flaw(group.len, Rule::AfterClose);
    }
    Ok(Found {
        piece: Piece::Says(text_of(alloc, group.text.as_slice())?),
        len: group.len,
    })
}

/// The line join at the front, which begins with a backslash.
fn join_of(bytes: &[u8]) -> Result<Found, PieceFault>
    requires { 0 < length bytes.now }
    ensures found { Finds view result (join_of (drop 1 bytes.now)) }
    ensures within { MatchResult result (λ piece. (0 < piece.len) × (piece.len ≤ length bytes.now))
        (IsWithin (length bytes.now)) }
{
    if !begins_with_line_end(&bytes[1..]) {
        return flaw(0, Rule::Backslash);
    }
    Ok(Found {
        piece: Piece::Gap,
        len: 1 + join_tail(&bytes[1..]),
    })
}

/// The word at the front.
fn word_of(alloc: Global, bytes: &[u8]) -> Result<Found, PieceFault>
    requires goes_on { ends_word bytes.now ≡ false }
    requires utf8 { IsUtf8 bytes.now }
    ensures found { Finds view result (word_of (slice_index bytes.now 0) (drop 1 bytes.now)) }
    ensures within { MatchResult result (λ piece. (0 < piece.len) × (piece.len ≤ length bytes.now))
        (IsWithin (length bytes.now)) }
{
    let byte = bytes[0];
    if byte == b'{' {
        let group = braced(alloc, bytes)?;
        return grouped(alloc, bytes, group);
    }
    if byte == b'"' {
        let group = quoted(alloc, bytes)?;
        return grouped(alloc, bytes, group);
    }
    let len = bare_len(bytes)?;
    Ok(Found {
        piece: Piece::Says(text_of(alloc, &bytes[..len])?),
        len,
    })
}

fn begins_comment(fresh: bool, byte: u8) -> bool
    ensures { result ≡ (byte == hash && fresh) }
{
    byte == b'#' && fresh
}

/// The piece at the front of the bytes. `fresh` says whether a command would begin here.
pub(crate) fn piece_of(alloc: Global, fresh: bool, bytes: &[u8]) -> Result<Found, PieceFault>
    requires some { 0 < length bytes.now }
    requires utf8 { IsUtf8 bytes.now }
    ensures found { Finds view result (piece_of fresh bytes.now) }
    ensures within { MatchResult result (λ piece. (0 < piece.len) × (piece.len ≤ length bytes.now))
        (IsWithin (length bytes.now)) }
{
    let byte = bytes[0];
    if is_blank(byte) {
        return Ok(Found {
            piece: Piece::Gap,
            len: 1,
        });
    }
    if is_separator(byte) {
        return Ok(Found {
            piece: Piece::End,
            len: 1,
        });
    }
    if byte == b'\\' {
        return join_of(bytes);
    }
    if begins_comment(fresh, byte) {
        return Ok(Found {
            piece: Piece::Gap,
            len: 1 + comment_len(&bytes[1..]),
        });
    }
    word_of(alloc, bytes)
}
