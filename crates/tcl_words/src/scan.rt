//! What the bytes of a script are, and how far a run of them goes.

ghost use Rattle.std.specs.Prelude.{◌≡◌, ◌≤◌, ◌<◌, ◌+◌, ◌^◌, ◌==◌, length, count_by, IsTrue, false};
ghost use Rattle.std.specs.List.{prefix_len};
ghost use Rattle.tcl_words.specs.Bytes.{line_feed, is_space_or_tab, is_blank, is_separator, substitutes, begins_with_line_feed, begins_with_line_end, ends_word};
ghost use Rattle.tcl_words.specs.Reading.{join_tail, comment_len};

fn is_space_or_tab(byte: u8) -> bool
    ensures { result ≡ is_space_or_tab byte }
{
    matches!(byte, b' ' | b'\t')
}

pub(crate) fn is_blank(byte: u8) -> bool
    ensures { result ≡ is_blank byte }
{
    is_space_or_tab(byte) || matches!(byte, 0x0b | 0x0c | b'\r')
}

pub(crate) fn is_separator(byte: u8) -> bool
    ensures { result ≡ is_separator byte }
{
    matches!(byte, b'\n' | b';')
}

pub(crate) fn substitutes(byte: u8) -> bool
    ensures { result ≡ substitutes byte }
{
    matches!(byte, b'$' | b'[')
}

pub(crate) fn begins_with_line_feed(bytes: &[u8]) -> bool
    ensures { result ≡ begins_with_line_feed bytes.now }
{
    matches!(bytes, [b'\n', ..])
}

/// Whether the bytes begin with a line feed, or with a carriage return and a line feed.
pub(crate) fn begins_with_line_end(bytes: &[u8]) -> bool
    ensures { result ≡ begins_with_line_end bytes.now }
{
    match bytes {
        [b'\n', ..] => true,
        [b'\r', rest @ ..] => begins_with_line_feed(rest),
        _ => false,
    }
}

/// Whether a word that stands before the bytes may end here.
pub(crate) fn ends_word(bytes: &[u8]) -> bool
    ensures { result ≡ ends_word bytes.now }
{
    match bytes {
        [] => true,
        [b'\\', rest @ ..] => begins_with_line_end(rest),
        [byte, ..] => is_blank(*byte) || is_separator(*byte),
    }
}

fn spaces_len(bytes: &[u8]) -> usize
    ensures length { result ≡ prefix_len is_space_or_tab bytes.now }
    ensures within { result ≤ length bytes.now }
{
    let mut count = 0;
    'spaces: for byte in bytes {
        if !is_space_or_tab(*byte) {
            return count;
        }
        count += 1;
    }
    count
}

/// How many of the bytes behind a backslash belong to the line join that it begins.
pub(crate) fn join_tail(bytes: &[u8]) -> usize
    requires { IsTrue (begins_with_line_end bytes.now) }
    ensures tail { result ≡ join_tail bytes.now }
    ensures within { result ≤ length bytes.now }
{
    let end = if begins_with_line_feed(bytes) { 1 } else { 2 };
    end + spaces_len(&bytes[end..])
}

/// How far the comment goes on behind its `#`.
pub(crate) fn comment_len(bytes: &[u8]) -> usize
    ensures length { result ≡ comment_len false bytes.now }
    ensures within { result ≤ length bytes.now }
{
    let mut odd = false;
    let mut at = 0;
    'comment: while at < bytes.len() {
        match bytes[at] {
            b'\n' if !odd => return at,
            b'\n' => odd = false,
            b'\\' => odd = !odd,
            b'\r' => odd = odd && begins_with_line_feed(&bytes[at + 1..]),
            _ => odd = false,
        }
        at += 1;
    }
    at
}

/// How many line feeds there are.
pub(crate) fn line_feeds(bytes: &[u8]) -> u32
    requires { length bytes.now < 2 ^ 31 }
    ensures { result ≡ count_by (λ byte. byte == line_feed) bytes.now }
{
    let mut count = 0;
    'feeds: for byte in bytes {
        if *byte == b'\n' {
            count += 1;
        }
    }
    count
}
