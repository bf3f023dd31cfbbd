ghost use Rattle.std.specs.Prelude.{◌<◌, ◌^◌, length};

use av_base::Place;
use std::process::Abort;
use std::test::Fail;
use tcl_words::{Commands, Word};

/// What is left of a text behind these words, each in angles, and a bar.
fn behind<'a>(words: &[Word], text: &'a str) -> Option<&'a str> {
    let mut rest = text;
    for word in words {
        rest = rest.strip_prefix('<')?;
        rest = rest.strip_prefix(word.text.as_str())?;
        rest = rest.strip_prefix('>')?;
    }
    rest.strip_prefix('|')
}

/// What is left of a text behind all commands.
fn behind_all<'a>(commands: &Commands, text: &'a str) -> Option<&'a str> {
    let mut rest = text;
    for k in 0..commands.count() {
        rest = behind(commands.command(k), rest)?;
    }
    Some(rest)
}

/// Scripts, and their words, each in angles, with a bar behind each command.
const WORDS: [(&str, &str); 17] = [
    ("", ""),
    ("\n\n ; ;\t\r\n", ""),
    ("a b\tc\x0bd\x0ce\rf\n g", "<a><b><c><d><e><f>|<g>|"),
    ("a;b ; c\n;d", "<a>|<b>|<c>|<d>|"),
    ("a{b}c d\"e\" f# g}h", "<a{b}c><d\"e\"><f#><g}h>|"),
    ("{} \"\" {a {b} c}\n", "<><><a {b} c>|"),
    ("{a;\n#\"$[\\{\\}x\\\\}", "<a;\n#\"$[\\{\\}x\\\\>|"),
    ("{a\\\n \t b\\\r\n\\\n}", "<a b  >|"),
    ("{a\r\nb\rc\r\r\nd\r}", "<a\nb\rc\r\nd\r>|"),
    ("\"a {;\n# b\\\n c\r\n\rd\"", "<a {;\n# b c\n\rd>|"),
    ("a\\\n  b\\\r\nc {d}\\\ne", "<a><b><c><d><e>|"),
    ("# a \\\nb\nc", "<c>|"),
    ("# a \\\\\nb", "<b>|"),
    ("# a \\\\\\\r\nb\r\n c", "<c>|"),
    ("# a \\\r\r\nb", "<b>|"),
    (" \\\n # a {\n;#\"$\n b # c", "<b><#><c>|"),
    (
        "\u{e9}\u{20ac}{\u{1f600}} {\\\u{e9}}",
        "<\u{e9}\u{20ac}{\u{1f600}}><\\\u{e9}>|",
    ),
];

#[test]
fn splits_words(rt: HostRuntime) -> Result<(), Fail> {
    for (script, words) in &WORDS {
        let bytes = script.as_bytes();
        if bytes.len() > 100 {
            return Err("a long script".into());
        }
        let commands = Commands::read(rt.alloc(), 3, bytes)?;
        assert_eq!(rt; behind_all(&commands, words), Some(""), "{script:?}");
    }
    Ok(())
}

/// Whether each word of the command begins at its place.
fn begin_at(words: &[Word], places: &[(u32, u64)]) -> bool {
    let mut begin = words.len() == places.len();
    for (word, (line, byte)) in words.iter().zip(places) {
        begin &= word.place.line == *line && word.place.byte == *byte;
    }
    begin
}

fn judge_places(rt: &impl Abort, commands: &Commands) {
    assert_eq!(rt; commands.count(), 2);
    let places = [(1, 0), (1, 2), (2, 8), (3, 14)];
    assert!(rt; begin_at(commands.command(0), &places));
    assert!(rt; begin_at(commands.command(1), &[(6, 21)]));
    let end = Place {
        file: 3,
        line: 6,
        byte: 23,
    };
    assert_eq!(rt; commands.end(), end);
}

#[test]
fn places_words(rt: HostRuntime) -> Result<(), Fail> {
    let text = b"a {b\nc} \"d\"\\\n e\n# \\\n\nf ";
    judge_places(&rt, &Commands::read(rt.alloc(), 3, text)?);
    Ok(())
}
