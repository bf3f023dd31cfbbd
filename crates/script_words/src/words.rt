ghost use Rattle.std.specs.Prelude.{◌≡◌, find};
ghost use Rattle.script_words.specs.Words.{text_at, place_at, check, refused_at, refusal_of, is_misdirected};

use crate::faults::ScriptRule;
use crate::judge::{Check, Refusal};
use crate::places::add_interface;
use crate::rule::CommandRule;
use crate::values::{kind_named, side_named};
use av_base::Place;
use tcl_words::Word;

/// The text of a command's word, empty where it has no such word.
#[tactic(auto, unfolding(crate::specs::Words::text_at))]
pub fn text(words: &[Word], k: usize) -> &str
    ensures { result.now ≡ text_at words.now k }
{
    match words.get(k) {
        Some(word) => word.text.as_str(),
        None => "",
    }
}

/// Where a command's word stands.
#[tactic(auto, unfolding(crate::specs::Words::place_at))]
pub fn place(words: &[Word], k: usize) -> Place
    ensures { result ≡ place_at words.now k }
{
    match words.get(k) {
        Some(word) => word.place,
        None => Place {
            file: 0,
            line: 0,
            byte: 0,
        },
    }
}

/// What a rule asks of a word, and whether it fails there.
pub fn check(rule: CommandRule, word: usize, fails: bool) -> Check
    ensures { result ≡ check rule word fails }
{
    Check { rule, word, fails }
}

/// The rule refuses the command at this word.
pub fn refused_at(words: &[Word], rule: CommandRule, word: usize) -> Refusal
    ensures { result ≡ refused_at words.now rule word }
{
    Refusal {
        place: place(words, word),
        rule: ScriptRule::Command(rule.number()),
    }
}

fn first_failed(checks: &[Check]) -> Option<Check>
    ensures { result ≡ find (λ asked. asked.fails) checks.now }
{
    checks.iter().copied().find(|asked| asked.fails)
}

/// What refuses a command of which all this is asked, by rule and then by word.
#[tactic(auto, unfolding(crate::specs::Words::refusal_of))]
pub fn refusal_of(words: &[Word], checks: &[Check]) -> Option<Refusal>
    ensures { result ≡ refusal_of words.now checks.now }
{
    let failed = first_failed(checks)?;
    Some(refused_at(words, failed.rule, failed.word))
}

/// Whether the direction in the words `KIND DIRECTION` of `add_interface` isn't one of the kind.
#[tactic(auto, unfolding(crate::specs::Words::is_misdirected))]
pub fn is_misdirected(words: &[Word]) -> bool
    ensures { result ≡ is_misdirected words.now }
{
    match kind_named(text(words, add_interface::KIND)) {
        Some(kind) => side_named(kind, text(words, add_interface::DIRECTION)).is_none(),
        None => false,
    }
}
