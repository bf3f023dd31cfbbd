ghost use Rattle.std.specs.Prelude.{◌≡◌, ◌≤◌};
ghost use Rattle.script_words.specs.Package.{asks_exact, qsys_place, package_checks};
ghost use Rattle.script_words.specs.Words.{refusal_of};

use crate::judge::Refusal;
use crate::places::package;
use crate::rule::CommandRule::PackageWords;
use crate::values::same_text;
use crate::words::{check, refusal_of, text};
use tcl_words::Word;

fn asks_exact(words: &[Word]) -> bool
    ensures { result ≡ asks_exact words.now }
{
    same_text(text(words, package::EXACT), "-exact")
}

#[tactic(auto, unfolding(crate::specs::Package::qsys_place))]
fn qsys_place(words: &[Word]) -> usize
    ensures place { result ≡ qsys_place words.now }
    ensures early { result ≤ 3 }
{
    if asks_exact(words) { 3 } else { 2 }
}

/// What refuses `package require [-exact] qsys [V]`.
#[tactic(auto, unfolding(crate::specs::Package::package_checks))]
pub fn judge_package(words: &[Word]) -> Option<Refusal>
    ensures { result ≡ refusal_of words.now (package_checks words.now) }
{
    let due = qsys_place(words);
    refusal_of(
        words,
        &[
            check(
                PackageWords,
                package::REQUIRE,
                !same_text(text(words, package::REQUIRE), "require"),
            ),
            check(
                PackageWords,
                package::EXACT,
                asks_exact(words) && words.len() <= 3,
            ),
            check(PackageWords, due, !same_text(text(words, due), "qsys")),
            check(PackageWords, due + 2, due + 2 < words.len()),
        ],
    )
}
