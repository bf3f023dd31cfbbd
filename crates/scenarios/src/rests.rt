//! Numbers of cycles to wait, of hosts and of sources.

ghost use Rattle.std.specs.Prelude.{◌≡◌, true, None, Some, Ok, Err, IfOk, IfErr, if◌then◌else◌};
ghost use Rattle.waves.specs.Words.{word_at};
ghost use Rattle.waves.specs.Spelling.{is_count, count_in};
ghost use Rattle.scenarios.specs.declared.faults.ScenarioRule.TheVariants.{Ranges};
ghost use Rattle.scenarios.specs.Hosts.{is_full, is_rest, rest_rule};

use crate::faults::{ScenarioRule, refuse_if};
use waves::{Words, count, is_count};

/// Whether so many statements leave no room for one more.
pub(crate) fn is_full(statements: usize) -> bool
    ensures { result ≡ is_full statements }
{
    4096 <= statements
}

/// The number of cycles that a word spells, 1 to 65,536.
pub(crate) fn cycles(word: &[u8]) -> Result<u32, ScenarioRule>
    requires { is_count word.now ≡ true }
    ensures { result ≡ (if is_rest (count_in word.now) then Ok (count_in word.now) else Err Ranges) }
{
    match count(word, 65_536) {
        Some(cycles) if 0 < cycles => Ok(cycles),
        _ => Err(ScenarioRule::Ranges),
    }
}

/// The cycles of a wait, behind so many statements of its interface.
#[tactic(auto, unfolding(crate::specs::Hosts::rest_rule))]
pub(crate) fn rest(early: bool, statements: usize, words: &Words) -> Result<u32, ScenarioRule>
    ensures kept { IfOk result (λ cycles. rest_rule early statements words.now ≡ None) }
    ensures value { IfOk result (λ cycles. cycles ≡ count_in (word_at 2 words.now)) }
    ensures broken { IfErr result (λ rule. rest_rule early statements words.now ≡ Some rule) }
{
    let word = words.word(2);
    refuse_if(!is_count(word), ScenarioRule::Spelling)?;
    let cycles = cycles(word)?;
    refuse_if(early, ScenarioRule::Beginning)?;
    refuse_if(is_full(statements), ScenarioRule::Limits)?;
    Ok(cycles)
}
