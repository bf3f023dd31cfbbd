//! What the commands of hosts keep.

ghost use Rattle.std.specs.Prelude.{◌≡◌, true, Ok, Err, if◌then◌else◌};
ghost use Rattle.std.specs.List.{list_all};
ghost use Rattle.iface_roles.specs.Proper.{IsBoundedHost};
ghost use Rattle.waves.specs.Spelling.{is_hexadecimal, is_count, count_in};
ghost use Rattle.waves.specs.Words.{word_at};
ghost use Rattle.scenarios.specs.declared.faults.ScenarioRule.TheVariants.{Transfers};
ghost use Rattle.scenarios.specs.Hosts.{word_bits, fits_word, fits_command, spells_write, spells_read, can_write, can_read};

use crate::faults::ScenarioRule;
use crate::ports::{all_lanes, fits, longest, range};
use iface_roles::HostPort;
use waves::{Words, count, hexadecimal, is_count, is_hexadecimal};

/// Whether all words that are left spell hexadecimal numbers.
fn are_hexadecimal(words: &Words) -> bool
    ensures { result ≡ list_all is_hexadecimal words.now }
{
    let mut left = words.from(0);
    'words: while !left.is_empty() {
        if !is_hexadecimal(left.first()) {
            return false;
        }
        left = left.rest();
    }
    true
}

/// The bits of the words that a host writes; none where it doesn't write.
fn word_bits(host: &HostPort) -> u32
    ensures { result ≡ word_bits host.now }
{
    if host.writes {
        8 * u32::from(host.word_bytes)
    } else {
        0
    }
}

/// Whether all words that are left have room in a host's words.
pub(crate) fn are_words(host: &HostPort, words: &Words) -> bool
    requires { list_all is_hexadecimal words.now ≡ true }
    ensures { result ≡ list_all (fits_word host.now) words.now }
{
    let bits = word_bits(host);
    let mut left = words.from(0);
    'words: while !left.is_empty() {
        if !fits(hexadecimal(left.first()), bits) {
            return false;
        }
        left = left.rest();
    }
    true
}

/// Whether the address and the byte enables of a command fit its host.
pub(crate) fn fits_command(host: &HostPort, words: &Words) -> bool
    requires host { IsBoundedHost host.now }
    requires address { is_hexadecimal (word_at 2 words.now) ≡ true }
    requires enables { is_hexadecimal (word_at 3 words.now) ≡ true }
    ensures { result ≡ fits_command host.now words.now }
{
    let enables = hexadecimal(words.word(3));
    let all = u128::from(all_lanes(host));
    hexadecimal(words.word(2)) < u128::from(range(host))
        && (enables <= all && (host.enables || enables == all))
}

pub(crate) fn spells_write(words: &Words) -> bool
    ensures { result ≡ spells_write words.now }
{
    is_hexadecimal(words.word(2))
        && (is_hexadecimal(words.word(3)) && are_hexadecimal(&words.from(4)))
}

/// Whether a host can write so many words by one command.
pub(crate) fn can_write(host: &HostPort, beats: usize) -> bool
    requires { IsBoundedHost host.now }
    ensures { result ≡ can_write host.now beats }
{
    host.writes && (1 <= beats && beats <= usize::from(longest(host)))
}

pub(crate) fn spells_read(words: &Words) -> bool
    ensures { result ≡ spells_read words.now }
{
    is_hexadecimal(words.word(2)) && (is_hexadecimal(words.word(3)) && is_count(words.word(4)))
}

/// How many words a host reads by one command, where it can read so many.
pub(crate) fn read_count(host: &HostPort, word: &[u8]) -> Result<u16, ScenarioRule>
    requires host { IsBoundedHost host.now }
    requires count { is_count word.now ≡ true }
    ensures { result ≡ (if can_read host.now (count_in word.now) then Ok (count_in word.now) else Err Transfers) }
{
    match count(word, u32::from(longest(host))) {
        Some(count) if host.reads && 1 <= count => Ok(count as u16),
        _ => Err(ScenarioRule::Transfers),
    }
}
