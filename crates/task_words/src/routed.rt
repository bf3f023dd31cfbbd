//! The words that ask for a module that leads beats by their channels, and the numbers among words.

ghost use Rattle.std.specs.Prelude.{◌≡◌, ◌≢◌, ◌↔◌, ℕ, ◌^◌, ◌<◌, decimal, map, string_bytes, [], ◌∷◌, MatchOption, IsTrue};
ghost use Rattle.routed_modules.specs.declared.routed.Routed.{Routed as Wanted};
ghost use Rattle.routed_modules.specs.declared.routed.Routed.TheVariants.{Gatherer};
ghost use Rattle.task_words.specs.Asking.{module_word, numbers_of, IsModuleWord, IsPacketsWord, HasPackets, AreWordsOf, AsksForModule, IsSpelled, AreSpelled};

use av_base::lines::Line;
use routed_modules::Routed;

/// The number that a word spells in decimal, without a sign or leading zeros.
pub fn number_of(word: &str) -> Option<u32>
    ensures { MatchOption result ((n : ℕ) → n < 2 ^ 32 → word.now ≢ decimal n) (λ n. word.now ≡ decimal n) }
{
    let Ok(number) = word.parse::<u32>() else {
        return None;
    };
    let mut spelled = Line::new();
    spelled.put_number(u64::from(number));
    if spelled.as_slice() == word.as_bytes() {
        Some(number)
    } else {
        None
    }
}

/// The same of a number below 256.
fn small_number_of(word: &str) -> Option<u8>
    ensures { MatchOption result ((n : ℕ) → ¬ IsSpelled word.now n) (IsSpelled word.now) }
{
    let Some(number) = number_of(word) else {
        return None;
    };
    if number < 256 {
        Some(number as u8)
    } else {
        None
    }
}

/// Whether a word asks for a module with packets.
fn is_packets_word(word: &str) -> bool
    ensures { IsTrue result ↔ IsPacketsWord word.now }
{
    word == "mux" || word == "demux"
}

/// Whether a word asks for such a module, whatever stands behind it.
pub fn is_module_word(word: &str) -> bool
    ensures { IsTrue result ↔ IsModuleWord word.now }
{
    is_packets_word(word) || word == "gather"
}

/// Whether so many words are a module's, and its numbers in their ranges.
pub fn are_words_of(routed: Routed, words: usize) -> bool
    ensures { IsTrue result ↔ AreWordsOf routed words }
{
    let count = match routed {
        Routed::Multiplexer { .. } => 4,
        Routed::Demultiplexer { .. } => 4,
        Routed::Gatherer { .. } => 5,
    };
    words == count && routed.has_sizes()
}

/// Three numbers that words spell.
fn three_numbers(first: &str, second: &str, third: &str) -> Option<(u8, u8, u8)>
    ensures { MatchOption result
        ((a b c : ℕ)
        → ¬ AreSpelled first.now second.now third.now a b c) (λ n. AreSpelled first.now second.now third.now n.0 n.1 n.2) }
{
    let Some(a) = small_number_of(first) else {
        return None;
    };
    let Some(b) = small_number_of(second) else {
        return None;
    };
    let Some(c) = small_number_of(third) else {
        return None;
    };
    Some((a, b, c))
}

/// The module with packets that a word asks for, with these numbers.
fn module_of(word: &str, ends: u8, symbols: u8, bits: u8) -> Option<Routed>
    ensures { MatchOption result
        (¬ IsPacketsWord word.now) (λ wanted. (module_word wanted ≡ word.now)
        × (numbers_of wanted ≡ ends ∷ symbols ∷ bits ∷ [])) }
{
    if word == "mux" {
        return Some(Routed::Multiplexer {
            inputs: ends,
            symbols,
            bits,
        });
    }
    if word == "demux" {
        return Some(Routed::Demultiplexer {
            outputs: ends,
            symbols,
            bits,
        });
    }
    None
}

/// Reads the words that ask for a module with packets.
fn read_packets(words: &[String]) -> Option<Routed>
    ensures { MatchOption result
        ((wanted : Wanted) → HasPackets wanted
        → ¬ AsksForModule wanted (map string_bytes words.now)) (λ wanted. AsksForModule wanted (map string_bytes words.now)) }
{
    let [command, ends, symbols, bits] = words else {
        return None;
    };
    let Some((ends, symbols, bits)) = three_numbers(ends.as_str(), symbols.as_str(), bits.as_str())
    else {
        return None;
    };
    let Some(routed) = module_of(command.as_str(), ends, symbols, bits) else {
        return None;
    };
    if routed.has_sizes() {
        Some(routed)
    } else {
        None
    }
}

/// Reads the words that ask for a gatherer.
fn read_gatherer(words: &[String]) -> Option<Routed>
    ensures { MatchOption result
        ((channels symbols parts bits : ℕ)
        → ¬ AsksForModule (Gatherer channels symbols parts bits) (map string_bytes words.now)) (λ wanted. AsksForModule wanted
        (map string_bytes words.now)) }
{
    let [command, channels, symbols, parts, bits] = words else {
        return None;
    };
    if command.as_str() != "gather" {
        return None;
    }
    let Some((channels, symbols, parts)) = three_numbers(
        channels.as_str(),
        symbols.as_str(),
        parts.as_str(),
    ) else {
        return None;
    };
    let Some(bits) = small_number_of(bits.as_str()) else {
        return None;
    };
    let routed = Routed::Gatherer {
        channels,
        symbols,
        parts,
        bits,
    };
    if routed.has_sizes() {
        Some(routed)
    } else {
        None
    }
}

/// Reads the words that ask for such a module.
pub fn read_routed(words: &[String]) -> Option<Routed>
    ensures { MatchOption result
        ((wanted : Wanted)
        → ¬ AsksForModule wanted (map string_bytes words.now)) (λ wanted. AsksForModule wanted (map string_bytes words.now)) }
{
    if let Some(routed) = read_packets(words) {
        return Some(routed);
    }
    let Some(routed) = read_gatherer(words) else {
        return None;
    };
    Some(routed)
}
