//! The symbols of a beat and the errors of beats, computed.

ghost use Rattle.std.specs.Prelude.{◌*◌, ◌<◌, ◌≤◌, ◌≡◌, ◌==◌, List, map, fold, bit_or};
ghost use Rattle.stream_runs.specs.View.{Beat, Side};
ghost use Rattle.stream_runs.specs.Symbols.{Symbol, symbol_count, value_of, joined_error};

/// How many symbols of a beat hold data. `empty` counts only where the beat ends a packet (`last`).
pub fn count_symbols(symbols: u8, last: bool, empty: u8) -> u8
    ensures { (side : Side) (beat : Beat) → side.symbols ≡ symbols → (beat.last == 1) ≡ last
        → beat.empty ≡ empty
        → result ≡ symbol_count side beat }
{
    if last {
        symbols.saturating_sub(empty)
    } else {
        symbols
    }
}

/// The data of symbol `number` of a word, counted from the first symbol of the beat on.
pub fn read_symbol(word: u128, symbols: u8, symbol_bits: u8, first_high: bool, number: u8) -> u128
    requires in_beat { number < symbols }
    requires some_bits { 0 < symbol_bits }
    requires fits { symbols * symbol_bits ≤ 128 }
    ensures { (side : Side) → side.symbols ≡ symbols → side.symbol_bits ≡ symbol_bits
        → side.first_high ≡ first_high
        → result ≡ value_of side word number }
{
    let place = if first_high {
        symbols - 1 - number
    } else {
        number
    };
    let shifted = word >> (u32::from(symbol_bits) * u32::from(place));
    if symbol_bits < 128 {
        shifted % (1 << symbol_bits)
    } else {
        shifted
    }
}

/// All bits that are set in one of the errors: the error of a beat that holds symbols with these errors.
pub fn join_errors(errors: &[u32]) -> u32
    ensures { (symbols : List Symbol) → map (λ symbol. symbol.error) symbols ≡ errors.now
        → result ≡ joined_error symbols }
{
    fold_errors(errors)
}

fn fold_errors(errors: &[u32]) -> u32
    ensures { result ≡ fold bit_or 0 errors.now }
{
    errors.iter().fold(0, |joined, error| joined | error)
}
