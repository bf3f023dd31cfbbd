//! The words of a row.

/// What stands before the first of a mark and what behind it; where there is none, the word and what stands for the rest.
pub fn parted<'a>(word: &'a str, mark: char, rest: &'a str) -> (&'a str, &'a str) {
    match word.split_once(mark) {
        Some(parts) => parts,
        None => (word, rest),
    }
}

/// The number of a decimal word.
pub fn small_number(word: &str) -> Option<u8> {
    word.parse().ok()
}

/// The number of a hexadecimal word.
pub fn hex_number(word: &str) -> Option<u128> {
    u128::from_str_radix(word, 16).ok()
}
