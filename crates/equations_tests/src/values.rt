//! Values of rows, in hexadecimal.

use av_base::Val;
use std::alloc::AllocError;

fn number_of(word: Option<&str>) -> Option<u128> {
    u128::from_str_radix(word?, 16).ok()
}

/// Three values of these widths, as `1/5/ab`.
pub(crate) fn three_of(word: &str, widths: (u8, u8, u8)) -> Option<[Val; 3]> {
    let mut parts = word.split('/');
    let a = Val::new(widths.0, number_of(parts.next())?)?;
    let b = Val::new(widths.1, number_of(parts.next())?)?;
    let c = Val::new(widths.2, number_of(parts.next())?)?;
    Some([a, b, c])
}

/// A width and the words behind it; 0 where there is none.
pub(crate) fn width_of(words: &str) -> (u8, &str) {
    let (width, words) = words.split_once(' ').unwrap_or(("0", words));
    (width.parse().unwrap_or(0), words)
}

pub(crate) fn push_value(text: &mut String, value: Option<u128>) -> Result<(), AllocError> {
    match value {
        Some(value) => write!(text, " {value:x}"),
        None => text.push_str(" none"),
    }
}
