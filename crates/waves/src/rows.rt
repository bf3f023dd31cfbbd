//! The values of a cycle, as they stand on a line.

ghost use Rattle.std.specs.Prelude.{◌≡◌, length, map, is_some, All, Some, true};
ghost use Rattle.av_base.specs.Word.{Word};
ghost use Rattle.waves.specs.Rows.{IsWidth, row_of, row_rule};

use crate::cuts::{first_text, text_count, text_end};
use crate::digits::value_in;
use crate::faults::WavesRule;
use av_base::Val;

/// Whether the line has a value of each width.
fn is_row(widths: &[u8], line: &[u8]) -> bool
    requires { All IsWidth widths.now }
    ensures { result ≡ is_some (row_of widths.now line.now) }
{
    let mut at = first_text(line);
    'values: for width in widths {
        if line.len() < at {
            return false;
        }
        let end = text_end(line, at);
        if value_in(*width, &line[at..end]).is_none() {
            return false;
        }
        at = end + 1;
    }
    line.len() < at
}

/// What is wrong with a line of values.
pub(crate) fn row_rule(widths: &[u8], line: &[u8]) -> Option<WavesRule>
    requires { All IsWidth widths.now }
    ensures { result ≡ row_rule widths.now line.now }
{
    if text_count(line) != widths.len() {
        return Some(WavesRule::Values);
    }
    if is_row(widths, line) {
        None
    } else {
        Some(WavesRule::Spelling)
    }
}

/// Reads the values of a line that has one of each width.
pub(crate) fn read_row(widths: &[u8], line: &[u8], into: &mut [Val])
    requires widths { All IsWidth widths.now }
    requires count { length into.old ≡ length widths.now }
    requires row { is_some (row_of widths.now line.now) ≡ true }
    ensures row { row_of widths.now line.now ≡ Some into.new }
    ensures widths { map (λ (value : Word). value.width) into.new ≡ widths.now }
{
    let mut at = first_text(line);
    'values: for (k, width) in widths.iter().enumerate() {
        let end = text_end(line, at);
        into[k] = value_in(*width, &line[at..end]).unwrap();
        at = end + 1;
    }
}
