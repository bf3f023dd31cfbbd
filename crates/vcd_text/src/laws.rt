//! What holds of the text of a dump. The functions do nothing; their contracts are the laws.

ghost use Rattle.std.specs.Prelude.{◌≡◌, ◌+◌, ◌^◌, ◌++◌, [], ◌∷◌, List, length, codes};
ghost use Rattle.av_base.specs.Word.{Word, word};
ghost use Rattle.vcd_text.specs.Text.{code, binary, value_line, rows_text, row_text, last_row, dump_text};
ghost use Rattle.vcd_text.specs.Worked.{inverter, inverter_text, counter, counter_text, portless, portless_text};

#[tactic(auto, unfolding(crate::specs::Text::code))]
/// Small dumps and their texts.
pub fn dumps_are_spelled()
    ensures inverter { dump_text inverter ≡ inverter_text }
    ensures counter { dump_text counter ≡ counter_text }
    ensures portless { dump_text portless ≡ portless_text }
{}

#[tactic(auto, unfolding(crate::specs::Text::code))]
/// Codes of one, two and three bytes.
pub fn codes_are_spelled()
    ensures first { code 0 ≡ codes "!" }
    ensures last_of_one { code 93 ≡ codes "~" }
    ensures first_of_two { code 94 ≡ codes "!!" }
    ensures second_of_two { code 95 ≡ codes "\"!" }
    ensures last_of_two { code 8929 ≡ codes "~~" }
    ensures first_of_three { code 8930 ≡ codes "!!!" }
{}

#[tactic(auto, unfolding(crate::specs::Text::code))]
/// Values of several widths.
pub fn values_are_spelled()
    ensures bit { value_line 0 (word 1 1) ≡ codes "1!\n" }
    ensures zero { value_line 1 (word 2 0) ≡ codes "b0 \"\n" }
    ensures no_leading_zero { value_line 0 (word 8 5) ≡ codes "b101 !\n" }
    ensures widest { binary 128 (2 ^ 127 + 1)
        ≡ codes "10000000000000000000000000000000000000000000000000000000000000000000000000000000000000000000000000000000000000000000000000000001" }
{}

/// What is written of rows one after the other is their text.
pub fn rows_are_joined()
    ensures { (before row : List Word) (rows : List (List Word))
        → rows_text (rows ++ row ∷ []) ≡ rows_text rows ++ row_text (length rows) (last_row before rows) row }
{}
