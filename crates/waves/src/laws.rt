//! What holds of every waves file, and small files that show it. The functions do nothing; their contracts are the laws.

ghost use Rattle.std.specs.Prelude.{◌≡◌, ◌⊎◌, ℕ, List, [], ◌∷◌, codes};
ghost use Rattle.av_base.specs.Word.{Word, word};
ghost use Rattle.waves.specs.Waves.{IsWavesOf, IsFaultOf};
ghost use Rattle.waves.specs.declared.faults.WavesRule.{WavesRule};
ghost use Rattle.waves.specs.declared.faults.WavesRule.TheVariants.{Lines, Values, Spelling};
ghost use Rattle.waves.specs.declared.faults.WavesFault.TheVariants.{Refused};

/// Each file has rows or a first fault.
pub fn rows_or_fault()
    ensures { (widths bytes : List ℕ)
        → ((rows : List (List Word)) × IsWavesOf widths bytes rows)
        ⊎ ((line : ℕ) × (rule : WavesRule) × IsFaultOf widths bytes (Refused line rule)) }
{}

/// A file is refused or has rows, and never both.
pub fn never_both()
    ensures { (widths bytes : List ℕ) (rows : List (List Word)) (line : ℕ) (rule : WavesRule) → IsWavesOf widths bytes rows
        → ¬ (IsFaultOf widths bytes (Refused line rule)) }
{}

/// The bytes of a file are waves of one list of rows at most.
pub fn no_two_readings()
    ensures { (widths bytes : List ℕ) (one other : List (List Word)) → IsWavesOf widths bytes one → IsWavesOf widths bytes other
        → one ≡ other }
{}

/// A file has one first fault at most: one line and one rule.
pub fn no_two_first_faults()
    ensures { (widths bytes : List ℕ) (line other : ℕ) (rule second : WavesRule) → IsFaultOf widths bytes (Refused line rule)
        → IsFaultOf widths bytes (Refused other second) → (line ≡ other) × (rule ≡ second) }
{}

/// Files that are read.
pub fn read_files()
    ensures two_inputs { IsWavesOf (1 ∷ 8 ∷ []) (codes "cycles 2\n0 1f\r\n1 a0")
        ((word 1 0 ∷ word 8 31 ∷ []) ∷ (word 1 1 ∷ word 8 160 ∷ []) ∷ []) }
    ensures no_inputs { IsWavesOf [] (codes "cycles 2\n\n\n") ([] ∷ [] ∷ []) }
{}

/// Files that are refused, at their first faulty line by its least rule.
pub fn refused_files()
    ensures one_missing { IsFaultOf (1 ∷ []) (codes "cycles 2\n0\n") (Refused 3 Lines) }
    ensures one_too_many { IsFaultOf (1 ∷ []) (codes "cycles 1\n0\n0\n") (Refused 3 Lines) }
    ensures no_cycles { IsFaultOf (1 ∷ []) (codes "cycles 0\n") (Refused 1 Lines) }
    ensures zero_in_front { IsFaultOf (1 ∷ []) (codes "cycles 01\n0\n") (Refused 1 Lines) }
    ensures too_many_cycles { IsFaultOf (1 ∷ []) (codes "cycles 65537\n") (Refused 1 Lines) }
    ensures two_blanks { IsFaultOf (1 ∷ 1 ∷ []) (codes "cycles 1\n0  1\n") (Refused 2 Values) }
    ensures blank_behind { IsFaultOf (1 ∷ []) (codes "cycles 1\n0 \n") (Refused 2 Values) }
    ensures empty_line { IsFaultOf (1 ∷ []) (codes "cycles 1\n\n") (Refused 2 Values) }
    ensures blank_without_inputs { IsFaultOf [] (codes "cycles 1\n \n") (Refused 2 Values) }
    ensures capital { IsFaultOf (4 ∷ []) (codes "cycles 1\nA\n") (Refused 2 Spelling) }
    ensures too_large { IsFaultOf (5 ∷ []) (codes "cycles 2\n1f\n20\n") (Refused 3 Spelling) }
    ensures too_short { IsFaultOf (5 ∷ []) (codes "cycles 1\nf\n") (Refused 2 Spelling) }
    ensures return_in_the_line { IsFaultOf (1 ∷ []) (codes "cycles 1\n0\r") (Refused 2 Spelling) }
{}
