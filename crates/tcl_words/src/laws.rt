//! What holds of every text. The functions do nothing; their contracts are the laws.

ghost use Rattle.std.specs.Prelude.{◌≡◌, ℕ, List, [], ◌∷◌, ◌++◌, ◌⊎◌, codes, Some, None};
ghost use Rattle.tcl_words.specs.Script.{Script, placed};
ghost use Rattle.tcl_words.specs.Spelling.{Spells};
ghost use Rattle.tcl_words.specs.Reading.{Fault, first_word_fault};
ghost use Rattle.tcl_words.specs.FirstFault.{IsFirstFault, IsRefusedAt};
ghost use Rattle.tcl_words.specs.declared.rule.Rule.TheVariants.{Substitution, Backslash, OpenBrace, OpenQuote, AfterClose, NotUtf8, ZeroByte};

/// The bytes of a file spell one script at most.
pub fn no_two_readings()
    ensures { (file : ℕ) (bytes : List ℕ) (one other : Script) → Spells file bytes one → Spells file bytes other → one ≡ other }
{}

/// The bytes of a file spell a script or have a first fault, and never both.
pub fn spelled_or_faulty()
    ensures either { (file : ℕ) (bytes : List ℕ)
        → ((script : Script) × Spells file bytes script) ⊎ ((fault : Fault) × (first_word_fault file bytes ≡ Some fault)) }
    ensures never_both { (file : ℕ) (bytes : List ℕ) (script : Script) → Spells file bytes script
        → first_word_fault file bytes ≡ None }
{}

/// A fault is the one that reading from left to right finds exactly where it stands as the first in the whole text.
pub fn first_fault_is_read()
    ensures stands { (file : ℕ) (bytes : List ℕ) (fault : Fault) → first_word_fault file bytes ≡ Some fault
        → IsFirstFault file bytes fault }
    ensures read { (file : ℕ) (bytes : List ℕ) (fault : Fault) → IsFirstFault file bytes fault
        → first_word_fault file bytes ≡ Some fault }
{}

/// A file has one first fault at most: one place and one rule.
pub fn no_two_first_faults()
    ensures { (file : ℕ) (bytes : List ℕ) (one other : Fault) → IsFirstFault file bytes one → IsFirstFault file bytes other
        → one ≡ other }
{}

/// The bytes of a file spell a script exactly where no fault stands in them.
pub fn spelled_where_no_fault_stands()
    ensures spelled { (file : ℕ) (bytes : List ℕ) → ((fault : Fault) → ¬ IsFirstFault file bytes fault)
        → (script : Script) × Spells file bytes script }
    ensures no_fault { (file : ℕ) (bytes : List ℕ) (script : Script) (fault : Fault) → Spells file bytes script
        → ¬ IsFirstFault file bytes fault }
{}

/// Texts that a rule refuses, at the place of their first fault.
pub fn refused_texts()
    ensures substitution { IsRefusedAt (codes "add_instance cpu $type") 1 17 Substitution }
    ensures backslash { IsRefusedAt (codes "set_module_property GROUP My\\ parts") 1 28 Backslash }
    ensures open_brace { IsRefusedAt (codes "set_module_property DESCRIPTION {half") 1 32 OpenBrace }
    ensures open_quote { IsRefusedAt (codes "set_module_property DESCRIPTION \"half") 1 32 OpenQuote }
    ensures after_close { IsRefusedAt (codes "create_system {a}b") 1 17 AfterClose }
    ensures not_utf8 { IsRefusedAt (codes "# caf" ++ 233 ∷ codes "\n") 1 5 NotUtf8 }
    ensures zero_byte { IsRefusedAt (codes "# a" ++ 0 ∷ codes "b") 1 3 ZeroByte }
    // the first that is met counts, and it is met in its line
    ensures quoted { IsRefusedAt (codes "save_system\nsave_system \"a $b") 2 27 Substitution }
    ensures never_closed { IsRefusedAt (codes "save_system {a\\}\nb [c]") 1 12 OpenBrace }
    // the encoding of the whole file is judged before words
    ensures encoding { IsRefusedAt (codes "save_system $a" ++ 0 ∷ 233 ∷ []) 1 14 ZeroByte }
{}
