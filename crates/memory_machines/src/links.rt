//! Links in a row are one link.

ghost use Rattle.std.specs.Prelude.{◌≤◌, ◌+◌, ◌-◌, ◌∷◌, [], ℕ};
ghost use Rattle.histories.specs.History.{unreached, AreWithin};
ghost use Rattle.memory_machines.specs.LinkPair.{LinkPair, KeepRows, AddsNoPieces};
ghost use Rattle.memory_machines.specs.Link.{Target, Port, AreLegalAt, AnswersAreOwed, KeepsLinkLaw, shown_at, taken_at, sizes};
ghost use Rattle.memory_machines.specs.Lines.{KeepsRow, IsWordForWord, HandsOn};

/// One link that makes no tags and no kinds is a row.
pub fn link_is_a_row()
    ensures { (target : Target) (hold : ℕ) (up down : Port) (end : ℕ) → KeepsLinkLaw target hold up down end
        → ((c : ℕ) → c ≤ end → AreLegalAt up c → AnswersAreOwed down (c - 1) → HandsOn up down c)
        → KeepsRow target hold up down end }
{}

/// Two rows are one row where one of the two is word for word, and one that is word for word where both are. A row may be said to
/// hold more.
pub fn rows_compose()
    ensures upper { (pair : LinkPair) (end : ℕ) → KeepRows pair end → AddsNoPieces pair
        → IsWordForWord pair.target pair.up pair.middle end
        → KeepsRow pair.target (pair.first_hold + pair.second_hold) pair.up pair.down end }
    ensures lower { (pair : LinkPair) (end : ℕ) → KeepRows pair end → AddsNoPieces pair
        → IsWordForWord pair.target pair.middle pair.down end
        → KeepsRow pair.target (pair.first_hold + pair.second_hold) pair.up pair.down end }
    ensures both { (pair : LinkPair) (end : ℕ) → KeepRows pair end → AddsNoPieces pair
        → IsWordForWord pair.target pair.up pair.middle end → IsWordForWord pair.target pair.middle pair.down end
        → IsWordForWord pair.target pair.up pair.down end }
    ensures wider { (target : Target) (hold more : ℕ) (up down : Port) (end : ℕ) → hold ≤ more
        → KeepsRow target hold up down end → KeepsRow target more up down end }
{}

/// At most one beat more is shown and not wholly taken than is accepted and not wholly taken.
pub fn shown_lag()
    ensures { (target : Target) (port : Port) (end c n : ℕ) → AreLegalAt port end → c ≤ end
        → unreached (sizes target port.shape (shown_at port c)) n ≤ unreached (sizes target port.shape (taken_at port c)) n + 1 }
{}

/// A beat without an operation, where none is shown below yet, lies within nothing.
pub fn empty_beat_has_no_place()
    ensures { AreWithin (0 ∷ []) [] → ⊥ }
{}
