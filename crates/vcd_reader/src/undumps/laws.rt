//! What holds of all bytes. The function does nothing; its contract is the law.

ghost use Rattle.std.specs.Prelude.{◌≡◌, ◌⊎◌, ℕ, List};
ghost use Rattle.vcd_reader.specs.declared.undumps.UndumpFault.{UndumpFault as Fault};
ghost use Rattle.vcd_reader.specs.Undumps.{CanUndump, IsUndumpOf, IsUndumpFault};

use crate::{no_two_dumps, only_dumps_are_read, texts_are_read};

/// Bytes are the text of a dump whose rows are written, or are refused, never both, and for one reason; and the rows have one
/// text at most.
pub fn dumps_are_written_or_refused()
    ensures either { (bytes : List ℕ) → CanUndump bytes ⊎ ((fault : Fault) × IsUndumpFault bytes fault) }
    ensures never_both { (bytes : List ℕ) (fault : Fault) → CanUndump bytes → ¬ IsUndumpFault bytes fault }
    ensures one_fault { (bytes : List ℕ) (one other : Fault) → IsUndumpFault bytes one → IsUndumpFault bytes other → one ≡ other }
    ensures one_text { (bytes one other : List ℕ) → IsUndumpOf bytes one → IsUndumpOf bytes other → one ≡ other }
{
    only_dumps_are_read();
    texts_are_read();
    no_two_dumps();
}
