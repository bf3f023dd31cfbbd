//! Histories of a run: what the cycles before a given one add, in order, and laws about them; and ranks, which part moves on.
#![tactic(auto)]

pub mod ranks;

ghost use Rattle.std.specs.Prelude.{ℕ, suc, ◌≡◌, ◌≤◌, ◌<◌, ◌+◌, ◌++◌, ◌∷◌, [], Bool, List, length};
ghost use Rattle.histories.specs.History.{before, IsPrefix, KeepsItems, first_shown, all_accepted, standing, unreached};

/// A history grows by what a cycle adds, and only grows.
pub fn history_grows<T>()
    ensures step { (adds : ℕ → List T) (c : ℕ) → before adds (suc c) ≡ before adds c ++ adds c }
    ensures grows { (adds : ℕ → List T) (c d : ℕ) → c ≤ d → IsPrefix (before adds c) (before adds d) }
{}

/// A prefix of a prefix is a prefix.
pub fn prefixes_nest<T>()
    ensures { (xs ys zs : List T) → IsPrefix xs ys → IsPrefix ys zs → IsPrefix xs zs }
{}

/// What was accepted is what was shown, but for the item that stands.
pub fn accepted_is_shown<T>()
    ensures { (shown accepts : ℕ → Bool) (item : ℕ → T) (end c : ℕ) → KeepsItems shown accepts item end → c ≤ end
        → first_shown shown accepts item c ≡ all_accepted accepts item c ++ standing shown accepts item c }
{}

/// Fewer groups are unreached as more is reached, and never more than there are.
pub fn unreached_falls()
    ensures falls { (sizes : List ℕ) (n m : ℕ) → n ≤ m → unreached sizes m ≤ unreached sizes n }
    ensures most { (sizes : List ℕ) (n : ℕ) → unreached sizes n ≤ length sizes }
{}
