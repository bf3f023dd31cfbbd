//! What a memory-mapped run must be at the ports of its hosts and agents, that a legal run goes on, and laws about it.
#![tactic(auto)]

pub mod going;
mod plain;
pub mod sides;

ghost use Rattle.std.specs.Prelude.{◌+◌, ◌≡◌, ◌<◌, ◌≤◌, ◌*◌, true, ℕ, Bool, List};
ghost use Rattle.histories.specs.History.{IsPrefix};
ghost use Rattle.memory_runs.specs.Commands.{AcceptsOnlyShown, accepted, presented};
ghost use Rattle.memory_runs.specs.Views.{Responses, System, Run, Shape, Signals};
ghost use Rattle.memory_runs.specs.Operations.{Beat, own_operations, operations_of};
ghost use Rattle.memory_runs.specs.Legal.{AreLegal};
ghost use Rattle.memory_runs.specs.Awake.{NeverIdles, IsFair};
ghost use Rattle.memory_runs.specs.Onward.{NoHostHangs, AcceptsSoon};
ghost use Rattle.memory_runs.specs.Order.{ActsAsMemory, ReadsFromMemory, ReturnsInCommandOrder, from_base, issued, taken, are_together, Owner, is_same_owner, StandsBetween};
ghost use Rattle.memory_runs.specs.Beginnings.{RunsAgreeBefore};
ghost use Rattle.memory_runs.specs.Whole.{IsLegalRun, IsSafe};

pub use plain::{
    BeatValue, ByteOperation, End, Transfer, byte_at, filled_lanes, footprint, is_enabled,
    longest_burst, operations_of, own_operations,
};

/// Histories only grow, and a prefix of a legal run is legal.
pub fn histories_grow()
    ensures issued { (system : System) (run : Run) (host agent c d : ℕ) → c ≤ d
        → IsPrefix (issued system run host agent c) (issued system run host agent d) }
    ensures taken { (system : System) (run : Run) (agent c d : ℕ) → c ≤ d
        → IsPrefix (taken system run agent c) (taken system run agent d) }
    ensures legal { (shape : Shape) (signals : Signals) (accepts : ℕ → Bool) (shorter end : ℕ)
        → shorter ≤ end → AreLegal shape signals accepts end → AreLegal shape signals accepts shorter }
{}

/// What is asked of a run and what is promised of it holds of a shorter run.
pub fn shorter_runs()
    ensures legal { (shorter end : ℕ) → shorter ≤ end → (system : System) (run : Run)
        → IsLegalRun system run end → IsLegalRun system run shorter }
    ensures safe { (shorter end : ℕ) → shorter ≤ end → (responses : Responses) (system : System) (run : Run)
        → IsSafe responses system run end → IsSafe responses system run shorter }
    ensures awake { (shorter end : ℕ) → shorter ≤ end → (system : System) (run : Run)
        → NeverIdles system run end → NeverIdles system run shorter }
    ensures onward { (shorter end : ℕ) → shorter ≤ end → (window : ℕ → ℕ → ℕ) (system : System) (run : Run)
        → NoHostHangs window system run end → NoHostHangs window system run shorter }
    ensures fair { (shorter end : ℕ) → shorter ≤ end → (system : System) (run : Run) → IsFair system run end
        → IsFair system run shorter }
{}

/// What is asked of a run and what is promised of it up to a cycle depends on the cycles up to it alone:
/// it holds of a run where it holds of one that shows the same before that cycle.
pub fn same_beginnings()
    ensures turned { (one two : Run) (end : ℕ) → RunsAgreeBefore one two end → RunsAgreeBefore two one end }
    ensures legal { (system : System) (one two : Run) (end : ℕ) → RunsAgreeBefore one two end
        → IsLegalRun system one end → IsLegalRun system two end }
    ensures safe { (responses : Responses) (system : System) (one two : Run) (end : ℕ)
        → RunsAgreeBefore one two end → IsSafe responses system one end → IsSafe responses system two end }
    ensures awake { (system : System) (one two : Run) (end : ℕ) → RunsAgreeBefore one two end
        → NeverIdles system one end → NeverIdles system two end }
    ensures onward { (window : ℕ → ℕ → ℕ) (system : System) (one two : Run) (end : ℕ) → RunsAgreeBefore one two end
        → NoHostHangs window system one end → NoHostHangs window system two end }
    ensures accepts { (window : ℕ → ℕ → ℕ → ℕ) (system : System) (one two : Run) (end : ℕ) → RunsAgreeBefore one two (end + 2)
        → AcceptsSoon window system one end → AcceptsSoon window system two end }
    ensures fair { (system : System) (one two : Run) (end : ℕ) → RunsAgreeBefore one two end
        → IsFair system one end → IsFair system two end }
{}

/// Where an agent acts as memory, every byte that a host is given from it is what the writes before its read have left.
pub fn memory_is_read_back()
    ensures { (system : System) (run : Run) (agent : ℕ) (contents : ℕ → ℕ) (end host : ℕ)
        → ActsAsMemory system run contents agent end → ReturnsInCommandOrder system run host end
        → ReadsFromMemory system run host agent contents end }
{}

/// What the test on owners means, by places.
pub fn together_by_place()
    ensures { (owners : List Owner) (i j k : ℕ) (owner between other : Owner) → are_together owners ≡ true
        → StandsBetween owners i j k owner between other → is_same_owner owner other ≡ true
        → between.tag ≡ owner.tag }
{}

/// A port's own operations are those of the split into its own words.
pub fn own_is_split()
    ensures { (shape : Shape) (span : ℕ) (beat : Beat) → 0 < shape.word_bytes → shape.has_enables ≡ true
        → own_operations shape span beat ≡ operations_of shape shape span beat }
{}

/// What a legal side has accepted is the front of what it has presented.
pub fn accepted_is_front()
    ensures { (shape : Shape) (signals : Signals) (accepts : ℕ → Bool) (end : ℕ)
        → AcceptsOnlyShown signals accepts → AreLegal shape signals accepts end
        → IsPrefix (accepted shape signals accepts end) (presented shape signals accepts end) }
{}

/// Whether an agent's base is subtracted before or behind the route, or nowhere, is all one to the operations.
pub fn base_is_free()
    ensures { (from to : Shape) (span base k : ℕ) (beat : Beat) → base ≡ k * span → base ≤ beat.address
        → operations_of from to span (from_base base beat) ≡ operations_of from to span beat }
{}
