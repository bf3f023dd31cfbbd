//! Wires between a host and an agent.

ghost use Rattle.std.specs.Prelude.{◌<◌, ℕ, Bool};
ghost use Rattle.memory_machines.specs.Rank.{LinkRankFalls};
ghost use Rattle.memory_machines.specs.PartRanks.{KeepsMoving};
ghost use Rattle.memory_machines.specs.Link.{Target, Port, KeepsLinkLaw, AreLegalAt};
ghost use Rattle.memory_machines.specs.Lines.{KeepsRow, IsWordForWord};
ghost use Rattle.memory_machines.specs.Straight.{GoesStraightThrough, IsShownPromptly};

/// A wire is a link that holds nothing.
pub fn wire_is_a_link()
    ensures { (target : Target) (port : Port) (end : ℕ) → 0 < port.shape.word_bytes
        → KeepsLinkLaw target 0 port port end }
{}

/// A wire is a row of links that holds nothing, word for word.
pub fn wire_is_a_row()
    ensures row { (target : Target) (port : Port) (end : ℕ) → 0 < port.shape.word_bytes
        → KeepsRow target 0 port port end }
    ensures words { (target : Target) (port : Port) (end : ℕ) → IsWordForWord target port port end }
{}

/// A wire is straight and prompt.
pub fn wire_is_straight()
    ensures straight { (ahead : ℕ → Bool) (target : Target) (port : Port) (end : ℕ)
        → GoesStraightThrough ahead target port port end }
    ensures prompt { (few : ℕ) (may_burst : Bool) (target : Target) (port : Port) (end : ℕ)
        → IsShownPromptly few may_burst target port port end }
{}

/// A wire keeps the clause for commands with a rank that is always 0.
pub fn wire_falls()
    ensures { (target : Target) (port : Port) (end : ℕ) → AreLegalAt port end
        → LinkRankFalls target port port (λ c. 0) 0 end }
{}

/// A wire keeps moving: its rank is always 0, its words are answered at once, and nothing waits in it.
pub fn wire_keeps_moving()
    ensures { (target : Target) (port : Port) (end : ℕ) → AreLegalAt port end
        → KeepsMoving 0 target port port (λ c. 0) 0 end }
{}
