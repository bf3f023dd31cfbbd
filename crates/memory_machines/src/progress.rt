//! What must go on: ranks that fall, and turns.

ghost use Rattle.std.specs.Prelude.{suc, ◌≡◌, ◌<◌, ◌≤◌, ◌+◌, ◌||◌, ℕ, List, IsTrue, IsFalse};
ghost use Rattle.histories.specs.History.{IsPrefix};
ghost use Rattle.memory_machines.specs.Rank.{HoldsOneBeat, LinkRankFalls, link_part, link_budget, is_owed, is_on_its_way, PartRankFalls, IsStuckChain};
ghost use Rattle.memory_machines.specs.Turns.{IsFairArbiter, AsksInVain, others_begun};
ghost use Rattle.histories.specs.Junction.{budgets};
ghost use Rattle.histories.specs.Turns.{Seat, shares_of_others};
ghost use Rattle.histories.specs.Window.{KeepsRank, allowances};
ghost use Rattle.memory_machines.specs.Link.{Target, Port, AreLegalAt, items, shown_at};
ghost use Rattle.memory_machines.specs.Lines.{AreSingle, are_whole, with_tag};
ghost use Rattle.memory_machines.specs.PartRanks.{JoinsAlike, are_joined_alike};

/// A link whose rank falls is a part of the law of windows.
pub fn link_keeps_rank()
    ensures { (target : Target) (ports : ℕ → Port) (i : ℕ) (rank : ℕ → ℕ) (largest from size : ℕ)
        → PartRankFalls target ports i rank largest (from + size)
        → KeepsRank (link_part target ports i rank largest from) size }
{}

/// Work of a link goes away by a move alone.
pub fn work_lasts()
    ensures { (target : Target) (ports : ℕ → Port) (i from size : ℕ) → AreLegalAt (ports (suc i)) (from + size + 1) → (c : ℕ)
        → c < size
        → IsTrue ((link_part target ports i (λ c. 0) 0 from).works c)
        → IsFalse ((link_part target ports i (λ c. 0) 0 from).moves c)
        → IsTrue
        ((link_part target ports i (λ c. 0) 0 from).works (suc c) || (link_part target ports i (λ c. 0) 0 from).moves (suc c)) }
{}

/// By the order of the operations, a word that is owed above a link isn't wholly asked below it, or has come, or is owed below.
pub fn owed_words_flow()
    ensures { (target : Target) (up down : Port) (end c : ℕ) → AreLegalAt up end → AreLegalAt down end
        → suc c ≤ end → IsPrefix (items target down (suc c)) (items target up (suc c))
        → IsTrue (is_owed up c) → IsTrue (is_on_its_way target up down c) }
{}

/// A chain of links whose ranks fall isn't stuck for longer than the ranks allow, before an agent that neither waits nor owes a
/// word.
pub fn chain_is_short()
    ensures { (target : Target) (ports : ℕ → Port) (rank : ℕ → ℕ → ℕ) (largest few : ℕ → ℕ) (n from size : ℕ)
        → IsStuckChain target ports rank largest few n from size
        → size ≤ allowances (budgets (link_budget target ports rank largest few from) n) }
{
    histories::ranks::path_is_short()
}

/// A register of one place keeps the clause for commands with a rank that is always 0.
pub fn register_falls()
    ensures { (target : Target) (up down : Port) (end : ℕ) → AreLegalAt up end → HoldsOneBeat up down end
        → LinkRankFalls target up down (λ c. 0) 0 end }
{}

/// Where an arbiter keeps the turn rule, a host that asks, and none of whose commands begins, is passed by at most as many
/// commands of others as they have shares together.
pub fn turn_rule_is_fair()
    ensures { (seats : List Seat) (up : ℕ → Port) (down : Port) (end : ℕ) → IsFairArbiter seats up down end
        → (host from size : ℕ) → AsksInVain seats up down end host from size
        → others_begun seats up down host from size ≤ shares_of_others host seats }
{
    histories::ranks::asking_is_passed_by_few();
    histories::ranks::passes_within_shares();
    histories::ranks::turns_keep_seats()
}

/// Joined commands are alike behind a route, whose commands are single and bear one tag, and behind an arbiter,
/// where those of each host are and whole commands follow one another.
pub fn joins_are_alike()
    ensures single { (target : Target) (port : Port) (tag end : ℕ) → AreLegalAt port end → AreSingle port end
        → ((c : ℕ) → c < end → port.commands.tag c ≡ tag) → JoinsAlike target port end }
    ensures whole { (target : Target) (port : Port) (end : ℕ)
        → ((c : ℕ) → c ≤ end → IsTrue (are_whole (shown_at port c)))
        → ((h c : ℕ) → c ≤ end → IsTrue (are_joined_alike target port (with_tag h (shown_at port c))))
        → JoinsAlike target port end }
{}
