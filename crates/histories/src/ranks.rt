//! Ranks: parts that fall in each cycle in which they must go on move something within the sum of what they allow.

ghost use Rattle.std.specs.Prelude.{ℕ, Bool, List, suc, [], ◌∷◌, ◌++◌, ◌-◌, ◌≡◌, replicate, ◌<◌, ◌≤◌, ◌+◌, ◌*◌, IsTrue, IsFalse, true, false};
ghost use Rattle.histories.specs.Ahead.{Ahead, IsStraightThrough};
ghost use Rattle.histories.specs.Holes.{Waited, Hangs, idle_wait_run, owing_rest_run};
ghost use Rattle.histories.specs.Junction.{Junctions, IsStuck, all_budgets};
ghost use Rattle.histories.specs.RanksLaws.{PathIsShort};
ghost use Rattle.histories.specs.Sizes.{Passage, IsPassage, sum_below, all_cycles};
ghost use Rattle.histories.specs.Turns.{Seat, IsRoundOf, IsOfAsker, round_after, turn_of, AllAsk, AllShare, Round, is_seated, may_pass, passes, begun, first_round, both_ask, second_asks, shares_of_others, last_shares};
ghost use Rattle.histories.specs.Window.{Budget, AllKeep, some_active, allowances};

/// A window in whose every cycle some part is active is no longer than the parts allow.
pub fn active_is_short()
    ensures { (parts : List Budget) (size : ℕ) → AllKeep parts size → ((c : ℕ) → c < size → IsTrue (some_active parts c))
        → size ≤ allowances parts }
{}

/// A window in which a wanted agent isn't served is no longer than the parts allow: those below the arbiter, the arbiter, and
/// those of the hosts that matter.
pub fn stuck_is_short()
    ensures { (run : Junctions) (host size : ℕ) (seen : List ℕ) → IsStuck run host size seen
        → size ≤ allowances (all_budgets run seen) }
{}

/// With either laxer exception a run may hang; with both tight none does.
pub fn lax_exceptions_hang()
    ensures idle { Hangs (record { idle_wait = true; owing_rest = false }) idle_wait_run 2 }
    ensures owing { Hangs (record { idle_wait = false; owing_rest = true }) owing_rest_run 2 }
    ensures tight { (w : Waited) (parts : ℕ) → 0 < parts → Hangs (record { idle_wait = false; owing_rest = false }) w parts → ⊥ }
{}

/// A host that asks in every cycle is passed by at most so many commands of others.
pub fn asking_is_passed_by_few()
    ensures { (host : ℕ) (round : Round) (cycles : List (ℕ → Bool)) → IsTrue (is_seated host round.ring) → AllShare round.ring
        → AllAsk host cycles → passes host round cycles ≤ may_pass host round }
{}

/// A command that passes straight through is accepted within the stages and the wait states, whatever answers are owed.
pub fn ahead_is_accepted()
    ensures { (run : Ahead) (stages wait size : ℕ) → IsStraightThrough run stages wait size → 2 * stages + wait < size
        → (c : ℕ) × (c < size) × IsTrue (run.accepts c) }
{}

/// A wanted agent is served within what the parts allow.
pub fn wanted_is_served()
    ensures { (run : Junctions) (host size : ℕ) (seen : List ℕ) (serves : ℕ → Bool)
        → (((c : ℕ) → c < size → IsFalse (serves c)) → IsStuck run host size seen)
        → allowances (all_budgets run seen) < size → (c : ℕ) × (c < size) × IsTrue (serves c) }
{}

/// Hosts with three shares and one: the order of twelve writes.
pub fn order_of_turns()
    ensures { begun first_round (replicate 5 both_ask ++ replicate 7 second_asks)
        ≡ 0 ∷ 0 ∷ 0 ∷ 1 ∷ 0 ∷ 1 ∷ 1 ∷ 1 ∷ 1 ∷ 1 ∷ 1 ∷ 1 ∷ [] }
{}

/// A turn keeps the seats and their shares, and only a host that asks begins.
pub fn turns_keep_seats()
    ensures seats { (seats : List Seat) (round : Round) (asks : ℕ → Bool) → IsRoundOf seats round
        → IsRoundOf seats (round_after (turn_of asks round)) }
    ensures asked { (round : Round) (asks : ℕ → Bool) → IsOfAsker asks (turn_of asks round) }
{}

/// What may pass a host is within the shares of the others.
pub fn passes_within_shares()
    ensures { (host : ℕ) (round : Round) → IsTrue (is_seated host round.ring) → round.left ≤ last_shares round.ring
        → may_pass host round ≤ shares_of_others host round.ring }
{}

/// While the lowest port takes nothing, the ports above take at most what the parts may hold.
pub fn holds_bound_moves()
    ensures passage { (p : Passage) (hold : ℕ) → IsPassage p hold → p.above_end - p.above ≤ (p.below_end - p.below) + hold }
    ensures path { (grown hold : ℕ → ℕ) (n : ℕ) → grown 0 ≡ 0 → ((i : ℕ) → i < n → grown (suc i) ≤ grown i + hold i)
        → grown n ≤ sum_below hold n }
{}

/// A budget of ranks and holds fits in the window.
pub fn cycles_fit()
    ensures { (stages wait : ℕ) → stages ≤ 4 → all_cycles stages wait + (stages + 6) ≤ 64 * (4 + stages) + 2 * wait }
{}

/// A path of parts alone: a window in which it has work, and neither waits below nor rests above, is no longer than its parts
/// allow.
pub fn path_is_short()
    ensures { PathIsShort }
{}
