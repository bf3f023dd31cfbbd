//! Small runs of links, right and wrong.

ghost use Rattle.std.specs.Prelude.{◌≡◌, ◌+◌, ◌∷◌, [], ℕ, suc, true, false, map, length};
ghost use Rattle.memory_runs.specs.Views.{levels_at};
ghost use Rattle.memory_runs.specs.Commands.{shows};
ghost use Rattle.memory_machines.specs.Link.{AreLegalAt, CarriesCommands, takes, words_at, taken_at};
ghost use Rattle.memory_machines.specs.Machines.{MaySplit};
ghost use Rattle.memory_links.specs.Drops.{IsDropPlan};
ghost use Rattle.memory_machines.specs.Lines.{BringsBack, PipeCarriesCommands, AreDelayed};
ghost use Rattle.memory_links.specs.Driven.{select_above, select_below, split_above, split_below, cut_above, cut_below, drop_above, drop_below, pipe_run};
ghost use Rattle.memory_links.specs.Pipes.{side_of};
ghost use Rattle.runs_tests.specs.LinkRuns.{two_writes, hides_wait, shows_twice, selecting, lane_target, read_port, three_writes, stalled_writes, tagged_port, stage_top, newer_first, answered_at_once, accepts_early, gathering, empty_writes, byte_lanes, byte_reads, swaps_bytes};
ghost use Rattle.runs_tests.specs.PartRows.{levels};
ghost use Rattle.runs_tests.specs.LinkRuns.{cutting, two_bytes, two_beats, behind_empty};
ghost use Rattle.runs_tests.specs.LinkRuns.{pairing, four_bytes, two_pairs, uncut, slow_bytes, near_pairs, behind_pairs};
ghost use Rattle.runs_tests.specs.LinkRuns.{one_piece, nothing_dropped};
ghost use Rattle.runs_tests.specs.LinkRuns.{dropping, ends_without_lane, stays_joined, own_word_first, one_word, mixed_reads, empty_reads, held_burst};
ghost use Rattle.memory_awake.specs.Slack.{PassesOn};
ghost use Rattle.memory_machines.specs.Straight.{GoesStraightThrough, IsShownPromptly};
ghost use Rattle.runs_tests.specs.MoreExamples.{byte_target, byte_side};
ghost use Rattle.runs_tests.specs.WireRows.{one_read_system};

/// A wire carries what it is shown. One that hides a wait holds a beat, and one that shows a beat twice breaks the order.
pub fn wires()
    ensures hides { CarriesCommands byte_target 0 hides_wait two_writes 2 → ⊥ }
    ensures doubles { CarriesCommands byte_target 0 hides_wait shows_twice 3 → ⊥ }
{}

/// A half word at address 2 stands on both halves, with the upper lanes enabled, and its word comes from there. With room for one
/// read the second is held back.
/// Lanes that stay where they are break the order; a word that isn't cut out has the wrong bytes.
pub fn selectors()
    ensures write { levels_at (select_below (selecting 16)).commands.signals 0
        ≡ (record { read = 0; write = 1; address = 0; word = 0xbbaabbaa; enables = 0xc; count = 1 }) }
    ensures words { map (λ w. w.word) (words_at (select_above (selecting 16)) 5) ≡ 0x4433 ∷ 0x6655 ∷ [] }
    ensures let_through { shows (select_below (selecting 16)).commands.signals 2 ≡ true }
    ensures held_back { shows (select_below (selecting 1)).commands.signals 2 ≡ false }
    ensures unmoved { CarriesCommands lane_target 0 (read_port 2 2 3 0x4433) (read_port 4 0 3 0x44332211) 1 → ⊥ }
    ensures uncut { BringsBack lane_target (read_port 2 2 3 0x44332211) (read_port 4 0 0xc 0x44332211) 2 → ⊥ }
{}

/// Through two stages a write is shown two cycles later, stands where the agent waits, and a word comes back two cycles later.
/// A stage that shows the newer beat first isn't one, nor is one that answers in the same cycle.
pub fn pipes()
    ensures early { shows (side_of (pipe_run three_writes) 2).commands.signals 1 ≡ false }
    ensures first { (side_of (pipe_run three_writes) 2).commands.word 2 ≡ 0xaa }
    ensures stands { (side_of (pipe_run three_writes) 2).commands.word 3 ≡ 0xaa }
    ensures second { (side_of (pipe_run three_writes) 2).commands.word 4 ≡ 0xbb }
    ensures none_yet { words_at (side_of (pipe_run three_writes) 0) 6 ≡ [] }
    ensures answered { map (λ w. w.word) (words_at (side_of (pipe_run three_writes) 0) 7) ≡ 7 ∷ [] }
    ensures newer { PipeCarriesCommands one_read_system 0 2 1 (tagged_port stage_top) (tagged_port newer_first) 3 → ⊥ }
    ensures at_once { AreDelayed one_read_system 1 (tagged_port answered_at_once) (tagged_port answered_at_once) 2 → ⊥ }
{}

/// Through four stages the writes are shown from the fourth cycle on. While the agent waits they gather in the stages, and nobody
/// waits above.
pub fn long_pipes()
    ensures shown { levels (side_of (pipe_run stalled_writes) 4).commands.write 10 ≡ 0 ∷ 0 ∷ 0 ∷ 0 ∷ 1 ∷ 1 ∷ 1 ∷ 1 ∷ 1 ∷ 0 ∷ [] }
    ensures words { map (λ m. m.transfer.first) (taken_at (side_of (pipe_run stalled_writes) 4) 9) ≡ 1 ∷ 2 ∷ 3 ∷ [] }
    ensures stands { (side_of (pipe_run stalled_writes) 4).commands.word 6 ≡ 0xaa }
    ensures above { levels (side_of (pipe_run stalled_writes) 0).commands.waitrequest 6 ≡ 0 ∷ 0 ∷ 0 ∷ 0 ∷ 0 ∷ 0 ∷ [] }
    ensures answered { map (λ w. w.word) (words_at (side_of (pipe_run stalled_writes) 0) 9) ≡ 7 ∷ [] }
{}

/// A read with two enabled lanes is sent as two bytes, joined, and its word is gathered with the greater code.
/// A splitter that accepts a beat with its first piece holds one, and one that swaps what it gathers has the wrong bytes.
/// It swallows joined writes without a lane, as many as a host shows.
pub fn splitters()
    ensures asked { map (λ m. m.more) (taken_at (split_below gathering) 2) ≡ true ∷ false ∷ [] }
    ensures waits { shows (split_below gathering).commands.signals 2 ≡ false }
    ensures words { words_at (split_above gathering) 3 ≡ (record { word = 0x00bbcc00; code = 2 }) ∷ [] }
    ensures early { CarriesCommands byte_target 0 accepts_early byte_side 2 → ⊥ }
    ensures swapped { BringsBack byte_lanes swaps_bytes byte_reads 3 → ⊥ }
    ensures swallows { (hold kept : ℕ)
        → PassesOn (record { hold = hold; kept = kept }) (split_above empty_writes) (split_below empty_writes) (hold + 1) → ⊥ }
{
    memory_links::runs::split_runs()
}

/// Between words of one size the plans of links allow a splitter into one piece, and what drops beats, with room for one read.
/// Each holds all later reads back while the first is owed, though the port below doesn't wait.
pub fn held_reads()
    ensures may_split { MaySplit byte_target one_piece.wide one_piece.narrow 1 }
    ensures may_drop { IsDropPlan byte_target nothing_dropped.shape nothing_dropped.below }
    ensures split { (c : ℕ)
        → (shows (split_above one_piece).commands.signals c ≡ true)
        × (shows (split_below one_piece).commands.signals (suc c) ≡ false) }
    ensures drop { (c : ℕ)
        → (shows (drop_above nothing_dropped).commands.signals c ≡ true)
        × (shows (drop_below nothing_dropped).commands.signals (suc c) ≡ false) }
{
    memory_links::runs::split_runs();
    memory_links::runs::drop_runs()
}

/// A read of three words and a write of two are sent beat by beat, joined by `more`; the read is accepted with its first beat,
/// and the write waits.
/// A cutter that leaves `more` low ends a command too early. One that accepts a read with its last beat gives a word that isn't
/// owed.
/// While words of an earlier read without lanes are owed, a plain write doesn't go straight through a cutter.
pub fn bursts()
    ensures places { map (λ m. m.transfer.first) (taken_at (cut_below cutting) 5) ≡ 8 ∷ 12 ∷ 16 ∷ 32 ∷ 36 ∷ [] }
    ensures joined { map (λ m. m.more) (taken_at (cut_below cutting) 5) ≡ true ∷ true ∷ false ∷ true ∷ false ∷ [] }
    ensures accepts { takes (cut_above cutting) 0 ≡ true }
    ensures waits { takes (cut_above cutting) 2 ≡ false }
    ensures loose { CarriesCommands byte_lanes 1 (two_bytes []) (two_beats 0) 2 → ⊥ }
    ensures late { BringsBack byte_lanes (two_bytes (1 ∷ [])) (two_beats 1) 2 → ⊥ }
    ensures behind { GoesStraightThrough (λ c. true) byte_lanes (cut_above behind_empty) (cut_below behind_empty) 2 → ⊥ }
{}

/// A read of five words and a write of three are sent in bursts of two words and of one, joined by `more`; the read is accepted
/// with its first burst.
/// A cutter that doesn't join its bursts ends a command too early, and one that shows a burst as it is shows one that is too
/// long.
/// One whose next burst begins a word too early reads a byte twice. One that accepts a read with its last burst gives a word that
/// isn't owed.
/// While words of an earlier read without lanes are owed, a plain write doesn't go straight through such a cutter either.
pub fn cuts()
    ensures places { map (λ m. m.transfer.first) (taken_at (cut_below pairing) 6) ≡ 8 ∷ 16 ∷ 24 ∷ 32 ∷ 32 ∷ 40 ∷ [] }
    ensures sizes { map (λ m. length m.transfer.beats) (taken_at (cut_below pairing) 6) ≡ 2 ∷ 2 ∷ 1 ∷ 1 ∷ 1 ∷ 1 ∷ [] }
    ensures joined { map (λ m. m.more) (taken_at (cut_below pairing) 6) ≡ true ∷ true ∷ false ∷ true ∷ true ∷ false ∷ [] }
    ensures accepts { takes (cut_above pairing) 0 ≡ true }
    ensures waits { takes (cut_above pairing) 2 ≡ false }
    ensures loose { CarriesCommands byte_lanes 1 four_bytes two_pairs 2 → ⊥ }
    ensures long { AreLegalAt uncut 1 → ⊥ }
    ensures near { CarriesCommands byte_lanes 1 four_bytes near_pairs 2 → ⊥ }
    ensures late { BringsBack byte_lanes slow_bytes two_pairs 2 → ⊥ }
    ensures behind { GoesStraightThrough (λ c. true) byte_lanes (cut_above behind_pairs) (cut_below behind_pairs) 2 → ⊥ }
{}

/// Of a joined write those beats go on that have a lane, the last of them with `more` low. A read without a lane waits until
/// nothing is owed, and is given 0 in the next cycle. What leaves `more` as it is joins two commands; what answers such a read
/// before an earlier one brings wrong bytes. Where a read with a lane is joined to one without, the machine itself joins it to
/// the next command, so it needs joined commands that are alike. It accepts reads without a lane, and gives their words, as often
/// as a host asks them, so no number bounds what it doesn't hand on. A write burst whose next beat a host holds back isn't shown
/// promptly, however many cycles that is: the first beat is kept as long.
pub fn drops()
    ensures places { map (λ m. m.transfer.first) (taken_at (drop_below dropping) 10) ≡ 8 ∷ 16 ∷ 8 ∷ 16 ∷ [] }
    ensures joined { map (λ m. m.more) (taken_at (drop_below dropping) 10) ≡ true ∷ false ∷ false ∷ false ∷ [] }
    ensures kept { shows (drop_below dropping).commands.signals 0 ≡ false }
    ensures waits { takes (drop_above dropping) 6 ≡ false }
    ensures words { map (λ w. w.word) (words_at (drop_above dropping) 10) ≡ 0x11 ∷ 0 ∷ 0x22 ∷ [] }
    ensures loose { CarriesCommands byte_target 1 ends_without_lane stays_joined 3 → ⊥ }
    ensures early { BringsBack byte_target own_word_first one_word 4 → ⊥ }
    ensures mixed { CarriesCommands byte_target 1 (drop_above mixed_reads) (drop_below mixed_reads) 4 → ⊥ }
    ensures swallows { (hold kept : ℕ)
        → PassesOn (record { hold = hold; kept = kept }) (drop_above empty_reads) (drop_below empty_reads) (hold + 1) → ⊥ }
    ensures gives { (hold kept : ℕ)
        → PassesOn (record { hold = hold; kept = kept }) (drop_above empty_reads) (drop_below empty_reads) (kept + 2) → ⊥ }
    ensures legal { (end : ℕ) → AreLegalAt (drop_above held_burst) end }
    ensures keeps { (few : ℕ) → IsShownPromptly few true byte_target (drop_above held_burst) (drop_below held_burst) (few + 1)
        → ⊥ }
{
    memory_links::runs::drop_runs()
}
