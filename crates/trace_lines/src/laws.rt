//! What holds of the counts of every run and of names, and small runs with their lines. The functions do nothing; their contracts
//! are the laws.

ghost use Rattle.std.specs.Prelude.{◌≡◌, ◌≤◌, ℕ, suc, ◌*◌, ◌%◌, [], ◌∷◌, length, IsTrue, IsFalse, codes, false};
ghost use Rattle.av_base.specs.Word.{word};
ghost use Rattle.histories.specs.History.{is_raised};
ghost use Rattle.iface_roles.specs.declared.records.Finished.{Finished as Known};
ghost use Rattle.system_tables.specs.Tables.{IsEnd};
ghost use Rattle.link_rules.specs.Plans.{instance_name_at, interface_name_at};
ghost use Rattle.memory_runs.specs.Commands.{agent_accepts};
ghost use Rattle.trace_lines.specs.Spelling.{short_hex};
ghost use Rattle.trace_lines.specs.Lines.{write_line, read_line, sent_line, got_line, dropped_line};
ghost use Rattle.trace_lines.specs.Told.{AgentEnd, RunEnds, read_address, write_address, told_of_agent, told_in, trace_of};
ghost use Rattle.trace_lines.specs.Counted.{counts_before};
ghost use Rattle.trace_lines.specs.Sums.{beats_taken_in, counts_in, with_counts};
ghost use Rattle.trace_lines.specs.Worked.{packet_wire, one_host, three_hosts, whole_packet};

use link_rules::Plan;
use system_tables::EndId;

/// The names at an end of a plan have 64 bytes at most.
pub(crate) fn names_are_short(plan: &Plan, end: EndId)
    requires { (known : Known) × IsEnd plan.now.system end known }
    ensures instance { length (instance_name_at plan.now.system end) ≤ 64 }
    ensures interface { length (interface_name_at plan.now.system end) ≤ 64 }
{
    plan.well_made();
}

/// Each cycle adds to the counts what is taken, given, delivered and dropped in it.
pub fn counts_grow_by_cycles()
    ensures first { (run : RunEnds) → counts_before run 0 ≡ record { taken = 0; answered = 0; delivered = 0; dropped = 0 } }
    ensures next { (run : RunEnds) (c : ℕ) → counts_before run (suc c) ≡ with_counts (counts_before run c) (counts_in run c) }
{}

/// What is told of an agent, and counted, by what stands on its ports.
pub fn agents_are_told_by_their_ports()
    ensures nothing { (c : ℕ) (agent : AgentEnd) → IsFalse (agent_accepts agent.side agent.view c)
        → (told_of_agent c agent ≡ []) × (beats_taken_in c agent ≡ 0) }
    ensures write { (c : ℕ) (agent : AgentEnd) → IsTrue (agent_accepts agent.side agent.view c)
        → IsTrue (is_raised (agent.view.write c))
        → told_of_agent c agent
        ≡ write_line c agent.name (agent.view.grant c) (write_address c agent % agent.side.span)
        (word agent.side.word_bytes (agent.view.enables c)) (word (8 * agent.side.word_bytes) (agent.view.word c))
        ∷ [] }
    ensures read { (c : ℕ) (agent : AgentEnd) → IsTrue (agent_accepts agent.side agent.view c)
        → IsFalse (is_raised (agent.view.write c))
        → told_of_agent c agent
        ≡ read_line c agent.name (agent.view.grant c) (read_address c agent % agent.side.span)
        (word agent.side.word_bytes (agent.view.enables c)) (agent.view.count c)
        ∷ [] }
    ensures one_beat { (c : ℕ) (agent : AgentEnd) → IsTrue (agent_accepts agent.side agent.view c)
        → IsTrue (is_raised (agent.view.write c)) → beats_taken_in c agent ≡ 1 }
    ensures words { (c : ℕ) (agent : AgentEnd) → IsTrue (agent_accepts agent.side agent.view c)
        → IsFalse (is_raised (agent.view.write c)) → beats_taken_in c agent ≡ agent.view.count c }
{}

/// Three beats pass a wire in six cycles. One that waits is told of when it passes.
pub fn stream_is_told()
    ensures lines { trace_of packet_wire 6 ≡
        codes "0 sent gen.out 11 0 0 s 0\n" ∷ codes "0 got chk.st 11 0 0 s 0\n" ∷ codes "2 sent gen.out 22 0 0 - 0\n" ∷ codes "2 got chk.st 22 0 0 - 0\n" ∷ codes "3 sent gen.out 33 0 0 e 0\n" ∷ codes "3 got chk.st 33 0 0 e 0\n" ∷ codes "end 6\n" ∷ [] }
    ensures counts { counts_before packet_wire 6 ≡ record { taken = 0; answered = 0; delivered = 3; dropped = 0 } }
    ensures told_while_it_waits { ¬ (told_in packet_wire 1 ≡ codes "1 sent gen.out 22 0 0 - 0\n" ∷ []) }
{}

/// Each beat of a write burst has its own offset, below the span. A read is told once, and a word in the cycle in which it is
/// given.
pub fn memory_is_told()
    ensures lines { trace_of one_host 5 ≡
        codes "0 write m.s1 1 000000fc f 00000011\n" ∷ codes "2 write m.s1 1 00000000 3 00000022\n" ∷ codes "3 read m.s1 1 00000004 f 3\n" ∷ codes "4 get h.m 0000002a\n" ∷ codes "end 5\n" ∷ [] }
    ensures offset_of_the_first_beat { ¬ (told_in one_host 2 ≡ codes "2 write m.s1 1 000000fc 3 00000022\n" ∷ []) }
    ensures past_the_span { ¬ (told_in one_host 2 ≡ codes "2 write m.s1 1 00000100 3 00000022\n" ∷ []) }
    ensures told_while_it_waits { ¬ (told_in one_host 1 ≡ codes "1 write m.s1 1 00000000 3 00000022\n" ∷ []) }
    ensures counts { counts_before one_host 5 ≡ record { taken = 5; answered = 1; delivered = 0; dropped = 0 } }
{}

/// The line of a word bears its own host's code of that cycle, where the host has `response`.
pub fn codes_are_told()
    ensures lines { told_in three_hosts 4
        ≡ codes "4 get h.m 0000002a 2\n" ∷ codes "4 get g.m 0000002a 0\n" ∷ codes "4 get f.m 0000002a\n" ∷ [] }
    ensures left_out { ¬ (told_in three_hosts 4
        ≡ codes "4 get h.m 0000002a\n" ∷ codes "4 get g.m 0000002a\n" ∷ codes "4 get f.m 0000002a\n" ∷ []) }
    ensures of_another { ¬ (told_in three_hosts 4
        ≡ codes "4 get h.m 0000002a 0\n" ∷ codes "4 get g.m 0000002a 0\n" ∷ codes "4 get f.m 0000002a\n" ∷ []) }
{}

/// How numbers without zeros in front and beats are spelled. `empty` counts at the end of a packet alone.
pub fn beats_are_spelled()
    ensures none { short_hex 0 ≡ codes "0" }
    ensures fifteen { short_hex 15 ≡ codes "f" }
    ensures sixteen { short_hex 16 ≡ codes "10" }
    ensures largest { short_hex 0xffffffff ≡ codes "ffffffff" }
    ensures whole_packet { got_line 3 (codes "k.i") whole_packet ≡ codes "3 got k.i 00a 1f 0 se 2\n" }
    ensures inside { sent_line 10 (codes "s.o") (record whole_packet { first = false; last = false })
        ≡ codes "10 sent s.o 00a 1f 0 - 0\n" }
    ensures dropped { dropped_line 4 (codes "k.i") ≡ codes "4 dropped k.i\n" }
{}
