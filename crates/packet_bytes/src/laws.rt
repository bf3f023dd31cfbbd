//! That a stream has one answer, and small streams with their packets, faults, statements and replies. The functions do nothing;
//! their contracts are laws and worked rows.

ghost use Rattle.std.specs.Prelude.{◌≡◌, ◌↔◌, ◌⊎◌, ℕ, ◌+◌, ◌<◌, ◌≤◌, length, map, take, List, [], ◌∷◌, ◌++◌, Some, None, codes};
ghost use Rattle.packet_bytes.specs.declared.faults.PacketFault.TheVariants.{Refused};
ghost use Rattle.packet_bytes.specs.Counts.{command_count};
ghost use Rattle.packet_bytes.specs.declared.gathering.Packet.{Packet as Gathered};
ghost use Rattle.packet_bytes.specs.declared.transfers.Transfers.{Transfers as Asked};
ghost use Rattle.packet_bytes.specs.Streams.{AreRead};
ghost use Rattle.packet_bytes.specs.Rules.{packet_fault, first_fault, AreTransfers, IsFaultOf};
ghost use Rattle.packet_bytes.specs.Commands.{packet_text};
ghost use Rattle.packet_bytes.specs.Worked.{packet, escaped_items, header};
ghost use Rattle.packet_bytes.specs.Gathering.{gathered};
ghost use Rattle.packet_bytes.specs.Answers.{answer, bytes_read, replies_of, replies_text, bytes_of};
ghost use Rattle.packet_bytes.specs.Touched.{enabled_bytes};
ghost use Rattle.packet_bytes.specs.Leading.{AreEnough};
ghost use Rattle.packet_bytes.specs.Unplaced.{unplaced};
ghost use Rattle.marked_bytes.specs.Items.{IsUnpacked};

use marked_bytes::{one_fault, one_reading, streams_go_on, whole_packets_are_read};

/// The places of a packet are those at which the data of its first and of its last byte is spelled: of an escaped one that of the
/// escape.
pub fn packets_have_places()
    ensures { (gathered escaped_items).packets
        ≡ record { channel = 0; bytes = 0x7f ∷ 0x7a ∷ []; first_place = 1; last_place = 3 } ∷ [] }
{}

/// Each rule with its place and its nearest neighbour, for words of 4 bytes and a range of 64.
pub fn packets_are_refused()
    ensures other_code { packet_fault 4 64 0 (packet (0x05 ∷ [])) ≡ Some (Refused 1 4) }
    ensures no_transaction { packet_fault 4 64 4096 (packet (0x7f ∷ 0x7a ∷ [])) ≡ None }
    ensures no_bytes { packet_fault 4 64 0 (packet (header 0x14 0 0)) ≡ Some (Refused 9 5) }
    ensures long_read { packet_fault 4 64 0 (packet (header 0x14 1 0 ++ 0 ∷ [])) ≡ Some (Refused 9 5) }
    ensures short_write { packet_fault 4 64 0 (packet (header 0x04 2 0 ++ 0x11 ∷ [])) ≡ Some (Refused 9 5) }
    ensures code_alone { packet_fault 4 64 0 (packet (0x14 ∷ [])) ≡ Some (Refused 9 5) }
    ensures right_write { packet_fault 4 64 0 (packet (header 0x04 2 0 ++ 0x11 ∷ 0x22 ∷ [])) ≡ None }
    ensures unaligned_fixed { packet_fault 4 64 0 (packet (header 0x10 4 2)) ≡ Some (Refused 1 6) }
    ensures part_of_a_word { packet_fault 4 64 0 (packet (header 0x10 6 4)) ≡ Some (Refused 1 6) }
    ensures fixed { packet_fault 4 64 0 (packet (header 0x10 8 60)) ≡ None }
    ensures unaligned { packet_fault 4 64 0 (packet (header 0x14 3 61)) ≡ None }
    ensures past_the_range { packet_fault 4 64 0 (packet (header 0x14 3 62)) ≡ Some (Refused 1 6) }
    ensures fixed_past_the_range { packet_fault 4 64 0 (packet (header 0x10 4 64)) ≡ Some (Refused 1 6) }
    ensures too_many { packet_fault 4 64 4095 (packet (header 0x14 5 0)) ≡ Some (Refused 1 7) }
    ensures just_enough { packet_fault 4 64 4095 (packet (header 0x14 4 0)) ≡ None }
{}

/// How many commands packets stand for.
pub fn commands_are_counted()
    ensures aligned { command_count 4 (header 0x14 8 4) ≡ 2 }
    ensures unaligned { command_count 4 (header 0x14 8 3) ≡ 3 }
    ensures within_a_word { command_count 4 (header 0x14 2 1) ≡ 1 }
    ensures fixed { command_count 4 (header 0x10 12 8) ≡ 3 }
    ensures bytes { command_count 1 (header 0x14 5 7) ≡ 5 }
    ensures no_transaction { command_count 4 (0x7f ∷ []) ≡ 0 }
{}

/// The statements of transactions: one for each word that their bytes touch, with just the lanes of these bytes.
pub fn commands_are_stated()
    ensures whole_write { packet_text (codes "h.m") 4 (packet (header 0x04 4 0 ++ 0x11 ∷ 0x22 ∷ 0x33 ∷ 0x44 ∷ []))
        ≡ codes "write h.m 0000000000 000f 44332211\n" }
    ensures whole_read { packet_text (codes "h.m") 4 (packet (header 0x14 4 0)) ≡ codes "read h.m 0000000000 000f 1\n" }
    ensures unaligned { packet_text (codes "h.m") 4 (packet (header 0x04 2 0x103 ++ 0xaa ∷ 0xbb ∷ []))
        ≡ codes "write h.m 0000000100 0008 aa000000\nwrite h.m 0000000104 0001 000000bb\n" }
    ensures inside { packet_text (codes "h.m") 4 (packet (header 0x14 2 1)) ≡ codes "read h.m 0000000000 0006 1\n" }
    ensures fixed { packet_text (codes "h.m") 2 (packet (header 0x00 4 6 ++ 1 ∷ 2 ∷ 3 ∷ 4 ∷ []))
        ≡ codes "write h.m 0000000006 0003 0201\nwrite h.m 0000000006 0003 0403\n" }
    ensures nothing { packet_text (codes "h.m") 4 (packet (0x7f ∷ 0x7a ∷ [])) ≡ [] }
    ensures lane_too_many { ¬ (packet_text (codes "h.m") 4 (packet (header 0x14 2 1)) ≡ codes "read h.m 0000000000 0007 1\n") }
{}

/// Replies, each on the channel of its request: a write's has its code and 80, and its size, a read's the bytes that it asks for
/// of its words. There is none for a transaction that isn't whole, nor for any behind it.
pub fn replies_are_sent()
    ensures both { replies_text
        (replies_of 4 (packet (header 0x04 4 0 ++ 0x11 ∷ 0x22 ∷ 0x33 ∷ 0x44 ∷ []) ∷ packet (header 0x14 4 0) ∷ []) 1
        (bytes_of 4 (0x44332211 ∷ [])))
        ≡ 0x7c ∷ 0 ∷ 0x7a ∷ 0x84 ∷ 0 ∷ 0 ∷ 0x7b ∷ 4 ∷ 0x7c ∷ 0 ∷ 0x7a ∷ 0x11 ∷ 0x22 ∷ 0x33 ∷ 0x7b ∷ 0x44 ∷ [] }
    ensures nothing { replies_text (replies_of 4 (packet (0x7f ∷ 0x7a ∷ []) ∷ []) 0 [])
        ≡ 0x7c ∷ 0 ∷ 0x7a ∷ 0xff ∷ 0 ∷ 0 ∷ 0x7b ∷ 0 ∷ [] }
    ensures unaligned { answer 4 (header 0x14 2 0x103) (bytes_of 4 (0xaabbccdd ∷ 0x11223344 ∷ [])) ≡ 0xaa ∷ 0x44 ∷ [] }
    ensures inside { answer 4 (header 0x14 2 1) (bytes_of 4 (0xaabbccdd ∷ [])) ≡ 0xcc ∷ 0xbb ∷ [] }
    ensures lane_too_many { ¬ (answer 4 (header 0x14 2 1) (bytes_of 4 (0xaabbccdd ∷ [])) ≡ 0xcc ∷ 0xbb ∷ 0xaa ∷ []) }
    ensures fixed { answer 2 (header 0x10 4 6) (bytes_of 2 (0x0201 ∷ 0x0403 ∷ [])) ≡ 1 ∷ 2 ∷ 3 ∷ 4 ∷ [] }
    ensures fixed_write { answer 2 (header 0x00 4 6 ++ 1 ∷ 2 ∷ 3 ∷ 4 ∷ []) [] ≡ 0x80 ∷ 0 ∷ 0 ∷ 4 ∷ [] }
    ensures one_word_of_two { replies_of 4 (packet (header 0x14 2 0x103) ∷ packet (0x7f ∷ []) ∷ []) 1
        (bytes_of 4 (0xaabbccdd ∷ []))
        ≡ [] }
    ensures no_beat { replies_of 4 (packet (header 0x04 1 0 ++ 0x11 ∷ []) ∷ packet (header 0x14 4 0) ∷ []) 0
        (bytes_of 4 (0xaabbccdd ∷ []))
        ≡ [] }
    ensures first_alone { replies_of 4 (packet (0x7f ∷ []) ∷ packet (header 0x14 4 0) ∷ []) 0 []
        ≡ record { channel = 0; bytes = 0xff ∷ 0 ∷ 0 ∷ 0 ∷ [] } ∷ [] }
{}

/// A stream has one answer: its transfers, or one first fault.
pub fn reads_have_one_answer()
    ensures packets { (bytes : List ℕ) (one other : List Gathered) → AreRead bytes one → AreRead bytes other → one ≡ other }
    ensures fault { (word_bytes range : ℕ) (bytes : List ℕ) (place later rule other : ℕ)
        → IsFaultOf word_bytes range bytes (Refused place rule) → IsFaultOf word_bytes range bytes (Refused later other)
        → Refused place rule ≡ Refused later other }
    ensures never_both { (word_bytes range : ℕ) (bytes : List ℕ) (transfers : Asked) (place rule : ℕ)
        → AreTransfers word_bytes range bytes transfers → ¬ IsFaultOf word_bytes range bytes (Refused place rule) }
{
    one_reading();
    one_fault();
    whole_packets_are_read();
}

/// Each stream has packets that break no rule, or a first fault, and never both.
pub fn reads_are_answered()
    ensures either { (word_bytes range : ℕ) (bytes : List ℕ)
        → ((packets : List Gathered) × AreRead bytes packets × (first_fault word_bytes range 0 packets ≡ None))
        ⊎ ((place : ℕ) × (rule : ℕ) × IsFaultOf word_bytes range bytes (Refused place rule)) }
    ensures never_both { (word_bytes range : ℕ) (bytes : List ℕ) (packets : List Gathered) (place rule : ℕ)
        → AreRead bytes packets → first_fault word_bytes range 0 packets ≡ None
        → ¬ IsFaultOf word_bytes range bytes (Refused place rule) }
{
    one_reading();
    one_fault();
    streams_go_on();
    whole_packets_are_read();
}

/// The packets of a stream are those that it is unpacked as.
pub fn reads_are_unpacked()
    ensures { (bytes : List ℕ) (packets : List Gathered) → AreRead bytes packets → IsUnpacked bytes (map unplaced packets) }
{}

/// Just those packets are answered for which, with all before them, the write beats and the words are enough.
pub fn leading_packets_are_answered()
    ensures which { (word_bytes : ℕ) (packets : List Gathered) (beats : ℕ) (given : List ℕ) (k : ℕ) → k < length packets
        → (k
        < length (replies_of word_bytes packets beats given) ↔ AreEnough word_bytes (take (k + 1) packets) beats
        (length given)) }
    ensures few { (word_bytes : ℕ) (packets : List Gathered) (beats : ℕ) (given : List ℕ)
        → length (replies_of word_bytes packets beats given) ≤ length packets }
{}

/// The bytes that answer a read are those of the lanes that its commands enable, of the words that these are given.
pub fn enabled_bytes_are_answered()
    ensures { (word_bytes : ℕ) (bytes words : List ℕ)
        → enabled_bytes word_bytes bytes 0 words ≡ bytes_read word_bytes bytes (bytes_of word_bytes words) }
{}
