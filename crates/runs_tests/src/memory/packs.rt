//! Packed reads, computed: a read of bytes from an agent of words of eight bytes.

ghost use Rattle.std.specs.Prelude.{◌≡◌, ◌∷◌, [], true, false, map, flat_map};
ghost use Rattle.memory_runs.specs.Commands.{shows};
ghost use Rattle.memory_machines.specs.Link.{CarriesCommands, taken_at, words_at};
ghost use Rattle.memory_machines.specs.Lines.{BringsBack};
ghost use Rattle.memory_links.specs.Cutters.{reach_words, reach_longest};
ghost use Rattle.memory_links.specs.Driven.{cut_above};
ghost use Rattle.memory_links.specs.DrivenGather.{gather_above, gather_below};
ghost use Rattle.memory_links.specs.Gathers.{LieInWords};
ghost use Rattle.memory_links.specs.Packs.{PacksReads, touches_of};
ghost use Rattle.runs_tests.specs.PackedReads.{agent, shape, cutting, gathering, wide_reads, byte_reads};

/// A read of eight bytes at byte 3 goes as two reads, joined, of five lanes and of three, and its words are given byte by
/// byte, one a cycle. It has the touches 5 and 3, also where a span of one word wraps. With room for one read the second one
/// waits.
pub fn packed_reads()
    ensures places { map (λ m. m.transfer.first) (taken_at (gather_below (gathering (reach_words 1 8) 4)) 4) ≡ 0 ∷ 8 ∷ [] }
    ensures first { (gather_below (gathering (reach_words 1 8) 4)).commands.enables 0 ≡ 0xf8 }
    ensures second { (gather_below (gathering (reach_words 1 8) 4)).commands.enables 1 ≡ 0x07 }
    ensures joined { map (λ m. m.more) (taken_at (gather_below (gathering (reach_words 1 8) 4)) 4) ≡ true ∷ false ∷ [] }
    ensures words { map (λ w. w.word) (words_at (gather_above (gathering (reach_words 1 8) 4)) 9)
        ≡ 0x13 ∷ 0x14 ∷ 0x15 ∷ 0x16 ∷ 0x17 ∷ 0x18 ∷ 0x19 ∷ 0x1a ∷ [] }
    ensures touches { flat_map (touches_of (agent 16) (shape 1 4)) (taken_at (cut_above (cutting (reach_words 1 8))) 1)
        ≡ 0 ∷ 5 ∷ 3 ∷ [] }
    ensures wrapped { flat_map (touches_of (agent 8) (shape 1 4)) (taken_at (cut_above (cutting (reach_words 1 8))) 1)
        ≡ 0 ∷ 5 ∷ 3 ∷ [] }
    ensures held_back { shows (gather_below (gathering (reach_words 1 8) 1)).commands.signals 1 ≡ false }
{}

/// A read for each byte isn't packed, nor is a word that is read twice. One of all lanes reads bytes that nobody asked, and a
/// burst that isn't cut doesn't lie in a word. A byte from the wrong place is refused, and one that is given twice.
pub fn unpacked_reads()
    ensures each_byte { PacksReads (agent 16) (cut_above (cutting (reach_longest 1)))
        (gather_below (gathering (reach_longest 1) 9)) 9
        → ⊥ }
    ensures twice { PacksReads (agent 16) (cut_above (cutting (reach_words 1 8)))
        (wide_reads (1 ∷ 1 ∷ 1 ∷ []) (0 ∷ 0 ∷ 8 ∷ []) (0x38 ∷ 0xc0 ∷ 7 ∷ [])) 3
        → ⊥ }
    ensures all_lanes { CarriesCommands (agent 16) 1 (cut_above (cutting (reach_words 1 8)))
        (wide_reads (1 ∷ 1 ∷ []) (0 ∷ 8 ∷ []) (0xff ∷ 0xff ∷ [])) 3
        → ⊥ }
    ensures uncut { LieInWords (cut_above (cutting (reach_words 1 8))) (shape 8 1) 1 → ⊥ }
    ensures unmoved { BringsBack (agent 16) (byte_reads (0 ∷ 0x10 ∷ 0x11 ∷ 0x12 ∷ []))
        (wide_reads (1 ∷ 1 ∷ []) (0 ∷ 8 ∷ []) (0xf8 ∷ 7 ∷ [])) 4
        → ⊥ }
    ensures repeated { BringsBack (agent 16) (byte_reads (0 ∷ 0x13 ∷ 0x13 ∷ 0x14 ∷ []))
        (wide_reads (1 ∷ 1 ∷ []) (0 ∷ 8 ∷ []) (0xf8 ∷ 7 ∷ [])) 4
        → ⊥ }
{}
