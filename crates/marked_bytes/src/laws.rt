//! What holds of all marked bytes, and small streams that show it. The functions do nothing; their contracts are the laws.

ghost use Rattle.std.specs.Prelude.{◌≡◌, ◌⊎◌, ℕ, ◌<◌, Bool, true, false, List, [], ◌∷◌, ◌++◌, length, Option};
ghost use Rattle.std.specs.List.{list_all};
ghost use Rattle.marked_bytes.specs.declared.unpacker.Awaits.{Awaits as Due};
ghost use Rattle.marked_bytes.specs.declared.unpacker.Unpacker.{Unpacker};
ghost use Rattle.marked_bytes.specs.Items.{Spelled, Mark, Item, Packet, is_mark, is_item, marks_spelling, item_spelling, items_spelling, IsUnpacked};
ghost use Rattle.marked_bytes.specs.Unpacking.{IsFed, IsFaulty, IsWhole, are_items, begun, awaits_some};
ghost use Rattle.marked_bytes.specs.Packing.{packed, Writes};

/// What is packed is unpacked as the one packet.
pub fn packed_is_one_packet()
    ensures { (channel byte : ℕ) (rest : List ℕ)
        → IsUnpacked (packed channel (byte ∷ rest)) (record { channel = channel; bytes = byte ∷ rest } ∷ []) }
{}

/// What was fed spells one list of items at most.
pub fn one_reading()
    ensures { (fed : List ℕ) (items others : List Item) (one other : Unpacker) → IsFed fed items one → IsFed fed others other
        → items ≡ others }
{}

/// A stream has one first fault: a byte at fault breaks one rule, stands behind bytes without a fault, and is part of no reading.
pub fn one_fault()
    ensures rule { (fed : List ℕ) (items others : List Item) (byte one other : ℕ) → IsFaulty fed items byte one
        → IsFaulty fed others byte other → one ≡ other }
    ensures before { (fed : List ℕ) (items : List Item) (byte rule : ℕ) → IsFaulty fed items byte rule
        → (unpacker : Unpacker) × IsFed fed items unpacker }
    ensures end { (fed more : List ℕ) (items others : List Item) (byte rule : ℕ) (unpacker : Unpacker)
        → IsFaulty fed items byte rule → ¬ IsFed (fed ++ byte ∷ more) others unpacker }
{}

/// Whole packets are read without a fault.
pub fn whole_packets_are_read()
    ensures { (fed : List ℕ) (items : List Item) → are_items items ≡ true → IsWhole fed items
        → (unpacker : Unpacker) × IsFed fed items unpacker }
{}

/// Behind bytes without a fault the next byte goes on or is at fault, and their packets are whole or one stands open.
pub fn streams_go_on()
    ensures next { (fed : List ℕ) (items : List Item) (unpacker : Unpacker) (byte : ℕ) → IsFed fed items unpacker
        → ((others : List Item) × (after : Unpacker) × IsFed (fed ++ byte ∷ []) others after)
        ⊎ ((rule : ℕ) × IsFaulty fed items byte rule) }
    ensures end { (fed : List ℕ) (items : List Item) (unpacker : Unpacker) → IsFed fed items unpacker
        → IsWhole fed items ⊎ (¬ IsWhole fed items) }
{}

/// Bytes are unpacked as one list of packets at most.
pub fn one_unpacking()
    ensures { (bytes : List ℕ) (one other : List Packet) → IsUnpacked bytes one → IsUnpacked bytes other → one ≡ other }
{}

/// What is begun behind whole items is a proper part of the spelling of one, from its beginning on.
pub fn begun_items()
    ensures { (marks : List Mark) (due : Due) → list_all is_mark marks ≡ true → awaits_some due ≡ true
        → (item : Item) × (rest : List ℕ) × (is_item item ≡ true) × (0 < length rest)
        × (item_spelling item ≡ (marks_spelling marks ++ begun due) ++ rest) }
{}

/// A text that is written behind another is written with it: whole where both are, and else in part.
pub fn texts_are_written_in_order()
    ensures both { (one other : List ℕ) (held between holds : Option (List ℕ)) (before amid after : ℕ) (whole : Bool)
        → Writes one held between before amid true → Writes other between holds amid after whole
        → Writes (one ++ other) held holds before after whole }
    ensures first { (one other : List ℕ) (held holds : Option (List ℕ)) (before after : ℕ)
        → Writes one held holds before after false → Writes (one ++ other) held holds before after false }
    ensures none { (held : Option (List ℕ)) (faults : ℕ) → Writes [] held held faults faults true }
{}

/// Packets as they are packed: a byte that means something of its own stands behind an escape, as data and as a channel.
pub fn packed_bytes()
    ensures reply { packed 0 (0x84 ∷ 0 ∷ 0 ∷ 4 ∷ []) ≡ 0x7c ∷ 0 ∷ 0x7a ∷ 0x84 ∷ 0 ∷ 0 ∷ 0x7b ∷ 4 ∷ [] }
    ensures words { packed 0 (0x11 ∷ 0x22 ∷ 0x33 ∷ 0x44 ∷ []) ≡ 0x7c ∷ 0 ∷ 0x7a ∷ 0x11 ∷ 0x22 ∷ 0x33 ∷ 0x7b ∷ 0x44 ∷ [] }
    ensures one_byte { packed 1 (9 ∷ []) ≡ 0x7c ∷ 1 ∷ 0x7a ∷ 0x7b ∷ 9 ∷ [] }
    ensures special { packed 0x7d (0x7a ∷ 0x7b ∷ 0x7c ∷ 0x7d ∷ [])
        ≡ 0x7c ∷ 0x7d ∷ 0x5d ∷ 0x7a ∷ 0x7d ∷ 0x5a ∷ 0x7d ∷ 0x5b ∷ 0x7d ∷ 0x5c ∷ 0x7b ∷ 0x7d ∷ 0x5d ∷ [] }
    ensures not_escaped { ¬ (packed 0 (0x7a ∷ []) ≡ 0x7c ∷ 0 ∷ 0x7a ∷ 0x7b ∷ 0x7a ∷ []) }
    ensures neighbours { packed 0 (0x79 ∷ 0x7e ∷ []) ≡ 0x7c ∷ 0 ∷ 0x7a ∷ 0x79 ∷ 0x7b ∷ 0x7e ∷ [] }
{}

/// Streams as they are unpacked: a channel lasts until another is marked, marks stand in any order, and any byte may be escaped.
pub fn unpacked_bytes()
    ensures escaped { IsUnpacked (0x7a ∷ 0x7f ∷ 0x7b ∷ 0x7d ∷ 0x5a ∷ []) (record { channel = 0; bytes = 0x7f ∷ 0x7a ∷ [] } ∷ []) }
    ensures lasting { IsUnpacked (0x7c ∷ 5 ∷ 0x7a ∷ 0x7b ∷ 1 ∷ 0x7b ∷ 0x7a ∷ 2 ∷ [])
        (record { channel = 5; bytes = 1 ∷ [] } ∷ record { channel = 5; bytes = 2 ∷ [] } ∷ []) }
    ensures last_channel { IsUnpacked (0x7c ∷ 5 ∷ 0x7a ∷ 0x7c ∷ 6 ∷ 0x7b ∷ 1 ∷ []) (record { channel = 6; bytes = 1 ∷ [] } ∷ []) }
    ensures escaped_plain { IsUnpacked (0x7a ∷ 0x7b ∷ 0x7d ∷ 0x21 ∷ []) (record { channel = 0; bytes = 1 ∷ [] } ∷ []) }
    ensures nothing { IsUnpacked [] [] }
    ensures turned { ¬ (IsUnpacked (0x7a ∷ 0x7b ∷ 0x7d ∷ 0x21 ∷ []) (record { channel = 0; bytes = 0x21 ∷ [] } ∷ [])) }
{}

/// Bytes at fault: a mark in place of a channel, data outside a packet, a first mark and another channel inside one.
pub fn faulty_bytes()
    ensures mark_for_channel { IsFaulty (0x7c ∷ []) [] 0x7a 1 }
    ensures outside { IsFaulty [] [] 0x41 2 }
    ensures outside_escaped { IsFaulty (0x7b ∷ []) [] 0x7d 2 }
    ensures first_inside { IsFaulty (0x7a ∷ 1 ∷ 0x7a ∷ [])
        (record { marks = Mark.IsFirst ∷ []; byte = Spelled.Itself 1 } ∷ []) 2 2 }
    ensures channel_inside { IsFaulty (0x7a ∷ 1 ∷ 0x7c ∷ 3 ∷ [])
        (record { marks = Mark.IsFirst ∷ []; byte = Spelled.Itself 1 } ∷ []) 2 2 }
{}
