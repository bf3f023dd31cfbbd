//! Byte operations of beats, bursts and footprints.

use memory_runs::{
    BeatValue, ByteOperation, End, Transfer, filled_lanes, footprint, longest_burst, operations_of,
    own_operations,
};

const WIDE: End = End {
    word_bytes: 4,
    has_enables: true,
};

const BYTES: End = End {
    word_bytes: 1,
    has_enables: false,
};

const WRITE: BeatValue = BeatValue {
    transfer: Transfer::Writes,
    address: 4,
    word: 0xaabbccdd,
    enables: 6,
};

/// A 32-bit host writes aabbccdd at 4 with the lanes 6 to an 8-bit agent: cc at 5, then bb at 6.
#[test]
fn two_enabled_bytes_are_two_writes(rt: HostRuntime) {
    let operations = operations_of(rt.alloc(), WIDE, BYTES, 16, WRITE).expect(&rt, "memory");
    let cc = ByteOperation::Write {
        offset: 5,
        byte: 0xcc,
    };
    let bb = ByteOperation::Write {
        offset: 6,
        byte: 0xbb,
    };
    assert_eq!(rt; operations.as_slice(), [cc, bb].as_slice());
}

/// A word without byte enables is filled whole where one lane of it is enabled.
#[test]
fn agent_without_enables_takes_whole_words(rt: HostRuntime) {
    let pairs = End {
        word_bytes: 2,
        has_enables: false,
    };
    let lanes = filled_lanes(rt.alloc(), WIDE, pairs, 4).expect(&rt, "memory");
    assert_eq!(rt; lanes.as_slice(), [2, 3].as_slice());
}

/// A 64-bit agent is read with the lane of byte 5 alone.
#[test]
fn one_lane_is_one_read(rt: HostRuntime) {
    let words = End {
        word_bytes: 8,
        has_enables: true,
    };
    let read = BeatValue {
        transfer: Transfer::Reads,
        address: 0,
        word: 0,
        enables: 0x20,
    };
    let operations = own_operations(rt.alloc(), words, 256, read).expect(&rt, "memory");
    assert_eq!(rt;
        operations.as_slice(),
        [ByteOperation::Read { offset: 5 }].as_slice()
    );
}

#[test]
fn longest_bursts(rt: HostRuntime) {
    assert_eq!(rt; longest_burst(11), 1024);
    assert_eq!(rt; longest_burst(3), 4);
}

#[test]
fn small_agents_take_a_host_word(rt: HostRuntime) {
    assert_eq!(rt; footprint(1, 4), 4);
    assert_eq!(rt; footprint(256, 4), 256);
}
