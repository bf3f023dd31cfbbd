//! The sizes of the beats on both sides of a window.

ghost use Rattle.std.specs.Prelude.{◌≡◌, ℕ, ◌+◌, ◌*◌, ◌^◌, ◌<◌, ◌≤◌};
ghost use Rattle.stream_machines.specs.Windows.{window_hold};

use item_queues::count_bits;

/// How many symbols beats have that come and that go, and how many are held between them at most.
#[derive(Clone, Copy)]
pub struct WindowSizes {
    /// The symbols of a beat that comes.
    pub from: u8,
    /// The symbols of a beat that goes.
    pub into: u8,
    /// The bits of a symbol.
    pub bits: u8,
    /// The most symbols that are held.
    pub held: u8,
    /// The bits of a count of the symbols that are held and come.
    pub count: u8,
    /// The bits of a count of those that are held.
    pub held_count: u8,
    pub ghost some_from: { 1 ≤ from },
    pub ghost some_into: { 1 ≤ into },
    pub ghost some_bits: { 1 ≤ bits },
    pub ghost some_held: { 1 ≤ held },
    pub ghost from_behind: { from ≤ held + 1 },
    pub ghost into_behind: { into ≤ held + 1 },
    pub ghost from_fits: { bits * from ≤ 128 },
    pub ghost into_fits: { bits * into ≤ 128 },
    pub ghost held_fits: { bits * held ≤ 128 },
    pub ghost some_count: { 1 ≤ count },
    pub ghost few_count: { count ≤ 8 },
    pub ghost counts: { held + from < 2 ^ count },
    pub ghost some_held_count: { 1 ≤ held_count },
    pub ghost few_held_count: { held_count ≤ count },
    pub ghost counts_held: { held < 2 ^ held_count },
}

impl WindowSizes {
    /// From beats of so many symbols into beats of so many others.
    pub fn new(from: u8, into: u8, bits: u8) -> WindowSizes
        requires some_from { 1 ≤ from }
        requires some_into { 1 ≤ into }
        requires apart { ¬ (from ≡ into) }
        requires some_bits { 1 ≤ bits }
        requires from_fits { bits * from ≤ 128 }
        requires into_fits { bits * into ≤ 128 }
        ensures from { result.from ≡ from }
        ensures into { result.into ≡ into }
        ensures bits { result.bits ≡ bits }
        ensures held { result.held ≡ window_hold from into }
        ensures least_held { (few : ℕ) → 1 ≤ few → window_hold from into < 2 ^ few → result.held_count ≤ few }
        ensures least { (few : ℕ) → 1 ≤ few → window_hold from into + from < 2 ^ few → result.count ≤ few }
    {
        let held = if from <= into { into - 1 } else { from - 1 };
        let count = count_bits(held + from);
        let held_count = count_bits(held);
        WindowSizes {
            from,
            into,
            bits,
            held,
            count,
            held_count,
        }
    }
}
