//! The words of all memories, lane by lane.

ghost use Rattle.std.specs.Prelude.{◌≡◌, ℕ, ◌+◌, ◌^◌, ◌<◌, ◌≤◌, length, slice_get, Some, IfOk, IfSome};
ghost use Rattle.av_base.specs.Word.{word};
ghost use Rattle.netlist.specs.declared.line.Memory.{Memory};
ghost use Rattle.netlist.specs.Netlists.{IsModule};
ghost use Rattle.netlist.specs.Runs.{word_after};
ghost use Rattle.cycle_sim.specs.Sims.{AreNets, AreWords, ArePlaces, bits_at, cycle_with, place_of};
ghost use Rattle.lane_sim.specs.LaneSims.{AreCells, AreLaneNets, AreLaneCells, cells_at, lane_words};
ghost use Rattle.lane_sim.specs.LaneWords.{value_at};

use crate::planes::LaneVal;
use av_base::{NoMemory, Val};
use netlist::Module;
use std::alloc::Global;
use std::marker::Model;

/// The words of all memories in one lane, one memory after another, and where those of each begin.
#[derive(Drop)]
pub(crate) struct Cells {
    places: Vec<usize>,
    words: Vec<Val>,
}

impl Model for Cells {
    ghost use Rattle.lane_sim.specs.LaneSims.{CellsValue};

    ghost Value = { CellsValue };

    ghost view = { λ c. record { places = c.places.items; words = c.words.items } };
}

pub(crate) fn zero(width: u8) -> Val
    requires some_bit { 1 ≤ width }
    requires small { width ≤ 128 }
    ensures { result ≡ word width 0 }
{
    Val::new(width, 0).unwrap()
}

impl Cells {
    /// Each word is 0.
    fn new(alloc: Global, module: &Module) -> Result<Cells, NoMemory>
        ensures places { IfOk result (λ cells. ArePlaces «module».now.memories cells.places) }
        ensures words { IfOk result (λ cells. AreWords «module».now.memories cells.words) }
        ensures cleared { IfOk result (λ cells. (n : ℕ) → bits_at cells.words n ≡ 0) }
    {
        module.well_made();
        let mut places = Vec::new(alloc);
        let mut words = Vec::new(alloc);
        for number in 0..module.memory_count() {
            let memory = module.memory(number);
            let place = words.len();
            places.push(place)?;
            words.resize(place + (1 << memory.address_bits), zero(memory.width))?;
        }
        Ok(Cells { places, words })
    }

    /// The word of a memory at an address.
    fn word(&self, module: &Module, memory: u32, address: Val) -> Val
        requires module { IsModule «module».now }
        requires cells { AreCells «module».now.memories self.now }
        requires memory_is { (k : Memory) × (slice_get «module».now.memories memory ≡ Some k) × (address.width ≡ k.address_bits) }
        ensures word { slice_get self.now.words (place_of «module».now.memories memory + address.bits) ≡ Some result }
        ensures width { (k : Memory) → slice_get «module».now.memories memory ≡ Some k → result.width ≡ k.width }
    {
        module.well_made();
        let address = address.bits() as usize;
        self.words[self.places[memory as usize] + address]
    }

    /// The clock's edge in a lane: each memory takes the word that its write puts, by the values of the nets there.
    fn write(&mut self, module: &Module, nets: &[LaneVal], lane: u8)
        requires lane { lane < 8 }
        requires module { IsModule «module».now }
        requires nets { AreNets «module».now.lines (lane_words lane nets.now) }
        requires places { ArePlaces «module».now.memories self.old.places }
        requires words { AreWords «module».now.memories self.old.words }
        ensures same { self.new.places ≡ self.old.places }
        ensures words { AreWords «module».now.memories self.new.words }
        ensures written { (m : ℕ) (memory : Memory) → slice_get «module».now.memories m ≡ Some memory → (address : ℕ)
            → address < 2 ^ memory.address_bits
            → IfSome memory.write (λ write. bits_at self.new.words (place_of «module».now.memories m + address)
            ≡ word_after (cycle_with «module».now (lane_words lane nets.now) self.old.words) write m address) }
    {
        for m in 0..module.memory_count() {
            let memory = module.memory(m);
            if nets[memory.enable as usize].lane(lane).bits() == 1 {
                let address = nets[memory.address as usize].lane(lane).bits() as usize;
                self.words[self.places[m as usize] + address] = nets[memory.word as usize].lane(
                    lane,
                );
            }
        }
    }
}

/// The memories of eight lanes, each word of them 0.
pub(crate) fn first_cells(alloc: Global, module: &Module) -> Result<Vec<Cells>, NoMemory>
    ensures cells { IfOk result (λ cells. AreLaneCells «module».now.memories cells.items) }
    ensures cleared { IfOk result (λ cells. (j : ℕ) → j < 8 → (n : ℕ) → bits_at (cells_at cells.items j).words n ≡ 0) }
{
    let mut cells = Vec::new(alloc);
    'lanes: for _ in 0..8u32 {
        cells.push(Cells::new(alloc, module)?)?;
    }
    Ok(cells)
}

/// In each lane the word of a memory at the address that the lane has.
pub(crate) fn words_at(module: &Module, cells: &[Cells], memory: u32, address: LaneVal) -> LaneVal
    requires module { IsModule «module».now }
    requires cells { AreLaneCells «module».now.memories cells.now }
    requires memory_is { (k : Memory) × (slice_get «module».now.memories memory ≡ Some k) × (address.width ≡ k.address_bits) }
    ensures { (j : ℕ) → j < 8
        → slice_get (cells_at cells.now j).words (place_of «module».now.memories memory + (value_at address j).bits)
        ≡ Some (value_at result j) }
{
    let mut values = [zero(module.memory(memory).width); 8];
    for lane in 0..8 {
        values[lane as usize] = cells[lane as usize].word(module, memory, address.lane(lane));
    }
    LaneVal::from(values)
}

/// The clock's edge in all lanes.
pub(crate) fn write_cells(module: &Module, nets: &[LaneVal], cells: &mut [Cells])
    requires module { IsModule «module».now }
    requires nets { AreLaneNets «module».now.lines nets.now }
    requires cells { AreLaneCells «module».now.memories cells.old }
    ensures cells { AreLaneCells «module».now.memories cells.new }
    ensures written { (j : ℕ) → j < 8 → (m : ℕ) (memory : Memory) → slice_get «module».now.memories m ≡ Some memory
        → (address : ℕ) → address < 2 ^ memory.address_bits
        → IfSome memory.write (λ write. bits_at (cells_at cells.new j).words (place_of «module».now.memories m + address)
        ≡ word_after (cycle_with «module».now (lane_words j nets.now) (cells_at cells.old j).words) write m address) }
{
    for lane in 0..8 {
        cells[lane as usize].write(module, nets, lane);
    }
}
