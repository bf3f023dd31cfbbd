//! The words of all memories.

ghost use Rattle.std.specs.Prelude.{◌≡◌, ℕ, ◌+◌, ◌^◌, ◌<◌, ◌≤◌, slice_get, Some, IfOk, IfSome};
ghost use Rattle.av_base.specs.Word.{word};
ghost use Rattle.netlist.specs.declared.line.Memory.{Memory};
ghost use Rattle.netlist.specs.Netlists.{IsModule};
ghost use Rattle.netlist.specs.Runs.{word_after};
ghost use Rattle.cycle_sim.specs.Sims.{AreNets, AreWords, ArePlaces, bits_at, cycle_with, place_of};

use av_base::{NoMemory, Val};
use netlist::Module;
use std::alloc::Global;

/// The words of all memories, one memory after another, and where those of each begin.
#[derive(Drop)]
pub(crate) struct Cells {
    pub(crate) places: Vec<usize>,
    pub(crate) words: Vec<Val>,
}

pub(crate) fn zero(width: u8) -> Val
    requires some_bit { 1 ≤ width }
    requires small { width ≤ 128 }
    ensures { result ≡ word width 0 }
{
    Val::new(width, 0).unwrap()
}

impl Cells {
    /// Each word is 0.
    pub(crate) fn new(alloc: Global, module: &Module) -> Result<Cells, NoMemory>
        ensures places { IfOk result (λ cells. ArePlaces «module».now.memories cells.places.items) }
        ensures words { IfOk result (λ cells. AreWords «module».now.memories cells.words.items) }
        ensures cleared { IfOk result (λ cells. (n : ℕ) → bits_at cells.words.items n ≡ 0) }
    {
        module.well_made();
        let mut places = Vec::new(alloc);
        let mut words = Vec::new(alloc);
        for number in 0..module.memory_count() {
            let memory = module.memory(number);
            let place = words.len();
            places.push(place)?;
            words.resize(place + (1 << memory.address_bits), zero(memory.width))?;
        }
        Ok(Cells { places, words })
    }

    /// The clock's edge: each memory takes the word that its write puts, by the values of the nets.
    pub(crate) fn write(&mut self, module: &Module, nets: &[Val])
        requires module { IsModule «module».now }
        requires nets { AreNets «module».now.lines nets.now }
        requires places { ArePlaces «module».now.memories self.old.places.items }
        requires words { AreWords «module».now.memories self.old.words.items }
        ensures same { self.new.places.items ≡ self.old.places.items }
        ensures words { AreWords «module».now.memories self.new.words.items }
        ensures written { (m : ℕ) (memory : Memory) → slice_get «module».now.memories m ≡ Some memory → (address : ℕ)
            → address < 2 ^ memory.address_bits
            → IfSome memory.write (λ write. bits_at self.new.words.items (place_of «module».now.memories m + address)
            ≡ word_after (cycle_with «module».now nets.now self.old.words.items) write m address) }
    {
        for m in 0..module.memory_count() {
            let memory = module.memory(m);
            if nets[memory.enable as usize].bits() == 1 {
                let address = nets[memory.address as usize].bits() as usize;
                self.words[self.places[m as usize] + address] = nets[memory.word as usize];
            }
        }
    }
}
