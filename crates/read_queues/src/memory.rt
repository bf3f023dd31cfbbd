//! A memory, and its write, as parts of a netlist that grows.

ghost use Rattle.std.specs.Prelude.{◌≡◌, ℕ, ◌+◌, ◌^◌, ◌<◌, ◌≤◌, length, IfOk, OnOk};
ghost use Rattle.netlist.specs.Netlists.{IsNet, IsMem, IsWaiting, WaitsForWrite};
ghost use Rattle.net_parts.specs.Nets.{IsBit, IsNetOfWidth};
ghost use Rattle.net_parts.specs.Growth.{GrowsInMemory, StillWait, StillWaitForWrite, WriteWaitsBeside, WriteWaitsWithout};
ghost use Rattle.read_queues.specs.Steps.{TakesWrites};

use netlist::{Builder, Mem, Net, NetFault};

/// A memory that waits for its write.
pub(crate) fn make_memory(
    builder: &mut Builder,
    word_bits: u8,
    address_bits: u8,
) -> Result<Mem, NetFault>
    requires some_bit { 1 ≤ word_bits }
    requires small { word_bits ≤ 128 }
    requires some_address { 1 ≤ address_bits }
    requires few_addresses { address_bits ≤ 10 }
    ensures mem { IfOk result (λ m. IsMem builder.new m) }
    ensures width { IfOk result (λ m. m.width ≡ word_bits) }
    ensures depth { IfOk result (λ m. m.address_bits ≡ address_bits) }
    ensures number { IfOk result (λ m. m.number ≡ length builder.old.memories) }
    ensures waits { IfOk result (λ m. WaitsForWrite builder.new m.number) }
    ensures within { IfOk result (λ m. m.number < length builder.new.memories) }
    ensures grows { GrowsInMemory 0 1 builder.old builder.new }
    ensures lines { builder.new.lines ≡ builder.old.lines }
    ensures still_wait { StillWait builder.old builder.new }
    ensures no_more_wait { StillWait builder.new builder.old }
    ensures still_wait_for_write { StillWaitForWrite builder.old builder.new }
    ensures newly_written { IfOk result (λ m. WriteWaitsBeside (λ n. n ≡ m.number) builder.old builder.new) }
    ensures full { result ≡ Err NetFault.TooManyNets → 2 ^ 16 < length builder.old.memories + 1 }
{
    builder.memory(word_bits, address_bits)
}

/// Gives a memory its write.
pub(crate) fn take_writes(builder: &mut Builder, mem: Mem, enable: Net, address: Net, word: Net)
    requires mem { IsMem builder.old mem }
    requires waits { WaitsForWrite builder.old mem.number }
    requires enable { IsBit builder.old enable }
    requires address { IsNetOfWidth builder.old address mem.address_bits }
    requires word { IsNetOfWidth builder.old word mem.width }
    ensures value { TakesWrites builder.new mem enable address word }
    ensures grows { GrowsInMemory 0 0 builder.old builder.new }
    ensures still_wait { StillWait builder.old builder.new }
    ensures no_more_wait { StillWait builder.new builder.old }
    ensures still_wait_for_write { (m : ℕ) → ¬ (m ≡ mem.number) → WaitsForWrite builder.old m → WaitsForWrite builder.new m }
    ensures no_more_write { WriteWaitsWithout (λ m. m ≡ mem.number) builder.old builder.new }
{
    builder.set_write(mem, enable, address, word);
}
