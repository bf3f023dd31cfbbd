//! What registers take at the clock's edge.

ghost use Rattle.std.specs.Prelude.{◌≡◌, ◌<◌, ◌≤◌, ◌⊎◌, ℕ, length, slice_get, Some};
ghost use Rattle.netlist.specs.Netlists.{IsModule};
ghost use Rattle.cycle_sim.specs.Sims.{bits_at};
ghost use Rattle.cycle_sim.specs.declared.reading.registers.Register.{Register};
ghost use Rattle.cycle_sim.specs.Registers.{AreRegisters};
ghost use Rattle.lane_sim.specs.LaneSims.{AreLaneNets, lane_words};
ghost use Rattle.lane_sim.specs.Changes.{WordChange, IsChangeOf, IsChanged, lane_changes};

use crate::planes::LaneVal;
use cycle_sim::reading::Register;
use netlist::Module;

/// What a register's net takes at the clock's edge.
#[derive(Clone, Copy)]
pub(crate) struct Change {
    pub(crate) net: u32,
    pub(crate) value: LaneVal,
}

/// Gathers what the registers take whose next net differs from them in some lane: how many they are. They stand at the head of
/// the list.
pub(crate) fn gather(
    module: &Module,
    registers: &[Register],
    nets: &[LaneVal],
    changes: &mut [Change],
) -> usize
    requires module { IsModule «module».now }
    requires registers { AreRegisters «module».now.lines registers.now }
    requires nets { AreLaneNets «module».now.lines nets.now }
    requires changes { length changes.old ≡ length registers.now }
    ensures count { result ≤ length changes.new }
    ensures each { (j : ℕ) → j < 8 → (i : ℕ) (change : WordChange) → i < result
        → slice_get (lane_changes j changes.new) i ≡ Some change → IsChangeOf registers.now (lane_words j nets.now) change }
    ensures others { (j : ℕ) → j < 8 → (i : ℕ) (register : Register) → slice_get registers.now i ≡ Some register
        → IsChanged (lane_changes j changes.new) result register.net
        ⊎ (bits_at (lane_words j nets.now) register.net ≡ bits_at (lane_words j nets.now) register.next) }
{
    let mut count = 0;
    for register in registers {
        let value = nets[register.next as usize];
        if !value.is_same(nets[register.net as usize]) {
            changes[count] = Change {
                net: register.net,
                value,
            };
            count += 1;
        }
    }
    count
}
