//! What registers take at the clock's edge.

ghost use Rattle.std.specs.Prelude.{◌≡◌, ◌<◌, ◌≤◌, ◌⊎◌, ℕ, length, slice_get, Some};
ghost use Rattle.netlist.specs.Netlists.{IsModule};
ghost use Rattle.cycle_sim.specs.Sims.{AreNets, bits_at};
ghost use Rattle.cycle_sim.specs.Orders.{IsChangeOf, IsChanged};
ghost use Rattle.cycle_sim.specs.declared.reading.registers.Register.{Register};
ghost use Rattle.cycle_sim.specs.Registers.{AreRegisters};

use crate::reading::Register;
use av_base::Val;
use netlist::Module;

/// What a register's net takes at the clock's edge.
#[derive(Clone, Copy)]
pub(crate) struct Change {
    pub(crate) net: u32,
    pub(crate) value: Val,
}

/// Gathers what the registers take whose next net has another value than they: how many they are. They stand at the head of the
/// list.
pub(crate) fn gather(
    module: &Module,
    registers: &[Register],
    nets: &[Val],
    changes: &mut [Change],
) -> usize
    requires module { IsModule «module».now }
    requires registers { AreRegisters «module».now.lines registers.now }
    requires nets { AreNets «module».now.lines nets.now }
    requires changes { length changes.old ≡ length registers.now }
    ensures count { result ≤ length changes.new }
    ensures each { (j : ℕ) (change : Change) → j < result → slice_get changes.new j ≡ Some change
        → IsChangeOf registers.now nets.now change }
    ensures others { (j : ℕ) (register : Register) → slice_get registers.now j ≡ Some register
        → IsChanged changes.new result register.net ⊎ (bits_at nets.now register.net ≡ bits_at nets.now register.next) }
{
    let mut count = 0;
    for register in registers {
        let value = nets[register.next as usize];
        if value.bits() != nets[register.net as usize].bits() {
            changes[count] = Change {
                net: register.net,
                value,
            };
            count += 1;
        }
    }
    count
}
