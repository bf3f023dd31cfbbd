//! A module stepped with what is joined to its ports.

ghost use Rattle.std.specs.Prelude.{◌≡◌, true};

use av_base::{NoMemory, Val};
use cycle_sim::Sim;
use iface_roles::Role;
use interconnect::{Built, PortMap};
use netlist::PortLine;
use std::alloc::{AllocError, Global};
use system_tables::EndId;

/// What stands at the port of this number.
#[derive(Clone, Copy)]
struct Level {
    port: u32,
    bits: u128,
}

/// What stands at the inputs of a module in a cycle.
#[derive(Drop)]
pub struct Inputs<'a> {
    ports: &'a PortMap,
    levels: Vec<Level>,
}

/// What stands at the outputs of a module in a cycle.
#[derive(Clone, Copy)]
pub struct Outputs<'a> {
    ports: &'a PortMap,
    sim: &'a Sim,
    ghost stepped: { sim.now.stepped ≡ true },
}

/// What is joined to the ports of a module.
pub trait Bench {
    /// Sets what stands at the inputs in a cycle. At those that it leaves out it is 0.
    fn shows(&self, inputs: &mut Inputs, cycle: u32) -> Result<(), AllocError>;

    /// The cycle ends.
    fn sees(&mut self, outputs: &Outputs, cycle: u32) -> Result<(), AllocError>;
}

impl Inputs<'_> {
    /// Sets what stands at a port of an end, where the end has it.
    pub fn set(&mut self, end: EndId, role: Role, bits: u128) -> Result<(), AllocError> {
        if let Some(port) = self.ports.port(end, role) {
            self.levels.push(Level { port, bits })?;
        }
        Ok(())
    }

    /// What stands at the input of this number.
    fn level_at(&self, number: u32) -> u128 {
        match self.levels.iter().find(|level| level.port == number) {
            Some(level) => level.bits,
            None => 0,
        }
    }

    /// The values of these ports, in header order, without those that don't fit their ports.
    fn values(&self, alloc: Global, ports: &[PortLine]) -> Result<Vec<Val>, AllocError> {
        let mut values = Vec::new(alloc);
        for (number, port) in (0..u32::MAX).zip(ports) {
            match Val::new(port.width, self.level_at(number)) {
                Some(value) if !port.output => values.push(value)?,
                _ => (),
            }
        }
        Ok(values)
    }
}

/// The level at the output of this number, None where there is no such output.
fn output_at(sim: &Sim, port: u32) -> Option<u128>
    requires { sim.now.stepped ≡ true }
{
    let line = sim.module().ports().get(port as usize)?;
    if line.output {
        Some(sim.output(port).bits())
    } else {
        None
    }
}

impl Outputs<'_> {
    /// What stands at the output of this number, 0 where there is none.
    pub fn level_at(&self, number: Option<u32>) -> u128 {
        match number {
            Some(number) => output_at(self.sim, number).unwrap_or(0),
            None => 0,
        }
    }

    /// What stands at a port of an end, 0 where the end has no such output.
    pub fn level(&self, end: EndId, role: Role) -> u128 {
        self.level_at(self.ports.port(end, role))
    }

    /// Whether a port of an end is there and high.
    pub fn is_high(&self, end: EndId, role: Role) -> bool {
        self.level(end, role) == 1
    }
}

/// A cycle; false where its inputs don't fit the module.
fn run_cycle<B: Bench>(
    alloc: Global,
    sim: &mut Sim,
    ports: &PortMap,
    bench: &mut B,
    cycle: u32,
) -> Result<bool, AllocError> {
    let mut inputs = Inputs {
        ports,
        levels: Vec::new(alloc),
    };
    bench.shows(&mut inputs, cycle)?;
    let values = inputs.values(alloc, sim.module().ports())?;
    if !sim.fits(values.as_slice()) {
        return Ok(false);
    }
    sim.step(values.as_slice());
    bench.sees(&Outputs { ports, sim: &*sim }, cycle)?;
    sim.advance();
    Ok(true)
}

/// Steps a module for so many cycles; false where the inputs of one don't fit it.
pub fn run_cycles<B: Bench>(
    alloc: Global,
    built: Built,
    bench: &mut B,
    cycles: u32,
) -> Result<bool, NoMemory> {
    let Built { module, ports } = built;
    let mut sim = Sim::new(alloc, module)?;
    for cycle in 0..cycles {
        if !run_cycle(alloc, &mut sim, &ports, bench, cycle)? {
            return Ok(false);
        }
    }
    Ok(true)
}
