//! Inputs that look random.

ghost use Rattle.std.specs.Prelude.{◌≡◌, ℕ, ◌<◌, IfSome};
ghost use Rattle.lane_sim.specs.LaneWords.{word_in};

use av_base::{NoMemory, Val};
use lane_sim::planes::LaneVal;
use netlist::PortLine;
use std::alloc::Global;

/// A generator of numbers.
#[derive(Drop)]
pub(crate) struct Random {
    state: u64,
}

impl Random {
    pub(crate) fn new(seed: u64) -> Random {
        Random { state: seed }
    }

    /// The next 32 bits.
    fn next(&mut self) -> u64 {
        self.state = self
            .state
            .wrapping_mul(6364136223846793005)
            .wrapping_add(1442695040888963407);
        self.state >> 32
    }

    fn value(&mut self, width: u8) -> Option<Val>
        ensures { IfSome result (λ value. value.width ≡ width) }
    {
        if width < 1 || width > 128 {
            return None;
        }
        let mut bits = 0u128;
        for _ in 0..4 {
            bits = (bits << 32) | u128::from(self.next());
        }
        Val::new(width, bits >> (128 - width))
    }

    /// A value of this width for each lane.
    fn values(&mut self, width: u8) -> Option<[Val; 8]>
        ensures { IfSome result (λ values. (j : ℕ) → j < 8 → (word_in values j).width ≡ width) }
    {
        let mut values = [Val::new(width, 0)?; 8];
        for lane in 0..8 {
            values[lane] = self.value(width)?;
        }
        Some(values)
    }
}

/// The inputs of one cycle, for the lanes together and for each by itself.
#[derive(Drop)]
pub(crate) struct Inputs {
    pub(crate) lanes: Vec<LaneVal>,
    pub(crate) plain: Vec<Vec<Val>>,
}

fn push_values(inputs: &mut Inputs, values: [Val; 8]) -> Result<(), NoMemory> {
    for (value, list) in values.iter().zip(inputs.plain.iter_mut()) {
        list.push(*value)?;
    }
    Ok(())
}

impl Inputs {
    pub(crate) fn new(alloc: Global) -> Result<Inputs, NoMemory> {
        let mut plain = Vec::new(alloc);
        for _ in 0..8 {
            plain.push(Vec::new(alloc))?;
        }
        Ok(Inputs {
            lanes: Vec::new(alloc),
            plain,
        })
    }

    fn clear(&mut self) {
        self.lanes.clear();
        for list in self.plain.iter_mut() {
            list.clear();
        }
    }

    fn push(&mut self, random: &mut Random, width: u8) -> Result<(), NoMemory> {
        if let Some(values) = random.values(width) {
            self.lanes.push(LaneVal::from(values))?;
            push_values(self, values)?;
        }
        Ok(())
    }

    /// Draws a value for each input port and each lane.
    pub(crate) fn draw(&mut self, random: &mut Random, ports: &[PortLine]) -> Result<(), NoMemory> {
        self.clear();
        for port in ports {
            if !port.output {
                self.push(random, port.width)?;
            }
        }
        Ok(())
    }
}
