ghost use Rattle.std.specs.Prelude.{◌≡◌, IfOk};
ghost use Rattle.port_rows.specs.Rows.{blank_row};
ghost use Rattle.port_rows.specs.Levels.{level_if, levels_for, set_level, set_levels, Fits, AllFit};

use crate::driven::Driven;
use av_base::{NoMemory, Val};
use netlist::Module;
use std::alloc::Global;
use std::marker::Model;

/// The values at the inputs of a module, one for each input port, in header order.
#[derive(Drop)]
pub struct InputRow {
    values: Vec<Val>,
}

impl Model for InputRow {
    ghost use Rattle.std.specs.Prelude.{List};
    ghost use Rattle.av_base.specs.Word.{Word};

    ghost Value = { List Word };

    ghost view = { λ r. r.values.items };
}

impl InputRow {
    /// Each input is 0.
    pub fn blank(alloc: Global, module: &Module) -> Result<InputRow, NoMemory>
        ensures { IfOk result (λ row. row ≡ blank_row «module».now.ports) }
    {
        module.well_made();
        let mut values = Vec::new(alloc);
        'ports: for port in module.ports() {
            if !port.output {
                values.push(Val::new(port.width, 0).unwrap())?;
            }
        }
        Ok(InputRow { values })
    }

    /// Sets the bits at a place, which has their width.
    pub fn set(&mut self, place: usize, bits: u128)
        requires { Fits self.old (record { place = place; bits = bits }) }
        ensures { self.new ≡ set_level self.old (record { place = place; bits = bits }) }
    {
        let width = self.values[place].width();
        self.values[place] = Val::new(width, bits).unwrap();
    }

    /// Sets the bits at a place, where there is such a place.
    pub fn set_if(&mut self, place: Option<usize>, bits: u128)
        requires { AllFit self.old (level_if place bits) }
        ensures { self.new ≡ set_levels self.old (level_if place bits) }
    {
        if let Some(place) = place {
            self.set(place, bits);
        }
    }

    /// Sets bits at places, where there are such places, one after another.
    pub fn drive(&mut self, driven: &[Driven])
        requires { AllFit self.old (levels_for driven.now) }
        ensures { self.new ≡ set_levels self.old (levels_for driven.now) }
    {
        'driven: for one in driven {
            self.set_if(one.place, one.bits);
        }
    }

    /// The values, for a simulator.
    pub fn as_slice(&self) -> &[Val]
        ensures { result.now ≡ self.now }
    {
        self.values.as_slice()
    }
}
