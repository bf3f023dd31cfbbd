//! Where the signals of sources and sinks stand. A source has one output, `ready`, and a sink one input, so these need no record.

ghost use Rattle.std.specs.Prelude.{◌≡◌, Some, option_map};
ghost use Rattle.port_tables.specs.declared.roles.PortRole.TheVariants.{Dropped};
ghost use Rattle.port_tables.specs.Ends.{IsAnEnd};
ghost use Rattle.port_tables.specs.Ports.{ports_of};
ghost use Rattle.port_tables.specs.PortMaps.{AreTold, port_at};
ghost use Rattle.port_rows.specs.Levels.{AllFit, set_levels, levels_for};
ghost use Rattle.stand_ins.specs.StreamsSteps.{levels_of};
ghost use Rattle.port_rows.specs.Sources.{source_places, source_levels, beat_driven};
ghost use Rattle.port_rows.specs.Sinks.{IsSinkEnd, sink_outputs};

use crate::{Driven, InputRow, input_place, port_number};
use iface_roles::Role;
use interconnect::PortMap;
use link_rules::Plan;
use netlist::PortLine;
use scenario_tables::SourceBeat;
use system_tables::EndId;

/// Where the signals of a source stand in a row of values; None where its port is absent.
#[derive(Clone, Copy)]
pub struct SourcePlaces {
    pub valid: Option<usize>,
    pub word: Option<usize>,
    pub channel: Option<usize>,
    pub error: Option<usize>,
    pub first: Option<usize>,
    pub last: Option<usize>,
    pub empty: Option<usize>,
}

/// The numbers, in the header, of the outputs that a sink is given: `first` is `startofpacket` and `last` is `endofpacket`. None
/// where a port is absent.
#[derive(Clone, Copy)]
pub struct SinkPorts {
    pub valid: Option<u32>,
    pub word: Option<u32>,
    pub channel: Option<u32>,
    pub error: Option<u32>,
    pub first: Option<u32>,
    pub last: Option<u32>,
    pub empty: Option<u32>,
    pub dropped: Option<u32>,
}

impl SourcePlaces {
    /// The places of the source at an end of the plan, by the header of the plan's module.
    pub fn of(plan: &Plan, ports: &PortMap, header: &[PortLine], end: EndId) -> SourcePlaces
        requires told { AreTold plan.now.system ports.now }
        requires end { IsAnEnd plan.now.system end }
        requires header { header.now ≡ ports_of plan.now.system }
        ensures { result ≡ source_places plan.now.system end }
    {
        SourcePlaces {
            valid: input_place(plan, ports, header, end, Role::Valid),
            word: input_place(plan, ports, header, end, Role::Data),
            channel: input_place(plan, ports, header, end, Role::Channel),
            error: input_place(plan, ports, header, end, Role::Error),
            first: input_place(plan, ports, header, end, Role::StartOfPacket),
            last: input_place(plan, ports, header, end, Role::EndOfPacket),
            empty: input_place(plan, ports, header, end, Role::Empty),
        }
    }

    /// Sets the levels of a beat in a row, with `valid` high or low.
    fn drive(&self, row: &mut InputRow, valid: bool, beat: SourceBeat)
        requires { AllFit row.old (levels_for (beat_driven self.now valid (levels_of beat))) }
        ensures { row.new ≡ set_levels row.old (levels_for (beat_driven self.now valid (levels_of beat))) }
    {
        let places = *self;
        row.drive(&[
            Driven {
                place: places.valid,
                bits: u128::from(valid),
            },
            Driven {
                place: places.word,
                bits: beat.word,
            },
            Driven {
                place: places.channel,
                bits: u128::from(beat.channel),
            },
            Driven {
                place: places.error,
                bits: u128::from(beat.error),
            },
            Driven {
                place: places.first,
                bits: u128::from(beat.first),
            },
            Driven {
                place: places.last,
                bits: u128::from(beat.last),
            },
            Driven {
                place: places.empty,
                bits: u128::from(beat.empty),
            },
        ]);
    }

    /// Sets the levels of a cycle in a row, which has room for them: those of the beat, or 0 on each signal where there is none.
    pub fn show(&self, row: &mut InputRow, beat: Option<SourceBeat>)
        requires { AllFit row.old (source_levels self.now (option_map levels_of beat)) }
        ensures { row.new ≡ set_levels row.old (source_levels self.now (option_map levels_of beat)) }
    {
        match beat {
            Some(beat) => self.drive(row, true, beat),
            None => self.drive(
                row,
                false,
                SourceBeat {
                    word: 0,
                    channel: 0,
                    error: 0,
                    first: false,
                    last: false,
                    empty: 0,
                },
            ),
        }
    }
}

/// The output `dropped` of the stream of this number, at its sink.
fn dropped_of(plan: &Plan, ports: &PortMap, end: EndId, stream: u32) -> u32
    requires told { AreTold plan.now.system ports.now }
    requires stream { IsSinkEnd plan.now.system stream end }
    ensures { port_at plan.now.system end Dropped ≡ Some result }
{
    ports.dropped(stream)
}

impl SinkPorts {
    /// The outputs that the sink of the stream of this number in the plan, which is at this end, is given.
    pub fn of(plan: &Plan, ports: &PortMap, end: EndId, stream: u32) -> SinkPorts
        requires told { AreTold plan.now.system ports.now }
        requires end { IsAnEnd plan.now.system end }
        requires stream { IsSinkEnd plan.now.system stream end }
        ensures { result ≡ sink_outputs plan.now.system end }
    {
        let dropped = dropped_of(plan, ports, end, stream);
        SinkPorts {
            valid: port_number(plan, ports, end, Role::Valid),
            word: port_number(plan, ports, end, Role::Data),
            channel: port_number(plan, ports, end, Role::Channel),
            error: port_number(plan, ports, end, Role::Error),
            first: port_number(plan, ports, end, Role::StartOfPacket),
            last: port_number(plan, ports, end, Role::EndOfPacket),
            empty: port_number(plan, ports, end, Role::Empty),
            dropped: Some(dropped),
        }
    }
}
