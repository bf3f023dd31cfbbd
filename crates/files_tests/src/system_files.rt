ghost use Rattle.system_tables.specs.Tables.{IsLogic};

use component_scripts::read_component;
use component_scripts::types::{Catalog, Component};
use std::alloc::Global;
use std::test::Fail;
use system_scripts::read_system;
use system_tables::{Connection, System};
use tcl_words::Commands;

const PROCESSOR: &str = "set_module_property NAME cpu
add_interface clk clock end
add_interface m avalon start
set_interface_property m associatedClock clk
add_interface_port m a address Output 8
add_interface_port m r read Output 1
add_interface_port m d readdata Input 32
add_interface out avalon_streaming start
set_interface_property out associatedClock clk
add_interface_port out v valid Output 1
add_interface_port out w data Output 8";

/// A memory on two clocks; the agent `t` names none.
const MEMORY: &str = "set_module_property NAME ram
add_interface clk clock end
add_interface clk2 clock end
add_interface s avalon end
set_interface_property s associatedClock clk
add_interface_port s sa address Input 8
add_interface_port s sr read Input 1
add_interface_port s sd readdata Output 32
add_interface t avalon end
add_interface_port t tr read Input 1
add_interface_port t td readdata Output 32
add_interface in avalon_streaming end
set_interface_property in associatedClock clk2
add_interface_port in iv valid Input 1
add_interface_port in iw data Input 8";

/// The first connection of `ram.clk` to a clock counts. The stream comes first, so its source has the system's clock.
const SYSTEM: &str = "package require -exact qsys 16.0
create_system top
add_instance c0 clock_source
add_instance c1 clock_source
add_instance cpu cpu
add_instance ram ram 1.0
add_connection c0.clk/cpu.clk
add_connection c0.clk/ram.clk
add_connection c1.clk/ram.clk
add_connection c1.clk ram.clk2 clock
add_connection c0.clk_reset/c1.clk_in_reset
add_connection cpu.out/ram.in
add_connection cpu.m/ram.s
add_connection cpu.m ram.t
set_connection_parameter_value cpu.m/ram.s baseAddress 0x100
set_connection_parameter_value cpu.m/ram.s arbitrationPriority 3
set_connection_parameter_value cpu.out/ram.in fifoDepth 4
set_interconnect_requirement {$system} qsys_mm.maxAdditionalLatency 2
save_system";

/// A connection by its ends, its base, shares and queue, and whether its clocks fit.
struct Line {
    start: (&'static str, &'static str),
    end: (&'static str, &'static str),
    base: u32,
    shares: u8,
    fifo: u8,
    clock_fits: bool,
}

const LINES: [Line; 3] = [
    Line {
        start: ("cpu", "out"),
        end: ("ram", "in"),
        base: 0,
        shares: 1,
        fifo: 4,
        clock_fits: false,
    },
    Line {
        start: ("cpu", "m"),
        end: ("ram", "s"),
        base: 256,
        shares: 3,
        fifo: 0,
        clock_fits: true,
    },
    Line {
        start: ("cpu", "m"),
        end: ("ram", "t"),
        base: 0,
        shares: 1,
        fifo: 0,
        clock_fits: true,
    },
];

/// The commands of a short text.
fn commands_of(alloc: Global, text: &str) -> Result<Commands, Fail> {
    let bytes = text.as_bytes();
    if bytes.len() > 4000 {
        return Err("a long text".into());
    }
    Ok(Commands::read(alloc, 0, bytes)?)
}

fn component_of(alloc: Global, text: &str) -> Result<Component, Fail> {
    let commands = commands_of(alloc, text)?;
    Ok(read_component(alloc, &commands)?)
}

fn add_components(alloc: Global, catalog: &mut Catalog) -> Result<(), Fail> {
    catalog.add(component_of(alloc, PROCESSOR)?)?;
    catalog.add(component_of(alloc, MEMORY)?)?;
    Ok(())
}

fn system_over(alloc: Global, catalog: &Catalog) -> Result<System, Fail> {
    let commands = commands_of(alloc, SYSTEM)?;
    Ok(read_system(alloc, &commands, catalog)?)
}

/// The system that the file states over the two components.
fn system_of(alloc: Global) -> Result<System, Fail> {
    let mut catalog = Catalog::new(alloc);
    add_components(alloc, &mut catalog)?;
    system_over(alloc, &catalog)
}

fn is_line(system: &System, connection: Connection, line: &Line) -> bool
    requires { IsLogic system.now connection }
{
    system.instance_name(connection.start) == line.start.0
        && system.interface_name(connection.start) == line.start.1
        && system.instance_name(connection.end) == line.end.0
        && system.interface_name(connection.end) == line.end.1
        && connection.base == line.base
        && connection.shares == line.shares
        && connection.fifo == line.fifo
        && connection.clock_fits == line.clock_fits
}

fn are_lines(system: &System, lines: &[Line]) -> bool {
    system.well_made();
    let connections = system.connections();
    let mut are = connections.len() == lines.len();
    for (connection, line) in connections.iter().zip(lines) {
        are &= is_line(system, *connection, line);
    }
    are
}

fn is_top(system: &System) -> bool {
    system.name() == "top" && system.stages() == 2 && are_lines(system, &LINES)
}

/// Whether a copy is that system too.
fn is_copied(alloc: Global, system: &System) -> bool {
    match system.copy(alloc) {
        Ok(copy) => is_top(&copy),
        Err(_) => false,
    }
}

#[test]
fn a_system_is_read_over_two_components(rt: HostRuntime) -> Result<(), Fail> {
    let system = system_of(rt.alloc())?;
    assert!(rt; is_top(&system));
    assert!(rt; is_copied(rt.alloc(), &system));
    Ok(())
}
