//! The routes of a host, from scripts.

ghost use Rattle.std.specs.Prelude.{◌^◌, ◌<◌, length};

use crate::steps::file_of;
use av_base::Bytes;
use link_rules::Plan;
use memory_plans::host_routes;
use memory_runs::sides::Route;
use std::alloc::Global;
use std::test::Fail;
use system_plan::plan_of;

/// A memory at 0, and a timer behind it.
fn desk() -> &'static [u8] {
    b"create_system desk
add_instance cpu cpu
add_instance ram ram
add_instance timer timer
add_connection cpu.data ram.s1
add_connection cpu.data timer.s1
set_connection_parameter_value cpu.data/timer.s1 baseAddress {0x00010000}
"
}

fn cpu() -> &'static [u8] {
    b"set_module_property NAME cpu
add_interface data avalon start
set_interface_property data addressUnits SYMBOLS
add_interface_port data d_address address Output 20
add_interface_port data d_read read Output 1
add_interface_port data d_write write Output 1
add_interface_port data d_writedata writedata Output 32
add_interface_port data d_byteenable byteenable Output 4
add_interface_port data d_waitrequest waitrequest Input 1
add_interface_port data d_readdata readdata Input 32
add_interface_port data d_readdatavalid readdatavalid Input 1
"
}

/// 16384 words of 32 bits.
fn ram() -> &'static [u8] {
    b"set_module_property NAME ram
add_interface s1 avalon end
set_interface_property s1 addressUnits WORDS
set_interface_property s1 readLatency 1
add_interface_port s1 address address Input 14
add_interface_port s1 read read Input 1
add_interface_port s1 write write Input 1
add_interface_port s1 writedata writedata Input 32
add_interface_port s1 byteenable byteenable Input 4
add_interface_port s1 readdata readdata Output 32
"
}

/// Eight words of 16 bits, which are only read.
fn timer() -> &'static [u8] {
    b"set_module_property NAME timer
add_interface s1 avalon end
add_interface_port s1 address address Input 3
add_interface_port s1 read read Input 1
add_interface_port s1 readdata readdata Output 16
"
}

fn plan_of_files(
    alloc: Global,
    system: Bytes,
    host: Bytes,
    first: Bytes,
    second: Bytes,
) -> Result<Plan, Fail>
    requires system { length system < 2 ^ 31 }
    requires host { length host < 2 ^ 31 }
    requires first { length first < 2 ^ 31 }
    requires second { length second < 2 ^ 31 }
{
    Ok(plan_of(alloc, &[system, host, first, second])?)
}

/// 64 KiB at 0, and 16 bytes that are only read at 00010000.
#[test]
fn desk_has_two_routes(rt: HostRuntime) -> Result<(), Fail> {
    let system = file_of(rt.alloc(), desk())?;
    let host = file_of(rt.alloc(), cpu())?;
    let first = file_of(rt.alloc(), ram())?;
    let second = file_of(rt.alloc(), timer())?;
    let plan = plan_of_files(rt.alloc(), system, host, first, second)?;
    if plan.hosts().is_empty() {
        return Err(Fail::new("there is no host"));
    }
    let routes = host_routes(rt.alloc(), &plan, 0)?;
    let memory = Route {
        agent: 0,
        base: 0,
        bits: 16,
        reads: true,
        writes: true,
    };
    let counts = Route {
        agent: 1,
        base: 0x0001_0000,
        bits: 4,
        reads: true,
        writes: false,
    };
    let two = [memory, counts];
    assert!(rt; routes.as_slice() == two.as_slice());
    Ok(())
}
