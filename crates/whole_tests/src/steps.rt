//! The module of a host and an agent, stepped cycle by cycle.

ghost use Rattle.std.specs.Prelude.{◌≡◌, ◌^◌, ◌<◌, ◌≤◌, true, length, IfOk};

use av_base::{Bytes, Val};
use cycle_sim::Sim;
use interconnect::build;
use link_rules::Plan;
use std::alloc::Global;
use std::process::Abort;
use std::test::Fail;
use system_plan::{Refusal, plan_of};

fn bus() -> &'static [u8] {
    b"create_system bus\nadd_instance m master\nadd_instance s memory\nadd_connection m.h s.a\n"
}

fn master() -> &'static [u8] {
    b"package require -exact qsys 16.0
set_module_property NAME master
add_interface h avalon host
add_interface_port h h_address address Output 8
add_interface_port h h_read read Output 1
add_interface_port h h_write write Output 1
add_interface_port h h_writedata writedata Output 32
add_interface_port h h_byteenable byteenable Output 4
add_interface_port h h_waitrequest waitrequest Input 1
add_interface_port h h_readdata readdata Input 32
add_interface_port h h_readdatavalid readdatavalid Input 1
"
}

/// An agent that bears two unanswered reads.
fn memory() -> &'static [u8] {
    b"set_module_property NAME memory
add_interface a avalon agent
set_interface_property a maximumPendingReadTransactions 2
add_interface_port a a_address address Input 6
add_interface_port a a_read read Input 1
add_interface_port a a_write write Input 1
add_interface_port a a_writedata writedata Input 32
add_interface_port a a_byteenable byteenable Input 4
add_interface_port a a_waitrequest waitrequest Output 1
add_interface_port a a_readdata readdata Output 32
add_interface_port a a_readdatavalid readdatavalid Output 1
"
}

/// A file of this text.
pub(crate) fn file_of(alloc: Global, text: &[u8]) -> Result<Bytes, Fail>
    ensures { IfOk result (λ bytes. length bytes < 2 ^ 31) }
{
    if text.len() > 4096 {
        return Err(Fail::new("the text is too long"));
    }
    let mut bytes = Bytes::new(alloc);
    bytes.append(text)?;
    Ok(bytes)
}

fn plan_of_three(alloc: Global, system: Bytes, host: Bytes, agent: Bytes) -> Result<Plan, Refusal>
    requires system { length system < 2 ^ 31 }
    requires host { length host < 2 ^ 31 }
    requires agent { length agent < 2 ^ 31 }
{
    plan_of(alloc, &[system, host, agent])
}

fn bus_plan(alloc: Global) -> Result<Plan, Fail> {
    let system = file_of(alloc, bus())?;
    let host = file_of(alloc, master())?;
    let agent = file_of(alloc, memory())?;
    Ok(plan_of_three(alloc, system, host, agent)?)
}

/// The module of a plan, before its first cycle.
fn sim_of(alloc: Global, plan: &Plan) -> Result<Sim, Fail> {
    Ok(Sim::new(alloc, build(alloc, plan)?.module)?)
}

fn bus_sim(alloc: Global) -> Result<Sim, Fail> {
    let plan = bus_plan(alloc)?;
    sim_of(alloc, &plan)
}

/// The value with these bits, and 0 where they don't fit.
fn value(width: u8, bits: u64) -> Val
    requires { (1 ≤ width) × (width ≤ 64) }
{
    Val::new(width, u128::from(bits)).unwrap_or(Val::new(width, 0).unwrap())
}

/// The inputs of a cycle, in header order.
fn inputs_of(from_host: [u64; 5], from_agent: [u64; 3]) -> [Val; 8] {
    let [address, read, write, word, enables] = from_host;
    let [wait, answer, valid] = from_agent;
    [
        value(8, address),
        value(1, read),
        value(1, write),
        value(32, word),
        value(4, enables),
        value(1, wait),
        value(32, answer),
        value(1, valid),
    ]
}

/// Whether these values stand at the outputs in the present cycle, in header order.
fn shows(sim: &Sim, values: &[u128]) -> bool
    requires { sim.now.stepped ≡ true }
{
    // there are fewer than 2^32 ports
    sim.module().well_made();
    let mut rest = values;
    let mut same = true;
    for (port, line) in sim.module().ports().iter().enumerate() {
        if line.output {
            same &= rest.first() == Some(&sim.output(port as u32).bits());
            rest = rest.get(1..).unwrap_or(&[]);
        }
    }
    same && rest.is_empty()
}

/// What the host gives (address, read, write, word, byte enables), what the agent gives (wait, word, valid), what the host sees
/// (wait, word, valid), and what the agent sees (address, read, write, word, byte enables, grant).
fn cycles() -> [([u64; 5], [u64; 3], [u128; 9]); 11] {
    [
        // A write of two lanes, which the agent lets wait for a cycle.
        (
            [20, 0, 1, 0x1122, 6],
            [1, 0, 0],
            [1, 0, 0, 5, 0, 1, 0x1122, 6, 0],
        ),
        (
            [20, 0, 1, 0x1122, 6],
            [0, 0, 0],
            [0, 0, 0, 5, 0, 1, 0x1122, 6, 0],
        ),
        // Two reads, which the agent takes.
        ([24, 1, 0, 0, 15], [0, 0, 0], [0, 0, 0, 6, 1, 0, 0, 15, 0]),
        ([28, 1, 0, 0, 15], [0, 0, 0], [0, 0, 0, 7, 1, 0, 0, 15, 0]),
        // While both are unanswered a write passes, and a third read is held back.
        ([36, 0, 1, 7, 1], [0, 0, 0], [0, 0, 0, 9, 0, 1, 7, 1, 0]),
        ([32, 1, 0, 0, 15], [0, 0, 0], [1, 0, 0, 8, 0, 0, 0, 15, 0]),
        // Also in the cycle of the first answer; it goes on in the next.
        (
            [32, 1, 0, 0, 15],
            [0, 0xaa, 1],
            [1, 0xaa, 1, 8, 0, 0, 0, 15, 0],
        ),
        (
            [32, 1, 0, 0, 15],
            [0, 0xbb, 1],
            [0, 0xbb, 1, 8, 1, 0, 0, 15, 0],
        ),
        // One read is unanswered, and its answer comes.
        ([0, 0, 0, 0, 0], [0, 0, 0], [0, 0, 0, 0, 0, 0, 0, 0, 0]),
        (
            [0, 0, 0, 0, 0],
            [0, 0xcc, 1],
            [0, 0xcc, 1, 0, 0, 0, 0, 0, 0],
        ),
        ([40, 1, 0, 0, 15], [1, 0, 0], [1, 0, 0, 10, 1, 0, 0, 15, 0]),
    ]
}

/// A cycle: what the ends give, and what they see.
fn step(
    rt: &impl Abort,
    sim: &mut Sim,
    from_host: [u64; 5],
    from_agent: [u64; 3],
    seen: [u128; 9],
) {
    let inputs = inputs_of(from_host, from_agent);
    assert!(rt; sim.fits(&inputs));
    sim.step(&inputs);
    assert!(rt; shows(sim, &seen));
    sim.advance();
}

#[test]
fn holds_a_third_read_back(rt: HostRuntime) -> Result<(), Fail> {
    let mut sim = bus_sim(rt.alloc())?;
    for (from_host, from_agent, seen) in cycles() {
        step(&rt, &mut sim, from_host, from_agent, seen);
    }
    Ok(())
}
