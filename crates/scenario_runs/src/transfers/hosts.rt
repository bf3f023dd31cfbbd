//! Host 0 of a plan, as far as transactions ask for it.

ghost use Rattle.std.specs.Prelude.{◌≡◌, ◌^◌, ◌≤◌, IfSome, IfNone, IfOk, string_bytes};
ghost use Rattle.iface_roles.specs.Proper.{IsBoundedHost, range_of};
ghost use Rattle.scenario_runs.specs.Hosts.{can_transfer, IsTransferHost, HasNoTransferHost};
ghost use Rattle.scenario_runs.specs.Stated.{host_name};

use av_base::NoMemory;
use iface_roles::{Finished, HostPort, proper_records_are_bounded};
use link_rules::{Plan, ends_are_known};
use std::alloc::Global;
use std::fmt::Write;

/// Whether a host can do each transaction of its words.
fn can_transfer(port: &HostPort) -> bool
    ensures { result ≡ can_transfer port.now }
{
    port.reads && (port.writes && (port.word_bytes == 1 || port.enables))
}

/// The ports of host 0, where there is one that can do transactions.
pub fn transfer_host(plan: &Plan) -> Option<HostPort>
    ensures host { IfSome result (IsTransferHost plan.now.system) }
    ensures bounded { IfSome result IsBoundedHost }
    ensures none { IfNone result (HasNoTransferHost plan.now.system) }
{
    plan.well_made();
    ends_are_known();
    proper_records_are_bounded();
    let [end, ..] = plan.hosts() else {
        return None;
    };
    match plan.interface(*end) {
        Finished::Host(port) if can_transfer(&port) => Some(port),
        _ => None,
    }
}

/// How many bytes the addresses of a host reach.
pub fn reach(port: &HostPort) -> u64
    requires { IsBoundedHost port.now }
    ensures { result ≡ range_of port.now }
{
    let addresses = 2u64.pow(u32::from(port.address_bits));
    if port.byte_units {
        addresses
    } else {
        addresses * u64::from(port.word_bytes)
    }
}

/// The name of host 0; empty where there is none.
pub(crate) fn host_name(alloc: Global, plan: &Plan) -> Result<String, NoMemory>
    ensures { IfOk result (λ name. string_bytes name ≡ host_name plan.now.system) }
{
    plan.well_made();
    ends_are_known();
    let mut name = String::new(alloc);
    if let [end, ..] = plan.hosts() {
        name.push_str(plan.instance_name(*end))?;
        name.push_str(".")?;
        name.push_str(plan.interface_name(*end))?;
    }
    Ok(name)
}
