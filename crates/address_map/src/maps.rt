ghost use Rattle.std.specs.Prelude.{◌≡◌, ◌+◌, ◌-◌, ◌^◌, ◌<◌, ◌≤◌, [], length, take, true, replicate, position, slice_get, slice_index_or, Some, OnOk, IfOk, IfErr};
ghost use Rattle.std.specs.List.{list_any};
ghost use Rattle.address_map.specs.Ends.{is_same_end};
ghost use Rattle.address_map.specs.Footprints.{footprints, IsFit};
ghost use Rattle.address_map.specs.MapRules.{
  is_misplaced,
  overlaps_at,
  ends_past_range,
  first_true,
  other_of,
  KeepsMapRules,
  IsCause,
  IsCauseAt,
};
ghost use Rattle.address_map.specs.Maps.{hosts_of, meets, entry_of, connection_at, AreMapsFor, AreMapsOf};

use crate::ends::Ends;
use crate::faults::MapFault;
use crate::footprint::{Footprint, footprint_at};
use crate::host_map::{HostMap, MapEntry};
use crate::hosts::mm_ends;
use av_base::NoMemory;
use iface_roles::Side;
use std::alloc::Global;
use std::marker::Model;
use system_tables::System;

/// The maps of a system's hosts, by the numbers of the hosts.
pub struct Maps {
    maps: Vec<HostMap>,
}

/// By hand, so that what drops one calls this, and isn't followed through its fields.
impl Drop for Maps {
    fn drop(self) {
        let Maps { maps: _ } = self;
    }
}

impl Model for Maps {
    ghost use Rattle.std.specs.Prelude.{List};
    ghost use Rattle.address_map.specs.Maps.{MapEntry as Entry};

    ghost Value = { List (List Entry) };

    ghost view = { λ m. m.maps.items };
}

/// The least earlier connection of the same host whose footprint overlaps.
fn least_overlapped(system: &System, number: u32, footprint: Footprint) -> Option<u32>
    requires fit { IsFit footprint }
    requires within { number ≤ length system.now.connections }
    ensures { result ≡ position (overlaps_at footprint) (take number (footprints system.now)) }
{
    system.well_made();
    let connections = system.connections();
    for earlier in 0..number {
        if let Some(other) = footprint_at(system, connections[earlier as usize]) {
            if footprint.overlaps(other) {
                return Some(earlier);
            }
        }
    }
    None
}

/// The least rule that the footprint breaks in the map of its host.
fn broken_rule(map: &HostMap, footprint: Footprint) -> Option<u8>
    requires { IsFit footprint }
    ensures { result
        ≡ first_true (is_misplaced footprint) (list_any (meets footprint.base (footprint.base + footprint.bytes - 1)) map.now)
        (ends_past_range footprint) }
{
    if footprint.is_misplaced() {
        return Some(1);
    }
    if map.meets(footprint.base, footprint.base + footprint.bytes - 1) {
        return Some(2);
    }
    if footprint.ends_past_range() {
        return Some(3);
    }
    None
}

fn refusal(system: &System, number: u32, footprint: Footprint, rule: u8) -> MapFault
    requires fit { IsFit footprint }
    requires at { slice_get (footprints system.now) number ≡ Some (Some footprint) }
    ensures { result ≡ MapFault.Refused number rule (other_of (footprints system.now) number rule) }
{
    let other = if rule == 2 {
        least_overlapped(system, number, footprint)
    } else {
        None
    };
    MapFault::Refused {
        connection: number,
        rule,
        other,
    }
}

fn entry(number: u32, footprint: Footprint) -> MapEntry
    requires fit { IsFit footprint }
    requires within { footprint.base + footprint.bytes ≤ 2 ^ 32 }
    ensures { result ≡ entry_of number footprint }
{
    MapEntry {
        connection: number,
        first: footprint.base as u32,
        last: (footprint.base + footprint.bytes - 1) as u32,
        reads: footprint.reads,
        writes: footprint.writes,
    }
}

/// Puts the footprint of a connection into the map of its host, unless it breaks a rule.
fn add(
    system: &System,
    hosts: &Ends,
    maps: &mut Vec<HostMap>,
    number: u32,
    footprint: Footprint,
) -> Result<(), MapFault>
    requires fit { IsFit footprint }
    requires at { slice_get (footprints system.now) number ≡ Some (Some footprint) }
    requires hosts { hosts.now ≡ hosts_of system.now }
    requires host { list_any (is_same_end footprint.host) hosts.now ≡ true }
    requires placed { AreMapsFor hosts.now (take number (footprints system.now)) maps.old.items }
    ensures placed { OnOk result (AreMapsFor hosts.now (take (number + 1) (footprints system.now)) maps.new.items) }
    ensures kept { OnOk result (KeepsMapRules (footprints system.now) number) }
    ensures refused { IfErr result (IsCauseAt (footprints system.now) number) }
{
    let place = hosts.place(footprint.host).unwrap();
    let map = &mut maps[place];
    if let Some(rule) = broken_rule(map, footprint) {
        return Err(refusal(system, number, footprint, rule));
    }
    map.put(entry(number, footprint))?;
    Ok(())
}

/// Judges a connection by the rules on maps, and puts its footprint into its host's map.
fn judge(system: &System, hosts: &Ends, maps: &mut Vec<HostMap>, k: usize) -> Result<(), MapFault>
    requires within { k < length system.now.connections }
    requires hosts { hosts.now ≡ hosts_of system.now }
    requires placed { AreMapsFor hosts.now (take k (footprints system.now)) maps.old.items }
    ensures placed { OnOk result (AreMapsFor hosts.now (take (k + 1) (footprints system.now)) maps.new.items) }
    ensures kept { OnOk result (KeepsMapRules (footprints system.now) k) }
    ensures few { OnOk result (k < 2 ^ 32) }
    ensures refused { IfErr result (IsCauseAt (footprints system.now) k) }
{
    system.well_made();
    let Ok(number) = u32::try_from(k) else {
        return Err(MapFault::NoMemory);
    };
    let connections = system.connections();
    match footprint_at(system, connections[k]) {
        Some(footprint) => add(system, hosts, maps, number, footprint),
        None => Ok(()),
    }
}

/// Judges all connections in their order, from empty maps.
fn judge_all(system: &System, hosts: &Ends, maps: &mut Vec<HostMap>) -> Result<(), MapFault>
    requires hosts { hosts.now ≡ hosts_of system.now }
    requires empty { maps.old.items ≡ replicate (length hosts.now) [] }
    ensures accepted { OnOk result (AreMapsOf system.now maps.new.items) }
    ensures refused { IfErr result (IsCause (footprints system.now)) }
{
    for k in 0..system.connections().len() {
        judge(system, hosts, maps, k)?;
    }
    Ok(())
}

fn empty_maps(alloc: Global, count: usize) -> Result<Vec<HostMap>, NoMemory>
    ensures { IfOk result (λ maps. maps.items ≡ replicate count []) }
{
    let mut maps = Vec::new(alloc);
    for _ in 0..count {
        maps.push(HostMap::new(alloc))?;
    }
    Ok(maps)
}

impl Maps {
    /// The maps of a system, or the least connection that breaks a rule on maps, with the least rule that it breaks.
    /// A system with more connections than numbers of 32 bits has no memory for its maps.
    pub fn build(alloc: Global, system: &System) -> Result<Maps, MapFault>
        ensures accepted { IfOk result (AreMapsOf system.now) }
        ensures refused { IfErr result (IsCause (footprints system.now)) }
    {
        let hosts = mm_ends(alloc, system, Side::Start)?;
        let mut maps = empty_maps(alloc, hosts.as_slice().len())?;
        judge_all(system, &hosts, &mut maps)?;
        Ok(Maps { maps })
    }

    /// The connection of the host whose footprint holds the address. None where there is none.
    pub fn decode(&self, host: u32, address: u32) -> Option<u32>
        requires { host < length self.now }
        ensures { result ≡ connection_at (slice_index_or self.now host []) address }
    {
        self.maps[host as usize].connection_at(address)
    }

    /// The footprints in the map of the host, by rising address.
    pub fn entries(&self, host: u32) -> &[MapEntry]
        requires { host < length self.now }
        ensures { result.now ≡ slice_index_or self.now host [] }
    {
        self.maps[host as usize].entries()
    }
}
