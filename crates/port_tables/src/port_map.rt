ghost use Rattle.std.specs.Prelude.{◌≡◌, ◌↔◌, ℕ, IsTrue};
ghost use Rattle.port_tables.specs.Ends.{IsAnEnd};
ghost use Rattle.port_tables.specs.PortMaps.{entry_of, entries_of, port_at, module_role, IsPlaceOf, IsPlaceFor, IsAt};
ghost use Rattle.port_tables.specs.declared.roles.PortRole.TheVariants.{Grant, Dropped};

use crate::port_table::{PortEntry, PortMap};
use crate::roles::{PortRole, RolePort};
use iface_roles::Role;
use link_rules::Plan;
use system_tables::EndId;

impl PortEntry {
    pub(crate) fn new(end: EndId, starts: bool, port: RolePort) -> PortEntry
        ensures { result ≡ entry_of end starts port }
    {
        PortEntry {
            end,
            port,
            output: port.role.is_output(starts),
        }
    }

    fn is_of(&self, end: EndId, role: PortRole) -> bool
        ensures { IsTrue result ↔ ((self.now.end ≡ end) × (self.now.port.role ≡ role)) }
    {
        self.end == end && self.port.role == role
    }
}

impl PortMap {
    /// The port of a role at an end; None where it has none.
    fn find(&self, end: EndId, role: PortRole) -> Option<u32>
        ensures { IsPlaceOf self.now.entries end role result }
    {
        for (place, entry) in self.entries.as_slice().iter().enumerate() {
            if entry.is_of(end, role) {
                return Some(place as u32);
            }
        }
        None
    }

    /// The port of a role at an end, by its name in the header; None where the end has none.
    pub fn port_at(&self, plan: &Plan, end: EndId, role: PortRole) -> Option<u32>
        requires map { self.now.entries ≡ entries_of plan.now.system }
        requires end { IsAnEnd plan.now.system end }
        ensures { result ≡ port_at plan.now.system end role }
    {
        plan.well_made();
        self.find(end, role)
    }

    /// The port of a role at an end of the plan; None where its interface has no such port.
    pub fn port(&self, end: EndId, role: Role) -> Option<u32>
        ensures { IsPlaceFor self.now.entries end (module_role role) result }
    {
        self.find(end, role_of_interface(role)?)
    }

    /// The port `grant` of an agent, by the agent's number in the plan.
    pub fn grant(&self, agent: u32) -> u32
        requires { (place : ℕ) × IsAt self.now.agents self.now.entries agent Grant place }
        ensures { IsAt self.now.agents self.now.entries agent Grant result }
    {
        self.at(self.agents.as_slice(), agent, PortRole::Grant)
    }

    /// The port `dropped` of a stream, by the stream's number in the plan.
    pub fn dropped(&self, stream: u32) -> u32
        requires { (place : ℕ) × IsAt self.now.sinks self.now.entries stream Dropped place }
        ensures { IsAt self.now.sinks self.now.entries stream Dropped result }
    {
        self.at(self.sinks.as_slice(), stream, PortRole::Dropped)
    }

    /// The port of a role at the end of this number.
    fn at(&self, ends: &[EndId], number: u32, role: PortRole) -> u32
        requires { (place : ℕ) × IsAt ends.now self.now.entries number role place }
        ensures { IsAt ends.now self.now.entries number role result }
    {
        self.find(ends[number as usize], role).unwrap()
    }
}

/// The role of the module's port for a role of an interface; None for those that no module has.
fn role_of_interface(role: Role) -> Option<PortRole>
    ensures { result ≡ module_role role }
{
    match role {
        Role::Address => Some(PortRole::Address),
        Role::Read => Some(PortRole::Read),
        Role::Write => Some(PortRole::Write),
        Role::WriteData => Some(PortRole::WriteData),
        Role::ByteEnable => Some(PortRole::ByteEnable),
        Role::BurstCount => Some(PortRole::BurstCount),
        Role::WaitRequest => Some(PortRole::WaitRequest),
        Role::ReadData => Some(PortRole::ReadData),
        Role::ReadDataValid => Some(PortRole::ReadDataValid),
        Role::Response => Some(PortRole::Response),
        Role::WriteResponseValid | Role::Lock | Role::DebugAccess | Role::BeginBurstTransfer =>
            None,
        Role::Ready => Some(PortRole::Ready),
        Role::Valid => Some(PortRole::Valid),
        Role::Data => Some(PortRole::Data),
        Role::Channel => Some(PortRole::Channel),
        Role::Error => Some(PortRole::Error),
        Role::StartOfPacket => Some(PortRole::StartOfPacket),
        Role::EndOfPacket => Some(PortRole::EndOfPacket),
        Role::Empty => Some(PortRole::Empty),
    }
}
