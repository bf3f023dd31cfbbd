ghost use Rattle.std.specs.Prelude.{◌≡◌, ◌<◌, ◌≤◌, length, slice_get, Some};
ghost use Rattle.iface_roles.specs.declared.records.Finished.{Finished};
ghost use Rattle.system_tables.specs.declared.tables.InterfaceTable.{InterfaceTable};
ghost use Rattle.system_tables.specs.Tables.{InstanceTable, IsEnd, IsInterface, IsSystem};

mod copy;

use crate::tables::{Connection, EndId, InterfaceTable};
use av_base::{List, Text};
use iface_roles::Finished;
use std::marker::Model;

/// An instance of a component.
pub struct Instance {
    pub name: Text,
    /// The number of its component among those that the system keeps.
    pub component: usize,
}

/// By hand, so that what drops one calls this, and isn't followed through its fields.
impl Drop for Instance {
    fn drop(self) {
        let Instance {
            name: _,
            component: _,
        } = self;
    }
}

/// A system that keeps the rules, with the interfaces of the components that its instances name.
pub struct System {
    name: Text,
    stages: u8,
    components: List<List<InterfaceTable>>,
    instances: Vec<Instance>,
    connections: List<Connection>,
}

/// By hand, so that what drops one calls this, and isn't followed through its fields.
impl Drop for System {
    fn drop(self) {
        let System {
            name: _,
            stages: _,
            components: _,
            instances: _,
            connections: _,
        } = self;
    }
}

impl Model for System {
    ghost use Rattle.system_tables.specs.Tables.{SystemTable, IsSystem};

    ghost Value = { SystemTable };

    ghost use Rattle.system_tables.specs.Kept.{table_of};

    ghost view = { λ s. table_of s };

    ghost invariant = { λ s. IsSystem (table_of s) };
}

fn at<T>(items: &[T], k: usize) -> &T
    requires { k < length items.now }
    ensures { slice_get items.now k ≡ Some result.now }
{
    &items[k]
}

impl System {
    ghost use Rattle.system_tables.specs.Kept.{kept_table};

    /// The system of these tables, in which each instance names its component by number.
    pub fn new(
        name: Text,
        stages: u8,
        components: List<List<InterfaceTable>>,
        instances: Vec<Instance>,
        connections: List<Connection>,
    ) -> System
        requires { IsSystem (kept_table name stages components instances.items connections) }
        ensures { result ≡ kept_table name stages components instances.items connections }
    {
        System {
            name,
            stages,
            components,
            instances,
            connections,
        }
    }

    /// The system's name.
    pub fn name(&self) -> &str
        ensures { result.now ≡ self.now.name }
    {
        self.name.as_str()
    }

    /// How many pipeline stages each path has, 0 to 4.
    pub fn stages(&self) -> u8
        ensures { result ≡ self.now.stages }
    {
        self.stages
    }

    /// The connections of hosts to agents and of sources to sinks, in the order of their commands.
    pub fn connections(&self) -> &[Connection]
        ensures { result.now ≡ self.now.connections }
    {
        self.connections.as_slice()
    }

    fn interface_table(&self, end: EndId) -> &InterfaceTable
        requires { (known : Finished) × IsEnd self.now end known }
        ensures { IsInterface self.now end result.now }
    {
        let instance = at(self.instances.as_slice(), end.instance as usize);
        let interfaces = at(self.components.as_slice(), instance.component);
        at(interfaces.as_slice(), end.interface as usize)
    }

    /// What is known of the interface at an end of this system.
    pub fn interface(&self, end: EndId) -> Finished
        requires { (known : Finished) × IsEnd self.now end known }
        ensures { IsEnd self.now end result }
    {
        self.interface_table(end).finished
    }

    /// The name of the instance at an end of this system.
    pub fn instance_name(&self, end: EndId) -> &str
        requires { (known : Finished) × IsEnd self.now end known }
        ensures { (instance : InstanceTable) × (slice_get self.now.instances end.instance ≡ Some instance)
            × (result.now ≡ instance.name) }
    {
        let instance = at(self.instances.as_slice(), end.instance as usize);
        instance.name.as_str()
    }

    /// The name of the interface at an end of this system.
    pub fn interface_name(&self, end: EndId) -> &str
        requires { (known : Finished) × IsEnd self.now end known }
        ensures { (interface : InterfaceTable) × IsInterface self.now end interface × (result.now ≡ interface.name) }
    {
        self.interface_table(end).name.as_str()
    }

    /// What every system keeps.
    pub fn well_made(&self)
        ensures { IsSystem self.now }
    {
        let _ = &self.connections;
    }
}
