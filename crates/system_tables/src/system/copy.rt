ghost use Rattle.std.specs.Prelude.{◌≡◌, IfOk};

use super::{Instance, System};
use crate::tables::{Connection, InterfaceTable, copy_interfaces};
use av_base::{List, NoMemory, Text};
use std::alloc::Global;

fn copy_components(
    alloc: Global,
    from: &List<List<InterfaceTable>>,
) -> Result<List<List<InterfaceTable>>, NoMemory>
    ensures { IfOk result (λ copy. copy ≡ from.now) }
{
    let mut copy = List::new(alloc);
    for component in from.as_slice() {
        copy.push(copy_interfaces(alloc, component.as_slice())?)?;
    }
    Ok(copy)
}

fn copy_instance(alloc: Global, from: &Instance) -> Result<Instance, NoMemory>
    ensures { IfOk result (λ copy. copy ≡ from.now) }
{
    let name = Text::copy(alloc, from.name.as_str())?;
    Ok(Instance {
        name,
        component: from.component,
    })
}

fn copy_instances(alloc: Global, from: &[Instance]) -> Result<Vec<Instance>, NoMemory>
    ensures { IfOk result (λ copy. copy.items ≡ from.now) }
{
    let mut copy = Vec::new(alloc);
    for instance in from {
        copy.push(copy_instance(alloc, instance)?)?;
    }
    Ok(copy)
}

fn copy_connections(alloc: Global, from: &List<Connection>) -> Result<List<Connection>, NoMemory>
    ensures { IfOk result (λ copy. copy ≡ from.now) }
{
    let mut copy = List::new(alloc);
    for connection in from.as_slice() {
        copy.push(*connection)?;
    }
    Ok(copy)
}

impl System {
    /// A system with the same tables.
    pub fn copy(&self, alloc: Global) -> Result<System, NoMemory>
        ensures { IfOk result (λ copy. copy ≡ self.now) }
    {
        let name = Text::copy(alloc, self.name.as_str())?;
        let components = copy_components(alloc, &self.components)?;
        let instances = copy_instances(alloc, self.instances.as_slice())?;
        let connections = copy_connections(alloc, &self.connections)?;
        Ok(System {
            name,
            stages: self.stages,
            components,
            instances,
            connections,
        })
    }
}
