ghost use Rattle.std.specs.Prelude.{◌≡◌, IfOk, option_and_then, slice_get};
ghost use Rattle.system_scripts.specs.Clocks.{fits_clock, end_id, clock_place};

use super::SystemDraft;
use av_base::{List, NoMemory, Place};
use component_scripts::types::{Component, Library};
use script_words::system::Roots;
use script_words::system::joints::{Joint, Terminal};
use script_words::{CommandRule, ScriptFault, ScriptRule};
use std::alloc::Global;
use system_tables::{Connection, EndId, InterfaceTable, System};
use tcl_words::Commands;

/// The number of an end, where there is room for it.
fn number(k: usize) -> Result<u32, NoMemory>
    ensures { IfOk result (λ number. number ≡ k) }
{
    match u32::try_from(k) {
        Ok(number) => Ok(number),
        Err(_) => Err(NoMemory),
    }
}

fn end_id(end: Terminal) -> Result<EndId, NoMemory>
    ensures { IfOk result (λ id. id ≡ end_id end) }
{
    Ok(EndId {
        instance: number(end.instance)?,
        interface: number(end.interface)?,
    })
}

/// Whether an end of this root is not on another clock than the system's.
fn fits_clock(clock: Option<Terminal>, root: Option<Terminal>) -> bool
    ensures { result ≡ fits_clock clock root }
{
    match (clock, root) {
        (Some(clock), Some(root)) => root == clock,
        _ => true,
    }
}

/// The place of the clock interface that an interface of a component names.
fn clock_place(component: &Component, interface: &InterfaceTable) -> Option<usize>
    ensures { result ≡ clock_place component.now interface.now }
{
    let clock = interface.clock.as_str();
    if clock.is_empty() {
        return None;
    }
    component.find(clock)
}

/// The place of the clock interface that the interface at a place of a component names.
fn clock_at(component: &Component, k: usize) -> Option<usize>
    ensures { result ≡ option_and_then (clock_place component.now) (slice_get component.now.interfaces k) }
{
    clock_place(component, component.interfaces().get(k)?)
}

impl SystemDraft {
    ghost use Rattle.std.specs.Prelude.{map, All, ℕ, List, IfErr, IsSome, OnErr, OnOk, None, Some, Ok};
    ghost use Rattle.std.specs.Option.{option_or};
    ghost use Rattle.system_scripts.specs.Clocks.{clock_of, root_of, system_clock, logic_joints, connection_of, no_system, ended_system, system_over};
    ghost use Rattle.script_words.specs.Roots.{AreRootsOf};
    ghost use Rattle.system_tables.specs.Kept.{kept_table};
    ghost use Rattle.component_scripts.specs.Library.{interfaces_of};
    ghost use Rattle.component_scripts.specs.Tables.{IsComponent};
    ghost use Rattle.system_tables.specs.Tables.{IsSystem};
    ghost use Rattle.script_words.specs.Judgements.{IsFaultOf};
    ghost use Rattle.system_scripts.specs.System.{empty_system_draft};

    /// The end of the clock that the interface at an end names.
    #[tactic(auto, unfolding(crate::specs::Clocks::clock_of))]
    fn clock_of(&self, library: &Library<'_>, end: Terminal) -> Option<Terminal>
        ensures { result ≡ clock_of library.now self.now.instances end }
    {
        let component = self.component_at(library, end.instance)?;
        let interface = clock_at(component, end.interface)?;
        Some(Terminal {
            instance: end.instance,
            interface,
        })
    }

    /// Where the clock of the interface at an end comes from.
    #[tactic(auto, unfolding(crate::specs::Clocks::root_of))]
    fn root_of(&self, library: &Library<'_>, roots: &Roots, end: Terminal) -> Option<Terminal>
        requires { AreRootsOf self.now.joints roots.now }
        ensures { result ≡ root_of library.now self.now end }
    {
        roots.source(self.clock_of(library, end)?)
    }

    /// The root of a connection: its start's, or else its end's.
    fn root_at(&self, library: &Library<'_>, roots: &Roots, joint: &Joint) -> Option<Terminal>
        requires { AreRootsOf self.now.joints roots.now }
        ensures { result ≡ option_or (root_of library.now self.now joint.now.start) (root_of library.now self.now joint.now.end) }
    {
        match self.root_of(library, roots, joint.start) {
            Some(root) => Some(root),
            None => self.root_of(library, roots, joint.end),
        }
    }

    /// The system's clock: the first root of a connection of hosts or streams.
    #[tactic(auto, unfolding(crate::specs::Clocks::system_clock))]
    fn clock(&self, library: &Library<'_>, roots: &Roots) -> Option<Terminal>
        requires { AreRootsOf self.now.joints roots.now }
        ensures { result ≡ system_clock library.now self.now }
    {
        for joint in self.joints.as_slice() {
            if joint.kind.is_avalon() {
                if let Some(root) = self.root_at(library, roots, joint) {
                    return Some(root);
                }
            }
        }
        None
    }

    #[tactic(auto, unfolding(crate::specs::Clocks::connection_of))]
    fn connection(
        &self,
        library: &Library<'_>,
        roots: &Roots,
        clock: Option<Terminal>,
        joint: &Joint,
    ) -> Result<Connection, NoMemory>
        requires { AreRootsOf self.now.joints roots.now }
        ensures { IfOk result (λ connection. connection ≡ connection_of library.now self.now clock joint.now) }
    {
        let start_fits = fits_clock(clock, self.root_of(library, roots, joint.start));
        let end_fits = fits_clock(clock, self.root_of(library, roots, joint.end));
        Ok(Connection {
            start: end_id(joint.start)?,
            end: end_id(joint.end)?,
            kind: joint.kind,
            base: joint.base,
            shares: joint.shares,
            fifo: joint.fifo,
            clock_fits: start_fits && end_fits,
        })
    }

    /// The connections of hosts to agents and of sources to sinks.
    fn connections(
        &self,
        alloc: Global,
        library: &Library<'_>,
    ) -> Result<List<Connection>, NoMemory>
        ensures { IfOk result (λ connections. connections
            ≡ map (connection_of library.now self.now (system_clock library.now self.now)) (logic_joints self.now.joints)) }
    {
        let roots = Roots::of(alloc, self.joints.as_slice())?;
        self.connections_from(alloc, library, &roots)
    }

    /// The same, from the roots of all connections.
    fn connections_from(
        &self,
        alloc: Global,
        library: &Library<'_>,
        roots: &Roots,
    ) -> Result<List<Connection>, NoMemory>
        requires { AreRootsOf self.now.joints roots.now }
        ensures { IfOk result (λ connections. connections
            ≡ map (connection_of library.now self.now (system_clock library.now self.now)) (logic_joints self.now.joints)) }
    {
        let clock = self.clock(library, roots);
        let mut connections = List::new(alloc);
        for joint in self.joints.as_slice() {
            if joint.kind.is_avalon() {
                connections.push(self.connection(library, roots, clock, joint)?)?;
            }
        }
        Ok(connections)
    }

    /// Whether a system was created, by the end of its file.
    fn check_created(&self, end: Place) -> Result<(), ScriptFault>
        ensures accepted { OnOk result (IsSome self.now.name) }
        ensures refused { IfErr result (λ fault. IsFaultOf fault (no_system end)) }
        ensures missing { OnErr result (self.now.name ≡ None) }
    {
        if self.name.is_none() {
            return Err(ScriptFault::Refused {
                place: end,
                rule: ScriptRule::Command(CommandRule::Creation.number()),
            });
        }
        Ok(())
    }

    /// The interfaces of the components, and the connections, where a system was created by the end of its file.
    fn tables(
        &self,
        alloc: Global,
        library: &Library<'_>,
        end: Place,
    ) -> Result<(List<List<InterfaceTable>>, List<Connection>), ScriptFault>
        ensures created { OnOk result (IsSome self.now.name) }
        ensures components { IfOk result (λ tables. tables.0 ≡ interfaces_of library.now) }
        ensures made { OnOk result (All IsComponent library.now) }
        ensures connections { IfOk result (λ tables. tables.1
            ≡ map (connection_of library.now self.now (system_clock library.now self.now)) (logic_joints self.now.joints)) }
        ensures refused { IfErr result (λ fault. IsFaultOf fault (ended_system end library.now self.now self.now.name)) }
    {
        self.check_created(end)?;
        let components = library.interfaces(alloc)?;
        let connections = self.connections(alloc, library)?;
        Ok((components, connections))
    }

    /// The system of these tables, which has the name that was stated.
    pub fn with_tables(self, tables: (List<List<InterfaceTable>>, List<Connection>)) -> System
        requires created { IsSome self.name }
        requires system { (name : List ℕ) → self.name ≡ Some name
            → IsSystem (kept_table name self.stages tables.0 self.instances tables.1) }
        ensures { (name : List ℕ) → self.name ≡ Some name
            → result ≡ kept_table name self.stages tables.0 self.instances tables.1 }
    {
        let SystemDraft {
            name,
            stages,
            names: _,
            instances,
            exported: _,
            links: _,
            joints: _,
            taken: _,
        } = self;
        let (components, connections) = tables;
        System::new(name.unwrap(), stages, components, instances, connections)
    }

    /// Takes the commands of a file, and gives the tables of what they state, unless a rule refuses them.
    pub fn take_file(
        &mut self,
        alloc: Global,
        commands: &Commands,
        library: &Library<'_>,
    ) -> Result<(List<List<InterfaceTable>>, List<Connection>), ScriptFault>
        requires { self.old ≡ empty_system_draft }
        ensures created { OnOk result (IsSome self.new.name) }
        ensures system { IfOk result (λ tables. (name : List ℕ) → self.new.name ≡ Some name
            → IsSystem (kept_table name self.new.stages tables.0 self.new.instances tables.1)
            × (system_over library.now commands.now
            ≡ Ok (kept_table name self.new.stages tables.0 self.new.instances tables.1))) }
        ensures refused { IfErr result (λ fault. IsFaultOf fault (system_over library.now commands.now)) }
    {
        self.take_all(alloc, commands, library)?;
        self.tables(alloc, library, commands.end())
    }
}
