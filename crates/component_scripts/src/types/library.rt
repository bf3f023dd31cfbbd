ghost use Rattle.std.specs.Prelude.{◌≡◌, ◌∷◌, ◌++◌, [], Some, IsNone, slice_get, All, OnOk, IfOk};
ghost use Rattle.std.specs.Option.{option_copied};
ghost use Rattle.component_scripts.specs.Catalog.{type_place};
ghost use Rattle.component_scripts.specs.Library.{built_in, clock_source_table, interfaces_of};
ghost use Rattle.script_words.specs.Names.{place_of};
ghost use Rattle.component_scripts.specs.Tables.{IsComponent, HasNamesOf};

use crate::types::catalog::Catalog;
use crate::types::component::Component;
use av_base::{List, NoMemory, Place, Text};
use iface_roles::{Finished, Kind, Side};
use script_words::Names;
use std::alloc::Global;
use std::marker::Model;
use system_tables::{InterfaceTable, copy_interfaces};

/// The components that a system file may name: those of a catalog, and the clock source behind them.
pub struct Library<'a> {
    catalog: &'a Catalog,
    clock_source: Component,
}

/// By hand, so that what drops a library calls this, and isn't followed through the fields.
impl Drop for Library<'_> {
    fn drop(self) {
        let Library {
            catalog: _,
            clock_source: _,
        } = self;
    }
}

impl<'a> Model for Library<'a> {
    ghost use Rattle.std.specs.Prelude.{◌≡◌, ◌∷◌, ◌++◌, [], List};
    ghost use Rattle.component_scripts.specs.Tables.{ComponentTable};
    ghost use Rattle.component_scripts.specs.Library.{clock_source_table};

    ghost Value = { List ComponentTable };

    ghost view = { λ l. l.catalog.now ++ l.clock_source ∷ [] };

    ghost invariant = { λ l. l.clock_source ≡ clock_source_table };
}

impl<'a> Library<'a> {
    /// The components of a catalog, and the clock source.
    pub fn new(alloc: Global, catalog: &'a Catalog) -> Result<Library<'a>, NoMemory>
        ensures { IfOk result (λ library. library ≡ catalog.now ++ clock_source_table ∷ []) }
    {
        Ok(Library {
            catalog,
            clock_source: clock_source(alloc)?,
        })
    }

    /// The place of a type.
    pub fn find(&self, name: &str) -> Option<usize>
        ensures { result ≡ type_place self.now name.now }
    {
        if let Some(k) = self.catalog.find(name) {
            return Some(k);
        }
        if name == "clock_source" {
            return Some(self.catalog.len());
        }
        None
    }

    /// The component at a place.
    pub fn component(&self, k: usize) -> Option<&Component>
        ensures { option_copied result ≡ slice_get self.now k }
    {
        if k == self.catalog.len() {
            return Some(&self.clock_source);
        }
        self.catalog.component(k)
    }

    /// The interfaces of each component.
    pub fn interfaces(&self, alloc: Global) -> Result<List<List<InterfaceTable>>, NoMemory>
        ensures interfaces { IfOk result (λ copy. copy ≡ interfaces_of self.now) }
        ensures made { OnOk result (All IsComponent self.now) }
    {
        let mut copy = List::new(alloc);
        for component in self.catalog.components() {
            push_interfaces(alloc, &mut copy, component)?;
        }
        push_interfaces(alloc, &mut copy, &self.clock_source)?;
        Ok(copy)
    }
}

/// Adds the interfaces of a component.
fn push_interfaces(
    alloc: Global,
    copy: &mut List<List<InterfaceTable>>,
    component: &Component,
) -> Result<(), NoMemory>
    ensures pushed { OnOk result (copy.new ≡ copy.old ++ component.now.interfaces ∷ []) }
    ensures made { IsComponent component.now }
{
    component.well_made();
    copy.push(copy_interfaces(alloc, component.interfaces())?)
}

/// Interfaces of a component that no file states.
#[derive(Drop)]
struct BuiltIn {
    names: Names,
    interfaces: Vec<InterfaceTable>,
}

impl BuiltIn {
    /// The interfaces of the source of a clock and of its reset.
    fn of_clock_source(alloc: Global) -> Result<BuiltIn, NoMemory>
        ensures interfaces { IfOk result (λ source. source.interfaces.items ≡ clock_source_table.interfaces) }
        ensures names { IfOk result (λ source. HasNamesOf source.names source.interfaces.items) }
    {
        let mut source = BuiltIn {
            names: Names::new(alloc),
            interfaces: Vec::new(alloc),
        };
        source.fill(alloc)?;
        Ok(source)
    }

    /// Adds the interfaces of the source of a clock and of its reset, where there are none yet.
    fn fill(&mut self, alloc: Global) -> Result<(), NoMemory>
        requires no_names { self.old.names ≡ [] }
        requires no_interfaces { self.old.interfaces.items ≡ [] }
        ensures interfaces { OnOk result (self.new.interfaces.items ≡ clock_source_table.interfaces) }
        ensures names { OnOk result (HasNamesOf self.new.names self.new.interfaces.items) }
    {
        self.add(alloc, "clk_in", Kind::Clock, Side::End)?;
        self.add(alloc, "clk_in_reset", Kind::Reset, Side::End)?;
        self.add(alloc, "clk", Kind::Clock, Side::Start)?;
        self.add(alloc, "clk_reset", Kind::Reset, Side::Start)
    }

    /// Adds an interface with no clock of its own and no roles.
    fn add(&mut self, alloc: Global, name: &str, kind: Kind, side: Side) -> Result<(), NoMemory>
        requires { IsNone (place_of self.old.names name.now) }
        ensures names { OnOk result (self.new.names ≡ self.old.names ++ name.now ∷ []) }
        ensures interfaces { OnOk result
            (self.new.interfaces.items ≡ self.old.interfaces.items ++ built_in name.now kind side ∷ []) }
    {
        self.names.add(alloc, name)?;
        self.interfaces.push(built_in(alloc, name, kind, side)?)?;
        Ok(())
    }
}

/// An interface with no clock of its own and no roles.
fn built_in(alloc: Global, name: &str, kind: Kind, side: Side) -> Result<InterfaceTable, NoMemory>
    ensures { IfOk result (λ interface. interface ≡ built_in name.now kind side) }
{
    let name = Text::copy(alloc, name)?;
    let clock = Text::copy(alloc, "")?;
    Ok(InterfaceTable {
        name,
        kind,
        side,
        clock,
        finished: Finished::Other,
    })
}

/// The built-in source of a clock and of its reset.
fn clock_source(alloc: Global) -> Result<Component, NoMemory>
    ensures { IfOk result (λ component. component ≡ clock_source_table) }
{
    let name = Text::copy(alloc, "clock_source")?;
    let BuiltIn { names, interfaces } = BuiltIn::of_clock_source(alloc)?;
    let place = Place {
        file: 0,
        line: 0,
        byte: 0,
    };
    Ok(Component::new(name, place, names, interfaces))
}
