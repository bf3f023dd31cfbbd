ghost use Rattle.std.specs.Prelude.{◌≡◌};

use av_base::{Place, Text};
use script_words::Names;
use std::marker::Model;
use system_tables::InterfaceTable;

/// A component that keeps the rules.
pub struct Component {
    name: Text,
    place: Place,
    names: Names,
    interfaces: Vec<InterfaceTable>,
}

/// By hand, so that what drops a component calls this, and isn't followed through the fields.
impl Drop for Component {
    fn drop(self) {
        let Component {
            name: _,
            place: _,
            names: _,
            interfaces: _,
        } = self;
    }
}

impl Model for Component {
    ghost use Rattle.std.specs.Prelude.{map, ◌≡◌};
    ghost use Rattle.component_scripts.specs.Tables.{ComponentTable, IsComponent, HasNamesOf};

    ghost Value = { ComponentTable };

    ghost view = { λ c. record { name = c.name; place = c.place; interfaces = c.interfaces.items } };

    ghost invariant = { λ c. IsComponent (record { name = c.name; place = c.place; interfaces = c.interfaces.items })
        × HasNamesOf c.names c.interfaces.items };
}

impl Component {
    ghost use Rattle.component_scripts.specs.Tables.{ComponentTable, IsComponent, HasNamesOf, interface_place};

    /// The name of the component's type.
    pub(crate) fn name(&self) -> &str
        ensures { result.now ≡ self.now.name }
    {
        self.name.as_str()
    }

    /// Where the name of the type stands.
    pub(crate) fn place(&self) -> Place
        ensures { result ≡ self.now.place }
    {
        self.place
    }

    /// What every component keeps.
    pub(crate) fn well_made(&self)
        ensures { IsComponent self.now }
    {
        let _ = &self.interfaces;
    }

    /// The interfaces, in the order of their commands.
    pub fn interfaces(&self) -> &[InterfaceTable]
        ensures { result.now ≡ self.now.interfaces }
    {
        self.interfaces.as_slice()
    }

    /// The number of the interface of this name.
    pub fn find(&self, name: &str) -> Option<usize>
        ensures { result ≡ interface_place self.now.interfaces name.now }
    {
        self.names.find(name)
    }

    /// The component of these tables.
    pub fn new(name: Text, place: Place, names: Names, interfaces: Vec<InterfaceTable>) -> Component
        requires sound { IsComponent (record { name = name; place = place; interfaces = interfaces.items }) }
        requires names { HasNamesOf names interfaces.items }
        ensures { result ≡ record { name = name; place = place; interfaces = interfaces.items } }
    {
        Component {
            name,
            place,
            names,
            interfaces,
        }
    }
}
