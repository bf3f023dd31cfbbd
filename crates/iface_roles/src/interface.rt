ghost use Rattle.std.specs.Prelude.{◌≡◌, ◌↔◌, ◌<◌, ◌≤◌, IsTrue, false, None, Some, if◌then◌else◌};
ghost use Rattle.iface_roles.specs.Properties.{property_row, least_of, greatest_of, is_computed, is_of, IsInRange};
ghost use Rattle.iface_roles.specs.Roles.{role_row};

use crate::kinds::{Kind, PortDirection, Side};
use crate::properties::PropertyId;
use crate::roles::Role;
use std::marker::Model;

/// A port as a component declares it.
#[derive(Clone, Copy)]
pub(crate) struct Port {
    pub direction: PortDirection,
    /// In bits.
    pub width: u32,
}

/// One interface of a component, while its ports and settings are read.
#[derive(Clone, Copy)]
pub struct Interface {
    kind: Kind,
    side: Side,
    /// By the place of the role in its table.
    ports: [Option<Port>; 22],
    /// By the place of the property in its table.
    settings: [Option<u32>; 26],
}

impl Model for Interface {
    ghost use Rattle.iface_roles.specs.Held.{Held, AreInRange};

    ghost Value = { Held };

    ghost view = { λ i. record { kind = i.kind; side = i.side; ports = i.ports; settings = i.settings } };

    ghost invariant = { λ i. AreInRange i.settings };

    ghost inverse = { λ h. record { kind = h.kind; side = h.side; ports = h.ports; settings = h.settings } };
}

impl Interface {
    ghost use Rattle.iface_roles.specs.Held.{
      Held,
      empty,
      port_of,
      with_port,
      set_to,
      with_setting,
      has,
      width_of,
      setting_of,
      AreInRange,
    };

    /// An interface with no ports, of which nothing is set.
    pub fn new(kind: Kind, side: Side) -> Interface
        ensures { result ≡ empty kind side }
    {
        Interface {
            kind,
            side,
            ports: [None; 22],
            settings: [None; 26],
        }
    }

    /// Adds the port of a role. False where the role has one already, which then stays.
    pub fn add_port(&mut self, role: Role, direction: PortDirection, width: u32) -> bool
        requires { (role_row role).kind ≡ self.old.kind }
        ensures free { IsTrue result ↔ (port_of self.old role ≡ None) }
        ensures kept { self.new
            ≡ (if result then with_port self.old role (record { direction = direction; width = width }) else self.old) }
    {
        let place = role.place();
        if self.ports[place].is_some() {
            return false;
        }
        self.ports[place] = Some(Port { direction, width });
        true
    }

    /// Sets a property, in place of an earlier setting. False where the number is outside the property's range, and
    /// the earlier setting then stays. Truth values are 0 and 1, the first and second word of a pair too. The name of
    /// the clock isn't kept here: its number means nothing.
    pub fn set(&mut self, id: PropertyId, number: u32) -> bool
        requires { IsTrue (is_of (property_row id).kinds self.old.kind) }
        ensures in_range { IsTrue result ↔ IsInRange id number }
        ensures kept { self.new ≡ (if result then with_setting self.old id number else self.old) }
    {
        if !id.allows(number) {
            return false;
        }
        if id != PropertyId::AssociatedClock {
            self.settings[id.place()] = Some(number);
        }
        true
    }

    /// No setting leaves its property's range.
    pub(crate) fn settings_are_in_range(&self)
        ensures { AreInRange self.now.settings }
    {
        let _settings = &self.settings;
    }

    pub fn kind(&self) -> Kind
        ensures { result ≡ self.now.kind }
    {
        self.kind
    }

    pub fn side(&self) -> Side
        ensures { result ≡ self.now.side }
    {
        self.side
    }

    pub(crate) fn port(&self, role: Role) -> Option<Port>
        ensures { result ≡ port_of self.now role }
    {
        self.ports[role.place()]
    }

    pub fn has(&self, role: Role) -> bool
        ensures { result ≡ has self.now role }
    {
        self.port(role).is_some()
    }

    /// The width of the role's port in bits, 0 where there is none.
    pub(crate) fn width(&self, role: Role) -> u32
        ensures { result ≡ width_of self.now role }
    {
        self.port(role).map_or(0, |port| port.width)
    }

    pub(crate) fn set_to(&self, id: PropertyId) -> Option<u32>
        ensures { result ≡ set_to self.now id }
    {
        self.settings[id.place()]
    }

    /// The last setting of the property, or its default; 0 where another port or property decides that.
    pub(crate) fn setting(&self, id: PropertyId) -> u32
        ensures value { result ≡ setting_of self.now id }
        ensures low { is_computed (property_row id).default ≡ false → least_of (property_row id).values ≤ result }
        ensures high { result ≤ greatest_of (property_row id).values }
    {
        self.settings[id.place()].unwrap_or(id.row().default.at(self.side))
    }
}
