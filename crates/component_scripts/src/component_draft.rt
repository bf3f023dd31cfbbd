ghost use Rattle.std.specs.Prelude.{◌≡◌, IfOk, IsTrue};
ghost use Rattle.iface_roles.specs.Proper.{IsProper};
ghost use Rattle.iface_roles.specs.Records.{finished};
ghost use Rattle.component_scripts.specs.Component.{interface_table, declared_as};
ghost use Rattle.system_tables.specs.Names.{is_name};
ghost use Rattle.component_scripts.specs.Tables.{IsSound};

use crate::component::{ComponentCommand, DeclaredInterface};
use crate::component_words::{
    component_command, has_role, judge_port_property, kind_and_side, lacks_role, names_type, takes,
};
use crate::settings::{is_misread, is_not_known, is_outside, set_as, with_role};
use crate::types::{Component, is_name};
use av_base::{NoMemory, Place, Text};
use iface_roles::{Finished, Interface, Kind, Property, Side};
use script_words::CommandRule::{
    Misread, NotAName, NotStated, OutOfRange, Taken, TypeName, UnknownCommand, UnknownKind,
    UnknownProperty, UnknownRole, WrongCount, WrongDirection,
};
use script_words::places::{
    COMMAND, add_interface, add_interface_port, set_interface_property, set_module_property,
};
use script_words::values::{direction_named, kind_named, number_of, property_named, same_kind};
use script_words::words::{check, is_misdirected, place, refusal_of, refused_at, text};
use script_words::{Names, Refusal, ScriptFault, ScriptRule, judge_package};
use std::alloc::Global;
use std::marker::Model;
use system_tables::InterfaceTable;
use tcl_words::Word;

/// What the commands of a component file state so far.
pub(crate) struct ComponentDraft {
    type_name: Option<Word>,
    names: Names,
    interfaces: Vec<DeclaredInterface>,
    ports: Names,
}

/// By hand, so that what drops a draft calls this, and isn't followed through the fields.
impl Drop for ComponentDraft {
    fn drop(self) {
        let ComponentDraft {
            type_name: _,
            names: _,
            interfaces: _,
            ports: _,
        } = self;
    }
}

impl Model for ComponentDraft {
    ghost use Rattle.component_scripts.specs.Component.{DraftedComponent, IsComponentDraft};

    ghost Value = { DraftedComponent };

    ghost view = { λ d. record { type_name = d.type_name; interfaces = d.interfaces.items; ports = d.ports } };

    ghost invariant = { λ d. IsComponentDraft d.names d.type_name d.interfaces.items };
}

impl ComponentDraft {
    ghost use Rattle.std.specs.Prelude.{◌≡◌, ◌<◌, ◌≤◌, ◌||◌, ◌-◌, IsTrue, Some, length, OnOk, IfOk, IfErr, None};
    ghost use Rattle.component_scripts.specs.Component.{DraftedComponent, empty_component_draft, held_named, names_type, kind_and_side, property_at, has_role, lacks_role, port_stated, module_checks, interface_checks, property_checks, port_checks, port_property_checks, component_checks, component_effect, component_refusal, component_after, names_clock, lacks_clock, interface_refusal, interface_table, ended, module_effect, interface_effect, property_effect, port_effect};
    ghost use Rattle.script_words.specs.Judgements.{first_some, IsFaultOf};
    ghost use Rattle.script_words.specs.Words.{is_misdirected};
    ghost use Rattle.std.specs.Prelude.{◌++◌, ◌∷◌, [], map, All, Ok, IsSome, is_some, false};
    ghost use Rattle.system_tables.specs.Names.{is_name};
    ghost use Rattle.component_scripts.specs.Tables.{IsSound};
    ghost use Rattle.script_words.specs.Words.{refusal_of, IsRefusal};
    ghost use Rattle.iface_roles.specs.Proper.{IsProper};
    ghost use Rattle.iface_roles.specs.Records.{finished};

    pub fn new(alloc: Global) -> ComponentDraft
        ensures { result ≡ empty_component_draft }
    {
        ComponentDraft {
            type_name: None,
            names: Names::new(alloc),
            interfaces: Vec::new(alloc),
            ports: Names::new(alloc),
        }
    }

    /// The interface of this name.
    fn held_named(&self, name: &str) -> Option<Interface>
        ensures { result ≡ held_named self.now.interfaces name.now }
    {
        let k = self.names.find(name)?;
        Some(self.interfaces[k].interface)
    }

    #[tactic(auto, unfolding(crate::specs::Component::module_checks))]
    fn judge_module_property(&self, words: &[Word]) -> Option<Refusal>
        ensures { result ≡ refusal_of words.now (module_checks self.now words.now) }
    {
        let value = text(words, set_module_property::VALUE);
        refusal_of(
            words,
            &[
                check(
                    NotAName,
                    set_module_property::VALUE,
                    names_type(words) && !is_name(value),
                ),
                check(
                    TypeName,
                    set_module_property::PROPERTY,
                    names_type(words) && self.type_name.is_some(),
                ),
            ],
        )
    }

    #[tactic(auto, unfolding(crate::specs::Component::interface_checks))]
    fn judge_interface(&self, words: &[Word]) -> Option<Refusal>
        ensures { result ≡ refusal_of words.now (interface_checks self.now words.now) }
    {
        let name = text(words, add_interface::NAME);
        refusal_of(
            words,
            &[
                check(NotAName, add_interface::NAME, !is_name(name)),
                check(Taken, add_interface::NAME, self.held_named(name).is_some()),
                check(
                    UnknownKind,
                    add_interface::KIND,
                    kind_named(text(words, add_interface::KIND)).is_none(),
                ),
                check(
                    WrongDirection,
                    add_interface::DIRECTION,
                    is_misdirected(words),
                ),
            ],
        )
    }

    #[tactic(auto, unfolding(crate::specs::Component::property_at))]
    fn property_at(&self, words: &[Word]) -> Option<Property>
        ensures { result ≡ property_at self.now words.now }
    {
        let interface = self.held_named(text(words, set_interface_property::INTERFACE))?;
        Some(property_named(
            interface.kind(),
            text(words, set_interface_property::PROPERTY),
        ))
    }

    #[tactic(auto, unfolding(crate::specs::Component::property_checks))]
    fn judge_property(&self, words: &[Word]) -> Option<Refusal>
        ensures { result ≡ refusal_of words.now (property_checks self.now words.now) }
    {
        let property = self.property_at(words);
        let value = text(words, set_interface_property::VALUE);
        refusal_of(
            words,
            &[
                check(
                    NotStated,
                    set_interface_property::INTERFACE,
                    property.is_none(),
                ),
                check(
                    UnknownProperty,
                    set_interface_property::PROPERTY,
                    is_not_known(property),
                ),
                check(
                    Misread,
                    set_interface_property::VALUE,
                    is_misread(property, value),
                ),
                check(
                    OutOfRange,
                    set_interface_property::VALUE,
                    is_outside(property, value),
                ),
            ],
        )
    }

    #[tactic(auto, unfolding(crate::specs::Component::port_checks))]
    fn judge_port(&self, words: &[Word]) -> Option<Refusal>
        ensures { result ≡ refusal_of words.now (port_checks self.now words.now) }
    {
        let interface = self.held_named(text(words, add_interface_port::INTERFACE));
        let role = text(words, add_interface_port::ROLE);
        let width = number_of(text(words, add_interface_port::WIDTH));
        refusal_of(
            words,
            &[
                check(
                    NotAName,
                    add_interface_port::PORT,
                    !is_name(text(words, add_interface_port::PORT)),
                ),
                check(
                    Taken,
                    add_interface_port::PORT,
                    self.ports
                        .find(text(words, add_interface_port::PORT))
                        .is_some(),
                ),
                check(Taken, add_interface_port::ROLE, has_role(role, interface)),
                check(
                    NotStated,
                    add_interface_port::INTERFACE,
                    interface.is_none(),
                ),
                check(
                    WrongDirection,
                    add_interface_port::DIRECTION,
                    direction_named(text(words, add_interface_port::DIRECTION)).is_none(),
                ),
                check(
                    UnknownRole,
                    add_interface_port::ROLE,
                    lacks_role(role, interface),
                ),
                check(Misread, add_interface_port::WIDTH, width.is_none()),
                check(
                    OutOfRange,
                    add_interface_port::WIDTH,
                    matches!(width, Some(0)),
                ),
            ],
        )
    }

    /// What refuses a command by its words, whose number is right.
    fn judge(&self, command: ComponentCommand, words: &[Word]) -> Option<Refusal>
        ensures { result ≡ refusal_of words.now (component_checks command self.now words.now) }
    {
        match command {
            ComponentCommand::Package => judge_package(words),
            ComponentCommand::SetModuleProperty => self.judge_module_property(words),
            ComponentCommand::AddInterface => self.judge_interface(words),
            ComponentCommand::SetInterfaceProperty => self.judge_property(words),
            ComponentCommand::AddInterfacePort => self.judge_port(words),
            ComponentCommand::SetPortProperty => judge_port_property(words),
            ComponentCommand::PassedOver => refusal_of(words, &[]),
        }
    }

    #[tactic(auto, unfolding(crate::specs::Component::module_effect))]
    fn state_module_property(&mut self, alloc: Global, words: &[Word]) -> Result<(), NoMemory>
        requires { refusal_of words.now (module_checks self.old words.now) ≡ None }
        ensures { OnOk result (self.new ≡ module_effect self.old words.now) }
    {
        if names_type(words) {
            self.type_name = Some(Word {
                text: Text::copy(alloc, text(words, set_module_property::VALUE))?,
                place: place(words, set_module_property::VALUE),
            });
        }
        Ok(())
    }

    /// Adds an interface of a new name.
    fn declare(&mut self, alloc: Global, declared: DeclaredInterface) -> Result<(), NoMemory>
        requires name { IsTrue (is_name declared.name) }
        requires new { is_some (held_named self.old.interfaces declared.name) ≡ false }
        ensures { OnOk result (self.new ≡ record self.old { interfaces = self.old.interfaces ++ declared ∷ [] }) }
    {
        self.names
            .add_for(alloc, declared.name.as_str(), &mut self.interfaces)?;
        self.interfaces.push(declared).unwrap();
        Ok(())
    }

    #[tactic(auto, unfolding(crate::specs::Component::interface_effect))]
    fn state_interface(&mut self, alloc: Global, words: &[Word]) -> Result<(), NoMemory>
        requires { refusal_of words.now (interface_checks self.old words.now) ≡ None }
        ensures { OnOk result (self.new ≡ interface_effect self.old words.now) }
    {
        if let Some((kind, side)) = kind_and_side(words) {
            self.declare(alloc, declared_as(alloc, words, kind, side)?)?;
        }
        Ok(())
    }

    #[tactic(auto, unfolding(crate::specs::Component::property_effect))]
    fn state_property(&mut self, alloc: Global, words: &[Word]) -> Result<(), NoMemory>
        requires { refusal_of words.now (property_checks self.old words.now) ≡ None }
        ensures { OnOk result (self.new ≡ property_effect self.old words.now) }
    {
        if let Some(k) = self
            .names
            .find(text(words, set_interface_property::INTERFACE))
        {
            set_as(
                alloc,
                &mut self.interfaces[k],
                text(words, set_interface_property::PROPERTY),
                text(words, set_interface_property::VALUE),
            )?;
        }
        Ok(())
    }

    #[tactic(auto, unfolding(crate::specs::Component::port_effect))]
    fn state_port(&mut self, alloc: Global, words: &[Word]) -> Result<(), NoMemory>
        requires { refusal_of words.now (port_checks self.old words.now) ≡ None }
        ensures { OnOk result (self.new ≡ port_effect self.old words.now) }
    {
        self.ports
            .add(alloc, text(words, add_interface_port::PORT))?;
        if let Some(k) = self.names.find(text(words, add_interface_port::INTERFACE)) {
            with_role(&mut self.interfaces[k], words);
        }
        Ok(())
    }

    /// What a command states, once nothing refuses it.
    fn state(
        &mut self,
        alloc: Global,
        command: ComponentCommand,
        words: &[Word],
    ) -> Result<(), NoMemory>
        requires { refusal_of words.now (component_checks command self.old words.now) ≡ None }
        ensures { OnOk result (self.new ≡ component_effect command self.old words.now) }
    {
        match command {
            ComponentCommand::SetModuleProperty => self.state_module_property(alloc, words),
            ComponentCommand::AddInterface => self.state_interface(alloc, words),
            ComponentCommand::SetInterfaceProperty => self.state_property(alloc, words),
            ComponentCommand::AddInterfacePort => self.state_port(alloc, words),
            ComponentCommand::Package
            | ComponentCommand::SetPortProperty
            | ComponentCommand::PassedOver => Ok(()),
        }
    }

    /// Takes the next command, which a rule may refuse.
    #[tactic(auto, unfolding(crate::specs::Component::component_refusal, crate::specs::Component::component_after))]
    pub fn take(&mut self, alloc: Global, words: &[Word]) -> Result<(), ScriptFault>
        ensures accepted { OnOk result (component_refusal self.old words.now ≡ None) }
        ensures stated { OnOk result (self.new ≡ component_after self.old words.now) }
        ensures refused { IfErr result (λ fault. IsRefusal fault (component_refusal self.old words.now)) }
    {
        let Some(command) = component_command(text(words, COMMAND)) else {
            return Err(refused_at(words, UnknownCommand, COMMAND).into());
        };
        if !takes(command, words.len().saturating_sub(1)) {
            return Err(refused_at(words, WrongCount, COMMAND).into());
        }
        if let Some(refusal) = self.judge(command, words) {
            return Err(refusal.into());
        }
        self.state(alloc, command, words)?;
        Ok(())
    }

    fn names_clock(&self, name: &str) -> bool
        ensures { result ≡ names_clock self.now.interfaces name.now }
    {
        match self.held_named(name) {
            Some(held) => same_kind(held.kind(), Kind::Clock),
            None => false,
        }
    }

    /// Whether the interface's `associatedClock` names no clock interface of the component.
    fn lacks_clock(&self, declared: &DeclaredInterface) -> bool
        ensures { result ≡ lacks_clock self.now.interfaces declared.now }
    {
        let clock = declared.clock.as_str();
        declared.interface.kind().is_avalon() && !clock.is_empty() && !self.names_clock(clock)
    }

    /// What is known of the interface, unless a rule refuses it.
    fn finished(&self, declared: &DeclaredInterface) -> Result<Finished, Refusal>
        ensures accepted { IfOk result (λ known. (interface_refusal self.now.interfaces declared.now ≡ None)
            × (known ≡ finished declared.now.interface)) }
        ensures proper { IfOk result IsProper }
        ensures refused { IfErr result (λ refusal. interface_refusal self.now.interfaces declared.now ≡ Some refusal) }
    {
        let rule = match declared.interface.finish() {
            Ok(known) if !self.lacks_clock(declared) => return Ok(known),
            Ok(_) => 14,
            Err(rule) => rule,
        };
        Err(Refusal {
            place: declared.place,
            rule: ScriptRule::Interface(rule),
        })
    }

    /// The table of an interface, unless a rule refuses it.
    fn table(
        &self,
        alloc: Global,
        declared: &DeclaredInterface,
    ) -> Result<InterfaceTable, ScriptFault>
        requires { IsTrue (is_name declared.now.name) }
        ensures accepted { OnOk result (interface_refusal self.now.interfaces declared.now ≡ None) }
        ensures table { IfOk result (λ table. table ≡ interface_table declared.now) }
        ensures sound { IfOk result IsSound }
        ensures refused { IfErr result (λ fault. IsRefusal fault (interface_refusal self.now.interfaces declared.now)) }
    {
        let finished = self.finished(declared)?;
        Ok(table_of(alloc, declared, finished)?)
    }

    /// The tables of these interfaces in order, unless a rule refuses one.
    fn tables_of(
        &self,
        alloc: Global,
        interfaces: &[DeclaredInterface],
    ) -> Result<Vec<InterfaceTable>, ScriptFault>
        requires { All (λ declared. IsTrue (is_name declared.name)) interfaces.now }
        ensures accepted { OnOk result (first_some (interface_refusal self.now.interfaces) interfaces.now ≡ None) }
        ensures tables { IfOk result (λ tables. tables.items ≡ map interface_table interfaces.now) }
        ensures sound { IfOk result (λ tables. All IsSound tables.items) }
        ensures refused { IfErr result
            (λ fault. IsRefusal fault (first_some (interface_refusal self.now.interfaces) interfaces.now)) }
    {
        let mut tables = Vec::new(alloc);
        for declared in interfaces {
            tables.push(self.table(alloc, declared)?)?;
        }
        Ok(tables)
    }

    /// The tables of the interfaces in order, unless a rule refuses one.
    fn interface_tables(&self, alloc: Global) -> Result<Vec<InterfaceTable>, ScriptFault>
        ensures accepted { OnOk result (first_some (interface_refusal self.now.interfaces) self.now.interfaces ≡ None) }
        ensures tables { IfOk result (λ tables. tables.items ≡ map interface_table self.now.interfaces) }
        ensures sound { IfOk result (λ tables. All IsSound tables.items) }
        ensures refused { IfErr result
            (λ fault. IsRefusal fault (first_some (interface_refusal self.now.interfaces) self.now.interfaces)) }
    {
        self.tables_of(alloc, self.interfaces.as_slice())
    }

    /// The tables of the interfaces, where the type has a name by the end of the file and no rule refuses an interface.
    #[tactic(auto, unfolding(crate::specs::Component::ended))]
    fn ended(&self, alloc: Global, end: Place) -> Result<Vec<InterfaceTable>, ScriptFault>
        ensures named { OnOk result (IsSome self.now.type_name) }
        ensures accepted { OnOk result (first_some (interface_refusal self.now.interfaces) self.now.interfaces ≡ None) }
        ensures tables { IfOk result (λ tables. tables.items ≡ map interface_table self.now.interfaces) }
        ensures sound { IfOk result (λ tables. All IsSound tables.items) }
        ensures refused { IfErr result (λ fault. IsFaultOf fault (ended end self.now)) }
    {
        if self.type_name.is_none() {
            return Err(ScriptFault::Refused {
                place: end,
                rule: ScriptRule::Command(TypeName.number()),
            });
        }
        Ok(self.interface_tables(alloc)?)
    }

    /// The component of these tables, which has the name that was stated.
    #[tactic(auto, unfolding(crate::specs::Component::ended))]
    fn with_tables(self, interfaces: Vec<InterfaceTable>) -> Component
        requires named { IsSome self.type_name }
        requires accepted { first_some (interface_refusal self.interfaces) self.interfaces ≡ None }
        requires tables { interfaces.items ≡ map interface_table self.interfaces }
        requires sound { All IsSound interfaces.items }
        ensures { (end : Place) → ended end self ≡ Ok result }
    {
        let ComponentDraft {
            type_name,
            names,
            interfaces: _,
            ports: _,
        } = self;
        let name = type_name.unwrap();
        names.distinct();
        Component::new(name.text, name.place, names, interfaces)
    }

    /// What the commands state, once they end here.
    pub fn finish(self, alloc: Global, end: Place) -> Result<Component, ScriptFault>
        ensures accepted { IfOk result (λ component. ended end self ≡ Ok component) }
        ensures refused { IfErr result (λ fault. IsFaultOf fault (ended end self)) }
    {
        let interfaces = self.ended(alloc, end)?;
        Ok(self.with_tables(interfaces))
    }
}

/// The interface that the words of `add_interface` declare, of this kind and side.
fn declared_as(
    alloc: Global,
    words: &[Word],
    kind: Kind,
    side: Side,
) -> Result<DeclaredInterface, NoMemory>
    ensures { IfOk result (λ declared. declared ≡ declared_as words.now (kind, side)) }
{
    let name = Text::copy(alloc, text(words, add_interface::NAME))?;
    let clock = Text::copy(alloc, "")?;
    Ok(DeclaredInterface {
        name,
        place: place(words, add_interface::NAME),
        clock,
        interface: Interface::new(kind, side),
    })
}

#[tactic(auto, unfolding(crate::specs::Component::interface_table))]
fn table_of(
    alloc: Global,
    declared: &DeclaredInterface,
    known: Finished,
) -> Result<InterfaceTable, NoMemory>
    requires known { known ≡ finished declared.now.interface }
    requires proper { IsProper known }
    requires name { IsTrue (is_name declared.now.name) }
    ensures table { IfOk result (λ table. table ≡ interface_table declared.now) }
    ensures sound { IfOk result IsSound }
{
    let name = Text::copy(alloc, declared.name.as_str())?;
    let clock = Text::copy(alloc, declared.clock.as_str())?;
    Ok(InterfaceTable {
        name,
        kind: declared.interface.kind(),
        side: declared.interface.side(),
        clock,
        finished: known,
    })
}
