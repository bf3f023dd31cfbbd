ghost use Rattle.std.specs.Prelude.{◌≡◌, false};
ghost use Rattle.std.specs.Option.{option_map_or};
ghost use Rattle.std.specs.List.{list_any};
ghost use Rattle.std.specs.Str.{bytes_eq};
ghost use Rattle.iface_roles.specs.Held.{Held};
ghost use Rattle.component_scripts.specs.Component.{component_command, passed_over, takes, names_type, kind_and_side, has_role, lacks_role, port_property_checks};
ghost use Rattle.script_words.specs.Words.{refusal_of};

use crate::component::ComponentCommand;
use iface_roles::{Interface, Kind, Side};
use script_words::CommandRule::UnknownPortProperty;
use script_words::Refusal;
use script_words::places::{add_interface, set_module_property, set_port_property};
use script_words::values::{is_among, kind_named, role_named, same_name, same_text, side_named};
use script_words::words::{check, refusal_of, text};
use tcl_words::Word;

/// Commands that state nothing here.
const PASSED_OVER: [&str; 10] = [
    "add_fileset",
    "set_fileset_property",
    "add_fileset_file",
    "set_module_assignment",
    "set_interface_assignment",
    "add_documentation_link",
    "add_parameter",
    "set_parameter_property",
    "add_display_item",
    "set_display_item_property",
];

fn is_passed_over(name: &str) -> bool
    ensures { result ≡ list_any (bytes_eq name.now) passed_over }
{
    is_among(name, &PASSED_OVER)
}

/// The command of this name in a component file.
#[tactic(auto, unfolding(crate::specs::Component::component_command))]
pub(crate) fn component_command(name: &str) -> Option<ComponentCommand>
    ensures { result ≡ component_command name.now }
{
    if same_text(name, "package") {
        Some(ComponentCommand::Package)
    } else if same_text(name, "set_module_property") {
        Some(ComponentCommand::SetModuleProperty)
    } else if same_text(name, "add_interface") {
        Some(ComponentCommand::AddInterface)
    } else if same_text(name, "set_interface_property") {
        Some(ComponentCommand::SetInterfaceProperty)
    } else if same_text(name, "add_interface_port") {
        Some(ComponentCommand::AddInterfacePort)
    } else if same_text(name, "set_port_property") {
        Some(ComponentCommand::SetPortProperty)
    } else if is_passed_over(name) {
        Some(ComponentCommand::PassedOver)
    } else {
        None
    }
}

/// Whether the command may have so many words behind its name.
#[tactic(auto, unfolding(crate::specs::Component::takes))]
pub(crate) fn takes(command: ComponentCommand, count: usize) -> bool
    ensures { result ≡ takes command count }
{
    match command {
        ComponentCommand::Package => 2 <= count && count <= 4,
        ComponentCommand::SetModuleProperty => count == 2,
        ComponentCommand::AddInterface => count == 3,
        ComponentCommand::SetInterfaceProperty => count == 3,
        ComponentCommand::AddInterfacePort => count == 5,
        ComponentCommand::SetPortProperty => count == 3,
        ComponentCommand::PassedOver => true,
    }
}

pub(crate) fn names_type(words: &[Word]) -> bool
    ensures { result ≡ names_type words.now }
{
    same_name("NAME", text(words, set_module_property::PROPERTY))
}

/// The kind and the side that the words of `add_interface` name.
#[tactic(auto, unfolding(crate::specs::Component::kind_and_side))]
pub(crate) fn kind_and_side(words: &[Word]) -> Option<(Kind, Side)>
    ensures { result ≡ kind_and_side words.now }
{
    let kind = kind_named(text(words, add_interface::KIND))?;
    let side = side_named(kind, text(words, add_interface::DIRECTION))?;
    Some((kind, side))
}

/// Whether there is an interface, and has the role already.
pub(crate) fn has_role(role: &str, interface: Option<Interface>) -> bool
    ensures { result ≡ option_map_or (has_role role.now) interface false }
{
    let Some(held) = interface else {
        return false;
    };
    match role_named(held.kind(), role) {
        Some(role) => held.has(role),
        None => false,
    }
}

/// Whether there is an interface that ought to have roles, and has no such role.
pub(crate) fn lacks_role(role: &str, interface: Option<Interface>) -> bool
    ensures { result ≡ option_map_or (lacks_role role.now) interface false }
{
    match interface {
        Some(held) => held.kind().is_avalon() && role_named(held.kind(), role).is_none(),
        None => false,
    }
}

#[tactic(auto, unfolding(crate::specs::Component::port_property_checks))]
pub(crate) fn judge_port_property(words: &[Word]) -> Option<Refusal>
    ensures { result ≡ refusal_of words.now (port_property_checks words.now) }
{
    refusal_of(
        words,
        &[check(
            UnknownPortProperty,
            set_port_property::PROPERTY,
            !same_name("VHDL_TYPE", text(words, set_port_property::PROPERTY)),
        )],
    )
}
