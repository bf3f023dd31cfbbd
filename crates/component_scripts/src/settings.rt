ghost use Rattle.std.specs.Prelude.{◌≡◌, IsTrue, false, true, OnOk};
ghost use Rattle.std.specs.Option.{option_map_or};
ghost use Rattle.iface_roles.specs.Held.{is_kept};
ghost use Rattle.iface_roles.specs.Properties.{property_row, is_of};
ghost use Rattle.component_scripts.specs.Component.{value_of, is_within, is_not_known, is_misread, is_outside, has_role, set_to_number, set_as, port_stated, with_role};
ghost use Rattle.script_words.specs.Kinds.{property_named};
ghost use Rattle.script_words.specs.Words.{text_at};

use crate::component::DeclaredInterface;
use crate::types::is_name;
use av_base::{NoMemory, Text};
use iface_roles::{PortDirection, Property, PropertyId, Values};
use script_words::places::add_interface_port;
use script_words::values::{direction_named, number_of, property_named, role_named};
use script_words::words::text;
use std::alloc::Global;
use tcl_words::Word;

/// The number that a value stands for, as a property asks for it. For the name of a clock, or none, it means nothing.
#[tactic(auto, unfolding(crate::specs::Component::value_of))]
pub(crate) fn value_of(values: Values, text: &str) -> Option<u32>
    ensures { result ≡ value_of values text.now }
{
    match values {
        Values::Number(..) | Values::Any => number_of(text),
        Values::Truth | Values::Units | Values::Time | Values::Alignment => values.number_of(text),
        Values::ClockName => (text.is_empty() || is_name(text)).then_some(0),
    }
}

/// Whether the number is within the property's range.
pub(crate) fn is_within(id: PropertyId, number: u32) -> bool
    ensures { result ≡ is_within id number }
{
    let range = match id.values() {
        Values::Number(low, high) => low..=high,
        Values::Any | Values::ClockName => 0..=u32::MAX,
        Values::Truth | Values::Units | Values::Time | Values::Alignment => 0..=1,
    };
    range.contains(&number)
}

pub(crate) fn is_not_known(property: Option<Property>) -> bool
    ensures { result ≡ option_map_or is_not_known property false }
{
    matches!(property, Some(Property::Unknown))
}

/// Whether a value isn't as the property asks for it.
pub(crate) fn is_misread(property: Option<Property>, text: &str) -> bool
    ensures { result ≡ option_map_or (λ known. is_misread known text.now) property false }
{
    match property {
        Some(Property::Known(id)) => value_of(id.values(), text).is_none(),
        _ => false,
    }
}

/// Whether a value is outside the property's range.
pub(crate) fn is_outside(property: Option<Property>, text: &str) -> bool
    ensures { result ≡ option_map_or (λ known. is_outside known text.now) property false }
{
    let Some(Property::Known(id)) = property else {
        return false;
    };
    match value_of(id.values(), text) {
        Some(number) => !is_within(id, number),
        None => false,
    }
}

fn is_kept(id: PropertyId) -> bool
    ensures { result ≡ is_kept id }
{
    !matches!(id, PropertyId::AssociatedClock)
}

/// Sets a property of an interface, which then holds the value's number, and the name of its clock beside.
#[tactic(auto, unfolding(crate::specs::Component::set_to_number))]
fn set_to_number(
    alloc: Global,
    declared: &mut DeclaredInterface,
    id: PropertyId,
    value: &str,
    number: u32,
) -> Result<(), NoMemory>
    requires known { IsTrue (is_of (property_row id).kinds declared.old.interface.kind) }
    requires within { is_within id number ≡ true }
    ensures ok { OnOk result (declared.new ≡ set_to_number declared.old id value.now number) }
    ensures name { declared.new.name ≡ declared.old.name }
{
    if !is_kept(id) {
        declared.clock = Text::copy(alloc, value)?;
    }
    declared.interface.set(id, number);
    Ok(())
}

/// Sets a property of an interface to a value. What isn't known there changes nothing.
#[tactic(auto, unfolding(crate::specs::Component::set_as))]
pub(crate) fn set_as(
    alloc: Global,
    declared: &mut DeclaredInterface,
    property: &str,
    value: &str,
) -> Result<(), NoMemory>
    requires { is_outside (property_named declared.old.interface.kind property.now) value.now ≡ false }
    ensures ok { OnOk result
        (declared.new ≡ set_as declared.old (property_named declared.old.interface.kind property.now) value.now) }
    ensures name { declared.new.name ≡ declared.old.name }
{
    if let Property::Known(id) = property_named(declared.interface.kind(), property) {
        if let Some(number) = value_of(id.values(), value) {
            set_to_number(alloc, declared, id, value, number)?;
        }
    }
    Ok(())
}

/// The direction and the width of the port that the words of `add_interface_port` state.
#[tactic(auto, unfolding(crate::specs::Component::port_stated))]
fn port_stated(words: &[Word]) -> Option<(PortDirection, u32)>
    ensures { result ≡ port_stated words.now }
{
    let direction = direction_named(text(words, add_interface_port::DIRECTION))?;
    let width = number_of(text(words, add_interface_port::WIDTH))?;
    Some((direction, width))
}

/// Adds the port that the words of `add_interface_port` state to the interface, where that has roles.
#[tactic(auto, unfolding(crate::specs::Component::with_role))]
pub(crate) fn with_role(declared: &mut DeclaredInterface, words: &[Word])
    requires { has_role (text_at words.now 3) declared.old.interface ≡ false }
    ensures same { declared.new ≡ with_role declared.old words.now }
    ensures name { declared.new.name ≡ declared.old.name }
{
    if let Some(role) = role_named(
        declared.interface.kind(),
        text(words, add_interface_port::ROLE),
    ) {
        if let Some((direction, width)) = port_stated(words) {
            declared.interface.add_port(role, direction, width);
        }
    }
}
