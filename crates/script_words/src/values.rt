ghost use Rattle.std.specs.Prelude.{◌≡◌, ◌<◌, ◌≤◌, option_map, None};
ghost use Rattle.std.specs.List.{list_any};
ghost use Rattle.std.specs.Str.{bytes_eq};
ghost use Rattle.iface_roles.specs.Names.{same_name};
ghost use Rattle.script_words.specs.Kinds.{
  kind_named,
  side_named,
  direction_named,
  role_named,
  property_named,
  same_kind,
  names_start,
  names_end,
};
ghost use Rattle.script_words.specs.Names.{stands_in, parts_round, both_there, end_named};
ghost use Rattle.script_words.specs.Numbers.{number_in, number_of};

use iface_roles::{Kind, PortDirection, Property, Role, Side, property_of, role_of};

/// Whether the two are one name. The case of ASCII letters is disregarded.
pub fn same_name(a: &str, b: &str) -> bool
    ensures { result ≡ same_name a.now b.now }
{
    a.eq_ignore_ascii_case(b)
}

/// Whether the two are one text.
pub fn same_text(a: &str, b: &str) -> bool
    ensures { result ≡ bytes_eq a.now b.now }
{
    a == b
}

/// Whether the text is one of the names.
pub fn is_among(name: &str, names: &[&str]) -> bool
    ensures { result ≡ list_any (λ other. bytes_eq name.now other.now) names.now }
{
    names.iter().any(|other| name == *other)
}

fn number_in(radix: u32, text: &str) -> Option<u32>
    requires low { 2 ≤ radix }
    requires high { radix ≤ 36 }
    ensures { result ≡ number_in radix text.now }
{
    if text.starts_with('+') {
        return None;
    }
    u32::from_str_radix(text, radix).ok()
}

/// The number that a word writes, decimal or hexadecimal behind `0x`, below 2^32.
pub fn number_of(text: &str) -> Option<u32>
    ensures { result ≡ number_of text.now }
{
    match text.strip_prefix("0x") {
        Some(digits) => number_in(16, digits),
        None => number_in(10, text),
    }
}

/// The kind that a word names.
#[tactic(auto, unfolding(crate::specs::Kinds::kind_named))]
pub fn kind_named(text: &str) -> Option<Kind>
    ensures { result ≡ kind_named text.now }
{
    if same_text(text, "clock") {
        Some(Kind::Clock)
    } else if same_text(text, "reset") {
        Some(Kind::Reset)
    } else if same_text(text, "avalon") {
        Some(Kind::Mm)
    } else if same_text(text, "avalon_streaming") {
        Some(Kind::Stream)
    } else if same_text(text, "conduit") {
        Some(Kind::Conduit)
    } else if same_text(text, "interrupt") {
        Some(Kind::Interrupt)
    } else {
        None
    }
}

/// Whether the kinds are one.
pub fn same_kind(a: Kind, b: Kind) -> bool
    ensures { result ≡ same_kind a b }
{
    a == b
}

fn names_start(kind: Kind, text: &str) -> bool
    ensures { result ≡ names_start kind text.now }
{
    same_text(text, "start")
        || (!same_kind(kind, Kind::Stream)
            && (same_text(text, "master") || same_text(text, "host")))
        || (!same_kind(kind, Kind::Mm) && same_text(text, "source"))
}

fn names_end(kind: Kind, text: &str) -> bool
    ensures { result ≡ names_end kind text.now }
{
    same_text(text, "end")
        || (!same_kind(kind, Kind::Stream)
            && (same_text(text, "slave") || same_text(text, "agent")))
        || (!same_kind(kind, Kind::Mm) && same_text(text, "sink"))
}

/// The side that a word names in interfaces of the kind.
#[tactic(auto, unfolding(crate::specs::Kinds::side_named))]
pub fn side_named(kind: Kind, text: &str) -> Option<Side>
    ensures { result ≡ side_named kind text.now }
{
    if names_start(kind, text) {
        Some(Side::Start)
    } else if names_end(kind, text) {
        Some(Side::End)
    } else {
        None
    }
}

/// The direction that a word names, in any case.
#[tactic(auto, unfolding(crate::specs::Kinds::direction_named))]
pub fn direction_named(text: &str) -> Option<PortDirection>
    ensures { result ≡ direction_named text.now }
{
    if same_name("Input", text) {
        Some(PortDirection::Input)
    } else if same_name("Output", text) {
        Some(PortDirection::Output)
    } else if same_name("Bidir", text) {
        Some(PortDirection::Bidir)
    } else {
        None
    }
}

/// The role that a text names in interfaces of the kind.
pub fn role_named(kind: Kind, text: &str) -> Option<Role>
    ensures { result ≡ role_named kind text.now }
{
    role_of(kind, text)
}

/// What a text names among the properties of interfaces of the kind.
pub fn property_named(kind: Kind, text: &str) -> Property
    ensures { result ≡ property_named kind text.now }
{
    property_of(kind, text)
}

fn stands_in(mark: u8, text: &str) -> bool
    ensures { result ≡ stands_in mark text.now }
{
    text.as_bytes().iter().any(|byte| *byte == mark)
}

/// The parts of a text round an ASCII character that stands in it exactly once.
#[tactic(auto, unfolding(crate::specs::Names::parts_round))]
pub fn parts_round(mark: u8, text: &str) -> Option<(&str, &str)>
    requires { mark < 128 }
    ensures { option_map (λ parts. (parts.0.now, parts.1.now)) result ≡ parts_round mark text.now }
{
    let (front, rest) = text.split_once(char::from(mark))?;
    if stands_in(mark, rest) {
        return None;
    }
    Some((front, rest))
}

/// The names in `instance.interface`.
#[tactic(auto, unfolding(crate::specs::Names::end_named))]
pub fn end_named(text: &str) -> Option<(&str, &str)>
    ensures { option_map (λ parts. (parts.0.now, parts.1.now)) result ≡ end_named text.now }
{
    match parts_round(b'.', text) {
        Some((instance, interface)) if !instance.is_empty() && !interface.is_empty() => {
            Some((instance, interface))
        }
        _ => None,
    }
}
