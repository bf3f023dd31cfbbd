ghost use Rattle.std.specs.Prelude.{◌≡◌, ◌&&◌, option_map, is_some, is_none};
ghost use Rattle.script_words.specs.Kinds.{kind_named};
ghost use Rattle.script_words.specs.Names.{end_named};
ghost use Rattle.script_words.specs.Words.{text_at};
ghost use Rattle.std.specs.List.{list_any};
ghost use Rattle.std.specs.Str.{bytes_eq};
ghost use Rattle.script_words.specs.Commands.{later_command, system_command, system_passed_over, system_takes, pair_named, first_named, second_named, second_word, in_one_word, has_word, of_both, asks_other, parameter_named, is_number, may_be, is_misplaced, asks_default, misreads, exceeds, exports, sets_stages, has_sides};

use crate::places::{add_connection, set_interconnect_requirement, set_interface_property};
use crate::system::joints::{Parameter, SystemCommand, Terminal};
use crate::values::{
    end_named, is_among, kind_named, number_of, parts_round, same_kind, same_name, same_text,
};
use crate::words::text;
use iface_roles::Kind;
use tcl_words::Word;

/// Commands that state nothing here.
const PASSED_OVER: [&str; 6] = [
    "set_project_property",
    "set_validation_property",
    "set_instance_parameter_value",
    "set_instance_property",
    "set_module_property",
    "set_use_testbench_naming_pattern",
];

fn is_passed_over(name: &str) -> bool
    ensures { result ≡ list_any (bytes_eq name.now) system_passed_over }
{
    is_among(name, &PASSED_OVER)
}

/// The command of this name among those that follow the connections, and those that state nothing.
#[tactic(auto, unfolding(crate::specs::Commands::later_command))]
fn later_command(name: &str) -> Option<SystemCommand>
    ensures { result ≡ later_command name.now }
{
    if same_text(name, "add_interface") {
        Some(SystemCommand::AddInterface)
    } else if same_text(name, "set_interface_property") {
        Some(SystemCommand::SetInterfaceProperty)
    } else if same_text(name, "set_interconnect_requirement") {
        Some(SystemCommand::SetRequirement)
    } else if same_text(name, "save_system") {
        Some(SystemCommand::SaveSystem)
    } else if is_passed_over(name) {
        Some(SystemCommand::PassedOver)
    } else {
        None
    }
}

/// The command of this name in a system file.
#[tactic(auto, unfolding(crate::specs::Commands::system_command))]
pub fn system_command(name: &str) -> Option<SystemCommand>
    ensures { result ≡ system_command name.now }
{
    if same_text(name, "package") {
        Some(SystemCommand::Package)
    } else if same_text(name, "create_system") {
        Some(SystemCommand::CreateSystem)
    } else if same_text(name, "add_instance") {
        Some(SystemCommand::AddInstance)
    } else if same_text(name, "add_connection") {
        Some(SystemCommand::AddConnection)
    } else if same_text(name, "set_connection_parameter_value") {
        Some(SystemCommand::SetParameter)
    } else {
        later_command(name)
    }
}

/// Whether the command may have so many words behind its name.
#[tactic(auto, unfolding(crate::specs::Commands::system_takes))]
pub fn system_takes(command: SystemCommand, count: usize) -> bool
    ensures { result ≡ system_takes command count }
{
    match command {
        SystemCommand::Package => 2 <= count && count <= 4,
        SystemCommand::CreateSystem => count <= 1,
        SystemCommand::AddInstance => 2 <= count && count <= 3,
        SystemCommand::AddConnection => 1 <= count && count <= 3,
        SystemCommand::SetParameter => count == 3,
        SystemCommand::AddInterface => count == 3,
        SystemCommand::SetInterfaceProperty => count == 3,
        SystemCommand::SetRequirement => count == 3,
        SystemCommand::SaveSystem => count <= 1,
        SystemCommand::PassedOver => true,
    }
}

/// The parameter of this name.
#[tactic(auto, unfolding(crate::specs::Commands::parameter_named))]
pub fn parameter_named(name: &str) -> Option<Parameter>
    ensures { result ≡ parameter_named name.now }
{
    if same_text(name, "baseAddress") {
        Some(Parameter::BaseAddress)
    } else if same_text(name, "arbitrationPriority") {
        Some(Parameter::ArbitrationPriority)
    } else if same_text(name, "fifoDepth") {
        Some(Parameter::FifoDepth)
    } else if same_text(name, "defaultConnection") {
        Some(Parameter::DefaultConnection)
    } else {
        None
    }
}

fn is_number(parameter: Parameter) -> bool
    ensures { result ≡ is_number parameter }
{
    !matches!(parameter, Parameter::DefaultConnection)
}

/// Whether the number is within the parameter's range.
fn may_be(parameter: Parameter, number: u32) -> bool
    ensures { result ≡ may_be parameter number }
{
    match parameter {
        Parameter::BaseAddress | Parameter::DefaultConnection => true,
        Parameter::ArbitrationPriority => 1 <= number && number <= 63,
        Parameter::FifoDepth => number <= 64,
    }
}

/// Whether the parameter stands on a wrong kind of connection.
fn is_misplaced(kind: Kind, parameter: Parameter) -> bool
    ensures { result ≡ is_misplaced kind parameter }
{
    match kind {
        Kind::Stream => matches!(
            parameter,
            Parameter::BaseAddress | Parameter::ArbitrationPriority
        ),
        Kind::Mm => matches!(parameter, Parameter::FifoDepth),
        _ => false,
    }
}

/// Whether a default connection of a host is asked for.
fn asks_default(kind: Kind, parameter: Parameter, value: &str) -> bool
    ensures { result ≡ asks_default kind parameter value.now }
{
    match (kind, parameter) {
        (Kind::Mm, Parameter::DefaultConnection) => !(same_text(value, "0")
            || same_text(value, "false")),
        _ => false,
    }
}

/// Whether a value isn't a number as the parameter asks for it.
fn misreads(value: &str, kind: Kind, parameter: Parameter) -> bool
    ensures { result ≡ misreads value.now kind parameter }
{
    kind.is_avalon() && is_number(parameter) && number_of(value).is_none()
}

/// Whether a number is outside the parameter's range.
fn exceeds(value: &str, kind: Kind, parameter: Parameter) -> bool
    ensures { result ≡ exceeds value.now kind parameter }
{
    kind.is_avalon()
        && is_number(parameter)
        && match number_of(value) {
            Some(number) => !may_be(parameter, number),
            None => false,
        }
}

/// Whether an interface of the system is set to that of an instance (`EXPORT_OF`).
pub fn exports(words: &[Word]) -> bool
    ensures { result ≡ exports words.now }
{
    same_name("EXPORT_OF", text(words, set_interface_property::PROPERTY))
}

/// Whether the pipeline stages of all agents are set (`$system qsys_mm.maxAdditionalLatency`).
pub fn sets_stages(words: &[Word]) -> bool
    ensures { result ≡ sets_stages words.now }
{
    same_text(
        text(words, set_interconnect_requirement::ELEMENT),
        "$system",
    ) && same_text(
        text(words, set_interconnect_requirement::REQUIREMENT),
        "qsys_mm.maxAdditionalLatency",
    )
}

/// Whether a connection of the kind leads from a start to an end that are judged here.
pub fn has_sides(kind: Kind) -> bool
    ensures { result ≡ has_sides kind }
{
    matches!(kind, Kind::Clock | Kind::Mm | Kind::Stream)
}

/// Whether both ends stand in one word, `start/end`.
pub fn in_one_word(words: &[Word]) -> bool
    ensures { result ≡ in_one_word words.now }
{
    words.len() <= 2
}

/// The names of the two ends in one word `start/end`.
#[tactic(auto, unfolding(crate::specs::Commands::pair_named))]
pub fn pair_named(text: &str) -> Option<((&str, &str), (&str, &str))>
    ensures { option_map (λ pair. ((pair.0.0.now, pair.0.1.now), (pair.1.0.now, pair.1.1.now))) result
        ≡ pair_named text.now }
{
    let (front, rest) = parts_round(b'/', text)?;
    let start = end_named(front)?;
    let end = end_named(rest)?;
    Some((start, end))
}

/// The names of a connection's first end.
#[tactic(auto, unfolding(crate::specs::Commands::first_named))]
pub fn first_named(words: &[Word]) -> Option<(&str, &str)>
    ensures { option_map (λ names. (names.0.now, names.1.now)) result ≡ first_named words.now }
{
    if in_one_word(words) {
        let (start, _) = pair_named(text(words, add_connection::PAIR))?;
        return Some(start);
    }
    end_named(text(words, add_connection::START))
}

/// The names of a connection's second end.
#[tactic(auto, unfolding(crate::specs::Commands::second_named))]
pub fn second_named(words: &[Word]) -> Option<(&str, &str)>
    ensures { option_map (λ names. (names.0.now, names.1.now)) result ≡ second_named words.now }
{
    if in_one_word(words) {
        let (_, end) = pair_named(text(words, add_connection::PAIR))?;
        return Some(end);
    }
    end_named(text(words, add_connection::END))
}

/// The word of a connection's second end.
#[tactic(auto, unfolding(crate::specs::Commands::second_word))]
pub fn second_word(words: &[Word]) -> usize
    ensures { result ≡ second_word words.now }
{
    if in_one_word(words) {
        add_connection::PAIR
    } else {
        add_connection::END
    }
}

/// Whether the first end is spelled `instance.interface`.
pub fn names_first(words: &[Word]) -> bool
    ensures { result ≡ is_some (first_named words.now) }
{
    first_named(words).is_some()
}

/// Whether the second end is spelled so.
pub fn names_second(words: &[Word]) -> bool
    ensures { result ≡ is_some (second_named words.now) }
{
    second_named(words).is_some()
}

/// Whether the word is spelled so.
pub fn names_an_end(word: &str) -> bool
    ensures { result ≡ is_some (end_named word.now) }
{
    end_named(word).is_some()
}

/// Whether the kind word names another kind.
#[tactic(auto, unfolding(crate::specs::Commands::asks_other))]
pub fn asks_other(words: &[Word], kind: Kind) -> bool
    ensures { result ≡ asks_other words.now kind }
{
    words.len() > 3
        && match kind_named(text(words, add_connection::KIND)) {
            Some(asked) => !same_kind(asked, kind),
            None => false,
        }
}

/// Whether a kind word names no kind.
pub fn asks_unknown(words: &[Word]) -> bool
    ensures { result ≡ (has_word words.now 3 && is_none (kind_named (text_at words.now 3))) }
{
    words.len() > 3 && kind_named(text(words, add_connection::KIND)).is_none()
}

/// Whether an end is named, and isn't there.
pub fn is_missing(named: bool, end: Option<Terminal>) -> bool
    ensures { result ≡ (named && is_none end) }
{
    named && end.is_none()
}

/// Whether a connection is named, and isn't there.
pub fn is_no_joint(named: bool, kind: Option<Kind>) -> bool
    ensures { result ≡ (named && is_none kind) }
{
    named && kind.is_none()
}

/// Whether the word spells two ends with `/` between them.
pub fn names_pair(text: &str) -> bool
    ensures { result ≡ is_some (pair_named text.now) }
{
    pair_named(text).is_some()
}

/// Whether the connection and its parameter are there, and the value isn't a number as the parameter asks for it.
pub fn any_misread(value: &str, kind: Option<Kind>, parameter: Option<Parameter>) -> bool
    ensures { result ≡ of_both kind parameter (misreads value.now) }
{
    match (kind, parameter) {
        (Some(kind), Some(parameter)) => misreads(value, kind, parameter),
        _ => false,
    }
}

/// Whether they are there, and the number is outside the parameter's range.
pub fn any_exceeds(value: &str, kind: Option<Kind>, parameter: Option<Parameter>) -> bool
    ensures { result ≡ of_both kind parameter (exceeds value.now) }
{
    match (kind, parameter) {
        (Some(kind), Some(parameter)) => exceeds(value, kind, parameter),
        _ => false,
    }
}

/// Whether they are there, and the parameter stands on a wrong kind of connection.
pub fn any_misplaced(kind: Option<Kind>, parameter: Option<Parameter>) -> bool
    ensures { result ≡ of_both kind parameter is_misplaced }
{
    match (kind, parameter) {
        (Some(kind), Some(parameter)) => is_misplaced(kind, parameter),
        _ => false,
    }
}

/// Whether they are there, and a default connection of a host is asked for.
pub fn any_default(value: &str, kind: Option<Kind>, parameter: Option<Parameter>) -> bool
    ensures { result ≡ of_both kind parameter (λ k p. asks_default k p value.now) }
{
    match (kind, parameter) {
        (Some(kind), Some(parameter)) => asks_default(kind, parameter, value),
        _ => false,
    }
}
