ghost use Rattle.std.specs.Prelude.{◌≡◌};
ghost use Rattle.system_scripts.specs.System.{late_checks, create_checks, exported_checks, export_checks, requirement_checks, connection_checks, instance_checks, parameter_checks, system_checks, is_mismatched, is_start};
ghost use Rattle.script_words.specs.Commands.{of_both};
ghost use Rattle.script_words.specs.Words.{refusal_of};

use super::SystemDraft;
use component_scripts::types::{Library, is_name};
use iface_roles::{Kind, Side};
use script_words::CommandRule::{
    Creation, Misplaced, Misread, NotAName, NotAnEnd, NotStated, OutOfRange, StreamTaken, Taken,
    UnknownKind, UnlikeEnds, WrongDirection,
};
use script_words::places::{
    COMMAND, add_connection, add_instance, add_interface, create_system,
    set_connection_parameter_value, set_interconnect_requirement, set_interface_property,
};
use script_words::system::commands::{
    any_default, any_exceeds, any_misplaced, any_misread, asks_other, asks_unknown, exports,
    has_sides, is_missing, is_no_joint, names_an_end, names_first, names_pair, names_second,
    parameter_named, second_word, sets_stages,
};
use script_words::system::joints::SystemCommand;
use script_words::values::{kind_named, number_of, same_kind};
use script_words::words::{check, is_misdirected, refusal_of, text};
use script_words::{Refusal, judge_package};
use tcl_words::Word;

impl SystemDraft {
    #[tactic(auto, unfolding(crate::specs::System::late_checks))]
    fn judge_late(&self, words: &[Word]) -> Option<Refusal>
        ensures { result ≡ refusal_of words.now (late_checks self.now) }
    {
        refusal_of(words, &[check(Creation, COMMAND, self.is_early())])
    }

    #[tactic(auto, unfolding(crate::specs::System::create_checks))]
    fn judge_create(&self, words: &[Word]) -> Option<Refusal>
        ensures { result ≡ refusal_of words.now (create_checks self.now words.now) }
    {
        refusal_of(
            words,
            &[
                check(
                    NotAName,
                    create_system::NAME,
                    words.len() > 1 && !is_name(text(words, create_system::NAME)),
                ),
                check(Creation, COMMAND, self.name.is_some()),
            ],
        )
    }

    #[tactic(auto, unfolding(crate::specs::System::exported_checks))]
    fn judge_exported(&self, words: &[Word]) -> Option<Refusal>
        ensures { result ≡ refusal_of words.now (exported_checks self.now words.now) }
    {
        let name = text(words, add_interface::NAME);
        refusal_of(
            words,
            &[
                check(NotAName, add_interface::NAME, !is_name(name)),
                check(
                    Taken,
                    add_interface::NAME,
                    self.exported.find(name).is_some(),
                ),
                check(
                    UnknownKind,
                    add_interface::KIND,
                    kind_named(text(words, add_interface::KIND)).is_none(),
                ),
                check(
                    WrongDirection,
                    add_interface::DIRECTION,
                    is_misdirected(words),
                ),
                check(Creation, COMMAND, self.is_early()),
            ],
        )
    }

    #[tactic(auto, unfolding(crate::specs::System::requirement_checks))]
    fn judge_requirement(&self, words: &[Word]) -> Option<Refusal>
        ensures { result ≡ refusal_of words.now (requirement_checks self.now words.now) }
    {
        let number = number_of(text(words, set_interconnect_requirement::VALUE));
        refusal_of(
            words,
            &[
                check(
                    Misread,
                    set_interconnect_requirement::VALUE,
                    sets_stages(words) && number.is_none(),
                ),
                check(
                    OutOfRange,
                    set_interconnect_requirement::VALUE,
                    sets_stages(words) && matches!(number, Some(stages) if 4 < stages),
                ),
                check(Creation, COMMAND, self.is_early()),
            ],
        )
    }

    #[tactic(auto, unfolding(crate::specs::System::connection_checks))]
    fn judge_connection(&self, library: &Library<'_>, words: &[Word]) -> Option<Refusal>
        ensures { result ≡ refusal_of words.now (connection_checks library.now self.now words.now) }
    {
        let start = self.first_end(library, words);
        let end = self.second_end(library, words);
        let second = second_word(words);
        refusal_of(
            words,
            &[
                check(Taken, COMMAND, self.is_joined(start, end)),
                check(
                    NotStated,
                    add_connection::START,
                    is_missing(names_first(words), start),
                ),
                check(NotStated, second, is_missing(names_second(words), end)),
                check(UnknownKind, add_connection::KIND, asks_unknown(words)),
                check(Creation, COMMAND, self.is_early()),
                check(
                    UnlikeEnds,
                    COMMAND,
                    is_mismatched(
                        words,
                        self.sort_of(library, start),
                        self.sort_of(library, end),
                    ),
                ),
                check(StreamTaken, COMMAND, self.is_any_taken(start, end)),
                check(NotAnEnd, add_connection::START, !names_first(words)),
                check(NotAnEnd, second, !names_second(words)),
            ],
        )
    }

    #[tactic(auto, unfolding(crate::specs::System::instance_checks))]
    fn judge_instance(&self, library: &Library<'_>, words: &[Word]) -> Option<Refusal>
        ensures { result ≡ refusal_of words.now (instance_checks library.now self.now words.now) }
    {
        let name = text(words, add_instance::NAME);
        refusal_of(
            words,
            &[
                check(NotAName, add_instance::NAME, !is_name(name)),
                check(
                    Taken,
                    add_instance::NAME,
                    self.instance_place(name).is_some(),
                ),
                check(
                    NotStated,
                    add_instance::TYPE,
                    library.find(text(words, add_instance::TYPE)).is_none(),
                ),
                check(Creation, COMMAND, self.is_early()),
            ],
        )
    }

    #[tactic(auto, unfolding(crate::specs::System::parameter_checks))]
    fn judge_parameter(&self, library: &Library<'_>, words: &[Word]) -> Option<Refusal>
        ensures { result ≡ refusal_of words.now (parameter_checks library.now self.now words.now) }
    {
        let pair = text(words, set_connection_parameter_value::PAIR);
        let kind = self.joint_kind(library, pair);
        let parameter = parameter_named(text(words, set_connection_parameter_value::PARAMETER));
        let value = text(words, set_connection_parameter_value::VALUE);
        refusal_of(
            words,
            &[
                check(
                    NotStated,
                    set_connection_parameter_value::PAIR,
                    is_no_joint(names_pair(pair), kind),
                ),
                check(
                    Misread,
                    set_connection_parameter_value::VALUE,
                    any_misread(value, kind, parameter),
                ),
                check(
                    OutOfRange,
                    set_connection_parameter_value::VALUE,
                    any_exceeds(value, kind, parameter),
                ),
                check(Creation, COMMAND, self.is_early()),
                check(
                    Misplaced,
                    set_connection_parameter_value::PARAMETER,
                    any_misplaced(kind, parameter),
                ),
                check(
                    Misplaced,
                    set_connection_parameter_value::VALUE,
                    any_default(value, kind, parameter),
                ),
                check(
                    NotAnEnd,
                    set_connection_parameter_value::PAIR,
                    !names_pair(pair),
                ),
            ],
        )
    }

    #[tactic(auto, unfolding(crate::specs::System::export_checks))]
    fn judge_export(&self, library: &Library<'_>, words: &[Word]) -> Option<Refusal>
        ensures { result ≡ refusal_of words.now (export_checks library.now self.now words.now) }
    {
        let value = text(words, set_interface_property::VALUE);
        let named = names_an_end(value);
        refusal_of(
            words,
            &[
                check(
                    NotStated,
                    set_interface_property::INTERFACE,
                    self.exported
                        .find(text(words, set_interface_property::INTERFACE))
                        .is_none(),
                ),
                check(
                    NotStated,
                    set_interface_property::VALUE,
                    exports(words) && is_missing(named, self.end_in_word(library, value)),
                ),
                check(Creation, COMMAND, self.is_early()),
                check(
                    NotAnEnd,
                    set_interface_property::VALUE,
                    exports(words) && !named,
                ),
            ],
        )
    }

    /// What refuses a command by its words, whose number is right.
    pub(super) fn judge(
        &self,
        command: SystemCommand,
        library: &Library<'_>,
        words: &[Word],
    ) -> Option<Refusal>
        ensures { result ≡ refusal_of words.now (system_checks command library.now self.now words.now) }
    {
        match command {
            SystemCommand::Package => judge_package(words),
            SystemCommand::CreateSystem => self.judge_create(words),
            SystemCommand::AddInstance => self.judge_instance(library, words),
            SystemCommand::AddConnection => self.judge_connection(library, words),
            SystemCommand::SetParameter => self.judge_parameter(library, words),
            SystemCommand::AddInterface => self.judge_exported(words),
            SystemCommand::SetInterfaceProperty => self.judge_export(library, words),
            SystemCommand::SetRequirement => self.judge_requirement(words),
            SystemCommand::SaveSystem | SystemCommand::PassedOver => self.judge_late(words),
        }
    }
}

/// Whether the two ends don't fit each other, or the kind word.
fn is_mismatched(words: &[Word], start: Option<(Kind, Side)>, end: Option<(Kind, Side)>) -> bool
    ensures { result ≡ of_both start end (is_mismatched words.now) }
{
    match (start, end) {
        (Some((kind, side)), Some((other, turn))) => {
            !same_kind(kind, other)
                || asks_other(words, kind)
                || (has_sides(kind) && (!is_start(side) || is_start(turn)))
        }
        _ => false,
    }
}

fn is_start(side: Side) -> bool
    ensures { result ≡ is_start side }
{
    matches!(side, Side::Start)
}
