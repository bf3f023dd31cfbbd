//! The rules that the commands of scripts keep.

ghost use Rattle.std.specs.Prelude.{◌≡◌};
ghost use Rattle.script_words.specs.Rules.{rule_number};

/// What a command of a script breaks.
#[derive(Clone, Copy, Debug, PartialEq, Eq)]
pub enum CommandRule {
    /// C1: a command that isn't in the file's table.
    UnknownCommand,
    /// C2: a wrong number of words.
    WrongCount,
    /// C3: a new name that isn't spelled as a name.
    NotAName,
    /// C4: a name that another of its kind has, a role that the interface has, or a connection that is there.
    Taken,
    /// C5: an interface, an instance, a connection or a type that no line before it states.
    NotStated,
    /// C6: an unknown kind of interface.
    UnknownKind,
    /// C7: a direction that doesn't fit the kind, or that isn't one of a port.
    WrongDirection,
    /// C8: an unknown role.
    UnknownRole,
    /// C9: an unknown property.
    UnknownProperty,
    /// C10: a value that isn't a number, a truth value or a word as asked.
    Misread,
    /// C11: a value outside its range.
    OutOfRange,
    /// C12: `package` with other words than `require [-exact] qsys [VERSION]`.
    PackageWords,
    /// C13: a command before `create_system`, a second `create_system`, or none.
    Creation,
    /// C14: no `NAME` of a component, or a second one.
    TypeName,
    /// C15: a type that an earlier component has, or `clock_source`.
    TypeTaken,
    /// C16: ends that differ in kind, or a start and an end that aren't.
    UnlikeEnds,
    /// C17: an end of a stream that is connected already.
    StreamTaken,
    /// C18: a parameter that connections of the kind don't have.
    Misplaced,
    /// C19: a property of a port other than `VHDL_TYPE`.
    UnknownPortProperty,
    /// C20: a word that names no end, or no two ends.
    NotAnEnd,
}

impl CommandRule {
    /// The number of the rule, from 1 to 20.
    pub fn number(self) -> u8
        ensures { result ≡ rule_number self }
    {
        match self {
            CommandRule::UnknownCommand => 1,
            CommandRule::WrongCount => 2,
            CommandRule::NotAName => 3,
            CommandRule::Taken => 4,
            CommandRule::NotStated => 5,
            CommandRule::UnknownKind => 6,
            CommandRule::WrongDirection => 7,
            CommandRule::UnknownRole => 8,
            CommandRule::UnknownProperty => 9,
            CommandRule::Misread => 10,
            CommandRule::OutOfRange => 11,
            CommandRule::PackageWords => 12,
            CommandRule::Creation => 13,
            CommandRule::TypeName => 14,
            CommandRule::TypeTaken => 15,
            CommandRule::UnlikeEnds => 16,
            CommandRule::StreamTaken => 17,
            CommandRule::Misplaced => 18,
            CommandRule::UnknownPortProperty => 19,
            CommandRule::NotAnEnd => 20,
        }
    }
}
