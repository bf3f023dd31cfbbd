//! What a text breaks that is no module's.

ghost use Rattle.std.specs.Prelude.{◌≡◌};
ghost use Rattle.verilog_forms.specs.Rules.{number_of};

/// What a text breaks, or that it has no room for a net.
#[derive(Clone, Copy, Debug, PartialEq, Eq)]
pub enum Rule {
    /// A byte of a fixed part that differs, or the end of the text in its place.
    OtherByte,
    /// A malformed or repeated name, or another port than the next.
    Name,
    /// A width that isn't as the line asks.
    Width,
    /// A number or a constant that isn't spelled as it has to be, or a net or memory that isn't the next.
    Spelling,
    /// An operand whose number isn't smaller than the net's, or a memory that isn't there.
    NotThere,
    /// Bounds of a slice that aren't in the operand, or that have another length than the net.
    Bounds,
    /// A number of words that isn't a power of 2, from 2 to 1,024.
    Depth,
    /// A clocked line that isn't the next register's or memory's.
    Order,
    /// A byte after the last line feed.
    AfterEnd,
    /// The line of a net behind 2^20 nets.
    TooManyNets,
}

impl Rule {
    /// The number of the rule; none where there is no room for a net.
    pub fn number(self) -> Option<u8>
        ensures { result ≡ number_of self }
    {
        match self {
            Rule::OtherByte => Some(1),
            Rule::Name => Some(2),
            Rule::Width => Some(3),
            Rule::Spelling => Some(4),
            Rule::NotThere => Some(5),
            Rule::Bounds => Some(6),
            Rule::Depth => Some(7),
            Rule::Order => Some(8),
            Rule::AfterEnd => Some(9),
            Rule::TooManyNets => None,
        }
    }
}
