ghost use Rattle.std.specs.Prelude.{◌≡◌, ◌↔◌, ◌<◌, IsTrue, find};
ghost use Rattle.std.specs.List.{list_any};
ghost use Rattle.iface_roles.specs.Kinds.{is_avalon};
ghost use Rattle.iface_roles.specs.Names.{same_name};
ghost use Rattle.iface_roles.specs.Properties.{
  row,
  row_also,
  property_row,
  all_properties,
  is_of,
  is_called,
  is_listed,
  least_of,
  greatest_of,
  fixed_default,
  which,
  number_of,
  IsKnownAs,
  IsPassedOver,
  IsInRange,
  IsRow,
};

use crate::kinds::{Kind, Side};
use crate::names::same_name;

/// A property of memory-mapped and streaming interfaces.
#[derive(Clone, Copy, PartialEq, Eq)]
pub enum PropertyId {
    AddressUnits,
    ReadLatency,
    ReadWaitTime,
    WriteWaitTime,
    MaximumPendingReadTransactions,
    WaitRequestAllowance,
    SetupTime,
    HoldTime,
    ExplicitAddressSpan,
    BitsPerSymbol,
    BurstCountUnits,
    TimingUnits,
    AddressAlignment,
    LinewrapBursts,
    BurstOnBurstBoundariesOnly,
    IsBigEndian,
    SymbolsPerBeat,
    DataBitsPerSymbol,
    FirstSymbolInHighOrderBits,
    MaxChannel,
    ReadyLatency,
    ReadyAllowance,
    BeatsPerCycle,
    EmptyWithinPacket,
    AssociatedClock,
    Enabled,
}

/// What a name of a property stands for in an interface of some kind.
#[derive(Clone, Copy, PartialEq, Eq)]
pub enum Property {
    Known(PropertyId),
    /// It may be set, to any value, and means nothing here.
    PassedOver,
    Unknown,
}

/// The kinds of interface that have a property.
#[derive(Clone, Copy)]
pub(crate) enum Kinds {
    OfMm,
    OfStream,
    OfBoth,
}

/// What a property is set to, and the numbers by which words are kept.
#[derive(Clone, Copy, PartialEq, Eq)]
pub enum Values {
    /// A number from the first to the second.
    Number(u32, u32),
    /// Any number.
    Any,
    /// `false` or `0` is 0, `true` or `1` is 1.
    Truth,
    /// `WORDS` is 0, `SYMBOLS` is 1.
    Units,
    /// `Cycles` is 0, `Nanoseconds` is 1.
    Time,
    /// `DYNAMIC` is 0, `NATIVE` is 1.
    Alignment,
    /// The name of a clock interface, which is not kept here.
    ClockName,
}

/// The number of the text among two words, without regard to the case of ASCII letters.
fn which(zero: &str, one: &str, text: &str) -> Option<u32>
    ensures { result ≡ which zero.now one.now text.now }
{
    if same_name(zero, text) {
        Some(0)
    } else if same_name(one, text) {
        Some(1)
    } else {
        None
    }
}

impl Values {
    /// The number of a truth value or of another word, without regard to the case of ASCII letters. None for any other
    /// text, and where the values are numbers or the name of a clock.
    pub fn number_of(self, text: &str) -> Option<u32>
        ensures { result ≡ number_of self text.now }
    {
        match self {
            Values::Truth => which("false", "true", text).or(which("0", "1", text)),
            Values::Units => which("WORDS", "SYMBOLS", text),
            Values::Time => which("Cycles", "Nanoseconds", text),
            Values::Alignment => which("DYNAMIC", "NATIVE", text),
            Values::Number(..) | Values::Any | Values::ClockName => None,
        }
    }

    fn least(self) -> u32
        ensures { result ≡ least_of self }
    {
        match self {
            Values::Number(low, _) => low,
            _ => 0,
        }
    }

    fn greatest(self) -> u32
        ensures { result ≡ greatest_of self }
    {
        match self {
            Values::Number(_, high) => high,
            Values::Any | Values::ClockName => u32::MAX,
            Values::Truth | Values::Units | Values::Time | Values::Alignment => 1,
        }
    }
}

/// The value of a property that isn't set.
#[derive(Clone, Copy)]
pub(crate) enum DefaultValue {
    Fixed(u32),
    /// At a start, and at an end.
    BySide(u32, u32),
    /// Another port or property decides it.
    Computed,
}

impl DefaultValue {
    /// The default at a side; 0 where it is computed.
    pub(crate) fn at(self, side: Side) -> u32
        ensures { result ≡ fixed_default self side }
    {
        match (self, side) {
            (DefaultValue::Fixed(number), _) => number,
            (DefaultValue::BySide(start, _), Side::Start) => start,
            (DefaultValue::BySide(_, end), Side::End) => end,
            (DefaultValue::Computed, _) => 0,
        }
    }
}

/// What is fixed of a property.
#[derive(Clone, Copy)]
pub(crate) struct Row {
    pub name: &'static str,
    /// The name itself where there is no other.
    pub synonym: &'static str,
    pub kinds: Kinds,
    pub values: Values,
    pub default: DefaultValue,
}

const fn named(name: &'static str, kinds: Kinds, values: Values, default: DefaultValue) -> Row
    ensures { IsRow result (row name.now kinds values default) }
{
    Row {
        name,
        synonym: name,
        kinds,
        values,
        default,
    }
}

const fn mm(name: &'static str, values: Values, default: DefaultValue) -> Row
    ensures { IsRow result (row name.now Kinds.OfMm values default) }
{
    named(name, Kinds::OfMm, values, default)
}

const fn stream(name: &'static str, values: Values, default: DefaultValue) -> Row
    ensures { IsRow result (row name.now Kinds.OfStream values default) }
{
    named(name, Kinds::OfStream, values, default)
}

impl Row {
    const fn also(self, synonym: &'static str) -> Row
        ensures { IsRow result
            (row_also self.name.now synonym.now self.kinds self.values self.default) }
    {
        Row { synonym, ..self }
    }
}

/// Names that may be set in every interface, and mean nothing here.
const PASSED_OVER: [&str; 25] = [
    "associatedReset",
    "EXPORT_OF",
    "PORT_NAME_MAP",
    "CMSIS_SVD_VARIABLES",
    "SVD_ADDRESS_GROUP",
    "IPXACT_REGISTER_MAP_VARIABLES",
    "errorDescriptor",
    "maximumPendingWriteTransactions",
    "alwaysBurstMaxBurst",
    "constantBurstBehavior",
    "interleaveBursts",
    "bridgesToMaster",
    "bridgedAddressOffset",
    "addressGroup",
    "isFlash",
    "isMemoryDevice",
    "isNonVolatileStorage",
    "printableDevice",
    "registerIncomingSignals",
    "registerOutgoingSignals",
    "doStreamReads",
    "doStreamWrites",
    "minimumResponseLatency",
    "minimumReadLatency",
    "maxAddressWidth",
];

impl PropertyId {
    ghost use Rattle.iface_roles.specs.Held.{property_place};

    pub(crate) const ALL: [PropertyId; 26] = [
        PropertyId::AddressUnits,
        PropertyId::ReadLatency,
        PropertyId::ReadWaitTime,
        PropertyId::WriteWaitTime,
        PropertyId::MaximumPendingReadTransactions,
        PropertyId::WaitRequestAllowance,
        PropertyId::SetupTime,
        PropertyId::HoldTime,
        PropertyId::ExplicitAddressSpan,
        PropertyId::BitsPerSymbol,
        PropertyId::BurstCountUnits,
        PropertyId::TimingUnits,
        PropertyId::AddressAlignment,
        PropertyId::LinewrapBursts,
        PropertyId::BurstOnBurstBoundariesOnly,
        PropertyId::IsBigEndian,
        PropertyId::SymbolsPerBeat,
        PropertyId::DataBitsPerSymbol,
        PropertyId::FirstSymbolInHighOrderBits,
        PropertyId::MaxChannel,
        PropertyId::ReadyLatency,
        PropertyId::ReadyAllowance,
        PropertyId::BeatsPerCycle,
        PropertyId::EmptyWithinPacket,
        PropertyId::AssociatedClock,
        PropertyId::Enabled,
    ];

    /// The table of properties.
    pub(crate) fn row(self) -> Row
        ensures { IsRow result (property_row self) }
    {
        use DefaultValue::{BySide, Computed, Fixed};
        use Kinds::OfBoth;
        use PropertyId::*;
        use Values::{Alignment, Any, ClockName, Number, Time, Truth, Units};
        match self {
            AddressUnits => mm("addressUnits", Units, BySide(1, 0)),
            ReadLatency => mm("readLatency", Number(0, 63), Fixed(0)),
            ReadWaitTime => mm("readWaitTime", Number(0, 255), Fixed(1)).also("readWaitStates"),
            WriteWaitTime => mm("writeWaitTime", Number(0, 255), Fixed(0)).also("writeWaitStates"),
            MaximumPendingReadTransactions => mm(
                "maximumPendingReadTransactions",
                Number(0, 64),
                Fixed(0),
            ),
            WaitRequestAllowance => mm("waitrequestAllowance", Any, Fixed(0)),
            SetupTime => mm("setupTime", Any, Fixed(0)),
            HoldTime => mm("holdTime", Any, Fixed(0)),
            ExplicitAddressSpan => mm("explicitAddressSpan", Any, Fixed(0)),
            BitsPerSymbol => mm("bitsPerSymbol", Any, Fixed(8)),
            BurstCountUnits => mm("burstcountUnits", Units, Fixed(0)),
            TimingUnits => mm("timingUnits", Time, Fixed(0)),
            AddressAlignment => mm("addressAlignment", Alignment, Fixed(0)),
            LinewrapBursts => mm("linewrapBursts", Truth, Fixed(0)),
            BurstOnBurstBoundariesOnly => mm("burstOnBurstBoundariesOnly", Truth, Fixed(0)),
            IsBigEndian => mm("isBigEndian", Truth, Fixed(0)),
            SymbolsPerBeat => stream("symbolsPerBeat", Number(1, 32), Computed),
            DataBitsPerSymbol => stream("dataBitsPerSymbol", Number(1, 512), Fixed(8)),
            FirstSymbolInHighOrderBits => stream("firstSymbolInHighOrderBits", Truth, Fixed(1)),
            MaxChannel => stream("maxChannel", Any, Fixed(0)),
            ReadyLatency => stream("readyLatency", Number(0, 63), Fixed(0)),
            ReadyAllowance => stream("readyAllowance", Number(0, 63), Computed),
            BeatsPerCycle => stream("beatsPerCycle", Any, Fixed(1)),
            EmptyWithinPacket => stream("emptyWithinPacket", Truth, Fixed(0)),
            AssociatedClock => named("associatedClock", OfBoth, ClockName, Fixed(0)),
            Enabled => named("ENABLED", OfBoth, Truth, Fixed(1)),
        }
    }

    /// What the property is set to.
    pub fn values(self) -> Values
        ensures { result ≡ (property_row self).values }
    {
        self.row().values
    }

    /// The place of the property's row in the table.
    pub(crate) fn place(self) -> usize
        ensures value { result ≡ property_place self }
        ensures in_table { result < 26 }
    {
        self as usize
    }

    /// Whether the number is within the property's range.
    pub(crate) fn allows(self, number: u32) -> bool
        ensures { IsTrue result ↔ IsInRange self number }
    {
        let values = self.row().values;
        values.least() <= number && number <= values.greatest()
    }

    fn is_called(self, text: &str) -> bool
        ensures { result ≡ is_called self text.now }
    {
        let row = self.row();
        same_name(row.name, text) || same_name(row.synonym, text)
    }

    /// Whether interfaces of the kind have the property.
    pub(crate) fn is_of(self, kind: Kind) -> bool
        ensures { result ≡ is_of (property_row self).kinds kind }
    {
        match self.row().kinds {
            Kinds::OfMm => kind == Kind::Mm,
            Kinds::OfStream => kind == Kind::Stream,
            Kinds::OfBoth => kind.is_avalon(),
        }
    }
}

fn find_called(text: &str) -> Option<PropertyId>
    ensures { result ≡ find (λ id. is_called id text.now) all_properties }
{
    PropertyId::ALL
        .iter()
        .copied()
        .find(|id| id.is_called(text))
}

fn is_among(names: &[&str], text: &str) -> bool
    ensures { result ≡ list_any (λ name. same_name name.now text.now) names.now }
{
    names.iter().any(|name| same_name(name, text))
}

fn is_listed(text: &str) -> bool
    ensures { result ≡ is_listed text.now }
{
    is_among(&PASSED_OVER, text)
}

/// What `text` names in interfaces of `kind`, without regard to the case of ASCII letters.
pub fn property_of(kind: Kind, text: &str) -> Property
    ensures known { (id : PropertyId) → (result ≡ Property.Known id) ↔ IsKnownAs kind id text.now }
    ensures passed_over { (result ≡ Property.PassedOver) ↔ IsPassedOver kind text.now }
{
    if !kind.is_avalon() || is_listed(text) {
        return Property::PassedOver;
    }
    match find_called(text) {
        Some(id) if id.is_of(kind) => Property::Known(id),
        _ => Property::Unknown,
    }
}
