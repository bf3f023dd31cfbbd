ghost use Rattle.std.specs.Prelude.{◌≡◌, ◌↔◌, ◌<◌, IsTrue, find};
ghost use Rattle.iface_roles.specs.Names.{same_name};
ghost use Rattle.iface_roles.specs.Roles.{row, role_row, all_roles, IsNamed, IsRow};

use crate::kinds::Kind;
use crate::names::same_name;

/// What a port of a memory-mapped or a streaming interface is for. The order is that of the ports in a header.
#[derive(Clone, Copy, PartialEq, Eq)]
pub enum Role {
    Address,
    Read,
    Write,
    WriteData,
    ByteEnable,
    BurstCount,
    WaitRequest,
    ReadData,
    ReadDataValid,
    Response,
    WriteResponseValid,
    Lock,
    DebugAccess,
    BeginBurstTransfer,
    Ready,
    Valid,
    Data,
    Channel,
    Error,
    StartOfPacket,
    EndOfPacket,
    Empty,
}

/// The side that drives a port.
#[derive(Clone, Copy)]
pub(crate) enum Driver {
    ByStart,
    ByEnd,
    ByEither,
}

/// The widths that a port may have.
#[derive(Clone, Copy)]
pub(crate) enum Widths {
    /// From the first number to the second.
    Between(u32, u32),
    /// 8, 16, 32, 64 or 128 bits.
    Word,
    /// A bit for each byte of the word.
    Lanes,
    /// The symbols of a beat times their bits.
    Symbols,
    /// Enough bits to count the symbols of a beat, and at most 8.
    EmptySymbols,
    AnyWidth,
}

/// What is fixed of a role.
#[derive(Clone, Copy)]
pub(crate) struct Row {
    pub name: &'static str,
    pub kind: Kind,
    pub driver: Driver,
    pub widths: Widths,
}

const fn mm(name: &'static str, driver: Driver, widths: Widths) -> Row
    ensures { IsRow result (row name.now Kind.Mm driver widths) }
{
    Row {
        name,
        kind: Kind::Mm,
        driver,
        widths,
    }
}

const fn stream(name: &'static str, driver: Driver, widths: Widths) -> Row
    ensures { IsRow result (row name.now Kind.Stream driver widths) }
{
    Row {
        name,
        kind: Kind::Stream,
        driver,
        widths,
    }
}

impl Role {
    ghost use Rattle.iface_roles.specs.Held.{role_place};

    pub(crate) const ALL: [Role; 22] = [
        Role::Address,
        Role::Read,
        Role::Write,
        Role::WriteData,
        Role::ByteEnable,
        Role::BurstCount,
        Role::WaitRequest,
        Role::ReadData,
        Role::ReadDataValid,
        Role::Response,
        Role::WriteResponseValid,
        Role::Lock,
        Role::DebugAccess,
        Role::BeginBurstTransfer,
        Role::Ready,
        Role::Valid,
        Role::Data,
        Role::Channel,
        Role::Error,
        Role::StartOfPacket,
        Role::EndOfPacket,
        Role::Empty,
    ];

    /// The table of roles.
    pub(crate) fn row(self) -> Row
        ensures { IsRow result (role_row self) }
    {
        use Driver::{ByEither, ByEnd, ByStart};
        use Widths::{AnyWidth, Between, EmptySymbols, Lanes, Symbols, Word};
        match self {
            Role::Address => mm("address", ByStart, Between(1, 32)),
            Role::Read => mm("read", ByStart, Between(1, 1)),
            Role::Write => mm("write", ByStart, Between(1, 1)),
            Role::WriteData => mm("writedata", ByStart, Word),
            Role::ByteEnable => mm("byteenable", ByStart, Lanes),
            Role::BurstCount => mm("burstcount", ByStart, Between(1, 11)),
            Role::WaitRequest => mm("waitrequest", ByEnd, Between(1, 1)),
            Role::ReadData => mm("readdata", ByEnd, Word),
            Role::ReadDataValid => mm("readdatavalid", ByEnd, Between(1, 1)),
            Role::Response => mm("response", ByEnd, Between(2, 2)),
            Role::WriteResponseValid => mm("writeresponsevalid", ByEither, AnyWidth),
            Role::Lock => mm("lock", ByEither, AnyWidth),
            Role::DebugAccess => mm("debugaccess", ByEither, AnyWidth),
            Role::BeginBurstTransfer => mm("beginbursttransfer", ByEither, AnyWidth),
            Role::Ready => stream("ready", ByEnd, Between(1, 1)),
            Role::Valid => stream("valid", ByStart, Between(1, 1)),
            Role::Data => stream("data", ByStart, Symbols),
            Role::Channel => stream("channel", ByStart, Between(1, 16)),
            Role::Error => stream("error", ByStart, Between(1, 32)),
            Role::StartOfPacket => stream("startofpacket", ByStart, Between(1, 1)),
            Role::EndOfPacket => stream("endofpacket", ByStart, Between(1, 1)),
            Role::Empty => stream("empty", ByStart, EmptySymbols),
        }
    }

    /// The place of the role's row in the table.
    pub(crate) fn place(self) -> usize
        ensures value { result ≡ role_place self }
        ensures in_table { result < 22 }
    {
        self as usize
    }

    /// Whether interfaces of the kind have the role.
    pub(crate) fn is_of(self, kind: Kind) -> bool
        ensures { IsTrue result ↔ ((role_row self).kind ≡ kind) }
    {
        self.row().kind == kind
    }

    fn is_named(self, text: &str) -> bool
        ensures { result ≡ same_name (role_row self).name text.now }
    {
        same_name(self.row().name, text)
    }
}

fn find_named(text: &str) -> Option<Role>
    ensures { result ≡ find (λ role. same_name (role_row role).name text.now) all_roles }
{
    Role::ALL.iter().copied().find(|role| role.is_named(text))
}

/// The role that `text` names in interfaces of `kind`, without regard to the case of ASCII letters.
/// Clock, reset, conduit and interrupt interfaces have none.
pub fn role_of(kind: Kind, text: &str) -> Option<Role>
    ensures { (role : Role) → (result ≡ Some role) ↔ IsNamed kind role text.now }
{
    let role = find_named(text)?;
    role.is_of(kind).then_some(role)
}
