ghost use Rattle.std.specs.Prelude.{◌≡◌, IsTrue, IfSome};
ghost use Rattle.iface_roles.specs.Properties.{property_row, is_of};
ghost use Rattle.iface_roles.specs.Roles.{role_row};

use iface_roles::{
    AgentPort, Finished, HostPort, Interface, Kind, PortDirection, Property, PropertyId as Id,
    Role, Side, SinkPort, SourcePort, Values, property_of, role_of,
};

/// The role of this name in interfaces of the kind.
fn named_role(kind: Kind, name: &str) -> Option<Role>
    ensures { IfSome result (λ role. (role_row role).kind ≡ kind) }
{
    role_of(kind, name)
}

/// The property of this name in interfaces of the kind, where it means something.
fn named_property(kind: Kind, name: &str) -> Option<Id>
    ensures { IfSome result (λ id. IsTrue (is_of (property_row id).kinds kind)) }
{
    match property_of(kind, name) {
        Property::Known(id) => Some(id),
        Property::PassedOver | Property::Unknown => None,
    }
}

/// An interface of ports as `<read:1`, an input, `>readdata:32`, an output, and `lock:1`, of both directions, and of
/// settings as `readLatency=1`. None where a word isn't one of these.
fn interface(kind: Kind, side: Side, ports: &str, settings: &str) -> Option<Interface> {
    let mut made = Interface::new(kind, side);
    for port in ports.split_whitespace() {
        let (head, width) = port.split_once(':')?;
        let (direction, name) = if let Some(name) = head.strip_prefix('<') {
            (PortDirection::Input, name)
        } else if let Some(name) = head.strip_prefix('>') {
            (PortDirection::Output, name)
        } else {
            (PortDirection::Bidir, head)
        };
        let role = named_role(kind, name)?;
        let width = width.parse::<u32>().ok()?;
        if !made.add_port(role, direction, width) {
            return None;
        }
    }
    for setting in settings.split_whitespace() {
        let (name, number) = setting.split_once('=')?;
        let number = number.parse::<u32>().ok()?;
        if !made.set(named_property(kind, name)?, number) {
            return None;
        }
    }
    Some(made)
}

/// Names, and the roles that they have in interfaces of a kind.
const ROLES: [(Kind, &str, Option<Role>); 10] = [
    (Kind::Mm, "address", Some(Role::Address)),
    (Kind::Mm, "WriteData", Some(Role::WriteData)),
    (
        Kind::Mm,
        "BEGINBURSTTRANSFER",
        Some(Role::BeginBurstTransfer),
    ),
    (Kind::Mm, "data", None),
    (Kind::Mm, "addres", None),
    (Kind::Mm, "", None),
    (Kind::Stream, "endOfPacket", Some(Role::EndOfPacket)),
    (Kind::Stream, "address", None),
    (Kind::Conduit, "ready", None),
    (Kind::Clock, "clk", None),
];

#[test]
fn roles_are_found_in_any_case(rt: HostRuntime) {
    let wrong = ROLES
        .iter()
        .position(|(kind, text, want)| role_of(*kind, text) != *want);
    assert_eq!(rt; wrong, None);
}

/// Names, and the properties that they have in interfaces of a kind.
const PROPERTIES: [(Kind, &str, Property); 16] = [
    (Kind::Mm, "addressUnits", Property::Known(Id::AddressUnits)),
    (Kind::Mm, "ADDRESSUNITS", Property::Known(Id::AddressUnits)),
    (Kind::Mm, "readWaitTime", Property::Known(Id::ReadWaitTime)),
    (
        Kind::Mm,
        "readWaitStates",
        Property::Known(Id::ReadWaitTime),
    ),
    (
        Kind::Mm,
        "writewaitstates",
        Property::Known(Id::WriteWaitTime),
    ),
    (Kind::Mm, "enabled", Property::Known(Id::Enabled)),
    (
        Kind::Mm,
        "associatedclock",
        Property::Known(Id::AssociatedClock),
    ),
    (Kind::Mm, "associatedReset", Property::PassedOver),
    (Kind::Mm, "readyLatency", Property::Unknown),
    (Kind::Mm, "ready", Property::Unknown),
    (
        Kind::Stream,
        "readyLatency",
        Property::Known(Id::ReadyLatency),
    ),
    (Kind::Stream, "ENABLED", Property::Known(Id::Enabled)),
    (Kind::Stream, "cmsis_svd_variables", Property::PassedOver),
    (Kind::Stream, "readLatency", Property::Unknown),
    (Kind::Clock, "clockRate", Property::PassedOver),
    (Kind::Interrupt, "readLatency", Property::PassedOver),
];

#[test]
fn properties_are_found_in_any_case(rt: HostRuntime) {
    let wrong = PROPERTIES
        .iter()
        .position(|(kind, text, want)| property_of(*kind, text) != *want);
    assert_eq!(rt; wrong, None);
}

/// Words, and what they say of a property.
const VALUES: [(Id, &str, Option<u32>); 10] = [
    (Id::IsBigEndian, "True", Some(1)),
    (Id::IsBigEndian, "0", Some(0)),
    (Id::IsBigEndian, "0x1", None),
    (Id::AddressUnits, "symbols", Some(1)),
    (Id::BurstCountUnits, "WORDS", Some(0)),
    (Id::BurstCountUnits, "0", None),
    (Id::TimingUnits, "nanoseconds", Some(1)),
    (Id::AddressAlignment, "Dynamic", Some(0)),
    (Id::ReadLatency, "1", None),
    (Id::AssociatedClock, "clk", None),
];

#[test]
fn words_have_their_numbers(rt: HostRuntime) {
    let wrong = VALUES
        .iter()
        .position(|(id, text, want)| id.values().number_of(text) != *want);
    assert_eq!(rt; wrong, None);
    assert!(rt; Id::ReadLatency.values() == Values::Number(0, 63));
}

#[test]
fn ports_stay_and_the_last_setting_counts(rt: HostRuntime) {
    let mut ram = Interface::new(Kind::Mm, Side::End);
    assert!(rt; ram.add_port(Role::Read, PortDirection::Input, 1));
    assert!(rt; ram.add_port(Role::ReadData, PortDirection::Output, 32));
    assert!(rt; !ram.add_port(Role::ReadData, PortDirection::Input, 8));
    assert!(rt; ram.set(Id::ReadLatency, 1));
    assert!(rt; ram.set(Id::ReadLatency, 63));
    assert!(rt; !ram.set(Id::ReadLatency, 64));
    assert!(rt; ram.set(Id::ReadWaitTime, 255));
    assert!(rt; !ram.set(Id::ReadWaitTime, 256));
    assert!(rt; ram.set(Id::AssociatedClock, 7));
    let want = AgentPort {
        address_bits: 0,
        byte_units: false,
        word_bytes: 4,
        reads: true,
        writes: false,
        enables: false,
        burst_bits: 0,
        readdatavalid: false,
        waitrequest: false,
        response: false,
        unsupported: false,
        write_response: false,
        allowance: 0,
        wraps: false,
        boundaries: false,
        read_latency: 63,
        read_wait: 255,
        write_wait: 0,
        pending: 0,
        setup_hold: false,
    };
    assert!(rt; ram.finish() == Ok(Finished::Agent(want)));
}

/// What an interface is finished as.
fn finished(kind: Kind, side: Side, ports: &str, settings: &str) -> Option<Result<Finished, u8>> {
    Some(interface(kind, side, ports, settings)?.finish())
}

#[test]
fn a_port_without_bits_is_refused(rt: HostRuntime) {
    let ports = "<read:1 >readdata:32 <address:0";
    assert!(rt; finished(Kind::Mm, Side::End, ports, "") == Some(Err(7)));
}

const HOST: HostPort = HostPort {
    address_bits: 20,
    byte_units: true,
    word_bytes: 4,
    reads: true,
    writes: false,
    enables: false,
    burst_bits: 0,
    readdatavalid: true,
    waitrequest: true,
    response: false,
    lock: false,
    write_response: false,
    allowance: 0,
    wraps: false,
};

const AGENT: AgentPort = AgentPort {
    address_bits: 3,
    byte_units: false,
    word_bytes: 2,
    reads: true,
    writes: true,
    enables: false,
    burst_bits: 0,
    readdatavalid: false,
    waitrequest: false,
    response: false,
    unsupported: false,
    write_response: false,
    allowance: 0,
    wraps: false,
    boundaries: false,
    read_latency: 0,
    read_wait: 1,
    write_wait: 0,
    pending: 0,
    setup_hold: false,
};

fn is_host(ports: &str, want: HostPort) -> bool {
    finished(Kind::Mm, Side::Start, ports, "") == Some(Ok(Finished::Host(want)))
}

fn is_agent(ports: &str, settings: &str, want: AgentPort) -> bool {
    finished(Kind::Mm, Side::End, ports, settings) == Some(Ok(Finished::Agent(want)))
}

/// The hosts for instructions and for data.
fn are_hosts() -> [bool; 2] {
    let instructions = ">address:20 >read:1 <waitrequest:1 <readdata:32 <readdatavalid:1";
    let data =
        ">address:20 >read:1 >write:1 >writedata:32 >byteenable:4 <waitrequest:1 <readdata:32 <readdatavalid:1 \
                >debugaccess:1";
    let data_host = HostPort {
        writes: true,
        enables: true,
        ..HOST
    };
    [is_host(instructions, HOST), is_host(data, data_host)]
}

/// The memory, the timer and the serial port.
fn are_agents() -> [bool; 3] {
    let large = "<address:14 <read:1 <write:1 <writedata:32 <byteenable:4 >readdata:32";
    let ram = AgentPort {
        address_bits: 14,
        word_bytes: 4,
        enables: true,
        read_latency: 1,
        read_wait: 0,
        ..AGENT
    };
    let small = "<address:3 <read:1 <write:1 <writedata:16 >readdata:16";
    let uart = AgentPort {
        write_wait: 1,
        ..AGENT
    };
    [
        is_agent(large, "readLatency=1 readWaitTime=0", ram),
        is_agent(small, "", AGENT),
        is_agent(small, "writeWaitStates=1", uart),
    ]
}

#[test]
fn the_desk_has_its_records(rt: HostRuntime) {
    assert_eq!(rt; are_hosts(), [true; 2]);
    assert_eq!(rt; are_agents(), [true; 3]);
}

const SOURCE: SourcePort = SourcePort {
    symbols: 1,
    symbol_bits: 8,
    first_high: true,
    ready: true,
    latency: 0,
    allowance: 0,
    channel_bits: 0,
    max_channel: 0,
    error_bits: 0,
    packets: true,
    empty_bits: 0,
};

const SINK: SinkPort = SinkPort {
    symbols: 1,
    symbol_bits: 8,
    first_high: true,
    ready: true,
    latency: 0,
    allowance: 0,
    channel_bits: 0,
    max_channel: 0,
    error_bits: 0,
    packets: true,
    empty_bits: 0,
};

fn is_source() -> bool {
    let ports = "<ready:1 >valid:1 >data:8 >startofpacket:1 >endofpacket:1";
    finished(Kind::Stream, Side::Start, ports, "") == Some(Ok(Finished::Source(SOURCE)))
}

/// Whether a sink of these settings has this latency and allowance.
fn is_sink(settings: &str, latency: u8, allowance: u8) -> bool {
    let ports = ">ready:1 <valid:1 <data:8 <startofpacket:1 <endofpacket:1";
    let want = SinkPort {
        latency,
        allowance,
        ..SINK
    };
    finished(Kind::Stream, Side::End, ports, settings) == Some(Ok(Finished::Sink(want)))
}

#[test]
fn streams_have_their_records(rt: HostRuntime) {
    let are = [
        is_source(),
        is_sink("", 0, 0),
        is_sink("readyAllowance=0 readyLatency=2", 2, 2),
        is_sink("readyAllowance=5 readyLatency=2", 2, 5),
    ];
    assert_eq!(rt; are, [true; 4]);
    let other = finished(Kind::Conduit, Side::Start, "", "");
    assert!(rt; other == Some(Ok(Finished::Other)));
}
