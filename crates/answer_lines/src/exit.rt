ghost use Rattle.std.specs.Prelude.{◌≡◌, codes, decimal, ◌++◌};
ghost use Rattle.answer_lines.specs.Lines.{status_of, line_of, script_line, link_line, limit_line, verilog_line, scenario_line, dump_line, packet_line};

use av_base::lines::Line;
use av_base::{NoMemory, Place};
use link_rules::LinkRule;
use script_words::ScriptRule;
use system_plan::Refusal;

/// The rule that a line of inputs breaks, by its number.
#[derive(Clone, Copy, Debug, PartialEq, Eq)]
pub enum StepRule {
    /// Of scenarios.
    Scenario(u8),
    /// Of waves.
    Waves(u8),
}

/// What a run answers.
#[derive(Clone, Copy, Debug, PartialEq, Eq)]
pub enum Exit {
    /// The result is written.
    Done,
    /// The words have no reading.
    Usage,
    /// A file could not be read. `file` is the place of its word, from 0.
    ReadFault {
        file: u32,
    },
    /// The result could not be written whole.
    WriteFault,
    /// A script breaks a rule.
    ScriptRefused {
        place: Place,
        rule: ScriptRule,
    },
    /// A rule refuses the connection of this number; `other` is the earlier one that is in its way.
    LinkRefused {
        connection: u32,
        rule: LinkRule,
        other: Option<u32>,
    },
    /// There is more of something than is handled: 1 for hosts, 2 for agents, 3 for streams, 4 for the nets of a text, 5 for the
    /// bytes of a file, 6 for the values of nets in all cycles together, 7 for the number of files. In a replay those values are
    /// cycles times the nets of the text, in a simulation cycles times the weight of the plan.
    Limit {
        which: u8,
        count: u64,
    },
    /// A Verilog text breaks the rule of this number at this byte, from 0.
    VerilogRefused {
        byte: u64,
        rule: u8,
    },
    /// A scenario or waves break a rule at this line, from 1. `file` is the place of its word, from 0.
    ScenarioRefused {
        file: u32,
        line: u32,
        rule: StepRule,
    },
    /// A value change dump breaks the rule of this number at this byte, from 0.
    DumpRefused {
        byte: u64,
        rule: u8,
    },
    /// Transactions break the rule of this number at this byte, from 0.
    PacketRefused {
        byte: u64,
        rule: u8,
    },
    /// Memory was wanted and not had.
    NoMemory,
}

impl From<NoMemory> for Exit {
    ghost use Rattle.answer_lines.specs.declared.exit.Exit.TheVariants.{NoMemory as NoRoom};

    ghost from_gives = { λ _ exit. exit ≡ NoRoom };

    fn from(_e: NoMemory) -> Exit {
        Exit::NoMemory
    }
}

impl From<Refusal> for Exit {
    ghost use Rattle.answer_lines.specs.Lines.{exit_of};

    ghost from_gives = { λ refusal exit. exit ≡ exit_of refusal };

    fn from(refusal: Refusal) -> Exit {
        match refusal {
            Refusal::Script { place, rule } => Exit::ScriptRefused { place, rule },
            Refusal::Link {
                connection,
                rule,
                other,
            } => Exit::LinkRefused {
                connection,
                rule,
                other,
            },
            Refusal::Limit { which, count } => Exit::Limit { which, count },
            Refusal::NoMemory => Exit::NoMemory,
        }
    }
}

impl Exit {
    /// The status that the program ends with.
    pub fn status(&self) -> u8
        ensures { result ≡ status_of self.now }
    {
        match self {
            Exit::Done => 0,
            Exit::Usage => 2,
            Exit::ReadFault { .. } => 3,
            Exit::WriteFault => 4,
            Exit::ScriptRefused { .. } => 5,
            Exit::LinkRefused { .. } => 6,
            Exit::Limit { .. } => 7,
            Exit::VerilogRefused { .. } => 8,
            Exit::ScenarioRefused { .. } => 9,
            Exit::NoMemory => 10,
            Exit::DumpRefused { .. } => 11,
            Exit::PacketRefused { .. } => 12,
        }
    }

    /// The line that is written in place of a result.
    pub fn line(&self) -> Line
        ensures { result ≡ line_of self.now }
    {
        match *self {
            Exit::Done | Exit::WriteFault => Line::new(),
            Exit::Usage => Line::of(
                b"usage: generate|check SYSTEM COMPONENT.. | simulate SYSTEM SCENARIO COMPONENT.. | replay VERILOG WAVES | campaign NUMBER SYSTEM COMPONENT.. | workload NUMBER | dump VERILOG WAVES | undump DUMP | bridge NUMBER SYSTEM BYTES COMPONENT.. | mux|demux NUMBER NUMBER NUMBER | gather NUMBER NUMBER NUMBER NUMBER\n",
            ),
            Exit::ReadFault { file } => read_line(file),
            Exit::ScriptRefused { place, rule } => script_refused(place, rule),
            Exit::LinkRefused {
                connection,
                rule,
                other,
            } => link_refused(connection, rule, other),
            Exit::Limit { which, count } => limit(which, count),
            Exit::VerilogRefused { byte, rule } => verilog_refused(byte, rule),
            Exit::ScenarioRefused { file, line, rule } => scenario_refused(file, line, rule),
            Exit::DumpRefused { byte, rule } => dump_refused(byte, rule),
            Exit::PacketRefused { byte, rule } => packet_refused(byte, rule),
            Exit::NoMemory => Line::of(b"no memory\n"),
        }
    }
}

fn read_line(file: u32) -> Line
    ensures { result ≡ codes "read fault: file " ++ decimal file ++ codes "\n" }
{
    let mut line = Line::new();
    line.put_part(b"read fault: file ", u64::from(file));
    line.put(b"\n");
    line
}

fn script_refused(place: Place, rule: ScriptRule) -> Line
    ensures { result ≡ script_line place rule }
{
    let mut line = Line::new();
    line.put_part(b"script refused: file ", u64::from(place.file));
    line.put_part(b" line ", u64::from(place.line));
    line.put_part(b" byte ", place.byte);
    let (letter, number) = match rule {
        ScriptRule::Words(n) => (b" rule T", n),
        ScriptRule::Command(n) => (b" rule C", n),
        ScriptRule::Interface(n) => (b" rule I", n),
    };
    line.put_part(letter, u64::from(number));
    line.put(b"\n");
    line
}

fn link_refused(connection: u32, rule: LinkRule, other: Option<u32>) -> Line
    ensures { result ≡ link_line connection rule other }
{
    let mut line = Line::new();
    line.put_part(b"link refused: connection ", u64::from(connection));
    let (letter, number) = match rule {
        LinkRule::Map(n) => (b" rule A", n),
        LinkRule::Mm(n) => (b" rule P", n),
        LinkRule::Stream(n) => (b" rule S", n),
    };
    line.put_part(letter, u64::from(number));
    if let Some(other) = other {
        line.put_part(b" with ", u64::from(other));
    }
    line.put(b"\n");
    line
}

fn limit(which: u8, count: u64) -> Line
    ensures { result ≡ limit_line which count }
{
    let mut line = Line::new();
    line.put_part(b"limit: L", u64::from(which));
    line.put_part(b" count ", count);
    line.put(b"\n");
    line
}

fn verilog_refused(byte: u64, rule: u8) -> Line
    ensures { result ≡ verilog_line byte rule }
{
    let mut line = Line::new();
    line.put_part(b"verilog refused: byte ", byte);
    line.put_part(b" rule V", u64::from(rule));
    line.put(b"\n");
    line
}

fn scenario_refused(file: u32, number: u32, rule: StepRule) -> Line
    ensures { result ≡ scenario_line file number rule }
{
    let mut line = Line::new();
    line.put_part(b"scenario refused: file ", u64::from(file));
    line.put_part(b" line ", u64::from(number));
    let (letter, rule) = match rule {
        StepRule::Scenario(n) => (b" rule N", n),
        StepRule::Waves(n) => (b" rule X", n),
    };
    line.put_part(letter, u64::from(rule));
    line.put(b"\n");
    line
}

fn dump_refused(byte: u64, rule: u8) -> Line
    ensures { result ≡ dump_line byte rule }
{
    let mut line = Line::new();
    line.put_part(b"dump refused: byte ", byte);
    line.put_part(b" rule G", u64::from(rule));
    line.put(b"\n");
    line
}

fn packet_refused(byte: u64, rule: u8) -> Line
    ensures { result ≡ packet_line byte rule }
{
    let mut line = Line::new();
    line.put_part(b"packet refused: byte ", byte);
    line.put_part(b" rule Y", u64::from(rule));
    line.put(b"\n");
    line
}
