//! What happens at an interface in a cycle.

ghost use Rattle.std.specs.Prelude.{◌≤◌, length};

use crate::laws::names_are_short;
use av_base::Val;
use link_rules::Plan;
use system_tables::EndId;

/// The name of an interface: that of its instance, a dot, and its own. Each has 64 bytes at most.
#[derive(Clone, Copy)]
pub struct EndName<'a> {
    pub instance: &'a str,
    pub interface: &'a str,
    ghost short_instance: { length instance.now ≤ 64 },
    ghost short_interface: { length interface.now ≤ 64 },
}

impl<'a> EndName<'a> {
    ghost use Rattle.std.specs.Prelude.{◌≡◌};
    ghost use Rattle.iface_roles.specs.declared.records.Finished.{Finished as Known};
    ghost use Rattle.system_tables.specs.Tables.{IsEnd};
    ghost use Rattle.map_text.specs.Text.{end_name};
    ghost use Rattle.trace_lines.specs.Names.{name_of};

    /// The name of an end of a plan.
    pub fn of(plan: &'a Plan, end: EndId) -> EndName<'a>
        requires { (known : Known) × IsEnd plan.now.system end known }
        ensures { name_of result ≡ end_name plan.now.system end }
    {
        names_are_short(plan, end);
        EndName {
            instance: plan.instance_name(end),
            interface: plan.interface_name(end),
        }
    }
}

/// A host is given a word.
#[derive(Clone, Copy)]
pub struct WordGiven<'a> {
    pub cycle: u32,
    pub host: EndName<'a>,
    /// As wide as the host's words.
    pub word: Val,
    /// What `response` bears, where the host has it.
    pub code: Option<u8>,
}

/// An agent takes a beat of a write, or a read.
#[derive(Clone, Copy)]
pub struct CommandTaken<'a> {
    pub cycle: u32,
    pub agent: EndName<'a>,
    /// The number of the host that `grant` tells.
    pub host: u8,
    /// The first byte of the agent's word, below its span; of a read that of the first word.
    pub offset: u32,
    /// A bit for each byte of the agent's words: all ones where it has no byte enables.
    pub enables: Val,
}

/// A beat of a stream, as it stands on the ports of an end. An absent port bears 0.
#[derive(Clone, Copy)]
pub struct ShownBeat {
    /// As wide as the end's data.
    pub word: Val,
    pub channel: u16,
    pub error: u32,
    pub first: bool,
    pub last: bool,
    pub empty: u8,
}

/// A beat passes an end of a stream.
#[derive(Clone, Copy)]
pub struct BeatMoved<'a> {
    pub cycle: u32,
    pub end: EndName<'a>,
    pub beat: ShownBeat,
}
