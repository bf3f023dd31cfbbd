//! The links of a host and an agent.

ghost use Rattle.std.specs.Prelude.{◌≡◌, ◌≤◌};
ghost use Rattle.mm_width.specs.Pairs.{MayMeet};
ghost use Rattle.mm_width.specs.Links.{within_64, reads_below, reads_above, fitting_of, width_of};

use crate::pairs::{cutter_between, needs_cut, needs_drop, packs, selects};
use iface_roles::{AgentPort, HostPort};
use item_queues::{ItemQueue, Pointers, Storage, StoredItems};
use link_core::{Chain, Maybe};
use mm_burst::{Cutter, CutterKept};
use mm_drop::{Dropper, DropperKept};
use mm_gather::{Gather, GatherKept, HeldReads};
use mm_select::{Select, SelectKept};
use mm_split::{Split, SplitKept};
use netlist::Mem;

/// The links of a pair below its cutter: a lane selector, a gatherer or a splitter, and what drops beats without a lane.
type Fitting = Chain<Chain<Chain<Maybe<Select>, Maybe<Gather>>, Maybe<Split>>, Maybe<Dropper>>;

/// The links of a pair, each where it is needed. The highest one is a cutter of bursts.
pub type Width = Chain<Maybe<Cutter>, Fitting>;

/// What is kept of them between their two calls, link by link.
pub type WidthKept = (
    Option<CutterKept>,
    (
        ((Option<SelectKept>, Option<GatherKept>), Option<SplitKept>),
        Option<DropperKept>,
    ),
);

/// The types in what is kept of a gatherer. A function that changes a vector of these links has to name them: rattle doesn't find
/// what stands in an array.
pub type KeptByGather = (
    HeldReads,
    ItemQueue<2>,
    Storage<2>,
    StoredItems<2>,
    Pointers,
    Mem,
);

/// From 1 to 64, as a plan's bound is.
fn within_64(count: u8) -> u8
    ensures { result ≡ within_64 count }
{
    count.min(64).max(1)
}

/// So many reads an agent and the stages before it can have under way.
fn reads_below(agent: &AgentPort, stages: u8) -> u8
    requires stages { stages ≤ 4 }
    ensures { result ≡ reads_below agent.now stages }
{
    let at_agent = if agent.readdatavalid {
        within_64(agent.pending)
    } else {
        within_64(agent.read_latency) + 1
    };
    at_agent + 3 * stages
}

/// So many reads a host keeps under way at the agent.
fn reads_above(host: &HostPort, agent: &AgentPort, stages: u8) -> u8
    requires stages { stages ≤ 4 }
    ensures { result ≡ reads_above host.now agent.now stages }
{
    let at_host = if host.readdatavalid { 16 } else { 1 };
    at_host.min(reads_below(agent, stages))
}

/// What fits words and beats, with so many stages before the agent.
fn fitting_of(host: &HostPort, agent: &AgentPort, stages: u8) -> Fitting
    requires stages { stages ≤ 4 }
    ensures { result ≡ fitting_of host.now agent.now stages }
{
    let above = reads_above(host, agent, stages);
    let below = reads_below(agent, stages);
    let wider = agent.word_bytes < host.word_bytes;
    let select = Select {
        narrow_bytes: host.word_bytes,
        wide_bytes: agent.word_bytes,
        reads: above.max(2),
    };
    let gather = Gather {
        narrow_bytes: host.word_bytes,
        wide_bytes: agent.word_bytes,
        reads: below + 1,
    };
    let split = Split {
        wide_bytes: host.word_bytes,
        narrow_bytes: agent.word_bytes,
        reads: above,
        all_lanes: !host.enables,
    };
    let dropper = Dropper {
        word_bytes: agent.word_bytes,
        reads: if wider { below } else { above },
    };
    Chain {
        first: Chain {
            first: Chain {
                first: Maybe {
                    link: if selects(host, agent) {
                        Some(select)
                    } else {
                        None
                    },
                },
                second: Maybe {
                    link: if packs(host, agent) {
                        Some(gather)
                    } else {
                        None
                    },
                },
            },
            second: Maybe {
                link: if wider { Some(split) } else { None },
            },
        },
        second: Maybe {
            link: if needs_drop(host, agent) {
                Some(dropper)
            } else {
                None
            },
        },
    }
}

/// The links that a host and an agent need, with so many stages before the agent.
pub fn width_of(host: &HostPort, agent: &AgentPort, stages: u8) -> Width
    requires stages { stages ≤ 4 }
    requires pair { MayMeet host.now agent.now }
    ensures { result ≡ width_of host.now agent.now stages }
{
    let cutter = cutter_between(host, agent);
    Chain {
        first: Maybe {
            link: if needs_cut(host, agent) {
                Some(cutter)
            } else {
                None
            },
        },
        second: fitting_of(host, agent, stages),
    }
}
