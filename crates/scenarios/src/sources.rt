//! The statements of sources.

ghost use Rattle.std.specs.Prelude.{◌≡◌, ◌<◌, true, length, Some, None, Ok, OnOk, IfErr};
ghost use Rattle.iface_roles.specs.Proper.{IsBoundedStream};
ghost use Rattle.scenarios.specs.SoFar.{Breaks};
ghost use Rattle.scenarios.specs.Streams.{IsShown, spells_beat, beat_of, fits_ports, opened_by, keeps_packets, beat_in, gap_in};

use crate::faults::{LineFault, ScenarioRule, refuse_if};
use crate::interfaces::Named;
use crate::ports::fits;
use crate::rests::{is_full, rest};
use crate::so_far::SoFar;
use iface_roles::StreamPort;
use scenario_tables::{SourceBeat, SourceStatement};
use waves::{Flags, Words, hexadecimal, is_hexadecimal};

fn spells_beat(words: &Words) -> bool
    ensures { result ≡ spells_beat words.now }
{
    is_hexadecimal(words.word(2))
        && (is_hexadecimal(words.word(3))
            && (is_hexadecimal(words.word(4))
                && (Flags::of(words.word(5)).is_some() && is_hexadecimal(words.word(6)))))
}

/// Whether the ports of a source have room for what a beat shows.
fn fits_ports(source: &StreamPort, words: &Words) -> bool
    requires { spells_beat words.now ≡ true }
    ensures { result ≡ fits_ports source.now (beat_of words.now) }
{
    let channel = hexadecimal(words.word(3));
    let empty = hexadecimal(words.word(6));
    let bits = u32::from(source.symbols) * u32::from(source.symbol_bits);
    fits(hexadecimal(words.word(2)), bits)
        && ((fits(channel, u32::from(source.channel_bits))
            && channel <= u128::from(source.max_channel))
            && (fits(hexadecimal(words.word(4)), u32::from(source.error_bits))
                && (fits(empty, u32::from(source.empty_bits))
                    && empty < u128::from(source.symbols))))
}

/// The beat that words show.
fn beat_of(source: &StreamPort, words: &Words) -> SourceBeat
    requires bounded { IsBoundedStream source.now }
    requires shown { IsShown source.now words.now }
    ensures { result ≡ beat_of words.now }
{
    let flags = Flags::of(words.word(5)).unwrap();
    SourceBeat {
        word: hexadecimal(words.word(2)),
        channel: hexadecimal(words.word(3)) as u16,
        error: hexadecimal(words.word(4)) as u32,
        first: flags.first,
        last: flags.last,
        empty: hexadecimal(words.word(6)) as u8,
    }
}

/// The channel of the packet that is open behind statements.
fn opened(script: &[SourceStatement]) -> Option<u16>
    ensures { result ≡ opened_by None script.now }
{
    let mut count = script.len();
    'statements: while 0 < count {
        if let SourceStatement::Beat { beat } = script[count - 1] {
            return if beat.last { None } else { Some(beat.channel) };
        }
        count -= 1;
    }
    None
}

/// Whether a beat goes on with the packets of its source.
fn keeps_packets(source: &StreamPort, opened: Option<u16>, beat: &SourceBeat) -> bool
    ensures { result ≡ keeps_packets source.now opened beat.now }
{
    let is_marked_well = if source.packets {
        match opened {
            None => beat.first,
            Some(channel) => !beat.first && beat.channel == channel,
        }
    } else {
        !beat.first && !beat.last
    };
    is_marked_well && (beat.last || beat.empty == 0)
}

/// Reads `beat SOURCE WORD CHANNEL ERROR FLAGS EMPTY`.
#[tactic(auto, unfolding(crate::specs::Streams::beat_in, crate::specs::Streams::beat_rule))]
pub(crate) fn beat(
    so_far: &mut SoFar,
    source: &Named<StreamPort>,
    words: &Words,
) -> Result<(), LineFault>
    requires port { IsBoundedStream source.now.port }
    requires number { source.now.number < length so_far.old.sources }
    ensures ok { OnOk result (beat_in so_far.old source.now words.now ≡ Ok so_far.new) }
    ensures err { IfErr result (Breaks (beat_in so_far.old source.now words.now)) }
{
    let port = &source.port;
    let script = so_far.sources.script(source.number);
    refuse_if(!spells_beat(words), ScenarioRule::Spelling)?;
    refuse_if(!fits_ports(port, words), ScenarioRule::Ranges)?;
    refuse_if(so_far.is_early(), ScenarioRule::Beginning)?;
    let beat = beat_of(port, words);
    refuse_if(
        !keeps_packets(port, opened(script), &beat),
        ScenarioRule::Packets,
    )?;
    refuse_if(is_full(script.len()), ScenarioRule::Limits)?;
    so_far
        .sources
        .push(source.number, SourceStatement::Beat { beat })?;
    Ok(())
}

/// Reads `gap SOURCE CYCLES`.
#[tactic(auto, unfolding(crate::specs::Streams::gap_in))]
pub(crate) fn gap(
    so_far: &mut SoFar,
    source: &Named<StreamPort>,
    words: &Words,
) -> Result<(), LineFault>
    requires { source.now.number < length so_far.old.sources }
    ensures ok { OnOk result (gap_in so_far.old source.now words.now ≡ Ok so_far.new) }
    ensures err { IfErr result (Breaks (gap_in so_far.old source.now words.now)) }
{
    let statements = so_far.sources.script(source.number).len();
    let cycles = rest(so_far.is_early(), statements, words)?;
    so_far
        .sources
        .push(source.number, SourceStatement::Gap { cycles })?;
    Ok(())
}
