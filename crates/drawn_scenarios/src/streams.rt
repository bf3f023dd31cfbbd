ghost use Rattle.std.specs.Prelude.{◌≡◌, ◌*◌, ◌^◌, ◌<◌, ◌≤◌, ℕ, Some, slice_get, IfOk};
ghost use Rattle.iface_roles.specs.Proper.{IsBoundedStream};
ghost use Rattle.link_rules.specs.declared.plan_connections.StreamConnection.{StreamConnection as Link};
ghost use Rattle.drawn_scenarios.specs.Streams.{symbol_bound, channel_of, source_statement, source_script, sink_script, stream_script, stream_scripts, IsDrawable};

use crate::generator::Generator;
use av_base::{List, NoMemory};
use iface_roles::StreamPort;
use link_rules::StreamConnection;
use scenario_tables::{Pattern, Scripts, SourceBeat, SourceStatement};
use std::alloc::Global;

/// The bound of a symbol of so many bits.
fn symbol_bound(bits: u16) -> u64
    ensures { result ≡ symbol_bound bits }
{
    if bits < 8 {
        2u64.pow(u32::from(bits))
    } else {
        256
    }
}

fn channel(generator: &mut Generator, source: &StreamPort) -> u16
    requires { IsBoundedStream source.now }
    ensures { (result, generator.new) ≡ channel_of source.now generator.old }
{
    if source.channel_bits == 0 {
        return 0;
    }
    let channels = u64::from(source.max_channel) + 1;
    generator.draw(channels) as u16
}

fn source_statement(generator: &mut Generator, source: &StreamPort) -> SourceStatement
    requires { IsDrawable source.now }
    ensures { (result, generator.new) ≡ source_statement source.now generator.old }
{
    let bound = symbol_bound(source.symbol_bits);
    let word = generator.word(source.first_high, source.symbol_bits, bound, source.symbols);
    SourceStatement::Beat {
        beat: SourceBeat {
            word,
            channel: channel(generator, source),
            error: 0,
            first: source.packets,
            last: source.packets,
            empty: 0,
        },
    }
}

fn source_script(
    alloc: Global,
    generator: &mut Generator,
    source: &StreamPort,
) -> Result<List<SourceStatement>, NoMemory>
    requires { IsDrawable source.now }
    ensures { IfOk result (λ script. (script, generator.new) ≡ source_script source.now generator.old) }
{
    let mut script = List::new(alloc);
    'beats: for _ in 0..32u8 {
        script.push(source_statement(generator, source))?;
    }
    Ok(script)
}

fn sink_script(
    alloc: Global,
    generator: &mut Generator,
    sink: &StreamPort,
) -> Result<List<Pattern>, NoMemory>
    ensures { IfOk result (λ script. (script, generator.new) ≡ sink_script sink.now generator.old) }
{
    let mut script = List::new(alloc);
    if sink.ready {
        let pattern = generator.pattern(alloc)?;
        script.push(pattern)?;
    }
    Ok(script)
}

fn stream_script(
    alloc: Global,
    generator: &mut Generator,
    link: &StreamConnection,
) -> Result<(List<SourceStatement>, List<Pattern>), NoMemory>
    requires { IsDrawable link.now.source }
    ensures { IfOk result (λ script. (script, generator.new) ≡ stream_script link.now generator.old) }
{
    let beats = source_script(alloc, generator, &link.source)?;
    let stalls = sink_script(alloc, generator, &link.sink)?;
    Ok((beats, stalls))
}

/// What each source does and each sink does, by the streams' numbers.
pub(crate) fn stream_scripts(
    alloc: Global,
    generator: &mut Generator,
    links: &[StreamConnection],
) -> Result<(Scripts<SourceStatement>, Scripts<Pattern>), NoMemory>
    requires { (k : ℕ) (link : Link) → slice_get links.now k ≡ Some link → IsDrawable link.source }
    ensures { IfOk result (λ scripts. (scripts, generator.new) ≡ stream_scripts links.now generator.old) }
{
    let mut sources = Scripts::blank(alloc, 0)?;
    let mut sinks = Scripts::blank(alloc, 0)?;
    'streams: for link in links {
        let (beats, stalls) = stream_script(alloc, generator, link)?;
        sources.add(beats)?;
        sinks.add(stalls)?;
    }
    Ok((sources, sinks))
}
