//! The header of a dump.

ghost use Rattle.std.specs.Prelude.{◌≡◌, ℕ, suc, ◌≤◌, ◌<◌, ◌^◌, ◌+◌, [], ◌∷◌, ◌++◌, List, length, All, IfOk, OnOk};
ghost use Rattle.vcd_text.specs.declared.port.DumpPort.{DumpPort};
ghost use Rattle.vcd_reader.specs.Readings.{port_line, port_lines};
ghost use Rattle.vcd_reader.specs.Reads.{IsFound, found_by, AreNamed, HasBits, port_follows};

use crate::faults::Stop;
use crate::reader::Reader;
use crate::rule::Rule;
use av_base::{List, NoMemory, Text};
use std::alloc::Global;
use std::collections::HashSet;
use vcd_text::DumpPort;

/// Reads whether the line of another port follows, and its first byte.
fn port_follows(reader: &mut Reader) -> Result<bool, Rule>
    ensures { port_follows reader.old ≡ found_by result reader.new }
{
    reader.fixed(b"$")?;
    Ok(reader.begins(b'v'))
}

/// Adds the name of a port.
fn add_name<'a>(names: &mut HashSet<&'a str>, name: &'a str) -> Result<(), NoMemory>
    ensures { OnOk result
        ((ports : List DumpPort) (port : DumpPort) → name.now ≡ port.name → AreNamed ports names.old
        → AreNamed (ports ++ port ∷ []) names.new) }
{
    names.insert(name)?;
    Ok(())
}

/// Reads the line of the port of this number behind those of these names, from its second byte on, and adds its name.
fn port_line<'a>(
    alloc: Global,
    reader: &mut Reader<'a>,
    number: usize,
    names: &mut HashSet<&'a str>,
) -> Result<DumpPort, Stop>
    requires { number < 2 ^ 32 }
    ensures read { (ports : List DumpPort) → number ≡ length ports → AreNamed ports names.old
        → IsFound (port_line ports reader.old) result reader.new }
    ensures bits { IfOk result HasBits }
    ensures named { IfOk result (λ port. (ports : List DumpPort) → AreNamed ports names.old
        → AreNamed (ports ++ port ∷ []) names.new) }
{
    reader.fixed(b"var wire ")?;
    let width = reader.number(Rule::Width, 0, 128)?;
    reader.fixed(b" ")?;
    reader.code(number, number + 1)?;
    reader.fixed(b" ")?;
    let name = reader.port_name(names)?;
    reader.fixed(b" $end\n")?;
    add_name(names, name)?;
    Ok(DumpPort {
        name: Text::copy(alloc, name)?,
        width: width as u8,
    })
}

/// Reads the lines of the ports, and the first byte of the next line.
pub(crate) fn port_lines(alloc: Global, reader: &mut Reader) -> Result<List<DumpPort>, Stop>
    requires { length reader.old < 2 ^ 31 }
    ensures read { IsFound (port_lines (suc (length reader.old)) [] reader.old) result reader.new }
    ensures bits { IfOk result (All HasBits) }
    ensures few { IfOk result (λ ports. length ports < 2 ^ 31) }
{
    let mut ports = List::new(alloc);
    let mut names = HashSet::new(alloc);
    'ports: while port_follows(reader)? {
        let port = port_line(alloc, reader, ports.len(), &mut names)?;
        ports.push(port)?;
    }
    Ok(ports)
}
