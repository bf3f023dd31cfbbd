//! The words of a script's line.

ghost use Rattle.std.specs.Prelude.{◌≡◌, ◌+◌, ◌<◌, [], ◌∷◌, ◌++◌, OnOk, OnErr};
ghost use Rattle.workload_systems.specs.Texts.{line_text};
ghost use Rattle.workload_systems.specs.Components.{one_of, type_name, interface, port, property};

use av_base::{Bytes, NoMemory};

/// Appends a word that others follow.
pub(crate) fn put_word(text: &mut Bytes, word: &[u8]) -> Result<(), NoMemory>
    ensures { OnOk result (text.new ≡ text.old ++ (word.now ++ 32 ∷ [])) }
{
    text.append(word)?;
    text.push(b' ')?;
    Ok(())
}

/// Appends the last word of a line.
pub(crate) fn put_last(text: &mut Bytes, word: &[u8]) -> Result<(), NoMemory>
    ensures { OnOk result (text.new ≡ text.old ++ (word.now ++ 10 ∷ [])) }
{
    text.append(word)?;
    text.push(b'\n')?;
    Ok(())
}

/// One of four texts, by a number from 0 on.
pub(crate) fn one_of(
    first: &'static [u8],
    second: &'static [u8],
    third: &'static [u8],
    fourth: &'static [u8],
    number: u8,
) -> &'static [u8]
    ensures { result.now ≡ one_of first.now second.now third.now fourth.now number }
{
    if number == 0 {
        first
    } else if number == 1 {
        second
    } else if number == 2 {
        third
    } else {
        fourth
    }
}

pub(crate) fn put_type(text: &mut Bytes, name: &[u8]) -> Result<(), NoMemory>
    ensures { OnOk result (text.new ≡ text.old ++ line_text (type_name name.now)) }
{
    put_word(text, b"set_module_property")?;
    put_word(text, b"NAME")?;
    put_last(text, name)?;
    Ok(())
}

pub(crate) fn put_interface(
    text: &mut Bytes,
    name: &[u8],
    kind: &[u8],
    direction: &[u8],
) -> Result<(), NoMemory>
    ensures { OnOk result (text.new ≡ text.old ++ line_text (interface name.now kind.now direction.now)) }
{
    put_word(text, b"add_interface")?;
    put_word(text, name)?;
    put_word(text, kind)?;
    put_last(text, direction)?;
    Ok(())
}

pub(crate) fn put_property(
    text: &mut Bytes,
    interface: &[u8],
    name: &[u8],
    value: &[u8],
) -> Result<(), NoMemory>
    ensures { OnOk result (text.new ≡ text.old ++ line_text (property interface.now name.now value.now)) }
{
    put_word(text, b"set_interface_property")?;
    put_word(text, interface)?;
    put_word(text, name)?;
    put_last(text, value)?;
    Ok(())
}

pub(crate) fn put_port(
    text: &mut Bytes,
    interface: &[u8],
    role: &[u8],
    direction: &[u8],
    width: &[u8],
) -> Result<(), NoMemory>
    ensures { OnOk result (text.new ≡ text.old ++ line_text (port interface.now role.now direction.now width.now)) }
{
    put_word(text, b"add_interface_port")?;
    put_word(text, interface)?;
    put_word(text, role)?;
    put_word(text, role)?;
    put_word(text, direction)?;
    put_last(text, width)?;
    Ok(())
}
