ghost use Rattle.std.specs.Prelude.{◌≡◌, Ok, IfOk, IfErr};
ghost use Rattle.script_words.specs.Judgements.{IsFaultOf};
ghost use Rattle.system_scripts.specs.Clocks.{system_of, system_over};

use crate::system_draft::SystemDraft;
use component_scripts::types::{Catalog, Library};
use script_words::ScriptFault;
use std::alloc::Global;
use system_tables::System;
use tcl_words::Commands;

/// The system that a file states over the components of a catalog, or the first rule that refuses it.
pub fn read_system(
    alloc: Global,
    commands: &Commands,
    catalog: &Catalog,
) -> Result<System, ScriptFault>
    ensures accepted { IfOk result (λ system. system_of catalog.now commands.now ≡ Ok system) }
    ensures refused { IfErr result (λ fault. IsFaultOf fault (system_of catalog.now commands.now)) }
{
    let library = Library::new(alloc, catalog)?;
    system_over(alloc, commands, &library)
}

/// The system that a file states over the components of a library, or the first rule that refuses it.
fn system_over(
    alloc: Global,
    commands: &Commands,
    library: &Library<'_>,
) -> Result<System, ScriptFault>
    ensures accepted { IfOk result (λ system. system_over library.now commands.now ≡ Ok system) }
    ensures refused { IfErr result (λ fault. IsFaultOf fault (system_over library.now commands.now)) }
{
    let mut draft = SystemDraft::new(alloc);
    let tables = draft.take_file(alloc, commands, library)?;
    Ok(draft.with_tables(tables))
}
