ghost use Rattle.std.specs.Prelude.{◌≡◌, IfOk, IfErr, Ok};
ghost use Rattle.component_scripts.specs.Component.{component_of};
ghost use Rattle.script_words.specs.Judgements.{IsFaultOf};

use crate::component_draft::ComponentDraft;
use crate::types::Component;
use av_base::{Place, Text};
use iface_roles::Interface;
use script_words::ScriptFault;
use std::alloc::Global;
use tcl_words::Commands;

/// The commands of a component file.
#[derive(Clone, Copy)]
pub(crate) enum ComponentCommand {
    Package,
    SetModuleProperty,
    AddInterface,
    SetInterfaceProperty,
    AddInterfacePort,
    SetPortProperty,
    PassedOver,
}

/// An interface while its file is read.
#[derive(Drop)]
pub(crate) struct DeclaredInterface {
    pub name: Text,
    pub place: Place,
    /// The value of `associatedClock`, empty where there is none.
    pub clock: Text,
    pub interface: Interface,
}

/// The component that a file states, or the first rule that refuses it. That no other component has its type is
/// judged by the catalog.
pub fn read_component(alloc: Global, commands: &Commands) -> Result<Component, ScriptFault>
    ensures accepted { IfOk result (λ component. component_of commands.now ≡ Ok component) }
    ensures refused { IfErr result (λ fault. IsFaultOf fault (component_of commands.now)) }
{
    let mut draft = ComponentDraft::new(alloc);
    for k in 0..commands.count() {
        draft.take(alloc, commands.command(k))?;
    }
    draft.finish(alloc, commands.end())
}
