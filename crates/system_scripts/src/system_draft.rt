mod ending;
mod judge;
mod state;

use av_base::Text;
use component_scripts::types::{Component, Library};
use iface_roles::{Kind, Side};
use script_words::CommandRule::{UnknownCommand, WrongCount};
use script_words::places::COMMAND;
use script_words::system::commands::{
    first_named, pair_named, second_named, system_command, system_takes,
};
use script_words::system::joints::{Joint, Link, Terminal};
use script_words::system::links::{Ends, Links};
use script_words::values::end_named;
use script_words::words::{refused_at, text};
use script_words::{Names, ScriptFault};
use std::alloc::Global;
use std::marker::Model;
use system_tables::Instance;
use tcl_words::{Commands, Word};

/// What the commands of a system file state so far.
pub(crate) struct SystemDraft {
    name: Option<Text>,
    stages: u8,
    names: Names,
    instances: Vec<Instance>,
    exported: Names,
    links: Links,
    joints: Vec<Joint>,
    taken: Ends,
}

/// By hand, so that what drops a draft calls this, and isn't followed through its fields.
impl Drop for SystemDraft {
    fn drop(self) {
        let SystemDraft {
            name: _,
            stages: _,
            names: _,
            instances: _,
            exported: _,
            links: _,
            joints: _,
            taken: _,
        } = self;
    }
}

impl Model for SystemDraft {
    ghost use Rattle.system_scripts.specs.System.{DraftedSystem, IsSystemDraft};

    ghost Value = { DraftedSystem };

    ghost view = { λ d. record {
      name = d.name;
      stages = d.stages;
      instances = d.instances.items;
      exported = d.exported;
      joints = d.joints.items;
    } };

    ghost invariant = { λ d. IsSystemDraft d.names d.links d.taken d.instances.items d.joints.items };
}

impl SystemDraft {
    ghost use Rattle.std.specs.Prelude.{◌≡◌, ◌||◌, OnOk, IfOk, IfErr, None, is_none, is_some, position, option_and_then};
    ghost use Rattle.std.specs.Option.{option_copied};
    ghost use Rattle.script_words.specs.Names.{end_named};
    ghost use Rattle.system_scripts.specs.System.{DraftedSystem, empty_system_draft, instance_place, component_at, end_of, first_end, second_end, sort_at, joins, is_taken, joint_place, kind_of_joint, system_refusal, system_after, first_system_refusal, system_after_all};
    ghost use Rattle.script_words.specs.Commands.{of_both};
    ghost use Rattle.script_words.specs.Words.{IsRefusal};

    #[tactic(auto, unfolding(crate::specs::System::empty_system_draft))]
    pub fn new(alloc: Global) -> SystemDraft
        ensures { result ≡ empty_system_draft }
    {
        SystemDraft {
            name: None,
            stages: 0,
            names: Names::new(alloc),
            instances: Vec::new(alloc),
            exported: Names::new(alloc),
            links: Links::new(alloc),
            joints: Vec::new(alloc),
            taken: Ends::new(alloc),
        }
    }

    /// Takes the next command, which a rule may refuse.
    #[tactic(auto, unfolding(crate::specs::System::system_refusal, crate::specs::System::system_after))]
    pub fn take(
        &mut self,
        alloc: Global,
        library: &Library<'_>,
        words: &[Word],
    ) -> Result<(), ScriptFault>
        ensures accepted { OnOk result (system_refusal library.now self.old words.now ≡ None) }
        ensures stated { OnOk result (self.new ≡ system_after library.now self.old words.now) }
        ensures refused { IfErr result (λ fault. IsRefusal fault (system_refusal library.now self.old words.now)) }
    {
        let Some(command) = system_command(text(words, COMMAND)) else {
            return Err(refused_at(words, UnknownCommand, COMMAND).into());
        };
        if !system_takes(command, words.len().saturating_sub(1)) {
            return Err(refused_at(words, WrongCount, COMMAND).into());
        }
        if let Some(refusal) = self.judge(command, library, words) {
            return Err(refusal.into());
        }
        self.state(alloc, command, library, words)?;
        Ok(())
    }

    /// Takes the commands of a file in order, until a rule refuses one.
    fn take_all(
        &mut self,
        alloc: Global,
        commands: &Commands,
        library: &Library<'_>,
    ) -> Result<(), ScriptFault>
        ensures accepted { OnOk result
            (first_system_refusal library.now self.old commands.now.commands ≡ None) }
        ensures stated { OnOk result
            (self.new ≡ system_after_all library.now self.old commands.now.commands) }
        ensures refused { IfErr result
            (λ fault. IsRefusal fault (first_system_refusal library.now self.old commands.now.commands)) }
    {
        for k in 0..commands.count() {
            self.take(alloc, library, commands.command(k))?;
        }
        Ok(())
    }

    fn is_early(&self) -> bool
        ensures { result ≡ is_none self.now.name }
    {
        self.name.is_none()
    }

    /// The place of the instance of this name.
    #[tactic(auto, unfolding(crate::specs::System::instance_place))]
    fn instance_place(&self, name: &str) -> Option<usize>
        ensures { result ≡ instance_place self.now.instances name.now }
    {
        self.names.find(name)
    }

    /// The component of the instance at a place.
    fn component_at<'b>(&self, library: &'b Library<'_>, k: usize) -> Option<&'b Component>
        ensures { option_copied result ≡ component_at library.now self.now.instances k }
    {
        let instance = self.instances.get(k)?;
        library.component(instance.component)
    }

    /// The end of these names: an instance's, and an interface's there.
    #[tactic(auto, unfolding(crate::specs::System::end_of))]
    fn end_of(&self, library: &Library<'_>, instance: &str, interface: &str) -> Option<Terminal>
        ensures { result ≡ end_of library.now self.now.instances (instance.now, interface.now) }
    {
        let k = self.instance_place(instance)?;
        let component = self.component_at(library, k)?;
        let i = component.find(interface)?;
        Some(Terminal {
            instance: k,
            interface: i,
        })
    }

    /// The end that one word names.
    fn end_in_word(&self, library: &Library<'_>, word: &str) -> Option<Terminal>
        ensures { result ≡ option_and_then (end_of library.now self.now.instances) (end_named word.now) }
    {
        let (instance, interface) = end_named(word)?;
        self.end_of(library, instance, interface)
    }

    #[tactic(auto, unfolding(crate::specs::System::first_end))]
    fn first_end(&self, library: &Library<'_>, words: &[Word]) -> Option<Terminal>
        ensures { result ≡ first_end library.now self.now words.now }
    {
        let (instance, interface) = first_named(words)?;
        self.end_of(library, instance, interface)
    }

    #[tactic(auto, unfolding(crate::specs::System::second_end))]
    fn second_end(&self, library: &Library<'_>, words: &[Word]) -> Option<Terminal>
        ensures { result ≡ second_end library.now self.now words.now }
    {
        let (instance, interface) = second_named(words)?;
        self.end_of(library, instance, interface)
    }

    /// The kind and the side of the interface at an end.
    #[tactic(auto, unfolding(crate::specs::System::sort_at))]
    fn sort_at(&self, library: &Library<'_>, end: Terminal) -> Option<(Kind, Side)>
        ensures { result ≡ sort_at library.now self.now.instances end }
    {
        let component = self.component_at(library, end.instance)?;
        let interface = component.interfaces().get(end.interface)?;
        Some((interface.kind, interface.side))
    }

    fn joint_at(&self, start: Terminal, end: Terminal) -> Option<usize>
        ensures { result ≡ position (joins start end) self.now.joints }
    {
        self.links.find(Link { start, end })
    }

    fn is_joined(&self, start: Option<Terminal>, end: Option<Terminal>) -> bool
        ensures { result ≡ of_both start end (λ a b. is_some (position (joins a b) self.now.joints)) }
    {
        match (start, end) {
            (Some(start), Some(end)) => self.joint_at(start, end).is_some(),
            _ => false,
        }
    }

    fn is_taken(&self, end: Terminal) -> bool
        ensures { result ≡ is_taken self.now.joints end }
    {
        self.taken.contains(end)
    }

    fn is_any_taken(&self, start: Option<Terminal>, end: Option<Terminal>) -> bool
        ensures { result ≡ of_both start end (λ a b. is_taken self.now.joints a || is_taken self.now.joints b) }
    {
        match (start, end) {
            (Some(start), Some(end)) => self.is_taken(start) || self.is_taken(end),
            _ => false,
        }
    }

    fn sort_of(&self, library: &Library<'_>, end: Option<Terminal>) -> Option<(Kind, Side)>
        ensures { result ≡ option_and_then (sort_at library.now self.now.instances) end }
    {
        self.sort_at(library, end?)
    }

    /// The place of the connection that a word `start/end` names.
    #[tactic(auto, unfolding(crate::specs::System::joint_place))]
    fn joint_place(&self, library: &Library<'_>, pair: &str) -> Option<usize>
        ensures { result ≡ joint_place library.now self.now pair.now }
    {
        let ((instance, interface), (other, face)) = pair_named(pair)?;
        let start = self.end_of(library, instance, interface)?;
        let end = self.end_of(library, other, face)?;
        self.joint_at(start, end)
    }

    /// The kind of the connection that a word `start/end` names.
    fn joint_kind(&self, library: &Library<'_>, pair: &str) -> Option<Kind>
        ensures { result ≡ kind_of_joint self.now.joints (joint_place library.now self.now pair.now) }
    {
        let k = self.joint_place(library, pair)?;
        let joint = self.joints.get(k)?;
        Some(joint.kind)
    }
}
