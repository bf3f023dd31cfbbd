ghost use Rattle.std.specs.Prelude.{◌≡◌, ◌++◌, ◌∷◌, [], false, None, Some, IsNone, IfSome, is_some, OnOk, position};
ghost use Rattle.std.specs.Option.{option_map_or};
ghost use Rattle.system_scripts.specs.System.{DraftedSystem, instance_place, joins, first_end, second_end, with_number, create_effect, exported_checks, exported_effect, requirement_checks, requirement_effect, instance_checks, instance_effect, connection_checks, connection_effect, parameter_checks, parameter_effect, system_checks, system_effect};
ghost use Rattle.script_words.specs.Commands.{exceeds};
ghost use Rattle.script_words.specs.Words.{text_at, refusal_of};

use super::SystemDraft;
use av_base::{NoMemory, Text};
use component_scripts::types::Library;
use iface_roles::Kind;
use script_words::places::{
    add_instance, add_interface, create_system, set_connection_parameter_value,
    set_interconnect_requirement,
};
use script_words::system::commands::{parameter_named, sets_stages};
use script_words::system::joints::{Joint, Link, Parameter, SystemCommand};
use script_words::system::links::add_link;
use script_words::values::{number_of, same_kind};
use script_words::words::text;
use std::alloc::Global;
use system_tables::Instance;
use tcl_words::Word;

impl SystemDraft {
    #[tactic(auto, unfolding(crate::specs::System::create_effect))]
    fn state_create(&mut self, alloc: Global, words: &[Word]) -> Result<(), NoMemory>
        ensures { OnOk result (self.new ≡ create_effect self.old words.now) }
    {
        let name = if words.len() > 1 {
            text(words, create_system::NAME)
        } else {
            "system"
        };
        self.name = Some(Text::copy(alloc, name)?);
        Ok(())
    }

    #[tactic(auto, unfolding(crate::specs::System::exported_effect))]
    fn state_exported(&mut self, alloc: Global, words: &[Word]) -> Result<(), NoMemory>
        requires { refusal_of words.now (exported_checks self.old words.now) ≡ None }
        ensures { OnOk result (self.new ≡ exported_effect self.old words.now) }
    {
        self.exported.add(alloc, text(words, add_interface::NAME))?;
        Ok(())
    }

    #[tactic(auto, unfolding(crate::specs::System::requirement_effect))]
    fn state_requirement(&mut self, words: &[Word])
        requires { refusal_of words.now (requirement_checks self.old words.now) ≡ None }
        ensures { self.new ≡ requirement_effect self.old words.now }
    {
        if sets_stages(words) {
            if let Some(number) = number_of(text(words, set_interconnect_requirement::VALUE)) {
                self.stages = number as u8;
            }
        }
    }

    #[tactic(auto, unfolding(crate::specs::System::instance_effect))]
    fn state_instance(
        &mut self,
        alloc: Global,
        library: &Library<'_>,
        words: &[Word],
    ) -> Result<(), NoMemory>
        requires { refusal_of words.now (instance_checks library.now self.old words.now) ≡ None }
        ensures { OnOk result (self.new ≡ instance_effect library.now self.old words.now) }
    {
        if let Some(component) = library.find(text(words, add_instance::TYPE)) {
            let name = Text::copy(alloc, text(words, add_instance::NAME))?;
            self.add_instance(alloc, Instance { name, component })?;
        }
        Ok(())
    }

    /// Adds an instance of a new name.
    fn add_instance(&mut self, alloc: Global, instance: Instance) -> Result<(), NoMemory>
        requires { is_some (instance_place self.old.instances instance.name) ≡ false }
        ensures { OnOk result (self.new ≡ record self.old { instances = self.old.instances ++ instance ∷ [] }) }
    {
        self.names
            .add_for(alloc, instance.name.as_str(), &mut self.instances)?;
        self.instances.push(instance).unwrap();
        Ok(())
    }

    /// The connection that the words of `add_connection` state, where its ends are there.
    #[tactic(auto, unfolding(crate::specs::System::connection_effect))]
    fn joint_stated(&self, library: &Library<'_>, words: &[Word]) -> Option<Joint>
        ensures effect { option_map_or
            (λ joint. record self.now { joints = self.now.joints ++ joint ∷ [] })
            result
            self.now ≡ connection_effect library.now self.now words.now }
        ensures start { IfSome result (λ joint. first_end library.now self.now words.now ≡ Some joint.start) }
        ensures end { IfSome result (λ joint. second_end library.now self.now words.now ≡ Some joint.end) }
    {
        let start = self.first_end(library, words)?;
        let end = self.second_end(library, words)?;
        let (kind, _) = self.sort_at(library, start)?;
        Some(Joint {
            start,
            end,
            kind,
            base: 0,
            shares: 1,
            fifo: 0,
        })
    }

    /// Adds a connection that isn't there yet.
    fn join(&mut self, joint: Joint) -> Result<(), NoMemory>
        requires { IsNone (position (joins joint.start joint.end) self.old.joints) }
        ensures { OnOk result (self.new ≡ record self.old { joints = self.old.joints ++ joint ∷ [] }) }
    {
        let link = Link {
            start: joint.start,
            end: joint.end,
        };
        let takes = same_kind(joint.kind, Kind::Stream);
        self.joints.reserve(1)?;
        add_link(&mut self.links, &mut self.taken, link, takes)?;
        self.joints.push(joint).unwrap();
        Ok(())
    }

    fn state_connection(&mut self, library: &Library<'_>, words: &[Word]) -> Result<(), NoMemory>
        requires { refusal_of words.now (connection_checks library.now self.old words.now) ≡ None }
        ensures { OnOk result (self.new ≡ connection_effect library.now self.old words.now) }
    {
        match self.joint_stated(library, words) {
            Some(joint) => self.join(joint),
            None => Ok(()),
        }
    }

    #[tactic(auto, unfolding(crate::specs::System::parameter_effect))]
    fn state_parameter(&mut self, library: &Library<'_>, words: &[Word])
        requires { refusal_of words.now (parameter_checks library.now self.old words.now) ≡ None }
        ensures { self.new ≡ parameter_effect library.now self.old words.now }
    {
        if let Some(k) = self.joint_place(
            library,
            text(words, set_connection_parameter_value::PAIR),
        ) {
            if let Some(parameter) = parameter_named(text(
                words,
                set_connection_parameter_value::PARAMETER,
            )) {
                set_number(&mut self.joints[k], parameter, words);
            }
        }
    }

    /// What a command states, once nothing refuses it.
    pub(super) fn state(
        &mut self,
        alloc: Global,
        command: SystemCommand,
        library: &Library<'_>,
        words: &[Word],
    ) -> Result<(), NoMemory>
        requires { refusal_of words.now (system_checks command library.now self.old words.now) ≡ None }
        ensures { OnOk result (self.new ≡ system_effect command library.now self.old words.now) }
    {
        match command {
            SystemCommand::CreateSystem => self.state_create(alloc, words)?,
            SystemCommand::AddInstance => self.state_instance(alloc, library, words)?,
            SystemCommand::AddConnection => self.state_connection(library, words)?,
            SystemCommand::SetParameter => self.state_parameter(library, words),
            SystemCommand::AddInterface => self.state_exported(alloc, words)?,
            SystemCommand::SetRequirement => self.state_requirement(words),
            SystemCommand::Package
            | SystemCommand::SetInterfaceProperty
            | SystemCommand::SaveSystem
            | SystemCommand::PassedOver => {}
        }
        Ok(())
    }
}

/// Sets a parameter of a host's or a stream's connection to the number that the words give.
fn set_number(joint: &mut Joint, parameter: Parameter, words: &[Word])
    requires { exceeds (text_at words.now 3) joint.old.kind parameter ≡ false }
    ensures { joint.new ≡ with_number words.now parameter joint.old }
{
    if !joint.kind.is_avalon() {
        return;
    }
    let Some(number) = number_of(text(words, set_connection_parameter_value::VALUE)) else {
        return;
    };
    match parameter {
        Parameter::BaseAddress => joint.base = number,
        Parameter::ArbitrationPriority => joint.shares = number as u8,
        Parameter::FifoDepth => joint.fifo = number as u8,
        Parameter::DefaultConnection => {}
    }
}
