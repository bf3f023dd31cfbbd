ghost use Rattle.std.specs.Prelude.{◌≡◌, [], IfOk, OnOk};
ghost use Rattle.script_words.specs.Roots.{start_for, AreRootsOf};
ghost use Rattle.script_words.specs.declared.system.joints.Terminal.{Terminal};

use crate::system::joints::{Joint, Terminal};
use crate::values::same_kind;
use av_base::NoMemory;
use iface_roles::Kind;
use std::alloc::Global;
use std::collections::HashMap;
use std::marker::Model;

/// Where the first clock connection to an end starts, by that end.
pub struct Roots {
    starts: HashMap<Terminal, Terminal>,
}

/// By hand, so that what drops roots calls this, and isn't followed through the fields.
impl Drop for Roots {
    fn drop(self) {
        let Roots { starts: _ } = self;
    }
}

impl Model for Roots {
    ghost use Rattle.std.specs.Prelude.{List};
    ghost use Rattle.script_words.specs.declared.system.joints.Terminal.{Terminal};

    ghost Value = { List (Terminal × Terminal) };

    ghost view = { λ r. r.starts.entries };
}

impl Roots {
    ghost use Rattle.std.specs.Prelude.{None, Some, if◌then◌else◌};
    ghost use Rattle.std.specs.Option.{option_or};
    ghost use Rattle.script_words.specs.Joints.{same_end};

    fn new(alloc: Global) -> Roots
        ensures { result ≡ [] }
    {
        Roots {
            starts: HashMap::new(alloc),
        }
    }

    /// The roots of a file's connections.
    pub fn of(alloc: Global, joints: &[Joint]) -> Result<Roots, NoMemory>
        ensures { IfOk result (AreRootsOf joints.now) }
    {
        let mut roots = Roots::new(alloc);
        for joint in joints {
            if same_kind(joint.kind, Kind::Clock) {
                roots.add(joint.end, joint.start)?;
            }
        }
        Ok(roots)
    }

    /// Adds a connection. The first to an end counts.
    fn add(&mut self, end: Terminal, start: Terminal) -> Result<(), NoMemory>
        ensures { OnOk result ((other : Terminal)
            → start_for self.new other ≡ option_or (start_for self.old other) (if same_end other end then Some start else None)) }
    {
        if self.starts.get(&end).is_none() {
            self.starts.insert(end, start)?;
        }
        Ok(())
    }

    /// Where the first clock connection to this end starts.
    pub fn source(&self, end: Terminal) -> Option<Terminal>
        ensures { result ≡ start_for self.now end }
    {
        self.starts.get(&end).copied()
    }
}
