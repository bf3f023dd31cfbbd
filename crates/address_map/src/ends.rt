ghost use Rattle.std.specs.Prelude.{◌≡◌, [], length, OnOk, IfOk, OnErr};
ghost use Rattle.address_map.specs.Ends.{place_in, with_end};

use av_base::NoMemory;
use indexmap::IndexSet;
use std::alloc::Global;
use std::marker::Model;
use system_tables::EndId;

/// Ends of connections, each once, in the order in which they come first.
pub struct Ends {
    ends: IndexSet<EndId>,
}

/// By hand, so that what drops one calls this, and isn't followed through its fields.
impl Drop for Ends {
    fn drop(self) {
        let Ends { ends: _ } = self;
    }
}

impl Model for Ends {
    ghost use Rattle.std.specs.Prelude.{List};
    ghost use Rattle.system_tables.specs.declared.tables.EndId.{EndId as Id};

    ghost Value = { List Id };

    ghost view = { λ e. e.ends.keys };
}

impl Ends {
    pub fn new(alloc: Global) -> Ends
        ensures { result ≡ [] }
    {
        Ends {
            ends: IndexSet::new(alloc),
        }
    }

    pub fn as_slice(&self) -> &[EndId]
        ensures { result.now ≡ self.now }
    {
        self.ends.as_slice()
    }

    /// The place of an end, where it is there.
    pub fn place(&self, end: EndId) -> Option<usize>
        ensures { result ≡ place_in self.now end }
    {
        self.ends.get_index_of(&end)
    }

    /// Adds an end, unless it is there. On `Err` the list is as before.
    pub fn add(&mut self, end: EndId) -> Result<(), NoMemory>
        ensures ok { OnOk result (self.new ≡ with_end self.old end) }
        ensures err { OnErr result (self.new ≡ self.old) }
    {
        self.ends.insert(end)?;
        Ok(())
    }
}
