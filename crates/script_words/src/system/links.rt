ghost use Rattle.std.specs.Prelude.{◌≡◌, ◌&&◌, ◌||◌, ◌++◌, ◌∷◌, [], position, OnOk, OnErr, IsNone};
ghost use Rattle.std.specs.List.{list_any};
ghost use Rattle.script_words.specs.declared.system.joints.Terminal.{Terminal};
ghost use Rattle.script_words.specs.Joints.{same_end, same_link};

use crate::system::joints::{Link, Terminal};
use av_base::NoMemory;
use indexmap::IndexSet;
use std::alloc::Global;
use std::collections::HashSet;
use std::marker::Model;

/// The ends of connections, by the numbers of the connections.
pub struct Links {
    links: IndexSet<Link>,
}

/// By hand, so that what drops links calls this, and isn't followed through the fields.
impl Drop for Links {
    fn drop(self) {
        let Links { links: _ } = self;
    }
}

impl Model for Links {
    ghost use Rattle.std.specs.Prelude.{List};
    ghost use Rattle.script_words.specs.declared.system.joints.Link.{Link};

    ghost Value = { List Link };

    ghost view = { λ l. l.links.keys };
}

impl Links {
    /// No connection.
    pub fn new(alloc: Global) -> Links
        ensures { result ≡ [] }
    {
        Links {
            links: IndexSet::new(alloc),
        }
    }

    /// The number of the connection with these ends.
    pub fn find(&self, link: Link) -> Option<usize>
        ensures { result ≡ position (same_link link) self.now }
    {
        self.links.get_index_of(&link)
    }
}

/// Ends, each once.
pub struct Ends {
    ends: HashSet<Terminal>,
}

/// By hand, so that what drops ends calls this, and isn't followed through the fields.
impl Drop for Ends {
    fn drop(self) {
        let Ends { ends: _ } = self;
    }
}

impl Model for Ends {
    ghost use Rattle.std.specs.Prelude.{List};
    ghost use Rattle.script_words.specs.declared.system.joints.Terminal.{Terminal};

    ghost Value = { List Terminal };

    ghost view = { λ e. e.ends.keys };
}

impl Ends {
    /// No end.
    pub fn new(alloc: Global) -> Ends
        ensures { result ≡ [] }
    {
        Ends {
            ends: HashSet::new(alloc),
        }
    }

    /// Whether the end is taken.
    pub fn contains(&self, end: Terminal) -> bool
        ensures { result ≡ list_any (same_end end) self.now }
    {
        self.ends.contains(&end)
    }

    /// Adds both ends of a connection, where they aren't there yet.
    fn add_both(&mut self, link: Link) -> Result<(), NoMemory>
        ensures ok { OnOk result ((end : Terminal) → list_any (same_end end) self.new
            ≡ (list_any (same_end end) self.old || same_end end link.start || same_end end link.end)) }
        ensures err { OnErr result (self.new ≡ self.old) }
    {
        self.ends.reserve(2)?;
        let _ = self.ends.insert(link.start).unwrap();
        let _ = self.ends.insert(link.end).unwrap();
        Ok(())
    }
}

/// Adds a connection that isn't there yet, and its ends where it takes them: all of that, or nothing.
pub fn add_link(
    links: &mut Links,
    taken: &mut Ends,
    link: Link,
    takes: bool,
) -> Result<(), NoMemory>
    requires { IsNone (position (same_link link) links.old) }
    ensures links { OnOk result (links.new ≡ links.old ++ link ∷ []) }
    ensures taken { OnOk result ((end : Terminal) → list_any (same_end end) taken.new
        ≡ (list_any (same_end end) taken.old || (takes && (same_end end link.start || same_end end link.end)))) }
    ensures no_link { OnErr result (links.new ≡ links.old) }
    ensures not_taken { OnErr result (taken.new ≡ taken.old) }
{
    links.links.reserve(1)?;
    if takes {
        taken.add_both(link)?;
    }
    let _ = links.links.insert(link).unwrap();
    Ok(())
}
