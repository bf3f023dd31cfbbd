ghost use Rattle.std.specs.Prelude.{◌≡◌, ◌++◌, ◌∷◌, ◌<◌, [], length, OnOk, OnErr, IsNone, vec_len, vec_capacity};
ghost use Rattle.std.specs.List.{IsDistinct};
ghost use Rattle.std.specs.Str.{bytes_eq};
ghost use Rattle.script_words.specs.Names.{place_of};

use av_base::NoMemory;
use indexmap::IndexSet;
use std::alloc::Global;
use std::marker::Model;

/// Names by number, in the order in which they were added.
pub struct Names {
    names: IndexSet<String>,
}

/// By hand, so that what drops names calls this, and isn't followed through the fields.
impl Drop for Names {
    fn drop(self) {
        let Names { names: _ } = self;
    }
}

impl Model for Names {
    ghost use Rattle.std.specs.Prelude.{ℕ, List, map, string_bytes};

    ghost Value = { List (List ℕ) };

    ghost view = { λ n. map string_bytes n.names.keys };
}

impl Names {
    /// No name.
    pub fn new(alloc: Global) -> Names
        ensures { result ≡ [] }
    {
        Names {
            names: IndexSet::new(alloc),
        }
    }

    /// The number of a name.
    pub fn find(&self, name: &str) -> Option<usize>
        ensures { result ≡ place_of self.now name.now }
    {
        self.names.get_index_of(name)
    }

    /// No two names are the same.
    pub fn distinct(&self)
        ensures { IsDistinct bytes_eq self.now }
    {
        let _ = self.names.len();
    }

    /// Adds a name that isn't there yet.
    pub fn add(&mut self, alloc: Global, name: &str) -> Result<(), NoMemory>
        requires { IsNone (place_of self.old name.now) }
        ensures ok { OnOk result (self.new ≡ self.old ++ name.now ∷ []) }
        ensures err { OnErr result (self.new ≡ self.old) }
    {
        self.names.insert(String::from_str(alloc, name)?)?;
        Ok(())
    }

    /// Adds a name that isn't there yet, and makes room for the item that it names. On `Err` the names are as before.
    pub fn add_for<T>(
        &mut self,
        alloc: Global,
        name: &str,
        items: &mut Vec<T>,
    ) -> Result<(), NoMemory>
        requires { IsNone (place_of self.old name.now) }
        ensures ok { OnOk result (self.new ≡ self.old ++ name.now ∷ []) }
        ensures err { OnErr result (self.new ≡ self.old) }
        ensures items { items.new.items ≡ items.old.items }
        ensures room { OnOk result (vec_len items.new < vec_capacity items.new) }
    {
        items.reserve(1)?;
        self.add(alloc, name)
    }
}
