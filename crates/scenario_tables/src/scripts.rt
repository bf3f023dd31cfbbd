ghost use Rattle.std.specs.Prelude.{◌≡◌, ◌<◌, [], ◌∷◌, ◌++◌, length, replicate, slice_get, Some, IfOk, OnOk, OnErr};
ghost use Rattle.scenario_tables.specs.Changes.{changed_at};

use av_base::{List, NoMemory};
use std::alloc::Global;
use std::marker::Model;

/// The statements of each interface of a kind, by the interface's number.
pub struct Scripts<T> {
    scripts: Vec<List<T>>,
}

/// By hand, so that what drops one calls this, and isn't followed through its fields.
impl<T: Drop> Drop for Scripts<T> {
    fn drop(self) {
        let Scripts { scripts: _ } = self;
    }
}

impl<T> Model for Scripts<T> {
    ghost use Rattle.std.specs.Prelude.{List as Sequence};

    ghost Value = { Sequence (Sequence T) };

    ghost view = { λ s. s.scripts.items };
}

impl<T: Drop> Scripts<T> {
    /// So many interfaces without a statement.
    pub fn blank(alloc: Global, count: usize) -> Result<Scripts<T>, NoMemory>
        ensures { IfOk result (λ scripts. scripts ≡ replicate count []) }
    {
        let mut scripts = Vec::new(alloc);
        'interfaces: for _ in 0..count {
            scripts.push(List::new(alloc))?;
        }
        Ok(Scripts { scripts })
    }

    /// Adds an interface with these statements.
    pub fn add(&mut self, script: List<T>) -> Result<(), NoMemory>
        ensures ok { OnOk result (self.new ≡ self.old ++ script ∷ []) }
        ensures err { OnErr result (self.new ≡ self.old) }
    {
        self.scripts.push(script)?;
        Ok(())
    }

    /// Adds a statement of an interface.
    pub fn push(&mut self, number: usize, statement: T) -> Result<(), NoMemory>
        requires { number < length self.old }
        ensures ok { OnOk result (self.new ≡ changed_at number (λ script. script ++ statement ∷ []) self.old) }
        ensures err { OnErr result (self.new ≡ self.old) }
    {
        self.scripts[number].push(statement)?;
        Ok(())
    }
}

impl<T> Scripts<T> {
    /// How many interfaces there are.
    pub fn len(&self) -> usize
        ensures { result ≡ length self.now }
    {
        self.scripts.len()
    }

    /// The statements of an interface, in order.
    pub fn script(&self, number: usize) -> &[T]
        requires { number < length self.now }
        ensures { slice_get self.now number ≡ Some result.now }
    {
        self.scripts[number].as_slice()
    }
}
