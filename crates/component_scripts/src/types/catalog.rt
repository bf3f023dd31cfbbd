ghost use Rattle.std.specs.Prelude.{◌≡◌};

use crate::types::component::Component;
use av_base::NoMemory;
use script_words::{CommandRule, Names, ScriptFault, ScriptRule};
use std::alloc::Global;
use std::marker::Model;

/// Components by the names of their types.
pub struct Catalog {
    alloc: Global,
    names: Names,
    components: Vec<Component>,
}

/// By hand, so that what drops a catalog calls this, and isn't followed through the fields.
impl Drop for Catalog {
    fn drop(self) {
        let Catalog {
            alloc: _,
            names: _,
            components: _,
        } = self;
    }
}

impl Model for Catalog {
    ghost use Rattle.std.specs.Prelude.{List};
    ghost use Rattle.component_scripts.specs.Tables.{ComponentTable, IsComponent};
    ghost use Rattle.component_scripts.specs.Catalog.{IsCatalog};

    ghost Value = { List ComponentTable };

    ghost view = { λ c. c.components.items };

    ghost invariant = { λ c. IsCatalog c.names c.components.items };
}

impl Catalog {
    ghost use Rattle.std.specs.Prelude.{[], ◌∷◌, ◌++◌, false, OnOk, OnErr, IfErr, length, slice_get};
    ghost use Rattle.std.specs.Option.{option_copied};
    ghost use Rattle.component_scripts.specs.Tables.{ComponentTable};
    ghost use Rattle.component_scripts.specs.Catalog.{is_refused, IsAddFault, type_place};

    /// No component.
    pub fn new(alloc: Global) -> Catalog
        ensures { result ≡ [] }
    {
        Catalog {
            alloc,
            names: Names::new(alloc),
            components: Vec::new(alloc),
        }
    }

    /// Whether the component's type is there already, or is `clock_source`.
    #[tactic(auto, unfolding(crate::specs::Catalog::is_refused))]
    fn refuses(&self, component: &Component) -> bool
        ensures { result ≡ is_refused self.now component.now }
    {
        component.name() == "clock_source" || self.names.find(component.name()).is_some()
    }

    /// Adds a component that isn't refused.
    #[tactic(auto, unfolding(crate::specs::Catalog::is_refused))]
    fn insert(&mut self, component: Component) -> Result<(), NoMemory>
        requires { is_refused self.old component ≡ false }
        ensures added { OnOk result (self.new ≡ self.old ++ component ∷ []) }
        ensures err { OnErr result (self.new ≡ self.old) }
    {
        self.names
            .add_for(self.alloc, component.name(), &mut self.components)?;
        self.components.push(component).unwrap();
        Ok(())
    }

    /// Adds a component. Refused where its type is there already, or is `clock_source`.
    pub fn add(&mut self, component: Component) -> Result<(), ScriptFault>
        ensures accepted { OnOk result (is_refused self.old component ≡ false) }
        ensures added { OnOk result (self.new ≡ self.old ++ component ∷ []) }
        ensures refused { IfErr result (IsAddFault self.old component) }
        ensures err { OnErr result (self.new ≡ self.old) }
    {
        if self.refuses(&component) {
            return Err(ScriptFault::Refused {
                place: component.place(),
                rule: ScriptRule::Command(CommandRule::TypeTaken.number()),
            });
        }
        self.insert(component)?;
        Ok(())
    }

    /// The components, in the order in which they were added.
    pub(crate) fn components(&self) -> &[Component]
        ensures { result.now ≡ self.now }
    {
        self.components.as_slice()
    }

    pub(crate) fn len(&self) -> usize
        ensures { result ≡ length self.now }
    {
        self.components.len()
    }

    /// The place of a type.
    pub(crate) fn find(&self, name: &str) -> Option<usize>
        ensures { result ≡ type_place self.now name.now }
    {
        self.names.find(name)
    }

    /// The component at a place.
    pub(crate) fn component(&self, k: usize) -> Option<&Component>
        ensures { option_copied result ≡ slice_get self.now k }
    {
        self.components.get(k)
    }
}
