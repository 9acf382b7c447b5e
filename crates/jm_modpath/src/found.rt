//! Modules that are found, which are looked up by their names.
ghost use Rattle.std.specs.Prelude.{◌≡◌, ◌∷◌, ◌++◌, [], false, IfOk};
ghost use Rattle.jm_modpath.specs.Finding.{AreVisible, HasTexts};
ghost use Rattle.jm_modpath.specs.Modules.{is_named, name_of};

use crate::visible::VisibleModule;
use jm_bytes::{List, NoMemory};
use jm_closure::Places;
use std::alloc::Global;
use std::marker::Model;

/// Modules in an order, each name once, seen as their list. Each path in them is UTF-8.
#[derive(Drop)]
pub struct FoundModules {
    modules: List<VisibleModule>,
    names: Places,
}

impl Model for FoundModules {
    ghost use Rattle.std.specs.Prelude.{List, ◌≡◌};
    ghost use Rattle.std.specs.Option.{is_some};
    ghost use Rattle.jm_modpath.specs.declared.visible.VisibleModule.{VisibleModule};
    ghost use Rattle.jm_modpath.specs.Finding.{HasTexts};
    ghost use Rattle.jm_modpath.specs.Modules.{is_named};
    ghost use Rattle.jm_modpath.specs.FoundView.{Holds};

    ghost Value = { List VisibleModule };

    ghost view = { λ a. a.modules };

    ghost invariant = { λ a. Holds a.modules a.names };
}

impl FoundModules {
    /// No module yet.
    pub fn new(alloc: Global) -> FoundModules
        ensures { result ≡ [] }
    {
        FoundModules {
            modules: List::new(alloc),
            names: Places::new(alloc),
        }
    }

    /// Whether one of the modules has this name.
    pub fn has(&self, name: &[u8]) -> bool
        ensures { result ≡ is_named self.now name.now }
    {
        self.names.get(name).is_some()
    }

    /// The same with one module more at the end.
    pub fn with(self, alloc: Global, module: VisibleModule) -> Result<FoundModules, NoMemory>
        requires new { is_named self (name_of «module») ≡ false }
        requires texts { HasTexts «module» }
        ensures { IfOk result (λ found. found ≡ self ++ «module» ∷ []) }
    {
        let FoundModules {
            mut modules,
            mut names,
        } = self;
        let place = modules.len();
        names.put(alloc, module.candidate.descriptor.name.as_slice(), place)?;
        modules.push(module)?;
        Ok(FoundModules { modules, names })
    }

    /// The modules.
    pub fn into_list(self) -> List<VisibleModule>
        ensures list { result ≡ self }
        ensures are { AreVisible result }
    {
        let FoundModules { modules, .. } = self;
        modules
    }
}
