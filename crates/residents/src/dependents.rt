//! What depends on what, by name.

ghost use Rattle.std.specs.Prelude.{◌≡◌, ◌≢◌, ◌⊎◌, ◌↔◌, Contains, IsTrue, OnOk};
ghost use Rattle.cache_ident.specs.declared.names.Name.{Name};

use cache_ident::{KernelNo, Name, NoMemory};
use std::alloc::Global;
use std::collections::BTreeSet;

/// Pairs of a parent and a child that depends on it.
///
/// Each call takes the logarithm of the pairs for each pair that it adds, takes out or looks for.
#[derive(Drop)]
pub struct Dependents {
    pairs: BTreeSet<(Name, Name)>,
}

impl Dependents {
    ghost use Rattle.residents.specs.Pairs.{IsPair};

    /// No pair.
    pub fn new(alloc: Global) -> Dependents
        ensures { (parent child : Name) → IsPair result parent child → ⊥ }
    {
        Dependents {
            pairs: BTreeSet::new(alloc),
        }
    }

    /// From now on the child depends on these parents too. Where memory is wanted it may depend on some of them.
    pub fn add(&mut self, child: Name, parents: &[Name]) -> Result<(), NoMemory>
        ensures { OnOk result ((parent other : Name) → IsPair self.new parent other ↔ (IsPair self.old parent other ⊎ ((other ≡ child) × Contains parents.now parent))) }
    {
        for parent in parents {
            self.pairs.insert((*parent, child))?;
        }
        Ok(())
    }

    /// From now on the child doesn't depend on these parents.
    pub fn remove(&mut self, child: Name, parents: &[Name])
        ensures { (parent other : Name) → IsPair self.new parent other ↔ (IsPair self.old parent other × (((other ≡ child) × Contains parents.now parent) → ⊥)) }
    {
        for parent in parents {
            let _ = self.pairs.remove(&(*parent, child));
        }
    }

    /// Whether something depends on the parent.
    pub fn has(&self, parent: Name) -> bool
        ensures { IsTrue result ↔ ((child : Name) × IsPair self.now parent child) }
    {
        let least = (parent, Name::Kernel(KernelNo(0)));
        match self.pairs.range(least..).next() {
            Some(pair) => pair.0 == parent,
            None => false,
        }
    }
}
