//! What resident rows rely on, and which rows rely on the same.

ghost use Rattle.std.specs.Prelude.{◌≡◌, ◌⊎◌, ◌↔◌, Contains, MatchOption, OnOk};
ghost use Rattle.cache_ident.specs.declared.names.Name.{Name};

use cache_ident::{KernelNo, Name, NoMemory};
use std::alloc::Global;
use std::collections::BTreeSet;

/// What a row relies on beside the descriptors that it names.
///
/// As this changes, all rows that rely on it stay as they should be, or none of them: one of them tells of all.
#[derive(Clone, Copy, PartialEq, Eq, PartialOrd, Ord, Debug)]
pub enum Reliance {
    /// The fit signal rows of a frame, on which each message row of the frame depends. The frame is that at a place of a
    /// page group.
    Signals {
        group: u32,
        place: u32,
    },
    /// The rights of a kernel on a page group, as far as a row asks for them: whether it reads or fetches, and whether it
    /// writes.
    Rights {
        kernel: KernelNo,
        group: u32,
        reads: bool,
        writes: bool,
    },
}

/// The signal rows of the first frame.
impl Default for Reliance {
    ghost use Rattle.residents.specs.declared.relying.Reliance.TheVariants.{Signals};

    ghost is_default = { λ reliance. reliance ≡ Signals 0 0 };

    fn default() -> Reliance {
        Reliance::Signals { group: 0, place: 0 }
    }
}

/// Pairs of what is relied on and the name of a row that relies on it.
///
/// Each call takes the logarithm of the pairs for each pair that it adds, takes out or looks for.
#[derive(Drop)]
pub struct RelyingRows {
    pairs: BTreeSet<(Reliance, Name)>,
}

impl RelyingRows {
    ghost use Rattle.residents.specs.declared.relying.Reliance.{Reliance};
    ghost use Rattle.residents.specs.Relying.{IsRelying};

    /// No row.
    pub fn new(alloc: Global) -> RelyingRows
        ensures { (reliance : Reliance) (name : Name) → IsRelying result reliance name → ⊥ }
    {
        RelyingRows {
            pairs: BTreeSet::new(alloc),
        }
    }

    /// From now on the row relies on these too. Where memory is wanted it may rely on some of them.
    pub fn add(&mut self, row: Name, reliances: &[Reliance]) -> Result<(), NoMemory>
        ensures { OnOk result ((reliance : Reliance) (other : Name) → IsRelying self.new reliance other ↔ (IsRelying self.old reliance other ⊎ ((other ≡ row) × Contains reliances.now reliance))) }
    {
        for reliance in reliances {
            self.pairs.insert((*reliance, row))?;
        }
        Ok(())
    }

    /// From now on the row doesn't rely on these.
    pub fn remove(&mut self, row: Name, reliances: &[Reliance])
        ensures { (reliance : Reliance) (other : Name) → IsRelying self.new reliance other ↔ (IsRelying self.old reliance other × (((other ≡ row) × Contains reliances.now reliance) → ⊥)) }
    {
        for reliance in reliances {
            let _ = self.pairs.remove(&(*reliance, row));
        }
    }

    /// A row that relies on it, if any does.
    pub fn first(&self, reliance: Reliance) -> Option<Name>
        ensures { MatchOption result ((name : Name) → IsRelying self.now reliance name → ⊥) (IsRelying self.now reliance) }
    {
        let least = (reliance, Name::Kernel(KernelNo(0)));
        match self.pairs.range(least..).next() {
            Some(pair) => {
                if pair.0 == reliance {
                    Some(pair.1)
                } else {
                    None
                }
            }
            None => None,
        }
    }
}
