//! How many are locked.

ghost use Rattle.std.specs.Prelude.{◌≡◌, ℕ, ◌+◌, ◌-◌, ◌<◌, ◌^◌, OnOk};
ghost use Rattle.cache_ident.specs.declared.idents.Kind.{Kind};
ghost use Rattle.cache_ident.specs.declared.names.KernelNo.{KernelNo};

use cache_ident::{KernelNo, Kind, NoMemory};
use std::alloc::Global;
use std::collections::BTreeMap;

/// How many descriptors of each kernel and kind are locked. Each call takes the logarithm of how many kernels have any.
#[derive(Drop)]
pub struct Locks {
    // None of them is 0.
    counts: BTreeMap<(KernelNo, Kind), u32>,
}

impl Locks {
    ghost use Rattle.journal_tables.specs.Locks.{Recounts, RecountsFor, lock_count};

    /// None is locked.
    pub fn new(alloc: Global) -> Locks
        ensures { (kernel : KernelNo) (kind : Kind) → lock_count result kernel kind ≡ 0 }
    {
        Locks {
            counts: BTreeMap::new(alloc),
        }
    }

    /// How many of a kernel's descriptors of a kind are locked.
    pub fn count(&self, kernel: KernelNo, kind: Kind) -> u32
        ensures { result ≡ lock_count self.now kernel kind }
    {
        match self.counts.get(&(kernel, kind)) {
            Some(count) => *count,
            None => 0,
        }
    }

    /// One more is locked.
    pub fn add(&mut self, kernel: KernelNo, kind: Kind) -> Result<(), NoMemory>
        requires { lock_count self.old kernel kind + 1 < 2 ^ 32 }
        ensures { OnOk result (Recounts self.old self.new kernel kind (lock_count self.old kernel kind + 1)) }
    {
        let count = self.count(kernel, kind);
        self.counts.insert((kernel, kind), count + 1)?;
        Ok(())
    }

    /// One fewer is locked, if there is one. It takes no memory.
    pub fn remove(&mut self, kernel: KernelNo, kind: Kind)
        ensures { Recounts self.old self.new kernel kind (lock_count self.old kernel kind - 1) }
    {
        let count = self.count(kernel, kind);
        if count > 1 {
            // The pair is there, so that no memory is wanted.
            let _ = self.counts.insert((kernel, kind), count - 1);
        } else {
            let _ = self.counts.remove(&(kernel, kind));
        }
    }

    /// One fewer of what a kernel owns is locked, if there is such a kernel.
    pub fn forget(&mut self, owner: Option<KernelNo>, kind: Kind)
        ensures { RecountsFor self.old self.new owner kind }
    {
        if let Some(kernel) = owner {
            self.remove(kernel, kind);
        }
    }
}
