//! What is resident, by name and by serial.

ghost use Rattle.std.specs.Prelude.{◌≡◌, ◌↔◌, [], List, Contains, IsTrue, MatchOption, OnOk, OnErr};
ghost use Rattle.cache_ident.specs.declared.names.Name.{Name};
ghost use Rattle.cache_ident.specs.Residents.{Resident, IsNameResident, with_loaded, without, with_lock};

use cache_ident::{Ident, Name, NoMemory};
use std::alloc::Global;
use std::collections::BTreeMap;

/// What is resident: the identifier that its load gave it, its name, and whether it is locked.
#[derive(Clone, Copy, PartialEq, Eq, Debug)]
pub struct Held {
    pub ident: Ident,
    pub name: Name,
    pub locked: bool,
}

/// All that is resident. No two have one name or one serial.
///
/// A contract says of whatever list of residents the table has (`AreThose`) which list it has then, or what is in it.
/// Each call takes the logarithm of what is resident.
#[derive(Drop)]
pub struct Residents {
    by_name: BTreeMap<Name, Held>,
    names: BTreeMap<u64, Name>,
}

impl Residents {
    ghost use Rattle.residents.specs.Tables.{AreThose, HasNoIdent, HasNoSerial, IsHeldAs, resident_of};

    /// Nothing is resident.
    pub fn new(alloc: Global) -> Residents
        ensures { AreThose result [] }
    {
        Residents {
            by_name: BTreeMap::new(alloc),
            names: BTreeMap::new(alloc),
        }
    }

    /// What has that identifier.
    pub fn find(&self, ident: Ident) -> Option<Held>
        ensures { (rs : List Resident) → AreThose self.now rs → MatchOption result (HasNoIdent rs ident) (IsHeldAs rs ident) }
    {
        let name = self.names.get(&ident.serial)?;
        let held = *self.by_name.get(name)?;
        if held.ident == ident {
            Some(held)
        } else {
            None
        }
    }

    /// Whether something of that name is resident.
    pub fn is_named(&self, name: Name) -> bool
        ensures { (rs : List Resident) → AreThose self.now rs → (IsTrue result ↔ IsNameResident rs name) }
    {
        self.by_name.contains_key(&name)
    }

    /// Adds one that isn't locked. Where memory is wanted the table stays.
    pub fn load(&mut self, ident: Ident, name: Name) -> Result<(), NoMemory>
        ensures ok { OnOk result ((rs : List Resident) → AreThose self.old rs → (IsNameResident rs name → ⊥) → HasNoSerial rs ident.serial → AreThose self.new (with_loaded ident name rs)) }
        ensures err { OnErr result ((rs : List Resident) → AreThose self.old rs → (IsNameResident rs name → ⊥) → AreThose self.new rs) }
    {
        let held = Held {
            ident,
            name,
            locked: false,
        };
        self.by_name.insert(name, held)?;
        if let Err(refused) = self.names.insert(ident.serial, name) {
            let _ = self.by_name.remove(&name);
            return Err(refused.into());
        }
        Ok(())
    }

    /// Takes one out.
    pub fn remove(&mut self, held: Held)
        ensures { (rs : List Resident) → AreThose self.old rs → Contains rs (resident_of held) → AreThose self.new (without held.ident rs) }
    {
        let _ = self.by_name.remove(&held.name);
        let _ = self.names.remove(&held.ident.serial);
    }

    /// Sets or clears the lock of one. It takes no memory.
    pub fn set_lock(&mut self, held: Held, locked: bool)
        ensures { (rs : List Resident) → AreThose self.old rs → Contains rs (resident_of held) → AreThose self.new (with_lock held.ident locked rs) }
    {
        let changed = Held {
            ident: held.ident,
            name: held.name,
            locked,
        };
        // The name is there, so that no memory is wanted.
        let _ = self.by_name.insert(held.name, changed);
    }
}
