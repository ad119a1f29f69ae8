//! What owners know.

ghost use Rattle.std.specs.Prelude.{◌≡◌, ◌∷◌, ◌++◌, [], List, slice_get, IfOk, IsOk, None, OnErr, OnOk};
ghost use Rattle.flat_state.specs.declared.events.Decl.{Decl};
ghost use Rattle.run_journal.specs.declared.entries.Entry.{Entry};
ghost use Rattle.run_journal.specs.Legal.{IsLegal};
ghost use Rattle.run_journal.specs.Points.{opening};
ghost use Rattle.owners.specs.Known.{home_of, ident_of, receiver_of, space_of, IsMet, IsNoted, IsReceiverLearnt, IsSpaceLearnt};
ghost use Rattle.owners.specs.Telling.{AreNewOwners};
ghost use Rattle.owners.specs.Owning.{AreOwnersOf};

use cache_ident::{Ident, KernelNo, Name, NoMemory, SpaceNo, ThreadNo, Vpn};
use flat_state::Decl;
use indexmap::IndexMap;
use std::alloc::Global;
use std::marker::Model;

/// What application kernels know of their descriptors: the names, and for each the identifier with which it was loaded last as
/// far as they know; the space of a thread, the receiver of a row, the kernel of a space, and for a kernel one of its spaces.
///
/// Nothing is forgotten where a descriptor leaves: the board says that an identifier is stale, and the next load's takes its
/// place. Want of memory changes nothing. `new` looks at each declaration once, and every other call takes constant time.
#[derive(Drop)]
pub struct Owners {
    // In declared order, and behind those as they were first noted.
    idents: IndexMap<Name, Option<Ident>>,
    threads: IndexMap<ThreadNo, SpaceNo>,
    receivers: IndexMap<(SpaceNo, Vpn), ThreadNo>,
    spaces: Vec<KernelNo>,
    homes: IndexMap<KernelNo, SpaceNo>,
}

impl Model for Owners {
    ghost use Rattle.owners.specs.Known.{Known};

    ghost Value = { Known };

    ghost view = { λ o. record {
      idents = o.idents.entries;
      threads = o.threads.entries;
      receivers = o.receivers.entries;
      spaces = o.spaces.items;
      homes = o.homes.entries;
    } };
}

impl Owners {
    /// Owners that know what these declarations tell, and of no load. They are owners of each legal journal that begins with these
    /// declarations and the seal.
    pub fn new(alloc: Global, decls: &[Decl]) -> Result<Owners, NoMemory>
        ensures told { IfOk result (AreNewOwners decls.now) }
        ensures owners { IfOk result (λ owners. (j rest : List Entry) → IsLegal j → j ≡ opening decls.now ++ rest → AreOwnersOf j owners) }
    {
        let mut owners = Owners {
            idents: IndexMap::new(alloc),
            threads: IndexMap::new(alloc),
            receivers: IndexMap::new(alloc),
            spaces: Vec::new(alloc),
            homes: IndexMap::new(alloc),
        };
        for decl in decls {
            owners.hear(decl)?;
        }
        Ok(owners)
    }

    // Takes in one declaration more.
    fn hear(&mut self, decl: &Decl) -> Result<(), NoMemory>
        ensures { OnOk result ((ds : List Decl) → AreNewOwners ds self.old → AreNewOwners (ds ++ decl.now ∷ []) self.new) }
    {
        match *decl {
            Decl::Machine { .. } | Decl::Right { .. } | Decl::Word { .. } => Ok(()),
            Decl::Kernel { no, .. } => self.meet(Name::Kernel(no)),
            Decl::Space { no, kernel } => {
                self.meet(Name::Space(no))?;
                self.spaces.push(kernel)?;
                self.homes.insert(kernel, no)?;
                Ok(())
            }
            Decl::Thread { no, space, .. } => {
                self.meet(Name::Thread(no))?;
                self.learn_space(no, space)
            }
            Decl::Map {
                space,
                vpn,
                receiver,
                ..
            } => {
                self.meet(Name::Mapping(space, vpn))?;
                match receiver {
                    Some(_) => self.learn_receiver(space, vpn, receiver),
                    None => Ok(()),
                }
            }
        }
    }

    // A name of which no load is known.
    fn meet(&mut self, name: Name) -> Result<(), NoMemory>
        ensures { OnOk result (IsMet name self.old self.new) }
    {
        self.idents.insert(name, None)?;
        Ok(())
    }

    /// Notes the identifier with which a name was loaded, in the place of the one before.
    pub fn note(&mut self, name: Name, ident: Ident) -> Result<(), NoMemory>
        ensures ok { OnOk result (IsNoted name ident self.old self.new) }
        ensures err { OnErr result (self.new ≡ self.old) }
    {
        self.idents.insert(name, Some(ident))?;
        Ok(())
    }

    /// The identifier noted last for a name, if one is. It may be stale.
    pub fn noted(&self, name: Name) -> Option<Ident>
        ensures { result ≡ ident_of self.now name }
    {
        self.idents.get(&name).copied().flatten()
    }

    /// The kernel of a space, if the space is known.
    pub fn kernel_of(&self, space: SpaceNo) -> Option<KernelNo>
        ensures { result ≡ slice_get self.now.spaces space.0 }
    {
        self.spaces.get(space.0 as usize).copied()
    }

    /// A space of a kernel, if one is known.
    pub fn space_of_kernel(&self, kernel: KernelNo) -> Option<SpaceNo>
        ensures { result ≡ home_of self.now kernel }
    {
        self.homes.get(&kernel).copied()
    }

    /// The space of a thread, if it is known.
    pub fn space_of(&self, thread: ThreadNo) -> Option<SpaceNo>
        ensures { result ≡ space_of self.now thread }
    {
        self.threads.get(&thread).copied()
    }

    /// Learns the space of a thread, in the place of the one that was believed.
    pub fn learn_space(&mut self, thread: ThreadNo, space: SpaceNo) -> Result<(), NoMemory>
        ensures ok { OnOk result (IsSpaceLearnt thread space self.old self.new) }
        ensures err { OnErr result (self.new ≡ self.old) }
    {
        self.threads.insert(thread, space)?;
        Ok(())
    }

    /// The thread that receives the signals of a page's row, if one is known.
    pub fn receiver_of(&self, space: SpaceNo, vpn: Vpn) -> Option<ThreadNo>
        ensures { result ≡ receiver_of self.now (space, vpn) }
    {
        self.receivers.get(&(space, vpn)).copied()
    }

    /// Learns which thread receives the signals of a page's row, or that none does. That none does takes no memory.
    pub fn learn_receiver(
        &mut self,
        space: SpaceNo,
        vpn: Vpn,
        receiver: Option<ThreadNo>,
    ) -> Result<(), NoMemory>
        ensures ok { OnOk result (IsReceiverLearnt (space, vpn) receiver self.old self.new) }
        ensures err { OnErr result (self.new ≡ self.old) }
        ensures none { receiver ≡ None → IsOk result }
    {
        let page = (space, vpn);
        match receiver {
            Some(receiver) => {
                self.receivers.insert(page, receiver)?;
            }
            None => {
                let _ = self.receivers.swap_remove(&page);
            }
        }
        Ok(())
    }
}
