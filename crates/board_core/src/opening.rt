//! Declarations, and the seal.

ghost use Rattle.std.specs.Prelude.{◌≡◌, ◌+◌, ◌<◌, ◌≤◌, ◌∷◌, ◌++◌, [], false, true, None, OnErr, OnOk, IsOk, length};
ghost use Rattle.cache_ident.specs.Names.{first_name};
ghost use Rattle.flat_state.specs.Declaration.{broken_rule};
ghost use Rattle.run_journal.specs.Legal.{first_ident};
ghost use Rattle.run_journal.specs.declared.entries.Entry.TheVariants.{Declared, Loaded, Locked, Sealed};
ghost use Rattle.cached_machine.specs.desc_stores.specs.Changes.{room_of};
ghost use Rattle.cached_machine.specs.Cached.{state_of};
ghost use Rattle.cached_machine.specs.Posts.{HasSameMarks};
ghost use Rattle.board_core.specs.Core.{contents_of};
ghost use Rattle.board_core.specs.Growth.{GrowsBy, KeepsPlaces, IsRoomMade};
ghost use Rattle.board_core.specs.Stamps.{frame_declared as frame_declared_def};

use crate::core_record::{Core, known, next_place, note, put_stamp};
use cache_ident::{Frame, Ident, KernelNo, Name, NoMemory};
use flat_state::Decl;
use run_journal::{Entry, Journal};

impl Core {
    /// Makes a declaration that breaks no rule, before the seal. Where memory is wanted nothing but room changes.
    pub fn declare(&mut self, decl: &Decl) -> Result<(), NoMemory>
        requires open { self.old.sealed ≡ false }
        requires fits { broken_rule (state_of self.old.machine) decl.now ≡ None }
        ensures ok { OnOk result (GrowsBy (Declared decl.now ∷ []) self.old self.new × KeepsPlaces self.old self.new) }
        ensures err { OnErr result (IsRoomMade self.old self.new) }
        ensures enough { 1 ≤ self.old.journal.spare → 0 < room_of (contents_of self.old) → 0 < self.old.machine.sets.room → IsOk result }
    {
        self.journal.reserve(1)?;
        let made = self.machine.make_declaration(decl);
        known(&self.machine);
        made?;
        note(&mut self.journal, Entry::Declared { decl: *decl });
        put_stamp(&mut self.stamps, frame_declared(decl), self.journal.len());
        Ok(())
    }

    /// Ends the declarations, and loads and locks the first kernel, which was declared.
    pub fn seal(&mut self) -> Ident
        requires open { self.old.sealed ≡ false }
        requires kernel { 0 < length (state_of self.old.machine).kernels }
        requires room { 3 ≤ self.old.journal.spare }
        requires spare { 0 < (contents_of self.old).spare }
        ensures ident { result ≡ first_ident }
        ensures entries { GrowsBy (Sealed ∷ Loaded first_ident first_name 0 ∷ Locked first_ident 0 ∷ []) self.old self.new }
        ensures sealed { self.new.sealed ≡ true }
        ensures marks { HasSameMarks (contents_of self.old) (contents_of self.new) }
        ensures checkouts { self.new.checkouts ≡ self.old.checkouts }
        ensures issues { (contents_of self.old).spare ≤ (contents_of self.new).spare + 1 }
    {
        known(&self.machine);
        let at = next_place(&self.journal);
        let ident = self.machine.load(Name::Kernel(KernelNo(0)), &[], at);
        known(&self.machine);
        self.machine.lock(ident);
        known(&self.machine);
        note_seal(&mut self.journal, ident);
        self.sealed = true;
        self.loaded = 1;
        ident
    }
}

// The frame whose word is declared.
fn frame_declared(decl: &Decl) -> Option<Frame>
    ensures { result ≡ frame_declared_def decl.now }
{
    match *decl {
        Decl::Word { frame, .. } => Some(frame),
        _ => None,
    }
}

// Notes the seal, and that the first kernel was loaded and locked.
fn note_seal(journal: &mut Journal, ident: Ident)
    requires { 3 ≤ journal.old.spare }
    ensures entries { journal.new.entries ≡ journal.old.entries ++ Sealed ∷ Loaded ident first_name 0 ∷ Locked ident 0 ∷ [] }
    ensures spare { journal.old.spare ≤ journal.new.spare + 3 }
{
    note(journal, Entry::Sealed);
    note(
        journal,
        Entry::Loaded {
            ident,
            name: Name::Kernel(KernelNo(0)),
            cpu: 0,
        },
    );
    note(journal, Entry::Locked { ident, cpu: 0 });
}
