//! What is declared, before the seal and by calls of threads.

ghost use Rattle.std.specs.Prelude.{◌<◌, IsOk, OnErr, OnOk};
ghost use Rattle.flat_state.specs.declared.events.Decl.TheVariants as decls;
ghost use Rattle.board_laws.specs.desc_stores.specs.Changes.{room_of};
ghost use Rattle.cached_machine.specs.Moved.{IsMade, MayBeMade, OnlyRoom};

use crate::machine::CachedMachine;
use crate::reading::known;
use arrayvec::ArrayVec;
use board_laws::Item;
use cache_ident::{Caps, Frame, KernelNo, NoMemory, SpaceNo, ThreadNo, Vpn};
use flat_machine::new_context;
use flat_state::Decl;
use kernel_cache::KernelRec;
use phys_groups::{Flags, PAGE_BYTES, Rights, Row};
use rv32_exec::{Output, Status};
use space_cache::SpaceRec;
use thread_cache::ThreadRec;

impl CachedMachine {
    /// Makes a declaration that breaks no rule, and after which what is loaded is still fit and has all that it depends on
    /// loaded. A new descriptor goes to its owner's shelf. Where memory is wanted nothing but room changes, and after
    /// `make_room` none is.
    pub fn make_declaration(&mut self, decl: &Decl) -> Result<(), NoMemory>
        requires { MayBeMade decl.now self.old }
        ensures ok { OnOk result (IsMade decl.now self.old self.new) }
        ensures err { OnErr result (OnlyRoom self.old self.new) }
        ensures enough { 0 < room_of self.old.held.contents → 0 < self.old.sets.room → IsOk result }
    {
        match *decl {
            // It is declared already.
            Decl::Machine { .. } => Ok(()),
            Decl::Kernel { no, limits } => self.declare_kernel(no, limits),
            Decl::Right {
                kernel,
                group,
                read,
                write,
            } => {
                self.set_right(kernel, group, read, write);
                Ok(())
            }
            Decl::Space { no, kernel } => self.declare_space(no, kernel),
            Decl::Thread {
                no,
                space,
                pc,
                priority,
                a0,
                a1,
            } => self.declare_thread(no, space, pc, priority, a0, a1),
            Decl::Map {
                space,
                vpn,
                frame,
                flags,
                receiver,
            } => self.declare_row(space, vpn, frame, flags, receiver),
            Decl::Word {
                frame,
                offset,
                value,
            } => {
                self.place_word(frame, offset, value);
                Ok(())
            }
        }
    }

    fn declare_kernel(&mut self, no: KernelNo, limits: Caps) -> Result<(), NoMemory>
        requires { MayBeMade (decls.Kernel no limits) self.old }
        ensures ok { OnOk result (IsMade (decls.Kernel no limits) self.old self.new) }
        ensures err { OnErr result (OnlyRoom self.old self.new) }
        ensures enough { 0 < room_of self.old.held.contents → IsOk result }
    {
        known(&self.tables);
        self.tables.declare(Item::Kernel(KernelRec {
            no,
            rights: Rights::none(),
            limits,
            locked: Caps::default(),
        }))?;
        // The rules keep each sum within its capacity.
        self.granted = Caps {
            kernels: self.granted.kernels + limits.kernels,
            spaces: self.granted.spaces + limits.spaces,
            threads: self.granted.threads + limits.threads,
            mappings: self.granted.mappings + limits.mappings,
        };
        Ok(())
    }

    fn set_right(&mut self, kernel: KernelNo, group: u32, read: bool, write: bool)
        requires { MayBeMade (decls.Right kernel group read write) self.old }
        ensures { IsMade (decls.Right kernel group read write) self.old self.new }
    {
        known(&self.tables);
        self.tables.set_rights(kernel, group, read, write);
    }

    fn declare_space(&mut self, no: SpaceNo, kernel: KernelNo) -> Result<(), NoMemory>
        requires { MayBeMade (decls.Space no kernel) self.old }
        ensures ok { OnOk result (IsMade (decls.Space no kernel) self.old self.new) }
        ensures err { OnErr result (OnlyRoom self.old self.new) }
        ensures enough { 0 < room_of self.old.held.contents → IsOk result }
    {
        known(&self.tables);
        self.tables.declare(Item::Space(SpaceRec { no, kernel }))?;
        Ok(())
    }

    fn declare_thread(
        &mut self,
        no: ThreadNo,
        space: SpaceNo,
        pc: u32,
        priority: u32,
        a0: u32,
        a1: u32,
    ) -> Result<(), NoMemory>
        requires { MayBeMade (decls.Thread no space pc priority a0 a1) self.old }
        ensures ok { OnOk result (IsMade (decls.Thread no space pc priority a0 a1) self.old self.new) }
        ensures err { OnErr result (OnlyRoom self.old self.new) }
        ensures enough { 0 < room_of self.old.held.contents → 0 < self.old.sets.room → IsOk result }
    {
        // Both have room before either changes.
        self.sets.make_room()?;
        self.tables.make_room()?;
        known(&self.tables);
        let thread = ThreadRec {
            no,
            space,
            context: new_context(pc, a0, a1),
            status: Status::Ready,
            priority,
            queue: ArrayVec::new(),
            output: Output::new(self.alloc),
            on_cpu: None,
            last: 0,
        };
        self.sets.push(&thread);
        self.tables.declare(Item::Thread(thread))?;
        Ok(())
    }

    fn declare_row(
        &mut self,
        space: SpaceNo,
        vpn: Vpn,
        frame: Frame,
        flags: Flags,
        receiver: Option<ThreadNo>,
    ) -> Result<(), NoMemory>
        requires { MayBeMade (decls.Map space vpn frame flags receiver) self.old }
        ensures ok { OnOk result (IsMade (decls.Map space vpn frame flags receiver) self.old self.new) }
        ensures err { OnErr result (OnlyRoom self.old self.new) }
        ensures enough { 0 < room_of self.old.held.contents → IsOk result }
    {
        known(&self.tables);
        self.tables.declare(Item::Mapping(Row {
            space,
            vpn,
            frame,
            flags,
            receiver,
            referenced: false,
            modified: false,
        }))?;
        Ok(())
    }

    fn place_word(&mut self, frame: Frame, offset: u32, value: u32)
        requires { MayBeMade (decls.Word frame offset value) self.old }
        ensures { IsMade (decls.Word frame offset value) self.old self.new }
    {
        self.memory.store_word(PAGE_BYTES * frame.0 + offset, value);
    }
}
