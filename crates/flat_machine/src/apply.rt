//! What an event makes of the machine.

ghost use Rattle.std.specs.Prelude.{◌≡◌, None, OnOk, OnErr};
ghost use Rattle.flat_state.specs.declared.events.Decl.TheVariants as decls;
ghost use Rattle.flat_state.specs.Declaration.{broken_rule, declared, new_registers};
ghost use Rattle.flat_state.specs.Events.{applied};

use crate::NoMemory;
use crate::flat::Flat;
use arrayvec::ArrayVec;
use cache_ident::{Caps, Frame, KernelNo, SpaceNo, ThreadNo, Vpn};
use flat_events::{complete, step};
use flat_state::{Decl, Event, FlatKernel, FlatThread, Machine};
use phys_groups::{Flags, Memory, PAGE_BYTES, Rights, Row};
use rv32_exec::{Context, Output, Status};

/// The registers of a new thread: all are 0 but its pc and two arguments, in a0 and a1.
pub fn new_context(pc: u32, a0: u32, a1: u32) -> Context
    ensures { result ≡ record { regs = new_registers a0 a1; pc = pc } }
{
    let mut regs = [0; 32];
    regs[10] = a0;
    regs[11] = a1;
    Context { regs, pc }
}

impl Flat {
    /// Makes the event happen. One that doesn't fit leaves the machine as it is, and so does want of memory. A step, a
    /// call or a declared row costs the logarithm of the rows, the machine its memory, and all else constant time. Where
    /// a thread is added or an output grows, that is amortised.
    pub fn apply(&mut self, event: &Event) -> Result<(), NoMemory>
        ensures ok { OnOk result (self.new ≡ applied self.old event.now) }
        ensures err { OnErr result (self.new ≡ self.old) }
    {
        match *event {
            Event::Declare(decl) => match self.admit(&decl) {
                Ok(()) => self.add(&decl),
                Err(_) => Ok(()),
            },
            Event::Step(no) => {
                step(self, no);
                Ok(())
            }
            Event::Complete(no) => complete(self, no),
        }
    }

    // Makes a declaration that breaks no rule.
    pub(crate) fn add(&mut self, decl: &Decl) -> Result<(), NoMemory>
        requires { broken_rule self.old decl.now ≡ None }
        ensures ok { OnOk result (self.new ≡ declared self.old decl.now) }
        ensures err { OnErr result (self.new ≡ self.old) }
    {
        match *decl {
            Decl::Machine { machine } => self.declare_machine(machine),
            Decl::Kernel { no, limits } => self.declare_kernel(no, limits),
            Decl::Right {
                kernel,
                group,
                read,
                write,
            } => {
                self.set_right(kernel, group, read, write);
                Ok(())
            }
            Decl::Space { no, kernel } => self.declare_space(no, kernel),
            Decl::Thread {
                no,
                space,
                pc,
                priority,
                a0,
                a1,
            } => self.declare_thread(no, space, pc, priority, a0, a1),
            Decl::Map {
                space,
                vpn,
                frame,
                flags,
                receiver,
            } => self.declare_row(space, vpn, frame, flags, receiver),
            Decl::Word {
                frame,
                offset,
                value,
            } => {
                self.place_word(frame, offset, value);
                Ok(())
            }
        }
    }

    fn declare_machine(&mut self, machine: Machine) -> Result<(), NoMemory>
        requires { broken_rule self.old (decls.Machine machine) ≡ None }
        ensures ok { OnOk result (self.new ≡ declared self.old (decls.Machine machine)) }
        ensures err { OnErr result (self.new ≡ self.old) }
    {
        self.memory = Memory::new(self.alloc, machine.groups)?;
        self.machine = Some(machine);
        Ok(())
    }

    fn declare_kernel(&mut self, no: KernelNo, limits: Caps) -> Result<(), NoMemory>
        requires { broken_rule self.old (decls.Kernel no limits) ≡ None }
        ensures ok { OnOk result (self.new ≡ declared self.old (decls.Kernel no limits)) }
        ensures err { OnErr result (self.new ≡ self.old) }
    {
        self.kernels.push(FlatKernel {
            limits,
            rights: Rights::none(),
        })?;
        self.granted = Caps {
            kernels: self.granted.kernels + limits.kernels,
            spaces: self.granted.spaces + limits.spaces,
            threads: self.granted.threads + limits.threads,
            mappings: self.granted.mappings + limits.mappings,
        };
        Ok(())
    }

    fn set_right(&mut self, kernel: KernelNo, group: u32, read: bool, write: bool)
        requires { broken_rule self.old (decls.Right kernel group read write) ≡ None }
        ensures { self.new ≡ declared self.old (decls.Right kernel group read write) }
    {
        let kernel = &mut self.kernels[kernel.0 as usize];
        kernel.rights.set(group, read, write);
    }

    fn declare_space(&mut self, no: SpaceNo, kernel: KernelNo) -> Result<(), NoMemory>
        requires { broken_rule self.old (decls.Space no kernel) ≡ None }
        ensures ok { OnOk result (self.new ≡ declared self.old (decls.Space no kernel)) }
        ensures err { OnErr result (self.new ≡ self.old) }
    {
        self.spaces.push(kernel)?;
        Ok(())
    }

    fn declare_thread(
        &mut self,
        no: ThreadNo,
        space: SpaceNo,
        pc: u32,
        priority: u32,
        a0: u32,
        a1: u32,
    ) -> Result<(), NoMemory>
        requires { broken_rule self.old (decls.Thread no space pc priority a0 a1) ≡ None }
        ensures ok { OnOk result (self.new ≡ declared self.old (decls.Thread no space pc priority a0 a1)) }
        ensures err { OnErr result (self.new ≡ self.old) }
    {
        self.threads.push(FlatThread {
            no,
            space,
            context: new_context(pc, a0, a1),
            status: Status::Ready,
            priority,
            queue: ArrayVec::new(),
            output: Output::new(self.alloc),
        })?;
        Ok(())
    }

    fn declare_row(
        &mut self,
        space: SpaceNo,
        vpn: Vpn,
        frame: Frame,
        flags: Flags,
        receiver: Option<ThreadNo>,
    ) -> Result<(), NoMemory>
        requires { broken_rule self.old (decls.Map space vpn frame flags receiver) ≡ None }
        ensures ok { OnOk result (self.new ≡ declared self.old (decls.Map space vpn frame flags receiver)) }
        ensures err { OnErr result (self.new ≡ self.old) }
    {
        self.rows.push(Row {
            space,
            vpn,
            frame,
            flags,
            receiver,
            referenced: false,
            modified: false,
        })
    }

    fn place_word(&mut self, frame: Frame, offset: u32, value: u32)
        requires { broken_rule self.old (decls.Word frame offset value) ≡ None }
        ensures { self.new ≡ declared self.old (decls.Word frame offset value) }
    {
        self.memory.store_word(PAGE_BYTES * frame.0 + offset, value);
    }
}
