//! A try that comes to its bound, over a port of which no row can be had.

ghost use Rattle.std.specs.Prelude.{None, refl};

use app_kernel::{Heard, Notice, Owners, Port, PortCall, Refused, Served, serve};
use cache_ident::{Ident, KernelNo, Kind, NoMemory, SpaceNo, ThreadNo, Vpn};
use rv32_exec::{Access, Status};
use std::alloc::Global;
use std::test::Fail;

// Whatever is asked for is loaded, but for page 16, for which another row is always wanted first.
#[derive(Drop)]
struct Wanting {
    heard: Heard,
}

const ANY: Ident = Ident {
    kind: Kind::Space,
    slot: 0,
    serial: 1,
};

impl Port for Wanting {
    ghost board = { λ port. None };

    ghost heard = { λ port. port.heard };

    ghost follows = { λ old new. Unit {0} };

    fn load_kernel(&mut self, _caller: Ident, kernel: KernelNo) -> Result<Ident, Refused> {
        let answer = Ok(ANY);
        self.heard = self.heard.with_call(PortCall::LoadKernel(kernel), &answer);
        answer
    }

    fn load_space(&mut self, _caller: Ident, space: SpaceNo) -> Result<Ident, Refused> {
        let answer = Ok(ANY);
        self.heard = self.heard.with_call(PortCall::LoadSpace(space), &answer);
        answer
    }

    fn load_thread(
        &mut self,
        _caller: Ident,
        _parent: Ident,
        thread: ThreadNo,
    ) -> Result<Ident, Refused> {
        let answer = Ok(ANY);
        self.heard = self.heard.with_call(PortCall::LoadThread(thread), &answer);
        answer
    }

    fn load_mapping(
        &mut self,
        _caller: Ident,
        parent: Ident,
        vpn: Vpn,
        _receiver: Option<Ident>,
    ) -> Result<Ident, Refused> {
        let answer = if vpn.0 == 16 {
            Err(Refused::ReceiversAbsent {
                space: SpaceNo(1),
                vpn: Vpn(32),
            })
        } else {
            Ok(ANY)
        };
        self.heard = self
            .heard
            .with_call(PortCall::LoadMapping(parent, vpn), &answer);
        answer
    }

    fn unload(&mut self, _caller: Ident, ident: Ident) -> Result<(), Refused> {
        let answer = Ok(());
        self.heard = self.heard.with_call(PortCall::Unload(ident), &answer);
        answer
    }

    fn complete(&mut self, _caller: Ident, thread: Ident) -> Result<(), Refused> {
        let answer = Ok(());
        self.heard = self.heard.with_call(PortCall::Complete(thread), &answer);
        answer
    }

    fn confirm_fault(&mut self, _caller: Ident, thread: Ident) -> Result<(), Refused> {
        let answer = Ok(());
        self.heard = self
            .heard
            .with_call(PortCall::ConfirmFault(thread), &answer);
        answer
    }

    fn status(&mut self, thread: ThreadNo) -> Option<Status> {
        self.heard = self.heard.with_told(thread, None);
        None
    }

    ghost stays = { λ port. tt };

    ghost goes_on = { λ first then last before after. tt };

    ghost tells = { λ old new follows. refl };
}

// What comes of a thread's fault over such a port, and after how many calls.
fn tried(alloc: Global) -> Result<(Served, u64), NoMemory> {
    let mut owners = Owners::new(alloc, &[])?;
    let mut port = Wanting {
        heard: Heard::nothing(),
    };
    let notice = Notice::Fault {
        va: 65_536,
        access: Access::Read,
    };
    let served = serve(&mut port, &mut owners, ThreadNo(0), notice);
    Ok((served, port.heard.calls))
}

#[test]
fn a_try_wants_two_rows_a_walk(rt: HostRuntime) -> Result<(), Fail> {
    let (served, calls) = tried(rt.alloc())?;
    let wanted = Refused::ReceiversAbsent {
        space: SpaceNo(1),
        vpn: Vpn(32),
    };
    assert!(rt; served == Served::Again(wanted));
    // Three tries of two walks. The first notes the spaces and the thread, which the second asks for again.
    assert!(rt; calls == 17 + 14 + 14);
    Ok(())
}
