//! What owners know of what was declared, learnt and noted.

use app_kernel::Owners;
use cache_ident::{Ident, KernelNo, Kind, Name, SpaceNo, ThreadNo, Vpn};
use flat_state::Decl;
use std::test::Fail;

#[test]
fn what_is_declared_learnt_and_noted_is_known(rt: HostRuntime) -> Result<(), Fail> {
    let (kernel, space, thread, vpn) = (KernelNo(3), SpaceNo(0), ThreadNo(0), Vpn(16));
    let decls = [
        Decl::Space { no: space, kernel },
        Decl::Thread {
            no: thread,
            space,
            pc: 0,
            priority: 0,
            a0: 0,
            a1: 0,
        },
    ];
    let mut owners = Owners::new(rt.alloc(), &decls)?;
    assert!(rt; owners.space_of(thread) == Some(space));
    assert!(rt; owners.kernel_of(space) == Some(kernel));
    assert!(rt; owners.space_of_kernel(kernel) == Some(space));
    owners.learn_receiver(space, vpn, Some(thread))?;
    assert!(rt; owners.receiver_of(space, vpn) == Some(thread));
    let ident = Ident {
        kind: Kind::Space,
        slot: 0,
        serial: 1,
    };
    owners.note(Name::Space(space), ident)?;
    assert!(rt; owners.noted(Name::Space(space)) == Some(ident));
    Ok(())
}
