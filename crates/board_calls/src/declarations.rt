//! Declarations and the seal.

ghost use Rattle.std.specs.Prelude.{◌≡◌, ◌≢◌, None, IfErr, IfOk, OnOk};
ghost use Rattle.std.specs.Result.{result_err};
ghost use Rattle.board_checks.specs.board_ops.specs.declared.refusals.Refused.TheVariants.{NoMemory};
ghost use Rattle.board_core.specs.Answers.{HasCallRoom, IsRefused};
ghost use Rattle.board_calls.specs.Calls.{refusal_of_declare, refusal_of_seal, IsDeclaring, IsSealing};

use board_core::{Core, Refused};
use cache_ident::{Ident, KernelNo, Name};
use flat_rules::{Records, admit};
use flat_state::Decl;

/// Makes a declaration. Refused behind the seal (`Sealed`), and where it breaks a rule of scenarios, with the first that it
/// breaks (`BadDecl`). Its time is that of the rules' test, and a time logarithmic in what was declared; it takes memory for
/// what is declared.
pub fn declare(core: &mut Core, decl: &Decl) -> Result<(), Refused>
    ensures refused { IfErr result (IsRefused (refusal_of_declare core.old decl.now) core.old core.new) }
    ensures done { OnOk result (refusal_of_declare core.old decl.now ≡ None) }
    ensures declared { OnOk result (IsDeclaring decl.now core.old core.new) }
{
    if let Err(refused) = check_declare(core, decl) {
        // What is refused wants the memory of a declaration too, so that want of it is answered first.
        core.make_entries(1)?;
        core.make_declarable()?;
        return Err(refused);
    }
    core.declare(decl)?;
    Ok(())
}

// Refuses a declaration behind the seal (`Sealed`), and one that breaks a rule of scenarios (`BadDecl`).
fn check_declare(core: &Core, decl: &Decl) -> Result<(), Refused>
    ensures { result_err result ≡ refusal_of_declare core.now decl.now }
{
    if core.is_sealed() {
        return Err(Refused::Sealed);
    }
    match admit(core.machine(), decl) {
        Ok(()) => Ok(()),
        Err(rule) => Err(Refused::BadDecl { rule }),
    }
}

/// Ends the declarations, and loads and locks the first kernel, whose identifier it gives. Refused where no kernel was declared
/// (`NotDeclared`), and behind the seal (`Sealed`). Constant time, but for a logarithm.
pub fn seal(core: &mut Core) -> Result<Ident, Refused>
    ensures refused { IfErr result (IsRefused (refusal_of_seal core.old) core.old core.new) }
    ensures done { OnOk result (refusal_of_seal core.old ≡ None) }
    ensures enough { HasCallRoom core.old → IfErr result (λ r. r ≢ NoMemory) }
    ensures sealed { IfOk result (IsSealing core.old core.new) }
{
    let checked = check_seal(core);
    core.make_room(1, 2)?;
    checked?;
    Ok(core.seal())
}

// Refuses a seal where no kernel was declared (`NotDeclared`), and behind another one (`Sealed`).
fn check_seal(core: &Core) -> Result<(), Refused>
    ensures { result_err result ≡ refusal_of_seal core.now }
{
    if core.machine().kernel_count() == 0 {
        let name = Name::Kernel(KernelNo(0));
        return Err(Refused::NotDeclared { name });
    }
    if core.is_sealed() {
        return Err(Refused::Sealed);
    }
    Ok(())
}
