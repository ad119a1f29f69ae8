//! Steps, and the rows that they go through.

ghost use Rattle.std.specs.Prelude.{◌≡◌, ◌↔◌, List, IfOk, IsTrue};
ghost use Rattle.std.specs.Bool.{MatchBool};
ghost use Rattle.cache_ident.specs.Residents.{Resident};
ghost use Rattle.residents.specs.Tables.{AreThose};
ghost use Rattle.run_journal.specs.Legal.{IsRowResident, MayStep, after_steps};
ghost use Rattle.journal_rules.specs.Running.{MayStepOn};

use cache_ident::{Name, NoMemory, ThreadNo};
use flat_machine::Flat;
use flat_state::Event;
use residents::Residents;

// Whether the row is resident, if there is one.
fn is_row_resident(residents: &Residents, row: Option<Name>) -> bool
    ensures { (rs : List Resident) → AreThose residents.now rs → (IsTrue result ↔ IsRowResident rs row) }
{
    match row {
        Some(name) => residents.is_named(name),
        None => true,
    }
}

/// Whether the thread's next step fits, faults or doesn't, as asked, and goes through resident rows. It costs the
/// logarithm of the rows.
pub fn may_step(flat: &Flat, residents: &Residents, thread: ThreadNo, faults: bool) -> bool
    ensures { (rs : List Resident) → AreThose residents.now rs → (IsTrue result ↔ MayStep flat.now rs thread faults) }
{
    match flat.next_step(thread) {
        Some(next) => {
            next.runnable
                && next.faults == faults
                && is_row_resident(residents, next.fetch_row)
                && (faults || is_row_resident(residents, next.data_row))
        }
        None => false,
    }
}

/// Takes so many steps of a thread, and answers whether each may be taken, doesn't fault and goes through resident rows.
/// It stops before the first that doesn't. It costs the logarithm of the rows for each.
pub fn run(
    flat: &mut Flat,
    residents: &Residents,
    thread: ThreadNo,
    steps: u32,
) -> Result<bool, NoMemory>
    ensures { IfOk result (λ ran. (rs : List Resident) → AreThose residents.now rs → MatchBool ran (MayStepOn flat.old rs thread steps × (flat.new ≡ after_steps flat.old thread steps)) (MayStepOn flat.old rs thread steps → ⊥)) }
{
    for _ in 0..steps {
        if !may_step(flat, residents, thread, false) {
            return Ok(false);
        }
        flat.apply(&Event::Step(thread))?;
    }
    Ok(true)
}
