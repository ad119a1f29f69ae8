//! The declarations of a scenario, before its run.

ghost use Rattle.std.specs.Prelude.{◌≡◌, ◌<◌, ◌≤◌, ◌∷◌, [], List, ℕ, None, Some, IfOk, IsSome, OnOk, IsErrOf};
ghost use Rattle.byte_ports.specs.Faults.{HasRisen};
ghost use Rattle.flat_rules.specs.flat_state.specs.declared.events.Decl.{Decl};
ghost use Rattle.flat_rules.specs.flat_state.specs.declared.events.Decl.TheVariants as declaration;
ghost use Rattle.flat_rules.specs.flat_state.specs.declared.events.Machine.{Machine};
ghost use Rattle.flat_rules.specs.flat_state.specs.Declaration.{broken_rule, rule_of_machine};
ghost use Rattle.flat_rules.specs.flat_state.specs.Events.{after_declarations, AllFit};
ghost use Rattle.flat_rules.specs.flat_state.specs.State.{nothing_declared};
ghost use Rattle.paged_steps.specs.memory_laws.specs.Apart.{over};
ghost use Rattle.page_store.specs.Kept.{Means};
ghost use Rattle.paged_steps.specs.Pages.{HasFrames};
ghost use Rattle.paged_run.specs.Openings.{frames_of, Adds, AddsAll, IsBare, IsOpened, IsZeros, Makes};
ghost use Rattle.paged_run.specs.declared.fault.PagedFault.TheVariants as faults;

use crate::fault::PagedFault;
use crate::pager::Pager;
use cache_ident::NoMemory;
use flat_machine::{Decl, Event, Flat, Machine};
use flat_rules::{Records, first_machine};
use page_store::{Paged, Store};
use paged_steps::Order;
use phys_groups::GROUP_FRAMES;
use quantum::{MOST_VIEWS, Quantum};
use run_journal::{Entry, Journal};
use std::alloc::Global;

/// The machine of a scenario's declarations, which may go on with so many frames.
pub(crate) fn opened<K: Store>(
    alloc: Global,
    decls: &[Decl],
    frames: u32,
    store: &mut K,
) -> Result<Pager, PagedFault>
    requires fit { AllFit nothing_declared decls.now }
    requires machine { (machine : Machine) × (rest : List Decl) × (decls.now ≡ declaration.Machine machine ∷ rest) }
    requires least { 2 ≤ frames }
    requires most { frames ≤ 2048 }
    requires store { K.frames store.old ≡ frames_of decls.now }
    requires zeros { (bytes : List ℕ) → K.bytes_held store.old ≡ Some bytes → IsZeros (frames_of decls.now) bytes }
    ensures opened { IfOk result (λ pager. IsOpened decls.now (K.frames store.new) pager) }
    ensures memory { IfOk result (λ pager. (bytes : List ℕ) → K.bytes_held store.old ≡ Some bytes → (m : List ℕ) × Means pager.paged (K.bytes_held store.new) m × (over pager.tables m ≡ after_declarations nothing_declared decls.now)) }
    ensures faultless { OnOk result (K.faults store.new ≡ K.faults store.old) }
    ensures fault { IsErrOf result faults.StoreFault → HasRisen (K.faults store.old) (K.faults store.new) }
{
    let machine = first_machine(decls);
    let mut pager = new_pager(alloc, machine, frames)?;
    declare_all(&mut pager, store, &decls[1..])?;
    pager.journal.push(Entry::Sealed)?;
    Ok(pager)
}

// A machine of which nothing else is declared.
fn new_pager(alloc: Global, machine: Machine, frames: u32) -> Result<Pager, NoMemory>
    requires fits { rule_of_machine machine ≡ None }
    requires some { 0 < frames }
    ensures { IfOk result (λ pager. IsBare machine frames pager) }
{
    let mut tables = Flat::new(alloc);
    tables.apply(&Event::Declare(Decl::Machine { machine }))?;
    let mut journal = Journal::new(alloc);
    journal.push(Entry::Declared {
        decl: Decl::Machine { machine },
    })?;
    Ok(Pager {
        tables,
        paged: Paged::new(
            alloc,
            frames as usize,
            (machine.groups * GROUP_FRAMES) as usize,
        )?,
        quantum: Quantum::new(alloc, (frames as usize).min(MOST_VIEWS))?,
        journal,
        order: Order::new(alloc),
        steps: 0,
    })
}

// Makes declarations, each of which fits behind those before it.
fn declare_all<K: Store>(pager: &mut Pager, store: &mut K, decls: &[Decl]) -> Result<(), PagedFault>
    requires fit { AllFit pager.old.tables decls.now }
    requires machine { IsSome pager.old.tables.machine }
    requires frames { HasFrames pager.old.tables pager.old.paged (K.frames store.old) }
    ensures adds { OnOk result (AddsAll decls.now pager.old (K.bytes_held store.old) pager.new (K.bytes_held store.new)) }
    ensures frames { OnOk result (HasFrames pager.new.tables pager.new.paged (K.frames store.new)) }
    ensures faultless { OnOk result (K.faults store.new ≡ K.faults store.old) }
    ensures fault { IsErrOf result faults.StoreFault → HasRisen (K.faults store.old) (K.faults store.new) }
{
    for decl in decls {
        declare(pager, store, decl)?;
    }
    Ok(())
}

// Makes a declaration that breaks no rule, and writes it down.
fn declare<K: Store>(pager: &mut Pager, store: &mut K, decl: &Decl) -> Result<(), PagedFault>
    requires fits { broken_rule pager.old.tables decl.now ≡ None }
    requires machine { IsSome pager.old.tables.machine }
    requires frames { HasFrames pager.old.tables pager.old.paged (K.frames store.old) }
    ensures adds { OnOk result (Adds decl.now pager.old (K.bytes_held store.old) pager.new (K.bytes_held store.new)) }
    ensures frames { OnOk result (HasFrames pager.new.tables pager.new.paged (K.frames store.new)) }
    ensures faultless { OnOk result (K.faults store.new ≡ K.faults store.old) }
    ensures fault { IsErrOf result faults.StoreFault → HasRisen (K.faults store.old) (K.faults store.new) }
{
    make(&mut pager.tables, &mut pager.paged, store, decl)?;
    pager.journal.push(Entry::Declared { decl: *decl })?;
    Ok(())
}

// Makes a declaration that breaks no rule: a word goes to its page, and all else to the tables.
fn make<K: Store>(
    tables: &mut Flat,
    paged: &mut Paged,
    store: &mut K,
    decl: &Decl,
) -> Result<(), PagedFault>
    requires fits { broken_rule tables.old decl.now ≡ None }
    requires machine { IsSome tables.old.machine }
    requires frames { HasFrames tables.old paged.old (K.frames store.old) }
    ensures makes { OnOk result (Makes (decl.now ∷ []) tables.old paged.old (K.bytes_held store.old) tables.new paged.new (K.bytes_held store.new)) }
    ensures machine { OnOk result (tables.new.machine ≡ tables.old.machine) }
    ensures frames { OnOk result (HasFrames tables.new paged.new (K.frames store.new)) }
    ensures faultless { OnOk result (K.faults store.new ≡ K.faults store.old) }
    ensures fault { IsErrOf result faults.StoreFault → HasRisen (K.faults store.old) (K.faults store.new) }
{
    tables.holds();
    match *decl {
        Decl::Word {
            frame,
            offset,
            value,
        } => {
            paged.store_word(store, frame, offset, value)?;
            Ok(())
        }
        _ => {
            tables.apply(&Event::Declare(*decl))?;
            Ok(())
        }
    }
}
