//! What a name is to a machine, and whether what it needs is resident.

ghost use Rattle.std.specs.Prelude.{◌≡◌, ◌↔◌, List, IsTrue, Some};
ghost use Rattle.std.specs.Bool.{MatchBool};
ghost use Rattle.cache_ident.specs.Residents.{Resident};
ghost use Rattle.flat_state.specs.Dependence.{owner};
ghost use Rattle.flat_state.specs.Names.{class_of, class_of_row, is_fit_name, stands};
ghost use Rattle.residents.specs.Tables.{AreThose};
ghost use Rattle.run_journal.specs.Groups.{HasParents};
ghost use Rattle.run_journal.specs.Legal.{StaysGood, cap_of, limit_of};
ghost use Rattle.journal_laws.specs.Leaving.{LacksParent};
ghost use Rattle.journal_rules.specs.Relied.{reliances_of, relied_on};
ghost use Rattle.journal_rules.specs.Running.{AreResident, LackOne};

use arrayvec::ArrayVec;
use cache_ident::{Class, KernelNo, Kind, Name};
use flat_machine::Flat;
use phys_groups::{GROUP_FRAMES, Row};
use residents::{Reliance, Residents};

/// Whether there is a descriptor of that name. It costs the logarithm of the rows.
pub fn stands(flat: &Flat, name: Name) -> bool
    ensures { result ≡ stands flat.now name }
{
    match name {
        Name::Kernel(kernel) => flat.limits(kernel).is_some(),
        Name::Space(space) => flat.kernel_of(space).is_some(),
        Name::Thread(thread) => flat.thread(thread).is_some(),
        Name::Mapping(space, vpn) => flat.row(space, vpn).is_some(),
    }
}

// A row is fit where there is one and the rights cover its flags, and every other name is.
fn is_fit(flat: &Flat, name: Name) -> bool
    ensures { result ≡ is_fit_name flat.now name }
{
    match name {
        Name::Kernel(_) => true,
        Name::Space(_) => true,
        Name::Thread(_) => true,
        Name::Mapping(space, vpn) => flat.is_fit(space, vpn),
    }
}

/// The kernel that owns what has the name. It costs the logarithm of the rows.
pub fn owner(flat: &Flat, name: Name) -> Option<KernelNo>
    ensures { result ≡ owner flat.now name }
{
    match name {
        Name::Kernel(kernel) => {
            flat.limits(kernel)?;
            Some(KernelNo(0))
        }
        Name::Space(space) => flat.kernel_of(space),
        Name::Thread(thread) => {
            let thread = flat.thread(thread)?;
            flat.kernel_of(thread.space)
        }
        Name::Mapping(space, vpn) => {
            let row = flat.row(space, vpn)?;
            flat.kernel_of(row.space)
        }
    }
}

/// What the row that has the name relies on, if there is such a row. It costs the logarithm of the rows.
pub fn reliances(flat: &Flat, name: Name) -> ArrayVec<Reliance, 2>
    ensures { result.items ≡ reliances_of flat.now name }
{
    match name {
        Name::Kernel(_) => ArrayVec::new(),
        Name::Space(_) => ArrayVec::new(),
        Name::Thread(_) => ArrayVec::new(),
        Name::Mapping(space, vpn) => match flat.row(space, vpn) {
            Some(row) => reliances_of_row(flat, row),
            None => ArrayVec::new(),
        },
    }
}

// A row relies on the rights of its space's kernel, and a message row also on the signal rows of its frame.
fn reliances_of_row(flat: &Flat, row: &Row) -> ArrayVec<Reliance, 2>
    ensures { result.items ≡ relied_on flat.now (Some row.now) }
{
    let mut reliances = ArrayVec::new();
    if let Some(kernel) = flat.kernel_of(row.space) {
        reliances.push(Reliance::Rights {
            kernel,
            group: row.frame.0 / GROUP_FRAMES,
            reads: row.flags.r || row.flags.x,
            writes: row.flags.w,
        });
    }
    if row.flags.m {
        reliances.push(Reliance::Signals {
            group: row.frame.0 / GROUP_FRAMES,
            place: row.frame.0 % GROUP_FRAMES,
        });
    }
    reliances
}

/// The class by which what has the name leaves. It costs the logarithm of the rows.
pub fn class(flat: &Flat, name: Name) -> Class
    ensures { result ≡ class_of flat.now name }
{
    match name {
        Name::Kernel(_) => Class::Kernel,
        Name::Space(_) => Class::Space,
        Name::Thread(_) => Class::Thread,
        Name::Mapping(space, vpn) => match flat.row(space, vpn) {
            Some(row) => row_class(row),
            None => Class::OtherRow,
        },
    }
}

// A row with flag m is a message row, and one with a receiver a signal row.
fn row_class(row: &Row) -> Class
    ensures { result ≡ class_of_row (Some row.now) }
{
    if row.flags.m {
        return Class::MessageRow;
    }
    if row.receiver.is_some() {
        return Class::SignalRow;
    }
    Class::OtherRow
}

/// How many of a kind there can be in its cache; none where no machine is declared.
pub fn cap(flat: &Flat, kind: Kind) -> u32
    ensures { result ≡ cap_of flat.now kind }
{
    match flat.caps() {
        Some(caps) => caps.of(kind),
        None => 0,
    }
}

/// How many of its descriptors of a kind a kernel may lock; none where there is no such kernel.
pub fn limit(flat: &Flat, kernel: KernelNo, kind: Kind) -> u32
    ensures { result ≡ limit_of flat.now kernel kind }
{
    match flat.limits(kernel) {
        Some(limits) => limits.of(kind),
        None => 0,
    }
}

/// Whether all that the name depends on is resident. It costs the logarithm of the rows and of what is resident.
pub fn has_parents(flat: &Flat, residents: &Residents, name: Name) -> bool
    ensures { (rs : List Resident) → AreThose residents.now rs → MatchBool result (HasParents flat.now rs name) (LacksParent flat.now rs name) }
{
    let parents = flat.parents(name);
    are_resident(residents, parents.as_slice())
}

// Whether each of the names is resident.
fn are_resident(residents: &Residents, names: &[Name]) -> bool
    ensures { (rs : List Resident) → AreThose residents.now rs → MatchBool result (AreResident rs names.now) (LackOne rs names.now) }
{
    for name in names {
        if !residents.is_named(*name) {
            return false;
        }
    }
    true
}

/// Whether what has the name stands, is fit, and has all that it depends on among what is resident.
pub fn stays_good(flat: &Flat, residents: &Residents, name: Name) -> bool
    ensures { (rs : List Resident) → AreThose residents.now rs → (r : Resident) → r.name ≡ name → (IsTrue result ↔ StaysGood flat.now rs r) }
{
    if !stands(flat, name) {
        return false;
    }
    if !is_fit(flat, name) {
        return false;
    }
    has_parents(flat, residents, name)
}
