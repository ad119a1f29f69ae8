//! The rules of a declaration.

ghost use Rattle.std.specs.Prelude.{◌≡◌, ◌+◌, ◌<◌, ◌∷◌, List, None, Some, MatchResult, drop, nat_le};
ghost use Rattle.flat_state.specs.declared.events.Decl.{Decl};
ghost use Rattle.flat_state.specs.declared.events.Decl.TheVariants as declaration;
ghost use Rattle.flat_state.specs.declared.events.Machine.{Machine};
ghost use Rattle.flat_state.specs.State.{groups_of};
ghost use Rattle.flat_state.specs.Declaration.{agree as agree_def, are_capacities as are_capacities_def, broken_rule, caps_of, has_four as has_four_def, has_frame as has_frame_def, has_no_flag as has_no_flag_def, has_receiver as has_receiver_def, is_capacity as is_capacity_def, is_receiver_in as is_receiver_in_def, leaves_room as leaves_room_def, may_lock_kernels as may_lock_kernels_def, rule_of_early as rule_of_early_def, rule_of_kernel as rule_of_kernel_def, rule_of_machine as rule_of_machine_def, rule_of_map as rule_of_map_def, rule_of_right as rule_of_right_def, rule_of_space as rule_of_space_def, rule_of_thread as rule_of_thread_def, rule_of_word as rule_of_word_def};
ghost use Rattle.flat_rules.specs.Readings.{Gives};

use crate::records::Records;
use cache_ident::{Caps, Frame, KernelNo, SpaceNo, ThreadNo, Vpn};
use flat_state::{Decl, GREATEST_CAPS, MOST_DECLARED, Machine, STEP_CAPS};
use phys_groups::{Flags, GROUP_FRAMES};

fn is_capacity(most: u32, cap: u32) -> bool
    ensures { result ≡ is_capacity_def most cap }
{
    0 < cap && cap <= most
}

// Whether each capacity is from 1 to its greatest.
fn are_capacities(caps: Caps) -> bool
    ensures { result ≡ are_capacities_def caps }
{
    is_capacity(GREATEST_CAPS.kernels, caps.kernels)
        && is_capacity(GREATEST_CAPS.spaces, caps.spaces)
        && is_capacity(GREATEST_CAPS.threads, caps.threads)
        && is_capacity(GREATEST_CAPS.mappings, caps.mappings)
}

// Whether the capacity has room for what is granted, what is to be granted, and what one step wants.
fn has_room(cap: u32, granted: u32, limit: u32, step: u32) -> bool
    ensures { result ≡ nat_le (granted + limit + step) cap }
{
    u64::from(granted) + u64::from(limit) + u64::from(step) <= u64::from(cap)
}

fn leaves_room(caps: Caps, granted: Caps, limits: Caps) -> bool
    ensures { result ≡ leaves_room_def caps granted limits }
{
    has_room(
        caps.kernels,
        granted.kernels,
        limits.kernels,
        STEP_CAPS.kernels,
    ) && has_room(caps.spaces, granted.spaces, limits.spaces, STEP_CAPS.spaces)
        && has_room(
            caps.threads,
            granted.threads,
            limits.threads,
            STEP_CAPS.threads,
        )
        && has_room(
            caps.mappings,
            granted.mappings,
            limits.mappings,
            STEP_CAPS.mappings,
        )
}

// Kernel 0 may lock a kernel, since it is locked itself. No other kernel may.
fn may_lock_kernels(no: KernelNo, limits: Caps) -> bool
    ensures { result ≡ may_lock_kernels_def no.0 limits }
{
    if no.0 == 0 {
        0 < limits.kernels
    } else {
        limits.kernels == 0
    }
}

fn has_no_flag(flags: Flags) -> bool
    ensures { result ≡ has_no_flag_def flags }
{
    !(flags.r || flags.w || flags.x || flags.m)
}

// Whether the message flag stands with w and with neither x nor a receiver, and a receiver without x.
fn agree(flags: Flags, signals: bool) -> bool
    ensures { result ≡ agree_def flags signals }
{
    (!flags.m || (flags.w && !flags.x && !signals)) && (!signals || !flags.x)
}

/// Whether a machine breaks a rule of its own, and which one it breaks first: 6 or 7 of those that `admit` has.
pub fn rule_of_machine(machine: Machine) -> Result<(), u32>
    ensures { Gives result (rule_of_machine_def machine) }
{
    if machine.groups == 0 || 16 < machine.groups {
        return Err(6);
    }
    if !are_capacities(machine.caps) {
        return Err(7);
    }
    Ok(())
}

// The rule that any other declaration breaks before the machine's own.
fn rule_of_early(decl: Decl) -> u32
    ensures { result ≡ rule_of_early_def decl }
{
    match decl {
        Decl::Map { flags, .. } if has_no_flag(flags) => 4,
        _ => 5,
    }
}

/// Whether the declaration breaks a rule, and which one it breaks first:
///
/// | Rule | Broken where |
/// |---|---|
/// | 4 | a row has no flag |
/// | 5 | the machine is declared a second time, or isn't declared yet |
/// | 6 | the groups aren't 1 to 16 |
/// | 7 | a capacity is 0, or above 16 kernels, 64 spaces, 256 threads, 65,536 mappings |
/// | 8 | the number isn't the next of its kind |
/// | 9 | there are 1,024 kernels, 4,096 spaces, 16,384 threads or 262,144 rows already |
/// | 10 | kernel 0 may lock no kernel, or another kernel may |
/// | 11 | the lock limits of a kind, summed, and what one step wants (5 kernels, spaces and threads, 6 mappings) pass its capacity |
/// | 12 | a named kernel, space or thread isn't declared |
/// | 13 | a group or a frame isn't in memory, or a page number is above 1,048,575 |
/// | 14 | pc isn't divisible by 4, or a priority is above 31 |
/// | 15 | an offset isn't divisible by 4, or is above 4,092 |
/// | 16 | `m` stands without `w`, with `x` or with a receiver, or a receiver with `x` |
/// | 17 | the page has a row already |
/// | 18 | the receiver isn't a thread of the row's space |
/// | 19 | there is a receiver, and the frame has four signal rows already |
///
/// It costs the logarithm of the rows.
#[tactic(auto, unfolding(flat_state::specs::Declaration::broken_rule))]
pub fn admit<T: Records>(tables: &T, decl: &Decl) -> Result<(), u32>
    ensures { MatchResult result (λ _. broken_rule (T.state tables.now) decl.now ≡ None) (λ rule. broken_rule (T.state tables.now) decl.now ≡ Some rule) }
{
    match (tables.machine(), *decl) {
        (None, Decl::Machine { machine }) => rule_of_machine(machine),
        (None, early) => Err(rule_of_early(early)),
        (Some(_), Decl::Machine { .. }) => Err(5),
        (Some(machine), Decl::Kernel { no, limits }) => rule_of_kernel(
            tables,
            machine.caps,
            no,
            limits,
        ),
        (_, Decl::Right { kernel, group, .. }) => rule_of_right(tables, kernel, group),
        (_, Decl::Space { no, kernel }) => rule_of_space(tables, no, kernel),
        (
            _,
            Decl::Thread {
                no,
                space,
                pc,
                priority,
                ..
            },
        ) => rule_of_thread(tables, no, space, pc, priority),
        (
            _,
            Decl::Map {
                space,
                vpn,
                frame,
                flags,
                receiver,
            },
        ) => { rule_of_map(tables, space, vpn, frame, flags, receiver) }
        (_, Decl::Word { frame, offset, .. }) => rule_of_word(tables, frame, offset),
    }
}

fn groups<T: Records>(tables: &T) -> u32
    ensures { result ≡ groups_of (T.state tables.now).machine }
{
    match tables.machine() {
        Some(machine) => machine.groups,
        None => 0,
    }
}

fn has_frame<T: Records>(tables: &T, frame: Frame) -> bool
    ensures { result ≡ has_frame_def (T.state tables.now) frame }
{
    u64::from(frame.0) < u64::from(GROUP_FRAMES) * u64::from(groups(tables))
}

fn rule_of_kernel<T: Records>(tables: &T, caps: Caps, no: KernelNo, limits: Caps) -> Result<(), u32>
    requires { caps ≡ caps_of (T.state tables.now).machine }
    ensures { Gives result (rule_of_kernel_def (T.state tables.now) no.0 limits) }
{
    if no.0 != tables.kernel_count() {
        return Err(8);
    }
    if tables.kernel_count() >= MOST_DECLARED.kernels {
        return Err(9);
    }
    if !may_lock_kernels(no, limits) {
        return Err(10);
    }
    if !leaves_room(caps, tables.granted(), limits) {
        return Err(11);
    }
    Ok(())
}

fn rule_of_right<T: Records>(tables: &T, kernel: KernelNo, group: u32) -> Result<(), u32>
    ensures { Gives result (rule_of_right_def (T.state tables.now) kernel group) }
{
    if tables.kernel_count() <= kernel.0 {
        return Err(12);
    }
    if groups(tables) <= group {
        return Err(13);
    }
    Ok(())
}

fn rule_of_space<T: Records>(tables: &T, no: SpaceNo, kernel: KernelNo) -> Result<(), u32>
    ensures { Gives result (rule_of_space_def (T.state tables.now) no.0 kernel) }
{
    if no.0 != tables.space_count() {
        return Err(8);
    }
    if tables.space_count() >= MOST_DECLARED.spaces {
        return Err(9);
    }
    if tables.kernel_count() <= kernel.0 {
        return Err(12);
    }
    Ok(())
}

fn rule_of_thread<T: Records>(
    tables: &T,
    no: ThreadNo,
    space: SpaceNo,
    pc: u32,
    priority: u32,
) -> Result<(), u32>
    ensures { Gives result (rule_of_thread_def (T.state tables.now) no.0 space pc priority) }
{
    if no.0 != tables.thread_count() {
        return Err(8);
    }
    if tables.thread_count() >= MOST_DECLARED.threads {
        return Err(9);
    }
    if tables.space_count() <= space.0 {
        return Err(12);
    }
    if pc % 4 != 0 || 31 < priority {
        return Err(14);
    }
    Ok(())
}

fn has_receiver<T: Records>(tables: &T, receiver: Option<ThreadNo>) -> bool
    ensures { result ≡ has_receiver_def (T.state tables.now).threads receiver }
{
    match receiver {
        Some(thread) => thread.0 < tables.thread_count(),
        None => true,
    }
}

// Whether the receiver, if there is one, is a thread of the space.
fn is_receiver_in<T: Records>(tables: &T, space: SpaceNo, receiver: Option<ThreadNo>) -> bool
    ensures { result ≡ is_receiver_in_def space (T.state tables.now).threads receiver }
{
    match receiver {
        Some(thread) => match tables.thread(thread) {
            Some(thread) => T::space_of(thread) == space,
            None => false,
        },
        None => true,
    }
}

// Whether the frame has as many signal rows as it may have.
fn has_four<T: Records>(tables: &T, frame: Frame) -> bool
    ensures { result ≡ has_four_def (T.state tables.now).rows frame }
{
    tables.signal_rows(frame).is_full()
}

fn rule_of_map<T: Records>(
    tables: &T,
    space: SpaceNo,
    vpn: Vpn,
    frame: Frame,
    flags: Flags,
    receiver: Option<ThreadNo>,
) -> Result<(), u32>
    ensures { Gives result (rule_of_map_def (T.state tables.now) space vpn frame flags receiver) }
{
    if has_no_flag(flags) {
        return Err(4);
    }
    if tables.row_count() >= MOST_DECLARED.mappings {
        return Err(9);
    }
    if tables.space_count() <= space.0 || !has_receiver(tables, receiver) {
        return Err(12);
    }
    if !has_frame(tables, frame) || 1_048_575 < vpn.0 {
        return Err(13);
    }
    if !agree(flags, receiver.is_some()) {
        return Err(16);
    }
    if tables.row(space, vpn).is_some() {
        return Err(17);
    }
    if !is_receiver_in(tables, space, receiver) {
        return Err(18);
    }
    if receiver.is_some() && has_four(tables, frame) {
        return Err(19);
    }
    Ok(())
}

fn rule_of_word<T: Records>(tables: &T, frame: Frame, offset: u32) -> Result<(), u32>
    ensures { Gives result (rule_of_word_def (T.state tables.now) frame offset) }
{
    if !has_frame(tables, frame) {
        return Err(13);
    }
    if offset % 4 != 0 || 4_092 < offset {
        return Err(15);
    }
    Ok(())
}

/// The machine that stands first among declarations.
pub fn first_machine(decls: &[Decl]) -> Machine
    requires { (machine : Machine) × (rest : List Decl) × (decls.now ≡ declaration.Machine machine ∷ rest) }
    ensures { decls.now ≡ declaration.Machine result ∷ drop 1 decls.now }
{
    match decls[0] {
        Decl::Machine { machine } => machine,
        _ => unreachable!(),
    }
}
