//! The programs of the threads, as lines of code. They stand in one page, one behind the other, and begin at the
//! offsets 0, 36, 92 and 148.

ghost use Rattle.std.specs.Prelude.{◌≡◌};
ghost use Rattle.scenario_gen.specs.Generated.{sender, middle, last, worker};

/// Puts numbers into a page of messages, one a slot, and signals each.
#[tactic(auto, unfolding(crate::specs::Generated::sender))]
pub(crate) fn sender() -> &'static str
    ensures { result.now ≡ sender }
{
    "\
lui t0, 17
sends:
sw a1, 0(t0)
sw a1, 60(t0)
addi a1, a1, 1
addi t0, t0, 64
addi a0, a0, -1
bne a0, zero, sends
addi a7, zero, 0
ecall
"
}

/// Takes a message for each signal, adds a number to it and passes it on.
#[tactic(auto, unfolding(crate::specs::Generated::middle))]
pub(crate) fn middle() -> &'static str
    ensures { result.now ≡ middle }
{
    "\
add t2, a0, zero
lui t0, 17
passes:
addi a7, zero, 3
ecall
lw t1, 0(a0)
add t1, t1, a1
sw t1, 0(t0)
sw t1, 60(t0)
addi t0, t0, 64
addi t2, t2, -1
bne t2, zero, passes
addi a0, zero, 0
addi a7, zero, 0
ecall
"
}

/// Takes a message for each signal, and puts out the sum.
#[tactic(auto, unfolding(crate::specs::Generated::last))]
pub(crate) fn last() -> &'static str
    ensures { result.now ≡ last }
{
    "\
add t2, a0, zero
addi t3, zero, 0
sums:
addi a7, zero, 3
ecall
lw t1, 0(a0)
add t3, t3, t1
addi t2, t2, -1
bne t2, zero, sums
add a0, t3, zero
addi a7, zero, 2
ecall
addi a0, zero, 0
addi a7, zero, 0
ecall
"
}

/// Adds a number to a word of each of 48 pages, in rounds, and puts out the sum of what it wrote.
#[tactic(auto, unfolding(crate::specs::Generated::worker))]
pub(crate) fn worker() -> &'static str
    ensures { result.now ≡ worker }
{
    "\
lui t2, 1
rounds:
add t0, a0, zero
addi t1, zero, 48
pages:
lw t3, 0(t0)
add t3, t3, a1
sw t3, 0(t0)
add t4, t4, t3
add t0, t0, t2
addi t1, t1, -1
bne t1, zero, pages
addi a1, a1, -1
bne a1, zero, rounds
add a0, t4, zero
addi a7, zero, 2
ecall
addi a0, zero, 0
addi a7, zero, 0
ecall
"
}
