// The fields of a word, and the bits of a signed immediate. A field is what stands in the word, shifted down
// and masked; the immediates of stores, branches and jumps stand in several places.

ghost use Rattle.std.specs.Prelude.{◌≡◌, ◌<◌, ◌%◌, pos, negsuc, ◌≤ℤ◌, nat_eq};
ghost use Rattle.rv32_isa.specs.Word.{twos_complement, signed_of, bit_of, opcode_of, rd_of, funct3_of, rs1_of, rs2_of, funct7_of, funct5_of, high12_of, high20_of, immediate_i_of, immediate_s_of, immediate_b_of, immediate_j_of};

pub fn opcode(word: u32) -> u32
    ensures { result ≡ opcode_of word }
{
    word & 0x7f
}

pub fn rd(word: u32) -> u32
    ensures { result ≡ rd_of word }
{
    (word >> 7) & 0x1f
}

pub fn funct3(word: u32) -> u32
    ensures { result ≡ funct3_of word }
{
    (word >> 12) & 0x7
}

pub fn rs1(word: u32) -> u32
    ensures { result ≡ rs1_of word }
{
    (word >> 15) & 0x1f
}

pub fn rs2(word: u32) -> u32
    ensures { result ≡ rs2_of word }
{
    (word >> 20) & 0x1f
}

pub fn funct7(word: u32) -> u32
    ensures { result ≡ funct7_of word }
{
    word >> 25
}

pub fn funct5(word: u32) -> u32
    ensures { result ≡ funct5_of word }
{
    word >> 27
}

/// The immediate of a sum, a load or an indirect jump.
pub fn immediate(word: u32) -> i32
    ensures { result ≡ immediate_i_of word }
{
    signed_12(word >> 20)
}

/// The immediate of a store.
pub fn store_offset(word: u32) -> i32
    ensures { result ≡ immediate_s_of word }
{
    signed_12(((word >> 25) << 5) | ((word >> 7) & 0x1f))
}

/// The immediate of a branch.
pub fn branch_distance(word: u32) -> i32
    ensures { result ≡ immediate_b_of word }
{
    let bits_12_to_11 = ((word >> 31) << 1) | ((word >> 7) & 0x1);
    let bits_10_to_1 = (((word >> 25) & 0x3f) << 4) | ((word >> 8) & 0xf);
    signed_13((bits_12_to_11 << 11) | (bits_10_to_1 << 1))
}

/// The immediate of a jump.
pub fn jump_distance(word: u32) -> i32
    ensures { result ≡ immediate_j_of word }
{
    let bits_20_to_12 = ((word >> 31) << 8) | ((word >> 12) & 0xff);
    let bits_11_to_1 = (((word >> 20) & 0x1) << 10) | ((word >> 21) & 0x3ff);
    signed_21((bits_20_to_12 << 12) | (bits_11_to_1 << 1))
}

/// The upper twenty bits, as they are.
pub fn upper_immediate(word: u32) -> i32
    ensures { result ≡ pos (high20_of word) }
{
    (word >> 12) as i32
}

/// The upper twelve bits, as they are.
pub fn fence_bits(word: u32) -> i32
    ensures { result ≡ pos (high12_of word) }
{
    (word >> 20) as i32
}

/// The number of places that an immediate shift moves its operand.
pub fn shift_amount(word: u32) -> i32
    ensures { result ≡ pos (rs2_of word) }
{
    rs2(word) as i32
}

/// The signed number of twelve bits.
fn signed_12(bits: u32) -> i32
    requires { bits < 4096 }
    ensures { result ≡ signed_of 2048 bits }
{
    if bits < 2048 {
        bits as i32
    } else {
        bits as i32 - 4096
    }
}

/// The signed number of thirteen bits.
fn signed_13(bits: u32) -> i32
    requires { bits < 8192 }
    ensures { result ≡ signed_of 4096 bits }
{
    if bits < 4096 {
        bits as i32
    } else {
        bits as i32 - 8192
    }
}

/// The signed number of 21 bits.
fn signed_21(bits: u32) -> i32
    requires { bits < 2097152 }
    ensures { result ≡ signed_of 1048576 bits }
{
    if bits < 1048576 {
        bits as i32
    } else {
        bits as i32 - 2097152
    }
}

/// The twelve bits of a signed number.
pub fn bits_12(number: i32) -> u32
    requires low { negsuc 2047 ≤ℤ number }
    requires high { number ≤ℤ pos 2047 }
    ensures value { result ≡ twos_complement 4096 number }
    ensures range { result < 4096 }
{
    if number < 0 {
        (number + 4096) as u32
    } else {
        number as u32
    }
}

/// The thirteen bits of a signed number.
pub fn bits_13(number: i32) -> u32
    requires low { negsuc 4095 ≤ℤ number }
    requires high { number ≤ℤ pos 4095 }
    ensures value { result ≡ twos_complement 8192 number }
    ensures range { result < 8192 }
{
    if number < 0 {
        (number + 8192) as u32
    } else {
        number as u32
    }
}

/// The 21 bits of a signed number.
pub fn bits_21(number: i32) -> u32
    requires low { negsuc 1048575 ≤ℤ number }
    requires high { number ≤ℤ pos 1048575 }
    ensures value { result ≡ twos_complement 2097152 number }
    ensures range { result < 2097152 }
{
    if number < 0 {
        (number + 2097152) as u32
    } else {
        number as u32
    }
}

/// A truth value as a bit.
pub fn flag(set: bool) -> u32
    ensures value { result ≡ bit_of set }
    ensures range { result < 2 }
{
    if set { 1 } else { 0 }
}

/// The lowest bit as a truth value.
pub fn bit(number: u32) -> bool
    ensures { result ≡ nat_eq (number % 2) 1 }
{
    number & 1 == 1
}
