// A thread's registers.

ghost use Rattle.std.specs.Prelude.{◌≡◌, ◌<◌};
ghost use Rattle.std.specs.Int.{w32, cast_signed, cast_unsigned};
ghost use Rattle.rv32_exec.specs.Registers.{register_of, with_register, sum_of};

/// A thread's registers, x0 to x31, and the address of its next instruction.
///
/// x0 holds 0: what stands in `regs[0]` is never read and never written.
#[derive(Clone, Copy, Debug, PartialEq, Eq)]
pub struct Context {
    pub regs: [u32; 32],
    pub pc: u32,
}

impl Context {
    /// What a register holds.
    pub fn x(&self, number: u32) -> u32
        requires { number < 32 }
        ensures { result ≡ register_of self.now number }
    {
        if number == 0 {
            0
        } else {
            self.regs[number as usize]
        }
    }

    /// What a register holds, as an integer in two's complement.
    pub fn signed(&self, number: u32) -> i32
        requires { number < 32 }
        ensures { result ≡ cast_signed w32 (register_of self.now number) }
    {
        self.x(number).cast_signed()
    }

    /// The sum of a register and an immediate, as an address or a value.
    pub fn offset(&self, number: u32, imm: i32) -> u32
        requires { number < 32 }
        ensures { result ≡ sum_of (register_of self.now number) (cast_unsigned w32 imm) }
    {
        self.x(number).wrapping_add(imm.cast_unsigned())
    }

    /// Puts a value into a register; x0 stays.
    pub fn set(&mut self, number: u32, value: u32)
        requires { number < 32 }
        ensures { self.new ≡ record self.old { regs = with_register self.old number value } }
    {
        if number != 0 {
            self.regs[number as usize] = value;
        }
    }
}
