// Products, quotients and remainders.

ghost use Rattle.std.specs.Prelude.{◌≡◌, ◌<◌, ◌%◌, ◌*◌, ◌/◌, ◌-◌, ◌^◌, ℤ, pos, ◌*ℤ◌, int_div, int_rem, if◌then◌else◌, ◌==◌};
ghost use Rattle.rv32_ma.specs.Products.{signed, low_word, high_word, mul_div_of};

/// An operation on two words. `h` takes the high half of the product, `u` takes words as unsigned.
#[derive(Clone, Copy)]
pub enum MulOp {
    /// The low word of the product.
    Mul,
    /// The high word of the product, both signed.
    Mulh,
    /// The high word of the product, the first signed and the second unsigned.
    Mulhsu,
    /// The high word of the product, both unsigned.
    Mulhu,
    /// The signed quotient, rounded towards zero.
    Div,
    /// The unsigned quotient.
    Divu,
    /// The remainder of the signed quotient, with the sign of the dividend.
    Rem,
    /// The remainder of the unsigned quotient.
    Remu,
}

/// The word that the operation makes of `a` and `b`, the dividend and the divisor where it divides.
///
/// A quotient by zero is all ones, and its remainder is the dividend. The least signed word over -1 is that
/// word again, with the remainder 0.
pub fn mul_div(op: MulOp, a: u32, b: u32) -> u32
    ensures { result ≡ mul_div_of op a b }
{
    match op {
        MulOp::Mul => a.wrapping_mul(b),
        MulOp::Mulh => high(i64::from(a.cast_signed()) * i64::from(b.cast_signed())),
        MulOp::Mulhsu => high(i64::from(a.cast_signed()) * i64::from(b)),
        MulOp::Mulhu => ((u64::from(a) * u64::from(b)) >> 32) as u32,
        MulOp::Div => quotient(a, b),
        MulOp::Divu => if b == 0 { u32::MAX } else { a / b },
        MulOp::Rem => remainder(a, b),
        MulOp::Remu => if b == 0 { a } else { a % b },
    }
}

/// The high word of a signed product.
fn high(product: i64) -> u32
    ensures { result ≡ high_word product }
{
    (product.cast_unsigned() >> 32) as u32
}

/// The signed quotient.
fn quotient(a: u32, b: u32) -> u32
    ensures { result ≡ mul_div_of MulOp.Div a b }
{
    if b == 0 {
        return u32::MAX;
    }
    a.cast_signed()
        .wrapping_div(b.cast_signed())
        .cast_unsigned()
}

/// The signed remainder.
fn remainder(a: u32, b: u32) -> u32
    ensures { result ≡ mul_div_of MulOp.Rem a b }
{
    if b == 0 {
        return a;
    }
    a.cast_signed()
        .wrapping_rem(b.cast_signed())
        .cast_unsigned()
}
