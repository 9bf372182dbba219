// Operations of the manual's pseudocode on words, without flags: shifts with carry out, multiplication and division, bitwise
// operations, extension.
#![tactic(auto)]

ghost use Rattle.std.specs.Prelude.{◌≡◌, min, ◌^◌, ◌<◌, nat_abs};
ghost use Rattle.std.specs.Int.Bits.{bit_and, bit_or, bit_xor};
ghost use Rattle.std.specs.Int.Signed.{mag, shr_z, quot_z};
ghost use Rattle.bits.specs.Fields.{bits};
ghost use Rattle.words.specs.Shifts.{odd, lsl_c, lsr_c, asr_c, ror_c, immediate_amount};
ghost use Rattle.words.specs.Products.{product, unsigned_quotient, signed_quotient};
ghost use Rattle.words.specs.Bitwise.{not_word, sign_extended};

// What a shift with carry out gives.
#[derive(Clone, Copy)]
pub struct Shifted {
    pub value: u32,
    pub carry: bool,
}

// ---- shifts; what they have in common is a line or two of each, which no function says more plainly

pub fn lsl_c(x: u32, n: u8, carry: bool) -> Shifted
    ensures { result ≡ lsl_c x n carry }
{
    if n == 0 {
        return Shifted { value: x, carry };
    }
    if n > 32 {
        return Shifted {
            value: 0,
            carry: false,
        };
    }
    let wide = (x as u64) << (n as u64);
    Shifted {
        value: (wide % 0x1_0000_0000) as u32,
        carry: (wide >> 32) % 2 == 1,
    }
}

pub fn lsr_c(x: u32, n: u8, carry: bool) -> Shifted
    ensures { result ≡ lsr_c x n carry }
{
    if n == 0 {
        return Shifted { value: x, carry };
    }
    if n > 32 {
        return Shifted {
            value: 0,
            carry: false,
        };
    }
    let wide = x as u64;
    Shifted {
        value: (wide >> (n as u64)) as u32,
        carry: (wide >> ((n - 1) as u64)) % 2 == 1,
    }
}

// An integer shifted right, rounded down.
fn shifted_right(z: i64, n: u8) -> i64
    requires { n < 64 }
    ensures { result ≡ shr_z z (2 ^ n) }
{
    z >> (n as i64)
}

fn is_odd(z: i64) -> bool
    ensures { result ≡ odd z }
{
    z % 2 != 0
}

pub fn asr_c(x: u32, n: u8, carry: bool) -> Shifted
    ensures { result ≡ asr_c x n carry }
{
    if n == 0 {
        return Shifted { value: x, carry };
    }
    let z = bits::sign_extended(x, 32);
    let m = n.min(32);
    Shifted {
        value: bits::low_word(shifted_right(z, m)),
        carry: is_odd(shifted_right(z, m - 1)),
    }
}

pub fn ror_c(x: u32, n: u8, carry: bool) -> Shifted
    ensures { result ≡ ror_c x n carry }
{
    if n == 0 {
        return Shifted { value: x, carry };
    }
    let m = (n % 32) as u64;
    let wide = x as u64;
    let value = ((wide >> m) | ((wide << (32 - m)) % 0x1_0000_0000)) as u32;
    Shifted {
        value,
        carry: (value >> 31) % 2 == 1,
    }
}

// The amount that a right shift's imm5 stands for.
pub fn immediate_amount(imm5: u8) -> u8
    ensures { result ≡ immediate_amount imm5 }
{
    if imm5 == 0 { 32 } else { imm5 }
}

// ---- multiplication and division

pub fn mul(x: u32, y: u32) -> u32
    ensures { result ≡ product x y }
{
    ((x as u64) * (y as u64) % 0x1_0000_0000) as u32
}

pub fn udiv(x: u32, y: u32) -> u32
    ensures { result ≡ unsigned_quotient x y }
{
    if y == 0 { 0 } else { x / y }
}

// The quotient of two words' integers, rounded toward zero.
fn quotient(a: i64, b: i64) -> i64
    requires { (0 < nat_abs b) × (mag a < 2 ^ 31) × (mag b < 2 ^ 31) }
    ensures { result ≡ quot_z a b }
{
    a / b
}

pub fn sdiv(x: u32, y: u32) -> u32
    ensures { result ≡ signed_quotient x y }
{
    if y == 0 {
        return 0;
    }
    let a = bits::sign_extended(x, 32);
    let b = bits::sign_extended(y, 32);
    bits::low_word(quotient(a, b))
}

// ---- bitwise operations and extension

pub fn and(x: u32, y: u32) -> u32
    ensures { result ≡ bit_and x y }
{
    x & y
}

pub fn eor(x: u32, y: u32) -> u32
    ensures { result ≡ bit_xor x y }
{
    x ^ y
}

pub fn orr(x: u32, y: u32) -> u32
    ensures { result ≡ bit_or x y }
{
    x | y
}

pub fn bic(x: u32, y: u32) -> u32
    ensures { result ≡ bit_and x (not_word y) }
{
    x & !y
}

pub fn mvn(x: u32) -> u32
    ensures { result ≡ not_word x }
{
    !x
}

pub fn sxth(x: u32) -> u32
    ensures { result ≡ sign_extended 16 (bits x 15 0) }
{
    bits::low_word(bits::sign_extended(x, 16))
}

pub fn sxtb(x: u32) -> u32
    ensures { result ≡ sign_extended 8 (bits x 7 0) }
{
    bits::low_word(bits::sign_extended(x, 8))
}

pub fn uxth(x: u32) -> u32
    ensures { result ≡ bits x 15 0 }
{
    bits::field(x, 0, 16)
}

pub fn uxtb(x: u32) -> u32
    ensures { result ≡ bits x 7 0 }
{
    bits::field(x, 0, 8)
}
