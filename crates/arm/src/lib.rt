// Flags: sums with carry and overflow, the flags of a result, conditions.
#![tactic(auto)]

ghost use Rattle.std.specs.Prelude.{◌≡◌};
ghost use Rattle.arm.specs.Sums.{add_with_carry};
ghost use Rattle.arm.specs.Flags.{with_nz, with_nzc, with_nzcv};
ghost use Rattle.arm.specs.Conditions.{condition_holds};

use words::Shifted;

// The condition flags.
#[derive(Clone, Copy)]
pub struct Flags {
    pub n: bool,
    pub z: bool,
    pub c: bool,
    pub v: bool,
}

// What AddWithCarry gives.
#[derive(Clone, Copy)]
pub struct Sum {
    pub value: u32,
    pub carry: bool,
    pub overflow: bool,
}

// ---- sums

pub fn add_with_carry(x: u32, y: u32, carry: bool) -> Sum
    ensures { result ≡ add_with_carry x y carry }
{
    let sum = (x as u64) + (y as u64) + (carry as u64);
    let value = (sum % 0x1_0000_0000) as u32;
    let x_top = bits::field(x, 31, 1);
    let y_top = bits::field(y, 31, 1);
    let value_top = bits::field(value, 31, 1);
    Sum {
        value,
        carry: sum >= 0x1_0000_0000,
        overflow: (x_top == y_top) & (value_top != x_top),
    }
}

// ---- flags of a result

// N and Z by the result; C and V stay.
pub fn with_nz(f: Flags, res: u32) -> Flags
    ensures { result ≡ with_nz f res }
{
    Flags {
        n: bits::field(res, 31, 1) == 1,
        z: res == 0,
        ..f
    }
}

// N, Z and C by a shift; V stays.
pub fn with_nzc(f: Flags, s: Shifted) -> Flags
    ensures { result ≡ with_nzc f s }
{
    Flags {
        c: s.carry,
        ..with_nz(f, s.value)
    }
}

// N, Z, C and V by a sum.
pub fn with_nzcv(s: Sum) -> Flags
    ensures { result ≡ with_nzcv s }
{
    Flags {
        n: bits::field(s.value, 31, 1) == 1,
        z: s.value == 0,
        c: s.carry,
        v: s.overflow,
    }
}

// ---- conditions

// By its number, which is a field of the encoding: an enum would be made of it here and read nowhere else.
pub fn condition_holds(k: u8, f: Flags) -> bool
    ensures { result ≡ condition_holds k f }
{
    match k {
        0 => f.z,
        1 => !f.z,
        2 => f.c,
        3 => !f.c,
        4 => f.n,
        5 => !f.n,
        6 => f.v,
        7 => !f.v,
        8 => f.c & !f.z,
        9 => !f.c | f.z,
        10 => f.n == f.v,
        11 => f.n != f.v,
        12 => !f.z & (f.n == f.v),
        13 => f.z | (f.n != f.v),
        _ => true,
    }
}
