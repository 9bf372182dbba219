// The manual's data-processing operations: operand values and the flags give a value and the flags with it.
#![tactic(auto)]

ghost use Rattle.std.specs.Prelude.{◌≡◌};
ghost use Rattle.alu.specs.Operations as operations;

use arm::{Flags, Sum};
use words::Shifted;

// A value, and the flags with it.
#[derive(Clone, Copy)]
pub struct Valued {
    pub value: u32,
    pub flags: Flags,
}

// N, Z and C are set.
fn shifted(s: Shifted, f: Flags) -> Valued
    ensures { result ≡ operations.shifted s f }
{
    Valued {
        value: s.value,
        flags: arm::with_nzc(f, s),
    }
}

// N, Z, C and V are set.
fn summed(s: Sum) -> Valued
    ensures { result ≡ operations.summed s }
{
    Valued {
        value: s.value,
        flags: arm::with_nzcv(s),
    }
}

// N and Z are set.
pub fn mov(x: u32, f: Flags) -> Valued
    ensures { result ≡ operations.mov x f }
{
    Valued {
        value: x,
        flags: arm::with_nz(f, x),
    }
}

// ---- shifts of x by n: four names for the manual's four, since the shift handed in as a function is no plainer

pub fn lsl(x: u32, n: u8, f: Flags) -> Valued
    ensures { result ≡ operations.lsl x n f }
{
    shifted(words::lsl_c(x, n, f.c), f)
}

pub fn lsr(x: u32, n: u8, f: Flags) -> Valued
    ensures { result ≡ operations.lsr x n f }
{
    shifted(words::lsr_c(x, n, f.c), f)
}

pub fn asr(x: u32, n: u8, f: Flags) -> Valued
    ensures { result ≡ operations.asr x n f }
{
    shifted(words::asr_c(x, n, f.c), f)
}

pub fn ror(x: u32, n: u8, f: Flags) -> Valued
    ensures { result ≡ operations.ror x n f }
{
    shifted(words::ror_c(x, n, f.c), f)
}

// ---- sums

pub fn add(x: u32, y: u32) -> Valued
    ensures { result ≡ operations.add x y }
{
    summed(arm::add_with_carry(x, y, false))
}

pub fn sub(x: u32, y: u32) -> Valued
    ensures { result ≡ operations.sub x y }
{
    summed(arm::add_with_carry(x, !y, true))
}

pub fn adc(x: u32, y: u32, f: Flags) -> Valued
    ensures { result ≡ operations.adc x y f }
{
    summed(arm::add_with_carry(x, y, f.c))
}

pub fn sbc(x: u32, y: u32, f: Flags) -> Valued
    ensures { result ≡ operations.sbc x y f }
{
    summed(arm::add_with_carry(x, !y, f.c))
}

pub fn rsb(x: u32) -> Valued
    ensures { result ≡ operations.rsb x }
{
    summed(arm::add_with_carry(!x, 0, true))
}
