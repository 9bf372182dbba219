// What an instruction writes, and the record afterwards.
#![tactic(auto)]

ghost use Rattle.std.specs.Prelude.{◌≡◌};
ghost use Rattle.writing.specs.Writes as writes;

use arm::Flags;
use state::{Base, Record};

// What an instruction writes, its place aside: one register at most, the flags, SP and the base.
#[derive(Clone, Copy)]
pub struct Writes {
    // the number of a register and its value
    pub register: Option<(u8, u32)>,
    pub flags: Flags,
    pub sp: u32,
    pub base: Base,
}

// A register and the flags; SP and the base stay.
pub fn keeping(r: Record, register: Option<(u8, u32)>, flags: Flags) -> Writes
    ensures { result ≡ writes.keeping r register flags }
{
    Writes {
        register,
        flags,
        sp: r.sp,
        base: r.base,
    }
}

pub fn writes_nothing(r: Record) -> Writes
    ensures { result ≡ writes.writes_nothing r }
{
    keeping(r, None, r.flags)
}

// The same, and SP besides.
pub fn writing_sp(w: Writes, sp: u32) -> Writes
    ensures { result ≡ writes.writing_sp w sp }
{
    Writes { sp, ..w }
}

// The same, and the base besides.
pub fn writing_base(w: Writes, base: Base) -> Writes
    ensures { result ≡ writes.writing_base w base }
{
    Writes { base, ..w }
}

// The record with what was written, at a place.
pub fn applied(r: Record, w: Writes, place: u16) -> Record
    ensures { result ≡ writes.applied r w place }
{
    let mut regs = r.regs;
    if let Some((k, x)) = w.register {
        state::set_in(&mut regs, k, x);
    }
    Record {
        regs,
        sp: w.sp,
        flags: w.flags,
        place,
        base: w.base,
    }
}
