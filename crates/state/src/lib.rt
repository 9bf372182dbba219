// The record of the machine, by value, and base validation.
#![tactic(auto)]

ghost use Rattle.std.specs.Prelude.{[], ◌∷◌, ◌≡◌, cond, ltb, length, set};
ghost use Rattle.refusal.specs.Refusals.{decision, decision_of};
ghost use Rattle.state.specs.Record.{register_in, register, with_register, with_sp, with_flags, with_place, with_base, fresh_record};
ghost use Rattle.state.specs.FitRecord.{sp_fits, fp_fits, bounds_rule, alignment_rule, sp_rules, base_rules, fit_rules};
ghost use Rattle.state.specs.Validation.{external_fits, validated, validate_base, seen_validated};

use arm::Flags;
use refusal::Refusal;

// The build paper's base, by which loads and stores go: none, an offset in RAM, or an offset in the external data.
#[derive(Clone, Copy)]
pub enum Base {
    Nothing,
    Ram(u32),
    External(u32),
}

// The build paper's record.
#[derive(Clone, Copy)]
pub struct Record {
    pub regs: [u32; 8],
    pub sp: u32,
    pub flags: Flags,
    // the build paper's place: the number of a halfword, from 0
    pub place: u16,
    pub base: Base,
}

pub fn fresh_record() -> Record
    ensures { result ≡ fresh_record }
{
    Record {
        regs: [0u32; 8],
        sp: 0x18000,
        flags: Flags {
            n: false,
            z: false,
            c: false,
            v: false,
        },
        place: 0,
        base: Base::Nothing,
    }
}

// ---- the registers by themselves

// Register k; past the last there is none, and 0 is read.
pub fn register_in(regs: &[u32], k: u8) -> u32
    ensures { result ≡ register_in regs.now k }
{
    let i = k as usize;
    if i < regs.len() { regs[i] } else { 0 }
}

// Register k is x; from 8 on nothing changes.
pub fn set_in(regs: &mut [u32; 8], k: u8, x: u32)
    ensures { regs.new ≡ cond (ltb k 8) (set regs.old k x) regs.old }
{
    let i = k as usize;
    if i < 8 {
        regs[i] = x;
    }
}

// ---- the parts of a record, read and changed; one function for each, since none ranges over the fields of a struct

pub fn register_of(r: Record, k: u8) -> u32
    ensures { result ≡ register r k }
{
    register_in(&r.regs, k)
}

pub fn set_register(r: Record, k: u8, x: u32) -> Record
    ensures { result ≡ with_register r k x }
{
    let mut s = r;
    set_in(&mut s.regs, k, x);
    s
}

pub fn set_sp(r: Record, x: u32) -> Record
    ensures { result ≡ with_sp r x }
{
    let mut s = r;
    s.sp = x;
    s
}

pub fn set_flags(r: Record, f: Flags) -> Record
    ensures { result ≡ with_flags r f }
{
    let mut s = r;
    s.flags = f;
    s
}

pub fn set_place(r: Record, p: u16) -> Record
    ensures { result ≡ with_place r p }
{
    let mut s = r;
    s.place = p;
    s
}

pub fn set_base(r: Record, b: Base) -> Record
    ensures { result ≡ with_base r b }
{
    let mut s = r;
    s.base = b;
    s
}

// ---- fit records and validation

// SP lies in RAM or at its end.
fn bounds_verdict(sp: u32) -> Result<(), Refusal>
    ensures { decision_of result ≡ decision (bounds_rule sp ∷ []) }
{
    if sp < 0x10000 {
        return Err(Refusal::SpBounds);
    }
    if sp > 0x18000 {
        return Err(Refusal::SpBounds);
    }
    Ok(())
}

fn alignment_verdict(sp: u32) -> Result<(), Refusal>
    ensures { decision_of result ≡ decision (alignment_rule sp ∷ []) }
{
    if sp % 4 != 0 {
        return Err(Refusal::SpAlignment);
    }
    Ok(())
}

fn sp_verdict(sp: u32) -> Result<(), Refusal>
    ensures { decision_of result ≡ decision (sp_rules sp) }
{
    bounds_verdict(sp)?;
    alignment_verdict(sp)
}

pub fn sp_fits(sp: u32) -> bool
    ensures { result ≡ sp_fits sp }
{
    sp_verdict(sp).is_ok()
}

// 02's frame test: no frame, or one whose eight words lie in RAM.
pub fn fp_fits(fp: u32) -> bool
    ensures { result ≡ fp_fits fp }
{
    if fp == 0 {
        return true;
    }
    if fp % 4 != 0 {
        return false;
    }
    if fp < 0x10000 {
        return false;
    }
    if fp > 0x17FE0 {
        return false;
    }
    true
}

// The offset of the base, with external data of so many bytes.
fn base_verdict(b: Base, external: usize) -> Result<(), Refusal>
    ensures { decision_of result ≡ decision (base_rules b external) }
{
    match b {
        Base::Nothing => Ok(()),
        Base::Ram(o) => {
            if o < 0x10_0000 {
                Ok(())
            } else {
                Err(Refusal::RamOffset)
            }
        }
        Base::External(o) => {
            if (o as usize) < external {
                Ok(())
            } else {
                Err(Refusal::ExternalOffset)
            }
        }
    }
}

// Whether the record is fit, with external data of so many bytes.
pub fn fitness(r: Record, external: usize) -> Result<(), Refusal>
    ensures { decision_of result ≡ decision (fit_rules r external) }
{
    sp_verdict(r.sp)?;
    base_verdict(r.base, external)
}

// External data has an allowed length.
pub fn external_fits(external: &[u8]) -> bool
    ensures { result ≡ external_fits (length external.now) }
{
    if external.len() > 16_777_216 {
        return false;
    }
    external.len() % 256 == 0
}

// The base of an address, with external data of so many bytes.
pub fn base_of(v: u32, external: usize) -> Base
    ensures { result ≡ validated v external }
{
    if v < 0x8000_0000 {
        return Base::Ram((v + 0x10_0000 - 0x1_0000) % 0x10_0000);
    }
    let offset = v - 0x8000_0000;
    if (offset as usize) < external {
        Base::External(offset)
    } else {
        Base::Nothing
    }
}

// Base validation.
pub fn validate(v: u32, external: &[u8]) -> Result<Base, Refusal>
    ensures { seen_validated result ≡ validate_base v (length external.now) }
{
    if !external_fits(external) {
        return Err(Refusal::ExternalLength);
    }
    Ok(base_of(v, external.len()))
}
