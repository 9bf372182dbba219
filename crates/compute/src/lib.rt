// What a data-processing instruction writes: each is found here by its encoding.
#![tactic(auto)]

ghost use Rattle.std.specs.Prelude.{◌≡◌};
ghost use Rattle.state.specs.Record.{register_in};
ghost use Rattle.compute.specs.Computed as definitions;

use alu::Valued;
use arm::Flags;
use isa::Operation;
use std::num::wrapping_add_u32;
use words::immediate_amount;

// One register at most, and the flags.
#[derive(Clone, Copy)]
pub struct Computed {
    // the number of a register and its value
    pub register: Option<(u8, u32)>,
    pub flags: Flags,
}

// The value goes to register d, and the flags are set.
fn to(d: u8, v: Valued) -> Computed
    ensures { result ≡ definitions.to d v }
{
    Computed {
        register: Some((d, v.value)),
        flags: v.flags,
    }
}

// The flags are set, and the value goes nowhere.
fn flags_only(v: Valued) -> Computed
    ensures { result ≡ definitions.flags_only v }
{
    Computed {
        register: None,
        flags: v.flags,
    }
}

// A value goes to register d, and the flags stay.
fn moved(d: u8, x: u32, f: Flags) -> Computed
    ensures { result ≡ definitions.moved d x f }
{
    Computed {
        register: Some((d, x)),
        flags: f,
    }
}

fn unchanged(f: Flags) -> Computed
    ensures { result ≡ definitions.unchanged f }
{
    Computed {
        register: None,
        flags: f,
    }
}

fn at(regs: &[u32], k: u8) -> u32
    ensures { result ≡ register_in regs.now k }
{
    state::register_in(regs, k)
}

// The amount of a shift by a register.
fn low_byte(x: u32) -> u8
    ensures { result ≡ definitions.low_byte x }
{
    bits::field(x, 0, 8) as u8
}

// The upper half is imm16.
fn with_upper(x: u32, imm16: u16) -> u32
    ensures { result ≡ definitions.with_upper x imm16 }
{
    bits::joined(imm16 as u32, x, 16)
}

// In the order of the listed encodings; operands as in `isa::Operation`.
pub fn compute(operation: Operation, regs: &[u32], sp: u32, f: Flags) -> Computed
    ensures { result ≡ definitions.computed operation regs.now sp f }
{
    match operation {
        Operation::LslImm(imm5, m, d) => to(d, alu::lsl(at(regs, m), imm5, f)),
        Operation::LsrImm(imm5, m, d) => to(d, alu::lsr(at(regs, m), immediate_amount(imm5), f)),
        Operation::AsrImm(imm5, m, d) => to(d, alu::asr(at(regs, m), immediate_amount(imm5), f)),
        Operation::AddReg(m, n, d) => to(d, alu::add(at(regs, n), at(regs, m))),
        Operation::SubReg(m, n, d) => to(d, alu::sub(at(regs, n), at(regs, m))),
        Operation::AddImm3(imm3, n, d) => to(d, alu::add(at(regs, n), imm3 as u32)),
        Operation::SubImm3(imm3, n, d) => to(d, alu::sub(at(regs, n), imm3 as u32)),
        Operation::MovImm(d, imm8) => to(d, alu::mov(imm8 as u32, f)),
        Operation::CmpImm(n, imm8) => flags_only(alu::sub(at(regs, n), imm8 as u32)),
        Operation::AddImm(d, imm8) => to(d, alu::add(at(regs, d), imm8 as u32)),
        Operation::SubImm(d, imm8) => to(d, alu::sub(at(regs, d), imm8 as u32)),
        Operation::And(m, d) => to(d, alu::mov(words::and(at(regs, d), at(regs, m)), f)),
        Operation::Eor(m, d) => to(d, alu::mov(words::eor(at(regs, d), at(regs, m)), f)),
        Operation::LslReg(m, d) => to(d, alu::lsl(at(regs, d), low_byte(at(regs, m)), f)),
        Operation::LsrReg(m, d) => to(d, alu::lsr(at(regs, d), low_byte(at(regs, m)), f)),
        Operation::AsrReg(m, d) => to(d, alu::asr(at(regs, d), low_byte(at(regs, m)), f)),
        Operation::Adc(m, d) => to(d, alu::adc(at(regs, d), at(regs, m), f)),
        Operation::Sbc(m, d) => to(d, alu::sbc(at(regs, d), at(regs, m), f)),
        Operation::RorReg(m, d) => to(d, alu::ror(at(regs, d), low_byte(at(regs, m)), f)),
        Operation::Tst(m, n) => flags_only(alu::mov(words::and(at(regs, n), at(regs, m)), f)),
        Operation::Rsb(n, d) => to(d, alu::rsb(at(regs, n))),
        Operation::CmpReg(m, n) => flags_only(alu::sub(at(regs, n), at(regs, m))),
        Operation::Cmn(m, n) => flags_only(alu::add(at(regs, n), at(regs, m))),
        Operation::Orr(m, d) => to(d, alu::mov(words::orr(at(regs, d), at(regs, m)), f)),
        Operation::Mul(n, d) => to(d, alu::mov(words::mul(at(regs, n), at(regs, d)), f)),
        Operation::Bic(m, d) => to(d, alu::mov(words::bic(at(regs, d), at(regs, m)), f)),
        Operation::Mvn(m, d) => to(d, alu::mov(words::mvn(at(regs, m)), f)),
        Operation::MovReg(m, d) => moved(d, at(regs, m), f),
        Operation::AddSp(d, imm8) => moved(d, wrapping_add_u32(sp, 4 * (imm8 as u32)), f),
        Operation::Sxth(m, d) => moved(d, words::sxth(at(regs, m)), f),
        Operation::Sxtb(m, d) => moved(d, words::sxtb(at(regs, m)), f),
        Operation::Uxth(m, d) => moved(d, words::uxth(at(regs, m)), f),
        Operation::Uxtb(m, d) => moved(d, words::uxtb(at(regs, m)), f),
        Operation::Nop => unchanged(f),
        Operation::Movw(imm16, d) => moved(d, imm16 as u32, f),
        Operation::Movt(imm16, d) => moved(d, with_upper(at(regs, d), imm16), f),
        Operation::Sdiv(n, d, m) => moved(d, words::sdiv(at(regs, n), at(regs, m)), f),
        Operation::Udiv(n, d, m) => moved(d, words::udiv(at(regs, n), at(regs, m)), f),
    }
}
