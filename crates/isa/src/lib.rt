// The instructions, and which halfwords open a 32-bit one. The listed encodings are in `specs`.
#![tactic(auto)]

ghost use Rattle.std.specs.Prelude.{◌≡◌};
ghost use Rattle.isa.specs.ListedEncodings.{opens32};

// A data-processing instruction. Its operands are raw fields, in the order of their bits, highest first: d, n, m and t are
// register numbers.
#[derive(Clone, Copy)]
pub enum Operation {
    // imm5, m, d
    LslImm(u8, u8, u8),
    LsrImm(u8, u8, u8),
    AsrImm(u8, u8, u8),
    // m, n, d
    AddReg(u8, u8, u8),
    SubReg(u8, u8, u8),
    // imm3, n, d
    AddImm3(u8, u8, u8),
    SubImm3(u8, u8, u8),
    // d, imm8 (CmpImm: n, imm8)
    MovImm(u8, u8),
    CmpImm(u8, u8),
    AddImm(u8, u8),
    SubImm(u8, u8),
    // m, d (Tst, CmpReg, Cmn: m, n; Rsb, Mul: n, d)
    And(u8, u8),
    Eor(u8, u8),
    LslReg(u8, u8),
    LsrReg(u8, u8),
    AsrReg(u8, u8),
    Adc(u8, u8),
    Sbc(u8, u8),
    RorReg(u8, u8),
    Tst(u8, u8),
    Rsb(u8, u8),
    CmpReg(u8, u8),
    Cmn(u8, u8),
    Orr(u8, u8),
    Mul(u8, u8),
    Bic(u8, u8),
    Mvn(u8, u8),
    MovReg(u8, u8),
    // d, imm8
    AddSp(u8, u8),
    // m, d
    Sxth(u8, u8),
    Sxtb(u8, u8),
    Uxth(u8, u8),
    Uxtb(u8, u8),
    Nop,
    // imm16, d
    Movw(u16, u8),
    Movt(u16, u8),
    // n, d, m
    Sdiv(u8, u8, u8),
    Udiv(u8, u8, u8),
}

// A load or a store.
#[derive(Clone, Copy)]
pub enum Access {
    // t, imm8
    LdrLit(u8, u8),
    StrSp(u8, u8),
    LdrSp(u8, u8),
    // t, imm12, with base r9
    Str(u8, u16),
    Strb(u8, u16),
    Strh(u8, u16),
    // n, t, imm12, with base r8 or r9: n is 8 or 9
    Ldr(u8, u8, u16),
    Ldrb(u8, u8, u16),
    Ldrh(u8, u8, u16),
    Ldrsb(u8, u8, u16),
    Ldrsh(u8, u8, u16),
}

// What stands at a place. The operands are raw fields, in the order of their bits.
#[derive(Clone, Copy)]
pub enum Instruction {
    Data(Operation),
    Memory(Access),
    // i:imm5, n
    Cbz(u8, u8),
    Cbnz(u8, u8),
    // cond, imm8
    Bcc(u8, u8),
    // imm11
    B(u16),
    // imm8
    Service(u8),
    Unlisted,
}

// A first halfword that opens a 32-bit instruction.
pub fn opens_32(h: u16) -> bool
    ensures { result ≡ opens32 h }
{
    bits::field(h as u32, 11, 5) >= 29
}
