// Pairs of halfwords to instructions: the listed 32-bit encodings and no others.
#![tactic(auto)]

ghost use Rattle.std.specs.Prelude.{◌≡◌};
ghost use Rattle.isa.specs.ListedEncodings.{decode_by, listed32, arithmetic32, decode32_of, imm16_of};

use isa::{Access, Instruction, Operation};

// imm4:i:imm3:imm8 of movw and movt.
fn imm16(w: u32) -> u16
    ensures { result ≡ imm16_of w }
{
    let imm4 = bits::field(w, 16, 4);
    let i = bits::field(w, 26, 1);
    let imm3 = bits::field(w, 12, 3);
    let imm8 = bits::field(w, 0, 8);
    bits::joined(bits::joined(bits::joined(imm4, i, 1), imm3, 3), imm8, 8) as u16
}

// movw, movt, sdiv and udiv.
fn arithmetic(w: u32) -> Instruction
    ensures { result ≡ decode_by arithmetic32 w }
{
    let n = bits::field(w, 16, 3) as u8;
    let d = bits::field(w, 8, 3) as u8;
    let m = bits::field(w, 0, 3) as u8;
    let imm = imm16(w);
    if w & 0xFBF0_8800 == 0xF240_0000 {
        return Instruction::Data(Operation::Movw(imm, d));
    }
    if w & 0xFBF0_8800 == 0xF2C0_0000 {
        return Instruction::Data(Operation::Movt(imm, d));
    }
    if w & 0xFFF8_F8F8 == 0xFB90_F0F0 {
        return Instruction::Data(Operation::Sdiv(n, d, m));
    }
    if w & 0xFFF8_F8F8 == 0xFBB0_F0F0 {
        return Instruction::Data(Operation::Udiv(n, d, m));
    }
    Instruction::Unlisted
}

// Loads and stores by r8 and r9, then the others.
fn by_word(w: u32) -> Instruction
    ensures { result ≡ decode_by listed32 w }
{
    let n = bits::field(w, 16, 4) as u8;
    let t = bits::field(w, 12, 3) as u8;
    let imm12 = bits::field(w, 0, 12) as u16;
    let store = w & 0xFFFF_8000;
    let load = w & 0xFFFE_8000;
    if store == 0xF8C9_0000 {
        return Instruction::Memory(Access::Str(t, imm12));
    }
    if store == 0xF889_0000 {
        return Instruction::Memory(Access::Strb(t, imm12));
    }
    if store == 0xF8A9_0000 {
        return Instruction::Memory(Access::Strh(t, imm12));
    }
    if load == 0xF8D8_0000 {
        return Instruction::Memory(Access::Ldr(n, t, imm12));
    }
    if load == 0xF898_0000 {
        return Instruction::Memory(Access::Ldrb(n, t, imm12));
    }
    if load == 0xF8B8_0000 {
        return Instruction::Memory(Access::Ldrh(n, t, imm12));
    }
    if load == 0xF998_0000 {
        return Instruction::Memory(Access::Ldrsb(n, t, imm12));
    }
    if load == 0xF9B8_0000 {
        return Instruction::Memory(Access::Ldrsh(n, t, imm12));
    }
    arithmetic(w)
}

// What two halfwords stand for, of which the first opens a 32-bit instruction.
pub fn decode32(first: u16, second: u16) -> Instruction
    ensures { result ≡ decode32_of first second }
{
    by_word(bits::joined(first as u32, second as u32, 16))
}
