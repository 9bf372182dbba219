// Halfwords to instructions: the listed 16-bit encodings and no others.
#![tactic(auto)]

ghost use Rattle.std.specs.Prelude.{◌≡◌, ◌/◌, ◌^◌};
ghost use Rattle.isa.specs.ListedEncodings.{decode16_of};
ghost use Rattle.isa16.specs.Classes.{class_of, operands_of};

use isa::{Access, Instruction, Operation};

// The fields of the 16-bit encodings, named by their bits.
#[derive(Clone, Copy)]
struct Operands {
    low3: u8,
    mid3: u8,
    high3: u8,
    bits_10_8: u8,
    imm5: u8,
    imm6: u8,
    imm8: u8,
    imm11: u16,
    condition: u8,
}

// The class of a halfword, from its top byte alone: the number of its line in `lines16`. It stays a number, as that line is found by it.
fn class(t: u8) -> u8
    ensures { result ≡ class_of t }
{
    let five = bits::field(t as u32, 3, 5);
    match t {
        0x18 | 0x19 => 3,
        0x1A | 0x1B => 4,
        0x1C | 0x1D => 5,
        0x1E | 0x1F => 6,
        0x40 | 0x41 | 0x42 | 0x43 => 11,
        0x46 => 12,
        0xB2 => 17,
        0xBF => 18,
        0xB1 | 0xB3 => 19,
        0xB9 | 0xBB => 20,
        0xD8 | 0xD9 | 0xDA | 0xDB | 0xDC | 0xDD => 21,
        0xDF => 23,
        _ => match five {
            0 => 0,
            1 => 1,
            2 => 2,
            4 => 7,
            5 => 8,
            6 => 9,
            7 => 10,
            9 => 13,
            18 => 14,
            19 => 15,
            21 => 16,
            26 => 21,
            28 => 22,
            _ => 24,
        },
    }
}

fn read_operands(h: u16) -> Operands
    ensures { result ≡ operands_of h }
{
    let w = h as u32;
    Operands {
        low3: bits::field(w, 0, 3) as u8,
        mid3: bits::field(w, 3, 3) as u8,
        high3: bits::field(w, 6, 3) as u8,
        bits_10_8: bits::field(w, 8, 3) as u8,
        imm5: bits::field(w, 6, 5) as u8,
        imm6: bits::joined(bits::field(w, 9, 1), bits::field(w, 3, 5), 5) as u8,
        imm8: bits::field(w, 0, 8) as u8,
        imm11: bits::field(w, 0, 11) as u16,
        condition: bits::field(w, 8, 4) as u8,
    }
}

// The sixteen register operations, 010000.
fn register_operation(h: u16) -> Instruction
    requires { h / 2 ^ 10 ≡ 16 }
    ensures { result ≡ decode16_of h }
{
    let f = read_operands(h);
    let m = f.mid3;
    let d = f.low3;
    let op = bits::field(h as u32, 6, 4);
    Instruction::Data(match op {
        0 => Operation::And(m, d),
        1 => Operation::Eor(m, d),
        2 => Operation::LslReg(m, d),
        3 => Operation::LsrReg(m, d),
        4 => Operation::AsrReg(m, d),
        5 => Operation::Adc(m, d),
        6 => Operation::Sbc(m, d),
        7 => Operation::RorReg(m, d),
        8 => Operation::Tst(m, d),
        9 => Operation::Rsb(m, d),
        10 => Operation::CmpReg(m, d),
        11 => Operation::Cmn(m, d),
        12 => Operation::Orr(m, d),
        13 => Operation::Mul(m, d),
        14 => Operation::Bic(m, d),
        _ => Operation::Mvn(m, d),
    })
}

// sxth, sxtb, uxth and uxtb, B2.
fn extension(h: u16) -> Instruction
    requires { h / 2 ^ 8 ≡ 0xB2 }
    ensures { result ≡ decode16_of h }
{
    let f = read_operands(h);
    let m = f.mid3;
    let d = f.low3;
    let op = bits::field(h as u32, 6, 2);
    Instruction::Data(match op {
        0 => Operation::Sxth(m, d),
        1 => Operation::Sxtb(m, d),
        2 => Operation::Uxth(m, d),
        _ => Operation::Uxtb(m, d),
    })
}

// mov without flags, 46: the two bits after the top byte are 0.
fn move_register(h: u16) -> Instruction
    requires { h / 2 ^ 8 ≡ 0x46 }
    ensures { result ≡ decode16_of h }
{
    let f = read_operands(h);
    if f.imm8 < 64 {
        Instruction::Data(Operation::MovReg(f.mid3, f.low3))
    } else {
        Instruction::Unlisted
    }
}

// nop, BF00.
fn nop(h: u16) -> Instruction
    requires { h / 2 ^ 8 ≡ 0xBF }
    ensures { result ≡ decode16_of h }
{
    if bits::field(h as u32, 0, 8) == 0 {
        Instruction::Data(Operation::Nop)
    } else {
        Instruction::Unlisted
    }
}

// Services, DF: E9 to EF are reserved.
fn service(h: u16) -> Instruction
    requires { h / 2 ^ 8 ≡ 0xDF }
    ensures { result ≡ decode16_of h }
{
    let f = read_operands(h);
    let imm8 = f.imm8;
    if imm8 < 0xE9 {
        return Instruction::Service(imm8);
    }
    if imm8 < 0xF0 {
        return Instruction::Unlisted;
    }
    Instruction::Service(imm8)
}

// The instruction of a halfword of class k.
fn of_class(k: u8, h: u16) -> Instruction
    requires { k ≡ class_of (h / 2 ^ 8) }
    ensures { result ≡ decode16_of h }
{
    let f = read_operands(h);
    match k {
        0 => Instruction::Data(Operation::LslImm(f.imm5, f.mid3, f.low3)),
        1 => Instruction::Data(Operation::LsrImm(f.imm5, f.mid3, f.low3)),
        2 => Instruction::Data(Operation::AsrImm(f.imm5, f.mid3, f.low3)),
        3 => Instruction::Data(Operation::AddReg(f.high3, f.mid3, f.low3)),
        4 => Instruction::Data(Operation::SubReg(f.high3, f.mid3, f.low3)),
        5 => Instruction::Data(Operation::AddImm3(f.high3, f.mid3, f.low3)),
        6 => Instruction::Data(Operation::SubImm3(f.high3, f.mid3, f.low3)),
        7 => Instruction::Data(Operation::MovImm(f.bits_10_8, f.imm8)),
        8 => Instruction::Data(Operation::CmpImm(f.bits_10_8, f.imm8)),
        9 => Instruction::Data(Operation::AddImm(f.bits_10_8, f.imm8)),
        10 => Instruction::Data(Operation::SubImm(f.bits_10_8, f.imm8)),
        11 => register_operation(h),
        12 => move_register(h),
        13 => Instruction::Memory(Access::LdrLit(f.bits_10_8, f.imm8)),
        14 => Instruction::Memory(Access::StrSp(f.bits_10_8, f.imm8)),
        15 => Instruction::Memory(Access::LdrSp(f.bits_10_8, f.imm8)),
        16 => Instruction::Data(Operation::AddSp(f.bits_10_8, f.imm8)),
        17 => extension(h),
        18 => nop(h),
        19 => Instruction::Cbz(f.imm6, f.low3),
        20 => Instruction::Cbnz(f.imm6, f.low3),
        21 => Instruction::Bcc(f.condition, f.imm8),
        22 => Instruction::B(f.imm11),
        23 => service(h),
        _ => Instruction::Unlisted,
    }
}

// What a halfword stands for that opens no 32-bit instruction.
pub fn decode16(h: u16) -> Instruction
    ensures { result ≡ decode16_of h }
{
    let t = bits::field(h as u32, 8, 8) as u8;
    of_class(class(t), h)
}
