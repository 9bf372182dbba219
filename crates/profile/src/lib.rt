// What halfwords stand for in a profile. The decoders know the whole list and no profile: the full one takes their answer as it is, at no
// cost to a run, and any other looks at it.
#![tactic(auto)]

ghost use Rattle.std.specs.Prelude.{◌≡◌};
ghost use Rattle.isa.specs.Profiles.{compares_and_branches, decode16_by, decode32_by};
ghost use Rattle.platform.specs.Platforms.{encodings_on};

use isa::Instruction;
use platform::Platform;

// cbz and cbnz.
fn compares_and_branches(i: Instruction) -> bool
    ensures { result ≡ compares_and_branches i }
{
    matches!(i, Instruction::Cbz(_, _) | Instruction::Cbnz(_, _))
}

// A halfword that opens no 32-bit instruction.
pub fn decode16(platform: Platform, h: u16) -> Instruction
    ensures { result ≡ decode16_by (encodings_on platform) h }
{
    if platform.profile == 0 {
        return isa16::decode16(h);
    }
    let i = isa16::decode16(h);
    match platform.profile {
        1 if !compares_and_branches(i) => i,
        _ => Instruction::Unlisted,
    }
}

// Two halfwords, of which the first opens a 32-bit instruction. Only the full profile has any.
pub fn decode32(platform: Platform, first: u16, second: u16) -> Instruction
    ensures { result ≡ decode32_by (encodings_on platform) first second }
{
    match platform.profile {
        0 => isa32::decode32(first, second),
        _ => Instruction::Unlisted,
    }
}
