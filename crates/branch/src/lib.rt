// Where a branch goes: signed offsets added to a place.
#![tactic(auto)]

ghost use Rattle.std.specs.Prelude.{◌≡◌, ◌^◌, ◌<◌, pos};
ghost use Rattle.std.specs.Int.Signed.{mag};
ghost use Rattle.bits.specs.Fields.{bits};
ghost use Rattle.bits.specs.Integers.{SInt};
ghost use Rattle.branch.specs.Branches.{bundle_at, target_of};

// The bundle at a byte of the page, where a branch may go there.
#[tactic(auto, unfolding(crate::specs::Branches::bundle_at))]
fn bundle_at(n: i64) -> Option<u32>
    requires { mag n < 2 ^ 32 }
    ensures { result ≡ bundle_at n }
{
    if n < 0 {
        return None;
    }
    let byte = n as u32;
    if byte % 4 == 0 { Some(byte / 4) } else { None }
}

// PC plus the doubled offset.
fn target_from(place: u16, offset: i64) -> Option<u32>
    requires { mag offset < 2 ^ 16 }
    ensures { result ≡ target_of place offset }
{
    let pc = 2 * (place as u32) + 4;
    bundle_at((pc as i64) + 2 * offset)
}

// Of a conditional branch.
pub fn conditional_target(place: u16, imm8: u8) -> Option<u32>
    ensures { result ≡ target_of place (SInt 8 imm8) }
{
    target_from(place, bits::sign_extended(imm8 as u32, 8))
}

// Of b.
pub fn branch_target(place: u16, imm11: u16) -> Option<u32>
    ensures { result ≡ target_of place (SInt 11 (bits imm11 10 0)) }
{
    target_from(place, bits::sign_extended(imm11 as u32, 11))
}

// Of cbz and cbnz, forward only.
pub fn compare_target(place: u16, imm6: u8) -> Option<u32>
    ensures { result ≡ target_of place (pos imm6) }
{
    target_from(place, imm6 as i64)
}
