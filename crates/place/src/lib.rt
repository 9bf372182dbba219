// What stands at a place, and whether the place is fit.
#![tactic(auto)]

ghost use Rattle.std.specs.Prelude.{◌≡◌};
ghost use Rattle.platform.specs.Platforms.{encodings_on};
ghost use Rattle.platform.specs.Programs.{seen_program};
ghost use Rattle.place.specs.Places.{stands_in, instruction_at, following, second_fits, fit_below};

use isa::Instruction;
use platform::{Platform, Program};

// Of a bundle's halfwords.
#[tactic(auto, unfolding(crate::specs::Places::stands_in))]
fn stands_in(platform: Platform, even: bool, first: u16, second: u16) -> Instruction
    ensures { result ≡ stands_in (encodings_on platform) even first second }
{
    if isa::opens_32(first) {
        if even {
            return profile::decode32(platform, first, second);
        }
        return Instruction::Unlisted;
    }
    if even {
        profile::decode16(platform, first)
    } else {
        profile::decode16(platform, second)
    }
}

#[tactic(auto, unfolding(crate::specs::Places::instruction_at))]
pub fn instruction_at(program: &Program, place: u16) -> Instruction
    ensures { result ≡ instruction_at (seen_program program.now) place }
{
    let k = (place / 2) as u32;
    if (k as usize) < program.page.len() / 4 {
        let h = page::halves_of(program.page, k);
        stands_in(program.platform, place % 2 == 0, h.first, h.second)
    } else {
        Instruction::Unlisted
    }
}

// The place behind the instruction: a u32, since the last place has none behind it.
#[tactic(auto, unfolding(crate::specs::Places::following))]
pub fn next_place(page: &[u8], place: u16) -> u32
    ensures { result ≡ following page.now place }
{
    let k = (place / 2) as u32;
    let h = page::halves_of(page, k);
    if isa::opens_32(h.first) {
        place as u32 + 2
    } else {
        place as u32 + 1
    }
}

// Of a bundle's halfwords: the second is fit, if the bundle lies below the count.
#[tactic(auto, unfolding(crate::specs::Places::second_fits))]
fn second_fits(program: &Program, leading: u16, second: u16) -> bool
    ensures { result ≡ second_fits (seen_program program.now) leading second }
{
    if isa::opens_32(leading) {
        return false;
    }
    if isa::opens_32(second) {
        return false;
    }
    !flow::is_terminator(program, profile::decode16(program.platform, leading))
}

#[tactic(auto, unfolding(crate::specs::Places::fit_below))]
pub fn is_fit(program: &Program, count: u32, place: u16) -> bool
    ensures { result ≡ fit_below (seen_program program.now) count place }
{
    let k = (place / 2) as u32;
    if k >= count {
        return false;
    }
    if place % 2 == 0 {
        return true;
    }
    let h = page::halves_of(program.page, k);
    second_fits(program, h.first, h.second)
}
