// What a host says of its machine, and what of a program is refused.
#![tactic(auto)]

ghost use Rattle.std.specs.Prelude.{◌≡◌};
ghost use Rattle.refusal.specs.Refusals.{decision, decision_of};
ghost use Rattle.isa.specs.Profiles.{profile_of, is_known};
ghost use Rattle.platform.specs.Platforms.{never_returns, default_platform};
ghost use Rattle.platform.specs.Programs.{seen_program, program_rules};

use refusal::Refusal;
use window::Window;

#[derive(Clone, Copy)]
pub struct Platform {
    // bit n: direct syscall n never returns
    pub never_return: u64,
    // 0 full, 1 small; a number, so that a host's wrong one reaches refusal 18
    pub profile: u32,
}

// A page and what it runs on, which counts and successors are read from.
#[derive(Clone, Copy)]
pub struct Program<'a> {
    pub page: &'a [u8],
    pub platform: Platform,
}

// What a run gets beside budget, record and RAM.
#[derive(Clone, Copy)]
pub struct Setting<'a> {
    pub program: Program<'a>,
    pub external: &'a [u8],
    pub window: Window,
}

pub fn never_returns(platform: Platform, n: u8) -> bool
    ensures { result ≡ never_returns platform.never_return n }
{
    if n >= 64 {
        return false;
    }
    (platform.never_return >> n) & 1 == 1
}

// What the programs give: every direct syscall returns, and the profile is the full one.
pub fn default_platform() -> Platform
    ensures { result ≡ default_platform }
{
    Platform {
        never_return: 0,
        profile: 0,
    }
}

// There is a profile of its number.
pub fn is_known(platform: Platform) -> bool
    ensures { result ≡ is_known (profile_of platform.profile) }
{
    platform.profile < 2
}

// The profile is known, and the page has an allowed length.
pub fn of_program(program: &Program) -> Result<(), Refusal>
    ensures { decision_of result ≡ decision (program_rules (seen_program program.now)) }
{
    if !is_known(program.platform) {
        return Err(Refusal::UnknownProfile);
    }
    if !page::fits(program.page) {
        return Err(Refusal::PageLength);
    }
    Ok(())
}
