// The successors of a bundle, and the reader.
#![tactic(auto)]

ghost use Rattle.std.specs.Prelude.{◌≡◌, List, ℕ, ◌<◌};
ghost use Rattle.prefix.specs.Prefix.{goes};
ghost use Rattle.prefix.specs.LargestSuccessor.{largest_successor, reading_of};
ghost use Rattle.platform.specs.Programs.{seen_program};
ghost use Rattle.bundle.specs.Successors.{after_second, after_first, wide, successors_of};
ghost use Rattle.bundle.specs.Reader.{read_bundle, seen_read};

use flow::Flow;
use isa::Instruction;
use platform::Program;
use prefix::LargestSuccessor;
use refusal::Refusal;

// The second half, behind a first one whose targets have the largest successor r.
fn after_second(r: LargestSuccessor, second: Flow, next: u32) -> LargestSuccessor
    ensures { (bs : List ℕ) → reading_of r ≡ largest_successor (goes bs) → reading_of result ≡ largest_successor (after_second bs second next) }
{
    match second {
        Flow::Bad => LargestSuccessor::Bad,
        Flow::Ends => r,
        Flow::To(b) => prefix::with_successor(r, b),
        Flow::Next => prefix::with_successor(r, next),
        Flow::NextOr(b) => prefix::with_successor(prefix::with_successor(r, next), b),
    }
}

// Both halves. Behind a terminator the second must only be listed.
fn after_first(first: Flow, listed: bool, second: Flow, next: u32) -> LargestSuccessor
    ensures { reading_of result ≡ largest_successor (after_first first listed second next) }
{
    match first {
        Flow::Bad => LargestSuccessor::Bad,
        Flow::Ends => {
            if listed {
                LargestSuccessor::Nothing
            } else {
                LargestSuccessor::Bad
            }
        }
        Flow::To(b) => {
            if listed {
                LargestSuccessor::Largest(b)
            } else {
                LargestSuccessor::Bad
            }
        }
        Flow::Next => after_second(LargestSuccessor::Nothing, second, next),
        Flow::NextOr(b) => after_second(LargestSuccessor::Largest(b), second, next),
    }
}

// A bundle of one 32-bit instruction.
fn of_wide(i: Instruction, next: u32) -> LargestSuccessor
    ensures { reading_of result ≡ largest_successor (wide i next) }
{
    if flow::is_listed(i) {
        LargestSuccessor::Largest(next)
    } else {
        LargestSuccessor::Bad
    }
}

#[tactic(auto, unfolding(crate::specs::Successors::successors_of))]
fn largest_at(program: &Program, k: u32) -> LargestSuccessor
    requires { k < 64 }
    ensures { reading_of result ≡ largest_successor (successors_of (seen_program program.now) k) }
{
    let platform = program.platform;
    let h = page::halves_of(program.page, k);
    let first = h.first;
    let second = h.second;
    if isa::opens_32(first) {
        return of_wide(profile::decode32(platform, first, second), k + 1);
    }
    if isa::opens_32(second) {
        return LargestSuccessor::Bad;
    }
    let place = (2 * k) as u16;
    let i = profile::decode16(platform, first);
    let j = profile::decode16(platform, second);
    after_first(
        flow::flow_of(program, place, i),
        flow::is_listed(j),
        flow::flow_of(program, place + 1, j),
        k + 1,
    )
}

// Bundle k of the page.
pub fn read_bundle(program: &Program, k: u32) -> Result<LargestSuccessor, Refusal>
    ensures { seen_read result ≡ read_bundle (seen_program program.now) k }
{
    platform::of_program(program)?;
    if (k as usize) >= program.page.len() / 4 {
        return Err(Refusal::NoSuchBundle);
    }
    Ok(largest_at(program, k))
}
