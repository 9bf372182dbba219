// Terminators, and how the flow goes on at an instruction.
#![tactic(auto)]

ghost use Rattle.std.specs.Prelude.{◌≡◌};
ghost use Rattle.platform.specs.Programs.{seen_program};
ghost use Rattle.flow.specs.Flow.{jump_to, service_jump, jump_of, flow_by, flow_of};
ghost use Rattle.flow.specs.Flow as flow;

use ending::Ending;
use isa::Instruction;
use platform::Program;

// Where an instruction may go beside what stands behind it: it is bad; nowhere; to a bundle.
#[derive(Clone, Copy)]
pub enum Jump {
    Bad,
    NoJump,
    JumpTo(u32),
}

// How the flow goes on at an instruction: not at all, since it is bad; to the next; to the next or a bundle; to a
// bundle only; nowhere in the page.
#[derive(Clone, Copy)]
pub enum Flow {
    Bad,
    Next,
    NextOr(u32),
    To(u32),
    Ends,
}

fn ends_flow(e: Ending) -> bool
    ensures { result ≡ flow.ends_flow e }
{
    matches!(e, Ending::LastExit)
}

// Terminators are b, the services so marked, and syscalls that never return.
pub fn is_terminator(program: &Program, i: Instruction) -> bool
    ensures { result ≡ flow.terminator (seen_program program.now) i }
{
    match i {
        Instruction::B(_) => true,
        Instruction::Service(n) => ends_flow(ending::ending_in(program, n)),
        _ => false,
    }
}

// To a branch's target.
fn jump_to(t: Option<u32>) -> Jump
    ensures { result ≡ jump_to t }
{
    match t {
        None => Jump::Bad,
        Some(b) => Jump::JumpTo(b),
    }
}

fn service_jump(e: Ending) -> Jump
    ensures { result ≡ service_jump e }
{
    match e {
        Ending::Bad => Jump::Bad,
        _ => Jump::NoJump,
    }
}

fn jump_of(program: &Program, place: u16, i: Instruction) -> Jump
    ensures { result ≡ jump_of (seen_program program.now) place i }
{
    match i {
        Instruction::Data(_) | Instruction::Memory(_) => Jump::NoJump,
        Instruction::Cbz(imm6, _) | Instruction::Cbnz(imm6, _) => {
            jump_to(branch::compare_target(place, imm6))
        }
        Instruction::Bcc(_, imm8) => jump_to(branch::conditional_target(place, imm8)),
        Instruction::B(imm11) => jump_to(branch::branch_target(place, imm11)),
        Instruction::Service(n) => service_jump(ending::ending_in(program, n)),
        Instruction::Unlisted => Jump::Bad,
    }
}

// The flow goes on to the next unless a terminator stops it.
fn flow_by(terminates: bool, jump: Jump) -> Flow
    ensures { result ≡ flow_by terminates jump }
{
    match jump {
        Jump::Bad => Flow::Bad,
        Jump::NoJump => { if terminates { Flow::Ends } else { Flow::Next } }
        Jump::JumpTo(b) => {
            if terminates {
                Flow::To(b)
            } else {
                Flow::NextOr(b)
            }
        }
    }
}

// The flow at an instruction that stands at a place.
#[tactic(auto, unfolding(crate::specs::Flow::flow_of))]
pub fn flow_of(program: &Program, place: u16, i: Instruction) -> Flow
    ensures { result ≡ flow_of (seen_program program.now) place i }
{
    flow_by(is_terminator(program, i), jump_of(program, place, i))
}

// The instruction matches a listed encoding.
pub fn is_listed(i: Instruction) -> bool
    ensures { result ≡ flow.listed i }
{
    !matches!(i, Instruction::Unlisted)
}
