// Which call, tail call or return a service asks of an image.
#![tactic(auto)]

ghost use Rattle.std.specs.Prelude.{◌≡◌};
ghost use Rattle.asking.specs.Asking.{asked_by, asked_in};

use isa::Instruction;
use literal::Service;

// What is asked for; a call of either kind by its word. No transfer is one case of the four, and no Option around three: whoever reads it
// matches them in one table.
#[derive(Clone, Copy)]
pub enum Asked {
    NoTransfer,
    Call(u32),
    TailCall(u32),
    Return,
}

#[tactic(auto, unfolding(crate::specs::Asking::asked_by))]
fn asked_by(s: Service, word: u32, regs: &[u32]) -> Asked
    ensures { result ≡ asked_by s word regs.now }
{
    match s {
        Service::Return => Asked::Return,
        Service::Call(_, _) => Asked::Call(word),
        Service::TailCall(_, _) => Asked::TailCall(word),
        Service::CallRegister(n) => Asked::Call(state::register_in(regs, n)),
        Service::TailCallRegister(n) => Asked::TailCall(state::register_in(regs, n)),
        _ => Asked::NoTransfer,
    }
}

// By the instruction, in its page.
#[tactic(auto, unfolding(crate::specs::Asking::asked_in))]
pub fn asked_in(page: &[u8], regs: &[u32], i: Instruction) -> Asked
    ensures { result ≡ asked_in page.now regs.now i }
{
    match i {
        Instruction::Service(n) => asked_by(
            service::service_of(page, n),
            page::word(page, n as u32),
            regs,
        ),
        _ => Asked::NoTransfer,
    }
}
