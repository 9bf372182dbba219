// Why a run stopped.
#![tactic(auto)]

use memory::Fault;
use refusal::Refusal;

#[derive(Clone, Copy)]
pub enum Stop {
    // all of the budget is spent
    Budget,
    // at a service: its low byte
    Service(u8),
    // at a service by a literal: its low byte and the literal
    ServiceBy(u8, u32),
    Fault(Fault),
    // at a halfword that stands for nothing listed
    Unlisted,
    Refused(Refusal),
}
