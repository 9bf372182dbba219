// One instruction as code: how it ends, what it writes and where the run then stands. Data processing is the run's own.
#![tactic(auto)]

ghost use Rattle.std.specs.Prelude.{◌≡◌, ◌<◌, pos};
ghost use Rattle.platform.specs.Programs.{seen_setting};
ghost use Rattle.bits.specs.Fields.{bits};
ghost use Rattle.bits.specs.Integers.{SInt};
ghost use Rattle.arm.specs.Conditions.{condition_holds};
ghost use Rattle.branch.specs.Branches.{Near, target_of};
ghost use Rattle.plain.specs.PlainMachine.{unlisted};
ghost use Rattle.place.specs.Places.{following};
ghost use Rattle.instruction.specs.Instructions.{branch_to, branch_if, exit_of, served, effect_of};
ghost use Rattle.state.specs.Record.{with_place};
ghost use Rattle.execution.specs.Executed.{after, exit_end, executed_of, ended_by, not_data, executable, Executes, ExecutesAny};

use ending::Ending;
use isa::Instruction;
use memory::Fault;
use platform::Setting;
use state::Record;
use writing::Writes;

// How an instruction ended. A Stop is no plainer here: a budget or a refusal ends no instruction.
#[derive(Clone, Copy)]
pub enum End {
    GoesOn,
    // at a service: its low byte
    Exits(u8),
    // at a service by a literal: its low byte and the literal
    ExitsBy(u8, u32),
    Fails(Fault),
    // nothing listed stands there
    Unlisted,
}

// What an instruction comes to: its end, what it writes, and the place where the run then stands.
#[derive(Clone, Copy)]
pub struct Executed {
    pub end: End,
    pub writes: Writes,
    pub place: u16,
}

// ---- where an instruction goes

// Nothing is written; it ends so at a place.
#[tactic(auto, unfolding(writing::specs::Writes::applied, state::specs::Record::with_place))]
fn moved(r: Record, end: End, place: u16) -> Executed
    ensures { after r result ≡ record { end = end; rec = with_place r place } }
{
    Executed {
        end,
        writes: writing::writes_nothing(r),
        place,
    }
}

// What was done ends so at a place, unless a fault was met.
#[tactic(auto, unfolding(crate::specs::Executed::ended_by, state::specs::Record::with_place))]
fn ended(r: Record, d: Result<Writes, Fault>, end: End, place: u16) -> Executed
    ensures { after r result ≡ ended_by end r place d }
{
    match d {
        Ok(writes) => Executed { end, writes, place },
        Err(fault) => moved(r, End::Fails(fault), r.place),
    }
}

// What is unlisted changes nothing.
#[tactic(auto, unfolding(crate::specs::Executed::executed_of, state::specs::Record::with_place))]
fn unlisted(r: Record) -> Executed
    ensures { after r result ≡ executed_of r unlisted }
{
    moved(r, End::Unlisted, r.place)
}

// A branch that is taken.
#[tactic(auto, unfolding(crate::specs::Executed::executed_of, instruction::specs::Instructions::branch_to))]
fn branch_to(r: Record, t: Option<u32>) -> Executed
    requires { Near t }
    ensures { ExecutesAny r (λ m. branch_to r m t) result }
{
    match t {
        None => unlisted(r),
        Some(b) => moved(r, End::GoesOn, (2 * b) as u16),
    }
}

// A branch that may be taken.
#[tactic(auto, unfolding(crate::specs::Executed::executed_of, instruction::specs::Instructions::branch_if))]
fn branch_if(taken: bool, r: Record, next: u16, t: Option<u32>) -> Executed
    requires { Near t }
    ensures { ExecutesAny r (λ m. branch_if taken r m next t) result }
{
    if taken {
        return branch_to(r, t);
    }
    moved(r, End::GoesOn, next)
}

// By a test of a register.
#[tactic(auto, using(branch::proofs::Theorems::near_compare))]
fn compared(taken: bool, imm6: u8, r: Record, next: u16) -> Executed
    requires { r.place < 128 }
    ensures { ExecutesAny r (λ m. branch_if taken r m next (target_of r.place (pos imm6))) result }
{
    branch_if(taken, r, next, branch::compare_target(r.place, imm6))
}

#[tactic(auto, using(branch::proofs::Theorems::near_conditional))]
fn bcc(condition: u8, imm8: u8, r: Record, next: u16) -> Executed
    requires { r.place < 128 }
    ensures { ExecutesAny r (λ m. branch_if (condition_holds condition r.flags) r m next (target_of r.place (SInt 8 imm8))) result }
{
    branch_if(
        arm::condition_holds(condition, r.flags),
        r,
        next,
        branch::conditional_target(r.place, imm8),
    )
}

#[tactic(auto, using(branch::proofs::Theorems::near_b))]
fn b(imm11: u16, r: Record) -> Executed
    requires { r.place < 128 }
    ensures { ExecutesAny r (λ m. branch_to r m (target_of r.place (SInt 11 (bits imm11 10 0)))) result }
{
    branch_to(r, branch::branch_target(r.place, imm11))
}

// ---- services

// What an exit carries.
#[tactic(auto, unfolding(crate::specs::Executed::exit_end, instruction::specs::Instructions::exit_of))]
fn exit_end(page: &[u8], n: u8) -> End
    ensures { result ≡ exit_end (exit_of page.now n) }
{
    match n {
        0x01..=0x7F => End::ExitsBy(n, page::word(page, n as u32)),
        _ => End::Exits(n),
    }
}

// The service with the low byte n, and the place behind it. A terminator keeps its place, any other moves on.
fn serve(setting: &Setting, n: u8, r: Record, ram: &mut [u8], behind: u16) -> Executed
    requires { behind ≡ following setting.now.program.page.now r.place }
    ensures { Executes r ram.old (served (seen_setting setting.now) r ram.old n) result ram.new }
{
    let page = setting.program.page;
    let s = service::service_of(page, n);
    let (end, place) = match ending::ending_on(setting.program.platform, s) {
        Ending::GoesOn => (End::GoesOn, behind),
        Ending::Exit => (exit_end(page, n), behind),
        Ending::LastExit => (exit_end(page, n), r.place),
        Ending::Bad => return unlisted(r),
    };
    let did = effects::serve(setting.external, setting.window, s, r, ram);
    ended(r, did, end, place)
}

// ---- one instruction

// The instruction i, which stands at the record's place. The data-processing ones are the run's own.
fn perform(setting: &Setting, i: Instruction, r: Record, ram: &mut [u8]) -> Executed
    requires { r.place < 128 }
    ensures { Executes r ram.old (effect_of (seen_setting setting.now) r ram.old (not_data i)) result ram.new }
{
    let page = setting.program.page;
    let next = place::next_place(page, r.place) as u16;
    match i {
        Instruction::Data(_) | Instruction::Unlisted => unlisted(r),
        Instruction::Memory(access) => ended(
            r,
            access::perform(page, setting.external, setting.window, access, r, ram),
            End::GoesOn,
            next,
        ),
        Instruction::Cbz(imm6, n) => compared(state::register_of(r, n) == 0, imm6, r, next),
        Instruction::Cbnz(imm6, n) => compared(state::register_of(r, n) != 0, imm6, r, next),
        Instruction::Bcc(condition, imm8) => bcc(condition, imm8, r, next),
        Instruction::B(imm11) => b(imm11, r),
        Instruction::Service(n) => serve(setting, n, r, ram, next),
    }
}

// The instruction i at the record's place. No page is so long that a place from 128 on holds one.
#[tactic(auto, unfolding(crate::specs::Executed::executable, crate::specs::Executed::effect_ram, instruction::specs::Instructions::effect_of))]
pub fn execute(setting: &Setting, i: Instruction, r: Record, ram: &mut [u8]) -> Executed
    ensures { Executes r ram.old (effect_of (seen_setting setting.now) r ram.old (executable r.place i)) result ram.new }
{
    if r.place < 128 {
        perform(setting, i, r, ram)
    } else {
        unlisted(r)
    }
}
