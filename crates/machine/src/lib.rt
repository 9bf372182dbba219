// A step, and a run with a budget.
#![tactic(auto)]

ghost use Rattle.std.specs.Prelude.{◌≡◌, ◌≤◌, length};
ghost use Rattle.platform.specs.Programs.{seen_setting};
ghost use Rattle.plain.specs.PlainMachine.{plain};
ghost use Rattle.instruction.specs.Instructions.{instruction_of};
ghost use Rattle.machine.specs.Runs.{admitted_run, seen, Gives};

use execution::End;
use isa::Instruction;
use platform::Setting;
use refusal::Refusal;
use state::Record;
use stop::Stop;

// What a run gives.
#[derive(Clone, Copy)]
pub struct Answer {
    pub stop: Stop,
    pub steps: u32,
    pub after: Record,
}

fn stopped(stop: Stop, steps: u32, after: Record) -> Answer
    ensures { result ≡ record { stop = stop; steps = steps; after = after } }
{
    Answer { stop, steps, after }
}

// Until the budget is spent or an instruction doesn't go on. What a data-processing instruction writes is written in place.
fn run_on(setting: &Setting, start: Record, ram: &mut [u8], budget: u32) -> Answer
    requires { length setting.now.program.page.now ≤ 256 }
    ensures { seen result ram.new ≡ plain (instruction_of (seen_setting setting.now)) budget 0 start ram.old }
{
    let program = setting.program;
    let mut r = start;
    for steps in 0..budget {
        let i = place::instruction_at(&program, r.place);
        if let Instruction::Data(operation) = i {
            let next = place::next_place(program.page, r.place) as u16;
            let c = compute::compute(operation, &r.regs, r.sp, r.flags);
            if let Some((k, x)) = c.register {
                state::set_in(&mut r.regs, k, x);
            }
            r.flags = c.flags;
            r.place = next;
        } else {
            let x = execution::execute(setting, i, r, ram);
            r = writing::applied(r, x.writes, x.place);
            match x.end {
                End::GoesOn => {}
                End::Exits(n) => return stopped(Stop::Service(n), steps + 1, r),
                End::ExitsBy(n, word) => return stopped(Stop::ServiceBy(n, word), steps + 1, r),
                End::Fails(fault) => return stopped(Stop::Fault(fault), steps, r),
                End::Unlisted => return stopped(Stop::Unlisted, steps, r),
            }
        }
    }
    stopped(Stop::Budget, budget, r)
}

// A run of what was admitted, by this crate's table of refusals or an image's: the page's length alone is tested again.
pub fn run_admitted(setting: &Setting, ram: &mut [u8], r: Record, budget: u32) -> Answer
    ensures { seen result ram.new ≡ admitted_run (seen_setting setting.now) budget r ram.old }
{
    if !page::fits(setting.program.page) {
        return stopped(Stop::Refused(Refusal::PageLength), 0, r);
    }
    run_on(setting, r, ram, budget)
}

// A run with the build paper's budget.
pub fn run(setting: &Setting, ram: &mut [u8], r: Record, budget: u32) -> Answer
    ensures { Gives (seen_setting setting.now) budget r ram.old result ram.new }
{
    match admission::verdict_of(setting, ram, r) {
        Err(why) => stopped(Stop::Refused(why), 0, r),
        Ok(()) => run_admitted(setting, ram, r, budget),
    }
}

// The build paper's step: a run with budget 1.
pub fn step(setting: &Setting, ram: &mut [u8], r: Record) -> Answer
    ensures { Gives (seen_setting setting.now) 1 r ram.old result ram.new }
{
    run(setting, ram, r, 1)
}
