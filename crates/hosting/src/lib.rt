// Runs for a host: a record comes as its bytes and goes back to them, and a stop is told by numbers.
#![tactic(auto)]

ghost use Rattle.std.specs.Prelude.{ℕ, List, ◌≡◌};
ghost use Rattle.refusal.specs.Refusals.{Rule, decision, when_accepted, decision_of};
ghost use Rattle.platform.specs.Programs.{seen_setting};
ghost use Rattle.state.specs.declared.Record.{Record};
ghost use Rattle.stop.specs.Stops.{reason_of};
ghost use Rattle.admission.specs.RunRefusals.{area_rules};
ghost use Rattle.plain.specs.PlainMachine.{Result};
ghost use Rattle.machine.specs.Runs.{seen, run_of};
ghost use Rattle.image_runs.specs.ImageRuns.{seen_image_setting, image_area_rules, image_run_of};
ghost use Rattle.layout.specs.StoredForm.{room_with};
ghost use Rattle.crossing.specs.Numbers.{refused_with, stop_numbers};
ghost use Rattle.hosting.specs.Crossed.{crossed_by, host_call};
ghost use Rattle.hosting.specs.HostRuns.{host_run, host_image_run};

use crossing::StopNumbers;
use image_runs::ImageSetting;
use machine::Answer;
use platform::Setting;
use refusal::Refusal;
use state::Record;

// What a host is told of a step or a run, beside record and RAM.
#[derive(Clone, Copy)]
pub struct Hosted {
    pub stop: StopNumbers,
    pub steps: u32,
}

// The bytes hold no record: what stands before it is told first.
fn no_record(areas: Result<(), Refusal>, held: Result<(), Refusal>) -> Hosted
    ensures { result ≡ record { stop = refused_with (when_accepted (decision_of areas) (decision_of held) (decision_of areas)); steps = 0 } }
{
    Hosted {
        stop: crossing::refused_with(refusal::first_of(areas, held)),
        steps: 0,
    }
}

// The record goes back to its bytes.
fn given_back(answer: Answer, bytes: &mut [u8]) -> Hosted
    ensures { (result ≡ record { stop = stop_numbers (reason_of answer.stop); steps = answer.steps }) × (bytes.new ≡ room_with answer.after bytes.old) }
{
    layout::write(answer.after, bytes);
    Hosted {
        stop: StopNumbers::from(answer.stop),
        steps: answer.steps,
    }
}

// ---- what a host runs: a page alone, and a page of an image

// What is refused before the record is looked at, and the run of a record.
trait Runs {
    ghost areas_of: { Self → List ℕ → List Rule };

    ghost run_of: { Self → ℕ → Record → List ℕ → Result };

    fn of_areas(&self, ram: &[u8]) -> Result<(), Refusal>
        ensures { decision_of result ≡ decision (areas_of self.now ram.now) };

    fn run(&self, ram: &mut [u8], r: Record, budget: u32) -> Answer
        ensures { seen result ram.new ≡ run_of self.now budget r ram.old };
}

impl<'a> Runs for Setting<'a> {
    ghost areas_of = { λ setting. area_rules (seen_setting setting) };

    ghost run_of = { λ setting. run_of (seen_setting setting) };

    fn of_areas(&self, ram: &[u8]) -> Result<(), Refusal> {
        admission::of_areas(self, ram)
    }

    fn run(&self, ram: &mut [u8], r: Record, budget: u32) -> Answer {
        machine::run(self, ram, r, budget)
    }
}

// A page of an image, by its number.
#[derive(Clone, Copy)]
struct InPage<'a> {
    setting: ImageSetting<'a>,
    number: u32,
}

impl<'a> Runs for InPage<'a> {
    ghost areas_of = { λ x. image_area_rules (seen_image_setting x.setting) x.number };

    ghost run_of = { λ x. image_run_of (seen_image_setting x.setting) x.number };

    fn of_areas(&self, ram: &[u8]) -> Result<(), Refusal> {
        image_runs::of_areas(&self.setting, self.number, ram)
    }

    fn run(&self, ram: &mut [u8], r: Record, budget: u32) -> Answer {
        image_runs::run(&self.setting, self.number, ram, r, budget)
    }
}

// The run of the record that the bytes hold.
fn run_bytes<S: Runs>(what: &S, ram: &mut [u8], bytes: &mut [u8], budget: u32) -> Hosted
    ensures { crossed_by result bytes.new ram.new ≡ host_call (S.areas_of what.now ram.old) (λ r. S.run_of what.now budget r ram.old) bytes.old ram.old }
{
    let held = layout::holds_record(&bytes[..]);
    if let Err(_) = held {
        return no_record(what.of_areas(&ram[..]), held);
    }
    let before = layout::record_in(&bytes[..]);
    let answer = what.run(ram, before, budget);
    given_back(answer, bytes)
}

pub fn run(setting: &Setting, ram: &mut [u8], bytes: &mut [u8], budget: u32) -> Hosted
    ensures { crossed_by result bytes.new ram.new ≡ host_run (seen_setting setting.now) budget bytes.old ram.old }
{
    run_bytes(setting, ram, bytes, budget)
}

// In a page of an image.
pub fn run_in_image(
    setting: &ImageSetting,
    number: u32,
    ram: &mut [u8],
    bytes: &mut [u8],
    budget: u32,
) -> Hosted
    ensures { crossed_by result bytes.new ram.new ≡ host_image_run (seen_image_setting setting.now) number budget bytes.old ram.old }
{
    let what = InPage {
        setting: *setting,
        number,
    };
    run_bytes(&what, ram, bytes, budget)
}
