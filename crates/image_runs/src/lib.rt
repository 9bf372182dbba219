// Steps and runs in a page of an image. The page is run as a lone one is; what is refused goes by the image and its index.
#![tactic(auto)]

ghost use Rattle.std.specs.Prelude.{◌<◌, [], ◌∷◌, ◌≡◌, length};
ghost use Rattle.refusal.specs.Refusals.{decision, decision_of};
ghost use Rattle.platform.specs.Programs.{seen_program};
ghost use Rattle.image.specs.Images.{seen_image, pages_in, program_at, byte_of};
ghost use Rattle.image.specs.Index.{index_rule};
ghost use Rattle.admission.specs.RunRefusals.{record_rules};
ghost use Rattle.plain.specs.PlainMachine.{plain};
ghost use Rattle.instruction.specs.Instructions.{instruction_of};
ghost use Rattle.machine.specs.Runs.{seen};
ghost use Rattle.image_runs.specs.ImageRuns.{seen_image_setting, setting_at, image_area_rules, image_decision, image_run_of};

use image::Image;
use machine::Answer;
use platform::{Program, Setting};
use refusal::Refusal;
use state::Record;
use stop::Stop;
use window::Window;

// What a run in an image gets beside a page's number, budget, record and RAM.
#[derive(Clone, Copy)]
pub struct ImageSetting<'a> {
    pub image: Image<'a>,
    pub external: &'a [u8],
    pub window: Window,
}

// ---- what is refused

// Every byte of the index is its page's count.
fn of_index(image: &Image) -> Result<(), Refusal>
    ensures { decision_of result ≡ decision (index_rule (seen_image image.now) ∷ []) }
{
    if !image::holds_counts(image) {
        return Err(Refusal::WrongIndex);
    }
    Ok(())
}

// The image has the page, its index is right, and what is lent beside it is allowed. Pages are counted only if there is an index to hold
// the counts against.
pub fn of_areas(setting: &ImageSetting, number: u32, ram: &[u8]) -> Result<(), Refusal>
    ensures { decision_of result ≡ decision (image_area_rules (seen_image_setting setting.now) number ram.now) }
{
    image::of_page(&setting.image, number)?;
    of_index(&setting.image)?;
    admission::of_lent(ram, setting.external, setting.window)
}

// A page that the image has, as a lone one.
fn program_at<'a>(image: &Image<'a>, number: u32) -> Program<'a>
    requires { number < pages_in image.now.pages.now }
    ensures { seen_program result ≡ program_at (seen_image image.now) number }
{
    let at = 256 * (number as usize);
    Program {
        page: &image.pages[at..at + 256],
        platform: image.platform,
    }
}

// The record is fit, and so is its place, by the index byte of the page.
fn of_record(setting: &ImageSetting, number: u32, r: Record) -> Result<(), Refusal>
    requires { number < pages_in setting.now.image.pages.now }
    ensures { decision_of result ≡ decision (record_rules (program_at (seen_image setting.now.image) number) (byte_of (seen_image setting.now.image) number) (length setting.now.external.now) r) }
{
    let program = program_at(&setting.image, number);
    let count = endian::byte(setting.image.index, number as usize) as u32;
    admission::of_record(&program, count, setting.external, r)
}

#[tactic(auto, using(crate::proofs::Theorems::record_behind))]
fn verdict_of(setting: &ImageSetting, number: u32, ram: &[u8], r: Record) -> Result<(), Refusal>
    ensures { decision_of result ≡ image_decision (seen_image_setting setting.now) number r ram.now }
{
    of_areas(setting, number, ram)?;
    of_record(setting, number, r)
}

// ---- runs

// In a page that the image has.
fn run_in(setting: &ImageSetting, number: u32, ram: &mut [u8], r: Record, budget: u32) -> Answer
    requires { number < pages_in setting.now.image.pages.now }
    ensures { seen result ram.new ≡ plain (instruction_of (setting_at (seen_image_setting setting.now) number)) budget 0 r ram.old }
{
    let lone = Setting {
        program: program_at(&setting.image, number),
        external: setting.external,
        window: setting.window,
    };
    machine::run_admitted(&lone, ram, r, budget)
}

// A run in a page.
pub fn run(setting: &ImageSetting, number: u32, ram: &mut [u8], r: Record, budget: u32) -> Answer
    ensures { seen result ram.new ≡ image_run_of (seen_image_setting setting.now) number budget r ram.old }
{
    match verdict_of(setting, number, &ram[..], r) {
        Ok(()) => run_in(setting, number, ram, r, budget),
        Err(why) => Answer {
            stop: Stop::Refused(why),
            steps: 0,
            after: r,
        },
    }
}

// A step: a run with budget 1.
pub fn step(setting: &ImageSetting, number: u32, ram: &mut [u8], r: Record) -> Answer
    ensures { seen result ram.new ≡ image_run_of (seen_image_setting setting.now) number 1 r ram.old }
{
    run(setting, number, ram, r, 1)
}
