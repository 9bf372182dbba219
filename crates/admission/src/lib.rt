// What a step and a run refuse.
#![tactic(auto)]

ghost use Rattle.std.specs.Prelude.{[], ◌∷◌, ◌≡◌, length};
ghost use Rattle.platform.specs.Programs.{seen_program, seen_setting};
ghost use Rattle.refusal.specs.Refusals.{decision, decision_of};
ghost use Rattle.state.specs.Validation.{external_rule};
ghost use Rattle.admission.specs.RunRefusals.{lent_rules, area_rules, place_rule, record_rules, run_decision};

use platform::{Program, Setting};
use refusal::Refusal;
use state::Record;
use window::Window;

fn of_external(external: &[u8]) -> Result<(), Refusal>
    ensures { decision_of result ≡ decision (external_rule (length external.now) ∷ []) }
{
    if !state::external_fits(external) {
        return Err(Refusal::ExternalLength);
    }
    Ok(())
}

// RAM and external data have their lengths, and the window lies in RAM. A lone page's setting and an image's have these alone in common.
pub fn of_lent(ram: &[u8], external: &[u8], window: Window) -> Result<(), Refusal>
    ensures { decision_of result ≡ decision (lent_rules external.now window ram.now) }
{
    if ram.len() != 32768 {
        return Err(Refusal::RamLength);
    }
    of_external(external)?;
    window::of_window(window)
}

// The profile is known, what is lent has its lengths, and the window lies in RAM.
pub fn of_areas(setting: &Setting, ram: &[u8]) -> Result<(), Refusal>
    ensures { decision_of result ≡ decision (area_rules (seen_setting setting.now) ram.now) }
{
    platform::of_program(&setting.program)?;
    of_lent(ram, setting.external, setting.window)
}

fn of_place(program: &Program, count: u32, place: u16) -> Result<(), Refusal>
    ensures { decision_of result ≡ decision (place_rule (seen_program program.now) count place ∷ []) }
{
    if !place::is_fit(program, count, place) {
        return Err(Refusal::UnfitPlace);
    }
    Ok(())
}

// The record is fit, and so is its place, by a count of the page's bundles.
pub fn of_record(program: &Program, count: u32, external: &[u8], r: Record) -> Result<(), Refusal>
    ensures { decision_of result ≡ decision (record_rules (seen_program program.now) count (length external.now) r) }
{
    state::fitness(r, external.len())?;
    of_place(program, count, r.place)
}

// On a lone page: the count is the page's own.
#[tactic(auto, unfolding(crate::specs::RunRefusals::run_decision))]
pub fn verdict_of(setting: &Setting, ram: &[u8], r: Record) -> Result<(), Refusal>
    ensures { decision_of result ≡ run_decision (seen_setting setting.now) r ram.now }
{
    of_areas(setting, ram)?;
    let count = count::count(&setting.program)?;
    of_record(&setting.program, count, setting.external, r)
}
