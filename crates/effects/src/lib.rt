// What services do to registers, SP, base and RAM, and which fault they meet; never the place.
#![tactic(auto)]

ghost use Rattle.std.specs.Prelude.{◌≡◌, length};
ghost use Rattle.access.specs.Outcomes.{does, Does, DoesAny};
ghost use Rattle.writing.specs.Writes.{writes_nothing};
ghost use Rattle.effects.specs.ServiceEffects.{none_did, leaves_none, lower_sp, set_base, service_does};

use literal::Service;
use memory::Fault;
use state::{Base, Record};
use window::Window;
use writing::Writes;

// The base is none, unless a fault was met.
#[tactic(auto, unfolding(crate::specs::ServiceEffects::none_did))]
fn leave_none(d: Result<Writes, Fault>) -> Result<Writes, Fault>
    ensures { result ≡ none_did d }
{
    Ok(writing::writing_base(d?, Base::Nothing))
}

#[tactic(auto, unfolding(crate::specs::ServiceEffects::lower_sp, access::specs::Outcomes::did_of))]
fn lower_sp(r: Record, words: u32) -> Result<Writes, Fault>
    ensures { DoesAny (λ m. lower_sp r m words) result }
{
    let sp = r.sp as usize;
    let bytes = 4 * (words as usize);
    if sp < 0x10000 + bytes {
        Err(Fault::LowStack)
    } else {
        Ok(writing::writing_sp(writing::writes_nothing(r), (sp - bytes) as u32))
    }
}

// Nothing but the base rule.
#[tactic(auto, unfolding(crate::specs::ServiceEffects::leaves_none, access::specs::Outcomes::did_of))]
fn base_rule(r: Record) -> Result<Writes, Fault>
    ensures { DoesAny (λ m. leaves_none (does (writes_nothing r) m)) result }
{
    Ok(writing::writing_base(writing::writes_nothing(r), Base::Nothing))
}

#[tactic(auto, unfolding(access::specs::Outcomes::did_of))]
fn set_base_to(r: Record, v: u32, external: &[u8]) -> Result<Writes, Fault>
    ensures { DoesAny (λ m. set_base r m v (length external.now)) result }
{
    Ok(writing::writing_base(
        writing::writes_nothing(r),
        state::base_of(v, external.len()),
    ))
}

// External data and window stand apart, since no program and no platform is read.
#[tactic(auto, using(crate::proofs::Laws::none_did_lem, crate::proofs::Laws::none_ram), unfolding(crate::specs::ServiceEffects::service_does, crate::specs::ServiceEffects::leaves_none, access::specs::Outcomes::outcome_ram))]
pub fn serve(
    external: &[u8],
    window: Window,
    s: Service,
    r: Record,
    ram: &mut [u8],
) -> Result<Writes, Fault>
    ensures { Does ram.old (service_does (length external.now) window s r ram.old) result ram.new }
{
    let sp = r.sp as usize;
    match s {
        Service::SetBase(a) => set_base_to(r, a, external),
        Service::Validate(n) => set_base_to(r, state::register_of(r, n), external),
        Service::StoreAtSp(t, a) => {
            leave_none(access::store_at(r, window, ram, t, sp + a as usize))
        }
        Service::LoadAtSp(t, a) => leave_none(access::load_at(r, window, ram, t, sp + a as usize)),
        Service::LowerSp(words) => leave_none(lower_sp(r, words)),
        Service::Return
        | Service::Call(_, _)
        | Service::TailCall(_, _)
        | Service::Syscall(_, _)
        | Service::TailSyscall(_, _)
        | Service::LongBranch(_)
        | Service::Preload
        | Service::DirectSyscall(_)
        | Service::Breakpoint
        | Service::CallRegister(_)
        | Service::TailCallRegister(_)
        | Service::Bad => base_rule(r),
    }
}
