// Exits and terminators among the services, for the reader and the machine alike.
#![tactic(auto)]

ghost use Rattle.std.specs.Prelude.{◌≡◌};
ghost use Rattle.platform.specs.Programs.{seen_program};
ghost use Rattle.ending.specs.Endings.{ending_of, last_syscall, ending_on, ending_in};

use literal::Service;
use platform::{Platform, Program};

// How the flow goes on at a service: it just goes on; the run ends, and would go on behind it; the run ends at a
// terminator; the service is bad.
#[derive(Clone, Copy)]
pub enum Ending {
    GoesOn,
    Exit,
    LastExit,
    Bad,
}

// By the build paper's table.
fn ending_of(s: Service) -> Ending
    ensures { result ≡ ending_of s }
{
    match s {
        Service::Return => Ending::LastExit,
        Service::Call(_, _) => Ending::Exit,
        Service::TailCall(_, _) => Ending::LastExit,
        Service::Syscall(_, _) => Ending::Exit,
        Service::TailSyscall(_, _) => Ending::LastExit,
        Service::LongBranch(_) => Ending::LastExit,
        Service::Preload => Ending::GoesOn,
        Service::SetBase(_) => Ending::GoesOn,
        Service::StoreAtSp(_, _) => Ending::GoesOn,
        Service::LoadAtSp(_, _) => Ending::GoesOn,
        Service::LowerSp(_) => Ending::GoesOn,
        Service::DirectSyscall(_) => Ending::Exit,
        Service::Validate(_) => Ending::GoesOn,
        Service::Breakpoint => Ending::Exit,
        Service::CallRegister(_) => Ending::Exit,
        Service::TailCallRegister(_) => Ending::LastExit,
        Service::Bad => Ending::Bad,
    }
}

// ---- in a program

// A direct syscall that never returns.
fn is_last_syscall(platform: Platform, s: Service) -> bool
    ensures { result ≡ last_syscall platform.never_return s }
{
    match s {
        Service::DirectSyscall(n) => platform::never_returns(platform, n),
        _ => false,
    }
}

// The same on a platform.
pub fn ending_on(platform: Platform, s: Service) -> Ending
    ensures { result ≡ ending_on platform.never_return s }
{
    if is_last_syscall(platform, s) {
        Ending::LastExit
    } else {
        ending_of(s)
    }
}

// How the flow goes on at the service with the low byte n.
pub fn ending_in(program: &Program, n: u8) -> Ending
    ensures { result ≡ ending_in (seen_program program.now) n }
{
    ending_on(program.platform, service::service_of(program.page, n))
}
