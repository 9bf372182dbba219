// The answers of the library's calls in numbers, as C has them.
#![tactic(auto)]

ghost use Rattle.std.specs.Prelude.{◌≡◌};
ghost use Rattle.refusal.specs.Refusals.{decision_of};
ghost use Rattle.prefix.specs.LargestSuccessor.{reading_of};
ghost use Rattle.stop.specs.Stops.{reason_of};
ghost use Rattle.crossing.specs.Exits.{bare_exit, exit_to, exit_with, exit_numbers, decoded_exit};
ghost use Rattle.crossing.specs.Numbers.{code_of, position_of, largest_kind, largest_number};
ghost use Rattle.crossing.specs.Numbers.{stopped_with, refused_with, stop_numbers};

use literal::Service;
use prefix::LargestSuccessor;
use refusal::Refusal;
use stop::Stop;

// A stop, in numbers since C takes it so: 0 or a refusal's number, the kind, what the kind carries, and the position that a refusal
// carries.
#[derive(Clone, Copy)]
pub struct StopNumbers {
    pub code: u32,
    pub kind: u32,
    pub value: u32,
    pub literal: u32,
    pub position: u32,
}

// What a service exit asks of the host; 0 where the kind carries none.
#[derive(Clone, Copy)]
pub struct ExitNumbers {
    pub kind: u32,
    pub number: u32,
    pub immediate: u32,
    pub address: u32,
    pub words: u32,
}

// 0 for what is accepted, else the refusal's number.
pub fn code_of<T: Copy>(answer: Result<T, Refusal>) -> u32
    ensures { result ≡ code_of (decision_of answer) }
{
    match answer {
        Ok(_) => 0,
        Err(why) => u32::from(u8::from(why)),
    }
}

// Where nothing is carried.
const NO_POSITION: u32 = 0;

// The position that a refusal carries.
pub fn position_of<T: Copy>(answer: Result<T, Refusal>) -> u32
    ensures { result ≡ position_of (decision_of answer) }
{
    match answer {
        Ok(_) => NO_POSITION,
        Err(why) => refusal::carries(why).unwrap_or(NO_POSITION),
    }
}

// 0 bad, 1 none, 2 a largest one: numbers, as the C interface has them.
pub fn largest_kind(successor: LargestSuccessor) -> u32
    ensures { result ≡ largest_kind (reading_of successor) }
{
    match successor {
        LargestSuccessor::Bad => 0,
        LargestSuccessor::Nothing => 1,
        LargestSuccessor::Largest(_) => 2,
    }
}

pub fn largest_number(successor: LargestSuccessor) -> u32
    ensures { result ≡ largest_number (reading_of successor) }
{
    match successor {
        LargestSuccessor::Bad | LargestSuccessor::Nothing => 0,
        LargestSuccessor::Largest(s) => s,
    }
}

// ---- stops

fn stopped_with(kind: u32, value: u32, literal: u32) -> StopNumbers
    ensures { result ≡ stopped_with kind value literal }
{
    StopNumbers {
        code: 0,
        kind,
        value,
        literal,
        position: NO_POSITION,
    }
}

// What a verdict refuses.
pub fn refused_with(verdict: Result<(), Refusal>) -> StopNumbers
    ensures { result ≡ refused_with (decision_of verdict) }
{
    let number = code_of(verdict);
    StopNumbers {
        code: number,
        kind: 5,
        value: number,
        literal: 0,
        position: position_of(verdict),
    }
}

// A stop in numbers.
impl From<Stop> for StopNumbers {
    ghost from_gives = { λ stop numbers. numbers ≡ stop_numbers (reason_of stop) };

    fn from(stop: Stop) -> StopNumbers {
        match stop {
            Stop::Budget => stopped_with(0, 0, 0),
            Stop::Service(n) => stopped_with(1, u32::from(n), 0),
            Stop::ServiceBy(n, literal) => stopped_with(2, u32::from(n), literal),
            Stop::Fault(fault) => stopped_with(3, u32::from(u8::from(fault)), 0),
            Stop::Unlisted => stopped_with(4, 0, 0),
            Stop::Refused(why) => refused_with(Err(why)),
        }
    }
}

// A stop's numbers go where they are asked for; the code comes back.
pub fn tell(
    stop: StopNumbers,
    kind: &mut u32,
    value: &mut u32,
    literal: &mut u32,
    position: &mut u32,
) -> u32
    ensures { record { code = result; kind = kind.new; value = value.new; literal = literal.new; position = position.new } ≡ stop }
{
    *kind = stop.kind;
    *value = stop.value;
    *literal = stop.literal;
    *position = stop.position;
    stop.code
}

// ---- exits

fn bare_exit(kind: u32) -> ExitNumbers
    ensures { result ≡ bare_exit kind }
{
    exit_to(kind, 0, 0)
}

fn exit_to(kind: u32, address: u32, words: u32) -> ExitNumbers
    ensures { result ≡ exit_to kind address words }
{
    ExitNumbers {
        kind,
        number: 0,
        immediate: 0,
        address,
        words,
    }
}

fn exit_with(kind: u32, number: u32, immediate: u32) -> ExitNumbers
    ensures { result ≡ exit_with kind number immediate }
{
    ExitNumbers {
        kind,
        number,
        immediate,
        address: 0,
        words: 0,
    }
}

// What a service asks of the host; the others are no exits.
impl From<Service> for ExitNumbers {
    ghost from_gives = { λ service numbers. numbers ≡ exit_numbers service };

    fn from(service: Service) -> ExitNumbers {
        match service {
            Service::Return => bare_exit(1),
            Service::Call(address, words) => exit_to(2, address, u32::from(words)),
            Service::TailCall(address, words) => exit_to(3, address, u32::from(words)),
            Service::Syscall(number, immediate) => exit_with(
                4,
                u32::from(number),
                u32::from(immediate),
            ),
            Service::TailSyscall(number, immediate) => exit_with(
                5,
                u32::from(number),
                u32::from(immediate),
            ),
            Service::LongBranch(address) => exit_to(6, address, 0),
            Service::DirectSyscall(number) => exit_with(7, u32::from(number), 0),
            Service::Breakpoint => bare_exit(8),
            Service::CallRegister(register) => exit_with(9, u32::from(register), 0),
            Service::TailCallRegister(register) => exit_with(10, u32::from(register), 0),
            Service::Preload
            | Service::SetBase(_)
            | Service::StoreAtSp(_, _)
            | Service::LoadAtSp(_, _)
            | Service::LowerSp(_)
            | Service::Validate(_)
            | Service::Bad => bare_exit(0),
        }
    }
}

// The exit of a low byte with its literal.
pub fn decoded_exit(low: u32, literal: u32) -> ExitNumbers
    ensures { result ≡ decoded_exit low literal }
{
    if low > 0xFF {
        return bare_exit(0);
    }
    ExitNumbers::from(service::by_low_byte(low as u8, literal::literal(literal)))
}
