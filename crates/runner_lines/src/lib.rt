// The lines that the runner prints. Each goes behind the text.
#![tactic(auto)]

ghost use Rattle.stop.specs.Stops.{reason_of};
ghost use Rattle.text.specs.Text.{Grows};
ghost use Rattle.runner_lines.specs.Lines.{service_text, stop_text, steps_text, place_text};
ghost use Rattle.runner_lines.specs.Lines.{regs_text, flag_text, flags_text};

use arm::Flags;
use stop::Stop;
use text::Text;

// A service, by its low byte.
fn put_service(text: &mut Text, n: u8)
    ensures { Grows text.old (service_text n) text.new }
{
    text.put(b"stop service ");
    text.put_hex(2, n as u32);
}

// Why a run stopped, or the refusal's line.
pub fn stop_line(text: &mut Text, stop: Stop)
    ensures { Grows text.old (stop_text (reason_of stop)) text.new }
{
    match stop {
        Stop::Budget => text.put(b"stop budget\n"),
        Stop::Service(n) => {
            put_service(text, n);
            text.push(b'\n');
        }
        Stop::ServiceBy(n, literal) => {
            put_service(text, n);
            text.push(b' ');
            text.put_hex(8, literal);
            text.push(b'\n');
        }
        Stop::Fault(fault) => { text.number_line(b"stop fault ", u8::from(fault) as u32) }
        Stop::Unlisted => text.put(b"stop mark\n"),
        Stop::Refused(refusal) => refusal_line::put(text, refusal),
    }
}

// How many steps were counted.
#[tactic(auto, unfolding(crate::specs::Lines::steps_text))]
pub fn steps_line(text: &mut Text, steps: u32)
    ensures { Grows text.old (steps_text steps) text.new }
{
    text.number_line(b"steps ", steps);
}

// The place, a halfword number.
#[tactic(auto, unfolding(crate::specs::Lines::place_text))]
pub fn place_line(text: &mut Text, place: u16)
    ensures { Grows text.old (place_text place) text.new }
{
    text.number_line(b"place ", place as u32);
}

// The registers.
pub fn regs_line(text: &mut Text, regs: [u32; 8])
    ensures { Grows text.old (regs_text regs) text.new }
{
    text.put(b"regs");
    for x in regs {
        text.push(b' ');
        text.put_hex(8, x);
    }
    text.push(b'\n');
}

#[tactic(auto, unfolding(crate::specs::Lines::flag_text))]
fn put_flag(text: &mut Text, flag: bool)
    ensures { Grows text.old (flag_text flag) text.new }
{
    text.push(if flag { b'1' } else { b'0' });
}

// The flags N, Z, C, V.
pub fn flags_line(text: &mut Text, flags: Flags)
    ensures { Grows text.old (flags_text flags) text.new }
{
    text.put(b"flags ");
    put_flag(text, flags.n);
    put_flag(text, flags.z);
    put_flag(text, flags.c);
    put_flag(text, flags.v);
    text.push(b'\n');
}
