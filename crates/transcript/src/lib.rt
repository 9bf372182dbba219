// The runner's whole output, made as bytes in lent room.
#![tactic(auto)]

ghost use Rattle.std.specs.Prelude.{◌≡◌, length};
ghost use Rattle.stop.specs.Stops.{reason_of};
ghost use Rattle.text.specs.Room.{written_of, placed};
ghost use Rattle.text.specs.Text.{Grows};
ghost use Rattle.transcript.specs.Transcript.{is_refusal, transcript_of};

use state::Record;
use stop::Stop;
use text::Text;

fn is_refusal(stop: Stop) -> bool
    ensures { result ≡ is_refusal (reason_of stop) }
{
    matches!(stop, Stop::Refused(_))
}

// A refusal is one line, any other stop the first of five.
fn put_run(text: &mut Text, stop: Stop, steps: u32, r: Record)
    ensures { Grows text.old (transcript_of (reason_of stop) steps r) text.new }
{
    let regs = r.regs;
    let flags = r.flags;
    runner_lines::stop_line(text, stop);
    if is_refusal(stop) {
        return;
    }
    runner_lines::steps_line(text, steps);
    runner_lines::place_line(text, r.place);
    runner_lines::regs_line(text, regs);
    runner_lines::flags_line(text, flags);
}

// The output goes to the start of the room, or nothing does. The five lines have at most so many bytes.
pub fn write(stop: Stop, steps: u32, r: Record, room: &mut [u8]) -> Option<usize>
    ensures { (result ≡ written_of (transcript_of (reason_of stop) steps r) (length room.old))
        × (room.new ≡ placed (transcript_of (reason_of stop) steps r) room.old) }
{
    let mut buffer = [0u8; 30 + 17 + 17 + 77 + 11];
    let mut text = Text {
        buffer: &mut buffer,
        end: 0,
    };
    put_run(&mut text, stop, steps, r);
    text::place(text.bytes(), room)
}
