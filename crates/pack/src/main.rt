// Writes the short form of a stored record, which is read as raw bytes from standard input.
#![tactic(auto)]

ghost use Rattle.conversion.specs.Conversion.{packed};

use streams::Command;

struct Pack;

impl Command for Pack {
    ghost text_of = { packed };

    fn write(input: &[u8], room: &mut [u8]) -> Option<usize> {
        conversion::pack(input, room)
    }
}

fn main(rt: HostRuntime) {
    // One byte more than a stored record has, so that a longer input is refused.
    let mut place = [0u8; 45];
    let mut room = [0u8; 64];
    streams::run::<Pack, _, _, _>(
        &mut rt.stdin(),
        &mut rt.stdout(),
        &mut rt.stderr(),
        b"pack",
        &mut place,
        &mut room,
    );
}
