// Writes the stored form of a record whose short form is read as raw bytes from standard input.
#![tactic(auto)]

ghost use Rattle.conversion.specs.Conversion.{unpacked};

use streams::Command;

struct Unpack;

impl Command for Unpack {
    ghost text_of = { unpacked };

    fn write(input: &[u8], room: &mut [u8]) -> Option<usize> {
        conversion::unpack(input, room)
    }
}

fn main(rt: HostRuntime) {
    // One byte more than thirteen numbers of five groups have, so that a longer input is refused.
    let mut place = [0u8; 66];
    let mut room = [0u8; 64];
    streams::run::<Unpack, _, _, _>(
        &mut rt.stdin(),
        &mut rt.stdout(),
        &mut rt.stderr(),
        b"unpack",
        &mut place,
        &mut room,
    );
}
