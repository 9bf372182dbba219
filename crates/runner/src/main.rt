// Runs a page that is read as raw bytes from standard input.
#![tactic(auto)]

ghost use Rattle.trial.specs.Trial.{trial_of};

use streams::Command;

struct Runner;

impl Command for Runner {
    ghost text_of = { trial_of };

    fn write(input: &[u8], room: &mut [u8]) -> Option<usize> {
        trial::try_page(input, room)
    }
}

fn main(rt: HostRuntime) {
    // One byte more than a page may have, so that a longer input is refused.
    let mut place = [0u8; 257];
    let mut room = [0u8; 512];
    streams::run::<Runner, _, _, _>(
        &mut rt.stdin(),
        &mut rt.stdout(),
        &mut rt.stderr(),
        b"runner",
        &mut place,
        &mut room,
    );
}
