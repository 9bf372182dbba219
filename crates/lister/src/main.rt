// Lists a page that is read as raw bytes from standard input.
#![tactic(auto)]

ghost use Rattle.listing.specs.Listing.{listing_of};

use streams::Command;

struct Lister;

impl Command for Lister {
    ghost text_of = { listing_of };

    fn write(input: &[u8], room: &mut [u8]) -> Option<usize> {
        listing::list(input, room)
    }
}

fn main(rt: HostRuntime) {
    // One byte more than a page may have, so that a longer input is refused.
    let mut place = [0u8; 257];
    let mut room = [0u8; 4096];
    streams::run::<Lister, _, _, _>(
        &mut rt.stdin(),
        &mut rt.stdout(),
        &mut rt.stderr(),
        b"lister",
        &mut place,
        &mut room,
    );
}
