// The runner's run of a page, and its whole output as bytes in lent room.
#![tactic(auto)]

ghost use Rattle.std.specs.Prelude.{◌≡◌, length};
ghost use Rattle.text.specs.Room.{written_of, placed};
ghost use Rattle.trial.specs.Trial.{trial_of};

use platform::{Program, Setting};

// The output goes to the start of the room, or nothing does.
pub fn try_page(page: &[u8], room: &mut [u8]) -> Option<usize>
    ensures { (result ≡ written_of (trial_of page.now) (length room.old))
        × (room.new ≡ placed (trial_of page.now) room.old) }
{
    let platform = platform::default_platform();
    let setting = Setting {
        program: Program { page, platform },
        external: b"",
        window: window::whole_ram(),
    };
    let mut ram = [0u8; 32768];
    let answer = machine::run(&setting, &mut ram, state::fresh_record(), 100_000);
    transcript::write(answer.stop, answer.steps, answer.after, room)
}
