// Records in lent room of 44 bytes, as a host's calls take and give them.
#![tactic(auto)]

ghost use Rattle.std.specs.Prelude.{◌≡◌};
ghost use Rattle.refusal.specs.Refusals.{decision_of};
ghost use Rattle.forming.specs.Crossing.{form_decision, form_room};

use refusal::Refusal;

// A stored form, or what is to be one, goes to the room as the record that it holds.
pub fn formed(bytes: &[u8], room: &mut [u8]) -> Result<(), Refusal>
    ensures { (decision_of result ≡ form_decision bytes.now room.old)
        × (room.new ≡ form_room bytes.now room.old) }
{
    if room.len() != 44 {
        return Err(Refusal::FormLength);
    }
    let loaded = form::load(bytes)?;
    layout::write(loaded, room);
    Ok(())
}
