// From the 44-byte form of a record to the short one, and back.
#![tactic(auto)]

ghost use Rattle.std.specs.Prelude.{◌≡◌};
ghost use Rattle.refusal.specs.Refusals.{decision_of};
ghost use Rattle.short_form.specs.ShortStoring.{seen_packed};
ghost use Rattle.packing.specs.Packing.{pack, room_after_pack, unpack_decision, room_after_unpack};

use refusal::Refusal;

// The short form of a stored record goes to the start of the room; answers its length.
pub fn pack(stored: &[u8], room: &mut [u8]) -> Result<usize, Refusal>
    ensures { (seen_packed result ≡ pack stored.now room.old) × (room.new ≡ room_after_pack stored.now room.old) }
{
    let loaded = form::load(stored)?;
    short_form::write(loaded, room)
}

// The 44-byte form of a record in the short one goes to the room. As forming::formed but for the reader: a closure for it is no plainer.
pub fn unpack(packed: &[u8], room: &mut [u8]) -> Result<(), Refusal>
    ensures { (decision_of result ≡ unpack_decision packed.now room.old) × (room.new ≡ room_after_unpack packed.now room.old) }
{
    if room.len() != 44 {
        return Err(Refusal::FormLength);
    }
    let loaded = short_form::read(packed)?;
    layout::write(loaded, room);
    Ok(())
}
