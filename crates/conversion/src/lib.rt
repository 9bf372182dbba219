// What the two programs write for an input, the other form or the line of a refusal, as bytes in lent room.
#![tactic(auto)]

ghost use Rattle.std.specs.Prelude.{◌≡◌, length};
ghost use Rattle.refusal.specs.Refusals.{refusal_number, refusal_values};
ghost use Rattle.refusal_line.specs.RefusalLine.{refused_text};
ghost use Rattle.text.specs.Room.{written_of, placed};
ghost use Rattle.conversion.specs.Conversion.{packed, unpacked};

use refusal::Refusal;
use text::Text;

fn place_refusal(why: Refusal, room: &mut [u8]) -> Option<usize>
    ensures { (result ≡ written_of (refused_text (refusal_number why) (refusal_values why)) (length room.old))
        × (room.new ≡ placed (refused_text (refusal_number why) (refusal_values why)) room.old) }
{
    let mut line = [0u8; 64];
    let mut text = Text {
        buffer: &mut line,
        end: 0,
    };
    refusal_line::put(&mut text, why);
    text::place(text.bytes(), room)
}

// The short form of a stored record; answers its length, or None where the room is too small.
pub fn pack(stored: &[u8], room: &mut [u8]) -> Option<usize>
    ensures { (result ≡ written_of (packed stored.now) (length room.old))
        × (room.new ≡ placed (packed stored.now) room.old) }
{
    let mut short = [0u8; 49];
    match packing::pack(stored, &mut short) {
        Ok(length) => text::place(text::first(&short, length), room),
        Err(why) => place_refusal(why, room),
    }
}

// The stored form of a record in the short one; answers as `pack` does.
pub fn unpack(bytes: &[u8], room: &mut [u8]) -> Option<usize>
    ensures { (result ≡ written_of (unpacked bytes.now) (length room.old))
        × (room.new ≡ placed (unpacked bytes.now) room.old) }
{
    let mut stored = [0u8; 44];
    match packing::unpack(bytes, &mut stored) {
        Ok(()) => text::place(&stored, room),
        Err(why) => place_refusal(why, room),
    }
}
