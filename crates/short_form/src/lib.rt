// A record in the short stored form: the range of each number, refusals, and the room.
#![tactic(auto)]

ghost use Rattle.std.specs.Prelude.{◌≡◌, ℕ, ◌<◌, ◌≤◌, ◌^◌, [], ◌∷◌, length, get_or};
ghost use Rattle.refusal.specs.Refusals.{decision, decision_of};
ghost use Rattle.layout.specs.StoredForm.{stored_form, field_at};
ghost use Rattle.form.specs.Storing.{seen_read_back};
ghost use Rattle.short_layout.specs.ShortForm.{numbers_for, values_for, short_bytes, short_form};
ghost use Rattle.short_form.specs.ShortStoring.{room_rule, write_decision, pack_answer, room_packed, seen_packed};
ghost use Rattle.short_form.specs.ShortStoring.{number_fits, number_rules, read_record};

use refusal::Refusal;
use state::Record;

// ---- writing

// SP becomes the number of words up to 0x18000.
fn numbers_for(values: [u32; 13]) -> [u32; 13]
    requires { get_or values 8 0 ≤ 0x18000 }
    ensures { result ≡ numbers_for values }
{
    let mut numbers = values;
    numbers[8] = (0x18000 - values[8]) / 4;
    numbers
}

// The form is made beside the room first, for its length: it goes to the room whole or not at all, and is made anew there, since a
// copy of it is a memcpy. Thirteen numbers of five groups are 65 bytes.
fn put_form(numbers: [u32; 13], room: &mut [u8]) -> Result<usize, Refusal>
    ensures { (seen_packed result ≡ pack_answer (decision (room_rule (short_bytes numbers) (length room.old) ∷ [])) (short_bytes numbers))
        × (room.new ≡ room_packed (decision (room_rule (short_bytes numbers) (length room.old) ∷ [])) (short_bytes numbers) room.old) }
{
    let mut form = [0u8; 65];
    let length = short_layout::put_numbers(&mut form, numbers);
    if room.len() < length {
        return Err(Refusal::RoomTooSmall);
    }
    short_layout::put_numbers(room, numbers);
    Ok(length)
}

// Writes a record to the start of the room; answers the length of the form.
pub fn write(r: Record, room: &mut [u8]) -> Result<usize, Refusal>
    ensures { (seen_packed result ≡ pack_answer (write_decision r room.old) (short_form r))
        × (room.new ≡ room_packed (write_decision r room.old) (short_form r) room.old) }
{
    let values = layout::values_of(r);
    form::in_range(values)?;
    put_form(numbers_for(values), room)
}

// ---- reading

// As form::in_range, but SP is in words, and a number may be past its field.
fn number_fits(i: usize, kind: u64, n: u64) -> bool
    requires { i < 13 }
    ensures { result ≡ number_fits (field_at stored_form i) kind n }
{
    match i {
        8 => n <= 8192,
        9 => n <= 2,
        10 => form::offset_in_range(kind, n),
        11 => n <= 127,
        12 => n <= 15,
        _ => n < 0x1_0000_0000,
    }
}

// The numbers are in range, or where the first field starts that isn't.
fn numbers_fit(numbers: [u64; 13]) -> Result<(), Refusal>
    ensures { decision_of result ≡ decision (number_rules numbers) }
{
    let mut at: u32 = 0;
    for i in 0..13 {
        if !number_fits(i, numbers[9], numbers[i]) {
            return Err(Refusal::FormRange(at));
        }
        at += layout::width_of(i);
    }
    Ok(())
}

// The values of numbers in range; only SP differs.
fn values_for(numbers: [u64; 13]) -> [u32; 13]
    requires { ((k : ℕ) → get_or numbers k 0 < 2 ^ 32) × (get_or numbers 8 0 ≤ 8192) }
    ensures { result ≡ values_for numbers }
{
    let mut values = [0u32; 13];
    for i in 0..13 {
        values[i] = numbers[i] as u32;
    }
    values[8] = 0x18000 - 4 * values[8];
    values
}

// Reads a record. The groups of the whole form are looked at before the range of a number.
pub fn read(bytes: &[u8]) -> Result<Record, Refusal>
    ensures { seen_read_back result ≡ read_record bytes.now }
{
    let numbers = short_layout::numbers_in(bytes).ok_or(Refusal::NotGrouped)?;
    numbers_fit(numbers)?;
    Ok(layout::record_with(values_for(numbers)))
}

// The same by value: refused, it gives the fresh record.
pub fn read_or_fresh(bytes: &[u8]) -> Record
    ensures { result ≡ (read_record bytes.now).loaded }
{
    read(bytes).unwrap_or(state::fresh_record())
}
