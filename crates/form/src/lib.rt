// Storing a record and reading it back: 44 bytes, and the range of each value.
#![tactic(auto)]

ghost use Rattle.std.specs.Prelude.{◌≡◌};
ghost use Rattle.layout.specs.StoredForm.{offset_in_range, range_rules};
ghost use Rattle.refusal.specs.Refusals.{decision, decision_of};
ghost use Rattle.form.specs.Storing.{store_decision, room_after, load_record, seen_read_back};

use refusal::Refusal;
use state::Record;

// ---- the range

// An offset of a record, or one that was read and may be larger.
pub fn offset_in_range(kind: u64, offset: u64) -> bool
    ensures { result ≡ offset_in_range kind offset }
{
    match kind {
        0 => offset == 0,
        1 => offset < 0x10_0000,
        2 => offset < 0x100_0000,
        _ => false,
    }
}

// The values are in range, or where the first field starts that isn't. r0 to r7 have no test.
pub fn in_range(values: [u32; 13]) -> Result<(), Refusal>
    ensures { decision_of result ≡ decision (range_rules values) }
{
    if !state::sp_fits(values[8]) {
        return Err(Refusal::FormRange(32));
    }
    if values[9] > 2 {
        return Err(Refusal::FormRange(36));
    }
    if !offset_in_range(u64::from(values[9]), u64::from(values[10])) {
        return Err(Refusal::FormRange(37));
    }
    if values[11] > 127 {
        return Err(Refusal::FormRange(41));
    }
    if values[12] > 15 {
        return Err(Refusal::FormRange(43));
    }
    Ok(())
}

// ---- storing and reading back

// Writes a record to room of 44 bytes.
pub fn store(r: Record, room: &mut [u8]) -> Result<(), Refusal>
    ensures { (decision_of result ≡ store_decision r room.old) × (room.new ≡ room_after r room.old) }
{
    if room.len() != 44 {
        return Err(Refusal::FormLength);
    }
    in_range(layout::values_of(r))?;
    layout::write(r, room);
    Ok(())
}

// Reads a record back.
pub fn load(bytes: &[u8]) -> Result<Record, Refusal>
    ensures { seen_read_back result ≡ load_record bytes.now }
{
    if bytes.len() != 44 {
        return Err(Refusal::FormLength);
    }
    in_range(layout::values_in(bytes))?;
    Ok(layout::record_in(bytes))
}

// Reading back as the build paper has it, by value: refused, it gives the fresh record.
pub fn load_or_fresh(bytes: &[u8]) -> Record
    ensures { result ≡ (load_record bytes.now).loaded }
{
    load(bytes).unwrap_or(state::fresh_record())
}
