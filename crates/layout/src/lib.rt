// The 44 bytes of a record. A record is thirteen values, and a value goes to the bytes of its field.
#![tactic(auto)]

ghost use Rattle.std.specs.Prelude.{◌≡◌, ◌<◌, ◌^◌, eqb, length, get_or};
ghost use Rattle.bits.specs.Fields.{bit};
ghost use Rattle.endian.specs.LittleEndian.{width_of};
ghost use Rattle.refusal.specs.Refusals.{decision, decision_of};
ghost use Rattle.state.specs.Record.{kind_of, offset_of};
ghost use Rattle.layout.specs.StoredForm.{stored_form, encode, decode};
ghost use Rattle.layout.specs.StoredForm.{base_of, flags_number, flags_of, values_of, record_of};
ghost use Rattle.layout.specs.StoredForm.{record_in, room_with, offset_stands, stand_rules, held_rules};
ghost use Rattle.layout.specs.StoredForm.{width_at};

use arm::Flags;
use endian::Size;
use refusal::Refusal;
use state::{Base, Record};

// ---- values to bytes and back

// The size of a field.
fn size_of(i: usize) -> Size
    requires { i < 13 }
    ensures { width_of result ≡ width_at stored_form i }
{
    match i {
        9 | 12 => Size::Byte,
        11 => Size::Halfword,
        _ => Size::Word,
    }
}

// The width of a field; 0 past the last.
pub fn width_of(i: usize) -> u32
    ensures { result ≡ width_at stored_form i }
{
    if i < 13 {
        endian::width(size_of(i)) as u32
    } else {
        0
    }
}

// The values go to the room, one after the other.
fn write_values(values: [u32; 13], room: &mut [u8])
    requires { length room.old ≡ 44 }
    ensures { room.new ≡ encode stored_form values }
{
    let mut at: u32 = 0;
    for i in 0..13 {
        let size = size_of(i);
        endian::store(&mut *room, at, size, values[i]);
        at += endian::width(size) as u32;
    }
}

// The values that the bytes hold.
pub fn values_in(bytes: &[u8]) -> [u32; 13]
    ensures { result ≡ decode stored_form bytes.now }
{
    let mut values = [0u32; 13];
    let mut at: u32 = 0;
    for i in 0..13 {
        let size = size_of(i);
        values[i] = endian::load(bytes, at, size);
        at += endian::width(size) as u32;
    }
    values
}

// ---- a record to values and back

// 0 none, 1 RAM, 2 external: a number, as the stored form and the C interface have it.
pub fn kind_of(base: Base) -> u32
    ensures { result ≡ kind_of base }
{
    match base {
        Base::Nothing => 0,
        Base::Ram(_) => 1,
        Base::External(_) => 2,
    }
}

// Zero for none.
pub fn offset_of(base: Base) -> u32
    ensures { result ≡ offset_of base }
{
    match base {
        Base::Nothing => 0,
        Base::Ram(offset) | Base::External(offset) => offset,
    }
}

fn base_of(kind: u32, offset: u32) -> Base
    ensures { result ≡ base_of kind offset }
{
    match kind {
        0 => Base::Nothing,
        1 => Base::Ram(offset),
        _ => Base::External(offset),
    }
}

fn is_set(x: u32, n: u32) -> bool
    ensures { result ≡ bit x n }
{
    bits::field(x, n, 1) == 1
}

// 8N + 4Z + 2C + V. Each of these gives one value of the thirteen, so that no one conversion says them.
fn flags_number(f: Flags) -> u32
    ensures { result ≡ flags_number f }
{
    8 * u32::from(f.n) + 4 * u32::from(f.z) + 2 * u32::from(f.c) + u32::from(f.v)
}

fn flags_of(x: u32) -> Flags
    ensures { result ≡ flags_of x }
{
    Flags {
        n: is_set(x, 3),
        z: is_set(x, 2),
        c: is_set(x, 1),
        v: is_set(x, 0),
    }
}

pub fn values_of(r: Record) -> [u32; 13]
    ensures { result ≡ values_of r }
{
    let [r0, r1, r2, r3, r4, r5, r6, r7] = r.regs;
    let kind = kind_of(r.base);
    let offset = offset_of(r.base);
    let place = u32::from(r.place);
    let flags = flags_number(r.flags);
    [
        r0, r1, r2, r3, r4, r5, r6, r7, r.sp, kind, offset, place, flags,
    ]
}

// A place has two bytes.
fn record_of(values: [u32; 13]) -> Record
    requires { get_or values 11 0 < 256 ^ 2 }
    ensures { result ≡ record_of values }
{
    let [r0, r1, r2, r3, r4, r5, r6, r7, ..] = values;
    Record {
        regs: [r0, r1, r2, r3, r4, r5, r6, r7],
        sp: values[8],
        flags: flags_of(values[12]),
        place: values[11] as u16,
        base: base_of(values[9], values[10]),
    }
}

// ---- the bytes of a record

// The record goes to room of 44 bytes, and to no other; whether it does.
pub fn write(r: Record, room: &mut [u8]) -> bool
    ensures { (result ≡ eqb (length room.old) 44) × (room.new ≡ room_with r room.old) }
{
    if room.len() != 44 {
        return false;
    }
    write_values(values_of(r), room);
    true
}

// The record that the bytes hold.
pub fn record_in(bytes: &[u8]) -> Record
    ensures { result ≡ record_in bytes.now }
{
    record_of(values_in(bytes))
}

// The record whose bytes are those of the values; of a value that is past its field, the low bytes.
pub fn record_with(values: [u32; 13]) -> Record
    ensures { result ≡ record_in (encode stored_form values) }
{
    let mut bytes = [0u8; 44];
    write_values(values, &mut bytes);
    record_in(&bytes)
}

// ---- bytes that hold a record, fit or not

fn offset_stands(kind: u32, offset: u32) -> bool
    ensures { result ≡ offset_stands kind offset }
{
    match kind {
        0 => offset == 0,
        _ => true,
    }
}

// The values are some record's, or where the first field starts that is none's.
fn values_stand(values: [u32; 13]) -> Result<(), Refusal>
    ensures { decision_of result ≡ decision (stand_rules values) }
{
    if values[9] > 2 {
        return Err(Refusal::NoRecord(36));
    }
    if !offset_stands(values[9], values[10]) {
        return Err(Refusal::NoRecord(37));
    }
    if values[12] > 15 {
        return Err(Refusal::NoRecord(43));
    }
    Ok(())
}

// The bytes hold some record, or where they hold none.
pub fn holds_record(bytes: &[u8]) -> Result<(), Refusal>
    ensures { decision_of result ≡ decision (held_rules bytes.now) }
{
    if bytes.len() != 44 {
        return Err(Refusal::NoRecord(0));
    }
    values_stand(values_in(bytes))
}
