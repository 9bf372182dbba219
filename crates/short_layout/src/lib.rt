// Thirteen numbers to the bytes of the short stored form and back. The offset is left out for base kind 0.
#![tactic(auto)]

ghost use Rattle.std.specs.Prelude.{◌≡◌, ◌<◌};
ghost use Rattle.layout.specs.StoredForm.{stored_form, field_at};
ghost use Rattle.text.specs.Text.{Puts, Grows};
ghost use Rattle.leb128.specs.Leb128.{seen_found};
ghost use Rattle.short_layout.specs.ShortForm.{is_there, field_bytes, short_bytes, field_in, numbers_in, held_by, seen_held};

use leb128::NoNumber;
use text::Text;

// ---- which fields are there

fn is_there(i: usize, kind: u64) -> bool
    requires { i < 13 }
    ensures { result ≡ is_there (field_at stored_form i).short kind }
{
    match i {
        10 => kind != 0,
        _ => true,
    }
}

// ---- numbers to bytes

#[tactic(auto, unfolding(crate::specs::ShortForm::field_bytes))]
fn put_field(text: &mut Text, i: usize, kind: u32, n: u32)
    requires { i < 13 }
    ensures { Grows text.old (field_bytes (field_at stored_form i).short kind n) text.new }
{
    if is_there(i, u64::from(kind)) {
        leb128::put(text, n);
        return;
    }
    text.put(b"");
}

// All of them, at the start of some bytes; answers where they then end.
pub fn put_numbers(bytes: &mut [u8], numbers: [u32; 13]) -> usize
    ensures { Puts bytes.old 0 (short_bytes numbers) result bytes.new }
{
    let kind = numbers[9];
    let mut text = Text {
        buffer: bytes,
        end: 0,
    };
    for i in 0..13 {
        put_field(&mut text, i, kind, numbers[i]);
    }
    text.end
}

// ---- bytes to numbers

#[tactic(auto, unfolding(crate::specs::ShortForm::field_in))]
fn field_in(bytes: &[u8], i: usize, kind: u64) -> Result<(u64, usize), NoNumber>
    requires { i < 13 }
    ensures { seen_found result ≡ field_in (field_at stored_form i).short kind bytes.now }
{
    if is_there(i, kind) {
        return leb128::read(bytes);
    }
    Ok((0, 0))
}

// The numbers that the bytes hold, or None where they aren't all there, in groups, with nothing behind them.
pub fn numbers_in(bytes: &[u8]) -> Option<[u64; 13]>
    ensures { seen_held result ≡ held_by (numbers_in bytes.now) }
{
    let mut numbers = [0u64; 13];
    let mut at = 0;
    for i in 0..13 {
        let (n, taken) = field_in(&bytes[at..], i, numbers[9]).ok()?;
        numbers[i] = n;
        at += taken;
    }
    if at == bytes.len() {
        return Some(numbers);
    }
    None
}
