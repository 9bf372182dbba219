// Numbers in groups of seven bits, lowest group first, top bit set while more follow, always the shortest: unsigned LEB128.
#![tactic(auto)]

ghost use Rattle.std.specs.Prelude.{◌≡◌, ◌≤◌};
ghost use Rattle.text.specs.Text.{Grows};
ghost use Rattle.leb128.specs.Leb128.{leb128, number_in, read_number, seen_found};

use text::Text;

// Why no number stands at the start of some bytes. The three are told apart since the definition does.
#[derive(Clone, Copy)]
pub enum NoNumber {
    CutOff,
    TooManyGroups,
    NotShortest,
}

// Puts a number behind a text, which is in lent bytes from the start: a finished number may not be copied there, by a memcpy.
pub fn put(text: &mut Text, x: u32)
    ensures { Grows text.old (leb128 x) text.new }
{
    if x < 128 {
        text.push(x as u8);
        return;
    }
    text.push((x % 128 + 128) as u8);
    put(text, x / 128);
}

// A number of at most so many groups, with how many bytes it takes. Its value has seven bits a group, so five don't fill a u64.
fn read_groups(bytes: &[u8], most: u32) -> Result<(u64, usize), NoNumber>
    requires { most ≤ 5 }
    ensures { seen_found result ≡ number_in most bytes.now }
{
    if most == 0 {
        return Err(NoNumber::TooManyGroups);
    }
    let Some((b, others)) = bytes.split_first() else {
        return Err(NoNumber::CutOff);
    };
    let b = u64::from(*b);
    if b < 128 {
        return Ok((b, 1));
    }
    let (x, n) = read_groups(others, most - 1)?;
    if x == 0 {
        return Err(NoNumber::NotShortest);
    }
    Ok((b % 128 + 128 * x, n + 1))
}

// The number at the start of some bytes, with how many of them it takes.
pub fn read(bytes: &[u8]) -> Result<(u64, usize), NoNumber>
    ensures { seen_found result ≡ read_number bytes.now }
{
    read_groups(bytes, 5)
}
