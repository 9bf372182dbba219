// Little-endian numbers of 1, 2 and 4 bytes anywhere in bytes. What is shared is proved once, over the size.
#![tactic(auto)]

ghost use Rattle.std.specs.Prelude.{◌≡◌, get_or, set};
ghost use Rattle.endian.specs.LittleEndian.{width_of, load_le, store_le};

#[derive(Clone, Copy)]
pub enum Size {
    Byte,
    Halfword,
    Word,
}

// How many bytes a size has.
pub fn width(size: Size) -> usize
    ensures { result ≡ width_of size }
{
    match size {
        Size::Byte => 1,
        Size::Halfword => 2,
        Size::Word => 4,
    }
}

// A byte; 0 past the end.
pub fn byte(bytes: &[u8], i: usize) -> u8
    ensures { result ≡ get_or bytes.now i 0 }
{
    if i < bytes.len() { bytes[i] } else { 0 }
}

// A byte is b; past the end nothing changes.
fn set_byte(bytes: &mut [u8], i: usize, b: u8)
    ensures { bytes.new ≡ set bytes.old i b }
{
    if i < bytes.len() {
        bytes[i] = b;
    }
}

// The number at a place, lowest byte first.
pub fn load(bytes: &[u8], at: u32, size: Size) -> u32
    ensures { result ≡ load_le (width_of size) bytes.now at }
{
    let at = at as usize;
    let mut x: u32 = 0;
    for i in (0..width(size)).rev() {
        let b = byte(bytes, at + i) as u32;
        x = x * 256 + b;
    }
    x
}

// The low bytes of a number go to a place, lowest first.
pub fn store(bytes: &mut [u8], at: u32, size: Size, x: u32)
    ensures { bytes.new ≡ store_le (width_of size) bytes.old at x }
{
    let at = at as usize;
    let mut rest = x;
    for i in 0..width(size) {
        set_byte(bytes, at + i, (rest % 256) as u8);
        rest = rest / 256;
    }
}
