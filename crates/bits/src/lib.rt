// Bit fields of words: taken by a shift and a mask, joined by a shift and an or, and read as integers.
#![tactic(auto)]

ghost use Rattle.std.specs.Prelude.{◌≡◌, suc, ◌/◌, ◌%◌, ◌^◌, ◌<◌};
ghost use Rattle.std.specs.Int.Signed.{mag};
ghost use Rattle.bits.specs.Fields.{concat};
ghost use Rattle.bits.specs.Integers.{SInt, low_word};

// The n bits of x from bit lo up.
pub fn field(x: u32, lo: u32, n: u32) -> u32
    ensures { result ≡ x / 2 ^ lo % 2 ^ n }
{
    if lo >= 32 {
        return 0;
    }
    if n >= 32 {
        return x >> lo;
    }
    (x >> lo) & ((1 << n) - 1)
}

// high:low, where low gives its last n bits. What passes bit 31 is lost.
pub fn joined(high: u32, low: u32, n: u32) -> u32
    ensures { result ≡ concat high low n }
{
    if n >= 32 {
        return low;
    }
    (high << n) | field(low, 0, n)
}

// The integer of a field whose top bit is bit top.
fn signed(x: u32, top: u32) -> i64
    requires { (top < 32) × (x < 2 ^ suc top) }
    ensures { result ≡ SInt (suc top) x }
{
    if field(x, top, 1) == 1 {
        (x as i64) - (2 << (top as i64))
    } else {
        x as i64
    }
}

// The last n bits of x, read in two's complement.
pub fn sign_extended(x: u32, n: u32) -> i64
    ensures { result ≡ SInt n (x % 2 ^ n) }
{
    if n == 0 {
        return 0;
    }
    if n > 32 {
        return x as i64;
    }
    signed(field(x, 0, n), n - 1)
}

// An integer between -2^32 and 2^32, modulo 2^32.
fn wrapped(z: i64) -> u32
    requires { mag z < 2 ^ 32 }
    ensures { result ≡ low_word z }
{
    if z < 0 {
        (z + 0x1_0000_0000) as u32
    } else {
        z as u32
    }
}

// The low 32 bits of an integer.
pub fn low_word(z: i64) -> u32
    ensures { result ≡ low_word z }
{
    wrapped(z % 0x1_0000_0000)
}
