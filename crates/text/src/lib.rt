// Text as bytes: it is made in lent room, piece by piece; a program makes it in a buffer first, from where it goes to the room whole. No
// call asks anything of its caller.
#![tactic(auto)]

ghost use Rattle.std.specs.Prelude.{◌≡◌, [], ◌∷◌, ◌++◌, ◌<◌, length, take};
ghost use Rattle.text.specs.Digits.{digit, hex, decimal};
ghost use Rattle.text.specs.Room.{written_of, placed};
ghost use Rattle.text.specs.Words.{newline};

// The byte of a digit.
fn digit(d: u32) -> u8
    requires { d < 16 }
    ensures { result ≡ digit d }
{
    if d < 10 {
        b'0' + d as u8
    } else {
        b'A' + (d - 10) as u8
    }
}

// ---- a text that grows

// The first bytes of a buffer, up to an end. Each method puts a piece behind them. A byte for which there is no room is dropped, and
// the text ends where the buffer does.
#[derive(Drop)]
pub struct Text<'a> {
    pub buffer: &'a mut [u8],
    pub end: usize,
}

impl<'a> Text<'a> {
    ghost use Rattle.text.specs.Text.{Grows};

    fn put_nothing(&mut self)
        ensures { Grows self.old [] self.new }
    {
        self.end = self.end.min(self.buffer.len());
    }

    pub fn push(&mut self, b: u8)
        ensures { Grows self.old (b ∷ []) self.new }
    {
        self.put_nothing();
        if self.end < self.buffer.len() {
            self.buffer[self.end] = b;
            self.end += 1;
        }
    }

    pub fn put(&mut self, piece: &[u8])
        ensures { Grows self.old piece.now self.new }
    {
        self.put_nothing();
        for &b in piece {
            self.push(b);
        }
    }

    // The last hex digits of x.
    // Digits by hand: of a write! to a slice the library promises no bytes.
    pub fn put_hex(&mut self, digits: usize, x: u32)
        ensures { Grows self.old (hex digits x) self.new }
    {
        if digits == 0 {
            self.put_nothing();
            return;
        }
        self.put_hex(digits - 1, x / 16);
        self.push(digit(x % 16));
    }

    pub fn put_decimal(&mut self, x: u32)
        ensures { Grows self.old (decimal x) self.new }
    {
        if x >= 10 {
            self.put_decimal(x / 10);
        }
        self.push(digit(x % 10));
    }

    // A word and a number are a line.
    pub fn number_line(&mut self, word: &[u8], x: u32)
        ensures { Grows self.old (word.now ++ decimal x ++ newline) self.new }
    {
        self.put(word);
        self.put_decimal(x);
        self.push(b'\n');
    }

    // What it holds so far.
    pub fn bytes(&self) -> &[u8]
        ensures { result.now ≡ take self.now.end self.now.buffer.now }
    {
        first(self.buffer, self.end)
    }
}

// ---- lent room

// The first n bytes, or all where there are fewer.
pub fn first(bytes: &[u8], n: usize) -> &[u8]
    ensures { result.now ≡ take n bytes.now }
{
    &bytes[..n.min(bytes.len())]
}

// A text goes to the start of the room, or nothing does: how many bytes that were, or None where the room is too small.
pub fn place(text: &[u8], room: &mut [u8]) -> Option<usize>
    ensures { (result ≡ written_of text.now (length room.old))
        × (room.new ≡ placed text.now room.old) }
{
    if room.len() < text.len() {
        return None;
    }
    room[..text.len()].copy_from_slice(text);
    Some(text.len())
}
