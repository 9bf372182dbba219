// The line of a refusal, which every program prints the same way.
#![tactic(auto)]

ghost use Rattle.std.specs.Prelude.{OnOk};
ghost use Rattle.std.specs.Io.KnownBytes.{Appends};
ghost use Rattle.refusal.specs.Refusals.{refusal_number, refusal_values};
ghost use Rattle.text.specs.Text.{Grows};
ghost use Rattle.refusal_line.specs.RefusalLine.{refused_text};

use refusal::Refusal;
use std::io::{self, Write};
use text::Text;

// It goes behind the text.
pub fn put(text: &mut Text, refusal: Refusal)
    ensures { Grows text.old (refused_text (refusal_number refusal) (refusal_values refusal)) text.new }
{
    text.put(b"refused ");
    text.put_decimal(u8::from(refusal) as u32);
    if let Some(position) = refusal::carries(refusal) {
        text.push(b' ');
        text.put_decimal(position);
    }
    text.push(b'\n');
}

// It goes to a writer.
pub fn write<W: Write>(out: &mut W, refusal: Refusal) -> io::Result<()>
    ensures { OnOk result (Appends (W.contents out.old) (W.contents out.new) (refused_text (refusal_number refusal) (refusal_values refusal))) }
{
    let mut buffer = [0u8; 30];
    let mut text = Text {
        buffer: &mut buffer,
        end: 0,
    };
    put(&mut text, refusal);
    out.write_all(text.bytes())
}
