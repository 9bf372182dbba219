// Standard input and standard output, or a reader and a writer in their place. Each read or write that fails is told on standard
// error, in words after the program's name.
// What the system gives or takes is open, so of it the promises are bounds: no more bytes than there is room for, or than a text
// has. Of a reader or a writer whose bytes are known they say which bytes. A call that a signal interrupts before it moves a byte
// counts as one that failed.
#![tactic(auto)]

ghost use Rattle.std.specs.Prelude.{ℕ, ◌≤◌, ◌<◌, ◌≡◌, List, length, take, IfSome};
ghost use Rattle.std.specs.Io.KnownBytes.{Appends, Consumes, IsAtEnd};
ghost use Rattle.text.specs.Room.{written_of, placed};
ghost use Rattle.streams.specs.Commands.{Answers};

use std::io::{Read, Write};

// Where this fails too, there is nobody left to tell.
fn tell(errors: &mut impl Write, program: &[u8], words: &[u8]) {
    let _ = errors.write_all(program);
    let _ = errors.write_all(words);
}

// Reads to the start of the room until it is full or the input ends: how many bytes that were, or None where a read failed.
// A loop: read_exact and read_to_end don't say what stands in the room where the input ends early.
pub fn read_input<R: Read, E: Write>(
    input: &mut R,
    errors: &mut E,
    program: &[u8],
    room: &mut [u8],
) -> Option<usize>
    ensures count { IfSome result (λ n. n ≤ length room.old) }
    ensures bytes { IfSome result (λ n. Consumes (R.remaining input.old) (R.remaining input.new) (take n room.new)) }
    ensures end { IfSome result (λ n. n < length room.old → IsAtEnd (R.remaining input.new)) }
{
    let mut done = 0;
    while done < room.len() {
        let part = &mut room[done..];
        let Ok(more) = input.read(part) else {
            tell(errors, program, b": standard input can't be read\n");
            return None;
        };
        if more == 0 {
            return Some(done);
        }
        done += more;
    }
    Some(done)
}

// Writes the text up to its end or to a write that fails, and answers how many bytes that were.
// A loop: write_all doesn't say how much was written before it failed.
pub fn write_output<W: Write, E: Write>(
    output: &mut W,
    errors: &mut E,
    program: &[u8],
    text: &[u8],
) -> usize
    ensures count { result ≤ length text.now }
    ensures bytes { Appends (W.contents output.old) (W.contents output.new) (take result text.now) }
{
    let mut done = 0;
    while done < text.len() {
        let part = &text[done..];
        let taken = output.write(part).unwrap_or(0);
        if taken == 0 {
            tell(errors, program, b": standard output can't be written\n");
            return done;
        }
        done += taken;
    }
    done
}

// One of the programs, by what it writes for an input: its text, at the start of lent room. (A program of the papers is another thing.)
pub trait Command {
    ghost text_of: { List ℕ → List ℕ };

    fn write(input: &[u8], room: &mut [u8]) -> Option<usize>
        ensures { (result ≡ written_of (text_of input.now) (length room.old))
            × (room.new ≡ placed (text_of input.now) room.old) };
}

// Reads an input, as much as there is place for, and writes the command's text for it, where the room is enough. How many bytes were
// written, or None where a read failed.
pub fn run<P: Command, R: Read, W: Write, E: Write>(
    input: &mut R,
    output: &mut W,
    errors: &mut E,
    name: &[u8],
    place: &mut [u8],
    room: &mut [u8],
) -> Option<usize>
    ensures { Answers P.text_of (length place.old) (R.remaining input.old) (R.remaining input.new) (W.contents output.old) (W.contents output.new) result }
{
    let n = read_input(input, errors, name, place)?;
    let written = P::write(&place[..n], room).unwrap_or(0);
    Some(write_output(output, errors, name, &room[..written]))
}
