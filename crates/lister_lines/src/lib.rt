// The lines that the lister prints for a page that is accepted. Each goes behind the text.
#![tactic(auto)]

ghost use Rattle.prefix.specs.LargestSuccessor.{reading_of};
ghost use Rattle.text.specs.Text.{Grows};
ghost use Rattle.lister_lines.specs.Lines.{head_text, bundle_text, inside_text, largest_text};

use prefix::LargestSuccessor;
use text::Text;

// How many bundles a page has, and its count.
pub fn head_line(text: &mut Text, bundles: u32, count: u32)
    ensures { Grows text.old (head_text bundles count) text.new }
{
    text.put(b"bundles ");
    text.put_decimal(bundles);
    text.put(b" count ");
    text.put_decimal(count);
    text.push(b'\n');
}

// Whether a bundle lies below the count.
#[tactic(auto, unfolding(crate::specs::Lines::inside_text))]
fn put_inside(text: &mut Text, inside: bool)
    ensures { Grows text.old (inside_text inside) text.new }
{
    if inside {
        text.put(b"ok");
    } else {
        text.put(b"out");
    }
}

// The largest successor.
#[tactic(auto, unfolding(crate::specs::Lines::largest_text))]
fn put_largest(text: &mut Text, largest: LargestSuccessor)
    ensures { Grows text.old (largest_text (reading_of largest)) text.new }
{
    match largest {
        LargestSuccessor::Bad => text.put(b"bad"),
        LargestSuccessor::Nothing => text.put(b"-"),
        LargestSuccessor::Largest(s) => text.put_decimal(s),
    }
}

// Bundle k: its halfwords, whether it lies below the count, and its largest successor.
pub fn bundle_line(
    text: &mut Text,
    k: u32,
    first: u16,
    second: u16,
    inside: bool,
    largest: LargestSuccessor,
)
    ensures { Grows text.old (bundle_text k first second inside (reading_of largest)) text.new }
{
    text.put_decimal(k);
    text.push(b' ');
    text.put_hex(4, first as u32);
    text.push(b' ');
    text.put_hex(4, second as u32);
    text.push(b' ');
    put_inside(text, inside);
    text.push(b' ');
    put_largest(text, largest);
    text.push(b'\n');
}
