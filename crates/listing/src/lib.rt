// The lister's whole output for a page, made as bytes in lent room.
#![tactic(auto)]

ghost use Rattle.std.specs.Prelude.{◌≡◌, true, ◌++◌, ◌<◌, length};
ghost use Rattle.page.specs.Page.{page_fits, bundles_in};
ghost use Rattle.platform.specs.Programs.{default_program, seen_program};
ghost use Rattle.count.specs.Count.{count_of};
ghost use Rattle.text.specs.Room.{written_of, placed};
ghost use Rattle.text.specs.Text.{Grows};
ghost use Rattle.lister_lines.specs.Lines.{head_text};
ghost use Rattle.listing.specs.Listing.{line_of, bundle_lines, listing_of};

use platform::Program;
use prefix::LargestSuccessor;
use text::Text;

// The lister goes by the full profile.
fn listed(page: &[u8]) -> Program
    ensures { seen_program result ≡ default_program page.now }
{
    Program {
        page,
        platform: platform::default_platform(),
    }
}

// Bundle k of a page that is accepted.
fn put_bundle(text: &mut Text, page: &[u8], k: u32, count: u32)
    requires { (page_fits page.now ≡ true) × (count ≡ count_of (default_program page.now)) × (k < bundles_in page.now) }
    ensures { Grows text.old (line_of page.now k) text.new }
{
    let h = page::halves_of(page, k);
    let largest = bundle::read_bundle(&listed(page), k).unwrap_or(LargestSuccessor::Bad);
    lister_lines::bundle_line(text, k, h.first, h.second, k < count, largest);
}

// All of them, behind the head.
fn put_page(text: &mut Text, page: &[u8], count: u32)
    requires { (page_fits page.now ≡ true) × (count ≡ count_of (default_program page.now)) }
    ensures { Grows text.old (head_text (bundles_in page.now) count
        ++ bundle_lines page.now 0 (bundles_in page.now)) text.new }
{
    let bundles = (page.len() / 4) as u32;
    lister_lines::head_line(text, bundles, count);
    for k in 0..bundles {
        put_bundle(text, page, k, count);
    }
}

fn put_listing(text: &mut Text, page: &[u8])
    ensures { Grows text.old (listing_of page.now) text.new }
{
    match count::count(&listed(page)) {
        Err(refusal) => refusal_line::put(text, refusal),
        Ok(count) => put_page(text, page, count),
    }
}

// The listing goes to the start of the room, or nothing does. A page has at most 64 bundles, so 65 lines, of at most 36 bytes.
pub fn list(page: &[u8], room: &mut [u8]) -> Option<usize>
    ensures { (result ≡ written_of (listing_of page.now) (length room.old))
        × (room.new ≡ placed (listing_of page.now) room.old) }
{
    let mut buffer = [0u8; 36 * 65];
    let mut text = Text {
        buffer: &mut buffer,
        end: 0,
    };
    put_listing(&mut text, page);
    text::place(text.bytes(), room)
}
