// The bytes of a page, as bytes, halfwords and words.
#![tactic(auto)]

ghost use Rattle.std.specs.Prelude.{◌≡◌, ◌+◌, ◌*◌};
ghost use Rattle.page.specs.Page.{first_of, second_of, word_at, page_fits};

// The two halfwords of a bundle.
#[derive(Clone, Copy)]
pub struct Halves {
    pub first: u16,
    pub second: u16,
}

// A page has an allowed length. Each such rule has numbers of its own: one function of them all would say none.
#[tactic(auto, unfolding(crate::specs::Page::page_fits))]
pub fn fits(page: &[u8]) -> bool
    ensures { result ≡ page_fits page.now }
{
    if page.len() > 256 {
        return false;
    }
    page.len() % 4 == 0
}

// Lowest byte first.
fn halfword(low: u8, high: u8) -> u16
    ensures { result ≡ low + 256 * high }
{
    low as u16 + 256 * (high as u16)
}

// The halfwords of bundle k. A bundle that lies in the page is read with one test for its four bytes.
#[tactic(auto, unfolding(crate::specs::Page::halfword_at))]
pub fn halves_of(page: &[u8], k: u32) -> Halves
    ensures { result ≡ record { first = first_of page.now k; second = second_of page.now k } }
{
    let i = 4 * (k as usize);
    if (k as usize) < page.len() / 4 {
        return Halves {
            first: halfword(page[i], page[i + 1]),
            second: halfword(page[i + 2], page[i + 3]),
        };
    }
    Halves {
        first: halfword(endian::byte(page, i), endian::byte(page, i + 1)),
        second: halfword(endian::byte(page, i + 2), endian::byte(page, i + 3)),
    }
}

// The word of bundle k.
#[tactic(auto, unfolding(crate::specs::Page::word_at))]
pub fn word(page: &[u8], k: u32) -> u32
    ensures { result ≡ word_at page.now k }
{
    let h = halves_of(page, k);
    h.first as u32 + 65536 * (h.second as u32)
}
