// Addresses of places in an image, and whether a place there is fit.
#![tactic(auto)]

ghost use Rattle.std.specs.Prelude.{◌-◌, ◌≡◌};
ghost use Rattle.image.specs.Images.{seen_image};
ghost use Rattle.address.specs.Addresses.{address_of, page_of, place_of, in_image, fit_in, fit_address};

use image::Image;
use platform::Program;

pub fn address_of(page: u16, place: u16) -> u32
    ensures { result ≡ address_of page place }
{
    0x8000_0000 + 256 * (page as u32) + 2 * (place as u32)
}

// How far an address lies behind the first page's.
fn offset_of(address: u32) -> u32
    ensures { result ≡ address - 0x80000000 }
{
    if address < 0x8000_0000 {
        return 0;
    }
    address - 0x8000_0000
}

pub fn page_of(address: u32) -> u32
    ensures { result ≡ page_of address }
{
    offset_of(address) / 256
}

pub fn place_of(address: u32) -> u16
    ensures { result ≡ place_of address }
{
    (offset_of(address) % 256 / 2) as u16
}

// The image has a page p.
#[tactic(auto, unfolding(crate::specs::Addresses::in_image))]
pub fn in_image(image: &Image, p: u32) -> bool
    ensures { result ≡ in_image (seen_image image.now) p }
{
    image::fits(image.pages) && (p as usize) < image.pages.len() / 256
}

// A place of page p.
#[tactic(auto, unfolding(crate::specs::Addresses::fit_in))]
pub fn is_fit(image: &Image, p: u32, place: u16) -> bool
    ensures { result ≡ fit_in (seen_image image.now) p place }
{
    if !in_image(image, p) {
        return false;
    }
    let count = endian::byte(image.index, p as usize) as u32;
    let at = 256 * (p as usize);
    let program = Program {
        page: &image.pages[at..at + 256],
        platform: image.platform,
    };
    place::is_fit(&program, count, place)
}

#[tactic(auto, unfolding(crate::specs::Addresses::fit_address))]
pub fn is_fit_address(image: &Image, address: u32) -> bool
    ensures { result ≡ fit_address (seen_image image.now) address }
{
    if address < 0x8000_0000 {
        return false;
    }
    if address % 2 != 0 {
        return false;
    }
    is_fit(image, page_of(address), place_of(address))
}
