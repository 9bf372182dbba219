// Images: pages of 256 bytes, one behind the other, and beside them an index, a byte for each page: the page's count.
#![tactic(auto)]

ghost use Rattle.std.specs.Prelude.{◌+◌, ◌*◌, ◌<◌, ◌≤◌, [], ◌∷◌, ◌≡◌, length};
ghost use Rattle.std.proofs.Math.Seq.{paste};
ghost use Rattle.refusal.specs.Refusals.{decision, decision_of};
ghost use Rattle.isa.specs.Profiles.{profile_of};
ghost use Rattle.platform.specs.Programs.{program_of, seen_program, profile_rule};
ghost use Rattle.count.specs.Count.{count_program};
ghost use Rattle.image.specs.Images.{image_of, seen_image, image_fits, pages_in, page_at, image_rule, number_rule, index_length_rule, page_rules, whole_page_rule};
ghost use Rattle.image.specs.Index.{counts_in, equal_lists, build_decision, index_built, replace_decision, after_replace};

use platform::{Platform, Program};
use refusal::Refusal;

// An image whose pages and index are only read, and the platform that its counts go by.
#[derive(Clone, Copy)]
pub struct Image<'a> {
    pub pages: &'a [u8],
    pub index: &'a [u8],
    pub platform: Platform,
}

// ---- what is refused

// 1 to 4,096 pages.
#[tactic(auto, unfolding(crate::specs::Images::image_fits))]
pub fn fits(image: &[u8]) -> bool
    ensures { result ≡ image_fits image.now }
{
    if image.len() < 256 {
        return false;
    }
    if image.len() > 1048576 {
        return false;
    }
    image.len() % 256 == 0
}

fn of_image(pages: &[u8], platform: Platform) -> Result<(), Refusal>
    ensures { decision_of result ≡ decision (profile_rule (profile_of platform.profile) ∷ image_rule pages.now ∷ []) }
{
    if !platform::is_known(platform) {
        return Err(Refusal::UnknownProfile);
    }
    if !fits(pages) {
        return Err(Refusal::ImageLength);
    }
    Ok(())
}

fn of_number(pages: &[u8], number: u32) -> Result<(), Refusal>
    ensures { decision_of result ≡ decision (number_rule pages.now number ∷ []) }
{
    if (number as usize) >= pages.len() / 256 {
        return Err(Refusal::NoSuchPage);
    }
    Ok(())
}

fn of_index_length(pages: &[u8], index: &[u8]) -> Result<(), Refusal>
    ensures { decision_of result ≡ decision (index_length_rule pages.now index.now ∷ []) }
{
    if index.len() != pages.len() / 256 {
        return Err(Refusal::IndexLength);
    }
    Ok(())
}

fn of_build(image: &Image) -> Result<(), Refusal>
    ensures { decision_of result ≡ build_decision (seen_image image.now) }
{
    of_image(image.pages, image.platform)?;
    of_index_length(image.pages, image.index)
}

// There is an image, a page of this number, and an index.
pub fn of_page(image: &Image, number: u32) -> Result<(), Refusal>
    ensures { decision_of result ≡ decision (page_rules (seen_image image.now) number) }
{
    of_image(image.pages, image.platform)?;
    of_number(image.pages, number)?;
    of_index_length(image.pages, image.index)
}

// A page that is to be put into an image.
fn of_whole_page(page: &[u8]) -> Result<(), Refusal>
    ensures { decision_of result ≡ decision (whole_page_rule page.now ∷ []) }
{
    if page.len() != 256 {
        return Err(Refusal::PageLength);
    }
    Ok(())
}

// ---- the counts

// A count, as a byte of the index has it; 0 where it is refused.
fn count_of(program: &Program) -> u8
    ensures { result ≡ (count_program (seen_program program.now)).count }
{
    count::count(program).unwrap_or(0) as u8
}

// Of page p.
fn count_at(pages: &[u8], platform: Platform, p: usize) -> u8
    requires { p < pages_in pages.now }
    ensures { result ≡ (count_program (program_of (page_at pages.now p) platform)).count }
{
    let at = 256 * p;
    let page = &pages[at..at + 256];
    count_of(&Program { page, platform })
}

// Every byte of the index is its page's count.
pub fn holds_counts(image: &Image) -> bool
    ensures { result ≡ equal_lists image.now.index.now (counts_in (seen_image image.now)) }
{
    if image.index.len() != image.pages.len() / 256 {
        return false;
    }
    for p in 0..image.index.len() {
        if image.index[p] != count_at(image.pages, image.platform, p) {
            return false;
        }
    }
    true
}

fn fill(pages: &[u8], index: &mut [u8], platform: Platform)
    requires { length index.old ≡ pages_in pages.now }
    ensures { index.new ≡ counts_in (image_of pages.now index.old platform) }
{
    for p in 0..index.len() {
        index[p] = count_at(pages, platform, p);
    }
}

// Builds the index of an image. Image and index stand apart here and below: what is lent to be written is in no Image.
pub fn build(image: &[u8], index: &mut [u8], platform: Platform) -> Result<(), Refusal>
    ensures { (decision_of result ≡ build_decision (image_of image.now index.old platform))
        × (index.new ≡ index_built (image_of image.now index.old platform)) }
{
    of_build(&Image {
        pages: image,
        index: &index[..],
        platform,
    })?;
    fill(image, index, platform);
    Ok(())
}

// ---- one page

fn put_page(image: &mut [u8], at: usize, page: &[u8])
    requires { (length page.now ≡ 256) × (at + 256 ≤ length image.old) }
    ensures { image.new ≡ paste image.old at page.now 256 }
{
    // byte by byte: the library calls no memcpy
    for i in 0..256 {
        image[at + i] = page[i];
    }
}

fn of_replace(image: &Image, number: u32, page: &[u8]) -> Result<(), Refusal>
    ensures { decision_of result ≡ replace_decision (seen_image image.now) number page.now }
{
    of_page(image, number)?;
    of_whole_page(page)
}

// Replaces a page of an image, and its byte of the index.
pub fn replace(
    image: &mut [u8],
    index: &mut [u8],
    platform: Platform,
    number: u32,
    page: &[u8],
) -> Result<(), Refusal>
    ensures { (decision_of result ≡ replace_decision (image_of image.old index.old platform) number page.now)
        × (image_of image.new index.new platform ≡ after_replace (image_of image.old index.old platform) number page.now) }
{
    let before = Image {
        pages: &image[..],
        index: &index[..],
        platform,
    };
    of_replace(&before, number, page)?;
    let p = number as usize;
    index[p] = count_of(&Program { page, platform });
    put_page(image, 256 * p, page);
    Ok(())
}
