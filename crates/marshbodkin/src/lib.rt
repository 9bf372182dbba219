// The calls that a host links, which marshbodkin_c exports, in C's way: one that can be refused answers 0 or a refusal's number, and
// the rest is given in lent numbers and bytes. A record crosses as its 44 bytes, fit or not. Bit n of `never_return` says that direct
// syscall n never returns; `profile` is 0, full, or 1, small; any other is refused. A window of RAM is its start and its end.
#![tactic(auto)]

ghost use Rattle.std.specs.Prelude.{◌≡◌, length};
ghost use Rattle.window.specs.Windows.{window_of};
ghost use Rattle.platform.specs.Platforms.{platform_of};
ghost use Rattle.platform.specs.Programs.{program_of, setting_of};
ghost use Rattle.state.specs.Record.{fresh_record};
ghost use Rattle.state.specs.Validation.{validate_base};
ghost use Rattle.count.specs.Count.{count_program};
ghost use Rattle.bundle.specs.Reader.{read_bundle};
ghost use Rattle.layout.specs.StoredForm.{room_with};
ghost use Rattle.forming.specs.Crossing.{fresh_decision, form_decision, form_room};
ghost use Rattle.packing.specs.Packing.{pack_decision, pack, room_after_pack, unpack_decision, room_after_unpack};
ghost use Rattle.image.specs.Images.{image_of};
ghost use Rattle.image.specs.Index.{build_decision, index_built, replace_decision, after_replace};
ghost use Rattle.image_runs.specs.ImageRuns.{image_setting_of};
ghost use Rattle.crossing.specs.Exits.{decoded_exit};
ghost use Rattle.crossing.specs.Numbers.{code_of, position_of, largest_kind, largest_number};
ghost use Rattle.hosting.specs.Crossed.{answered};
ghost use Rattle.hosting.specs.HostRuns.{host_run, host_image_run};
ghost use Rattle.marshbodkin.specs.Version.{library_version};

use image::Image;
use image_runs::ImageSetting;
use platform::{Platform, Program, Setting};
use prefix::LargestSuccessor;
use refusal::Refusal;
use state::Base;
use window::Window;

// ---- pages and bases

// The count of a program.
pub fn mb_raw_count(page: &[u8], never_return: u64, profile: u32, count: &mut u32) -> u32
    ensures { (result ≡ code_of (count_program (program_of page.now (platform_of never_return profile))).decision) × (count.new ≡ (count_program (program_of page.now (platform_of never_return profile))).count) }
{
    let platform = Platform {
        never_return,
        profile,
    };
    let counted = count::count(&Program { page, platform });
    *count = counted.unwrap_or(0);
    crossing::code_of(counted)
}

// Bundle k of a program: 0 bad, 1 no successor, 2 the largest successor.
pub fn mb_raw_read_bundle(
    page: &[u8],
    never_return: u64,
    profile: u32,
    k: u32,
    kind: &mut u32,
    largest: &mut u32,
) -> u32
    ensures { (result ≡ code_of (read_bundle (program_of page.now (platform_of never_return profile)) k).decision)
        × (kind.new ≡ largest_kind (read_bundle (program_of page.now (platform_of never_return profile)) k).reading)
        × (largest.new ≡ largest_number (read_bundle (program_of page.now (platform_of never_return profile)) k).reading) }
{
    let platform = Platform {
        never_return,
        profile,
    };
    let read = bundle::read_bundle(&Program { page, platform }, k);
    let successor = read.unwrap_or(LargestSuccessor::Bad);
    *kind = crossing::largest_kind(successor);
    *largest = crossing::largest_number(successor);
    crossing::code_of(read)
}

// The base of an address: 0 none, 1 RAM, 2 external, and the offset.
pub fn mb_raw_validate(v: u32, external: &[u8], kind: &mut u32, offset: &mut u32) -> u32
    ensures { (result ≡ code_of (validate_base v (length external.now)).decision)
        × (kind.new ≡ (validate_base v (length external.now)).kind)
        × (offset.new ≡ (validate_base v (length external.now)).offset) }
{
    let validated = state::validate(v, external);
    let base = validated.unwrap_or(Base::Nothing);
    *kind = layout::kind_of(base);
    *offset = layout::offset_of(base);
    crossing::code_of(validated)
}

// ---- records

// The fresh record.
pub fn mb_raw_fresh(bytes: &mut [u8]) -> u32
    ensures { (result ≡ code_of (fresh_decision bytes.old)) × (bytes.new ≡ room_with fresh_record bytes.old) }
{
    if layout::write(state::fresh_record(), bytes) {
        0
    } else {
        u32::from(u8::from(Refusal::FormLength))
    }
}

// Stores a record.
pub fn mb_raw_store(bytes: &[u8], room: &mut [u8], position: &mut u32) -> u32
    ensures { (result ≡ code_of (form_decision bytes.now room.old))
        × (position.new ≡ position_of (form_decision bytes.now room.old))
        × (room.new ≡ form_room bytes.now room.old) }
{
    let verdict = forming::formed(bytes, room);
    *position = crossing::position_of(verdict);
    crossing::code_of(verdict)
}

// Reads a record back. As storing, which C has under a name of its own.
pub fn mb_raw_load(stored: &[u8], bytes: &mut [u8], position: &mut u32) -> u32
    ensures { (result ≡ code_of (form_decision stored.now bytes.old))
        × (position.new ≡ position_of (form_decision stored.now bytes.old))
        × (bytes.new ≡ form_room stored.now bytes.old) }
{
    let verdict = forming::formed(stored, bytes);
    *position = crossing::position_of(verdict);
    crossing::code_of(verdict)
}

// ---- the short form

// The short form of a stored record goes to the start of the room.
pub fn mb_raw_pack(stored: &[u8], room: &mut [u8], length: &mut usize, position: &mut u32) -> u32
    ensures { (result ≡ code_of (pack_decision stored.now room.old))
        × (length.new ≡ (pack stored.now room.old).length)
        × (position.new ≡ position_of (pack_decision stored.now room.old))
        × (room.new ≡ room_after_pack stored.now room.old) }
{
    let packed = packing::pack(stored, room);
    *length = packed.unwrap_or(0);
    *position = crossing::position_of(packed);
    crossing::code_of(packed)
}

// The stored form of a record in the short one goes to the room.
pub fn mb_raw_unpack(packed: &[u8], room: &mut [u8], position: &mut u32) -> u32
    ensures { (result ≡ code_of (unpack_decision packed.now room.old))
        × (position.new ≡ position_of (unpack_decision packed.now room.old))
        × (room.new ≡ room_after_unpack packed.now room.old) }
{
    let verdict = packing::unpack(packed, room);
    *position = crossing::position_of(verdict);
    crossing::code_of(verdict)
}

// ---- steps and runs

// A run with a budget. The stop is a kind with a value, a literal and a position.
pub fn mb_raw_run(
    page: &[u8],
    never_return: u64,
    profile: u32,
    ram: &mut [u8],
    external: &[u8],
    window_start: u32,
    window_end: u32,
    bytes: &mut [u8],
    budget: u32,
    kind: &mut u32,
    value: &mut u32,
    literal: &mut u32,
    position: &mut u32,
    steps: &mut u32,
) -> u32
    ensures { answered result kind.new value.new literal.new position.new steps.new bytes.new ram.new
        ≡ host_run (setting_of (program_of page.now (platform_of never_return profile)) external.now (window_of window_start window_end)) budget bytes.old ram.old }
{
    let platform = Platform {
        never_return,
        profile,
    };
    let window = Window {
        start: window_start,
        end: window_end,
    };
    let setting = Setting {
        program: Program { page, platform },
        external,
        window,
    };
    let hosted = hosting::run(&setting, ram, bytes, budget);
    *steps = hosted.steps;
    crossing::tell(hosted.stop, kind, value, literal, position)
}

// A step is a run with budget 1.
pub fn mb_raw_step(
    page: &[u8],
    never_return: u64,
    profile: u32,
    ram: &mut [u8],
    external: &[u8],
    window_start: u32,
    window_end: u32,
    bytes: &mut [u8],
    kind: &mut u32,
    value: &mut u32,
    literal: &mut u32,
    position: &mut u32,
    steps: &mut u32,
) -> u32
    ensures { answered result kind.new value.new literal.new position.new steps.new bytes.new ram.new
        ≡ host_run (setting_of (program_of page.now (platform_of never_return profile)) external.now (window_of window_start window_end)) 1 bytes.old ram.old }
{
    mb_raw_run(
        page,
        never_return,
        profile,
        ram,
        external,
        window_start,
        window_end,
        bytes,
        1,
        kind,
        value,
        literal,
        position,
        steps,
    )
}

// ---- images

// Builds the index of an image.
pub fn mb_raw_image_build(image: &[u8], index: &mut [u8], never_return: u64, profile: u32) -> u32
    ensures { (result ≡ code_of (build_decision (image_of image.now index.old (platform_of never_return profile))))
        × (index.new ≡ index_built (image_of image.now index.old (platform_of never_return profile))) }
{
    let platform = Platform {
        never_return,
        profile,
    };
    let verdict = image::build(image, index, platform);
    crossing::code_of(verdict)
}

// Replaces a page of an image, and its byte of the index.
pub fn mb_raw_image_replace(
    image: &mut [u8],
    index: &mut [u8],
    never_return: u64,
    profile: u32,
    number: u32,
    page: &[u8],
) -> u32
    ensures { (result ≡ code_of (replace_decision (image_of image.old index.old (platform_of never_return profile)) number page.now))
        × (image_of image.new index.new (platform_of never_return profile)
        ≡ after_replace (image_of image.old index.old (platform_of never_return profile)) number page.now) }
{
    let platform = Platform {
        never_return,
        profile,
    };
    let verdict = image::replace(image, index, platform, number, page);
    crossing::code_of(verdict)
}

// A run in a page of an image.
pub fn mb_raw_image_run(
    image: &[u8],
    index: &[u8],
    never_return: u64,
    profile: u32,
    number: u32,
    ram: &mut [u8],
    external: &[u8],
    window_start: u32,
    window_end: u32,
    bytes: &mut [u8],
    budget: u32,
    kind: &mut u32,
    value: &mut u32,
    literal: &mut u32,
    position: &mut u32,
    steps: &mut u32,
) -> u32
    ensures { answered result kind.new value.new literal.new position.new steps.new bytes.new ram.new
        ≡ host_image_run (image_setting_of (image_of image.now index.now (platform_of never_return profile)) external.now (window_of window_start window_end)) number budget bytes.old ram.old }
{
    let platform = Platform {
        never_return,
        profile,
    };
    let window = Window {
        start: window_start,
        end: window_end,
    };
    let setting = ImageSetting {
        image: Image {
            pages: image,
            index,
            platform,
        },
        external,
        window,
    };
    let hosted = hosting::run_in_image(&setting, number, ram, bytes, budget);
    *steps = hosted.steps;
    crossing::tell(hosted.stop, kind, value, literal, position)
}

// A step is a run with budget 1.
pub fn mb_raw_image_step(
    image: &[u8],
    index: &[u8],
    never_return: u64,
    profile: u32,
    number: u32,
    ram: &mut [u8],
    external: &[u8],
    window_start: u32,
    window_end: u32,
    bytes: &mut [u8],
    kind: &mut u32,
    value: &mut u32,
    literal: &mut u32,
    position: &mut u32,
    steps: &mut u32,
) -> u32
    ensures { answered result kind.new value.new literal.new position.new steps.new bytes.new ram.new
        ≡ host_image_run (image_setting_of (image_of image.now index.now (platform_of never_return profile)) external.now (window_of window_start window_end)) number 1 bytes.old ram.old }
{
    let budget = 1;
    mb_raw_image_run(
        image,
        index,
        never_return,
        profile,
        number,
        ram,
        external,
        window_start,
        window_end,
        bytes,
        budget,
        kind,
        value,
        literal,
        position,
        steps,
    )
}

// ---- what a stop asks

// The exit of a low byte with its literal: what a stop at a service asks of the host.
pub fn mb_raw_exit(
    low: u32,
    literal: u32,
    kind: &mut u32,
    number: &mut u32,
    immediate: &mut u32,
    address: &mut u32,
    words: &mut u32,
)
    ensures { record { kind = kind.new; number = number.new; immediate = immediate.new; address = address.new; words = words.new }
        ≡ decoded_exit low literal }
{
    let exit = crossing::decoded_exit(low, literal);
    *kind = exit.kind;
    *number = exit.number;
    *immediate = exit.immediate;
    *address = exit.address;
    *words = exit.words;
}

// ---- the library itself

const MAJOR: u32 = 0;

const MINOR: u32 = 8;

const PATCH: u32 = 0;

pub fn mb_raw_version() -> u32
    ensures { result ≡ library_version }
{
    65536 * MAJOR + 256 * MINOR + PATCH
}
