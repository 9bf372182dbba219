// Runs the pages and edges of the build paper that are not starred, and the refusals, and prints what came out.
#![tactic(auto)]

use endian::Size;
use memory::Fault;
use platform::{Platform, Program};
use refusal::Refusal;
use state::{Base, Record};
use std::io::{self, Write};
use window::Window;

// A piece that can't be written is told, and the program goes on.
fn shown(rt: &HostRuntime, written: io::Result<()>) {
    if written.is_err() {
        let _ = rt
            .stderr()
            .write_all(b"vectors: standard output can't be written\n");
    }
}

fn show(rt: &HostRuntime, text: &[u8]) {
    shown(rt, rt.stdout().write_all(text));
}

fn show_number(rt: &HostRuntime, x: u64) {
    show(rt, b" ");
    shown(rt, print!(rt; "{x}"));
}

fn show_refusal(rt: &HostRuntime, refusal: Refusal) {
    shown(rt, refusal_line::write(&mut rt.stdout(), refusal));
}

fn show_verdict<T: Drop>(rt: &HostRuntime, verdict: Result<T, Refusal>) {
    if let Err(refusal) = verdict {
        show_refusal(rt, refusal);
    }
}

// ---- refusals

// The line of each, in the order of their numbers, with the positions that can be told, of registers the first and the last.
fn refusals(rt: &HostRuntime) {
    for refusal in [
        Refusal::PageLength,
        Refusal::RamLength,
        Refusal::ExternalLength,
        Refusal::UnfitPlace,
        Refusal::FormLength,
        Refusal::FormRange(0),
        Refusal::FormRange(28),
        Refusal::FormRange(32),
        Refusal::FormRange(36),
        Refusal::FormRange(37),
        Refusal::FormRange(41),
        Refusal::FormRange(43),
        Refusal::NoSuchBundle,
        Refusal::NotGrouped,
        Refusal::RoomTooSmall,
        Refusal::ImageLength,
        Refusal::NoSuchPage,
        Refusal::IndexLength,
        Refusal::UnknownProfile,
        Refusal::WindowBounds,
        Refusal::WrongIndex,
        Refusal::SpBounds,
        Refusal::SpAlignment,
        Refusal::RamOffset,
        Refusal::ExternalOffset,
        Refusal::NoRecord(0),
        Refusal::NoRecord(36),
        Refusal::NoRecord(37),
        Refusal::NoRecord(43),
    ] {
        show_refusal(rt, refusal);
    }
}

// ---- pages

fn list(rt: &HostRuntime, page: &[u8]) {
    let mut room = [0u8; 4096];
    let written = listing::list(page, &mut room).unwrap_or(0);
    show(rt, room.get(..written).unwrap_or(b""));
}

fn pages(rt: &HostRuntime) {
    // E7FE DE00
    list(rt, b"\xFE\xE7\x00\xDE");
    // BF00 DF01, 0002 0000
    list(rt, b"\x00\xBF\x01\xDF\x02\x00\x00\x00");
    // BF00 DF01, 0000 0000
    list(rt, b"\x00\xBF\x01\xDF\x00\x00\x00\x00");
    // BF00 DF02, 0001 0000
    list(rt, b"\x00\xBF\x02\xDF\x01\x00\x00\x00");
    // BF00 DF80
    list(rt, b"\x00\xBF\x80\xDF");
    // D001 in the second half of bundle 0
    list(rt, b"\x00\xBF\x01\xD0");
}

fn read(rt: &HostRuntime, page: &[u8], k: u32) {
    let platform = platform::default_platform();
    show_verdict(rt, bundle::read_bundle(&Program { page, platform }, k));
}

fn page_refusals(rt: &HostRuntime) {
    // a length that is no multiple of 4, and one past 256
    list(rt, b"\x00\xBF\x00");
    list(rt, &[0u8; 260]);
    // the same before a bundle that is not there, and such a bundle
    read(rt, b"\x00\xBF\x00", 1);
    read(rt, b"\x00\xBF\x00\xDF", 1);
}

// ---- syscalls that never return

// The count of a page, where the syscalls of a set never return.
fn count(rt: &HostRuntime, page: &[u8], never_return: u64) {
    let platform = Platform {
        never_return,
        profile: 0,
    };
    let counted = count::count(&Program { page, platform }).unwrap_or(0);
    show(rt, b"never return ");
    shown(rt, print!(rt; "{never_return:016x}"));
    show(rt, b" count");
    show_number(rt, counted as u64);
    show(rt, b"\n");
}

fn sets(rt: &HostRuntime) {
    // BF00 DF80, with its bit, without it and with every other
    count(rt, b"\x00\xBF\x80\xDF", 1);
    count(rt, b"\x00\xBF\x80\xDF", 0);
    count(rt, b"\x00\xBF\x80\xDF", 0xFFFF_FFFF_FFFF_FFFE);
    // BF00 DFBF
    count(rt, b"\x00\xBF\xBF\xDF", 0x8000_0000_0000_0000);
    count(rt, b"\x00\xBF\xBF\xDF", 0x7FFF_FFFF_FFFF_FFFF);
}

// ---- profiles

// The count of a page under a profile.
fn count_under(rt: &HostRuntime, page: &[u8], profile: u32) {
    let platform = Platform {
        never_return: 0,
        profile,
    };
    let counted = count::count(&Program { page, platform });
    show(rt, b"profile");
    show_number(rt, profile as u64);
    show(rt, b" count");
    show_number(rt, counted.unwrap_or(0) as u64);
    show(rt, b"\n");
    show_verdict(rt, counted);
}

// The full one and the small one.
fn count_twice(rt: &HostRuntime, page: &[u8]) {
    count_under(rt, page, 0);
    count_under(rt, page, 1);
}

fn profiles(rt: &HostRuntime) {
    // F240 0000, 2001 DF00
    count_twice(rt, b"\x40\xF2\x00\x00\x01\x20\x00\xDF");
    // B100 DF00, 2001 DF00 and B900 DF00, 2001 DF00
    count_twice(rt, b"\x00\xB1\x00\xDF\x01\x20\x00\xDF");
    count_twice(rt, b"\x00\xB9\x00\xDF\x01\x20\x00\xDF");
    // DF00 B900
    count_twice(rt, b"\x00\xDF\x00\xB9");
    // 2001 DF00
    count_twice(rt, b"\x01\x20\x00\xDF");
    // unknown ones, and one before a length
    count_under(rt, b"\x01\x20\x00\xDF", 2);
    count_under(rt, b"\x01\x20\x00\xDF", 0xFFFF_FFFF);
    count_under(rt, b"\x00\xBF\x00", 255);
}

// ---- base validation

fn validate(rt: &HostRuntime, v: u32, external: &[u8]) {
    let answer = state::validate(v, external);
    shown(rt, print!(rt; "{v:08x}"));
    match answer.unwrap_or(Base::Nothing) {
        Base::Nothing => show(rt, b" none\n"),
        Base::Ram(offset) => {
            show(rt, b" ram ");
            shown(rt, print!(rt; "{offset:05x}"));
            show(rt, b"\n");
        }
        Base::External(offset) => {
            show(rt, b" external ");
            shown(rt, print!(rt; "{offset:06x}"));
            show(rt, b"\n");
        }
    }
    show_verdict(rt, answer);
}

fn bases(rt: &HostRuntime) {
    let external = [0u8; 512];
    validate(rt, 0, &external);
    validate(rt, 0xFFFF, &external);
    validate(rt, 0x10000, &external);
    validate(rt, 0x17FFF, &external);
    validate(rt, 0x18000, &external);
    validate(rt, 0xFFFFF, &external);
    validate(rt, 0x110000, &external);
    validate(rt, 0x7FFF_FFFF, &external);
    validate(rt, 0x8000_0000, &external);
    validate(rt, 0x8000_01FF, &external);
    validate(rt, 0x8000_0200, &external);
    validate(rt, 0x8000_0201, &external);
    validate(rt, 0xFFFF_FFFF, &external);
    validate(rt, 0x8000_0000, b"");
    validate(rt, 0x10000, b"\x00");
}

// ---- stored forms

fn change(bytes: &mut [u8], position: usize, b: u8) {
    if let Some(old) = bytes.get_mut(position) {
        *old = b;
    }
}

// The fresh record's form with one byte changed, and its last one, the flags.
fn read_back(rt: &HostRuntime, position: usize, b: u8, last: u8) {
    let mut bytes = [0u8; 44];
    show_verdict(rt, form::store(state::fresh_record(), &mut bytes));
    change(&mut bytes, position, b);
    change(&mut bytes, 43, last);
    show(rt, b"byte");
    show_number(rt, position as u64);
    show(rt, b" ");
    shown(rt, print!(rt; "{b:02x}"));
    show(rt, b" flags ");
    shown(rt, print!(rt; "{last:02x}"));
    show(rt, b"\n");
    show_verdict(rt, form::load(&bytes));
}

fn store_record(rt: &HostRuntime, r: Record) {
    let mut room = [0u8; 44];
    show_verdict(rt, form::store(r, &mut room));
}

// SP in bounds and no multiple of 4, offsets and a place out of range, of which each record has one less.
fn not_stored(rt: &HostRuntime) {
    let placed = state::set_place(state::fresh_record(), 128);
    let in_ram = state::set_base(placed, Base::Ram(0x10_0000));
    let in_external = state::set_base(placed, Base::External(0x100_0000));
    store_record(rt, state::set_sp(in_ram, 0x10002));
    store_record(rt, in_ram);
    store_record(rt, state::set_sp(in_external, 0xFFFC));
    store_record(rt, in_external);
    store_record(rt, placed);
}

fn stored_forms(rt: &HostRuntime) {
    // r0; SP 0x18002, 0x18004 and 0x8000, the last with flags out of range too
    read_back(rt, 0, 255, 15);
    read_back(rt, 32, 2, 0);
    read_back(rt, 32, 4, 0);
    read_back(rt, 34, 0, 16);
    // an unknown kind, and an offset with none
    read_back(rt, 36, 3, 16);
    read_back(rt, 37, 1, 16);
    // a place of 127 and of 128, and flags
    read_back(rt, 41, 127, 15);
    read_back(rt, 41, 128, 16);
    read_back(rt, 41, 127, 16);
    // a room and a form that are not 44 bytes
    show_verdict(rt, form::store(state::fresh_record(), &mut [0u8; 43]));
    show_verdict(rt, form::load(&[0u8; 45]));
}

// ---- edges of memory

// A word and a number behind it.
fn show_word(rt: &HostRuntime, word: &[u8], x: u64) {
    show(rt, word);
    show_number(rt, x);
    show(rt, b"\n");
}

// What a load gave, or its fault.
fn show_loaded(rt: &HostRuntime, loaded: Result<u32, Fault>) {
    match loaded {
        Ok(x) => show_word(rt, b" value", x as u64),
        Err(fault) => show_word(rt, b" fault", u8::from(fault) as u64),
    }
}

// A word, a halfword or a byte is stored at a RAM offset.
fn store(rt: &HostRuntime, window: Window, ram: &mut [u8], size: Size, offset: u32) {
    show(rt, b"store");
    show_number(rt, endian::width(size) as u64);
    show_number(rt, offset as u64);
    match memory::store_by(Base::Ram(offset), window, ram, 0, size, 0x1234_5678) {
        Ok(()) => show(rt, b" done\n"),
        Err(fault) => show_loaded(rt, Err(fault)),
    }
}

// The same, loaded from RAM with an offset of imm12.
fn load(rt: &HostRuntime, window: Window, ram: &[u8], size: Size, offset: u32, imm12: u16) {
    show(rt, b"load");
    show_number(rt, endian::width(size) as u64);
    show_number(rt, offset as u64 + imm12 as u64);
    show_loaded(
        rt,
        memory::load_by(Base::Ram(offset), true, window, ram, b"", imm12, size),
    );
}

// An empty window, which nothing but an access to RAM looks at.
fn no_window() -> Window {
    Window { start: 0, end: 0 }
}

// From external data, by r8.
fn load_external(rt: &HostRuntime, external: &[u8], size: Size, offset: u32, imm12: u16) {
    show(rt, b"external");
    show_number(rt, endian::width(size) as u64);
    show_number(rt, offset as u64);
    show_number(rt, imm12 as u64);
    show_loaded(
        rt,
        memory::load_by(
            Base::External(offset),
            false,
            no_window(),
            b"",
            external,
            imm12,
            size,
        ),
    );
}

fn ram_edges(rt: &HostRuntime) {
    let mut ram = [0u8; 32768];
    let whole = window::whole_ram();
    store(rt, whole, &mut ram, Size::Word, 32764);
    store(rt, whole, &mut ram, Size::Word, 32765);
    store(rt, whole, &mut ram, Size::Halfword, 32766);
    store(rt, whole, &mut ram, Size::Halfword, 32767);
    store(rt, whole, &mut ram, Size::Byte, 32767);
    store(rt, whole, &mut ram, Size::Byte, 32768);
    load(rt, whole, &ram, Size::Word, 32760, 4);
    load(rt, whole, &ram, Size::Word, 32761, 4);
    load(rt, whole, &ram, Size::Halfword, 32762, 4);
    load(rt, whole, &ram, Size::Halfword, 32763, 4);
    load(rt, whole, &ram, Size::Byte, 32763, 4);
    load(rt, whole, &ram, Size::Byte, 32764, 4);
}

// Of a window from 5 to below 8.
fn window_edges(rt: &HostRuntime) {
    let mut ram = [0u8; 32768];
    let window = Window { start: 5, end: 8 };
    store(rt, window, &mut ram, Size::Byte, 4);
    store(rt, window, &mut ram, Size::Byte, 5);
    store(rt, window, &mut ram, Size::Byte, 7);
    store(rt, window, &mut ram, Size::Byte, 8);
    store(rt, window, &mut ram, Size::Halfword, 4);
    store(rt, window, &mut ram, Size::Halfword, 6);
    store(rt, window, &mut ram, Size::Halfword, 7);
    store(rt, window, &mut ram, Size::Word, 5);
    // past RAM is fault 2, before the window is looked at
    store(rt, window, &mut ram, Size::Word, 32765);
    load(rt, window, &ram, Size::Halfword, 4, 0);
    load(rt, window, &ram, Size::Halfword, 4, 1);
    load(rt, window, &ram, Size::Halfword, 4, 2);
    load(rt, window, &ram, Size::Halfword, 4, 3);
    load(rt, window, &ram, Size::Word, 4, 0);
    load(rt, window, &ram, Size::Byte, 32764, 4);
}

fn external_edges(rt: &HostRuntime) {
    let mut external = [0u8; 512];
    external[255] = 0x80;
    external[256] = 0x01;
    load_external(rt, &external, Size::Byte, 255, 0);
    load_external(rt, &external, Size::Byte, 255, 1);
    load_external(rt, &external, Size::Halfword, 254, 0);
    load_external(rt, &external, Size::Halfword, 255, 0);
    load_external(rt, &external, Size::Word, 252, 0);
    load_external(rt, &external, Size::Word, 253, 0);
    load_external(rt, &external, Size::Byte, 256, 0);
    show(rt, b"signed");
    show_loaded(rt, memory::signed(Size::Byte, Ok(0x80)));
    // an external base where RAM is needed, and none
    show(rt, b"by r9");
    show_loaded(
        rt,
        memory::load_by(
            Base::External(0),
            true,
            no_window(),
            b"",
            &external,
            0,
            Size::Byte,
        ),
    );
    show(rt, b"no base");
    show_loaded(
        rt,
        memory::load_by(
            Base::Nothing,
            false,
            no_window(),
            b"",
            &external,
            0,
            Size::Byte,
        ),
    );
}

fn main(rt: HostRuntime) {
    let rt = &rt;
    refusals(rt);
    pages(rt);
    page_refusals(rt);
    sets(rt);
    profiles(rt);
    bases(rt);
    stored_forms(rt);
    not_stored(rt);
    ram_edges(rt);
    window_edges(rt);
    external_edges(rt);
}
