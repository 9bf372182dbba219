// Writes and reads short forms at their edges, and prints what came out.
#![tactic(auto)]

use refusal::Refusal;
use state::{Base, Record};
use std::io::{self, Write};

// A piece that can't be written is told, and the program goes on.
fn shown(rt: &HostRuntime, written: io::Result<()>) {
    if written.is_err() {
        let _ = rt
            .stderr()
            .write_all(b"short_vectors: standard output can't be written\n");
    }
}

fn show(rt: &HostRuntime, text: &[u8]) {
    shown(rt, rt.stdout().write_all(text));
}

fn show_bytes(rt: &HostRuntime, bytes: &[u8]) {
    for b in bytes {
        show(rt, b" ");
        shown(rt, print!(rt; "{b:02x}"));
    }
    show(rt, b"\n");
}

// Whether a call was accepted, or the refusal's line.
fn show_verdict<T: Drop>(rt: &HostRuntime, verdict: &Result<T, Refusal>) {
    match verdict {
        Ok(_) => show(rt, b"accepted\n"),
        Err(refusal) => shown(rt, refusal_line::write(&mut rt.stdout(), *refusal)),
    }
}

// ---- writing

// A record goes to the room; the length is shown, and the room whole, with what stays behind the form.
fn write(rt: &HostRuntime, r: Record, room: &mut [u8]) {
    let packed = short_form::write(r, room);
    show_verdict(rt, &packed);
    show(rt, b"length ");
    shown(rt, print!(rt; "{}", packed.unwrap_or(0)));
    show(rt, b"\n");
    show_bytes(rt, room);
}

// Every register in five groups, SP in two, an offset in four: 49 bytes.
fn long_record() -> Record {
    let based = state::set_base(state::fresh_record(), Base::External(0xFF_FFFF));
    Record {
        regs: [0xFFFF_FFFF; 8],
        ..state::set_place(state::set_sp(based, 0x10000), 127)
    }
}

fn written(rt: &HostRuntime) {
    // 12 bytes, and one for which there is no room
    write(rt, state::fresh_record(), &mut [0xEEu8; 14]);
    write(rt, state::fresh_record(), &mut [0xEEu8; 12]);
    write(rt, state::fresh_record(), &mut [0xEEu8; 11]);
    // 49 bytes, and one for which there is no room
    write(rt, long_record(), &mut [0xEEu8; 50]);
    write(rt, long_record(), &mut [0xEEu8; 49]);
    write(rt, long_record(), &mut [0xEEu8; 48]);
    // a place out of range, before room that is too small
    write(
        rt,
        state::set_place(state::fresh_record(), 128),
        &mut [0xEEu8; 1],
    );
}

// ---- reading

// The record that is read is shown as the stored form that it has.
fn read(rt: &HostRuntime, bytes: &[u8]) {
    show_bytes(rt, bytes);
    let mut stored = [0u8; 44];
    let unpacked = packing::unpack(bytes, &mut stored);
    show_verdict(rt, &unpacked);
    if unpacked.is_ok() {
        show_bytes(rt, &stored);
    }
}

fn groups(rt: &HostRuntime) {
    // r0 of 128 and of 2^32 - 1
    read(rt, b"\x80\x01\x00\x00\x00\x00\x00\x00\x00\x00\x00\x00\x00");
    read(
        rt,
        b"\xFF\xFF\xFF\xFF\x0F\x00\x00\x00\x00\x00\x00\x00\x00\x00\x00\x00",
    );
    // of 2^32 and of 2^35 - 1, and six groups
    read(
        rt,
        b"\x80\x80\x80\x80\x10\x00\x00\x00\x00\x00\x00\x00\x00\x00\x00\x00",
    );
    read(
        rt,
        b"\xFF\xFF\xFF\xFF\x7F\x00\x00\x00\x00\x00\x00\x00\x00\x00\x00\x00",
    );
    read(
        rt,
        b"\x80\x80\x80\x80\x80\x01\x00\x00\x00\x00\x00\x00\x00\x00\x00\x00\x00",
    );
    // a zero group behind r0 and behind the flags
    read(rt, b"\x80\x00\x00\x00\x00\x00\x00\x00\x00\x00\x00\x00\x00");
    read(rt, b"\x00\x00\x00\x00\x00\x00\x00\x00\x00\x00\x00\x80\x00");
    // nothing, cut off between two numbers and within one, and followed
    read(rt, b"");
    read(rt, b"\x00\x00\x00\x00\x00\x00\x00\x00\x00\x00\x00");
    read(rt, b"\x00\x00\x00\x00\x00\x00\x00\x00\x00\x00\x00\x80");
    read(rt, b"\x00\x00\x00\x00\x00\x00\x00\x00\x00\x00\x00\x00\x00");
}

fn fields(rt: &HostRuntime) {
    // SP of 0x10000 and a word below
    read(rt, b"\x00\x00\x00\x00\x00\x00\x00\x00\x80\x40\x00\x00\x00");
    read(rt, b"\x00\x00\x00\x00\x00\x00\x00\x00\x81\x40\x00\x00\x00");
    // a RAM offset of 0; kinds 3 and 256 with an offset, and without one
    read(rt, b"\x00\x00\x00\x00\x00\x00\x00\x00\x00\x01\x00\x00\x00");
    read(rt, b"\x00\x00\x00\x00\x00\x00\x00\x00\x00\x03\x00\x00\x00");
    read(
        rt,
        b"\x00\x00\x00\x00\x00\x00\x00\x00\x00\x80\x02\x00\x00\x00",
    );
    read(rt, b"\x00\x00\x00\x00\x00\x00\x00\x00\x00\x03\x00\x00");
    // an offset of 2^20 in RAM, a place of 128, flags of 16
    read(
        rt,
        b"\x00\x00\x00\x00\x00\x00\x00\x00\x00\x01\x80\x80\x40\x00\x00",
    );
    read(rt, b"\x00\x00\x00\x00\x00\x00\x00\x00\x00\x00\x80\x01\x00");
    read(rt, b"\x00\x00\x00\x00\x00\x00\x00\x00\x00\x00\x00\x10");
    // a register past its field, but first a number that is padded
    read(
        rt,
        b"\x80\x80\x80\x80\x10\x00\x00\x00\x00\x00\x00\x00\x00\x00\x00\x80\x00",
    );
}

fn main(rt: HostRuntime) {
    let rt = &rt;
    written(rt);
    groups(rt);
    fields(rt);
}
