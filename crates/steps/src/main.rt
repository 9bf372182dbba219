// Runs the build paper's cases and prints the runner's lines of each. A case of one call is a line of standard input, in hex:
//
//     00000000 00000000 18000 0000 0 000186A0 2001 DF00, E7FE BF00
//
// r0 is at column 0, r1 at 9, SP at 18, the place at 24, C and V together at 29, the budget at 31, and from 40 on stands the page
// as the paper writes it. The record is fresh otherwise. A line that begins with # is a heading. All are printed as they are.
#![tactic(auto)]

ghost use Rattle.std.specs.Prelude.{◌≤◌, length};

use arm::Flags;
use endian::Size;
use machine::Answer;
use platform::{Platform, Program, Setting};
use state::{Base, Record};
use window::Window;

// ---- the fields of a line

// 0 where there is none.
fn digit(text: &[u8], i: usize) -> u32 {
    let c = endian::byte(text, i);
    if c >= b'A' {
        return (c - b'A') as u32 + 10;
    }
    if c >= b'0' { (c - b'0') as u32 } else { 0 }
}

// Of four digits.
fn halfword(text: &[u8], i: usize) -> u32
    requires { i ≤ 1000 }
{
    let high = bits::joined(digit(text, i), digit(text, i + 1), 4);
    let low = bits::joined(digit(text, i + 2), digit(text, i + 3), 4);
    bits::joined(high, low, 8)
}

// Of eight digits.
fn word(text: &[u8], i: usize) -> u32
    requires { i ≤ 100 }
{
    bits::joined(halfword(text, i), halfword(text, i + 4), 16)
}

fn record_of(line: &[u8]) -> Record {
    let r = state::set_register(state::fresh_record(), 0, word(line, 0));
    let r = state::set_register(r, 1, word(line, 9));
    let sp = bits::joined(digit(line, 18), halfword(line, 19), 16);
    let place = (halfword(line, 24) % 0x10000) as u16;
    let both = digit(line, 29) == 1;
    let flags = Flags {
        n: false,
        z: false,
        c: both,
        v: both,
    };
    state::set_place(state::set_sp(state::set_flags(r, flags), sp), place)
}

fn budget_of(line: &[u8]) -> u32 {
    word(line, 31)
}

// The bundles, of 11 columns each, go to a page. How many bytes they are.
fn assemble(line: &[u8], page: &mut [u8; 256]) -> usize
    ensures { result ≤ 256 }
{
    for k in 0..64 {
        let i = 40 + 11 * k as usize;
        if i >= line.len() {
            return 4 * k as usize;
        }
        let bundle = bits::joined(halfword(line, i + 5), halfword(line, i), 16);
        endian::store(page, 4 * k, Size::Word, bundle);
    }
    256
}

// ---- calls

// What can't be written is told, and the cases go on.
fn show(rt: &HostRuntime, text: &[u8]) {
    streams::write_output(&mut rt.stdout(), &mut rt.stderr(), b"steps", text);
}

fn show_line(rt: &HostRuntime, text: &[u8]) {
    show(rt, text);
    show(rt, b"\n");
}

// It answers the record afterwards, and so do run and step.
fn show_answer(rt: &HostRuntime, answer: Answer) -> Record {
    let mut room = [0u8; 512];
    let written = transcript::write(answer.stop, answer.steps, answer.after, &mut room).unwrap_or(
        0,
    );
    show(rt, room.get(..written).unwrap_or(b""));
    answer.after
}

// No page yet, the full profile, no syscall that never returns, no external data, and all of RAM as its window.
fn plain() -> Setting<'static> {
    Setting {
        program: Program {
            page: b"",
            platform: platform::default_platform(),
        },
        external: b"",
        window: window::whole_ram(),
    }
}

// A setting with another page.
fn with_page<'a>(page: &'a [u8], setting: Setting<'a>) -> Setting<'a> {
    let program = Program {
        page,
        platform: setting.program.platform,
    };
    Setting {
        program,
        external: setting.external,
        window: setting.window,
    }
}

// By a line's page, and all else of the setting. Record and budget need not be the line's, so that a later call can go on.
fn run(
    rt: &HostRuntime,
    line: &[u8],
    setting: Setting,
    ram: &mut [u8],
    r: Record,
    budget: u32,
) -> Record {
    let mut page = [0u8; 256];
    let n = assemble(line, &mut page);
    let setting = with_page(&page[..n], setting);
    show_answer(rt, machine::run(&setting, ram, r, budget))
}

// A step by a line's page.
fn step(rt: &HostRuntime, line: &[u8], ram: &mut [u8], r: Record) -> Record {
    let mut page = [0u8; 256];
    let n = assemble(line, &mut page);
    let setting = with_page(&page[..n], plain());
    show_answer(rt, machine::step(&setting, ram, r))
}

// ---- cases of one call

// The RAM has zero bytes, and the external data two pages: 0x80 is at the end of the first, 1 at the start of the second.
fn run_alone(rt: &HostRuntime, line: &[u8], r: Record) {
    let mut ram = [0u8; 32768];
    let mut external = [0u8; 512];
    external[255] = 0x80;
    external[256] = 0x01;
    let setting = Setting {
        external: &external,
        ..plain()
    };
    run(rt, line, setting, &mut ram, r, budget_of(line));
}

fn run_line(rt: &HostRuntime, line: &[u8]) {
    show_line(rt, line);
    if endian::byte(line, 0) == b'#' {
        return;
    }
    run_alone(rt, line, record_of(line));
}

fn run_lines(rt: &HostRuntime, input: &[u8]) {
    for line in input.split_inclusive(|&b| b == b'\n') {
        run_line(rt, line.strip_suffix(b"\n").unwrap_or(line));
    }
}

// ---- refusals of what a line does not say

// By the lengths of page, RAM and external data. The page starts as 2001 DF00, and all else is 0.
fn run_lengths(
    rt: &HostRuntime,
    setting: Setting,
    r: Record,
    page: usize,
    ram: usize,
    external: usize,
)
    requires { (page ≤ 260) × (ram ≤ 32769) × (external ≤ 257) }
{
    let mut page_bytes = [0u8; 260];
    page_bytes[0] = 0x01;
    page_bytes[1] = 0x20;
    page_bytes[3] = 0xDF;
    let mut ram_bytes = [0u8; 32769];
    let external_bytes = [0u8; 257];
    let program = Program {
        page: &page_bytes[..page],
        ..setting.program
    };
    let setting = Setting {
        program,
        external: &external_bytes[..external],
        ..setting
    };
    show_answer(rt, machine::run(&setting, &mut ram_bytes[..ram], r, 9));
}

// Record and place are not fit either, and each call has one thing less that is refused.
fn refusal_order(rt: &HostRuntime) {
    show_line(rt, b"# order: 18, 1, 2, 3, 20 before the rest");
    let unfit = state::set_place(state::set_sp(state::fresh_record(), 0xFFFE), 2);
    let backward = Setting {
        window: Window { start: 5, end: 4 },
        ..plain()
    };
    let unknown = Setting {
        program: on(0, 2),
        ..backward
    };
    run_lengths(rt, unknown, unfit, 2, 32767, 1);
    run_lengths(rt, backward, unfit, 2, 32767, 1);
    run_lengths(rt, backward, unfit, 4, 32767, 1);
    run_lengths(rt, backward, unfit, 4, 32768, 1);
    run_lengths(rt, backward, unfit, 4, 32768, 0);
}

// A page of one bundle and areas of full length.
fn run_record(rt: &HostRuntime, r: Record) {
    run_lengths(rt, plain(), r, 4, 32768, 256);
}

// SP, base and place are not fit; from one call to the next one thing less, first with a RAM offset, then with an external one.
fn refused_records(rt: &HostRuntime) {
    show_line(rt, b"# order: 41, 42, then 43 or 44, then 5");
    let placed = state::set_place(state::fresh_record(), 2);
    let in_ram = state::set_base(placed, Base::Ram(0x10_0000));
    let in_external = state::set_base(placed, Base::External(256));
    run_record(rt, state::set_sp(in_ram, 0xFFFE));
    run_record(rt, state::set_sp(in_ram, 0x17FFE));
    run_record(rt, in_ram);
    run_record(rt, state::set_sp(in_external, 0x18002));
    run_record(rt, state::set_sp(in_external, 0x10002));
    run_record(rt, in_external);
    run_record(rt, placed);
}

// Each alone.
fn refused_lengths(rt: &HostRuntime) {
    show_line(
        rt,
        b"# lengths: 3 and 260 of a page, 32,767 and 32,769 of RAM, 255 and 257 of external data",
    );
    let fresh = state::fresh_record();
    let whole = plain();
    run_lengths(rt, whole, fresh, 3, 32768, 0);
    run_lengths(rt, whole, fresh, 260, 32768, 0);
    run_lengths(rt, whole, fresh, 4, 32767, 0);
    run_lengths(rt, whole, fresh, 4, 32769, 0);
    run_lengths(rt, whole, fresh, 4, 32768, 255);
    run_lengths(rt, whole, fresh, 4, 32768, 257);
}

fn run_base(rt: &HostRuntime, base: Base) {
    let line = b"00000000 00000000 18000 0000 0 000186A0 2001 DF00";
    run_alone(rt, line, state::set_base(state::fresh_record(), base));
}

fn bases(rt: &HostRuntime) {
    show_line(
        rt,
        b"# bases: RAM offsets 0xFFFFF and 0x100000, external offsets 511 and 512",
    );
    // a RAM offset is below 2^20
    run_base(rt, Base::Ram(0xF_FFFF));
    run_base(rt, Base::Ram(0x10_0000));
    // an external offset is below the data's length
    run_base(rt, Base::External(511));
    run_base(rt, Base::External(512));
}

// ---- cases of several calls

// A line's run, and another with the record and RAM that it left. A fault keeps its place, so its halfwords are skipped.
fn run_and_on(rt: &HostRuntime, line: &[u8], skipped: u16, budget: u32) {
    let mut ram = [0u8; 32768];
    show_line(rt, line);
    let after = run(
        rt,
        line,
        plain(),
        &mut ram,
        record_of(line),
        budget_of(line),
    );
    let next = state::set_place(after, after.place.wrapping_add(skipped));
    run(rt, line, plain(), &mut ram, next, budget);
}

fn two_runs(rt: &HostRuntime) {
    // an exit leaves the base none: the store behind it is fault 1
    run_and_on(
        rt,
        b"00010000 00000000 18000 0000 0 00000009 BF00 DFE0, BF00 DF80, F8C9 0000, BF00 DF00",
        0,
        9,
    );
    // a fault: nothing changed by that instruction, and earlier stores stay
    run_and_on(
        rt,
        b"00017000 00000007 18000 0000 0 00000064 BF00 DFE0, F8C9 0000, F8C9 0FFD, F8D9 2000, F8D9 1FFC, BF00 DF00",
        2,
        100,
    );
    // fault 5 leaves the base too
    run_and_on(
        rt,
        b"00010000 00000000 10000 0000 0 00000064 BF00 DFE0, BF00 DFC1, F8C9 0000, BF00 DF00",
        1,
        100,
    );
    // base and RAM are handed on: the load to r1 shows it
    run_and_on(
        rt,
        b"00010004 00000000 18000 0001 0 00000002 BF00 DFE0, F8C9 0000, F8D9 1000, BF00 DF00",
        0,
        100,
    );
}

// The RAM is lent, so that a run can go on.
fn step_twice(rt: &HostRuntime, line: &[u8], ram: &mut [u8]) -> Record {
    show_line(rt, line);
    let after = step(rt, line, ram, record_of(line));
    step(rt, line, ram, after)
}

// They give what a run with budget 2 gives: the last line of the input, and the last of the two runs.
fn two_steps(rt: &HostRuntime) {
    let mut ram = [0u8; 32768];
    step_twice(
        rt,
        b"00000000 00000000 18000 0000 0 00000001 F241 2034, 2834 DF00",
        &mut ram,
    );
    let line =
        b"00010004 00000000 18000 0001 0 00000001 BF00 DFE0, F8C9 0000, F8D9 1000, BF00 DF00";
    let after = step_twice(rt, line, &mut ram);
    run(rt, line, plain(), &mut ram, after, 100);
}

// ---- platforms

// No page yet.
fn on(never_return: u64, profile: u32) -> Program<'static> {
    Program {
        page: b"",
        platform: Platform {
            never_return,
            profile,
        },
    }
}

// A line's run in a setting.
fn run_set(rt: &HostRuntime, line: &[u8], setting: Setting) {
    let mut ram = [0u8; 32768];
    run(
        rt,
        line,
        setting,
        &mut ram,
        record_of(line),
        budget_of(line),
    );
}

fn run_on(rt: &HostRuntime, line: &[u8], program: Program) {
    run_set(rt, line, Setting { program, ..plain() });
}

// With the set empty, and with that bit alone.
fn run_both(rt: &HostRuntime, line: &[u8], bit: u64) {
    show_line(rt, line);
    run_on(rt, line, on(0, 0));
    run_on(rt, line, on(bit, 0));
}

fn last_syscalls(rt: &HostRuntime) {
    show_line(
        rt,
        b"# a syscall that returns, and then never: the place moves on, or stays",
    );
    run_both(
        rt,
        b"00000000 00000000 18000 0000 0 00000009 BF00 DF80, BF00 DF00",
        1,
    );
    run_both(
        rt,
        b"00000000 00000000 18000 0000 0 00000009 BF00 DFBF, BF00 DF00",
        0x8000_0000_0000_0000,
    );
    show_line(
        rt,
        b"# the place behind it, in its bundle, is fit, or isn't",
    );
    run_both(rt, b"00000000 00000000 18000 0001 0 00000009 DF80 DF00", 1);
}

// In the full profile, in the small one, and in one that there isn't.
fn run_profiles(rt: &HostRuntime, line: &[u8]) {
    show_line(rt, line);
    run_on(rt, line, on(0, 0));
    run_on(rt, line, on(0, 1));
    run_on(rt, line, on(0, 2));
}

fn profiles(rt: &HostRuntime) {
    show_line(rt, b"# profiles 0, 1 and 2: cbnz, movw, neither");
    run_profiles(
        rt,
        b"00000000 00000000 18000 0000 0 00000009 B900 DF00, 2001 DF00",
    );
    run_profiles(
        rt,
        b"00000000 00000000 18000 0000 0 00000009 F241 2034, 2834 DF00",
    );
    run_profiles(
        rt,
        b"00000000 00000000 18000 0000 0 00000009 2800 D001, 2001 DF00, 2000 DF00",
    );
}

// ---- windows

fn run_in(rt: &HostRuntime, line: &[u8], start: u32, end: u32) {
    let window = Window { start, end };
    run_set(rt, line, Setting { window, ..plain() });
}

// In the window of the 4 bytes that the line accesses, in one a byte late, in one a byte short, and in an empty one.
fn run_edges(rt: &HostRuntime, line: &[u8], at: u32)
    requires { at ≤ 32764 }
{
    show_line(rt, line);
    run_in(rt, line, at, at + 4);
    run_in(rt, line, at + 1, at + 4);
    run_in(rt, line, at, at + 3);
    run_in(rt, line, at, at);
}

fn windows(rt: &HostRuntime) {
    show_line(
        rt,
        b"# a word in a window of its 4 bytes, a byte late, a byte short, and empty",
    );
    run_edges(
        rt,
        b"00010004 00000000 18000 0000 0 00000009 BF00 DFE0, F8C9 0000, BF00 DF00",
        4,
    );
    run_edges(
        rt,
        b"00010007 00000000 18000 0000 0 00000009 BF00 DFE0, F8D8 1000, BF00 DF00",
        7,
    );
    run_edges(
        rt,
        b"00000000 00000000 17FFC 0000 0 00000009 9000 DF00",
        0x7FFC,
    );
    run_edges(rt, b"00000000 00000000 10000 0000 0 00000009 9801 DF00", 4);
    run_edges(
        rt,
        b"00000000 00000000 10010 0000 0 00000009 BF00 DF02, BF00 DF00, 0004 C400",
        0x14,
    );
    run_edges(
        rt,
        b"00000000 00000000 10010 0000 0 00000009 BF00 DF02, BF00 DF00, 0004 C500",
        0x14,
    );
}

fn run_in_none(rt: &HostRuntime, line: &[u8]) {
    show_line(rt, line);
    run_in(rt, line, 0, 0);
}

fn window_order(rt: &HostRuntime) {
    show_line(
        rt,
        b"# in an empty window: faults 1, 2 and 4 before 7; SP moves are not tested",
    );
    run_in_none(
        rt,
        b"00000000 00000000 18000 0000 0 00000009 F8C9 0000, BF00 DF00",
    );
    run_in_none(
        rt,
        b"00017FFD 00000000 18000 0000 0 00000009 BF00 DFE0, F8C9 0000, BF00 DF00",
    );
    run_in_none(rt, b"00000000 00000000 18000 0000 0 00000009 9000 DF00");
    run_in_none(rt, b"00000000 00000000 18000 0000 0 00000009 DFC1 DF00");
    show_line(rt, b"# windows: 32,768 to 32,768; 1 to 0; 0 to 32,769");
    let line = b"00000000 00000000 18000 0000 0 00000009 2001 DF00";
    run_in(rt, line, 32768, 32768);
    run_in(rt, line, 1, 0);
    run_in(rt, line, 0, 32769);
}

fn main(rt: HostRuntime) {
    let mut input = [0u8; 16384];
    let Some(n) = streams::read_input(&mut rt.stdin(), &mut rt.stderr(), b"steps", &mut input)
    else {
        return;
    };
    let rt = &rt;
    run_lines(rt, &input[..n]);
    refusal_order(rt);
    refused_records(rt);
    refused_lengths(rt);
    bases(rt);
    two_runs(rt);
    two_steps(rt);
    last_syscalls(rt);
    profiles(rt);
    windows(rt);
    window_order(rt);
}
