// The services, and what a literal word means of them.
#![tactic(auto)]

ghost use Rattle.std.specs.Prelude.{◌≡◌};
ghost use Rattle.literal.specs.Literals.{literal_of, call_of, syscall_of, address_operation_of};

#[derive(Clone, Copy)]
pub enum Service {
    Return,
    // by the literal word: address, words that SP is to be lowered by
    Call(u32, u8),
    TailCall(u32, u8),
    // number, immediate
    Syscall(u16, u16),
    TailSyscall(u16, u16),
    // the address
    LongBranch(u32),
    Preload,
    SetBase(u32),
    // register, bytes above SP
    StoreAtSp(u8, u32),
    LoadAtSp(u8, u32),
    // the words that SP is lowered by, by the literal word or by the halfword
    LowerSp(u32),
    // by the halfword alone: number, or register
    DirectSyscall(u8),
    Validate(u8),
    Breakpoint,
    CallRegister(u8),
    TailCallRegister(u8),
    // reserved, or its literal is missing or bad
    Bad,
}

// A literal with bit 31 clear.
#[tactic(auto, unfolding(crate::specs::Literals::call_of))]
fn call(w: u32) -> Service
    ensures { result ≡ call_of w }
{
    let kind = bits::field(w, 0, 2);
    let address = 0x8000_0000 + 4 * bits::field(w, 2, 22);
    let words = bits::field(w, 24, 7) as u8;
    match kind {
        0 => Service::Call(address, words),
        1 => Service::TailCall(address, words),
        _ => Service::Bad,
    }
}

// A literal whose top bits are 10.
#[tactic(auto, unfolding(crate::specs::Literals::syscall_of))]
fn syscall(w: u32) -> Service
    ensures { result ≡ syscall_of w }
{
    let number = bits::field(w, 16, 14) as u16;
    let immediate = bits::field(w, 1, 15) as u16;
    if number > 8191 {
        return Service::Bad;
    }
    if bits::field(w, 0, 1) == 1 {
        Service::TailSyscall(number, immediate)
    } else {
        Service::Syscall(number, immediate)
    }
}

// A literal whose top bits are 110 or 111.
#[tactic(auto, unfolding(crate::specs::Literals::address_operation_of))]
fn address_operation(w: u32) -> Service
    ensures { result ≡ address_operation_of w }
{
    let external = bits::field(w, 29, 1);
    let operation = bits::field(w, 24, 5);
    let a = bits::field(w, 0, 24);
    let address = 0x8000_0000 * external + a;
    match operation {
        0 => Service::LongBranch(address),
        1 => Service::Preload,
        2 => Service::SetBase(address),
        3 if external == 0 => Service::LowerSp(a),
        4 if external == 0 => Service::StoreAtSp(
            bits::field(a, 21, 3) as u8,
            bits::field(a, 0, 21),
        ),
        5 if external == 0 => Service::LoadAtSp(bits::field(a, 21, 3) as u8, bits::field(a, 0, 21)),
        _ => Service::Bad,
    }
}

// What a literal word stands for.
#[tactic(auto, unfolding(crate::specs::Literals::literal_of))]
pub fn literal(w: u32) -> Service
    ensures { result ≡ literal_of w }
{
    if bits::field(w, 31, 1) == 0 {
        return call(w);
    }
    if bits::field(w, 30, 1) == 0 {
        return syscall(w);
    }
    address_operation(w)
}
