// What loads and stores do to registers and RAM, and which fault they meet; never the place. Each comes to what it writes, or to a fault.
#![tactic(auto)]

ghost use Rattle.std.specs.Prelude.{◌≡◌};
ghost use Rattle.access.specs.Outcomes.{load_to, store_with, did_of, Does, DoesAny};
ghost use Rattle.access.specs.LoadsAndStores.{stack_loaded, stack_stored, after_stack_store, literal_loaded, loaded_base, load_at, store_at, store_base, load_base, load_signed, accessed};

use endian::Size;
use isa::Access;
use memory::Fault;
use state::Record;
use window::Window;
use writing::Writes;

// ---- the stack

#[tactic(auto, unfolding(crate::specs::LoadsAndStores::stack_loaded))]
fn stack_load(window: Window, ram: &[u8], address: usize) -> Result<u32, Fault>
    ensures { result ≡ stack_loaded window ram.now address }
{
    if address < 0x10000 {
        Err(Fault::LowStack)
    } else {
        memory::ram_load(window, ram, address - 0x10000, Size::Word, Fault::PastStack)
    }
}

#[tactic(auto, unfolding(crate::specs::LoadsAndStores::stack_stored, crate::specs::LoadsAndStores::after_stack_store))]
fn stack_store(window: Window, ram: &mut [u8], address: usize, x: u32) -> Result<(), Fault>
    ensures { (result ≡ stack_stored window address) × (ram.new ≡ after_stack_store window ram.old address x) }
{
    if address < 0x10000 {
        Err(Fault::LowStack)
    } else {
        memory::ram_store(
            window,
            ram,
            address - 0x10000,
            Size::Word,
            x,
            Fault::PastStack,
        )
    }
}

// What was loaded goes to register t.
#[tactic(auto, unfolding(crate::specs::Outcomes::load_to, crate::specs::Outcomes::did_of))]
fn load_to(r: Record, t: u8, l: Result<u32, Fault>) -> Result<Writes, Fault>
    ensures { DoesAny (λ m. load_to r m t l) result }
{
    Ok(writing::keeping(r, Some((t, l?)), r.flags))
}

// A store writes no register.
#[tactic(auto, unfolding(crate::specs::Outcomes::store_with, crate::specs::Outcomes::did_of))]
fn stored(r: Record, s: Result<(), Fault>) -> Result<Writes, Fault>
    ensures { DoesAny (λ m. store_with r s m) result }
{
    s?;
    Ok(writing::writes_nothing(r))
}

// Register t from the stack.
pub fn load_at(
    r: Record,
    window: Window,
    ram: &[u8],
    t: u8,
    address: usize,
) -> Result<Writes, Fault>
    ensures { result ≡ did_of (load_at r window ram.now t address) }
{
    load_to(r, t, stack_load(window, ram, address))
}

// Register t to the stack.
#[tactic(auto, using(crate::proofs::Laws::stack_ram))]
pub fn store_at(
    r: Record,
    window: Window,
    ram: &mut [u8],
    t: u8,
    address: usize,
) -> Result<Writes, Fault>
    ensures { Does ram.old (store_at r window ram.old t address) result ram.new }
{
    stored(
        r,
        stack_store(window, ram, address, state::register_of(r, t)),
    )
}

// ---- the literal pool

// The bundle is that of the place, so PC is aligned.
#[tactic(auto, unfolding(crate::specs::LoadsAndStores::literal_loaded))]
fn literal_load(page: &[u8], place: u16, imm8: u8) -> Result<u32, Fault>
    ensures { result ≡ literal_loaded page.now place imm8 }
{
    let bundle = (place / 2) as u32 + 1 + imm8 as u32;
    if (bundle as usize) < page.len() / 4 {
        Ok(page::word(page, bundle))
    } else {
        Err(Fault::PastPage)
    }
}

// ---- by the base; page, external data and window stand apart here, since no program and no platform is read

#[tactic(auto, using(crate::proofs::Laws::base_ram))]
fn store_base(
    r: Record,
    window: Window,
    ram: &mut [u8],
    size: Size,
    t: u8,
    imm12: u16,
) -> Result<Writes, Fault>
    ensures { Does ram.old (store_base r window ram.old size t imm12) result ram.new }
{
    stored(
        r,
        memory::store_by(r.base, window, ram, imm12, size, state::register_of(r, t)),
    )
}

// What the base has: r9 needs a RAM base.
fn loaded_by(
    r: Record,
    window: Window,
    ram: &[u8],
    external: &[u8],
    size: Size,
    n: u8,
    imm12: u16,
) -> Result<u32, Fault>
    ensures { result ≡ loaded_base r window ram.now external.now size n imm12 }
{
    memory::load_by(r.base, n == 9, window, ram, external, imm12, size)
}

fn load(
    r: Record,
    window: Window,
    ram: &[u8],
    external: &[u8],
    size: Size,
    n: u8,
    t: u8,
    imm12: u16,
) -> Result<Writes, Fault>
    ensures { result ≡ did_of (load_base r window ram.now external.now size n t imm12) }
{
    load_to(r, t, loaded_by(r, window, ram, external, size, n, imm12))
}

fn signed(
    r: Record,
    window: Window,
    ram: &[u8],
    external: &[u8],
    size: Size,
    n: u8,
    t: u8,
    imm12: u16,
) -> Result<Writes, Fault>
    ensures { result ≡ did_of (load_signed r window ram.now external.now size n t imm12) }
{
    load_to(
        r,
        t,
        memory::signed(size, loaded_by(r, window, ram, external, size, n, imm12)),
    )
}

// ---- the instructions, in the order of the listed encodings; operands as in `isa::Access`

#[tactic(auto, using(crate::proofs::Theorems::load_ram), unfolding(crate::specs::LoadsAndStores::accessed))]
pub fn perform(
    page: &[u8],
    external: &[u8],
    window: Window,
    access: Access,
    r: Record,
    ram: &mut [u8],
) -> Result<Writes, Fault>
    ensures { Does ram.old (accessed page.now external.now window access r ram.old) result ram.new }
{
    let sp = r.sp as usize;
    match access {
        Access::LdrLit(t, imm8) => load_to(r, t, literal_load(page, r.place, imm8)),
        Access::StrSp(t, imm8) => store_at(r, window, ram, t, sp + 4 * (imm8 as usize)),
        Access::LdrSp(t, imm8) => load_at(r, window, ram, t, sp + 4 * (imm8 as usize)),
        Access::Str(t, imm12) => store_base(r, window, ram, Size::Word, t, imm12),
        Access::Strb(t, imm12) => store_base(r, window, ram, Size::Byte, t, imm12),
        Access::Strh(t, imm12) => store_base(r, window, ram, Size::Halfword, t, imm12),
        Access::Ldr(n, t, imm12) => load(r, window, ram, external, Size::Word, n, t, imm12),
        Access::Ldrb(n, t, imm12) => load(r, window, ram, external, Size::Byte, n, t, imm12),
        Access::Ldrh(n, t, imm12) => load(r, window, ram, external, Size::Halfword, n, t, imm12),
        Access::Ldrsb(n, t, imm12) => signed(r, window, ram, external, Size::Byte, n, t, imm12),
        Access::Ldrsh(n, t, imm12) => signed(r, window, ram, external, Size::Halfword, n, t, imm12),
    }
}
