// Loads and stores: RAM, the external page, and by a base.
#![tactic(auto)]

ghost use Rattle.std.specs.Prelude.{◌≡◌, ◌*◌, ◌%◌, ◌^◌};
ghost use Rattle.words.specs.Bitwise.{sign_extended};
ghost use Rattle.endian.specs.LittleEndian.{width_of};
ghost use Rattle.memory.specs.Faults.{fault_number};
ghost use Rattle.memory.specs.Memory.{ram_access, ram_loaded, ram_stored, ram_after, external_loaded, loaded_by, stored_by, after_store_by, signed_loaded};

use endian::Size;
use state::Base;
use window::Window;

// The papers' faults, in the order of their numbers, 1 to 7.
#[derive(Clone, Copy)]
pub enum Fault {
    NoBase,
    PastRam,
    OffExternalPage,
    PastStack,
    LowStack,
    PastPage,
    OutsideWindow,
}

// The papers' number of a fault.
impl From<Fault> for u8 {
    ghost from_gives = { λ f n. n ≡ fault_number f };

    fn from(f: Fault) -> u8 {
        match f {
            Fault::NoBase => 1,
            Fault::PastRam => 2,
            Fault::OffExternalPage => 3,
            Fault::PastStack => 4,
            Fault::LowStack => 5,
            Fault::PastPage => 6,
            Fault::OutsideWindow => 7,
        }
    }
}

// Whether an access of some bytes to RAM may be done, tested whole: past RAM first, then the window.
pub fn ram_access(window: Window, at: usize, bytes: usize, past: Fault) -> Result<(), Fault>
    ensures { result ≡ ram_access window at bytes past }
{
    if !window::holds(window::whole_ram(), at, bytes) {
        return Err(past);
    }
    if !window::holds(window, at, bytes) {
        return Err(Fault::OutsideWindow);
    }
    Ok(())
}

// The only way to read RAM.
#[tactic(auto, using(crate::proofs::Ram::done_near), unfolding(crate::specs::Memory::ram_loaded))]
pub fn ram_load(
    window: Window,
    ram: &[u8],
    at: usize,
    size: Size,
    past: Fault,
) -> Result<u32, Fault>
    ensures { result ≡ ram_loaded window ram.now at size past }
{
    ram_access(window, at, endian::width(size), past)?;
    Ok(endian::load(ram, at as u32, size))
}

// The only way to write RAM.
#[tactic(auto, using(crate::proofs::Ram::done_near), unfolding(crate::specs::Memory::ram_after))]
pub fn ram_store(
    window: Window,
    ram: &mut [u8],
    at: usize,
    size: Size,
    x: u32,
    past: Fault,
) -> Result<(), Fault>
    ensures { (result ≡ ram_stored window at size past) × (ram.new ≡ ram_after window ram.old at size past x) }
{
    let bytes = endian::width(size);
    ram_access(window, at, bytes, past)?;
    endian::store(ram, at as u32, size, x);
    Ok(())
}

// A load from the external page that holds the offset: only that page is handed on to be read.
pub fn external_load(external: &[u8], offset: u32, imm12: u16, size: Size) -> Result<u32, Fault>
    ensures { result ≡ external_loaded external.now offset imm12 size }
{
    let from = ((offset / 256 * 256) as usize).min(external.len());
    let end = (from + 256).min(external.len());
    let at = offset % 256 + imm12 as u32;
    if (at as usize) <= 256 - endian::width(size) {
        Ok(endian::load(&external[from..end], at, size))
    } else {
        Err(Fault::OffExternalPage)
    }
}

// A load by a base. External data and window stand apart, since no program is read here.
#[tactic(auto, unfolding(crate::specs::Memory::loaded_by))]
pub fn load_by(
    base: Base,
    needs_ram: bool,
    window: Window,
    ram: &[u8],
    external: &[u8],
    imm12: u16,
    size: Size,
) -> Result<u32, Fault>
    ensures { result ≡ loaded_by base needs_ram window ram.now external.now imm12 size }
{
    match base {
        Base::Nothing => Err(Fault::NoBase),
        Base::Ram(offset) => ram_load(
            window,
            ram,
            offset as usize + imm12 as usize,
            size,
            Fault::PastRam,
        ),
        Base::External(offset) => {
            if needs_ram {
                Err(Fault::NoBase)
            } else {
                external_load(external, offset, imm12, size)
            }
        }
    }
}

// A store by a base.
#[tactic(auto, unfolding(crate::specs::Memory::stored_by, crate::specs::Memory::after_store_by))]
pub fn store_by(
    base: Base,
    window: Window,
    ram: &mut [u8],
    imm12: u16,
    size: Size,
    x: u32,
) -> Result<(), Fault>
    ensures { (result ≡ stored_by base window imm12 size) × (ram.new ≡ after_store_by base window ram.old imm12 size x) }
{
    match base {
        Base::Ram(offset) => {
            let at = offset as usize + imm12 as usize;
            ram_store(window, ram, at, size, x, Fault::PastRam)
        }
        Base::Nothing | Base::External(_) => Err(Fault::NoBase),
    }
}

// The low bytes of x, with their sign extended to 32 bits.
fn extended(x: u32, size: Size) -> u32
    ensures { result ≡ sign_extended (8 * width_of size) (x % 2 ^ (8 * width_of size)) }
{
    let n = 8 * (endian::width(size) as u32);
    bits::low_word(bits::sign_extended(x, n))
}

// What was loaded, as a signed number in 32 bits.
pub fn signed(size: Size, loaded: Result<u32, Fault>) -> Result<u32, Fault>
    ensures { result ≡ signed_loaded size loaded }
{
    Ok(extended(loaded?, size))
}
