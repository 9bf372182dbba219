// Calls, tail calls and returns between the pages of an image: how they move SP, FP, page and place, and the frame on the stack.
#![tactic(auto)]

ghost use Rattle.std.specs.Prelude.{◌+◌, ◌-◌, ◌*◌, ◌^◌, ◌<◌, ◌≤◌, ◌≡◌};
ghost use Rattle.literal.specs.Literals.{call_address, call_words};
ghost use Rattle.image.specs.Images.{seen_image};
ghost use Rattle.address.specs.Addresses.{page_of, place_of};
ghost use Rattle.transfer.specs.declared.TransferFault.TheVariants.{Memory};
ghost use Rattle.transfer.specs.Faults.{transfer_fault_number};
ghost use Rattle.transfer.specs.Transfers.{push, call, top_of, tail_call, leave, return, transfer, target_met, low_met, place_met, frame_met, transferred, Transfers, TransfersAny};

use asking::Asked;
use image::Image;
use memory::Fault;
use window::Window;

// What a transfer moves: SP and FP on the stack, and the page and place where the run stands.
#[derive(Clone, Copy)]
pub struct Linkage {
    pub sp: u32,
    pub fp: u32,
    pub page: u16,
    pub place: u16,
}

// Where a transfer leaves the run, RAM aside.
#[derive(Clone, Copy)]
pub struct Moved {
    pub linkage: Linkage,
    pub regs: [u32; 8],
}

// Why a transfer fails: by the fault that the access to its frame meets, or by one that no access meets, 8 to 10.
#[derive(Clone, Copy)]
pub enum TransferFault {
    Memory(Fault),
    // the place called or returned to is not fit
    UnfitPlace,
    // the frame or SP of a call would lie below the stack
    LowFrame,
    // a saved FP fails the frame test
    UnfitFrame,
}

impl From<Fault> for TransferFault {
    ghost from_gives = { λ met fault. fault ≡ Memory met };

    fn from(met: Fault) -> TransferFault {
        TransferFault::Memory(met)
    }
}

// The papers' number of a fault.
impl From<TransferFault> for u8 {
    ghost from_gives = { λ fault n. n ≡ transfer_fault_number fault };

    fn from(fault: TransferFault) -> u8 {
        match fault {
            TransferFault::Memory(met) => u8::from(met),
            TransferFault::UnfitPlace => 8,
            TransferFault::LowFrame => 9,
            TransferFault::UnfitFrame => 10,
        }
    }
}

// ---- the word of a call

// The two lowest bits and the top bit are ignored.
fn target_of(w: u32) -> u32
    ensures { result ≡ call_address w }
{
    0x8000_0000 + 4 * bits::field(w, 2, 22)
}

fn words_of(w: u32) -> u32
    ensures { result ≡ call_words w }
{
    bits::field(w, 24, 7)
}

// ---- what stands in the way

// Whether a target lies in the image; one that does must be fit.
fn target_met(image: &Image, address: u32) -> Result<bool, TransferFault>
    ensures { result ≡ target_met (seen_image image.now) address }
{
    let p = address::page_of(address);
    if !address::in_image(image, p) {
        return Ok(false);
    }
    if !address::is_fit(image, p, address::place_of(address)) {
        return Err(TransferFault::UnfitPlace);
    }
    Ok(true)
}

// SP is to lie so many bytes below.
fn low_met(top: u32, bytes: u32) -> Result<(), TransferFault>
    requires { bytes < 2 ^ 16 }
    ensures { result ≡ low_met (top - bytes) }
{
    if top < 0x1_0000 + bytes {
        return Err(TransferFault::LowFrame);
    }
    Ok(())
}

// A saved PC.
fn place_met(image: &Image, pc: u32) -> Result<(), TransferFault>
    ensures { result ≡ place_met (seen_image image.now) pc }
{
    if !address::is_fit_address(image, pc) {
        return Err(TransferFault::UnfitPlace);
    }
    Ok(())
}

// A saved FP.
fn frame_met(fp: u32) -> Result<(), TransferFault>
    ensures { result ≡ frame_met fp }
{
    if !state::fp_fits(fp) {
        return Err(TransferFault::UnfitFrame);
    }
    Ok(())
}

// ---- each of them: where it leaves the run, or None where nothing moves between pages

// The linkage at an address of the image.
fn linked(sp: u32, fp: u32, address: u32) -> Linkage
    requires { page_of address < 2 ^ 16 }
    ensures { result ≡ record { sp = sp; fp = fp; page = page_of address; place = place_of address } }
{
    Linkage {
        sp,
        fp,
        page: address::page_of(address) as u16,
        place: address::place_of(address),
    }
}

// A call that nothing stands in the way of but the access to its frame.
#[tactic(auto, using(crate::proofs::Laws::framed), unfolding(crate::specs::Transfers::push, crate::specs::Transfers::when_done))]
fn push(
    window: Window,
    address: u32,
    n: u32,
    behind: u16,
    at: Linkage,
    regs: [u32; 8],
    ram: &mut [u8],
) -> Result<Option<Moved>, TransferFault>
    requires { (page_of address < 2 ^ 16) × (n < 2 ^ 7) × (32 + 4 * n ≤ at.sp) }
    ensures { Transfers ram.old (push window address n behind at regs ram.old) result ram.new }
{
    let frame = at.sp - 32;
    let mut words = regs;
    words[0] = address::address_of(at.page, behind);
    words[1] = at.fp;
    frame::write(window, ram, frame, words)?;
    Ok(Some(Moved {
        linkage: linked(frame - 4 * n, frame, address),
        regs,
    }))
}

#[tactic(auto, using(crate::proofs::Laws::call_met))]
fn call(
    image: &Image,
    window: Window,
    w: u32,
    behind: u16,
    at: Linkage,
    regs: [u32; 8],
    ram: &mut [u8],
) -> Result<Option<Moved>, TransferFault>
    ensures { Transfers ram.old (call (seen_image image.now) window w behind at regs ram.old) result ram.new }
{
    let address = target_of(w);
    let n = words_of(w);
    if !target_met(image, address)? {
        return Ok(None);
    }
    low_met(at.sp, 32 + 4 * n)?;
    push(window, address, n, behind, at, regs, ram)
}

fn top_of(fp: u32) -> u32
    ensures { result ≡ top_of fp }
{
    if fp == 0 {
        return 0x1_8000;
    }
    fp
}

#[tactic(auto, using(crate::proofs::Laws::tail_met))]
fn tail_call(
    image: &Image,
    w: u32,
    at: Linkage,
    regs: [u32; 8],
) -> Result<Option<Moved>, TransferFault>
    ensures { TransfersAny (tail_call (seen_image image.now) w at regs) result }
{
    let address = target_of(w);
    let below = 4 * words_of(w);
    let top = top_of(at.fp);
    if !target_met(image, address)? {
        return Ok(None);
    }
    low_met(top, below)?;
    Ok(Some(Moved {
        linkage: linked(top - below, at.fp, address),
        regs,
    }))
}

// A return by the words of a frame that was read.
#[tactic(auto, using(crate::proofs::Laws::leave_met, crate::proofs::Laws::restoring))]
fn leave(
    image: &Image,
    at: Linkage,
    regs: [u32; 8],
    words: [u32; 8],
) -> Result<Option<Moved>, TransferFault>
    requires { at.fp < 0x18000 }
    ensures { TransfersAny (leave (seen_image image.now) at regs words) result }
{
    let pc = words[0];
    let fp = words[1];
    place_met(image, pc)?;
    frame_met(fp)?;
    let mut after = words;
    after[0] = regs[0];
    after[1] = regs[1];
    Ok(Some(Moved {
        linkage: linked(at.fp + 32, fp, pc),
        regs: after,
    }))
}

#[tactic(auto, using(crate::proofs::Laws::return_met), unfolding(crate::specs::Transfers::when_done))]
fn return_from(
    image: &Image,
    window: Window,
    at: Linkage,
    regs: [u32; 8],
    ram: &[u8],
) -> Result<Option<Moved>, TransferFault>
    ensures { result ≡ transferred (return (seen_image image.now) window at regs ram.now) }
{
    if at.fp == 0 {
        return Ok(None);
    }
    let words = frame::read(window, ram, at.fp)?;
    leave(image, at, regs, words)
}

// What is asked for, with the place behind it. Of a fault nothing is changed.
#[tactic(auto, using(crate::proofs::Laws::tail_still, crate::proofs::Laws::return_still), unfolding(crate::specs::Transfers::transfer))]
pub fn transfer(
    image: &Image,
    window: Window,
    asked: Asked,
    behind: u16,
    at: Linkage,
    regs: [u32; 8],
    ram: &mut [u8],
) -> Result<Option<Moved>, TransferFault>
    ensures { Transfers ram.old (transfer (seen_image image.now) window asked behind at regs ram.old) result ram.new }
{
    match asked {
        Asked::NoTransfer => Ok(None),
        Asked::Call(w) => call(image, window, w, behind, at, regs, ram),
        Asked::TailCall(w) => tail_call(image, w, at, regs),
        Asked::Return => return_from(image, window, at, regs, &ram[..]),
    }
}
