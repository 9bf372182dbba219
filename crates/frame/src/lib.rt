// Frames on the stack, as source document 002 has them: eight words, written and read as one access of 32 bytes.
#![tactic(auto)]

ghost use Rattle.std.specs.Prelude.{◌*◌, ◌<◌, ◌≡◌, Ok};
ghost use Rattle.endian.specs.LittleEndian.{load_le};
ghost use Rattle.memory.specs.Memory.{ram_access, after_if};
ghost use Rattle.memory.specs.declared.Fault.TheVariants.{PastStack};
ghost use Rattle.frame.specs.Frames.{offset_of, frame_access, store_words, load_words, saved_at};

use endian::Size;
use memory::Fault;
use window::Window;

// Whether the frame at an address may be read or written: all its bytes, before the first.
#[tactic(auto, unfolding(crate::specs::Frames::frame_access))]
fn access(window: Window, address: u32) -> Result<(), Fault>
    ensures { result ≡ frame_access window address }
{
    if address < 0x10000 {
        return Err(Fault::LowStack);
    }
    memory::ram_access(window, (address - 0x10000) as usize, 32, Fault::PastStack)
}

// Word i of a frame lies 4i bytes above the first, which is PC.
fn word_offset(i: usize) -> usize
    requires { i < 8 }
    ensures { result ≡ 4 * i }
{
    4 * i
}

// The words go to RAM one by one, each by the one way to write it.
fn write_words(window: Window, ram: &mut [u8], at: usize, words: [u32; 8])
    requires { ram_access window at 32 PastStack ≡ Ok tt }
    ensures { ram.new ≡ store_words ram.old at words }
{
    for i in 0..8 {
        let there = at + word_offset(i);
        let _ = memory::ram_store(window, ram, there, Size::Word, words[i], Fault::PastStack);
    }
}

// A word comes from RAM by the one way to read it.
#[tactic(auto, using(crate::proofs::Words::word_loaded))]
fn word_at(window: Window, ram: &[u8], at: usize) -> u32
    requires { ram_access window at 4 PastStack ≡ Ok tt }
    ensures { result ≡ load_le 4 ram.now at }
{
    memory::ram_load(window, ram, at, Size::Word, Fault::PastStack).unwrap_or(0)
}

fn read_words(window: Window, ram: &[u8], at: usize) -> [u32; 8]
    requires { ram_access window at 32 PastStack ≡ Ok tt }
    ensures { result ≡ load_words 8 ram.now at }
{
    let mut words = [0u32; 8];
    for i in 0..8 {
        words[i] = word_at(window, ram, at + word_offset(i));
    }
    words
}

// Writes a frame.
#[tactic(auto, using(crate::proofs::InRam::frame_done))]
pub fn write(window: Window, ram: &mut [u8], address: u32, words: [u32; 8]) -> Result<(), Fault>
    ensures { (result ≡ frame_access window address)
        × (ram.new ≡ after_if (frame_access window address) (store_words ram.old (offset_of address) words) ram.old) }
{
    access(window, address)?;
    write_words(window, ram, (address - 0x10000) as usize, words);
    Ok(())
}

// Reads a frame.
#[tactic(auto, using(crate::proofs::InRam::frame_done))]
pub fn read(window: Window, ram: &[u8], address: u32) -> Result<[u32; 8], Fault>
    ensures { result ≡ saved_at window ram.now address }
{
    access(window, address)?;
    Ok(read_words(window, ram, (address - 0x10000) as usize))
}
