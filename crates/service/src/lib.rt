// What a service halfword means, for the reader and the machine alike.
#![tactic(auto)]

ghost use Rattle.std.specs.Prelude.{◌≡◌};
ghost use Rattle.service.specs.Services.{literal_service, by_low_byte, service_of};

use literal::Service;

// A service by the literal word at bundle n, which must lie in the page.
#[tactic(auto, unfolding(crate::specs::Services::literal_service))]
fn by_literal(page: &[u8], n: u8) -> Service
    ensures { result ≡ literal_service page.now n }
{
    if (n as usize) < page.len() / 4 {
        literal::literal(page::word(page, n as u32))
    } else {
        Service::Bad
    }
}

// The service of the halfword DFxx with low byte n, where its literal word means what is given.
#[tactic(auto, unfolding(crate::specs::Services::by_low_byte))]
pub fn by_low_byte(n: u8, meant: Service) -> Service
    ensures { result ≡ by_low_byte n meant }
{
    let w = n as u32;
    let register = bits::field(w, 0, 3) as u8;
    match n {
        0x00 => Service::Return,
        0x01..=0x7F => meant,
        0x80..=0xBF => Service::DirectSyscall(bits::field(w, 0, 6) as u8),
        0xC0..=0xDF => Service::LowerSp(bits::field(w, 0, 5)),
        0xE0..=0xE7 => Service::Validate(register),
        0xE8 => Service::Breakpoint,
        0xE9..=0xEF => Service::Bad,
        0xF0..=0xF7 => Service::CallRegister(register),
        0xF8..=0xFF => Service::TailCallRegister(register),
    }
}

// The same in a page. A literal is read only where it counts.
#[tactic(auto, using(crate::proofs::Theorems::by_literal_lem), unfolding(crate::specs::Services::service_of))]
pub fn service_of(page: &[u8], n: u8) -> Service
    ensures { result ≡ service_of page.now n }
{
    match n {
        0x01..=0x7F => by_literal(page, n),
        _ => by_low_byte(n, Service::Bad),
    }
}
