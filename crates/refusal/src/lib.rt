// Why a call is refused.
#![tactic(auto)]

ghost use Rattle.std.specs.Prelude.{◌≡◌};
ghost use Rattle.refusal.specs.Refusals.{when_accepted, refusal_number, refusal_values, carried_values, decision_of};

// The papers' refusals, in the order of their numbers; the last is the library's own.
#[derive(Clone, Copy)]
pub enum Refusal {
    PageLength,
    RamLength,
    ExternalLength,
    UnfitPlace,
    FormLength,
    // where the field that is out of range starts in the stored form
    FormRange(u32),
    NoSuchBundle,
    NotGrouped,
    RoomTooSmall,
    ImageLength,
    NoSuchPage,
    IndexLength,
    UnknownProfile,
    WindowBounds,
    WrongIndex,
    SpBounds,
    SpAlignment,
    RamOffset,
    ExternalOffset,
    // where the field that is no record's starts, 0 where the bytes have another length
    NoRecord(u32),
}

// The number of a refusal.
impl From<Refusal> for u8 {
    ghost from_gives = { λ r n. n ≡ refusal_number r };

    fn from(r: Refusal) -> u8 {
        match r {
            Refusal::PageLength => 1,
            Refusal::RamLength => 2,
            Refusal::ExternalLength => 3,
            Refusal::UnfitPlace => 5,
            Refusal::FormLength => 6,
            Refusal::FormRange(_) => 7,
            Refusal::NoSuchBundle => 8,
            Refusal::NotGrouped => 9,
            Refusal::RoomTooSmall => 10,
            Refusal::ImageLength => 12,
            Refusal::NoSuchPage => 13,
            Refusal::IndexLength => 14,
            Refusal::UnknownProfile => 18,
            Refusal::WindowBounds => 20,
            Refusal::WrongIndex => 21,
            Refusal::SpBounds => 41,
            Refusal::SpAlignment => 42,
            Refusal::RamOffset => 43,
            Refusal::ExternalOffset => 44,
            Refusal::NoRecord(_) => 255,
        }
    }
}

// The position of a byte in the stored form, where the refusal carries one.
pub fn carries(r: Refusal) -> Option<u32>
    ensures { carried_values result ≡ refusal_values r }
{
    match r {
        Refusal::FormRange(position) | Refusal::NoRecord(position) => Some(position),
        _ => None,
    }
}

// A verdict, or the one after it where it accepts.
pub fn first_of(first: Result<(), Refusal>, second: Result<(), Refusal>) -> Result<(), Refusal>
    ensures { decision_of result ≡ when_accepted (decision_of first) (decision_of second) (decision_of first) }
{
    first.and(second)
}
