// What a bundle's successors come to, for the single pass: only the largest counts.
#![tactic(auto)]

ghost use Rattle.std.specs.Prelude.{◌≡◌, cond};
ghost use Rattle.prefix.specs.Prefix.{Successors, within};
ghost use Rattle.prefix.specs.LargestSuccessor.{largest_successor, reading_of, with_successor};

// A bundle is bad, has no successor, or has a largest one.
#[derive(Clone, Copy)]
pub enum LargestSuccessor {
    Bad,
    Nothing,
    Largest(u32),
}

// One successor more.
pub fn with_successor(r: LargestSuccessor, s: u32) -> LargestSuccessor
    ensures { (x : Successors) → reading_of r ≡ largest_successor x → reading_of result ≡ largest_successor (with_successor x s) }
{
    match r {
        LargestSuccessor::Bad => LargestSuccessor::Bad,
        LargestSuccessor::Nothing => LargestSuccessor::Largest(s),
        LargestSuccessor::Largest(t) => LargestSuccessor::Largest(t.max(s)),
    }
}

// The bound after bundle k: it stays, or falls to k where the bundle is not within it.
#[tactic(auto, using(crate::proofs::Successors::bound_by))]
pub fn bound_after(bound: u32, r: LargestSuccessor, k: u32) -> u32
    ensures { (x : Successors) → reading_of r ≡ largest_successor x → result ≡ cond (within bound x) bound k }
{
    match r {
        LargestSuccessor::Bad => k,
        LargestSuccessor::Nothing => bound,
        LargestSuccessor::Largest(s) => { if s < bound { bound } else { k } }
    }
}
