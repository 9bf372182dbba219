// 02's window of RAM: what of it a run may read and write.
#![tactic(auto)]

ghost use Rattle.std.specs.Prelude.{[], ◌∷◌, ◌≡◌};
ghost use Rattle.refusal.specs.Refusals.{decision, decision_of};
ghost use Rattle.window.specs.Windows.{whole_ram, window_rule, inside_window};

use refusal::Refusal;

// Offsets in RAM, from the start to below the end.
#[derive(Clone, Copy)]
pub struct Window {
    pub start: u32,
    pub end: u32,
}

// All of RAM, as the runner gives it, and as the test of RAM itself has it.
pub fn whole_ram() -> Window
    ensures { result ≡ whole_ram }
{
    Window {
        start: 0,
        end: 32768,
    }
}

// The window lies in RAM.
pub fn of_window(w: Window) -> Result<(), Refusal>
    ensures { decision_of result ≡ decision (window_rule w ∷ []) }
{
    if w.start > w.end {
        return Err(Refusal::WindowBounds);
    }
    if w.end > 32768 {
        return Err(Refusal::WindowBounds);
    }
    Ok(())
}

// Whether an access of some bytes lies wholly inside.
pub fn holds(w: Window, at: usize, bytes: usize) -> bool
    ensures { result ≡ inside_window w at bytes }
{
    let start = w.start as usize;
    let end = w.end as usize;
    if at < start {
        return false;
    }
    if end < bytes {
        return false;
    }
    if at <= end - bytes {
        return true;
    }
    false
}
