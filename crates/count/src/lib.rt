// The count of a program: its greatest closed prefix, in a single pass from the last bundle back.
#![tactic(auto)]

ghost use Rattle.std.specs.Prelude.{◌≡◌};
ghost use Rattle.platform.specs.Programs.{seen_program};
ghost use Rattle.count.specs.Count.{count_program, seen_count};

use platform::Program;
use refusal::Refusal;

pub fn count(program: &Program) -> Result<u32, Refusal>
    ensures { seen_count result ≡ count_program (seen_program program.now) }
{
    platform::of_program(program)?;
    let bundles = (program.page.len() / 4) as u32;
    let mut bound = bundles;
    for k in (0..bundles).rev() {
        bound = prefix::bound_after(bound, bundle::read_bundle(program, k)?, k);
    }
    Ok(bound)
}
