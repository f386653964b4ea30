// When events happened, where a window is declared.
ghost use Rattle.std.specs.Prelude.{◌≡◌, ◌<◌, ◌^◌, nat_abs, option_map};
ghost use Rattle.decl.specs.Declaration.{HasLawfulOwners, declaration_of, offset_of};
ghost use Rattle.traces.specs.Seen.{moment_of, seen_moment};

use crate::Moment;
use atto::Nano;
use decl::Decl;

// What a clock is roughly ahead of true time, in ns.
fn offset_of(decl: &Decl, clock: u32) -> i64
    requires { HasLawfulOwners (declaration_of decl.now) }
    ensures offset { result ≡ offset_of (declaration_of decl.now) clock }
    ensures fits { nat_abs result < 2 ^ 62 }
{
    match decl.owners.get(clock as usize) {
        Some(owner) => owner.offset,
        None => 0,
    }
}

// When an event with this stamp of a clock happened; None where no window is declared.
pub(crate) fn moment_of(decl: &Decl, clock: u32, stamp: Nano) -> Option<Moment>
    requires { HasLawfulOwners (declaration_of decl.now) }
    ensures { option_map seen_moment result ≡ moment_of (declaration_of decl.now) clock stamp }
{
    let window = decl.window?;
    let time = stamp.get() as i64 - offset_of(decl, clock);
    Some(Moment {
        time,
        window: window.get(),
    })
}
