// Messages that came and went.
ghost use Rattle.std.specs.Prelude.{◌≡◌, ◌<◌, ◌^◌, length};
ghost use Rattle.std.specs.List.{list_any};
ghost use Rattle.traces.specs.Messages.{is_same_couple, missing};

use traces::Couple;

// Whether a message is one of these.
fn is_among(x: &Couple, ys: &[Couple]) -> bool
    ensures { result ≡ list_any (λ y. is_same_couple x.now y) ys.now }
{
    ys.iter().any(|y| x == y)
}

/// How many messages of the first list are not in the second: each message of the first is looked for in the second.
pub fn missing(xs: &[Couple], ys: &[Couple]) -> u32
    requires { length xs.now < 2 ^ 32 }
    ensures { result ≡ missing xs.now ys.now }
{
    let mut count: u32 = 0;
    for x in xs {
        if !is_among(x, ys) {
            count += 1;
        }
    }
    count
}
