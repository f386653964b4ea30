// Lines and words: slices of the bytes that they are cut from.
ghost use Rattle.std.specs.Prelude.{◌≡◌};
ghost use Rattle.line_format.specs.Cut.{cut, fields, seen_cut, seen_three, seen_four, seen_five};

/// What stands before and after the first byte `d`, or None where there is none.
pub fn cut(d: u8, bytes: &[u8]) -> Option<(&[u8], &[u8])>
    ensures { seen_cut result ≡ cut d bytes.now }
{
    for (k, b) in bytes.iter().enumerate() {
        if *b == d {
            return Some((&bytes[..k], &bytes[k + 1..]));
        }
    }
    None
}

/// The bytes before the first space, those before the second, and what is left, or None with fewer spaces.
#[tactic(auto, unfolding(crate::specs::Cut::fields))]
pub fn three_words(line: &[u8]) -> Option<(&[u8], &[u8], &[u8])>
    ensures { seen_three result ≡ fields 2 line.now }
{
    let (a, rest) = cut(b' ', line)?;
    let (b, c) = cut(b' ', rest)?;
    Some((a, b, c))
}

/// The bytes before each of the first three spaces, and what is left, or None with fewer spaces.
#[tactic(auto, unfolding(crate::specs::Cut::fields))]
pub fn four_words(line: &[u8]) -> Option<(&[u8], &[u8], &[u8], &[u8])>
    ensures { seen_four result ≡ fields 3 line.now }
{
    let (a, rest) = cut(b' ', line)?;
    let (b, rest) = cut(b' ', rest)?;
    let (c, d) = cut(b' ', rest)?;
    Some((a, b, c, d))
}

/// The bytes before each of the first four spaces, and what is left, or None with fewer spaces.
#[tactic(auto, unfolding(crate::specs::Cut::fields))]
pub fn five_words(line: &[u8]) -> Option<(&[u8], &[u8], &[u8], &[u8], &[u8])>
    ensures { seen_five result ≡ fields 4 line.now }
{
    let (a, rest) = cut(b' ', line)?;
    let (b, rest) = cut(b' ', rest)?;
    let (c, rest) = cut(b' ', rest)?;
    let (d, e) = cut(b' ', rest)?;
    Some((a, b, c, d, e))
}
