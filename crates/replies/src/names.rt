// Names of events in a line.
ghost use Rattle.std.specs.Prelude.{◌≡◌, ◌↔◌, ◌∷◌, [], IsTrue, IfSome, IfNone, All};
ghost use Rattle.std.specs.Int.{IsInRange};
ghost use Rattle.replies.specs.Commands.{IsWord, names_seen, spaced, words_in};

use line_format::cut;

/// Names of events, as a line has them: words of bytes from 33 to 126, with a space between each two. There may be none.
#[derive(Clone, Copy, Debug)]
pub struct Names<'a> {
    // The words; None where there are none.
    text: Option<&'a [u8]>,
}

fn are_visible(word: &[u8]) -> bool
    ensures { IsTrue result ↔ All (λ b. IsInRange 33 126 b) word.now }
{
    word.iter().all(|b| b.is_ascii_graphic())
}

// Whether these bytes may be a word of a command.
pub(crate) fn is_word(word: &[u8]) -> bool
    ensures { IsTrue result ↔ IsWord word.now }
{
    if word.is_empty() {
        return false;
    }
    are_visible(word)
}

// Whether what stands before, between and behind the spaces of a text may be words of a command.
fn are_words(text: &[u8]) -> bool
    ensures { IsTrue result ↔ All IsWord (spaced text.now) }
{
    let mut rest = text;
    while let Some((word, more)) = cut(b' ', rest) {
        if !is_word(word) {
            return false;
        }
        rest = more;
    }
    is_word(rest)
}

// The first word of a text, and those behind it.
fn first_word(text: &[u8]) -> (&[u8], Option<&[u8]>)
    ensures { spaced text.now ≡ result.0.now ∷ words_in result.1 }
{
    match cut(b' ', text) {
        Some((first, more)) => (first, Some(more)),
        None => (text, None),
    }
}

impl<'a> Names<'a> {
    // No names.
    pub(crate) fn none() -> Names<'a>
        ensures { names_seen result ≡ [] }
    {
        Names { text: None }
    }

    // The names in a text; None where some are no words of a command.
    pub(crate) fn of_text(text: &'a [u8]) -> Option<Names<'a>>
        ensures some { IfSome result (λ names. (names_seen names ≡ spaced text.now) × All IsWord (spaced text.now)) }
        ensures none { IfNone result (All IsWord (spaced text.now) → ⊥) }
    {
        if are_words(text) {
            Some(Names { text: Some(text) })
        } else {
            None
        }
    }

    /// The first name, and those behind it; None where there are none.
    pub fn split_first(&self) -> Option<(&'a [u8], Names<'a>)>
        ensures some { IfSome result (λ r. names_seen self.now ≡ r.0.now ∷ names_seen r.1) }
        ensures none { IfNone result (names_seen self.now ≡ []) }
    {
        match self.text {
            Some(text) => {
                let (first, text) = first_word(text);
                Some((first, Names { text }))
            }
            None => None,
        }
    }
}
