// The names of events.
ghost use Rattle.std.specs.Prelude.{◌≡◌, ◌<◌, ◌++◌, ◌∷◌, length};
ghost use Rattle.atto.specs.Decimal.{decimal_of};
ghost use Rattle.problem_model.specs.Name.{IsClockName};
ghost use Rattle.decl.specs.Declaration.{HasLawfulLabels, declaration_of};
ghost use Rattle.traces.specs.Traces.{name_of};

use crate::EventId;
use arrayvec::ArrayVec;
use atto::{NsText, write_decimal};
use decl::Decl;
use problem_model::Name;

/// The name of the event of this number under a label: the label's name, `#`, and the number in decimal digits. A
/// label's name has at most 32 bytes, so it has at most 43.
pub fn event_name(label: &Name, number: u32) -> Name
    requires { IsClockName label.now }
    ensures { result ≡ label.now ++ 35 ∷ decimal_of number }
{
    let mut digits = NsText::new();
    write_decimal(u64::from(number), &mut digits);
    let mut text: ArrayVec<u8, 48> = ArrayVec::new();
    text.try_extend_from_slice(label.bytes()).unwrap();
    text.push(b'#');
    text.try_extend_from_slice(&digits).unwrap();
    Name::new(&text).unwrap()
}

/// The name of an event under the labels of a declaration.
pub fn name_of(decl: &Decl, id: EventId) -> Name
    requires labels { HasLawfulLabels (declaration_of decl.now) }
    requires label { id.label < length decl.now.labels.items }
    ensures { result ≡ name_of (declaration_of decl.now) id }
{
    let label = &decl.labels[id.label as usize];
    event_name(&label.name, id.number)
}
