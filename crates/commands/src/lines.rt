// The lines that the program prints. They are composed in a fixed buffer, and take no memory.
ghost use Rattle.std.specs.Prelude.{◌≡◌, ◌≤◌, length};
ghost use Rattle.commands.specs.Sessions.{section_word, declaration_line};
ghost use Rattle.commands.specs.Trials.{counts_line};

use decl::Section;
use ports::fixed_line::{Line, first_word, push_decimal, push_word};

// The word of a section.
fn section_word(section: Section) -> &'static [u8]
    ensures word { result.now ≡ section_word section }
    ensures short { length result.now ≤ 48 }
{
    match section {
        Section::Top => b"top",
        Section::Hosts => b"hosts",
        Section::Labels => b"labels",
        Section::Links => b"links",
    }
}

/// The line that says what is wrong with a declaration: the number of its first fault, the section and the index there.
pub fn declaration_line(number: u32, section: Section, index: u32) -> Line
    ensures { result.items ≡ declaration_line number section index }
{
    let mut line = first_word(b"declaration");
    push_decimal(&mut line, u64::from(number));
    push_word(&mut line, section_word(section));
    push_decimal(&mut line, u64::from(index));
    line.push(b'\n');
    line
}

/// The line that counts the events and the messages of the trial with this number.
pub fn counts_line(number: u32, events: u64, messages: u64) -> Line
    ensures { result.items ≡ counts_line number events messages }
{
    let mut line = first_word(b"trial");
    push_decimal(&mut line, u64::from(number));
    push_word(&mut line, b"events");
    push_decimal(&mut line, events);
    push_word(&mut line, b"messages");
    push_decimal(&mut line, messages);
    line.push(b'\n');
    line
}
