// Keys that stand alone: they are sent and received, and never in one group.
ghost use Rattle.std.specs.Prelude.{◌≡◌, ◌≤◌, List, length, filter, option_map, IfOk, OnOk};
ghost use Rattle.std.specs.List.{list_any};
ghost use Rattle.problem_model.specs.Limits.{most_items};
ghost use Rattle.decl.specs.Declaration.{declaration_of};
ghost use Rattle.traces.specs.Seen.{Seen, is_same_message, message_of};
ghost use Rattle.traces.specs.Traces.{events_of};
ghost use Rattle.traces.specs.Windows.{grouped};
ghost use Rattle.traces.specs.declared.event_id.EventId.{EventId};
ghost use Rattle.msg_match.specs.Held.{seen_group, seen_groups};
ghost use Rattle.msg_match.specs.Ends.{AreEndsBy, ends_among};
ghost use Rattle.report.specs.Alone.{alone_among};
ghost use Rattle.report.specs.Groups.{has, is_apart, messages_apart, messages_in, noted, with_message};

use decl::Decl;
use interner::Places;
use msg_match::{Group, Matcher};
use std::alloc::{AllocError, Global};
use traces::MessageKey;

/// Which events a group is to have.
#[derive(Clone, Copy)]
pub(crate) enum Having {
    /// Some that send.
    Sends,
    /// Some that receive.
    Receives,
    /// Some that send, and some that receive.
    Both,
}

// Whether a group has such events.
fn has(group: &Group, having: Having) -> bool
    ensures { result ≡ has having (seen_group group.now) }
{
    match having {
        Having::Sends => !group.sends.is_empty(),
        Having::Receives => !group.receives.is_empty(),
        Having::Both => !group.sends.is_empty() && !group.receives.is_empty(),
    }
}

// Whether a message is among these.
fn is_among<'a>(messages: &Places<&'a MessageKey>, message: &'a MessageKey) -> bool
    ensures { result ≡ list_any (is_same_message (message_of message.now)) (noted messages.now) }
{
    messages.place(&message).is_some()
}

// Appends a message that is to be noted, unless it is there; an error where memory runs out.
fn note<'a>(
    messages: &mut Places<&'a MessageKey>,
    message: &'a MessageKey,
    is_wanted: bool,
) -> Result<(), AllocError>
    ensures { OnOk result (noted messages.new ≡ with_message is_wanted (noted messages.old) (message_of message.now)) }
{
    if is_wanted && !is_among(messages, message) {
        messages.push(message)?;
    }
    Ok(())
}

// The messages of the groups that have such events, each once; an error where memory runs out.
fn messages_with<'a>(
    alloc: Global,
    groups: &'a [Group],
    having: Having,
) -> Result<Places<&'a MessageKey>, AllocError>
    ensures { IfOk result (λ messages. noted messages ≡ messages_in (filter (has having) (seen_groups groups.now))) }
{
    let mut messages = Places::new(alloc);
    for group in groups {
        note(&mut messages, &group.key.message, has(group, having))?;
    }
    Ok(messages)
}

// Whether a group sends, and its message is among those that are received and not among those that meet.
fn is_apart<'a>(
    group: &'a Group,
    received: &Places<&'a MessageKey>,
    met: &Places<&'a MessageKey>,
) -> bool
    ensures { result ≡ is_apart (noted received.now) (noted met.now) (seen_group group.now) }
{
    let message = &group.key.message;
    has(group, Having::Sends) && is_among(received, message) && !is_among(met, message)
}

// The messages of the groups that stand apart so, each once; an error where memory runs out.
fn messages_apart<'a>(
    alloc: Global,
    groups: &'a [Group],
    received: &Places<&'a MessageKey>,
    met: &Places<&'a MessageKey>,
) -> Result<Places<&'a MessageKey>, AllocError>
    ensures { IfOk result (λ messages. noted messages ≡ messages_in (filter (is_apart (noted received.now) (noted met.now)) (seen_groups groups.now))) }
{
    let mut messages = Places::new(alloc);
    for group in groups {
        note(
            &mut messages,
            &group.key.message,
            is_apart(group, received, met),
        )?;
    }
    Ok(messages)
}

// How many messages stand alone among groups; an error where memory runs out.
fn count_alone(alloc: Global, groups: &[Group]) -> Result<usize, AllocError>
    ensures { IfOk result (λ count. count ≡ length (messages_apart (seen_groups groups.now))) }
{
    let received = messages_with(alloc, groups, Having::Receives)?;
    let met = messages_with(alloc, groups, Having::Both)?;
    let apart = messages_apart(alloc, groups, &received, &met)?;
    Ok(apart.len())
}

/// How many keys stand alone, where a window is declared, and None where none is; an error where memory runs out.
///
/// For n groups the time goes by n log n. Memory is taken for references to their keys alone, at most three to each, with 8
/// bytes besides; where no window is declared, none is taken.
pub(crate) fn keys_alone(
    alloc: Global,
    decl: &Decl,
    matcher: &Matcher,
) -> Result<Option<u32>, AllocError>
    requires { length matcher.now ≤ most_items }
    ensures { (ids : List EventId) (seen : List (List Seen)) → AreEndsBy ids matcher.now seen
        → IfOk result (λ alone. alone ≡ option_map (λ window. alone_among (ends_among (grouped (events_of seen)))) (declaration_of decl.now).window) }
{
    if decl.window.is_none() {
        return Ok(None);
    }
    let count = count_alone(alloc, matcher.all_groups())?;
    Ok(Some(count as u32))
}
