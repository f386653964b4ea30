// Ethernet II frames, with tags of IEEE 802.1Q.
ghost use Rattle.std.specs.Prelude.{◌≡◌, ◌≤◌, true, false, length, Some, None, IfOk, IfErr, OnOk};
ghost use Rattle.headers.specs.Bytes.{half_at};
ghost use Rattle.headers.specs.Checks.{first_reason};
ghost use Rattle.headers.specs.Frame.{is_tag, untagged, is_cut, typed_part, tag_checks};
ghost use Rattle.headers.specs.declared.key.Reason.TheVariants.{Short};

use crate::Reason;
use crate::bytes::{behind, half_at};

// What the header has in front of its first type: two addresses of six bytes.
const ADDRESSES: usize = 12;

// The whole of a header without tags.
const HEADER: usize = 14;

// What a tag takes: its type, and two bytes with a priority and the number of a network.
const TAG: usize = 4;

// The bytes of a type.
const TYPE: usize = 2;

// The types of tags.
const CUSTOMER_TAG: u16 = 0x8100;

const PROVIDER_TAG: u16 = 0x88a8;

fn is_tag(ether_type: u16) -> bool
    ensures { result ≡ is_tag ether_type }
{
    ether_type == CUSTOMER_TAG || ether_type == PROVIDER_TAG
}

// Bytes that begin with a type, from their first type on that is no tag.
fn skip_tags(typed: &[u8]) -> Result<&[u8], Reason>
    requires { 2 ≤ length typed.now }
    ensures whole { OnOk result (is_cut (untagged typed.now) ≡ false) }
    ensures untagged { IfOk result (λ rest. rest.now ≡ untagged typed.now) }
    ensures cut { IfErr result (λ reason. (is_cut (untagged typed.now) ≡ true) × (reason ≡ Short)) }
{
    let mut rest = typed;
    while is_tag(half_at(rest, 0)) {
        if rest.len() < TAG + TYPE {
            return Err(Reason::Short);
        }
        rest = behind(rest, TAG);
    }
    Ok(rest)
}

// An Ethernet II frame from its type on: what stands behind the two addresses and behind the tags, of which there may be
// any number. The first two bytes are the type.
pub(crate) fn typed_part(frame: &[u8]) -> Result<&[u8], Reason>
    ensures lawful { OnOk result (first_reason (tag_checks frame.now) ≡ None) }
    ensures found { IfOk result (λ typed. typed.now ≡ typed_part frame.now) }
    ensures whole { IfOk result (λ typed. 2 ≤ length typed.now) }
    ensures refused { IfErr result (λ reason. first_reason (tag_checks frame.now) ≡ Some reason) }
{
    if frame.len() < HEADER {
        return Err(Reason::Short);
    }
    skip_tags(behind(frame, ADDRESSES))
}
