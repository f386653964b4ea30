// Packets that are passed over: blocks that are skipped and counted.
ghost use Rattle.std.specs.Prelude.{◌≡◌, ◌≤◌, ◌^◌};
ghost use Rattle.packets.specs.Passed.{passed_count, passed_with};
ghost use Rattle.pcapng_stream.specs.Passed.{counted};

use packets::Passed;

// The types of blocks that are counted.
const SIMPLE_TYPE: u32 = 3;

const OBSOLETE_TYPE: u32 = 2;

const JOURNAL_TYPE: u32 = 9;

const EVENT_TYPE: u32 = 0x204;

const SECOND_EVENT_TYPE: u32 = 0x216;

const LARGE_EVENT_TYPE: u32 = 0x221;

const CUSTOM_TYPE: u32 = 0x0bad;

const UNCOPIED_CUSTOM_TYPE: u32 = 0x4000_0bad;

/// These and a block of this type, if it is one that is counted.
pub(crate) fn count_block(passed: Passed, block_type: u32) -> Passed
    requires { passed_count passed ≤ 2 ^ 30 }
    ensures { result ≡ passed_with passed (counted block_type) }
{
    match block_type {
        SIMPLE_TYPE => Passed {
            simple: passed.simple + 1,
            ..passed
        },
        OBSOLETE_TYPE => Passed {
            obsolete: passed.obsolete + 1,
            ..passed
        },
        JOURNAL_TYPE
        | EVENT_TYPE
        | SECOND_EVENT_TYPE
        | LARGE_EVENT_TYPE
        | CUSTOM_TYPE
        | UNCOPIED_CUSTOM_TYPE => Passed {
            other: passed.other + 1,
            ..passed
        },
        _ => passed,
    }
}
