// Replies of sessions.

/// The report on nothing.
pub const EMPTY_REPORT: &str =
    "{\"ambiguous\":[],\"consistent\":true,\"events\":0,\"messages\":0,\"nokey\":{\"fragment\":0,\"header\":0,\"length\":0,\"link\":0,\"local\":0,\"other\":0,\"short\":0,\"side\":0},\"unmatched\":0}\n";

/// Replies, one behind another: each is a text, or `added(2, 0, 0, 0)`, the reply to an addition by which so many events
/// and messages came, so many messages were withdrawn and so many bytes wait. Behind the numbers may stand `passed 3`,
/// where so many packets were passed over, or `inconsistent`.
#[macro_export]
macro_rules! replies {
    (@ [$($made:tt)*] $(,)?) => { concat!($($made)*) };
    (@ [$($made:tt)*] ending [], $($rest:tt)*) => {
        $crate::replies!(@ [$($made)* " consistent\n",] $($rest)*)
    };
    (@ [$($made:tt)*] ending [inconsistent], $($rest:tt)*) => {
        $crate::replies!(@ [$($made)* " inconsistent\n",] $($rest)*)
    };
    (@ [$($made:tt)*] ending [passed $packets:tt], $($rest:tt)*) => {
        $crate::replies!(@ [$($made)* " passed ", $packets, " consistent\n",] $($rest)*)
    };
    (@ [$($made:tt)*] added($events:tt, $messages:tt, $withdrawn:tt, $pending:tt $(, $($end:tt)+)?), $($rest:tt)*) => {
        $crate::replies!(
            @ [
                $($made)*
                "added events ", $events, " messages ", $messages, " withdrawn ", $withdrawn, " pending ", $pending,
            ]
            ending [$($($end)+)?], $($rest)*
        )
    };
    (@ [$($made:tt)*] $text:tt, $($rest:tt)*) => {
        $crate::replies!(@ [$($made)* $text,] $($rest)*)
    };
    ($($replies:tt)+) => { $crate::replies!(@ [] $($replies)+,) };
}

/// The reply to an addition, alone.
#[macro_export]
macro_rules! added {
    ($($words:tt)+) => { $crate::replies!(added($($words)+)) };
}
