//! Sessions: commands line by line, and a reply to each.
//!
//! A session stands over a declaration. `add LABEL PATH` adds the file at a path to a label; `interval EVENT EVENT`,
//! `order EVENT EVENT` and `prove EVENT EVENT` ask about two events, and `time EVENT` about one; `merge` writes all
//! events in one order, `problem` the problem of all that was added, `report` what there is to say of its events, and
//! `blame` by how much each of its bounds has to be wider so that it alone heals a contradiction; `thin EVENT..` writes a
//! smaller problem that says the same of some events. Every line has one reply: an answer, or `refused` with a number.
//!
//! Between two lines the graph of all that was added stands ready with what is known of it, and questions are answered from
//! it. An addition brings its events and its messages into that graph, and only what they change of values and rows is
//! worked out. Where a contradiction that was held goes, all values and rows are made anew, and so are the rows of the
//! source when its first reading comes. `keep EVENT` has the distances of an event made ready too.
//!
//! `script` has a session over the lines of a script: each line gets its reply, up to the end of the script or the
//! first fault.
#![tactic(auto)]

mod accepted;
mod added_pieces;
mod addition;
mod answers;
mod blames;
mod counts;
mod ended;
mod held;
mod kept_events;
mod kept_packets;
mod labels;
mod limits;
mod lines;
mod packet_times;
mod pieces;
mod reports;
mod script;
mod session;
mod since;
mod starts;
mod thins;

pub use ended::Ended;
pub use kept_packets::AddAnswer;
pub use queries::Stop;
pub use replies::{
    RefusedText, commands_are_one, outputs_are_one, proofs_are_one, reads_are_one, replies_are_one,
    sessions_are_lawful, too_long_text,
};
pub use script::answer_script;
pub use session::Session;
