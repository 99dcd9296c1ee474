//! The rule over the words: a ticket lock around a machine's value, a word and a stamp for each image, ten buffers for what is published, and
//! one history of all calls, which the proofs alone keep. It knows the calls on cells and the wait for an image; when a call is ready it knows by laws of the model alone.
#![tactic(auto)]

mod beside;
mod held;
mod plays;
mod rule;
mod table;
mod view;

pub use beside::{Bell, Beside, Door};
pub use held::Held;
pub use plays::{
    Change, Claim, Claiming, Cut, Draw, Enter, Find, GiveBack, Join, Keep, Leave, Look, Make,
    Making, Note, Noting, Peek, Peeking, Read, Search, Serve, Swap,
};
pub use rule::{BUFFERS, Layout, NO_COUNT, XrRule, XrSeat, XrTable};
pub use table::Finished;
pub use view::View;
