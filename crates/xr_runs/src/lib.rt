//! What both ways to run a scenario share: which scenarios can be run, what a run of one is, what is kept of a device and of a
//! compositor, and how much a script's call is lent. It makes no call.
#![tactic(auto)]

use xr_types::MOST_CAPACITY;

/// How many bytes a call of a script is lent at most: the largest `capacity` of the format.
pub const MOST_LENT: usize = MOST_CAPACITY as usize;
