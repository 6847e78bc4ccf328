//! A judge of what happened in an internetwork (ANSI/ASHRAE 135, clauses 5.4, 6.2, 9.3, 12, 15 and J.2): whether a
//! history is legal, and whether what was put out was said.
//!
//! It tells by plain means what the promise of the whole internetwork claims, and knows neither the promise's
//! definitions nor the code that it is made of: a history is a list of entries, and what was put out a list of
//! datagrams and frames. It stands on the objects of a device, and on what reads datagrams, headers and frames. To
//! whoever runs worlds it answers that all is as it should be, or the first thing that isn't. That it judges rightly,
//! rows show; proved is that it always answers.
//!
//! - `illegal`: what is wrong with a history.
//! - `order`: which entries stand behind which.
//! - `replies`: what devices replied, and what is left of their objects.
//! - `message`: what is inside a datagram or a frame.
//! - `carried`: whether that was said, and is heard in time.
//! - `ear`: which frames a station on a bus hears.
#![tactic(auto)]

mod carried;
mod ear;
mod illegal;
mod message;
mod order;
mod replies;

pub use carried::{Unsaid, is_in_time, judge_carry};
pub use ear::Ear;
pub use illegal::{Illegal, Objection};
pub use message::{Destination, Message, Sent, message_in};
pub use order::{HistoryEntry, judge_order};
pub use replies::{DeviceEnd, judge_history, judge_replies};
