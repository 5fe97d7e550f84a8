// The host of a day book: one input line in, its filled line and its statement lines out.
#![tactic(auto)]

mod desk;
mod host;
mod instruction;
mod places;
mod unread;

pub use host::Host;
