//! Mailboxes between the parts of a diffusion.
#![tactic(auto)]

mod claims;
mod close;
mod exchange;
mod floor;
mod hints;
pub mod laws;
mod mailbox;
mod open;
mod plays;
mod seat;
mod steps;
mod table;
mod view;

pub use close::Closed;
pub use floor::Floor;
pub use hints::{Advertised, HintSource, Limit, limit_by};
pub use seat::Seat;
pub use table::FloorRule;
pub use view::{View, WordStep};
