//! One diffusing computation over a list of events, after Dijkstra and Scholten.
//!
//! A `Core` holds the state of a diffusion: labels of vertices, and on each arc nothing, a message,
//! an engagement or a signal. Messages are delivered and signals accepted in any order; when the
//! signal on arc 0 has been accepted the diffusion has ended, and each label is the best value of a
//! walk. An event costs the arcs that it sends along.
#![tactic(auto)]

mod arcs;
mod core_tables;
mod event;
mod idle;
mod item;
mod laws;
mod running;
mod token;
mod values;

pub use arcs::{ENTRY, head_of, tail_of};
pub use event::Event;
pub use item::Item;
pub use laws::{
    a_run_is_never_stuck, best_first_sends_once_an_arc, ended_runs_are_best,
    ended_totals_are_equal, every_diffusion_can_end, every_run_is_finite, every_run_is_sound,
    every_schedule_ends, labels_are_values_of_simple_walks, messages_follow_label_changes,
    reach_sends_once_an_arc, roads_hold,
};
pub use running::{Core, NoMessage, NoSignal};
pub use token::Token;
pub use values::{extended, improves, is_same};
