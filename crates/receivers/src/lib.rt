// The stages of a cycle at the nodes' memory outputs and at the clock: stray words, landings and receive units, and the period's turn.
#![tactic(auto)]

mod clock;
mod receiving;

pub use clock::{period_now, step_clock};
pub use receiving::{
    clear_landings, has_stray, has_stray_among, step_receivers, step_receivers_among,
};
