// The session: its calls and their answers.
#![tactic(auto, using(crate::proofs::AnswerLaws::numbers))]

mod cycling;
mod loading;
mod reading;
mod writing;

pub use cycling::{cycle, cycle_live, cycle_sound, live_now, rest};
pub use loading::load;
pub use reading::{
    check_memory, check_state, fetch, landing_at, period_number, what_landed, words_left,
};
pub use refusal::{Refusal, number_of};
pub use writing::{order, start, start_sound, store};

// A transfer of a list: on which circuit, where its words are read and written, how many they are, and their kind. Hosts lend these five
// words in this order.
#[repr(C)]
#[derive(Clone, Copy)]
pub struct Transfer {
    pub circuit: u32,
    pub read: u32,
    pub write: u32,
    pub count: u32,
    pub kind: u32,
}

// A word that landed at a node in the last cycle.
#[derive(Clone, Copy)]
pub struct Landed {
    pub kind: u32,
    pub address: u32,
    pub word: u32,
}
