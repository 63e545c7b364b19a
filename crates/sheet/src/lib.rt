// The sheet: its parts, and the rules 1 to 8 (document 01, "The sheet", "Refusals") and 26 (document 02, L8).
#![tactic(auto)]

mod circuits;
mod entries;
mod frame;
mod head;
mod served;

pub use circuits::{Circuit, Circuits, Region};
pub use entries::Entry;
pub use frame::{
    Frame, SHEET_WORDS, entries_of, keeps_rule1, keeps_rule2, keeps_rule3, schedule_place,
};
pub use head::{
    circuits_of, columns_of, grid_of, is_long, memory_of, nodes_of, rows_of, schedules_of,
    whole_memory_of,
};
pub use served::keeps_rule26;
