// Why a sheet or a call is refused (docs/INTERFACE.md): each reason has a number, and the first that applies is answered.
#![tactic(auto)]

ghost use Rattle.std.specs.Prelude.{◌≡◌};
ghost use Rattle.refusal.specs.Numbers.{refusal_number, number_of};

use std::error::Error;
use std::fmt;

// The reasons, in the order in which they are looked for; load looks for 26 right behind 11.
#[derive(Clone, Copy, Debug, PartialEq, Eq)]
pub enum Refusal {
    // The sheet has fewer words than its head.
    HeadMissing = 1,
    // A number of the head is out of range.
    HeadOutOfRange = 2,
    // The schedules do not fill the sheet to its end, or one states too many entries.
    WrongLength = 3,
    // A circuit's node does not exist, its nodes are equal, or a region of it is empty or leaves the memory.
    WrongCircuit = 4,
    // The circuits do not ascend.
    CircuitsUnordered = 5,
    // A receive region shares a word with another region.
    RegionsOverlap = 6,
    // A period or a part of an entry is out of range.
    EntryOutOfRange = 7,
    // The entries of a schedule do not ascend.
    EntriesUnordered = 8,
    // A route does not lead to its circuit's destination by a shortest way.
    WrongRoute = 9,
    // A packet is under way when the next period's could be.
    EndsTooLate = 10,
    // Two entries of a schedule use one wire in one cycle.
    WireTaken = 11,
    StateTooShort = 12,
    StateUnsound = 13,
    WrongMemory = 14,
    // What is named does not exist, or is too wide for its field.
    DoesNotExist = 15,
    // The words of a transfer are none, too many for an interrupt, or leave the circuit's regions.
    WrongCount = 16,
    // Words of the circuit are left, or have not landed.
    CircuitBusy = 17,
    OrderPending = 18,
    // The period of an order is not ahead, or not far enough.
    PeriodNotAhead = 19,
    // Words meet in a cycle, or lose their way.
    CycleAtFault = 20,
    // A list of transfers is longer than its answers or than is taken, or its parts are not equally long.
    WrongList = 21,
    // A circuit has no entry in any schedule.
    CircuitUnserved = 26,
    WrongTimetable = 31,
    // The week does not have the minute.
    MinuteOutOfRange = 32,
}

impl Refusal {
    // The number of the reason.
    pub fn number(self) -> u32
        ensures { result ≡ refusal_number self }
    {
        self as u32
    }
}

impl fmt::Display for Refusal {
    fn fmt<W: fmt::Write>(&self, f: &mut fmt::Formatter<W>) -> fmt::Result {
        write!(f, "refused {}", self.number())
    }
}

impl Error for Refusal {}

// The number of an answer without a value: 0 where nothing was refused.
pub fn number_of(answer: Result<(), Refusal>) -> u32
    ensures { result ≡ number_of answer }
{
    match answer {
        Ok(()) => 0,
        Err(refusal) => refusal.number(),
    }
}
