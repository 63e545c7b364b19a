// The weekly timetable: which schedule belongs to a minute of the week, and when that changes next (document 02, L13).
#![tactic(auto)]

mod walk;
mod windows;

ghost use Rattle.std.specs.Prelude.{◌≡◌};
ghost use Rattle.refusal.specs.Numbers.{numbered};
ghost use Rattle.timetable.specs.Timetable.{hours_answer};

use refusal::Refusal;
use windows::Timetable;

// The minutes of a week.
pub const WEEK: u32 = 10080;

// The schedule of a minute, until it differs at a minute of the week, or for always.
#[derive(Clone, Copy, Debug, PartialEq, Eq)]
pub enum Hours {
    Until { schedule: u32, minute: u32 },
    Always(u32),
}

// The schedule of a minute, and the next minute of the week at which it differs: in this week, or up to the same minute of the next.
pub fn mode_at(list: &[u32], minute: u32) -> Result<Hours, Refusal>
    ensures { numbered result ≡ hours_answer list.now minute }
{
    let timetable = Timetable::new(list)?;
    if minute >= WEEK {
        return Err(Refusal::MinuteOutOfRange);
    }
    let schedule = timetable.schedule_in(minute);
    if let Some(this_week) = timetable.first_change(minute, WEEK, schedule) {
        return Ok(Hours::Until {
            schedule,
            minute: this_week,
        });
    }
    if let Some(next_week) = timetable.first_change(0, minute, schedule) {
        return Ok(Hours::Until {
            schedule,
            minute: next_week,
        });
    }
    Ok(Hours::Always(schedule))
}
