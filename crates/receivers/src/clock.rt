// The clock's row: the cycle, the period counter, and the order that a new period may carry out.
ghost use Rattle.std.specs.Prelude.{◌≡◌, []};
ghost use Rattle.sheet.specs.Sheet.{period};
ghost use Rattle.network.specs.Cycle.{next_number};
ghost use Rattle.network.specs.Registers.{reg as reg_of, sheet_in, clock_row, number_place, in_force_place, clock_words};
ghost use Rattle.network.specs.Inner.Machine.{turns, is_due, next_in_row};
ghost use Rattle.network.specs.Inner.Stages.{stage};
ghost use Rattle.receivers.specs.Inner.Required.{Clocked};
ghost use Rattle.receivers.specs.Inner.Written.{clock_put};

use network::{
    CLOCK_ROW, CYCLE_PLACE, IN_FORCE_PLACE, NUMBER_PLACE, ORDER_MARK_PLACE, ORDER_PERIOD_PLACE,
    ORDER_SCHEDULE_PLACE, put_reg, reg,
};
use sheet::Frame;

// The period of the schedule in force. A sound state meets the requires, here and below.
pub fn period_now(s: &[u32]) -> u32
    requires { Clocked s.now }
    ensures { result ≡ period (sheet_in s.now) (reg_of s.now clock_row in_force_place) }
{
    let frame = Frame {
        words: network::sheet_of(s),
    };
    frame.schedule_period(reg(s, CLOCK_ROW, IN_FORCE_PLACE))
}

// The order is due: the period turns, and the order is for the new one. step_clock hands on what it has worked out.
fn is_due(s: &[u32], turning: bool, number: u32) -> bool
    requires { (turning ≡ turns s.now) × (number ≡ next_number (reg_of s.now clock_row number_place)) }
    ensures { result ≡ is_due s.now }
{
    turning
        && reg(s, CLOCK_ROW, ORDER_MARK_PLACE) != 0
        && reg(s, CLOCK_ROW, ORDER_PERIOD_PLACE) == number
}

// Sets the cycle, the number of the period, the schedule in force and the order's mark.
fn put_clock(s: &mut [u32], cycle: u32, number: u32, schedule: u32, mark: u32)
    ensures { s.new ≡ clock_put s.old cycle number schedule mark }
{
    put_reg(s, CLOCK_ROW, CYCLE_PLACE, cycle);
    put_reg(s, CLOCK_ROW, NUMBER_PLACE, number);
    put_reg(s, CLOCK_ROW, IN_FORCE_PLACE, schedule);
    put_reg(s, CLOCK_ROW, ORDER_MARK_PLACE, mark);
}

// The clock's row after a cycle, in place: behind a period's last cycle the period counter is advanced by wrapping add, and an
// order for the new period puts its schedule in force. The cycle calls it on a sound state, so that the test of the length is never met; with
// it a compiler leaves out one at each access.
pub fn step_clock(s: &mut [u32])
    requires { Clocked s.old }
    ensures { s.new ≡ stage clock_row clock_row clock_words (next_in_row s.old []) s.old }
{
    if s.len() < network::MOVING_WORDS {
        return;
    }
    let period = period_now(s);
    let cycle = reg(s, CLOCK_ROW, CYCLE_PLACE) + 1;
    let turning = cycle == period;
    let number = reg(s, CLOCK_ROW, NUMBER_PLACE);
    let after = number.wrapping_add(1);
    let due = is_due(s, turning, after);
    let ordered = reg(s, CLOCK_ROW, ORDER_SCHEDULE_PLACE);
    let in_force = reg(s, CLOCK_ROW, IN_FORCE_PLACE);
    let order_mark = reg(s, CLOCK_ROW, ORDER_MARK_PLACE);
    let schedule = if due { ordered } else { in_force };
    let mark = if due { 0 } else { order_mark };
    let next_cycle = if turning { 0 } else { cycle };
    let next_number = if turning { after } else { number };
    put_clock(s, next_cycle, next_number, schedule, mark);
}
