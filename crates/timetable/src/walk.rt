// The walk through a week from edge to edge: between two of them the schedule stays.
ghost use Rattle.std.specs.Prelude.{◌≡◌, ◌≤◌, ◌<◌};
ghost use Rattle.timetable.specs.Timetable.{week, schedule_in};
ghost use Rattle.timetable.specs.Inner.Edges.{EndedBefore, FirstBehind, next_edge, change_in};

use super::WEEK;
use super::windows::{Timetable, Window};

impl<'a> Timetable<'a> {
    // The first window that has not ended by a minute, from one on before which all have; past the last where all have.
    fn window_behind(&self, from: usize, minute: u32) -> usize
        requires { EndedBefore self.now.words.now minute from }
        ensures { FirstBehind self.now.words.now minute result }
    {
        let count = self.count();
        for k in from..count {
            if Window::at(self.words, k).end() > u64::from(minute) {
                return k;
            }
        }
        count
    }

    // The schedule of a minute, by the first window that has not ended by it: that window's, if it has started.
    fn schedule_by(&self, k: usize, minute: u32) -> u32
        requires { FirstBehind self.now.words.now minute k }
        ensures { result ≡ schedule_in self.now.words.now minute }
    {
        if k >= self.count() {
            return 0;
        }
        let window = Window::at(self.words, k);
        if window.start <= minute {
            window.schedule
        } else {
            0
        }
    }

    // The schedule of a minute.
    pub(super) fn schedule_in(&self, minute: u32) -> u32
        ensures { result ≡ schedule_in self.now.words.now minute }
    {
        self.schedule_by(self.window_behind(0, minute), minute)
    }

    // The least edge behind a minute, by the first window that has not ended by it: its start, if that is still to come, else its end.
    fn next_edge(&self, k: usize, minute: u32) -> u32
        requires { (minute < week) × FirstBehind self.now.words.now minute k }
        ensures { result ≡ next_edge self.now.words.now minute }
    {
        if k >= self.count() {
            return WEEK;
        }
        let window = Window::at(self.words, k);
        if minute < window.start {
            window.start
        } else {
            window.end() as u32
        }
    }

    // The first minute before another, from one on, whose schedule is not the one given. mode_at asks within a week.
    pub(super) fn first_change(&self, from: u32, to: u32, schedule: u32) -> Option<u32>
        requires { (from ≤ to) × (to ≤ week) }
        ensures { result ≡ change_in self.now.words.now from to schedule }
    {
        let mut window = 0;
        let mut at = from;
        // From edge to edge, and not from minute to minute: no range counts so.
        while at < to {
            window = self.window_behind(window, at);
            if self.schedule_by(window, at) != schedule {
                return Some(at);
            }
            at = self.next_edge(window, at);
        }
        None
    }
}
