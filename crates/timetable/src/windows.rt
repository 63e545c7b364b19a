// The windows of a timetable, and number 31.
ghost use Rattle.std.specs.Prelude.{◌≡◌, ◌+◌, ◌<◌, true, false, MatchResult};
ghost use Rattle.timetable.specs.Timetable.{windows, start_at, length_at, schedule_at, timetable_fits};
ghost use Rattle.timetable.specs.Inner.Windows.{fits, first_windows_fit};

use super::WEEK;
use refusal::Refusal;

// The most windows that a timetable has.
const MOST_WINDOWS: usize = 64;

// The greatest schedule that a window can name.
const LAST_SCHEDULE: u32 = 7;

// The words of a window: its starting minute, how many minutes it has, and its schedule.
#[derive(Clone, Copy)]
pub struct Window {
    pub start: u32,
    pub minutes: u32,
    pub schedule: u32,
}

impl Window {
    // Window k. Whoever reads a window has compared its number with how many there are.
    #[tactic(auto, unfolding(crate::specs::Timetable::windows, crate::specs::Timetable::start_at, crate::specs::Timetable::length_at, crate::specs::Timetable::schedule_at))]
    pub(super) fn at(words: &[u32], k: usize) -> Window
        requires { k < windows words.now }
        ensures start { result.start ≡ start_at words.now k }
        ensures minutes { result.minutes ≡ length_at words.now k }
        ensures schedule { result.schedule ≡ schedule_at words.now k }
    {
        Window {
            start: words[3 * k],
            minutes: words[3 * k + 1],
            schedule: words[3 * k + 2],
        }
    }

    // The first minute behind it, in 64 bits, so that the sum cannot wrap.
    pub(super) fn end(self) -> u64
        ensures { result ≡ self.start + self.minutes }
    {
        u64::from(self.start) + u64::from(self.minutes)
    }

    // It lies in the week, has a minute and names a schedule. A window that has a minute and ends within the week starts in it.
    fn fits(self) -> bool
        ensures { result ≡ fits self }
    {
        if self.minutes == 0 || self.end() > u64::from(WEEK) {
            return false;
        }
        self.schedule <= LAST_SCHEDULE
    }
}

// All windows fit, and each starts no earlier than the one before it has ended.
fn windows_fit(words: &[u32], count: usize) -> bool
    requires { count ≡ windows words.now }
    ensures { result ≡ first_windows_fit words.now count }
{
    let mut ended: u64 = 0;
    for k in 0..count {
        let window = Window::at(words, k);
        if u64::from(window.start) < ended || !window.fits() {
            return false;
        }
        ended = window.end();
    }
    true
}

// Number 31: the words are windows, few enough, and all fit and are in order.
fn timetable_fits(words: &[u32]) -> bool
    ensures { result ≡ timetable_fits words.now }
{
    let count = words.len() / 3;
    if words.len() % 3 != 0 || count > MOST_WINDOWS {
        return false;
    }
    windows_fit(words, count)
}

// The words of a timetable that fits.
#[derive(Clone, Copy)]
pub struct Timetable<'a> {
    pub words: &'a [u32],
    ghost valid: { timetable_fits words.now ≡ true },
}

impl<'a> Timetable<'a> {
    pub(super) fn new(words: &'a [u32]) -> Result<Timetable<'a>, Refusal>
        ensures { MatchResult result (λ t. t.words.now ≡ words.now) (λ e. (e ≡ Refusal.WrongTimetable) × (timetable_fits words.now ≡ false)) }
    {
        if !timetable_fits(words) {
            return Err(Refusal::WrongTimetable);
        }
        Ok(Timetable { words })
    }

    // How many windows there are.
    #[tactic(auto, unfolding(crate::specs::Timetable::windows))]
    pub(super) fn count(&self) -> usize
        ensures { result ≡ windows self.now.words.now }
    {
        self.words.len() / 3
    }
}
