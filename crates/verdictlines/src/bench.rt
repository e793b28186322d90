// What a state shows, and what comes of an event and of what is shown, piece by piece.
ghost use Rattle.std.specs.Prelude.{◌≡◌};
ghost use Rattle.inplace.specs.Lists.{selector_at};
ghost use Rattle.verdictlines.specs.Bench.{shown_by, right_at, border_of, may_show, is_sound, closed_after, is_early, sets_sending, may_change_by, shows_after, happened_after, is_late, is_told};

use crate::Shows;
use crate::tell::capped;
use eventlog::LineRead;
use inplace::{SMALL, TIMES, WIDER, answer_at, codes_at};
use lane::{Lane, Tolerance};
use lanes::{View, answer_value};
use logline::NO_OPTION;
use numbers::kind::KIND_SENDING;

// The largest number that refuses an event and leaves the state.
const LAST_EARLY: u8 = 13;

// What a state shows.
pub fn shown_by(
    view: View,
    times: &[u64; TIMES],
    small: &[u8; SMALL],
    wider: &[u16; WIDER],
) -> Shows
    ensures { result ≡ shown_by view
        (selector_at times.now small.now wider.now) }
{
    let codes = codes_at(times, small, wider);
    let answer = answer_at(times, small, wider, 0);
    let value = answer_value(view, answer);
    Shows { codes, value }
}

// What is shown in a lane.
pub fn right_at(view: View, shows: Shows, number: usize) -> u64
    ensures { result ≡ right_at view shows number }
{
    if view.codes {
        let codes = shows.codes;
        if number < 16 {
            return codes[number] as u64;
        }
        return 0;
    }
    shows.value
}

// The millisecond up to which a lane is told what is right, before something is shown in it.
pub fn border_of(tolerance: Tolerance, time: u64) -> u64
    ensures { result ≡ border_of tolerance time }
{
    capped(time, tolerance.early)
}

// Whether something may be shown in a lane at a time: not before what was shown last.
fn may_show(lane: Lane, time: u64) -> bool
    ensures { result ≡ may_show lane time }
{
    lane.after <= time || capped(time, 1) == lane.after
}

// Whether a shown line is no trouble. Trouble is what nothing says by which option it is judged,
// what comes before what was shown last, and what comes after an event that it would have come
// before.
pub fn is_sound(option: u8, lane: Lane, time: u64, border: u64, happened: bool, last: u64) -> bool
    ensures { result ≡ is_sound option lane time border happened last }
{
    if option == NO_OPTION {
        return false;
    }
    if may_show(lane, time) {
        if happened {
            return last <= border;
        }
        return true;
    }
    false
}

// The millisecond behind which events have to come, after something was shown.
pub fn closed_after(closed: u64, border: u64) -> u64
    ensures { result ≡ closed_after closed border }
{
    if closed <= border {
        return capped(border, 1);
    }
    closed
}

// Whether a number refuses an event and leaves the state.
fn is_early(number: u8) -> bool
    ensures { result ≡ is_early number }
{
    number != 0 && number <= LAST_EARLY
}

// Whether a line says an event that sets what a port sends.
fn sets_sending(read: Option<LineRead>) -> bool
    ensures { result ≡ sets_sending read }
{
    let Some(line) = read else {
        return false;
    };
    line.event.kind == KIND_SENDING
}

// Whether an event line may change what shows: it is the first that says an option, its answer is
// made anew, or it sets what a port sends.
pub fn may_change(first: bool, anew: bool, read: Option<LineRead>) -> bool
    ensures { result ≡ may_change_by first anew read }
{
    if first {
        return true;
    }
    if anew {
        return true;
    }
    sets_sending(read)
}

// What a state shows after an event; what it showed before, where that may not have changed.
pub fn shows_after(
    view: View,
    changes: bool,
    before: Shows,
    times: &[u64; TIMES],
    small: &[u8; SMALL],
    wider: &[u16; WIDER],
) -> Shows
    ensures { result ≡ shows_after view changes before
        (selector_at times.now small.now wider.now) }
{
    if changes {
        return shown_by(view, times, small, wider);
    }
    before
}

// Whether an event has come that leaves its time, after one with a number.
pub fn happened_after(happened: bool, number: u8) -> bool
    ensures { result ≡ happened_after happened number }
{
    if is_early(number) {
        return happened;
    }
    true
}

// Whether an event is trouble: it is not refused at once, and comes before what was shown and
// `early` behind that.
pub fn is_late(number: u8, time: u64, closed: u64) -> bool
    ensures { result ≡ is_late number time closed }
{
    !is_early(number) && time < closed
}

// Whether the lanes are told what was right up to an event: one that may change what shows, is not
// refused at once, and is no trouble.
pub fn is_told(changes: bool, number: u8, late: bool) -> bool
    ensures { result ≡ is_told changes number late }
{
    if is_early(number) {
        return false;
    }
    if late {
        return false;
    }
    changes
}
