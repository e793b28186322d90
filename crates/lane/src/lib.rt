// One lane of what a card shows, judged within a tolerance. A lane is told, as time goes on, which
// value is right from when to when, and which value is shown; it answers each stretch of wrong
// milliseconds once another begins, and keeps the latest.
//
// Values are numbers of whatever meaning. `last` is the millisecond behind the last at which a
// value was right, 0 where it never was. Any numbers are answered for, no sum can wrap, and no
// public function has a `requires`.
#![tactic(auto)]

ghost use Rattle.std.specs.Prelude.{◌≡◌, ◌-◌};
ghost use Rattle.lane.specs.Lane.{bad_from, fresh_lane, wrong_from, wrong_until, goes_on, marked, first_after, over_at, shown_next, right_next, wrong_count};

// How late and how early a value may be shown, and the last millisecond that is judged.
#[derive(Clone, Copy)]
pub struct Tolerance {
    pub late: u64,
    pub early: u64,
    pub end: u64,
}

// Wrong milliseconds: the first, the one behind the last, and what was shown in the first. None
// where it ends where it starts.
#[derive(Clone, Copy)]
pub struct Stretch {
    pub from: u64,
    pub until: u64,
    pub value: u64,
}

// What is kept of a lane: the millisecond of the first thing shown; the one behind the last thing
// shown, 0 where nothing was; what was shown last; the millisecond up to which it is known what is
// right; the latest stretch; how many milliseconds those before it have.
#[derive(Clone, Copy)]
pub struct Lane {
    pub first: u64,
    pub after: u64,
    pub value: u64,
    pub reached: u64,
    pub stretch: Stretch,
    pub wrongms: u64,
}

// A lane after it was told something, and the stretch that is over by that.
#[derive(Clone, Copy)]
pub struct Judged {
    pub lane: Lane,
    pub ended: Stretch,
}

// No stretch.
const NONE: Stretch = Stretch {
    from: 0,
    until: 0,
    value: 0,
};

impl Stretch {
    // How many milliseconds it has.
    fn length(self) -> u64
        ensures { result ≡ self.until - self.from }
    {
        self.until.saturating_sub(self.from)
    }

    // Whether wrong milliseconds from here on go on with it.
    #[tactic(auto, unfolding(crate::specs::Lane::goes_on))]
    fn goes_on(self, from: u64) -> bool
        ensures { result ≡ goes_on self from }
    {
        self.from < self.until && from <= self.until
    }
}

// The first millisecond at which a value is not right any more, `late` after the last at which it
// was: 0 where it never was.
#[tactic(auto, unfolding(crate::specs::Lane::bad_from))]
fn bad_from(late: u64, last: u64) -> u64
    ensures { result ≡ bad_from late last }
{
    if last == 0 {
        0
    } else {
        last.saturating_add(late)
    }
}

// Where the wrong milliseconds from `start` on begin.
fn wrong_from(tolerance: Tolerance, last: u64, start: u64) -> u64
    ensures { result ≡ wrong_from tolerance last start }
{
    start.max(bad_from(tolerance.late, last))
}

// Where they are over, at `limit` or behind the last that is judged.
fn wrong_until(tolerance: Tolerance, limit: u64) -> u64
    ensures { result ≡ wrong_until tolerance limit }
{
    limit.min(tolerance.end.saturating_add(1))
}

// A lane after wrong milliseconds from `from` to before `until`: they go on with the latest
// stretch, or that one is over.
#[tactic(auto, unfolding(crate::specs::Lane::marked))]
fn marked(lane: Lane, from: u64, until: u64, value: u64) -> Judged
    ensures { result ≡ marked lane from until value }
{
    if until <= from {
        return Judged { lane, ended: NONE };
    }
    let stretch = lane.stretch;
    if stretch.goes_on(from) {
        let longer = Stretch {
            until: stretch.until.max(until),
            ..stretch
        };
        return Judged {
            lane: Lane {
                stretch: longer,
                ..lane
            },
            ended: NONE,
        };
    }
    Judged {
        lane: Lane {
            stretch: Stretch { from, until, value },
            wrongms: wrong_count(lane),
            ..lane
        },
        ended: stretch,
    }
}

// A lane of which nothing is known.
pub fn fresh_lane() -> Lane
    ensures { result ≡ fresh_lane }
{
    Lane {
        first: 0,
        after: 0,
        value: 0,
        reached: 0,
        stretch: NONE,
        wrongms: 0,
    }
}

// The millisecond of the first thing shown, after one more.
#[tactic(auto, unfolding(crate::specs::Lane::first_after))]
fn first_after(lane: Lane, time: u64) -> u64
    ensures { result ≡ first_after lane time }
{
    if lane.after == 0 { time } else { lane.first }
}

// A lane after a value was shown, where it is known what is right up to `early` behind that time;
// `last` is the shown value's.
#[tactic(auto, unfolding(crate::specs::Lane::shown_next))]
pub fn shown(tolerance: Tolerance, lane: Lane, last: u64, time: u64, value: u64) -> Judged
    ensures { result ≡ shown_next tolerance lane last time value }
{
    let from = wrong_from(tolerance, last, time);
    let after = time.saturating_add(1);
    let until = wrong_until(tolerance, after);
    let told = Lane {
        first: first_after(lane, time),
        after,
        value,
        ..lane
    };
    marked(told, from, until, value)
}

// Up to where the value that stands can be wrong: to where it is right itself.
#[tactic(auto, unfolding(crate::specs::Lane::over_at))]
fn over_at(standing: u64, from: u64, to: u64, value: u64) -> u64
    ensures { result ≡ over_at standing from to value }
{
    if standing == value { from } else { to }
}

// A lane after it is known that `value` is right from `from` to `to`, both included; `last` is of
// the value that stands.
#[tactic(auto, unfolding(crate::specs::Lane::right_next))]
pub fn right(tolerance: Tolerance, lane: Lane, last: u64, from: u64, to: u64, value: u64) -> Judged
    ensures { result ≡ right_next tolerance lane last from to value }
{
    let known = Lane {
        reached: to,
        ..lane
    };
    if lane.after == 0 {
        return Judged {
            lane: known,
            ended: NONE,
        };
    }
    let start = lane.after.max(lane.reached.saturating_sub(tolerance.early));
    let over = over_at(lane.value, from, to, value);
    let limit = over.saturating_sub(tolerance.early);
    let begin = wrong_from(tolerance, last, start);
    let until = wrong_until(tolerance, limit);
    marked(known, begin, until, lane.value)
}

// How many milliseconds are wrong, the latest stretch included.
pub fn wrong_count(lane: Lane) -> u64
    ensures { result ≡ wrong_count lane }
{
    lane.wrongms.saturating_add(lane.stretch.length())
}
