// A tick in portions, for firmware that can't wait for 48 due moments: a call serves few of them,
// each by a tick at its own time, and says whether more is to come. The last portion makes the tick
// at the time itself. A tick on the way changes no later state, so what is left then is what the
// tick at once would have left.
ghost use Rattle.std.specs.Prelude.{◌≡◌};
ghost use Rattle.due.specs.Next.{next_due};
ghost use Rattle.onestep.specs.Watched.{watch_at};
ghost use Rattle.card.specs.Part.{tick_lent, at_least_one, part_served, part_lent, more_lent};

use crate::make_ranged;
use frame::FrameRead;
use inplace::{SMALL, TIMES, WIDER, next_due};
use numbers::kind::KIND_TICK;
use numbers::{Event, TIME_LIMIT};
use onestep::watch::{DUE, TOLD, step_watch};

// A tick.
fn tick_at(
    times: &mut [u64; TIMES],
    small: &mut [u8; SMALL],
    wider: &mut [u16; WIDER],
    due: &mut [u64; DUE],
    told: &mut [u8; TOLD],
    time: u64,
)
    ensures { watch_at times.new small.new wider.new due.new
        told.new ≡
        tick_lent
        (watch_at times.old small.old wider.old
        due.old told.old)
        time }
{
    let event = Event {
        kind: KIND_TICK,
        time,
        input: 0,
        argument: 0,
    };
    make_ranged(times, small, wider, due, told);
    step_watch(times, small, wider, due, told, event, FrameRead::Code(0));
}

// How many moments a portion serves: one at least, so that each call comes further.
#[tactic(auto, unfolding(crate::specs::Part::at_least_one))]
fn at_least_one(most: u8) -> u8
    ensures { result ≡ at_least_one most }
{
    if most == 0 {
        return 1;
    }
    most
}

// Serves at most so many of the moments that are due by a time; when something is next due then.
fn serve_part(
    times: &mut [u64; TIMES],
    small: &mut [u8; SMALL],
    wider: &mut [u16; WIDER],
    due: &mut [u64; DUE],
    told: &mut [u8; TOLD],
    time: u64,
    most: u8,
) -> u64
    ensures { (watch_at times.new small.new wider.new due.new
        told.new ≡
        part_served most
        (watch_at times.old small.old wider.old
        due.old told.old)
        time) ×
        (result ≡ next_due
        (watch_at times.new small.new wider.new due.new
        told.new).state) }
{
    let mut next = next_due(times, small, wider);
    for _count in 0..most {
        if time < next {
            return next;
        }
        tick_at(times, small, wider, due, told, next);
        next = next_due(times, small, wider);
    }
    next
}

// A portion of a tick: at most so many due moments, and where none is left the time itself. 1 where
// more is to come, 0 where the tick has been made. A time at or above 2^48 serves none, and is
// refused.
pub fn tick_part(
    times: &mut [u64; TIMES],
    small: &mut [u8; SMALL],
    wider: &mut [u16; WIDER],
    due: &mut [u64; DUE],
    told: &mut [u8; TOLD],
    time: u64,
    most: u8,
) -> u32
    ensures { (watch_at times.new small.new wider.new due.new
        told.new ≡
        part_lent most
        (watch_at times.old small.old wider.old
        due.old told.old)
        time) ×
        (result ≡ more_lent most
        (watch_at times.old small.old wider.old
        due.old told.old)
        time) }
{
    if TIME_LIMIT <= time {
        tick_at(times, small, wider, due, told, time);
        return 0;
    }
    let limit = at_least_one(most);
    let next = serve_part(times, small, wider, due, told, time, limit);
    if next <= time {
        return 1;
    }
    tick_at(times, small, wider, due, told, time);
    0
}
