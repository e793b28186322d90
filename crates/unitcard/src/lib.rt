// The station clock unit in C's hands: document 02, L13. Five arrays of numbers for each half, as a
// card has them, and three octets for the station output, lent by C and changed in place.
// `exports` has what C calls; the header is include/nurrispane.h.
//
// The numbers in the arrays may be anything that their types hold: any are safe, and the inputs that
// a unit names after a step are 0 to 15 or 255. No public function has a `requires`.
#![tactic(auto)]

pub mod exports;

ghost use Rattle.std.specs.Prelude.{◌≡◌};
ghost use Rattle.selector.specs.State.{fresh_selector};
ghost use Rattle.numbers.specs.Refusal.{accepted};
ghost use Rattle.inplace.specs.Lists.{selector_at};
ghost use Rattle.numbers.specs.Quality.{quality};
ghost use Rattle.onestep.specs.Watched.{watch_at};
ghost use Rattle.unit.specs.Kept.{half_step};
ghost use Rattle.unitcard.specs.Lent.{half_in, half_held, stepped_held, sent_by};

use frame::FrameRead;
use inplace::{SMALL, TIMES, WIDER, answer_at, mode_at, next_due, profile_at, start};
use numbers::Event;
use numbers::profile::Profile;
use numbers::quality::Quality;
use numbers::refusal::ACCEPTED;
use onestep::watch::{DUE, TOLD, tell};
use unit::{Half, half_step, source_by, squelches};

// The station half, as C numbers it, and the last; 0 is the equipment's.
const STATION: u8 = 1;

// How many octets the station output has: the worst quality that it still carries, 1 where it
// squelches, its source.
pub const SENT: usize = 3;

// The half of a number.
#[tactic(auto, unfolding(crate::specs::Lent::half_in))]
fn half_in(half: u8) -> Half
    ensures { result ≡ half_in half }
{
    if half == STATION {
        return Half::Station;
    }
    Half::Equipment
}

// What a half answers stored behind a number, with when something is next due of it. No count of
// due moments is kept.
fn tell_half(
    times: &[u64; TIMES],
    small: &[u8; SMALL],
    wider: &[u16; WIDER],
    due: &mut [u64; DUE],
    told: &mut [u8; TOLD],
    number: u8,
)
    ensures { watch_at times.now small.now wider.now due.new
        told.new ≡
        half_held number
        (selector_at times.now small.now wider.now) }
{
    let next = next_due(times, small, wider);
    let answer = answer_at(times, small, wider, number);
    tell(due, told, next, answer, 0);
}

// A half's own step, and what it answers.
fn step_half(
    times: &mut [u64; TIMES],
    small: &mut [u8; SMALL],
    wider: &mut [u16; WIDER],
    due: &mut [u64; DUE],
    told: &mut [u8; TOLD],
    goes: bool,
    event: Event,
    read: FrameRead,
)
    ensures { watch_at times.new small.new wider.new due.new
        told.new ≡
        stepped_held
        (half_step (selector_at times.old small.old wider.old)
        goes event read) }
{
    let number = half_step(times, small, wider, goes, event, read);
    tell_half(times, small, wider, due, told, number);
}

// A fresh half of a profile, whatever its arrays held, and what it answers.
fn start_half(
    times: &mut [u64; TIMES],
    small: &mut [u8; SMALL],
    wider: &mut [u16; WIDER],
    due: &mut [u64; DUE],
    told: &mut [u8; TOLD],
    profile: Profile,
)
    ensures { watch_at times.new small.new wider.new due.new
        told.new ≡
        half_held accepted (fresh_selector profile) }
{
    start(times, small, wider, profile);
    tell_half(times, small, wider, due, told, ACCEPTED);
}

// What the station output sends stored, by the station's selector and the minimum.
#[tactic(auto, unfolding(crate::specs::Lent::sent_by))]
fn send(
    times: &[u64; TIMES],
    small: &[u8; SMALL],
    wider: &[u16; WIDER],
    sent: &mut [u8; SENT],
    minimum: u8,
)
    ensures { sent.new ≡
        sent_by (selector_at times.now small.now wider.now)
        (quality minimum) }
{
    let answer = answer_at(times, small, wider, ACCEPTED);
    let mode = mode_at(small);
    let profile = profile_at(small, wider);
    let squelched = squelches(answer, mode, profile, Quality(minimum));
    *sent = [minimum, squelched as u8, source_by(squelched, answer)];
}
