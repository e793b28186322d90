// What is known of one input of a card: its raw and its passed quality, whether it is eligible,
// when its timer and its frame end, and of its settings those that a choice looks at. Any card is
// answered for, and any number of an input.
ghost use Rattle.std.specs.Prelude.{◌≡◌};
ghost use Rattle.inplace.specs.Lists.{selector_at};
ghost use Rattle.card.specs.Known.{ends_known, input_known};

use inplace::{SMALL, TIMES, WIDER, profile_at};
use numbers::LAST_INPUT;
use numbers::profile::paper_number;
use numbers::refusal::{ACCEPTED, INPUT_OUT_OF_RANGE};
use status::input_status;

// When its timer and its frame end; 0 where nothing is still to end, and where there is no such
// input.
#[tactic(auto, unfolding(crate::specs::Known::ends_known))]
pub fn ends_at(
    times: &[u64; TIMES],
    small: &[u8; SMALL],
    wider: &[u16; WIDER],
    input: u8,
) -> [u64; 2]
    ensures { result ≡ ends_known
        (selector_at times.now small.now wider.now) input }
{
    if LAST_INPUT < input {
        return [0, 0];
    }
    let status = input_status(times, small, wider, input);
    [status.timer, status.frame]
}

// The number of the refusal or 0, raw and passed quality by their numbers on paper, whether it is
// eligible and its signal good, priority, whether it is locked, and the floor in force.
#[tactic(auto, unfolding(crate::specs::Known::input_known))]
pub fn known_at(
    times: &[u64; TIMES],
    small: &[u8; SMALL],
    wider: &[u16; WIDER],
    input: u8,
) -> [u8; 8]
    ensures { result ≡ input_known
        (selector_at times.now small.now wider.now) input }
{
    if LAST_INPUT < input {
        return [INPUT_OUT_OF_RANGE, 0, 0, 0, 0, 0, 0, 0];
    }
    let profile = profile_at(small, wider);
    let status = input_status(times, small, wider, input);
    [
        ACCEPTED,
        paper_number(profile, status.raw),
        paper_number(profile, status.passed),
        status.eligible as u8,
        status.signal as u8,
        status.priority.0,
        status.locked as u8,
        status.floor,
    ]
}
