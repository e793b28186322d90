// One event on a state in place: what refuses it, its tick, what it does. The plain step of
// `events` on the arrays of `inplace`, with no copy of the state; an early refusal is judged once
// and a frame read once.
//
// Any numbers in the arrays are answered for. No public function has a `requires`.
#![tactic(auto)]

pub mod held;
pub mod watch;

ghost use Rattle.std.specs.Prelude.{ℕ, ◌<◌, ◌≡◌, List};
ghost use Rattle.numbers.specs.Inputs.{input_count};
ghost use Rattle.numbers.specs.Recorded.{said_event};
ghost use Rattle.numbers.specs.Refusal.{accepted};
ghost use Rattle.inplace.specs.Lists.{selector_at, with_inputs};
ghost use Rattle.events.specs.Step.{inputs_after, at_its_moment, stepped, early_number, late_number, step_ticked, step_read, step};

use events::{
    commanded, early_refusal, input_after, is_judged_late, late_refusal, mode_after, recorded_event,
};
use frame::{FrameRead, read_code};
use inplace::{
    SMALL, TIMES, WIDER, candidate_at, input_at, inputs_at_moment, leader_at, make_choice, mode_at,
    profile_at, put_command, put_input, serve, switch_at, time_at,
};
use numbers::kind::KIND_QUALITY_MODE;
use numbers::profile::Profile;
use numbers::refusal::ACCEPTED;
use numbers::{Event, InputNumber};

// An event that is refused before its tick has no due moment served.
const NONE_SERVED: u8 = 0;

// What an event is answered with, beside the state after it: its number, and how many due moments
// its tick served.
#[derive(Clone, Copy)]
pub struct StepTold {
    pub number: u8,
    pub count: u8,
}

// All inputs after an event: its own, or all of them where it sets the quality mode.
#[tactic(auto, unfolding(events::specs::Step::inputs_after))]
fn inputs_after(
    times: &mut [u64; TIMES],
    small: &mut [u8; SMALL],
    wider: &mut [u16; WIDER],
    profile: Profile,
    event: Event,
    mode: bool,
)
    ensures { selector_at times.new small.new wider.new ≡
        with_inputs (selector_at times.old small.old wider.old)
        (inputs_after
        (selector_at times.old small.old wider.old).inputs
        (said_event profile event) mode) }
{
    if event.kind == KIND_QUALITY_MODE {
        inputs_at_moment(times, small, wider, event.time, mode);
        return;
    }
    let before = input_at(times, small, wider, InputNumber(event.input));
    let after = input_after(before, profile, event, mode);
    put_input(times, small, wider, InputNumber(event.input), after);
}

// The state after an accepted event's own moment, once its tick has been made.
fn at_its_moment(
    times: &mut [u64; TIMES],
    small: &mut [u8; SMALL],
    wider: &mut [u16; WIDER],
    event: Event,
)
    requires { event.input < input_count }
    ensures { selector_at times.new small.new wider.new ≡
        at_its_moment (selector_at times.old small.old wider.old)
        (said_event
        (selector_at times.old small.old wider.old).profile
        event) }
{
    let mode = mode_after(event.kind, event.argument, mode_at(small));
    let switch = commanded(event.kind, InputNumber(event.input), switch_at(small));
    let profile = profile_at(small, wider);
    inputs_after(times, small, wider, profile, event, mode);
    put_command(small, mode, switch);
    make_choice(times, small, wider);
}

// Refusals 14 to 17 of an event on a state that has been ticked to its time; 0 where none applies.
fn late_at(times: &[u64; TIMES], small: &[u8; SMALL], wider: &[u16; WIDER], event: Event) -> u8
    ensures { result ≡
        late_number (selector_at times.now small.now wider.now)
        event }
{
    if !is_judged_late(event.kind) {
        return ACCEPTED;
    }
    let own = candidate_at(times, small, wider, InputNumber(event.input));
    let best = leader_at(times, small, wider, None).rank;
    late_refusal(own, best, switch_at(small), event.kind)
}

// One event on a state that has been ticked to its time: refused, or the event itself.
#[tactic(auto, unfolding(events::specs::Step::step_ticked))]
fn step_ticked(
    times: &mut [u64; TIMES],
    small: &mut [u8; SMALL],
    wider: &mut [u16; WIDER],
    event: Event,
    read: FrameRead,
) -> u8
    requires { event.input < input_count }
    ensures { (count : ℕ) → stepped result count
        (selector_at times.new small.new wider.new) ≡
        step_ticked (selector_at times.old small.old wider.old)
        count event read }
{
    let late = late_at(times, small, wider, event);
    if late != ACCEPTED {
        return late;
    }
    at_its_moment(times, small, wider, recorded_event(event, read));
    ACCEPTED
}

// One event that nothing refuses before its tick: the tick at its time, and then refused or the
// event itself.
#[tactic(auto, unfolding(events::specs::Step::step_read))]
fn step_accepted(
    times: &mut [u64; TIMES],
    small: &mut [u8; SMALL],
    wider: &mut [u16; WIDER],
    event: Event,
    read: FrameRead,
) -> StepTold
    requires { early_number (selector_at times.old small.old wider.old) event read ≡
        accepted }
    ensures { stepped result.number result.count
        (selector_at times.new small.new wider.new) ≡
        step_read (selector_at times.old small.old wider.old)
        event read }
{
    let count = serve(times, small, wider, event.time);
    let number = step_ticked(times, small, wider, event, read);
    StepTold { number, count }
}

// One event with its frame read: refused at once; or a tick at its time, and then refused or the
// event itself.
#[tactic(auto, unfolding(events::specs::Step::step_read))]
pub fn step_read(
    times: &mut [u64; TIMES],
    small: &mut [u8; SMALL],
    wider: &mut [u16; WIDER],
    event: Event,
    read: FrameRead,
) -> StepTold
    ensures { stepped result.number result.count
        (selector_at times.new small.new wider.new) ≡
        step_read (selector_at times.old small.old wider.old)
        event read }
{
    let kind = input_at(times, small, wider, InputNumber(event.input))
        .settings
        .kind;
    let profile = profile_at(small, wider);
    let time = time_at(times);
    let early = early_refusal(profile, time, kind, event, read);
    if early != ACCEPTED {
        return StepTold {
            number: early,
            count: NONE_SERVED,
        };
    }
    step_accepted(times, small, wider, event, read)
}

// One event with a lent frame, which counts for a frame event alone.
#[tactic(auto, unfolding(events::specs::Step::step))]
pub fn step(
    times: &mut [u64; TIMES],
    small: &mut [u8; SMALL],
    wider: &mut [u16; WIDER],
    event: Event,
    frame: &[u8],
) -> StepTold
    ensures { stepped result.number result.count
        (selector_at times.new small.new wider.new) ≡
        step (selector_at times.old small.old wider.old)
        event frame.now }
{
    step_read(times, small, wider, event, read_code(frame))
}
