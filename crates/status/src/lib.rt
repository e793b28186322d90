// What is known of one input in a state: its raw and its passed quality, whether it is eligible,
// when the timer of its present run and its frame end, and of its settings those that a choice or a
// reader looks at.
//
// A state with any numbers in it is answered for, no sum can wrap, and no public function has a
// `requires`.
#![tactic(auto)]

ghost use Rattle.std.specs.Prelude.{◌≡◌};
ghost use Rattle.inplace.specs.Lists.{selector_at};
ghost use Rattle.status.specs.Status.{end_ahead};
ghost use Rattle.status.specs.Kept.{timer_ahead, frame_ahead, status_of, input_status};

use due::sum_or_never;
use inplace::{SMALL, TIMES, WIDER, input_at, mode_at, profile_at, time_at};
use input::{Heard, Input};
use numbers::kind::InputKind;
use numbers::profile::{Profile, floor_in, limits_of};
use numbers::quality::{Quality, is_failed};
use numbers::{FRAME_LIFE, InputNumber, Priority};
use run::{Forecast, Run};
use selector::candidate_for;

// What is known of an input. `timer` is when the present run's own timer ends, needed or not: the
// hold-off of a failed run, the wait of any other; `frame` when the last frame heard expires. Both
// are 0 where nothing is still to end. `signal` is good signal, `floor` the floor in force.
#[derive(Clone, Copy)]
pub struct Status {
    pub raw: Quality,
    pub passed: Quality,
    pub eligible: bool,
    pub timer: u64,
    pub frame: u64,
    pub signal: bool,
    pub kind: InputKind,
    pub priority: Priority,
    pub locked: bool,
    pub floor: u8,
}

// When a time of `length` ms from `began` is over, if that is later than `time`; otherwise 0.
#[tactic(auto, unfolding(crate::specs::Status::end_ahead))]
fn end_ahead(began: u64, length: u64, time: u64) -> u64
    ensures { result ≡ end_ahead began length time }
{
    let end = sum_or_never(began, length);
    if time < end { end } else { 0 }
}

#[tactic(auto, unfolding(crate::specs::Kept::timer_ahead))]
fn timer_ahead(run: Run, forecast: Forecast, time: u64) -> u64
    ensures { result ≡ timer_ahead run forecast time }
{
    if run.failed {
        end_ahead(run.began, forecast.holdoff, time)
    } else {
        end_ahead(run.began, forecast.wait, time)
    }
}

#[tactic(auto, unfolding(crate::specs::Kept::frame_ahead))]
fn frame_ahead(heard: Heard, time: u64) -> u64
    ensures { result ≡ frame_ahead heard time }
{
    if is_failed(heard.frame) {
        0
    } else {
        end_ahead(heard.framed, FRAME_LIFE, time)
    }
}

// What is known of an input's record at a time, in a profile and a quality mode.
#[tactic(auto, unfolding(crate::specs::Kept::status_of))]
pub fn status_of(profile: Profile, input: Input, mode: bool, time: u64) -> Status
    ensures { result ≡ status_of profile input mode time }
{
    let forecast = input.forecast(mode);
    let heard = input.heard;
    let settings = input.settings;
    Status {
        raw: forecast.raw_at(time),
        passed: input.passed_quality(),
        eligible: candidate_for(profile, input, mode).is_eligible(),
        timer: timer_ahead(input.run, forecast, time),
        frame: frame_ahead(heard, time),
        signal: heard.signal,
        kind: settings.kind,
        priority: settings.priority,
        locked: settings.locked,
        floor: floor_in(limits_of(profile).freerunning, settings.floor),
    }
}

// What is known of an input of a state in three lent arrays, of a fresh one where there is no such
// number.
pub fn input_status(
    times: &[u64; TIMES],
    small: &[u8; SMALL],
    wider: &[u16; WIDER],
    number: u8,
) -> Status
    ensures { result ≡ input_status
        (selector_at times.now small.now wider.now) number }
{
    let profile = profile_at(small, wider);
    let mode = mode_at(small);
    let time = time_at(times);
    let one = input_at(times, small, wider, InputNumber(number));
    status_of(profile, one, mode, time)
}
