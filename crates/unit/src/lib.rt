// The station clock unit: document 02, L13. Two selectors of one profile: the equipment clock's,
// and that of the 2 Mbit/s station output, which squelches.
//
// The unit asks a selector for its step and its answer, and knows no rule of either: `half_step` is
// one selector's, on three lent arrays, and `held` has a unit by value. An event's numbers and those
// in the arrays may be anything that their types hold, and no public function has a `requires`.
#![tactic(auto)]

pub mod held;

ghost use Rattle.std.specs.Prelude.{◌≡◌};
ghost use Rattle.unit.specs.Unit.{is_minimum, unit_start_number, goes_to_both, goes_to};
ghost use Rattle.inplace.specs.Lists.{selector_at};
ghost use Rattle.unit.specs.Kept.{half_step, squelched_by, source_by};

use choice::rank_of;
use frame::FrameRead;
use inplace::{SMALL, TIMES, WIDER};
use numbers::kind::{
    KIND_FRAME, KIND_INPUT_KIND, KIND_LINE_CODE, KIND_SIGNAL, KIND_TICK, KIND_WORD,
};
use numbers::profile::{Limits, Profile, limits_of, profile_in, prov_place_of, start_number};
use numbers::quality::Quality;
use numbers::refusal::{ARGUMENT_OUT_OF_RANGE, FRAME_LENGTH};
use numbers::{Answer, Event};
use onestep::step_read;
use selector::{LOCKED, NO_INPUT};

// The two selectors of a unit, by what they are for.
#[derive(Clone, Copy, PartialEq, Eq)]
pub enum Half {
    Equipment,
    Station,
}

// Whether a unit of a profile starts with a minimum: 1 to 4, option II 1 to 8.
pub fn is_minimum(profile: Profile, minimum: Quality) -> bool
    ensures { result ≡ is_minimum profile minimum }
{
    1 <= minimum.0 && minimum.0 as u16 <= limits_of(profile).floor
}

// The number that a start with an option's number, a place's and a minimum is answered with: 6
// where the minimum or the place of PROV is out of range, and then there is none.
#[tactic(auto, unfolding(crate::specs::Unit::unit_start_number))]
pub fn unit_start_number(option: u8, provplace: u8, minimum: Quality) -> u8
    ensures { result ≡ unit_start_number option provplace minimum }
{
    if is_minimum(profile_in(option, provplace, 0), minimum) {
        start_number(option, provplace)
    } else {
        ARGUMENT_OUT_OF_RANGE
    }
}

// Whether events of a kind go to both selectors; any other is a command. A word is a report where
// words come.
#[tactic(auto, unfolding(crate::specs::Unit::goes_to_both))]
fn goes_to_both(limits: Limits, kind: u8) -> bool
    ensures { result ≡ goes_to_both limits kind }
{
    match kind {
        KIND_SIGNAL | KIND_FRAME | KIND_LINE_CODE | KIND_INPUT_KIND | KIND_TICK => true,
        KIND_WORD => limits.words,
        _ => false,
    }
}

// Whether an event goes to a half.
#[tactic(auto, unfolding(crate::specs::Unit::goes_to, crate::specs::Unit::is_to))]
pub fn goes_to(limits: Limits, kind: u8, to: Half, half: Half) -> bool
    ensures { result ≡ goes_to limits kind to half }
{
    goes_to_both(limits, kind) || to == half
}

// One selector's own step: a tick at the event's time, and then the event itself where it goes
// there. A tick has no frame, and none is looked at for it.
#[tactic(auto, using(crate::proofs::UnitLaws::read_code_none), unfolding(crate::specs::Kept::half_step))]
pub fn half_step(
    times: &mut [u64; TIMES],
    small: &mut [u8; SMALL],
    wider: &mut [u16; WIDER],
    goes: bool,
    event: Event,
    read: FrameRead,
) -> u8
    ensures { (result ≡
        (half_step (selector_at times.old small.old wider.old)
        goes event read).number) ×
        (selector_at times.new small.new wider.new ≡
        (half_step (selector_at times.old small.old wider.old)
        goes event read).state) }
{
    let tick = Event {
        kind: KIND_TICK,
        time: event.time,
        input: 0,
        argument: 0,
    };
    let none = FrameRead::Refused(FRAME_LENGTH);
    let ticked = step_read(times, small, wider, tick, none);
    if goes {
        step_read(times, small, wider, event, read).number
    } else {
        ticked.number
    }
}

// Whether an output squelches, which is to send AIS, by what its selector answers: nothing usable
// is selected, or, quality mode on, the selected input's passed quality is worse than the minimum.
// A locked clock's quality is that passed quality.
pub fn squelches(answer: Answer, mode: bool, profile: Profile, minimum: Quality) -> bool
    ensures { result ≡ squelched_by answer mode profile minimum }
{
    let provplace = prov_place_of(profile);
    let worst = rank_of(provplace, minimum);
    let passed = rank_of(provplace, Quality(answer.clockquality));
    answer.clockstate != LOCKED || mode && worst.0 < passed.0
}

// The source identifier of an output: none while it squelches, otherwise the selected input.
pub fn source_by(squelched: bool, answer: Answer) -> u8
    ensures { result ≡ source_by squelched answer }
{
    if squelched { NO_INPUT } else { answer.selected }
}
