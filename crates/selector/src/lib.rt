// The selector's state, what a choice sees of an input, and what is answered of both: the definitions
// of `specs/` say what a tick makes of a state, `inplace` makes it. Document 01, "The sixteen
// inputs", "Choosing" and the answer line of "The event log".
//
// No public function has a `requires`: any numbers are answered for.
#![tactic(auto)]

ghost use Rattle.std.specs.Prelude.{◌≡◌, Bool, true, false, cond, not, ◌||◌, refl};
ghost use Rattle.numbers.specs.declared.profile.Profile.{Profile};
ghost use Rattle.numbers.specs.declared.quality.Quality.{Quality};
ghost use Rattle.numbers.specs.Codes.{code_dnu, word_stu, word_dus, code_of_quality, word_of_quality};
ghost use Rattle.selector.specs.State.{seen_of, candidate_for};
ghost use Rattle.selector.specs.Answer.{selected_number, switch_number, switch_input, clock_state, clock_quality, outgoing_code, outgoing_word};

use choice::{Candidate, Seen};
use input::Input;
use numbers::InputNumber;
use numbers::profile::{Profile, floor_in, limits_of, prov_place_of};
use numbers::quality::{
    CODE_DNU, NOT_TOLD, Quality, WORD_DUS, WORD_STU, code_of_quality, word_of_quality,
};
use switch::Switch;

// Stands for no input in an answer.
pub const NO_INPUT: u8 = 255;

// The clock states.
const FREE_RUN: u8 = 0;

const HOLDOVER: u8 = 1;

pub const LOCKED: u8 = 2;

// The switches.
pub const SWITCH_NONE: u8 = 0;

pub const SWITCH_FORCED: u8 = 1;

pub const SWITCH_MANUAL: u8 = 2;

// The whole state: sixteen inputs beside time, switch and selection, the quality mode, and whether
// the clock has ever been locked.
#[derive(Clone, Copy)]
pub struct Selector {
    pub inputs: [Input; 16],
    pub time: u64,
    pub switch: Switch,
    pub selection: Option<InputNumber>,
    pub profile: Profile,
    pub mode: bool,
    pub waslocked: bool,
}

// What a choice looks at of an input.
pub fn seen_of(input: Input) -> Seen
    ensures { result ≡ seen_of input }
{
    Seen {
        passed: input.passed_quality(),
        priority: input.settings.priority,
        floor: input.settings.floor,
        locked: input.settings.locked,
    }
}

// An input as a choice sees it.
#[tactic(auto, unfolding(crate::specs::State::candidate_for))]
pub fn candidate_for(profile: Profile, input: Input, mode: bool) -> Candidate
    ensures { result ≡ candidate_for profile mode input }
{
    let mut seen = seen_of(input);
    seen.floor = floor_in(limits_of(profile).freerunning, seen.floor);
    seen.candidate(prov_place_of(profile), mode)
}

// What a port says of a quality, a code or a word.
pub trait Sign: Copy {
    // What goes out of a port: by the mode, its sending, whether it is selected, and the sign of the
    // clock quality.
    ghost outgoing: { Bool → Bool → Bool → Self → Self };

    ghost SENDING_OFF: { Self };

    ghost DO_NOT_USE: { Self };

    ghost says: { Profile → Quality → Self };

    // What goes out with sending off.
    const SENDING_OFF: Self;

    // What goes out with mode off, and of the selected port.
    const DO_NOT_USE: Self;

    // What says a quality.
    fn says(profile: Profile, quality: Quality) -> Self
        ensures { result ≡ says profile quality };

    ghost by_rule: { (mode sending selected : Bool) (sign : Self) → outgoing mode sending selected sign ≡
        cond (not sending) SENDING_OFF (cond (not mode || selected) DO_NOT_USE sign) };
}

impl Sign for u8 {
    ghost outgoing = { outgoing_code };

    ghost SENDING_OFF = { code_dnu };

    ghost DO_NOT_USE = { code_dnu };

    ghost says = { code_of_quality };

    const SENDING_OFF: u8 = CODE_DNU;

    const DO_NOT_USE: u8 = CODE_DNU;

    fn says(profile: Profile, quality: Quality) -> u8 {
        code_of_quality(profile, quality)
    }

    ghost by_rule = { unfold outgoing_code in elim [
      | true ↦ elim [ true ↦ λ selected code. refl | false ↦ λ selected code. refl ]
      | false ↦ elim [ true ↦ λ selected code. refl | false ↦ λ selected code. refl ]
    ] };
}

impl Sign for u16 {
    ghost outgoing = { outgoing_word };

    ghost SENDING_OFF = { word_stu };

    ghost DO_NOT_USE = { word_dus };

    ghost says = { λ profile. word_of_quality };

    const SENDING_OFF: u16 = WORD_STU;

    const DO_NOT_USE: u16 = WORD_DUS;

    fn says(_profile: Profile, quality: Quality) -> u16 {
        word_of_quality(quality)
    }

    ghost by_rule = { unfold outgoing_word in λ mode sending selected word. refl };
}

// One of two signs: the first where a port is marked.
pub fn sign_by<T: Copy>(marked: bool, first: T, sign: T) -> T
    ensures { result ≡ cond marked first sign }
{
    if marked { first } else { sign }
}

// What goes out of a port.
pub fn outgoing<T: Sign>(mode: bool, sending: bool, selected: bool, sign: T) -> T
    ensures { result ≡ T.outgoing mode sending selected sign }
{
    if !sending {
        return T::SENDING_OFF;
    }
    if !mode || selected {
        return T::DO_NOT_USE;
    }
    sign
}

// The clock state: locked, or whether it ever was.
#[tactic(auto, unfolding(crate::specs::Clock::clock_state))]
pub fn clock_state(locked: bool, waslocked: bool) -> u8
    ensures { result ≡ clock_state locked waslocked }
{
    if locked {
        LOCKED
    } else if waslocked {
        HOLDOVER
    } else {
        FREE_RUN
    }
}

// 0 with mode off; the passed quality when locked; otherwise the clock's own.
#[tactic(auto, unfolding(crate::specs::Clock::clock_quality))]
pub fn clock_quality(own: Quality, mode: bool, candidate: Candidate) -> Quality
    ensures { result ≡ clock_quality own mode candidate }
{
    if !mode {
        NOT_TOLD
    } else if candidate.usable {
        candidate.quality
    } else {
        own
    }
}

// The selected input, as an answer names it.
#[tactic(auto, unfolding(crate::specs::Clock::selected_number))]
pub fn selected_number(selection: Option<InputNumber>) -> u8
    ensures { result ≡ selected_number selection }
{
    match selection {
        None => NO_INPUT,
        Some(number) => number.0,
    }
}

// The number of a switch.
#[tactic(auto, unfolding(crate::specs::Clock::switch_number))]
pub fn switch_number(switch: Switch) -> u8
    ensures { result ≡ switch_number switch }
{
    match switch {
        Switch::Nothing => SWITCH_NONE,
        Switch::Forced(_) => SWITCH_FORCED,
        Switch::Manual(_) => SWITCH_MANUAL,
    }
}

// The input of a switch, as an answer names it.
#[tactic(auto, unfolding(crate::specs::Clock::switch_input))]
pub fn switch_input(switch: Switch) -> u8
    ensures { result ≡ switch_input switch }
{
    match switch {
        Switch::Nothing => NO_INPUT,
        Switch::Forced(on) | Switch::Manual(on) => on.0,
    }
}
