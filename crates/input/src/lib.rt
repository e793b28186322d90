// One input: its settings, what it hears, and its run. Document 01, "The sixteen inputs" and "Raw
// quality".
//
// An event's method is told the time and the quality mode in force after the event, takes the
// event's own moment, and hands the record back; `brought_to` brings it to a time at which no event
// has come yet. Every time and every setting is safe, and no public function has a `requires`.
#![tactic(auto)]

ghost use Rattle.std.specs.Prelude.{◌≡◌};
ghost use Rattle.numbers.specs.Quality.{not_told};
ghost use Rattle.numbers.specs.Kind.{flag, kind_argument, kind_floor, kind_signal, kind_frame, kind_line_code, kind_priority, kind_lockout, kind_holdoff, kind_wait, kind_fixed_quality, kind_clear_wait, kind_sending, kind_input_kind};
ghost use Rattle.input.specs.Record.{fresh_input, equal_count, forgotten, heard_after, quality_now, can_expire, forecast, input_at_moment, input_brought_to, after_event, passed_of};

use numbers::Priority;
use numbers::kind::{InputKind, takes_frames};
use numbers::quality::{FAILED, NOT_TOLD, Quality};
use run::{Forecast, Run};

// How many equal codes in a row settle a line's quality.
pub const REPORTS_NEEDED: u8 = 3;

// A fresh input's hold-off in ms, and its wait in minutes.
const FRESH_HOLDOFF: u16 = 300;

const FRESH_WAIT: u8 = 5;

// A minute in ms.
const MINUTE: u64 = 60_000;

// What was heard: when the last frame came and what it said; what the last code or word that came
// three times in a row said; the last one with its count, three for any more; and whether the
// signal is good. Failed where nothing was heard.
#[derive(Clone, Copy, PartialEq, Eq)]
pub struct Heard {
    pub framed: u64,
    pub frame: Quality,
    pub linequality: Quality,
    pub last: u16,
    pub reports: u8,
    pub signal: bool,
}

// What the operator has set. The hold-off is in ms, the wait in minutes; fixed quality 0 is none,
// and floor 0 the fresh one.
#[derive(Clone, Copy, PartialEq, Eq)]
pub struct Settings {
    pub holdoff: u16,
    pub wait: u8,
    pub priority: Priority,
    pub fixed: Quality,
    pub floor: u8,
    pub kind: InputKind,
    pub locked: bool,
    pub sending: bool,
}

#[derive(Clone, Copy, PartialEq, Eq)]
pub struct Input {
    pub heard: Heard,
    pub run: Run,
    pub settings: Settings,
}

// The codes heard, the count of equal ones and the frames heard are forgotten.
fn forgotten(signal: bool) -> Heard
    ensures { result ≡ forgotten signal }
{
    Heard {
        framed: 0,
        frame: FAILED,
        linequality: FAILED,
        last: 0,
        reports: 0,
        signal,
    }
}

#[tactic(auto, unfolding(crate::specs::Record::heard_after, crate::specs::Record::line_after))]
impl Heard {
    // A signal report. A repeated fail or good changes nothing.
    fn signal(mut self, fail: bool) -> Heard
        ensures { result ≡ heard_after self kind_signal (flag fail) not_told 0 }
    {
        if fail && self.signal {
            return forgotten(false);
        }
        self.signal = !fail;
        self
    }

    // How many equal codes have come in a row with one more, three for any more.
    #[tactic(auto, unfolding(crate::specs::Record::equal_count))]
    fn equal_count(self, code: u16) -> u8
        ensures { result ≡ equal_count code self.last self.reports }
    {
        if code != self.last {
            1
        } else if self.reports < REPORTS_NEEDED {
            self.reports + 1
        } else {
            REPORTS_NEEDED
        }
    }

    // A code or a word with what it says, recorded while the signal is good.
    fn counted(mut self, number: u16, said: Quality) -> Heard
        ensures { result ≡ heard_after self kind_line_code number said 0 }
    {
        if self.signal {
            self.reports = self.equal_count(number);
            self.last = number;
            if self.reports >= REPORTS_NEEDED {
                self.linequality = said;
            }
        }
        self
    }

    // A frame with what it says, recorded while the signal is good.
    fn frame(mut self, said: Quality, time: u64) -> Heard
        ensures { result ≡ heard_after self kind_frame 0 said time }
    {
        if self.signal {
            self.framed = time;
            self.frame = said;
        }
        self
    }
}

#[tactic(auto, unfolding(crate::specs::Record::after_event, crate::specs::Record::heard_after, crate::specs::Record::settings_after, numbers::specs::Kind::input_kind_of))]
impl Input {
    pub fn fresh() -> Input
        ensures { result ≡ fresh_input }
    {
        Input {
            heard: forgotten(false),
            run: Run::fresh(),
            settings: Settings {
                holdoff: FRESH_HOLDOFF,
                wait: FRESH_WAIT,
                priority: Priority(0),
                fixed: NOT_TOLD,
                floor: 0,
                kind: InputKind::Line,
                locked: false,
                sending: true,
            },
        }
    }

    // Raw quality now, but for a frame's age.
    #[tactic(auto, unfolding(crate::specs::Record::quality_now))]
    fn quality_now(self, mode: bool) -> Quality
        ensures { result ≡ quality_now self.heard self.settings mode }
    {
        if !self.heard.signal {
            return FAILED;
        }
        if !mode {
            return NOT_TOLD;
        }
        if self.settings.fixed != NOT_TOLD {
            return self.settings.fixed;
        }
        if takes_frames(self.settings.kind) {
            self.heard.frame
        } else {
            self.heard.linequality
        }
    }

    // Whether raw quality is that of a frame, which expires.
    #[tactic(auto, unfolding(crate::specs::Record::can_expire))]
    fn can_expire(self, mode: bool) -> bool
        ensures { result ≡ can_expire self.heard self.settings mode }
    {
        self.heard.signal
            && mode
            && self.settings.fixed == NOT_TOLD
            && takes_frames(self.settings.kind)
    }

    // How raw quality goes on if no event comes.
    #[tactic(auto, unfolding(crate::specs::Record::forecast))]
    pub fn forecast(self, mode: bool) -> Forecast
        ensures { result ≡ forecast self mode }
    {
        Forecast {
            framed: self.heard.framed,
            holdoff: self.settings.holdoff as u64,
            wait: self.settings.wait as u64 * MINUTE,
            quality: self.quality_now(mode),
            expires: self.can_expire(mode),
        }
    }

    // An event's own moment taken, once the event has been heard; `clears` where it is a clear-wait
    // on this input.
    #[tactic(auto, unfolding(crate::specs::Record::input_at_moment))]
    pub fn at_moment(mut self, time: u64, mode: bool, clears: bool) -> Input
        ensures { result ≡ input_at_moment self time mode clears }
    {
        self.run = self.run.at_moment(self.forecast(mode), time, clears);
        self
    }

    // Time going by, to a time at which no event has come yet.
    #[tactic(auto, unfolding(crate::specs::Record::input_brought_to))]
    pub fn brought_to(mut self, time: u64, mode: bool) -> Input
        ensures { result ≡ input_brought_to self time mode }
    {
        self.run = self.run.brought_to(self.forecast(mode), time);
        self
    }

    pub fn signal(mut self, fail: bool, time: u64, mode: bool) -> Input
        ensures { result ≡ after_event self kind_signal (flag fail) not_told time mode }
    {
        self.heard = self.heard.signal(fail);
        self.at_moment(time, mode, false)
    }

    // A code or a word, with what it says.
    pub fn counted(mut self, number: u16, said: Quality, time: u64, mode: bool) -> Input
        ensures { result ≡ after_event self kind_line_code number said time mode }
    {
        self.heard = self.heard.counted(number, said);
        self.at_moment(time, mode, false)
    }

    pub fn frame(mut self, said: Quality, time: u64, mode: bool) -> Input
        ensures { result ≡ after_event self kind_frame 0 said time mode }
    {
        self.heard = self.heard.frame(said, time);
        self.at_moment(time, mode, false)
    }

    pub fn priority(mut self, priority: Priority, time: u64, mode: bool) -> Input
        ensures { result ≡ after_event self kind_priority priority.0 not_told time mode }
    {
        self.settings.priority = priority;
        self.at_moment(time, mode, false)
    }

    pub fn lockout(mut self, locked: bool, time: u64, mode: bool) -> Input
        ensures { result ≡ after_event self kind_lockout (flag locked) not_told time mode }
    {
        self.settings.locked = locked;
        self.at_moment(time, mode, false)
    }

    pub fn hold_off(mut self, holdoff: u16, time: u64, mode: bool) -> Input
        ensures { result ≡ after_event self kind_holdoff holdoff not_told time mode }
    {
        self.settings.holdoff = holdoff;
        self.at_moment(time, mode, false)
    }

    pub fn wait(mut self, minutes: u8, time: u64, mode: bool) -> Input
        ensures { result ≡ after_event self kind_wait minutes not_told time mode }
    {
        self.settings.wait = minutes;
        self.at_moment(time, mode, false)
    }

    pub fn fixed_quality(mut self, quality: Quality, time: u64, mode: bool) -> Input
        ensures { result ≡ after_event self kind_fixed_quality quality.0 not_told time mode }
    {
        self.settings.fixed = quality;
        self.at_moment(time, mode, false)
    }

    pub fn clear_wait(self, time: u64, mode: bool) -> Input
        ensures { result ≡ after_event self kind_clear_wait 0 not_told time mode }
    {
        self.at_moment(time, mode, true)
    }

    pub fn sending(mut self, sending: bool, time: u64, mode: bool) -> Input
        ensures { result ≡ after_event self kind_sending (flag sending) not_told time mode }
    {
        self.settings.sending = sending;
        self.at_moment(time, mode, false)
    }

    pub fn floor(mut self, floor: u8, time: u64, mode: bool) -> Input
        ensures { result ≡ after_event self kind_floor floor not_told time mode }
    {
        self.settings.floor = floor;
        self.at_moment(time, mode, false)
    }

    // The input's kind set, also to the kind it has: what was heard is forgotten.
    pub fn kind(mut self, kind: InputKind, time: u64, mode: bool) -> Input
        ensures { result ≡ after_event self kind_input_kind (kind_argument kind) not_told time mode }
    {
        self.heard = forgotten(self.heard.signal);
        self.settings.kind = kind;
        self.at_moment(time, mode, false)
    }

    // What is passed on to the choice.
    pub fn passed_quality(self) -> Quality
        ensures { result ≡ passed_of self }
    {
        self.run.passed_quality()
    }
}
