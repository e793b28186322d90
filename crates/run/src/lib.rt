// One input's run and what is passed of its raw quality: document 01, "Passed quality".
//
// Nothing here keeps time or knows where raw quality comes from: each function is told the time,
// and a forecast says how raw quality goes on if no event comes. No sum can wrap, for any time and
// any setting, and no public function has a `requires`.
#![tactic(auto)]

ghost use Rattle.std.specs.Prelude.{◌≡◌, ◌+◌, leb};
ghost use Rattle.run.specs.Run.{run_of, fresh_run, is_expired, raw_at, is_up_after, at_moment, brought_to, passed_quality};

use numbers::FRAME_LIFE;
use numbers::quality::{FAILED, Quality, is_failed};

// Raw quality from here on, if no event comes, and the timers in force: `quality`, and failed from
// the frame's 5,000th millisecond on where it `expires`. `holdoff` and `wait` are in ms.
#[derive(Clone, Copy, PartialEq, Eq)]
pub struct Forecast {
    pub framed: u64,
    pub holdoff: u64,
    pub wait: u64,
    pub quality: Quality,
    pub expires: bool,
}

// The present run: since when, failed or not; the last raw quality that was not failed; and whether
// the last down or up moment was up.
#[derive(Clone, Copy, PartialEq, Eq)]
pub struct Run {
    pub began: u64,
    pub good: Quality,
    pub failed: bool,
    pub up: bool,
}

// Whether `length` ms have gone by at `time` since `began`.
pub fn has_elapsed(began: u64, length: u64, time: u64) -> bool
    ensures { result ≡ leb (began + length) time }
{
    began <= time && length <= time - began
}

impl Forecast {
    // Whether the frame has expired by a time.
    #[tactic(auto, unfolding(crate::specs::Run::is_expired))]
    fn is_expired(self, time: u64) -> bool
        ensures { result ≡ is_expired self time }
    {
        self.expires && has_elapsed(self.framed, FRAME_LIFE, time)
    }

    // Raw quality at a time.
    #[tactic(auto, unfolding(crate::specs::Run::raw_at))]
    pub fn raw_at(self, time: u64) -> Quality
        ensures { result ≡ raw_at self time }
    {
        if self.is_expired(time) {
            return FAILED;
        }
        self.quality
    }
}

impl Run {
    // Time 0, fresh: a failed run, down.
    pub fn fresh() -> Run
        ensures { result ≡ fresh_run }
    {
        Run {
            began: 0,
            good: FAILED,
            failed: true,
            up: false,
        }
    }

    // The run once its moment at a time has been judged, down or up; `clears` where the moment's
    // event is a clear-wait on the input.
    #[tactic(auto, unfolding(crate::specs::Run::is_up_after))]
    fn judged(self, forecast: Forecast, time: u64, clears: bool) -> Run
        ensures { result ≡ run_of self.began self.good self.failed
            (is_up_after self.up self.failed self.began forecast time clears) }
    {
        let up = if self.failed {
            self.up && !has_elapsed(self.began, forecast.holdoff, time)
        } else {
            self.up || clears || has_elapsed(self.began, forecast.wait, time)
        };
        Run { up, ..self }
    }

    // The run once an event's own moment has been taken; `clears` where the event is a clear-wait
    // on the input.
    #[tactic(auto, unfolding(crate::specs::Run::at_moment, crate::specs::Run::began_after, crate::specs::Run::last_good))]
    pub fn at_moment(self, forecast: Forecast, time: u64, clears: bool) -> Run
        ensures { result ≡ at_moment self forecast time clears }
    {
        let raw = forecast.raw_at(time);
        let failed = is_failed(raw);
        let run = Run {
            began: if failed == self.failed {
                self.began
            } else {
                time
            },
            good: if failed { self.good } else { raw },
            failed,
            up: self.up,
        };
        run.judged(forecast, time, clears)
    }

    // The run brought to a later time at which no event has come yet. A frame that expires on the
    // way comes first in its millisecond, so a wait that would end just then has not ended.
    #[tactic(auto, unfolding(crate::specs::Run::brought_to, crate::specs::Run::up_before))]
    pub fn brought_to(self, forecast: Forecast, time: u64) -> Run
        ensures { result ≡ brought_to self forecast time }
    {
        if self.failed || !forecast.is_expired(time) {
            return self.judged(forecast, time, false);
        }
        let end = forecast.framed + FRAME_LIFE;
        let run = Run {
            began: end,
            failed: true,
            up: self.up || (self.began < end && forecast.wait < end - self.began),
            ..self
        };
        run.judged(forecast, time, false)
    }

    // What is passed on: 7 if the last down or up moment was down; otherwise raw quality, or in a
    // failed run the last raw quality before it. Both are the last one that was not failed.
    #[tactic(auto, unfolding(crate::specs::Run::passed_quality))]
    pub fn passed_quality(self) -> Quality
        ensures { result ≡ passed_quality self }
    {
        if self.up {
            return self.good;
        }
        FAILED
    }
}
