// The quick step in place: beside the arrays of a state stand a time before which nothing is due
// and what was answered last, with how many due moments were served. Before that time an event that
// commands nothing looks at its own input alone. State, answers and counts are those of the watch
// of `quickstep`, which tells what is quick from what is not.
ghost use Rattle.std.specs.Prelude.{ℕ, ◌≡◌, List, get_or, set};
ghost use Rattle.numbers.specs.Refusal.{accepted};
ghost use Rattle.selector.specs.declared.Selector.{Selector};
ghost use Rattle.selector.specs.State.{decided};
ghost use Rattle.selector.specs.Answer.{answer_of};
ghost use Rattle.inplace.specs.Lists.{selector_at, with_framed, with_time};
ghost use Rattle.events.specs.Step.{early_number};
ghost use Rattle.quickstep.specs.Own.{is_left};
ghost use Rattle.quickstep.specs.Watch.{watch_of, fresh_watch, numbered, moved_to, due_after, served_watch, own_from, take_with, watch_step, is_anew};
ghost use Rattle.onestep.specs.Watched.{answer_in, watch_held, watch_at};

use crate::step_accepted;
use due::lesser;
use frame::FrameRead;
use inplace::{
    SMALL, TIMES, WIDER, answer_at, input_at, make_choice, mode_at, next_due, profile_at,
    put_framed, put_input, put_time, start, time_at,
};
use input::Input;
use numbers::profile::Profile;
use numbers::refusal::ACCEPTED;
use numbers::{Answer, Event, INPUT_COUNT, InputNumber};
use quickstep::{Left, again_own, own_step, says_again};

// How many numbers each of the two arrays has.
pub const DUE: usize = 1;

pub const TOLD: usize = 7;

// Where they stand: the answer's six as an answer line has them, and how many moments were served.
pub const NEXT: usize = 0;

const NUMBER: usize = 0;

const SELECTED: usize = 1;

const STATE: usize = 2;

const QUALITY: usize = 3;

const SWITCH: usize = 4;

const ON: usize = 5;

const COUNT: usize = 6;

// The answer that was told last.
pub fn answer_in(told: &[u8; TOLD]) -> Answer
    ensures { result ≡ answer_in told.now }
{
    Answer {
        number: told[NUMBER],
        selected: told[SELECTED],
        clockstate: told[STATE],
        clockquality: told[QUALITY],
        switchkind: told[SWITCH],
        switchinput: told[ON],
    }
}

// How many due moments were served for it.
pub fn count_in(told: &[u8; TOLD]) -> u8
    ensures { result ≡ get_or told.now 6 0 }
{
    told[COUNT]
}

// The number of an event stored that no moment was served for and that changes no other value of
// the answer, with a time before which nothing is due.
pub fn put_number(due: &mut [u64; DUE], told: &mut [u8; TOLD], next: u64, number: u8)
    ensures { (state : Selector) →
        watch_held state due.new told.new ≡
        watch_of state next (numbered number (answer_in told.old)) 0 }
{
    due[NEXT] = next;
    told[NUMBER] = number;
    told[COUNT] = 0;
}

// The number of what was refused without an event stored, and nothing else.
pub fn refuse(due: &mut [u64; DUE], told: &mut [u8; TOLD], number: u8)
    ensures { (state : Selector) →
        watch_held state due.new told.new ≡
        watch_of state (get_or due.old 0 0)
        (numbered number (answer_in told.old)) 0 }
{
    let next = due[NEXT];
    put_number(due, told, next, number);
}

// An answer stored, with how many moments were served and a time before which nothing is due.
pub fn tell(due: &mut [u64; DUE], told: &mut [u8; TOLD], next: u64, answer: Answer, count: u8)
    ensures { (state : Selector) →
        watch_held state due.new told.new ≡ watch_of state next answer count }
{
    due[NEXT] = next;
    told[NUMBER] = answer.number;
    told[SELECTED] = answer.selected;
    told[STATE] = answer.clockstate;
    told[QUALITY] = answer.clockquality;
    told[SWITCH] = answer.switchkind;
    told[ON] = answer.switchinput;
    told[COUNT] = count;
}

// An event's own input stored, and the time.
fn put_own(
    times: &mut [u64; TIMES],
    small: &mut [u8; SMALL],
    wider: &mut [u16; WIDER],
    number: InputNumber,
    input: Input,
    time: u64,
)
    ensures { selector_at times.new small.new wider.new ≡
        moved_to (selector_at times.old small.old wider.old)
        (set (selector_at times.old small.old wider.old).inputs
        number.0 input) time }
{
    put_input(times, small, wider, number, input);
    put_time(times, time);
}

// When an input's last frame came stored, and the time.
fn put_again(times: &mut [u64; TIMES], number: InputNumber, framed: u64, time: u64)
    ensures { (small wider : List ℕ) → selector_at times.new small wider ≡
        with_time (with_framed (selector_at times.old small wider) number.0 framed)
        time }
{
    put_framed(times, number, framed);
    put_time(times, time);
}

// A fresh state of a profile, whatever the arrays held, with what is answered of it.
pub fn start_watch(
    times: &mut [u64; TIMES],
    small: &mut [u8; SMALL],
    wider: &mut [u16; WIDER],
    due: &mut [u64; DUE],
    told: &mut [u8; TOLD],
    profile: Profile,
)
    ensures { watch_at times.new small.new wider.new due.new
        told.new ≡
        fresh_watch profile }
{
    start(times, small, wider, profile);
    let next = next_due(times, small, wider);
    let answer = answer_at(times, small, wider, ACCEPTED);
    tell(due, told, next, answer, 0);
}

// A time before which nothing is due of the state that an event left: till it has come it is only
// lessened.
#[tactic(auto, unfolding(quickstep::specs::Watch::due_after))]
fn due_left(
    times: &[u64; TIMES],
    small: &[u8; SMALL],
    wider: &[u16; WIDER],
    due: u64,
    time: u64,
) -> u64
    ensures { result ≡ due_after due time
        (selector_at times.now small.now wider.now) }
{
    let next = next_due(times, small, wider);
    if time < due {
        return lesser(due, next);
    }
    next
}

// A choice made, and what is answered then.
fn choose(
    times: &[u64; TIMES],
    small: &mut [u8; SMALL],
    wider: &[u16; WIDER],
    due: &mut [u64; DUE],
    told: &mut [u8; TOLD],
    next: u64,
    number: u8,
)
    ensures { watch_at times.now small.new wider.now due.new
        told.new ≡
        watch_of
        (decided (selector_at times.now small.old wider.now))
        next
        (answer_of number
        (decided (selector_at times.now small.old wider.now)))
        0 }
{
    make_choice(times, small, wider);
    let answer = answer_at(times, small, wider, number);
    tell(due, told, next, answer, 0);
}

// The plain step of an event that nothing refuses before its tick, and what is answered then.
fn serve_event(
    times: &mut [u64; TIMES],
    small: &mut [u8; SMALL],
    wider: &mut [u16; WIDER],
    due: &mut [u64; DUE],
    told: &mut [u8; TOLD],
    next: u64,
    event: Event,
    read: FrameRead,
)
    requires { early_number (selector_at times.old small.old wider.old) event read ≡
        accepted }
    ensures { watch_at times.new small.new wider.new due.new
        told.new ≡
        served_watch (selector_at times.old small.old wider.old)
        next event read }
{
    let after = step_accepted(times, small, wider, event, read);
    let later = due_left(times, small, wider, next, event.time);
    let answer = answer_at(times, small, wider, after.number);
    tell(due, told, later, answer, after.count);
}

// An event handed on: it is put together where a call takes it, and not before. A quick step then
// has none in memory, which is some 16 instructions of a line of the replay.
fn handed(event: Event) -> Event
    ensures { result ≡ event }
{
    Event {
        kind: event.kind,
        time: event.time,
        input: event.input,
        argument: event.argument,
    }
}

// One event with its frame read, taken by its own input as far as nothing is due, before `next`,
// and it commands nothing; a choice is made only where it would see that input otherwise than
// before. Answers whether the answer was made anew; otherwise it has another number alone.
fn take(
    times: &mut [u64; TIMES],
    small: &mut [u8; SMALL],
    wider: &mut [u16; WIDER],
    due: &mut [u64; DUE],
    told: &mut [u8; TOLD],
    next: u64,
    event: Event,
    read: FrameRead,
) -> bool
    ensures { (watch_at times.new small.new wider.new due.new
        told.new ≡
        take_with
        (watch_at times.old small.old wider.old
        due.old told.old)
        next event read) ×
        (result ≡ is_left (own_from
        (watch_at times.old small.old wider.old
        due.old told.old).state
        next event read).left) }
{
    let index = InputNumber(event.input % INPUT_COUNT);
    let before = input_at(times, small, wider, index);
    let profile = profile_at(small, wider);
    let mode = mode_at(small);
    let time = time_at(times);
    let own = own_step(before, profile, mode, time, next, event, read);
    match own.left {
        Left::Nothing => {
            put_own(times, small, wider, index, own.input, own.time);
            put_number(due, told, own.due, own.number);
            false
        }
        Left::Choice => {
            put_own(times, small, wider, index, own.input, own.time);
            choose(times, small, wider, due, told, own.due, own.number);
            true
        }
        Left::Service => {
            serve_event(times, small, wider, due, told, own.due, event, read);
            true
        }
    }
}

// One event with its frame read: one that says again what was said before is put at once. What is
// due is made anew where the time has come before which nothing was. Answers whether the answer was
// made anew; otherwise it has another number alone.
pub fn step_watch(
    times: &mut [u64; TIMES],
    small: &mut [u8; SMALL],
    wider: &mut [u16; WIDER],
    due: &mut [u64; DUE],
    told: &mut [u8; TOLD],
    event: Event,
    read: FrameRead,
) -> bool
    ensures { (watch_at times.new small.new wider.new due.new
        told.new ≡
        watch_step
        (watch_at times.old small.old wider.old
        due.old told.old)
        event read) ×
        (result ≡ is_anew
        (watch_at times.old small.old wider.old
        due.old told.old)
        event read) }
{
    let known = due[NEXT];
    if event.time < known {
        let index = InputNumber(event.input % INPUT_COUNT);
        let before = input_at(times, small, wider, index);
        let profile = profile_at(small, wider);
        let time = time_at(times);
        if says_again(before, profile, time, known, event, read) {
            let own = again_own(before, known, event);
            put_again(times, index, own.input.heard.framed, own.time);
            put_number(due, told, own.due, own.number);
            return false;
        }
        return take(times, small, wider, due, told, known, handed(event), read);
    }
    let next = next_due(times, small, wider);
    take(times, small, wider, due, told, next, handed(event), read)
}
