// Whether a kept card can have come from a fresh one by events, as far as is looked: its time is
// below 2^48, a tick at that time leaves its runs, its switch, its selection and whether the clock
// was ever locked, nothing was due by then and what is due next is not before the time that the
// card has for that, and what was answered last is the answer of its state but for the number. How
// large a setting or a quality may be is not looked at.
ghost use Rattle.std.specs.Prelude.{ℕ, ◌≡◌, List, ◌&&◌};
ghost use Rattle.inplace.specs.Lists.{selector_at};
ghost use Rattle.onestep.specs.Watched.{answer_in, watch_at};
ghost use Rattle.card.specs.Sound.{same_run, same_runs, same_once, same_answer, is_sound};

use inplace::{
    SMALL, TIMES, WIDER, answer_at, input_at, next_due, selection_at, serve, switch_at, time_at,
    was_locked_at,
};
use input::Input;
use numbers::refusal::ACCEPTED;
use numbers::{Answer, INPUT_COUNT, InputNumber, TIME_LIMIT};
use onestep::watch::{DUE, TOLD, answer_in};
use selector::{selected_number, switch_input, switch_number};

// Two inputs have the same run.
fn same_run(one: Input, other: Input) -> bool
    ensures { result ≡ same_run one other }
{
    one.run == other.run
}

// One pair more of inputs. In line the loop below would be spread over vectors, which takes 800
// octets of stack more.
#[inline(never)]
fn also_same(same: bool, one: Input, other: Input) -> bool
    ensures { result ≡ (same && same_run one other) }
{
    same & same_run(one, other)
}

// The sixteen inputs have the same runs in two cards with the same `wider`.
fn same_runs(
    times: &[u64; TIMES],
    small: &[u8; SMALL],
    wider: &[u16; WIDER],
    later: &[u64; TIMES],
    after: &[u8; SMALL],
) -> bool
    ensures { result ≡ same_runs
        (selector_at times.now small.now wider.now).inputs
        (selector_at later.now after.now wider.now).inputs }
{
    let mut same = true;
    for at in 0..INPUT_COUNT {
        let one = input_at(times, small, wider, InputNumber(at));
        let other = input_at(later, after, wider, InputNumber(at));
        same = also_same(same, one, other);
    }
    same
}

// Switch, selection and whether the clock was ever locked are the same in two cards.
fn same_once(small: &[u8; SMALL], after: &[u8; SMALL]) -> bool
    ensures { (times later wider : List ℕ) → result ≡ same_once
        (selector_at times small.now wider)
        (selector_at later after.now wider) }
{
    let ours = switch_at(small);
    let theirs = switch_at(after);
    let selected = selection_at(small);
    let other = selection_at(after);
    let waslocked = was_locked_at(small) == was_locked_at(after);
    let kind = switch_number(ours) == switch_number(theirs);
    let on = switch_input(ours) == switch_input(theirs);
    let selection = selected_number(selected) == selected_number(other);
    kind & on & selection & waslocked
}

// What was answered last is an answer, but for the number.
#[tactic(auto, unfolding(crate::specs::Sound::same_answer))]
fn same_answer(told: &[u8; TOLD], answer: Answer) -> bool
    ensures { result ≡ same_answer (answer_in told.now) answer }
{
    let told = answer_in(told);
    let number = told.number;
    told == Answer { number, ..answer }
}

// 1 where the card can have come from a fresh one, as far as is looked; 0 where not.
pub fn is_sound(
    times: &[u64; TIMES],
    small: &[u8; SMALL],
    wider: &[u16; WIDER],
    due: &[u64; DUE],
    told: &[u8; TOLD],
) -> u32
    ensures { result ≡ is_sound
        (watch_at times.now small.now wider.now due.now
        told.now) }
{
    let time = time_at(times);
    let next = next_due(times, small, wider);
    let answer = answer_at(times, small, wider, ACCEPTED);
    let mut later = *times;
    let mut after = *small;
    serve(&mut later, &mut after, wider, time);
    let runs = same_runs(times, small, wider, &later, &after);
    let once = same_once(small, &after);
    let told_right = same_answer(told, answer);
    let below = time < TIME_LIMIT;
    let ahead = time < due[0];
    let within = due[0] <= next;
    let sound = below & runs & once & ahead & within & told_right;
    sound as u32
}
