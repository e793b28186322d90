// What C calls, but for the senders: include/nurrispane.h. Pointers to arrays of numbers and numbers
// alone, so that a call is the same to every C compiler; what is only read is lent by a pointer to
// const. C gets them by `card_c`: a library exports nothing by itself.
ghost use Rattle.std.specs.Prelude.{◌≡◌};
ghost use Rattle.selector.specs.Answer.{outgoing_codes, outgoing_words};
ghost use Rattle.due.specs.Next.{next_due};
ghost use Rattle.inplace.specs.Lists.{is_set, selector_at};
ghost use Rattle.onestep.specs.Watched.{watch_at};
ghost use Rattle.card.specs.Lent.{header_version, card_octets, senders_octets, start_lent, step_lent, frame_told, WritePort};
ghost use Rattle.card.specs.Known.{ends_known, input_known};
ghost use Rattle.card.specs.Part.{part_lent, more_lent};
ghost use Rattle.card.specs.SelfTest.{self_test};
ghost use Rattle.card.specs.Sound.{is_sound};

use crate::known::{ends_at, known_at};
use crate::part::tick_part;
use crate::self_test::self_test;
use crate::sound::is_sound;
use crate::{card_frame, start_lent, step_lent, write_port};
use inplace::{SMALL, TIMES, WIDER, codes_at, next_due, words_at};
use onestep::watch::{DUE, TOLD};

// Raised with each change of a struct, of a number or of what a function answers.
const VERSION: u32 = 6;

// How long a card is in C.
const CARD_OCTETS: u32 = 584;

// How long the senders are in C.
const SENDERS_OCTETS: u32 = 1_544;

// The library's version: that of its header.
#[unsafe(no_mangle)]
pub extern "C" fn nurrispane_version_in() -> u32
    ensures { result ≡ header_version }
{
    VERSION
}

// How many octets the library takes a card to have.
#[unsafe(no_mangle)]
pub extern "C" fn nurrispane_card_octets_in() -> u32
    ensures { result ≡ card_octets }
{
    CARD_OCTETS
}

// How many octets the library takes the senders to have.
#[unsafe(no_mangle)]
pub extern "C" fn nurrispane_senders_octets_in() -> u32
    ensures { result ≡ senders_octets }
{
    SENDERS_OCTETS
}

// The power-on self-test, on arrays of its own: 1 where it is passed, as it is where the machine
// does what the code says; 0 where not.
#[unsafe(no_mangle)]
pub extern "C" fn nurrispane_self_test_in() -> u32
    ensures { result ≡ self_test }
{
    self_test()
}

// Starts a card with a profile, whatever it held: it is fresh then. An option that is neither 1 nor
// 2, or option II with a place above 8, is refused with 6, and nothing starts: the card is kept but
// for the number and the count in what is told.
#[unsafe(no_mangle)]
pub extern "C" fn nurrispane_fresh_in(
    times: &mut [u64; TIMES],
    small: &mut [u8; SMALL],
    wider: &mut [u16; WIDER],
    due: &mut [u64; DUE],
    told: &mut [u8; TOLD],
    option: u8,
    provplace: u8,
    marks: u16,
)
    ensures { watch_at times.new small.new wider.new due.new
        told.new ≡
        start_lent
        (watch_at times.old small.old wider.old
        due.old told.old)
        option provplace marks }
{
    start_lent(times, small, wider, due, told, option, provplace, marks);
}

// One event with a lent frame, which is looked at for a frame event alone: the card after it takes
// the place of the card before it, and `told` has the answer.
#[unsafe(no_mangle)]
pub extern "C" fn nurrispane_step_in(
    times: &mut [u64; TIMES],
    small: &mut [u8; SMALL],
    wider: &mut [u16; WIDER],
    due: &mut [u64; DUE],
    told: &mut [u8; TOLD],
    kind: u8,
    time: u64,
    input: u8,
    argument: u16,
    frame: &[u8],
)
    ensures { watch_at times.new small.new wider.new due.new
        told.new ≡
        step_lent
        (watch_at times.old small.old wider.old
        due.old told.old)
        kind time input argument frame.now }
{
    step_lent(
        times, small, wider, due, told, kind, time, input, argument, frame,
    );
}

// A portion of a tick: serves at most `most` of the moments that are due by a time, one where `most`
// is 0, and where none is left makes the tick at that time. 1 where more is to come, 0 where not.
// `told` has the answer of the last tick that was made.
#[unsafe(no_mangle)]
pub extern "C" fn nurrispane_tick_part_in(
    times: &mut [u64; TIMES],
    small: &mut [u8; SMALL],
    wider: &mut [u16; WIDER],
    due: &mut [u64; DUE],
    told: &mut [u8; TOLD],
    time: u64,
    most: u8,
) -> u32
    ensures { (watch_at times.new small.new wider.new due.new
        told.new ≡
        part_lent most
        (watch_at times.old small.old wider.old
        due.old told.old)
        time) ×
        (result ≡ more_lent most
        (watch_at times.old small.old wider.old
        due.old told.old)
        time) }
{
    tick_part(times, small, wider, due, told, time, most)
}

// When something is next due: no answer changes before it but by an event.
#[unsafe(no_mangle)]
pub extern "C" fn nurrispane_next_due_in(
    times: &[u64; TIMES],
    small: &[u8; SMALL],
    wider: &[u16; WIDER],
) -> u64
    ensures { result ≡
        next_due (selector_at times.now small.now wider.now) }
{
    next_due(times, small, wider)
}

// 1 where a card can have come from a fresh one by events, as far as is looked; 0 where not.
#[unsafe(no_mangle)]
pub extern "C" fn nurrispane_is_sound_in(
    times: &[u64; TIMES],
    small: &[u8; SMALL],
    wider: &[u16; WIDER],
    due: &[u64; DUE],
    told: &[u8; TOLD],
) -> u32
    ensures { result ≡ is_sound
        (watch_at times.now small.now wider.now due.now
        told.now) }
{
    is_sound(times, small, wider, due, told)
}

// What is known of one input: when its timer and its frame end; and the number of the refusal or 0,
// its qualities, whether it is eligible, its signal, priority, lockout and floor. A number above 15
// is told as no input, with 5.
#[unsafe(no_mangle)]
pub extern "C" fn nurrispane_input_status_in(
    times: &[u64; TIMES],
    small: &[u8; SMALL],
    wider: &[u16; WIDER],
    input: u8,
    ends: &mut [u64; 2],
    known: &mut [u8; 8],
)
    ensures { (ends.new ≡ ends_known
        (selector_at times.now small.now wider.now) input) ×
        (known.new ≡ input_known
        (selector_at times.now small.now wider.now) input) }
{
    *ends = ends_at(times, small, wider, input);
    *known = known_at(times, small, wider, input);
}

// The codes that go out of the sixteen ports.
#[unsafe(no_mangle)]
pub extern "C" fn nurrispane_outgoing_codes_in(
    times: &[u64; TIMES],
    small: &[u8; SMALL],
    wider: &[u16; WIDER],
    codes: &mut [u8; 16],
)
    ensures { codes.new ≡ outgoing_codes
        (selector_at times.now small.now wider.now) }
{
    *codes = codes_at(times, small, wider);
}

// The words that go out of the sixteen ports, of a card of option II.
#[unsafe(no_mangle)]
pub extern "C" fn nurrispane_outgoing_words_in(
    times: &[u64; TIMES],
    small: &[u8; SMALL],
    wider: &[u16; WIDER],
    out: &mut [u16; 16],
)
    ensures { out.new ≡ outgoing_words
        (selector_at times.now small.now wider.now) }
{
    *out = words_at(times, small, wider);
}

// Reads a lent frame: the number of its refusal or 0, its code, its event flag and its source
// address.
#[unsafe(no_mangle)]
pub extern "C" fn nurrispane_read_frame_in(frame: &[u8], told: &mut [u8; 9])
    ensures { told.new ≡ frame_told frame.now }
{
    *told = card_frame(frame);
}

// Writes a frame with a port's outgoing code into the first 60 octets of `buffer` and keeps the
// others; a refusal keeps all, and 5 is that of a port above 15. `event` is the event flag: 0 no,
// any other yes.
#[unsafe(no_mangle)]
pub extern "C" fn nurrispane_write_frame_in(
    times: &[u64; TIMES],
    small: &[u8; SMALL],
    wider: &[u16; WIDER],
    port: u8,
    event: u8,
    source: &[u8],
    buffer: &mut [u8],
) -> u32
    ensures { WritePort
        (selector_at times.now small.now wider.now)
        port (is_set event) source.now buffer.old result
        buffer.new }
{
    write_port(times, small, wider, port, event, source, buffer)
}
