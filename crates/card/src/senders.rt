// The senders in C's hands: document 02, L1. The header is include/nurrispane.h.
//
// C holds two arrays for each port beside the card, and lends those of the port that it asks. The
// numbers in them may be anything that their types hold. No public function has a `requires`.
ghost use Rattle.std.specs.Prelude.{◌≡◌, replicate};
ghost use Rattle.sender.specs.Heartbeat.{code_of_port};
ghost use Rattle.inplace.specs.Lists.{selector_at};
ghost use Rattle.card.specs.Asking.{sender_in, sender_times, sender_numbers, heartbeat_told, AskLent};

use inplace::{SMALL, TIMES, WIDER, codes_at};
use numbers::LAST_INPUT;
use sender::{Heartbeat, Sender};

// How many numbers the two arrays of a sender have: the times of its last ten frames, the latest
// first, and that of the last accepted question; the code of the last frame, and how many frames
// were sent, 10 for any more.
pub const SENDER_TIMES: usize = 11;

pub const SENDER_NUMBERS: usize = 2;

// What a question was answered with: an information frame, an event frame, no frame; or 256 times
// the number of its refusal.
const NO_FRAME: u32 = 0;

const INFORMATION_FRAME: u32 = 1;

const EVENT_FRAME: u32 = 2;

const REFUSAL: u32 = 256;

// The sender that two arrays hold.
fn sender_in(times: &[u64; SENDER_TIMES], numbers: &[u32; SENDER_NUMBERS]) -> Sender
    ensures { result ≡ sender_in times.now numbers.now }
{
    let ten = [
        times[0], times[1], times[2], times[3], times[4], times[5], times[6], times[7], times[8],
        times[9],
    ];
    Sender {
        times: ten,
        asked: times[10],
        code: numbers[0],
        sent: numbers[1],
    }
}

// The numbers of a sender: its times.
fn times_of(sender: Sender) -> [u64; 11]
    ensures { result ≡ sender_times sender }
{
    let ten = sender.times;
    [
        ten[0],
        ten[1],
        ten[2],
        ten[3],
        ten[4],
        ten[5],
        ten[6],
        ten[7],
        ten[8],
        ten[9],
        sender.asked,
    ]
}

// What a question was answered with, as a number.
#[tactic(auto, unfolding(crate::specs::Asking::heartbeat_told))]
fn told_of(heartbeat: Heartbeat) -> u32
    ensures { result ≡ heartbeat_told heartbeat }
{
    match heartbeat {
        Heartbeat::Information => INFORMATION_FRAME,
        Heartbeat::Event => EVENT_FRAME,
        Heartbeat::Nothing => NO_FRAME,
        Heartbeat::Refused(number) => REFUSAL * u32::from(number),
    }
}

// The code that goes out of a port; 0 where there is no such port.
fn code_at(times: &[u64; TIMES], small: &[u8; SMALL], wider: &[u16; WIDER], port: u8) -> u8
    ensures { result ≡ code_of_port
        (selector_at times.now small.now wider.now) port }
{
    if LAST_INPUT < port {
        return 0;
    }
    codes_at(times, small, wider)[port as usize]
}

// Makes a sender fresh, whatever its arrays held: nothing sent, nothing asked.
#[unsafe(no_mangle)]
pub extern "C" fn nurrispane_fresh_sender_in(
    frames: &mut [u64; SENDER_TIMES],
    numbers: &mut [u32; SENDER_NUMBERS],
)
    ensures { (frames.new ≡ replicate 11 0) × (numbers.new ≡ replicate 2 0) }
{
    *frames = [0; SENDER_TIMES];
    *numbers = [0; SENDER_NUMBERS];
}

// Asks a port's sender at a time, with the card's state: the sender after it takes the place of the
// sender before it, and what is answered says which frame it is, or which refusal. An answered frame
// stands in the first 60 octets of `buffer`; all else in it is kept. For a port above 15 the sender
// that is lent is kept.
#[unsafe(no_mangle)]
pub extern "C" fn nurrispane_ask_in(
    frames: &mut [u64; SENDER_TIMES],
    numbers: &mut [u32; SENDER_NUMBERS],
    times: &[u64; TIMES],
    small: &[u8; SMALL],
    wider: &[u16; WIDER],
    port: u8,
    time: u64,
    source: &[u8],
    buffer: &mut [u8],
) -> u32
    ensures { AskLent (sender_in frames.old numbers.old)
        (selector_at times.now small.now wider.now)
        port time source.now buffer.old
        frames.new numbers.new result buffer.new }
{
    let mut sender = sender_in(frames, numbers);
    let code = code_at(times, small, wider, port);
    let heartbeat = sender.ask_one(port as u64, time, code, source, buffer);
    *frames = times_of(sender);
    *numbers = [sender.code, sender.sent];
    told_of(heartbeat)
}
