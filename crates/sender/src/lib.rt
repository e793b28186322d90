// A sender per port: document 02, L1, "A heartbeat on every port".
//
// Each port's sender keeps the times of its last ten frames, the code of the last of them and the
// time of the last accepted question. Nothing here keeps time or ticks the selector: a question
// brings its time and a state, and the state is taken as it is. Senders with any numbers in them
// are answered for, no sum can wrap, and no public function has a `requires`.
#![tactic(auto)]

ghost use Rattle.std.specs.Prelude.{◌≡◌, ◌≤◌, ltb, length};
ghost use Rattle.frame.specs.Write.{written_length, source_length, largest_code};
ghost use Rattle.inplace.specs.Lists.{selector_at};
ghost use Rattle.sender.specs.Heartbeat.{question_of, question_number, content_by};
ghost use Rattle.sender.specs.Sender.{fresh_senders, is_full, heartbeat_due, heartbeat_of, with_frame, after_heartbeat, last_asked, one_with, answered_with, AskOne, AskSenders};

use frame::{SOURCE_LENGTH, WRITTEN_LENGTH, write_frame};
use inplace::{SMALL, TIMES, WIDER, codes_at};
use numbers::TIME_LIMIT;
use numbers::refusal::{
    ACCEPTED, ARGUMENT_OUT_OF_RANGE, BUFFER_TOO_SHORT, INPUT_OUT_OF_RANGE, SOURCE_NOT_SIX,
    TIME_BEFORE_STATE, TIME_TOO_LARGE,
};
use run::has_elapsed;

// "1,000 ms or more have passed since the port's last frame"
const PERIOD: u64 = 1_000;

// "later than 1,000 ms before now"
const WINDOW: u64 = 1_000;

// "ten frames of that port"
const WINDOW_FRAMES: u32 = 10;

// Where the tenth of the last ten frames stands among their times.
const TENTH: usize = 9;

// The last of the sixteen codes.
const LARGEST_CODE: u8 = 15;

// "port above 15"
const LAST_PORT: u64 = 15;

// The time of the last question where there was none: no time is earlier.
const NEVER_ASKED: u64 = 0;

// One port's sender: the times of its last ten frames, the latest first; the time of the last
// accepted question; the code of the last frame; and how many frames were sent, 10 for any more.
// In this order C's layout has no gap.
#[repr(C)]
#[derive(Clone, Copy)]
pub struct Sender {
    pub times: [u64; 10],
    pub asked: u64,
    pub code: u32,
    pub sent: u32,
}

// The senders of the sixteen ports.
#[repr(C)]
#[derive(Clone, Copy)]
pub struct Senders {
    pub ports: [Sender; 16],
}

// What a question is answered with: an information frame, an event frame, nothing, or the number
// of its refusal.
#[derive(Clone, Copy, PartialEq, Eq)]
pub enum Heartbeat {
    Information,
    Event,
    Nothing,
    Refused(u8),
}

impl Sender {
    // A sender of which nothing was asked, and that has sent nothing.
    const FRESH: Sender = Sender {
        times: [0; 10],
        asked: NEVER_ASKED,
        code: 0,
        sent: 0,
    };

    // Whether ten frames carry times later than 1,000 ms before a time: the tenth last does.
    #[tactic(auto, unfolding(crate::specs::Sender::is_full))]
    fn is_full(&self, time: u64) -> bool
        ensures { result ≡ is_full self.now time }
    {
        WINDOW_FRAMES <= self.sent && !has_elapsed(self.times[TENTH], WINDOW, time)
    }

    // The frame that is due, where the window is not full.
    #[tactic(auto, unfolding(crate::specs::Sender::heartbeat_due))]
    fn due_frame(&self, time: u64, code: u32) -> Heartbeat
        ensures { result ≡ heartbeat_due self.now time code }
    {
        if self.sent == 0 {
            Heartbeat::Information
        } else if code != self.code {
            Heartbeat::Event
        } else if has_elapsed(self.times[0], PERIOD, time) {
            Heartbeat::Information
        } else {
            Heartbeat::Nothing
        }
    }

    // What an accepted question is answered with.
    #[tactic(auto, unfolding(crate::specs::Sender::heartbeat_of))]
    fn heartbeat(&self, time: u64, code: u32) -> Heartbeat
        ensures { result ≡ heartbeat_of self.now time code }
    {
        if self.is_full(time) {
            Heartbeat::Nothing
        } else {
            self.due_frame(time, code)
        }
    }

    // A frame has gone out: its time is the latest of the ten.
    #[tactic(auto, using(crate::proofs::SenderLaws::latest_ten), unfolding(crate::specs::Sender::with_frame))]
    fn with_frame(&mut self, time: u64, code: u32)
        ensures { self.new ≡ with_frame self.old time code }
    {
        self.times.copy_within(..TENTH, 1);
        self.times[0] = time;
        self.asked = time;
        self.code = code;
        if self.sent < WINDOW_FRAMES {
            self.sent += 1;
        }
    }

    // An accepted question has had its answer.
    #[tactic(auto, unfolding(crate::specs::Sender::after_heartbeat))]
    fn after(&mut self, heartbeat: Heartbeat, time: u64, code: u32)
        ensures { self.new ≡ after_heartbeat heartbeat self.old time code }
    {
        match heartbeat {
            Heartbeat::Information | Heartbeat::Event => self.with_frame(time, code),
            Heartbeat::Nothing => self.asked = time,
            Heartbeat::Refused(_) => {}
        }
    }

    // The time of a port's last question: a port above 15 has no sender, and no last question.
    #[tactic(auto, unfolding(crate::specs::Sender::last_asked))]
    fn last_asked(&self, port: u64) -> u64
        ensures { result ≡ last_asked self.now port }
    {
        if LAST_PORT < port {
            NEVER_ASKED
        } else {
            self.asked
        }
    }

    // Asks one port's sender at a time, where the port has a code. An answered frame stands in the
    // first 60 octets of `buffer`; all else in it is kept. A code above 15 is none, and is refused
    // with 6 where nothing else refuses the question.
    pub fn ask_one(
        &mut self,
        port: u64,
        time: u64,
        code: u8,
        source: &[u8],
        buffer: &mut [u8],
    ) -> Heartbeat
        ensures { AskOne self.old port time code source.now buffer.old
            (one_with self.new result) buffer.new }
    {
        let asked = self.last_asked(port);
        let number = question_number(asked, port, time, buffer.len(), source.len());
        if number != ACCEPTED {
            return Heartbeat::Refused(number);
        }
        if LARGEST_CODE < code {
            return Heartbeat::Refused(ARGUMENT_OUT_OF_RANGE);
        }
        let heartbeat = self.heartbeat(time, code as u32);
        self.after(heartbeat, time, code as u32);
        send(heartbeat, code, source, buffer);
        heartbeat
    }
}

impl Senders {
    // Sixteen senders: nothing sent, nothing asked.
    pub fn fresh() -> Senders
        ensures { result ≡ fresh_senders }
    {
        Senders {
            ports: [Sender::FRESH; 16],
        }
    }

    // Asks a port's sender at a time, with the selector's state in three lent arrays. An answered
    // frame stands in the first 60 octets of `buffer`; all else in it is kept.
    pub fn ask(
        &mut self,
        times: &[u64; TIMES],
        small: &[u8; SMALL],
        wider: &[u16; WIDER],
        port: u64,
        time: u64,
        source: &[u8],
        buffer: &mut [u8],
    ) -> Heartbeat
        ensures { AskSenders self.old
            (question_of port time
            (selector_at times.now small.now wider.now)
            source.now buffer.old)
            (answered_with self.new result) buffer.new }
    {
        // A port above 15 has no sender, and no last question.
        if LAST_PORT < port {
            let number = question_number(NEVER_ASKED, port, time, buffer.len(), source.len());
            return Heartbeat::Refused(number);
        }
        let codes = codes_at(times, small, wider);
        let code = codes[port as usize];
        self.ports[port as usize].ask_one(port, time, code, source, buffer)
    }
}

// The number that refuses a question, the smallest that applies; 0 where none does. `asked` is the
// time of the port's last accepted question, `room` the length of the lent buffer and `octets` that
// of the lent source address.
#[tactic(auto, unfolding(crate::specs::Heartbeat::question_number, numbers::specs::Rows::first_that_applies))]
fn question_number(asked: u64, port: u64, time: u64, room: usize, octets: usize) -> u8
    ensures { result ≡ question_number (ltb time asked) port time room octets }
{
    if TIME_LIMIT <= time {
        return TIME_TOO_LARGE;
    }
    if time < asked {
        return TIME_BEFORE_STATE;
    }
    if LAST_PORT < port {
        return INPUT_OUT_OF_RANGE;
    }
    if room < WRITTEN_LENGTH {
        return BUFFER_TOO_SHORT;
    }
    if octets != SOURCE_LENGTH {
        return SOURCE_NOT_SIX;
    }
    ACCEPTED
}

// Writes the frame that is answered, if one is, into the first 60 octets of `buffer` and keeps the
// others; any other answer keeps all.
fn send(heartbeat: Heartbeat, code: u8, source: &[u8], buffer: &mut [u8])
    requires { (code ≤ largest_code) ×
        (length source.now ≡ source_length) × (written_length ≤ length buffer.old) }
    ensures { buffer.new ≡
        content_by heartbeat code source.now buffer.old }
{
    let event = match heartbeat {
        Heartbeat::Information => false,
        Heartbeat::Event => true,
        Heartbeat::Nothing | Heartbeat::Refused(_) => return,
    };
    // Code, source and room are right: no refusal comes back.
    let _ = write_frame(buffer, source, event, code);
}
