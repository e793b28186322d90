// A frame in a line of digits, and the line that tells what it says: document 02, L2. The program
// `read_frames` prints these.
//
// No public function has a `requires`: a line may have any length and any content.
#![tactic(auto)]

ghost use Rattle.std.specs.Prelude.{true, [], ◌∷◌, ◌++◌, ◌≡◌, ◌+◌, ◌-◌, ◌*◌, ◌/◌, ◌≤◌, length, replicate};
ghost use Rattle.digits.specs.Digits.{all_digits, octets_of, digits_of};
ghost use Rattle.frame.specs.Octets.{longest_frame};
ghost use Rattle.frametext.specs.Message.{flag_digit, code_text, message_text, in_front, message_line};

use frame::{FrameMessage, FrameRead};
use numbers::refusal::{ACCEPTED, FRAME_LENGTH, LINE_MALFORMED};
use reader::LINE_FEED;

// "60 to 1,514 octets": the longest frame.
const LONGEST_FRAME: usize = 1_514;

// A space stands between two parts.
const SPACE: u8 = b' ';

// A line of text: so many characters in front, zeros after them.
#[derive(Clone, Copy)]
pub struct MessageLine {
    pub text: [u8; 20],
    pub length: usize,
}

// The octets that digits stand for, no more than a frame may have, and zeros after them.
fn octets_of(line: &[u8]) -> [u8; LONGEST_FRAME]
    requires { (all_digits line.now ≡ true) × (length line.now / 2 ≤ longest_frame) }
    ensures { result ≡
        octets_of line.now
        ++ replicate (longest_frame - length line.now / 2) 0 }
{
    let mut octets = [0; LONGEST_FRAME];
    digits::write_octets(line, &mut octets);
    octets
}

// The line of a number alone.
fn number_line(number: u8) -> MessageLine
    ensures { result ≡ in_front (digits_of (number ∷ [])) }
{
    let mut text = [0; 20];
    digits::write_digits(&[number], &mut text);
    text[2] = LINE_FEED;
    MessageLine { text, length: 3 }
}

// The digit of an event flag.
fn flag_digit(event: bool) -> u8
    ensures { result ≡ flag_digit event }
{
    if event { b'1' } else { b'0' }
}

// The twelve digits of an address.
fn address_digits(source: [u8; 6]) -> [u8; 12]
    ensures { result ≡ digits_of source }
{
    let mut text = [0; 12];
    digits::write_digits(&source, &mut text);
    text
}

// The line of a frame that is accepted.
fn code_line(code: u8, event: bool, source: [u8; 6]) -> MessageLine
    ensures { result ≡ in_front (code_text code event source) }
{
    let address = address_digits(source);
    let text = [
        digits::upper_digit(ACCEPTED),
        digits::lower_digit(ACCEPTED),
        SPACE,
        digits::lower_digit(code),
        SPACE,
        flag_digit(event),
        SPACE,
        address[0],
        address[1],
        address[2],
        address[3],
        address[4],
        address[5],
        address[6],
        address[7],
        address[8],
        address[9],
        address[10],
        address[11],
        LINE_FEED,
    ];
    MessageLine { text, length: 20 }
}

// The line that tells what a frame says.
fn line_of(message: FrameMessage) -> MessageLine
    ensures { result ≡ in_front (message_text message) }
{
    let read = message.read;
    let FrameRead::Code(code) = read else {
        return number_line(frame::number_of_read(read));
    };
    let source = message.source;
    code_line(code, message.event, source)
}

// The line that is printed for a line: what the frame that its digits are says; 01 where it is no
// even number of digits.
pub fn message_line(line: &[u8]) -> MessageLine
    ensures { result ≡ message_line line.now }
{
    if !digits::all_digits(line) {
        return number_line(LINE_MALFORMED);
    }
    if line.len() % 2 != 0 {
        return number_line(LINE_MALFORMED);
    }
    let count = line.len() / 2;
    if LONGEST_FRAME < count {
        return number_line(FRAME_LENGTH);
    }
    let octets = octets_of(line);
    line_of(frame::read_frame(&octets[..count]))
}
