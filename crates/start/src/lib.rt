// START, with which a program is started: document 02, L10 and L11, "Programs" of its readings.
// Nothing, or `2 PLACE MARKS`: the place of PROV and the marks with which a log of option II
// starts; which option a log means its lines say.
//
// What the system hands over as arguments no contract can say: `read_start` promises that its
// answer is that of some words, and `start_by` which answer they have. No public function has a
// `requires`: a word may have any length and any content.
#![tactic(auto)]

ghost use Rattle.std.specs.Prelude.{true, ◌≡◌, length};
ghost use Rattle.std.specs.List.{list_all};
ghost use Rattle.std.specs.Char.{is_ascii_digit};
ghost use Rattle.calls.specs.Calls.{TextSaid};
ghost use Rattle.digits.specs.Decimal.{decimal_value};
ghost use Rattle.start.specs.Start.{is_option_word, is_decimal, is_marks, digits_value, start_of, start_in, start_by, StartReadRight};
ghost use Rattle.start.specs.Said.{start_stream, start_said};

use calls::{Ending, LONGEST_WORD, Stream, argument, write_alone};
use numbers::profile::{OPTION_TWO, ProvPlace, prov_place_in, start_number};
use numbers::refusal::ACCEPTED;

// The words of `2 PLACE MARKS`.
const ARGUMENTS: usize = 3;

// The numeral of option II.
const NUMERAL_2: u8 = b'2';

// "MARKS four hexadecimal digits"
const MARKS: usize = 4;

// The largest place that is looked at as a number: a larger one is above 8 as well.
const LARGEST: u64 = 255;

// So many octets of a place are read: the programs' stack has room for them.
const LONGEST_PLACE: usize = 65_536;

// What START says: the place of PROV and the marks.
#[derive(Clone, Copy, PartialEq, Eq)]
pub struct Start {
    pub provplace: ProvPlace,
    pub marks: u16,
}

// Why there is no start: it is refused; or the words are none.
#[derive(Clone, Copy, PartialEq, Eq)]
pub enum StartError {
    Refused,
    NoStart,
}

// Whether a word is the numeral of an option, and nothing else.
pub fn is_option_word(word: &[u8], numeral: u8) -> bool
    ensures { result ≡ is_option_word numeral word.now }
{
    word.len() == 1 && word[0] == numeral
}

// Whether no character of a word is other than a decimal digit.
fn has_numerals(word: &[u8]) -> bool
    ensures { result ≡ list_all is_ascii_digit word.now }
{
    word.iter().all(|character| character.is_ascii_digit())
}

// Whether a word is a number in decimal digits, of any size.
pub fn is_decimal(word: &[u8]) -> bool
    ensures { result ≡ is_decimal word.now }
{
    !word.is_empty() && has_numerals(word)
}

// Whether a word has four digits.
fn is_marks(word: &[u8]) -> bool
    ensures { result ≡ is_marks word.now }
{
    word.len() == MARKS && digits::all_digits(word)
}

// The number of four digits, the first of which counts most: "bit i (of value 2^i) for port i".
fn marks_in(word: &[u8]) -> u16
    requires { length word.now ≡ 4 }
    ensures { result ≡ digits_value 0 word.now }
{
    let upper = digits::octet_of(word[0], word[1]);
    let lower = digits::octet_of(word[2], word[3]);
    upper as u16 * 256 + lower as u16
}

// A start with a place and marks: "A place above 8" is refused.
fn start_of(provplace: u8, marks: u16) -> Result<Start, StartError>
    ensures { result ≡ start_of provplace marks }
{
    if start_number(OPTION_TWO, provplace) == ACCEPTED {
        Ok(Start {
            provplace: prov_place_in(provplace),
            marks,
        })
    } else {
        Err(StartError::Refused)
    }
}

// A start with a place that is a number of any size.
fn start_at(provplace: &[u8], marks: u16) -> Result<Start, StartError>
    requires { is_decimal provplace.now ≡ true }
    ensures { result ≡ start_of (decimal_value 0 provplace.now) marks }
{
    let Some(number) = text::read_number(provplace, LARGEST) else {
        return Err(StartError::Refused);
    };
    start_of(number as u8, marks)
}

// What three words say: `2 PLACE MARKS`.
pub fn start_in(option: &[u8], provplace: &[u8], marks: &[u8]) -> Result<Start, StartError>
    ensures { result ≡ start_in option.now provplace.now marks.now }
{
    if is_option_word(option, NUMERAL_2) && is_decimal(provplace) && is_marks(marks) {
        start_at(provplace, marks_in(marks))
    } else {
        Err(StartError::NoStart)
    }
}

// What so many words say, of which the first three are given: nothing is unplaced, and no marks.
pub fn start_by(
    count: usize,
    option: &[u8],
    provplace: &[u8],
    marks: &[u8],
) -> Result<Start, StartError>
    ensures { result ≡ start_by count option.now provplace.now marks.now }
{
    match count {
        0 => Ok(Start {
            provplace: ProvPlace::Unplaced,
            marks: 0,
        }),
        ARGUMENTS => start_in(option, provplace, marks),
        _ => Err(StartError::NoStart),
    }
}

// How many words the arguments have behind the program's name.
fn argument_count(rt: &HostRuntime) -> usize {
    calls::argument_count(rt).saturating_sub(1)
}

// Reads START from the program's arguments. A word that is longer than what is lent for it is taken
// as an empty one, so it is no START: a place of more than 65,536 digits too.
pub fn read_start(rt: &HostRuntime) -> Result<Start, StartError>
    ensures { StartReadRight result }
{
    let mut option = [0u8; LONGEST_WORD];
    let mut provplace = [0u8; LONGEST_PLACE];
    let mut marks = [0u8; LONGEST_WORD];
    let first = argument(rt, 1, &mut option);
    let second = argument(rt, 2, &mut provplace);
    let third = argument(rt, 3, &mut marks);
    start_by(
        argument_count(rt),
        &option[..first],
        &provplace[..second],
        &marks[..third],
    )
}

// Writes a line that says a start.
fn start_line(
    rt: &HostRuntime,
    stream: Stream,
    line: &[u8],
    start: Result<Start, StartError>,
) -> Ending
    requires { (stream ≡ start_stream start) × (line.now ≡ start_said start) }
    ensures { TextSaid (length (start_said start)) result }
{
    write_alone(rt, stream, line)
}

// Says that there is no start: of a refused one its number on standard output, and nothing else; of
// words that are no START on standard error, in one line, what START is. Of a start nothing is
// said.
pub fn say_start(rt: &HostRuntime, start: Result<Start, StartError>) -> Ending
    ensures { TextSaid (length (start_said start)) result }
{
    match start {
        Ok(_) => start_line(rt, Stream::Error, b"", start),
        Err(StartError::Refused) => start_line(rt, Stream::Output, b"06\n", start),
        Err(StartError::NoStart) => start_line(
            rt,
            Stream::Error,
            b"START is nothing, or 2 PLACE MARKS: a decimal number, four hexadecimal digits\n",
            start,
        ),
    }
}
