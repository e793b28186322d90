// OPTION PLACE MARKS MINIMUM, with which `replay_unit` is started: document 02, L13, "Programs" of
// its readings. `2 PLACE MARKS` are as START has them; in option I place and marks are not looked
// at.
//
// What the system hands over as arguments no contract can say: `read_unit_start` promises that its
// answer is that of some words, and `unit_start_by` which answer they have. No public function has
// a `requires`: a word may have any length and any content.
#![tactic(auto)]

ghost use Rattle.std.specs.Prelude.{true, ◌≡◌};
ghost use Rattle.numbers.specs.Quality.{quality};
ghost use Rattle.digits.specs.Decimal.{decimal_value};
ghost use Rattle.start.specs.Start.{is_decimal};
ghost use Rattle.unitstart.specs.Start.{unit_start_of, unit_start_two, unit_start_in, unit_start_by, UnitStartReadRight};

use calls::{LONGEST_WORD, argument, argument_count};
use numbers::profile::Profile;
use numbers::quality::Quality;
use start::{Start, StartError, is_decimal, is_option_word, start_in};
use unit::is_minimum;

// The arguments: the program's name, and four words.
const ARGUMENTS: usize = 5;

// The numeral of option I.
const NUMERAL_1: u8 = b'1';

// The largest minimum that is looked at as a number: a larger one is out of range as well.
const LARGEST: u64 = 255;

// So many octets of a number are read: the program's stack has room for them.
const LONGEST_NUMBER: usize = 65_536;

// What the words say: a profile and a minimum.
#[derive(Clone, Copy, PartialEq, Eq)]
pub struct UnitStart {
    pub profile: Profile,
    pub minimum: Quality,
}

// A start of a profile with a minimum.
fn start_of(profile: Profile, minimum: Quality) -> Result<UnitStart, StartError>
    ensures { result ≡ unit_start_of profile minimum }
{
    if is_minimum(profile, minimum) {
        Ok(UnitStart { profile, minimum })
    } else {
        Err(StartError::Refused)
    }
}

// A start with a minimum that is a number of any size.
fn start_with(profile: Profile, minimum: &[u8]) -> Result<UnitStart, StartError>
    requires { is_decimal minimum.now ≡ true }
    ensures { result ≡ unit_start_of profile (quality (decimal_value 0 minimum.now)) }
{
    let Some(number) = text::read_number(minimum, LARGEST) else {
        return Err(StartError::Refused);
    };
    start_of(profile, Quality(number as u8))
}

// A start of option II, of which START's words have been read.
fn start_two(start: Result<Start, StartError>, minimum: &[u8]) -> Result<UnitStart, StartError>
    requires { is_decimal minimum.now ≡ true }
    ensures { result ≡ unit_start_two start (quality (decimal_value 0 minimum.now)) }
{
    let start = start?;
    start_with(Profile::OptionTwo(start.provplace, start.marks), minimum)
}

// What four words say: OPTION PLACE MARKS MINIMUM.
pub fn unit_start_in(
    option: &[u8],
    provplace: &[u8],
    marks: &[u8],
    minimum: &[u8],
) -> Result<UnitStart, StartError>
    ensures { result ≡ unit_start_in option.now provplace.now marks.now
        minimum.now }
{
    if !is_decimal(minimum) {
        return Err(StartError::NoStart);
    }
    if is_option_word(option, NUMERAL_1) {
        return start_with(Profile::OptionOne, minimum);
    }
    start_two(start_in(option, provplace, marks), minimum)
}

// What so many arguments say, of which the four after the program's name are given.
pub fn unit_start_by(
    count: usize,
    option: &[u8],
    provplace: &[u8],
    marks: &[u8],
    minimum: &[u8],
) -> Result<UnitStart, StartError>
    ensures { result
        ≡ unit_start_by count option.now provplace.now marks.now
        minimum.now }
{
    if count != ARGUMENTS {
        return Err(StartError::NoStart);
    }
    unit_start_in(option, provplace, marks, minimum)
}

// Reads the start of a unit from the program's arguments. A word that is longer than what is lent
// for it is taken as an empty one, so it is no start: a number of more than 65,536 digits too.
pub fn read_unit_start(rt: &HostRuntime) -> Result<UnitStart, StartError>
    ensures { UnitStartReadRight result }
{
    let mut option = [0u8; LONGEST_WORD];
    let mut provplace = [0u8; LONGEST_NUMBER];
    let mut marks = [0u8; LONGEST_WORD];
    let mut minimum = [0u8; LONGEST_NUMBER];
    let first = argument(rt, 1, &mut option);
    let second = argument(rt, 2, &mut provplace);
    let third = argument(rt, 3, &mut marks);
    let fourth = argument(rt, 4, &mut minimum);
    unit_start_by(
        argument_count(rt),
        &option[..first],
        &provplace[..second],
        &marks[..third],
        &minimum[..fourth],
    )
}
