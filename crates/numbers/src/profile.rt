// What is chosen once, at the fresh start: the option, with the place of PROV and the marks, and
// what the options differ in.
ghost use Rattle.std.specs.Prelude.{◌≡◌};
ghost use Rattle.numbers.specs.Profile.{prov_place_in, number_of_prov_place, profile_with, profile_in, option_of, limits_of, prov_place_of, start_number, marks_of, floor_in, told_by, number_in_one, paper_number};

use crate::quality::{FAILED, INVALID, Quality, SEC, ST3, ST3E, TNC};
use crate::refusal::{ACCEPTED, ARGUMENT_OUT_OF_RANGE};

// The options, as a line's byte and C number them.
pub const OPTION_ONE: u8 = 1;

pub const OPTION_TWO: u8 = 2;

// The last place of PROV.
const LAST_PROV_PLACE: u8 = 8;

// The place of PROV: none, or just below a quality of 1 to 8. There is no other.
#[derive(Clone, Copy, PartialEq, Eq)]
pub enum ProvPlace {
    Unplaced,
    Below1,
    Below2,
    Below3,
    Below4,
    Below5,
    Below6,
    Below7,
    Below8,
}

// What is chosen once, at the fresh start; option II with the place of PROV and the marks of the
// first-generation ports.
#[derive(Clone, Copy, PartialEq, Eq)]
pub enum Profile {
    OptionOne,
    OptionTwo(ProvPlace, u16),
}

// What the options differ in: the last fixed quality, floor and kind of input, whether words come,
// and what a clock by itself tells.
#[derive(Clone, Copy, PartialEq, Eq)]
pub struct Limits {
    pub fixed: u16,
    pub floor: u16,
    pub input: u16,
    pub words: bool,
    pub freerunning: Quality,
}

// What the options differ in.
#[tactic(auto, unfolding(crate::specs::Profile::limits_of))]
pub fn limits_of(profile: Profile) -> Limits
    ensures { result ≡ limits_of profile }
{
    match profile {
        Profile::OptionOne => Limits {
            fixed: 5,
            floor: 4,
            input: 1,
            words: false,
            freerunning: SEC,
        },
        Profile::OptionTwo(_, _) => Limits {
            fixed: 10,
            floor: 8,
            input: 2,
            words: true,
            freerunning: ST3,
        },
    }
}

// The place that a number says. A number above 8 says none, as 0 does: a start asks `start_number`
// first, and numbers that nobody has asked about leave PROV unplaced.
#[tactic(auto, unfolding(crate::specs::Profile::prov_place_in))]
pub fn prov_place_in(number: u8) -> ProvPlace
    ensures { result ≡ prov_place_in number }
{
    match number {
        1 => ProvPlace::Below1,
        2 => ProvPlace::Below2,
        3 => ProvPlace::Below3,
        4 => ProvPlace::Below4,
        5 => ProvPlace::Below5,
        6 => ProvPlace::Below6,
        7 => ProvPlace::Below7,
        8 => ProvPlace::Below8,
        _ => ProvPlace::Unplaced,
    }
}

// The number of a place, 0 for none.
#[tactic(auto, unfolding(crate::specs::Profile::number_of_prov_place))]
pub fn number_of_prov_place(provplace: ProvPlace) -> u8
    ensures { result ≡ number_of_prov_place provplace }
{
    provplace as u8
}

// The profile of an option's number: 2 with the place and the marks; any other number is option I,
// and neither is looked at.
#[tactic(auto, unfolding(crate::specs::Profile::profile_with))]
pub fn profile_with(option: u8, provplace: ProvPlace, marks: u16) -> Profile
    ensures { result ≡ profile_with option provplace marks }
{
    if option == OPTION_TWO {
        return Profile::OptionTwo(provplace, marks);
    }
    Profile::OptionOne
}

// The same, of a place's number.
#[tactic(auto, unfolding(crate::specs::Profile::profile_in))]
pub fn profile_in(option: u8, provplace: u8, marks: u16) -> Profile
    ensures { result ≡ profile_in option provplace marks }
{
    profile_with(option, prov_place_in(provplace), marks)
}

// The number of a profile's option.
#[tactic(auto, unfolding(crate::specs::Profile::option_of))]
pub fn option_of(profile: Profile) -> u8
    ensures { result ≡ option_of profile }
{
    match profile {
        Profile::OptionOne => OPTION_ONE,
        Profile::OptionTwo(_, _) => OPTION_TWO,
    }
}

// The number of a profile's place of PROV, 0 for none.
#[tactic(auto, unfolding(crate::specs::Profile::prov_place_of))]
pub fn prov_place_of(profile: Profile) -> u8
    ensures { result ≡ prov_place_of profile }
{
    match profile {
        Profile::OptionOne => 0,
        Profile::OptionTwo(provplace, _) => number_of_prov_place(provplace),
    }
}

// The number that a start with an option's number and a place's is answered with: 6 where option II
// is given a place above 8, and then there is none.
#[tactic(auto, unfolding(crate::specs::Profile::start_number))]
pub fn start_number(option: u8, provplace: u8) -> u8
    ensures { result ≡ start_number option provplace }
{
    if option == OPTION_TWO && LAST_PROV_PLACE < provplace {
        return ARGUMENT_OUT_OF_RANGE;
    }
    ACCEPTED
}

// The marks of the first-generation ports, bit i for port i.
#[tactic(auto, unfolding(crate::specs::Profile::marks_of))]
pub fn marks_of(profile: Profile) -> u16
    ensures { result ≡ marks_of profile }
{
    match profile {
        Profile::OptionOne => 0,
        Profile::OptionTwo(_, marks) => marks,
    }
}

// An input's floor: as set, or fresh.
#[tactic(auto, unfolding(crate::specs::Profile::floor_in))]
pub fn floor_in(own: Quality, floor: u8) -> u8
    ensures { result ≡ floor_in own floor }
{
    if floor == 0 {
        return own.0;
    }
    floor
}

// What a port tells of a quality: a first-generation one has ST3 for TNC and ST3E.
#[tactic(auto, unfolding(crate::specs::Profile::told_by))]
pub fn told_by(marked: bool, quality: Quality) -> Quality
    ensures { result ≡ told_by marked quality }
{
    if marked && (quality == TNC || quality == ST3E) {
        return ST3;
    }
    quality
}

// A quality's number in document 01: 6 for invalid and 7 for failed.
#[tactic(auto, unfolding(crate::specs::Profile::number_in_one))]
fn number_in_one(quality: Quality) -> u8
    ensures { result ≡ number_in_one quality }
{
    if quality == INVALID {
        return 6;
    }
    if quality == FAILED {
        return 7;
    }
    quality.0
}

// A quality's number on paper, where it is shown.
#[tactic(auto, unfolding(crate::specs::Profile::paper_number))]
pub fn paper_number(profile: Profile, quality: Quality) -> u8
    ensures { result ≡ paper_number profile quality }
{
    match profile {
        Profile::OptionOne => number_in_one(quality),
        Profile::OptionTwo(_, _) => quality.0,
    }
}
