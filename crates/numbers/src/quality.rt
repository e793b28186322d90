// "Qualities and codes": the qualities of both options, and the codes and words that say them.
ghost use Rattle.std.specs.Prelude.{◌≡◌};
ghost use Rattle.numbers.specs.Quality.{is_failed};
ghost use Rattle.numbers.specs.Codes.{codes_one, codes_two, code_dnu, said_by, sign_of, quality_of_code, code_of_quality, quality_of_word, word_of_quality};

use crate::profile::Profile;

// The qualities of option I, lower is better.
pub const NOT_TOLD: Quality = Quality(0);

pub const PRC: Quality = Quality(1);

pub const SSU_A: Quality = Quality(2);

pub const SSU_B: Quality = Quality(3);

pub const SEC: Quality = Quality(4);

pub const DNU: Quality = Quality(5);

// The qualities of option II.
pub const PRS: Quality = Quality(1);

pub const STU: Quality = Quality(2);

pub const ST2: Quality = Quality(3);

pub const TNC: Quality = Quality(4);

pub const ST3E: Quality = Quality(5);

pub const ST3: Quality = Quality(6);

pub const SIC: Quality = Quality(7);

pub const ST4: Quality = Quality(8);

pub const PROV: Quality = Quality(9);

pub const DUS: Quality = Quality(10);

// Held so in both options; document 01 writes 6 and 7, which `paper_number` shows.
pub const INVALID: Quality = Quality(11);

pub const FAILED: Quality = Quality(12);

// The codes.
pub const CODE_PRC: u8 = 0b0010;

pub const CODE_SSU_A: u8 = 0b0100;

pub const CODE_SSU_B: u8 = 0b1000;

pub const CODE_SEC: u8 = 0b1011;

pub const CODE_DNU: u8 = 0b1111;

const CODE_PRS: u8 = 0b0001;

const CODE_STU: u8 = 0b0000;

const CODE_ST2: u8 = 0b0111;

const CODE_TNC: u8 = 0b0100;

const CODE_ST3E: u8 = 0b1101;

const CODE_ST3: u8 = 0b1010;

const CODE_SIC: u8 = 0b1100;

const CODE_PROV: u8 = 0b1110;

// The words.
const WORD_PRS: u16 = 0x04ff;

pub const WORD_STU: u16 = 0x08ff;

const WORD_ST2: u16 = 0x0cff;

const WORD_TNC: u16 = 0x78ff;

const WORD_ST3E: u16 = 0x7cff;

const WORD_ST3: u16 = 0x10ff;

const WORD_SIC: u16 = 0x22ff;

const WORD_ST4: u16 = 0x28ff;

const WORD_PROV: u16 = 0x40ff;

pub const WORD_DUS: u16 = 0x30ff;

// A quality's number: 1 to 5 or 1 to 10 by name, 11 invalid, 12 failed, 0 not told.
#[derive(Clone, Copy, PartialEq, Eq, PartialOrd, Ord)]
pub struct Quality(pub u8);

// The quality that a code says in option I; invalid where it says none of the five.
#[tactic(auto, unfolding(crate::specs::Codes::said_by))]
fn said_in_one(code: u16) -> Quality
    ensures { result ≡ said_by codes_one code }
{
    match code {
        0b0010 => PRC,
        0b0100 => SSU_A,
        0b1000 => SSU_B,
        0b1011 => SEC,
        0b1111 => DNU,
        0..=1 | 3 | 5..=7 | 9..=10 | 12..=14 | 16..=65_535 => INVALID,
    }
}

// The quality that a code says in option II; invalid where it says none of the nine.
#[tactic(auto, unfolding(crate::specs::Codes::said_by))]
fn said_in_two(code: u16) -> Quality
    ensures { result ≡ said_by codes_two code }
{
    match code {
        0b0001 => PRS,
        0b0000 => STU,
        0b0111 => ST2,
        0b0100 => TNC,
        0b1101 => ST3E,
        0b1010 => ST3,
        0b1100 => SIC,
        0b1110 => PROV,
        0b1111 => DUS,
        2..=3 | 5..=6 | 8..=9 | 11 | 16..=65_535 => INVALID,
    }
}

// The quality that a code says.
#[tactic(auto, unfolding(crate::specs::Codes::quality_of_code))]
pub fn quality_of_code(profile: Profile, code: u16) -> Quality
    ensures { result ≡ quality_of_code profile code }
{
    match profile {
        Profile::OptionOne => said_in_one(code),
        Profile::OptionTwo(_, _) => said_in_two(code),
    }
}

// The code that says a quality in option I; 1111, do not use, where the number is none of the five.
#[tactic(auto, unfolding(crate::specs::Codes::sign_of))]
fn code_in_one(number: u8) -> u8
    ensures { result ≡ sign_of codes_one code_dnu (record { 0 = number }) }
{
    match number {
        1 => CODE_PRC,
        2 => CODE_SSU_A,
        3 => CODE_SSU_B,
        4 => CODE_SEC,
        5 => CODE_DNU,
        _ => CODE_DNU,
    }
}

// The code that says a quality in option II; 1111 for ST4 too, which has none.
#[tactic(auto, unfolding(crate::specs::Codes::sign_of))]
fn code_in_two(number: u8) -> u8
    ensures { result ≡ sign_of codes_two code_dnu (record { 0 = number }) }
{
    match number {
        1 => CODE_PRS,
        2 => CODE_STU,
        3 => CODE_ST2,
        4 => CODE_TNC,
        5 => CODE_ST3E,
        6 => CODE_ST3,
        7 => CODE_SIC,
        9 => CODE_PROV,
        10 => CODE_DNU,
        _ => CODE_DNU,
    }
}

// The code that says a quality.
#[tactic(auto, unfolding(crate::specs::Codes::code_of_quality))]
pub fn code_of_quality(profile: Profile, quality: Quality) -> u8
    ensures { result ≡ code_of_quality profile quality }
{
    match profile {
        Profile::OptionOne => code_in_one(quality.0),
        Profile::OptionTwo(_, _) => code_in_two(quality.0),
    }
}

// The quality that a word says; invalid where it says none of the ten.
#[tactic(auto, unfolding(crate::specs::Codes::quality_of_word, crate::specs::Codes::said_by))]
pub fn quality_of_word(word: u16) -> Quality
    ensures { result ≡ quality_of_word word }
{
    match word {
        WORD_PRS => PRS,
        WORD_STU => STU,
        WORD_ST2 => ST2,
        WORD_TNC => TNC,
        WORD_ST3E => ST3E,
        WORD_ST3 => ST3,
        WORD_SIC => SIC,
        WORD_ST4 => ST4,
        WORD_PROV => PROV,
        WORD_DUS => DUS,
        _ => INVALID,
    }
}

// The word that says a quality; 30FF, do not use, where the number is none of the ten.
#[tactic(auto, unfolding(crate::specs::Codes::word_of_quality, crate::specs::Codes::sign_of))]
pub fn word_of_quality(quality: Quality) -> u16
    ensures { result ≡ word_of_quality quality }
{
    match quality.0 {
        1 => WORD_PRS,
        2 => WORD_STU,
        3 => WORD_ST2,
        4 => WORD_TNC,
        5 => WORD_ST3E,
        6 => WORD_ST3,
        7 => WORD_SIC,
        8 => WORD_ST4,
        9 => WORD_PROV,
        10 => WORD_DUS,
        _ => WORD_DUS,
    }
}

// Whether a quality is failed.
pub fn is_failed(quality: Quality) -> bool
    ensures { result ≡ is_failed quality }
{
    quality == FAILED
}
