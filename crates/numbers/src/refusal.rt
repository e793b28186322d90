// "Numbers of refusal".

// The numbers of refusal; 0 is accepted.
pub const ACCEPTED: u8 = 0;

pub const LINE_MALFORMED: u8 = 1;

pub const KIND_UNKNOWN: u8 = 2;

// Time at or above 2^48.
pub const TIME_TOO_LARGE: u8 = 3;

// Time before that of the state.
pub const TIME_BEFORE_STATE: u8 = 4;

// Input above 15, or not 0 for 0c, 0d, 0f.
pub const INPUT_OUT_OF_RANGE: u8 = 5;

pub const ARGUMENT_OUT_OF_RANGE: u8 = 6;

// Code for an Ethernet input, frame for a line input.
pub const WRONG_INPUT_KIND: u8 = 7;

pub const FRAME_LENGTH: u8 = 8;

pub const FRAME_DESTINATION: u8 = 9;

// Octets 13-15.
pub const FRAME_PROTOCOL: u8 = 10;

// Octets 16-20.
pub const FRAME_ORGANISATION: u8 = 11;

pub const FRAME_VERSION: u8 = 12;

// Octets 25-27.
pub const FRAME_TLV: u8 = 13;

// Forced: input off or locked.
pub const FORCED_BARRED: u8 = 14;

// Manual: a forced switch stands.
pub const MANUAL_FORCED_STANDS: u8 = 15;

// Manual: input not eligible.
pub const MANUAL_NOT_ELIGIBLE: u8 = 16;

// Manual: an eligible input has lower passed quality (mode on).
pub const MANUAL_LOWER_QUALITY: u8 = 17;

// Frame buffer under 60 octets.
pub const BUFFER_TOO_SHORT: u8 = 18;

// Source address not six octets.
pub const SOURCE_NOT_SIX: u8 = 19;

// Document 02: output lent too short, as room for a list, a log or a report.
pub const OUTPUT_TOO_SHORT: u8 = 20;

// A log of option II has no old form.
pub const NO_OLD_FORM: u8 = 21;
