// ESMC frames, read and written: document 01, "ESMC frame".
//
// Octets are counted from 1, as the document counts them. No public function has a `requires`: a
// frame, a source address and a buffer may have any length and any content.
#![tactic(auto)]

ghost use Rattle.std.specs.Prelude.{◌&&◌, ◌≡◌, ◌+◌, ◌-◌, ◌*◌, ◌≤◌, ◌<◌, leb, length, take, drop};
ghost use mathlib.Core.List.{foldr};
ghost use Rattle.frame.specs.Octets.{shortest_frame, octet, same, has_octets};
ghost use Rattle.frame.specs.Read.{right_version, right_tlv, frame_number, event_flag, source_address};
ghost use Rattle.frame.specs.Read.{read_code, read_frame, number_of_read};
ghost use Rattle.frame.specs.Write.{written_length, source_length, octet21};
ghost use Rattle.frame.specs.Write.{header_octets, data_octets, put_octets, WriteFrame};

use numbers::refusal::{
    ACCEPTED, ARGUMENT_OUT_OF_RANGE, BUFFER_TOO_SHORT, FRAME_DESTINATION, FRAME_LENGTH,
    FRAME_ORGANISATION, FRAME_PROTOCOL, FRAME_TLV, FRAME_VERSION, SOURCE_NOT_SIX,
};

// "60 to 1,514 octets": the shortest frame.
const SHORTEST_FRAME: usize = 60;

// "60 to 1,514 octets": the longest frame.
const LONGEST_FRAME: usize = 1_514;

// Octets 1-6: "destination 01-80-C2-00-00-02"
const DESTINATION: [u8; 6] = [0x01, 0x80, 0xc2, 0x00, 0x00, 0x02];

// Octets 13-20: "13-14 88-09; 15 0A; 16-18 00-19-A7; 19-20 00-01"
const PROTOCOL_AND_ORGANISATION: [u8; 8] = [0x88, 0x09, 0x0a, 0x00, 0x19, 0xa7, 0x00, 0x01];

// "octets 13-15"
const PROTOCOL_LENGTH: usize = 3;

// An octet's upper half counts sixteens; its lower half is what they leave.
const HALF: u8 = 16;

// Octet 21: "upper half version 1"
const VERSION: u8 = 1;

// Octet 21: "bit 3 event flag"
const EVENT_BIT: u8 = 8;

// Octets 25-27: "25 type 01; 26-27 length 00-04"
const TLV: [u8; 3] = [0x01, 0x00, 0x04];

// Of octets 21 to 28, the bits that are looked at: the upper half of 21, and 25 to 27.
const LOOKED_AT: [u8; 8] = [0xf0, 0, 0, 0, 0xff, 0xff, 0xff, 0];

// "We write 60 octets"
pub const WRITTEN_LENGTH: usize = 60;

// "a lent six-octet source address"
pub const SOURCE_LENGTH: usize = 6;

// "code above 15"
const LARGEST_CODE: u8 = 15;

// What reading a frame answers: its code, or the number of its refusal.
#[derive(Clone, Copy)]
pub enum FrameRead {
    Code(u8),
    Refused(u8),
}

// What a frame says: its code or the number of its refusal, its event flag and its source address.
// A frame that is refused tells its number and no more: no flag, six zeros.
#[derive(Clone, Copy)]
pub struct FrameMessage {
    pub read: FrameRead,
    pub event: bool,
    pub source: [u8; 6],
}

// The octet of a frame that has a number.
fn octet(frame: &[u8], number: usize) -> u8
    requires { (0 < number) × (number ≤ length frame.now) }
    ensures { result ≡ octet frame.now number }
{
    frame[number - 1]
}

// Two octets of a row from `place` on as one number, the first the lowest: a processor that reads
// low ends first has them in one go.
fn two_octets(row: &[u8], place: usize) -> u16
    requires { place + 2 ≤ length row.now }
    ensures { result ≡
        foldr (λ octet higher. higher * 256 + octet) 0 (take 2 (drop place row.now)) }
{
    u16::from_le_bytes([row[place], row[place + 1]])
}

// Four octets, likewise.
fn four_octets(row: &[u8], place: usize) -> u32
    requires { place + 4 ≤ length row.now }
    ensures { result ≡
        foldr (λ octet higher. higher * 256 + octet) 0 (take 4 (drop place row.now)) }
{
    u32::from_le_bytes([row[place], row[place + 1], row[place + 2], row[place + 3]])
}

// Eight octets, likewise.
fn eight_octets(row: &[u8], place: usize) -> u64
    requires { place + 8 ≤ length row.now }
    ensures { result ≡
        foldr (λ octet higher. higher * 256 + octet) 0 (take 8 (drop place row.now)) }
{
    u64::from_le_bytes([
        row[place],
        row[place + 1],
        row[place + 2],
        row[place + 3],
        row[place + 4],
        row[place + 5],
        row[place + 6],
        row[place + 7],
    ])
}

// Whether the octets of a row from `place` on are the rest of `wanted` from `start` on, three at
// most: two are compared at once.
fn has_rest(row: &[u8], place: usize, wanted: &[u8], start: usize) -> bool
    requires { (start ≤ length wanted.now)
        × ((length wanted.now < start + 4)
        × (place + (length wanted.now - start) ≤ length row.now)) }
    ensures { result ≡
        same
        (take (length wanted.now - start) (drop place row.now))
        (drop start wanted.now) }
{
    match wanted.len() - start {
        0 => true,
        1 => row[place] == wanted[start],
        2 => two_octets(row, place) == two_octets(wanted, start),
        _ => {
            two_octets(row, place) == two_octets(wanted, start)
                && row[place + 2] == wanted[start + 2]
        }
    }
}

// Whether `wanted` stands in a row from `place` on: octets in a frame, or characters in a line.
// Four are compared at once.
pub fn has_row(row: &[u8], place: usize, wanted: &[u8]) -> bool
    ensures { result ≡
        (leb (place + length wanted.now) (length row.now)
        && same
        (take (length wanted.now) (drop place row.now))
        wanted.now) }
{
    if row.len() < place || row.len() - place < wanted.len() {
        return false;
    }
    let fours = wanted.len() / 4;
    for four in 0..fours {
        let passed = 4 * four;
        if four_octets(row, place + passed) != four_octets(wanted, passed) {
            return false;
        }
    }
    let passed = 4 * fours;
    has_rest(row, place + passed, wanted, passed)
}

// Whether the octets of a frame from number `first` on are those of `wanted`.
fn has_octets(frame: &[u8], first: usize, wanted: &[u8]) -> bool
    requires { (0 < first) × (first - 1 + length wanted.now ≤ length frame.now) }
    ensures { result ≡ has_octets frame.now first wanted.now }
{
    has_row(frame, first - 1, wanted)
}

// Whether version and TLV are right: octets 21 to 28, in the bits that are looked at, in one
// comparison.
fn has_version_and_tlv(frame: &[u8]) -> bool
    requires { shortest_frame ≤ length frame.now }
    ensures { result ≡ (right_version frame.now && right_tlv frame.now) }
{
    let wanted = [HALF * VERSION, 0, 0, 0, TLV[0], TLV[1], TLV[2], 0];
    eight_octets(frame, 20) & eight_octets(&LOOKED_AT, 0) == eight_octets(&wanted, 0)
}

// The number that a frame is refused with, the smallest that applies; 0 accepted. A good frame is
// seen to be one in few and wide comparisons; a number is looked for where one of them fails.
#[tactic(auto, unfolding(crate::specs::Read::frame_number, crate::specs::Read::right_length, crate::specs::Read::right_destination, crate::specs::Read::right_protocol, crate::specs::Read::right_organisation, crate::specs::Read::right_version, crate::specs::Read::right_tlv, numbers::specs::Rows::first_that_applies))]
fn frame_number(frame: &[u8]) -> u8
    ensures { result ≡ frame_number frame.now }
{
    if frame.len() < SHORTEST_FRAME || LONGEST_FRAME < frame.len() {
        return FRAME_LENGTH;
    }
    if !has_octets(frame, 1, &DESTINATION) {
        return FRAME_DESTINATION;
    }
    if !has_octets(frame, 13, &PROTOCOL_AND_ORGANISATION) {
        if !has_octets(frame, 13, &PROTOCOL_AND_ORGANISATION[..PROTOCOL_LENGTH]) {
            return FRAME_PROTOCOL;
        }
        return FRAME_ORGANISATION;
    }
    if !has_version_and_tlv(frame) {
        if octet(frame, 21) / HALF != VERSION {
            return FRAME_VERSION;
        }
        return FRAME_TLV;
    }
    ACCEPTED
}

// The code of a frame alone, or the smallest number of refusal that applies to it.
#[tactic(auto, unfolding(crate::specs::Read::read_code))]
pub fn read_code(frame: &[u8]) -> FrameRead
    ensures { result ≡ read_code frame.now }
{
    let number = frame_number(frame);
    if number != ACCEPTED {
        return FrameRead::Refused(number);
    }
    FrameRead::Code(octet(frame, 28) % HALF)
}

// The event flag of a frame.
fn event_flag(frame: &[u8]) -> bool
    requires { shortest_frame ≤ length frame.now }
    ensures { result ≡ event_flag frame.now }
{
    octet(frame, 21) / EVENT_BIT % 2 == 1
}

// The source address of a frame.
fn source_address(frame: &[u8]) -> [u8; 6]
    requires { shortest_frame ≤ length frame.now }
    ensures { result ≡ source_address frame.now }
{
    [
        octet(frame, 7),
        octet(frame, 8),
        octet(frame, 9),
        octet(frame, 10),
        octet(frame, 11),
        octet(frame, 12),
    ]
}

// Reads a frame: its code, its event flag and its source address, or the smallest number of refusal
// that applies to it.
#[tactic(auto, unfolding(crate::specs::Read::read_frame, crate::specs::Read::read_code))]
pub fn read_frame(frame: &[u8]) -> FrameMessage
    ensures { result ≡ read_frame frame.now }
{
    let read = read_code(frame);
    let FrameRead::Code(_) = read else {
        return FrameMessage {
            read,
            event: false,
            source: [0; SOURCE_LENGTH],
        };
    };
    let event = event_flag(frame);
    let source = source_address(frame);
    FrameMessage {
        read,
        event,
        source,
    }
}

// The number of a reading's refusal; 0 accepted.
pub fn number_of_read(read: FrameRead) -> u8
    ensures { result ≡ number_of_read read }
{
    match read {
        FrameRead::Code(_) => ACCEPTED,
        FrameRead::Refused(number) => number,
    }
}

// Puts a row of octets into a buffer from number `first` on, and keeps the others. The library's
// copy can't be compiled for 32-bit processors: it compares addresses as numbers of 64 bits.
fn put_octets(buffer: &mut [u8], first: usize, row: &[u8])
    requires { (0 < first) × (first - 1 + length row.now ≤ length buffer.old) }
    ensures { buffer.new ≡ put_octets buffer.old first row.now }
{
    let start = first - 1;
    for (put, octet) in row.iter().enumerate() {
        buffer[start + put] = *octet;
    }
}

// Octet 21 of a frame that is written.
fn octet_21(event: bool) -> u8
    ensures { result ≡ octet21 event }
{
    if event {
        HALF * VERSION + EVENT_BIT
    } else {
        HALF * VERSION
    }
}

// Puts octets 1 to 24 of a frame into a buffer, and keeps the others.
fn put_header(buffer: &mut [u8], source: &[u8], event: bool)
    requires { (length source.now ≡ source_length) × (written_length ≤ length buffer.old) }
    ensures { buffer.new ≡
        put_octets buffer.old 1 (header_octets source.now event) }
{
    put_octets(buffer, 1, &DESTINATION);
    put_octets(buffer, 7, source);
    put_octets(buffer, 13, &PROTOCOL_AND_ORGANISATION);
    put_octets(buffer, 21, &[octet_21(event)]);
    put_octets(buffer, 22, &[0; 3]);
}

// Puts octets 25 to 60 of a frame into a buffer, and keeps the others.
fn put_data(buffer: &mut [u8], code: u8)
    requires { written_length ≤ length buffer.old }
    ensures { buffer.new ≡ put_octets buffer.old 25 (data_octets code) }
{
    put_octets(buffer, 25, &TLV);
    put_octets(buffer, 28, &[code]);
    put_octets(buffer, 29, &[0; WRITTEN_LENGTH - 28]);
}

// Writes a frame into the first 60 octets of `buffer` and keeps the others; a refusal keeps all, and
// tells its number.
#[tactic(auto, unfolding(crate::specs::Write::write_answer))]
pub fn write_frame(buffer: &mut [u8], source: &[u8], event: bool, code: u8) -> Result<(), u8>
    ensures { WriteFrame
        buffer.old source.now event code result buffer.new }
{
    if LARGEST_CODE < code {
        return Err(ARGUMENT_OUT_OF_RANGE);
    }
    if source.len() != SOURCE_LENGTH {
        return Err(SOURCE_NOT_SIX);
    }
    if buffer.len() < WRITTEN_LENGTH {
        return Err(BUFFER_TOO_SHORT);
    }
    put_header(buffer, source, event);
    put_data(buffer, code);
    Ok(())
}
