// Numbers as the tools write them and read them: lists in decimal, a space between two, into lent
// output; and arguments that are numbers.
//
// No public function has a `requires`: where output might have no room for the numbers, nothing is
// written, and a text may be anything.
#![tactic(auto)]

ghost use Rattle.std.specs.Prelude.{◌≡◌, ◌+◌, ◌*◌, ◌≤◌, length};
ghost use Rattle.digits.specs.Decimal.{decimal_of};
ghost use Rattle.text.specs.Text.{widest_number, PutNumbers, read_number};
ghost use Rattle.text.specs.PutAt.{next_text, Put};

use digits::decimal::decimal;

// A space and 20 digits hold every number of 64 bits.
const WIDEST_NUMBER: usize = 21;

// Writes a number from a place of `out`, and answers the place behind it.
fn put_decimal(out: &mut [u8], place: usize, number: u64) -> usize
    requires { place + length (decimal_of number) ≤ length out.old }
    ensures { Put (decimal_of number) place out.old result out.new }
{
    let copied = octets::copy(decimal(number).as_slice(), &mut out[place..]);
    place + copied
}

// Writes a number, behind a space where another stands before it.
fn put_next(out: &mut [u8], place: usize, number: u64, behind: bool) -> usize
    requires { place + widest_number ≤ length out.old }
    ensures { Put (next_text behind number) place out.old result out.new }
{
    if behind {
        out[place] = b' ';
        return put_decimal(out, place + 1, number);
    }
    put_decimal(out, place, number)
}

// Writes numbers that have room.
fn put_all(numbers: &[u64], out: &mut [u8], place: usize) -> usize
    requires { place + widest_number * length numbers.now ≤ length out.old }
    ensures { PutNumbers numbers.now place out.old result out.new }
{
    let mut end = place;
    for (taken, number) in numbers.iter().enumerate() {
        end = put_next(out, end, *number, 0 < taken);
    }
    end
}

// Writes numbers in decimal from a place of `out`, a space between two, and answers the place
// behind them. Where there is no room for 21 characters a number, nothing is written.
pub fn put_numbers(numbers: &[u64], out: &mut [u8], place: usize) -> usize
    ensures { PutNumbers numbers.now place out.old result out.new }
{
    if out.len() < place {
        return place;
    }
    if (out.len() - place) / WIDEST_NUMBER < numbers.len() {
        return place;
    }
    put_all(numbers, out, place)
}

// Reads a number in decimal digits, up to `most`. There is none in any other text, nor a larger one.
pub fn read_number(text: &[u8], most: u64) -> Option<u64>
    ensures { result ≡ read_number text.now most }
{
    if text.is_empty() {
        return None;
    }
    let mut value: u64 = 0;
    for character in text {
        let digit = match *character {
            b'0'..=b'9' => (*character - b'0') as u64,
            _ => return None,
        };
        if most < digit || (most - digit) / 10 < value {
            return None;
        }
        value = value * 10 + digit;
    }
    Some(value)
}
