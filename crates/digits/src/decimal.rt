// Decimal text: counts, line numbers and the like.
//
// No public function has a `requires`: every number of 64 bits has its text.
ghost use Rattle.std.specs.Prelude.{◌≡◌, ◌+◌, ◌<◌, drop};
ghost use Rattle.digits.specs.Digits.{numeral0};
ghost use Rattle.digits.specs.Decimal.{decimal};

// A number's digits, the last of them in the last of twenty places, and where they start; zeros
// stand before them. Twenty places hold every number of 64 bits.
#[derive(Clone, Copy)]
pub struct DecimalText {
    pub text: [u8; 20],
    pub start: usize,
}

impl DecimalText {
    // The digits alone.
    pub fn as_slice(&self) -> &[u8]
        ensures { result.now ≡ drop self.now.start self.now.text }
    {
        &self.text[self.start.min(20)..]
    }
}

// The numeral of a number below ten.
fn numeral(value: u64) -> u8
    requires { value < 10 }
    ensures { result ≡ numeral0 + value }
{
    b'0' + value as u8
}

// A number in decimal, with no leading zeros. The text is filled from the right.
pub fn decimal(number: u64) -> DecimalText
    ensures { result ≡ decimal number }
{
    let mut text = [0; 20];
    let mut start: usize = 20;
    let mut rest = number;
    while 10 <= rest {
        start -= 1;
        text[start] = numeral(rest % 10);
        rest /= 10;
    }
    start -= 1;
    text[start] = numeral(rest);
    DecimalText { text, start }
}
