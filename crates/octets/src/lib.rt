// Octets copied from one lent text to the front of another.
#![tactic(auto)]

ghost use Rattle.std.specs.Prelude.{◌≡◌, ◌≤◌, ◌<◌, ◌++◌, length, take, drop};

// Copies a text to the front of another, as far as that reaches, and answers how many octets that
// is. What stands behind them stays. A text that fits has a way of its own, so that one of a known
// length is copied with no call.
pub fn copy(from: &[u8], to: &mut [u8]) -> usize
    ensures whole { length from.now ≤ length to.old → (result ≡ length from.now) ×
        (to.new ≡ take (length from.now) from.now ++ drop (length from.now) to.old) }
    ensures front { length to.old < length from.now → (result ≡ length to.old) ×
        (to.new ≡ take (length to.old) from.now) }
{
    let count = from.len();
    if to.len() < count {
        let room = to.len();
        to.copy_from_slice(&from[..room]);
        return room;
    }
    to[..count].copy_from_slice(from);
    count
}
