//! Numbers in decimal digits.
ghost use Rattle.std.specs.Prelude.{◌≡◌, ◌+◌, ◌-◌, ◌*◌, ◌≤◌, ◌∷◌, MatchOption};
ghost use Rattle.question_lines.specs.Words.{Extends, Digits};

/// The number with one digit more, if the byte is a digit that may follow: none follows a 0, and none may take it past 32 bits.
fn extended(number: u32, byte: u8) -> Option<u32>
    ensures { MatchOption result (Extends number byte → ⊥) (λ longer. Extends number byte × (longer ≡ number * 10 + (byte - 48))) }
{
    if number == 0 || !byte.is_ascii_digit() {
        return None;
    }
    let digit = (byte - b'0') as u32;
    number.checked_mul(10)?.checked_add(digit)
}

/// The number that a digit and the bytes after it make, as far as they make one, and how many of those bytes it takes.
#[tactic(auto, using(crate::proofs::Numbers::first_digit, crate::proofs::Numbers::next_digit, crate::proofs::Numbers::digits_read))]
pub(crate) fn number_from(digit: u8, rest: &[u8]) -> (u32, usize)
    requires { (48 ≤ digit) × (digit ≤ 57) }
    ensures { Digits (digit ∷ rest.now) 0 result.0 (result.1 + 1) }
{
    let mut number = (digit - b'0') as u32;
    for (taken, byte) in rest.iter().enumerate() {
        match extended(number, *byte) {
            Some(longer) => number = longer,
            None => return (number, taken),
        }
    }
    (number, rest.len())
}
