// Decimal digits, written into the middle part of a buffer.
ghost use Rattle.std.specs.Prelude.{◌≡◌, ◌+◌, ◌%◌, ◌≤◌, length, decimal};
ghost use Rattle.printing.specs.Numerals.{InDecimal};

// How many decimal digits `n` has.
#[tactic(auto, using(crate::proofs::Decimal::one_digit, crate::proofs::Decimal::more_digits, crate::proofs::Decimal::few_digits))]
pub(crate) fn digit_count(n: u16) -> usize
    ensures value { result ≡ length (decimal n) }
    ensures bound { result ≤ 5 }
{
    if n < 10 { 1 } else { digit_count(n / 10) + 1 }
}

// The last decimal digit of `n`.
fn last_digit(n: u16) -> u8
    ensures { result ≡ 48 + n % 10 }
{
    b'0' + (n % 10) as u8
}

// Writes the decimal digits of `n` over `part`, which has their length: the last one, and those of the other digits before it.
#[tactic(auto, using(crate::proofs::Decimal::more_digits, crate::proofs::Reading::in_decimal))]
pub(crate) fn write_digits(part: &mut [u8], n: u16)
    requires { length part.old ≡ length (decimal n) }
    ensures bytes { part.new ≡ decimal n }
    ensures law { InDecimal n part.new }
{
    if let Some((last, others)) = part.split_last_mut() {
        *last = last_digit(n);
        if n >= 10 {
            write_digits(others, n / 10);
        }
    }
}
