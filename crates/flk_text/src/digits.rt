//! Digits of any length, read into a number of at most 18 digits and the zeros behind it.

ghost use Rattle.std.specs.Prelude.{◌≡◌, ℕ, ◌+◌, ◌-◌, ◌*◌, ◌<◌, ◌≤◌, ◌^◌, length};
ghost use Rattle.flk_text.specs.Numeral.{number_from, AreDigits};
ghost use Rattle.flk_text.specs.DigitsRead.{StandsFor};

/// The digits read so far.
#[derive(Clone, Copy)]
pub struct DigitsRead {
    /// The number that they write without the zeros at its end, below 10^18.
    pub significand: u64,
    /// How many zeros stand at its end; 0 where the number is 0.
    pub zeros: u64,
    /// Whether the number without the zeros at its end has more than 18 digits. The two others say nothing then.
    pub long: bool,
}

/// No digits, which write 0.
pub const NO_DIGITS: DigitsRead = DigitsRead {
    significand: 0,
    zeros: 0,
    long: false,
};

const LONG: DigitsRead = DigitsRead {
    significand: 0,
    zeros: 0,
    long: true,
};

/// 10 to a power of at most 36.
#[tactic(auto, using(crate::proofs::PowersOfTen::ten_most))]
pub fn power_of_ten(places: u32) -> u128
    requires { places ≤ 36 }
    ensures value { result ≡ 10 ^ places }
    ensures most { result ≤ 10 ^ 36 }
{
    10u128.pow(places)
}

/// A number, the zeros at its end, and a digit behind them.
fn joined(significand: u64, zeros: u64, digit: u8) -> u128
    requires few { significand < 10 ^ 18 }
    requires room { zeros ≤ 17 }
    requires digit { digit ≤ 9 }
    ensures { result ≡ significand * 10 ^ (zeros + 1) + digit }
{
    u128::from(significand) * power_of_ten(zeros as u32 + 1) + u128::from(digit)
}

/// The digits with one more.
fn with_digit(digits: DigitsRead, digit: u8) -> DigitsRead
    requires digit { digit ≤ 9 }
    requires few { digits.significand < 10 ^ 18 }
    requires room { digits.zeros < 2 ^ 64 - 1 }
    ensures few { result.significand < 10 ^ 18 }
    ensures stands { (n : ℕ) → StandsFor digits n → StandsFor result (n * 10 + digit) }
    ensures zeros { result.zeros ≤ digits.zeros + 1 }
{
    if digits.long {
        return digits;
    }
    if digit == 0 {
        if digits.significand == 0 {
            return digits;
        }
        return DigitsRead {
            significand: digits.significand,
            zeros: digits.zeros + 1,
            long: false,
        };
    }
    if digits.significand == 0 {
        return DigitsRead {
            significand: u64::from(digit),
            zeros: 0,
            long: false,
        };
    }
    if digits.zeros > 17 {
        return LONG;
    }
    let wide = joined(digits.significand, digits.zeros, digit);
    if wide < 1_000_000_000_000_000_000 {
        DigitsRead {
            significand: wide as u64,
            zeros: 0,
            long: false,
        }
    } else {
        LONG
    }
}

/// The digits with more digits behind them.
pub fn with_digits(start: DigitsRead, digits: &[u8]) -> DigitsRead
    requires are { AreDigits digits.now }
    requires few { start.significand < 10 ^ 18 }
    requires room { start.zeros + length digits.now < 2 ^ 64 }
    ensures few { result.significand < 10 ^ 18 }
    ensures stands { (n : ℕ) → StandsFor start n → StandsFor result (number_from n digits.now) }
    ensures zeros { result.zeros ≤ start.zeros + length digits.now }
{
    let mut read = start;
    for digit in digits {
        read = with_digit(read, *digit - b'0');
    }
    read
}
