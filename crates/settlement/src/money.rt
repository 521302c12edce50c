// Amounts in cents, printed with two decimals.
ghost use Rattle.std.specs.Prelude.{◌≡◌, ℕ, ◌+◌, ◌-◌, ◌^◌, ◌≤◌, length, min};
ghost use Rattle.std.specs.Result.{OkIff};
ghost use Rattle.std.specs.Str.Parse.{IsNumeral, digits_value};

use crate::flaw::Flaw;
use std::fmt;
use std::marker::Model;
use std::str::FromStr;

// So many digits make a number that fits.
const MOST_DIGITS: usize = 12;

#[derive(Clone, Copy)]
pub(crate) struct Cents(u64);

impl Model for Cents {
    ghost Value = { ℕ };

    ghost view = { λ cents. cents.0 };

    ghost inverse = { λ n. record { 0 = n } };
}

impl Cents {
    pub(crate) const ZERO: Cents = Cents(0);

    pub(crate) fn saturating_add(self, other: Cents) -> Cents
        ensures { result ≡ min (self + other) (2 ^ 64 - 1) }
    {
        Cents(self.0.saturating_add(other.0))
    }
}

impl FromStr for Cents {
    type Err = Flaw;

    ghost from_str_gives = { λ word r. OkIff r (IsNumeral 10 word × (length word ≤ 12)) (digits_value 10 word) };

    #[tactic(auto, using(crate::proofs::Numerals::twelve_digits_fit))]
    fn from_str(word: &str) -> Result<Cents, Flaw> {
        // the library's parse takes a plus too
        if word.len() > MOST_DIGITS || word.starts_with('+') {
            return Err(Flaw::Cents);
        }
        let cents = word.parse().map_err(|_| Flaw::Cents)?;
        Ok(Cents(cents))
    }
}

impl fmt::Display for Cents {
    fn fmt<W: fmt::Write>(&self, f: &mut fmt::Formatter<W>) -> fmt::Result {
        let whole = self.0 / 100;
        let rest = self.0 % 100;
        write!(f, "{whole}.{rest:02}")
    }
}
