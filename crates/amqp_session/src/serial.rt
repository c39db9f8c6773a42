//! Serial numbers of 32 bits (RFC 1982).
ghost use Rattle.std.specs.Prelude.{◌≡◌, ◌+◌, ◌%◌, ◌^◌, ◌<◌, ◌↔◌, Some};
ghost use Rattle.std.specs.declared.cmp.Ordering.{Ordering};
ghost use Rattle.amqp_session.specs.Serials.{IsBefore, distance};

use std::cmp::Ordering;
use std::marker::Model;

/// A serial number of 32 bits: after 2^32 - 1 comes 0 again (RFC 1982; AMQP 1.0 part 2, section 2.8.8, `sequence-no`).
#[derive(Clone, Copy, Debug, PartialEq, Eq)]
pub struct Serial {
    number: u32,
}

impl Model for Serial {
    ghost use Rattle.std.specs.Prelude.{ℕ, ◌<◌, ◌^◌};

    ghost Value = { ℕ };

    ghost view = { λ s. s.number };

    ghost invariant = { λ s. s.number < 2 ^ 32 };

    ghost inverse = { λ n. record { number = n } };
}

impl Serial {
    /// The serial number of this number.
    pub fn new(number: u32) -> Serial
        ensures { result ≡ number }
    {
        Serial { number }
    }

    /// The number.
    pub fn number(self) -> u32
        ensures { result ≡ self }
    {
        self.number
    }

    /// The sum modulo 2^32 (RFC 1982, section 3.1). One with a number from 1 to 2^31 - 1 comes later.
    pub fn plus(self, count: u32) -> Serial
        ensures sum { result ≡ (self + count) % 2 ^ 32 }
        ensures later { 0 < count → count < 2 ^ 31 → IsBefore self result }
    {
        Serial {
            number: self.number.wrapping_add(count),
        }
    }

    /// The distance from this one forward to the other: what has to be added, modulo 2^32.
    pub fn distance_to(self, other: Serial) -> u32
        ensures exact { result ≡ distance self other }
        ensures reaches { (self + result) % 2 ^ 32 ≡ other }
    {
        other.number.wrapping_sub(self.number)
    }

    /// Which of the two comes first (RFC 1982, section 3.2); of two that are 2^31 apart neither does.
    pub fn compare(self, other: Serial) -> Option<Ordering>
        ensures equal { (result ≡ Some Ordering.Equal) ↔ (self ≡ other) }
        ensures before { (result ≡ Some Ordering.Less) ↔ IsBefore self other }
        ensures behind { (result ≡ Some Ordering.Greater) ↔ IsBefore other self }
    {
        match self.distance_to(other) {
            0 => Some(Ordering::Equal),
            1..=0x7fff_ffff => Some(Ordering::Less),
            0x8000_0000 => None,
            _ => Some(Ordering::Greater),
        }
    }
}
