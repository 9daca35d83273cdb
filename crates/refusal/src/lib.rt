#![tactic(auto)]

// Why a book, a list, a step or a session is refused, with document 01's numbers ("Turned down"; include/fit.h has the same names).

ghost use Rattle.std.specs.Prelude.{◌≡◌, ℕ};
ghost use Rattle.refusal.specs.Numbers.{number_of, refused_number, number_by};

use leb128::NumberError;

#[derive(Clone, Copy, Debug, PartialEq, Eq)]
pub enum Refusal {
    // 1, 2: bytes that end within a number or before one; a number not in shortest form, or above the limit
    Cut,
    BadNumber,
    // 3, 4: bytes left over; a number of terms, a symbol, a count or a capacity out of range
    LeftOver,
    OutOfRange,
    // 5: an argument that is not lower than its term
    NotLower,
    // 7: an area that is too short or not sound
    NotSound,
    // 8: a number of no term or entry, or of no step
    NamesNothing,
    // 9, 10: a choice of what is no free variable; of one that occurs in the value
    NotFree,
    Occurs,
    // 11, 12: no room for the entries; for a line
    Full,
    TooManyLines,
    // 13: an output that is too short
    TooShort,
    // 14: a list that names a term twice
    NamedTwice,
}

impl From<NumberError> for Refusal {
    ghost from_gives = { λ e r. r ≡ refused_number e };

    fn from(e: NumberError) -> Refusal {
        match e {
            NumberError::Cut => Refusal::Cut,
            NumberError::Invalid => Refusal::BadNumber,
        }
    }
}

impl From<Refusal> for u32 {
    ghost from_gives = { λ r n. n ≡ number_of r };

    fn from(r: Refusal) -> u32 {
        match r {
            Refusal::Cut => 1,
            Refusal::BadNumber => 2,
            Refusal::LeftOver => 3,
            Refusal::OutOfRange => 4,
            Refusal::NotLower => 5,
            Refusal::NotSound => 7,
            Refusal::NamesNothing => 8,
            Refusal::NotFree => 9,
            Refusal::Occurs => 10,
            Refusal::Full => 11,
            Refusal::TooManyLines => 12,
            Refusal::TooShort => 13,
            Refusal::NamedTwice => 14,
        }
    }
}

// What is told by a number: a `Refusal`, and any number, by itself. What prints a refusal, says it or stores by it takes either; what refuses
// gives a `Refusal`. A trait of its own: `From` says by a relation what it gives, and definitions go by the number.
pub trait Numbered: Copy {
    ghost its_number: { Self → ℕ };

    fn number(self) -> u32
        ensures { result ≡ its_number self };
}

impl Numbered for Refusal {
    ghost its_number = { number_of };

    fn number(self) -> u32 {
        u32::from(self)
    }
}

impl Numbered for u32 {
    ghost its_number = { λ n. n };

    fn number(self) -> u32 {
        self
    }
}

// The number that a call gives for an answer: 0 where nothing is refused.
pub fn number<T: Drop, E: Numbered>(answer: Result<T, E>) -> u32
    ensures { result ≡ number_by E.its_number answer }
{
    match answer {
        // a name, since the check doesn't cover `_` here: two arms that hold different parts of the answer
        Ok(_accepted) => 0,
        Err(refusal) => refusal.number(),
    }
}
