// Why bytes make no article.
ghost use Rattle.std.specs.Prelude.{◌≡◌};
ghost use Rattle.items.specs.Faults.{fault_number};

use thiserror::Error;

// Each fault's value is its number.
#[derive(Clone, Copy, Debug, PartialEq, Eq, Hash, Error)]
pub enum ArticleFault {
    // Not 8, 12, 13 or 14 bytes.
    #[error("a code has 8, 12, 13 or 14 digits")]
    WrongLength = 9,
    // A byte is no decimal digit.
    #[error("one of its characters is no digit")]
    NotADigit = 10,
    // The check digit does not fit the others.
    #[error("its check digit is wrong")]
    WrongCheckDigit = 11,
}

impl From<ArticleFault> for u8 {
    ghost from_gives = { λ fault number. number ≡ fault_number fault };

    fn from(fault: ArticleFault) -> u8 {
        fault as u8
    }
}
