// An article: a GTIN of 8, 12, 13 or 14 digits, whose last digit checks the others.
ghost use Rattle.std.specs.Prelude.{◌≡◌, true, reverse, length, Some, Ok, MatchResult};
ghost use Rattle.std.proofs.Props.{props};
ghost use Rattle.std.specs.Str.{all_ascii_digits};
ghost use Rattle.items.specs.Gtins.{check_sum_lem, weight_at, number_of};
ghost use Rattle.items.specs.ArticleLaws.{ArticleLaws};
ghost use Rattle.items.specs.Articles.{digits, length_of, digits_fault, digit_count, made_from, same_article, article_mark};
ghost use Rattle.std.proofs.Common.{rules};

use crate::fault::ArticleFault;
use crate::kind::Kind;

// How many digits an article has: each length's value is its number of digits.
#[derive(Clone, Copy, Debug, PartialEq, Eq, Hash)]
pub enum Length {
    Eight = 8,
    Twelve = 12,
    Thirteen = 13,
    Fourteen = 14,
}

impl TryFrom<usize> for Length {
    type Error = ArticleFault;

    ghost try_from_gives = { λ count made. made ≡ length_of count };

    fn try_from(count: usize) -> Result<Length, ArticleFault> {
        match count {
            8 => Ok(Length::Eight),
            12 => Ok(Length::Twelve),
            13 => Ok(Length::Thirteen),
            14 => Ok(Length::Fourteen),
            _ => Err(ArticleFault::WrongLength),
        }
    }
}

// Made by `Article::from_bytes` alone. Two articles of one number are equal, in however many digits.
#[derive(Clone, Copy)]
#[derive_where(Debug, PartialEq, Eq, Hash)]
pub struct Article {
    number: u64,
    #[derive_where(skip(EqHashOrd))]
    length: Length,
}

fn all_digits(bytes: &[u8]) -> bool
    ensures { result ≡ all_ascii_digits bytes.now }
{
    bytes.iter().all(u8::is_ascii_digit)
}

// From the right, the digits weigh 1 and 3 by turns: the check digit weighs 1.
fn weight(place: usize) -> u32
    ensures { result ≡ weight_at place }
{
    if place % 2 == 0 { 1 } else { 3 }
}

// The bytes of a code that has a right length and nothing but digits.
#[derive(Clone, Copy)]
struct Digits<'a> {
    bytes: &'a [u8],
    count: Length,
    ghost digits: { all_ascii_digits bytes.now ≡ true },
    ghost counted: { length_of (length bytes.now) ≡ Ok count } by { Prim.hlevel props },
}

impl<'a> TryFrom<&'a [u8]> for Digits<'a> {
    type Error = ArticleFault;

    ghost try_from_gives = { λ bytes made. MatchResult made (λ d. d.bytes ≡ bytes) (λ why. digits_fault bytes.now ≡ Some why) };

    fn try_from(bytes: &'a [u8]) -> Result<Digits<'a>, ArticleFault> {
        let count = Length::try_from(bytes.len())?;
        if !all_digits(bytes) {
            return Err(ArticleFault::NotADigit);
        }
        Ok(Digits { bytes, count })
    }
}

impl Digits<'_> {
    fn check_sum(&self) -> u32
        ensures { result ≡ check_sum_lem (reverse (digits self.now.bytes.now)) }
    {
        self.bytes
            .iter()
            .rev()
            .enumerate()
            .map(|(place, b)| u32::from(*b - b'0') * weight(place))
            .sum()
    }

    fn number(&self) -> u64
        ensures { result ≡ number_of (digits self.now.bytes.now) }
    {
        self.bytes
            .iter()
            .fold(0, |number, b| number * 10 + u64::from(*b - b'0'))
    }
}

impl Article {
    // The one call that makes an article: none without a right check digit.
    pub fn from_bytes(bytes: &[u8]) -> Result<Article, ArticleFault>
        ensures { result ≡ made_from bytes.now }
    {
        let digits = Digits::try_from(bytes)?;
        if digits.check_sum() % 10 != 0 {
            return Err(ArticleFault::WrongCheckDigit);
        }
        Ok(Article {
            number: digits.number(),
            length: digits.count,
        })
    }
}

impl Kind for Article {
    ghost same = { same_article };

    ghost mark_of = { article_mark };

    ghost figure_of = { λ x. x.number };

    ghost width_of = { λ x. digit_count x.length };

    ghost equivalence = { Prim.search rules };

    ghost marks = { Prim.search rules };

    ghost narrow = { Prim.search rules };

    fn is_same(&self, other: &Article) -> bool {
        self == other
    }

    fn mark(&self) -> u16 {
        (self.number % 65536) as u16
    }

    fn figure(&self) -> u64 {
        self.number
    }

    fn width(&self) -> u8 {
        self.length as u8
    }
}

// None is made without a right check digit, and zeros on the left do not matter.
pub fn articles_keep_their_laws()
    ensures { ArticleLaws }
{}
