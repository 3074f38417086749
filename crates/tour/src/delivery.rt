// One code at a time, through any finder: made into an article, then entered, looked up or taken out.
ghost use Rattle.std.specs.Prelude.{◌≡◌, IfOk, OnErr, OnOk};
ghost use Rattle.finders.specs.Calls.{Entered, Left};
ghost use Rattle.items.specs.Articles.{made_from, same_article};
ghost use Rattle.tour.specs.declared.delivery.Trouble.TheVariants.{Spoiled, Refused};
ghost use Rattle.tour.specs.Delivery.{trouble_number, checked_in, looked_up, taken_out};

use finders::finder::Finder;
use finders::refusal::Refusal;
use items::article::Article;
use items::fault::ArticleFault;

// Why a code was not taken: it makes no article, or the finder says no.
#[derive(Clone, Copy, Debug, PartialEq, Eq, Hash)]
pub enum Trouble {
    Spoiled(ArticleFault),
    Refused(Refusal),
}

impl From<Trouble> for u8 {
    ghost from_gives = { λ trouble number. number ≡ trouble_number trouble };

    fn from(trouble: Trouble) -> u8 {
        match trouble {
            Trouble::Spoiled(fault) => u8::from(fault),
            Trouble::Refused(refusal) => u8::from(refusal),
        }
    }
}

impl From<ArticleFault> for Trouble {
    ghost from_gives = { λ fault r. r ≡ Spoiled fault };

    fn from(fault: ArticleFault) -> Trouble {
        Trouble::Spoiled(fault)
    }
}

impl From<Refusal> for Trouble {
    ghost from_gives = { λ refusal r. r ≡ Refused refusal };

    fn from(refusal: Refusal) -> Trouble {
        Trouble::Refused(refusal)
    }
}

pub fn check_in<F: Finder<Article>>(
    finder: &mut F,
    code: &[u8],
    place: usize,
) -> Result<Article, Trouble>
    ensures answer { F.Finder.lawful finder.old → result ≡ checked_in (F.Finder.bindings finder.old) (F.Finder.room finder.old) (made_from code.now) }
    ensures refused { OnErr result (finder.new ≡ finder.old) }
    ensures entered { F.Finder.lawful finder.old → IfOk result (λ article. Entered same_article (F.Finder.bindings finder.old) article place (F.Finder.bindings finder.new)) }
    ensures lawful { F.Finder.lawful finder.old → F.Finder.lawful finder.new }
{
    let article = Article::from_bytes(code)?;
    finder.enter(article, place)?;
    Ok(article)
}

pub fn look_up<F: Finder<Article>>(finder: &F, code: &[u8]) -> Result<Option<usize>, Trouble>
    ensures { F.Finder.lawful finder.now → result ≡ looked_up (F.Finder.bindings finder.now) (made_from code.now) }
{
    let article = Article::from_bytes(code)?;
    Ok(finder.find(&article))
}

pub fn take_out<F: Finder<Article>>(finder: &mut F, code: &[u8]) -> Result<(), Trouble>
    ensures answer { F.Finder.lawful finder.old → result ≡ taken_out (F.Finder.bindings finder.old) (made_from code.now) }
    ensures refused { OnErr result (finder.new ≡ finder.old) }
    ensures left { F.Finder.lawful finder.old → IfOk (made_from code.now) (λ article. OnOk result (Left same_article (F.Finder.bindings finder.old) article (F.Finder.bindings finder.new))) }
    ensures lawful { F.Finder.lawful finder.old → F.Finder.lawful finder.new }
{
    let article = Article::from_bytes(code)?;
    finder.leave(&article)?;
    Ok(())
}
