//! What a field is told, and how it is ordered, in the numbers of a command.

ghost use Rattle.std.specs.Prelude.{◌≡◌};
ghost use Rattle.spoken.specs.Telling.{number_of_report, after_telling, after_ordering, news_word, telling_text, ordering_text};

use crate::mistake::Mistake;
use field::field::Field;
use layout::position::Position;
use std::fmt;
use std::str::FromStr;

/// What a field is told of.
#[derive(Clone, Copy)]
pub enum News {
    Report,
    Block,
    Lamp,
    Occupied,
}

const ALL_NEWS: [News; 4] = [News::Report, News::Block, News::Lamp, News::Occupied];

/// What a field is told of an element or a section.
#[derive(Clone, Copy)]
pub struct Telling {
    pub news: News,
    pub number: u8,
    pub value: u8,
}

/// The number of a position that an element is ordered to.
#[derive(Clone, Copy)]
pub struct Ordering {
    pub element: u8,
    pub position: u8,
}

/// A report or a standing order in numbers: 2 for none.
pub fn number_of(position: Option<Position>) -> u8
    ensures { result ≡ number_of_report position }
{
    position.map_or(2, Position::number)
}

impl News {
    fn word(self) -> &'static str
        ensures { result.now ≡ news_word self }
    {
        match self {
            News::Report => "report",
            News::Block => "block",
            News::Lamp => "lamp",
            News::Occupied => "occupied",
        }
    }
}

impl Telling {
    /// Tells a field; a value that means nothing is not told.
    pub fn tell<F: Field>(self, field: &mut F)
        ensures { F.meaning field.new ≡ after_telling (F.meaning field.old) self }
    {
        let Telling {
            news,
            number,
            value,
        } = self;
        match news {
            News::Report if value <= 2 => field.tell_report(number, Position::try_from(value).ok()),
            News::Block if value <= 1 => field.tell_block(number, value == 1),
            News::Lamp if value <= 1 => field.tell_lamp(number, value == 1),
            News::Occupied if value <= 1 => field.tell_occupation(number, value == 1),
            _ => {}
        }
    }
}

impl Ordering {
    /// Orders an element; a position that there is not is not sent.
    pub fn send<F: Field>(self, field: &mut F)
        ensures { F.meaning field.new ≡ after_ordering (F.meaning field.old) self }
    {
        if let Ok(position) = Position::try_from(self.position) {
            field.order(self.element, position);
        }
    }
}

impl FromStr for News {
    type Err = Mistake;

    ghost use Rattle.std.specs.Option.{ok_or};
    ghost use Rattle.spoken.specs.Commands.{news_in};
    ghost use Rattle.spoken.specs.declared.mistake.Mistake.TheVariants.{NoNews};

    ghost from_str_gives = { λ word answer. answer ≡ ok_or (news_in word) NoNews };

    fn from_str(word: &str) -> Result<News, Mistake> {
        ALL_NEWS
            .iter()
            .copied()
            .find(|news| news.word() == word)
            .ok_or(Mistake::NoNews)
    }
}

impl fmt::Display for News {
    ghost use Rattle.std.specs.Prelude.{Some};

    ghost output = { λ news. Some (news_word news) };

    fn fmt<W: fmt::Write>(&self, f: &mut fmt::Formatter<W>) -> fmt::Result {
        f.write_str(self.word())
    }
}

impl fmt::Display for Telling {
    ghost use Rattle.std.specs.Prelude.{Some};

    ghost output = { λ telling. Some (telling_text telling) };

    fn fmt<W: fmt::Write>(&self, f: &mut fmt::Formatter<W>) -> fmt::Result {
        let Telling {
            news,
            number,
            value,
        } = self;
        write!(f, "tell {news} {number} {value}")
    }
}

impl fmt::Display for Ordering {
    ghost use Rattle.std.specs.Prelude.{Some};

    ghost output = { λ order. Some (ordering_text order) };

    fn fmt<W: fmt::Write>(&self, f: &mut fmt::Formatter<W>) -> fmt::Result {
        let Ordering { element, position } = self;
        write!(f, "order {element} {position}")
    }
}
