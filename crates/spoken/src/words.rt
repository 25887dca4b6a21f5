//! The words of a line, between blanks and tabs.

ghost use Rattle.std.specs.Prelude.{◌≤◌, ◌≡◌, ◌+◌, length, IfSome};
ghost use Rattle.std.specs.Str.Parse.{digits_value, IsNumeral};
ghost use Rattle.spoken.specs.Words.{from_first_word, without_blanks_around, first_word_of, rest_of, number_in, two_numbers_in};

const BLANKS: [char; 2] = [' ', '\t'];

/// A text without the blanks before its first word.
fn from_first_word<'a>(text: &'a str) -> &'a str
    ensures bound { length result.now ≤ length text.now }
    ensures text { result.now ≡ from_first_word text.now }
{
    text.trim_start_matches(BLANKS)
}

/// A text without the blanks at its start and at its end.
fn without_blanks_around<'a>(text: &'a str) -> &'a str
    ensures bound { length result.now ≤ length text.now }
    ensures text { result.now ≡ without_blanks_around text.now }
{
    from_first_word(text).trim_end_matches(BLANKS)
}

/// The first word of a text, and the rest.
pub fn first_word<'a>(text: &'a str) -> (&'a str, &'a str)
    ensures bound { length result.0.now + length result.1.now ≤ length text.now }
    ensures word { result.0.now ≡ first_word_of text.now }
    ensures rest { result.1.now ≡ rest_of text.now }
{
    let text = from_first_word(text);
    let (word, rest) = text.split_once(BLANKS).unwrap_or((text, ""));
    (word, without_blanks_around(rest))
}

/// The number that a word of digits spells.
#[tactic(auto, using(crate::proofs::Numerals::plus_no_number, crate::proofs::Numerals::parsed))]
pub fn number(word: &str) -> Option<u8>
    ensures digits { IfSome result (λ n. IsNumeral 10 word.now) }
    ensures value { IfSome result (λ n. n ≡ digits_value 10 word.now) }
    ensures number { result ≡ number_in word.now }
{
    if word.starts_with('+') {
        return None;
    }
    word.parse::<u8>().ok()
}

/// The numbers that two words of digits spell.
pub fn two_numbers(text: &str) -> Option<(u8, u8)>
    ensures room { IfSome result (λ _. 2 ≤ length text.now) }
    ensures numbers { result ≡ two_numbers_in text.now }
{
    let (first, second) = first_word(text);
    Some((number(first)?, number(second)?))
}
