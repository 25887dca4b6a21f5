//! Tests of the numbers of a way, place by place.

ghost use Rattle.std.specs.Prelude.{◌≡◌};
ghost use Rattle.paths.specs.Places.{are_within, are_new, are_signals_between};

use layout::element::Element;
use layout::ports::element_at;
use layout::ways::inner;

/// Whether all numbers of a way are elements of the drawing.
#[tactic(auto, unfolding(crate::specs::Places::are_within))]
pub(crate) fn all_within(elements: &[Element], way: &[u8]) -> bool
    ensures { result ≡ are_within elements.now way.now }
{
    way.iter().all(|number| (*number as usize) < elements.len())
}

/// Whether no number of a way stands earlier in it or in the way before it.
#[tactic(auto, unfolding(crate::specs::Places::are_new, crate::specs::Places::lacks))]
pub(crate) fn all_new(before: &[u8], way: &[u8]) -> bool
    ensures { result ≡ are_new before.now way.now }
{
    way.iter().enumerate().all(|(place, number)| {
        !before.contains(number) && !way[..place].contains(number)
    })
}

/// Whether all elements between the first and the last of a way are signals.
#[tactic(auto, unfolding(crate::specs::Places::are_signals_between))]
pub(crate) fn all_signals_between(elements: &[Element], way: &[u8]) -> bool
    ensures { result ≡ are_signals_between elements.now way.now }
{
    inner(way).iter().all(|number| element_at(elements, *number as usize).kind.is_signal())
}
