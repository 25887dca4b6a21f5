//! A field: outdoor equipment that is asked, ordered and told.

ghost use Rattle.std.specs.Prelude.{◌≡◌};
ghost use Rattle.field.specs.Meaning.{Meaning, Sized, report_of, blocked_of, burning_of, order_of, occupied_of, ordered, told_report, told_block, told_lamp, told_occupation};

use layout::position::Position;

/// Answers for 96 elements and 64 sections, and takes orders and news of them; beyond these it has fixed answers and changes nothing.
pub trait Field {
    ghost meaning: { Self → Meaning };

    /// The position in which the element is proved to lie; none is no control.
    fn report(&self, element: u8) -> Option<Position>
        ensures { result ≡ report_of (meaning self.now) element };

    fn is_blocked(&self, element: u8) -> bool
        ensures { result ≡ blocked_of (meaning self.now) element };

    /// Whether the stop lamp of the element burns.
    fn is_burning(&self, element: u8) -> bool
        ensures { result ≡ burning_of (meaning self.now) element };

    /// The position that the element was last ordered to.
    fn standing_order(&self, element: u8) -> Option<Position>
        ensures { result ≡ order_of (meaning self.now) element };

    fn is_occupied(&self, section: u8) -> bool
        ensures { result ≡ occupied_of (meaning self.now) section };

    /// Orders the element to the position: a report of another position is given up.
    fn order(&mut self, element: u8, position: Position)
        ensures { meaning self.new ≡ ordered (meaning self.old) element position };

    fn tell_report(&mut self, element: u8, report: Option<Position>)
        ensures { meaning self.new ≡ told_report (meaning self.old) element report };

    fn tell_block(&mut self, element: u8, blocked: bool)
        ensures { meaning self.new ≡ told_block (meaning self.old) element blocked };

    fn tell_lamp(&mut self, element: u8, burning: bool)
        ensures { meaning self.new ≡ told_lamp (meaning self.old) element burning };

    fn tell_occupation(&mut self, section: u8, occupied: bool)
        ensures { meaning self.new ≡ told_occupation (meaning self.old) section occupied };

    ghost sized: { (f : Self) → Sized (meaning f) };
}
