//! What is known of one element outdoors.

ghost use Rattle.std.specs.Prelude.{◌≡◌};
ghost use Rattle.field.specs.Devices.{blank, unknown};

use layout::position::Position;

/// All that a field means for one element.
#[derive(Clone, Copy, PartialEq, Eq, Default)]
pub struct Device {
    /// The position in which the element is proved to lie; none is no control.
    pub report: Option<Position>,
    pub blocked: bool,
    /// The stop lamp burns.
    pub burning: bool,
    /// The position that the element was last ordered to.
    pub order: Option<Position>,
}

/// An element of which nothing has been heard.
pub fn blank_device() -> Device
    ensures { result ≡ blank }
{
    Device::default()
}

/// What is answered of an element that is not there.
pub fn unknown_device() -> Device
    ensures { result ≡ unknown }
{
    Device {
        blocked: true,
        ..blank_device()
    }
}
