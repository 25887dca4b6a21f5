//! Following a way from element to element.

ghost use Rattle.std.specs.Prelude.{◌≡◌, ◌∷◌};
ghost use Rattle.paths.specs.Following.{turns, exit, step, follows};

use layout::element::{Element, Join};
use layout::kind::Kind;
use layout::ports::element_at;

/// Whether an element entered at a port may be left by another.
fn may_turn(kind: Kind, entered: u8, left: u8) -> bool
    ensures { result ≡ turns kind entered left }
{
    left < kind.port_count() && left != entered && (!kind.is_point() || entered == 0 || left == 0)
}

/// Where the next element is entered from a port, if another port of its element is the way to it.
fn exit_by(elements: &[Element], entered: Join, next: u8, left: u8) -> Option<u8>
    ensures { result ≡ exit elements.now entered.element entered.port next left }
{
    let element = element_at(elements, entered.element as usize);
    element
        .join(left)
        .filter(|join| join.element == next && may_turn(element.kind, entered.port, left))
        .map(|join| join.port)
}

/// Where the next element is entered from an element that was entered at a port.
fn step_to(elements: &[Element], entered: Join, next: u8) -> Option<u8>
    ensures { result ≡ step elements.now entered.element entered.port next }
{
    (0..3u8).find_map(|left| exit_by(elements, entered, next, left))
}

/// Where the last of some elements is entered by the way over them from a first one, which is entered at port 0.
pub(crate) fn follow(elements: &[Element], first: u8, rest: &[u8]) -> Option<u8>
    ensures { result ≡ follows elements.now first 0 rest.now }
{
    let mut entered = Join {
        element: first,
        port: 0,
    };
    for next in rest {
        entered = Join {
            element: *next,
            port: step_to(elements, entered, *next)?,
        };
    }
    Some(entered.port)
}
