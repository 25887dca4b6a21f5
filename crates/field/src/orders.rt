//! What an order does to a report, and the laws of orders.

ghost use Rattle.std.specs.Prelude.{◌≡◌};
ghost use Rattle.field.specs.Devices.{report_after};
ghost use Rattle.field.specs.Orders.{OrderLaws};

use layout::position::Position;

/// What is left of a report when an element is ordered to a position: the report only where it is that position.
pub fn report_after_order(report: Option<Position>, position: Position) -> Option<Position>
    ensures { result ≡ report_after report position }
{
    report.filter(|reported| *reported == position)
}

/// Carries the laws of orders, which hold of every field; there is nothing to run.
pub fn order_laws()
    ensures { OrderLaws }
{}
