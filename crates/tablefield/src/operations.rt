//! A fresh table, and how a table answers, takes orders and is told.

ghost use Rattle.std.specs.Prelude.{◌≡◌};
ghost use Rattle.field.specs.Meaning.{device_of, with_device, fresh_meaning};
ghost use Rattle.tablefield.specs.Table.{table_meaning};

use crate::table::TableField;
use field::device::{Device, blank_device, unknown_device};
use field::field::Field;
use field::orders::report_after_order;
use layout::position::Position;
use tables::table::put;

impl TableField {
    /// A field of which nothing has been heard: no control, nothing blocked, dark, no orders, sections free.
    pub fn fresh() -> TableField
        ensures { table_meaning result ≡ fresh_meaning }
    {
        TableField {
            devices: [blank_device(); 96],
            sections: [false; 64],
        }
    }

    /// A second table with the same content.
    pub fn duplicate(&self) -> TableField
        ensures { table_meaning result ≡ table_meaning self.now }
    {
        TableField {
            devices: self.devices,
            sections: self.sections,
        }
    }

    /// The device of an element; the unknown one where there is none.
    fn device(&self, element: u8) -> Device
        ensures { result ≡ device_of (table_meaning self.now) element }
    {
        self.devices
            .get(element as usize)
            .copied()
            .unwrap_or(unknown_device())
    }

    /// Changes the device of an element, if there is one.
    fn change<F: FnOnce(Device) -> Device>(&mut self, element: u8, change: F)
        requires { F.IsAlwaysCallable change }
        ensures { (device : _) × F.post change (device_of (table_meaning self.old) element) device × (table_meaning self.new ≡ with_device (table_meaning self.old) element device) }
    {
        let device = change(self.device(element));
        put(&mut self.devices, element as usize, device);
    }
}

impl Field for TableField {
    ghost meaning = { table_meaning };

    ghost sized = { λ f. f.sized };

    fn report(&self, element: u8) -> Option<Position> {
        self.device(element).report
    }

    fn is_blocked(&self, element: u8) -> bool {
        self.device(element).blocked
    }

    fn is_burning(&self, element: u8) -> bool {
        self.device(element).burning
    }

    fn standing_order(&self, element: u8) -> Option<Position> {
        self.device(element).order
    }

    fn is_occupied(&self, section: u8) -> bool {
        self.sections.get(section as usize).copied().unwrap_or(true)
    }

    fn order(&mut self, element: u8, position: Position) {
        self.change(
            element,
            |device| Device {
                report: report_after_order(device.report, position),
                order: Some(position),
                ..device
            },
        );
    }

    fn tell_report(&mut self, element: u8, report: Option<Position>) {
        self.change(element, |device| Device { report, ..device });
    }

    fn tell_block(&mut self, element: u8, blocked: bool) {
        self.change(element, |device| Device { blocked, ..device });
    }

    fn tell_lamp(&mut self, element: u8, burning: bool) {
        self.change(element, |device| Device { burning, ..device });
    }

    fn tell_occupation(&mut self, section: u8, occupied: bool) {
        put(&mut self.sections, section as usize, occupied);
    }
}
