//! Small stations, each drawn for one rule: what the words of the subject say of them, and the first faults of bytes that draw no plan.

ghost use Rattle.examples.specs.SmallStations.{WorkedStations};
ghost use Rattle.examples.specs.FirstFaults.{WorkedFaults};

/// What is stated of small stations, and of bytes that draw none, holds.
pub fn stations_hold()
    ensures stations { WorkedStations }
    ensures faults { WorkedFaults }
{}
