//! Runs the worked examples, and prints each with its outcome.
#![tactic(auto)]

mod fields;
mod flanks;
mod readings;
mod runs;
mod stations;

ghost use Rattle.examples.specs.Worked.{WorkedExamples};

/// The worked examples hold of the definitions.
pub fn examples_hold()
    ensures { WorkedExamples }
{}

fn main(rt: HostRuntime) -> anyhow::Result<()> {
    // They are proved, or this program would not be built.
    examples_hold();
    stations::stations_hold();
    println!(rt; "stated of the definitions: true")?;
    readings::show_all(&rt)?;
    flanks::show_all(&rt)?;
    let differing = fields::differing();
    println!(rt;
        "a table and a contact picture, ordered and told alike: {differing} answers differ"
    )?;
    runs::show_all(&rt)
}
