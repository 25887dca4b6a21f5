//! The theorems that the sheets of a plan tell exactly what they are for.
#![tactic(auto)]

ghost use Rattle.std.specs.Prelude.{◌≡◌};
ghost use Rattle.sheets.specs.Sheets.{sheets_of};
ghost use Rattle.plan.specs.Sound.{SoundPlan};
ghost use Rattle.sheetlaws.specs.Routes.{SheetsInOrder};
ghost use Rattle.sheetlaws.specs.Sections.{SectionsExact, SectionsInRange};
ghost use Rattle.sheetlaws.specs.Elements.{ElementsExact, KnownExact};
ghost use Rattle.sheetlaws.specs.Lists.{WantedExact, UsedSectionsExact, WantedListed, UsedListed, ListsAscend};
ghost use Rattle.sheetlaws.specs.Ends.{EndsExact, ShowingExact};
ghost use Rattle.sheetlaws.specs.Requests.{SheetRequestsExact};
ghost use Rattle.sheetlaws.specs.Needed.{NeedsExact};
ghost use Rattle.sheetlaws.specs.Starts.{OneStart};

use plan::plan::Plan;
use sheets::sheet::Sheets;

/// The sheets of a plan, which tell exactly what they are for.
pub fn sheets_are_exact(plan: &Plan) -> &Sheets
    ensures sheets { result.now ≡ sheets_of plan.now.drawing }
    ensures sound { SoundPlan plan.now.drawing }
    ensures order { SheetsInOrder }
    ensures sections { SectionsExact }
    ensures range { SectionsInRange }
    ensures elements { ElementsExact }
    ensures known { KnownExact }
    ensures ends { EndsExact }
    ensures showing { ShowingExact }
    ensures requests { SheetRequestsExact }
    ensures needs { NeedsExact }
    ensures starts { OneStart }
    ensures wanted { WantedExact }
    ensures used { UsedSectionsExact }
    ensures wanted_listed { WantedListed }
    ensures used_listed { UsedListed }
    ensures ascending { ListsAscend }
{
    plan.sheets()
}
