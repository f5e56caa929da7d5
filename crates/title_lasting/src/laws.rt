//! Laws of days. Each function does nothing: its clause is the law, proved.

ghost use Rattle.title_lasting.specs.DayLaws.{FirstDaysAreAlone, PlantsAreNotRefused, ReportsGoByDeclared};

use title_plan::laws::onto_nothing;
use title_spelling::laws::{descriptions_stay, lands_have_cells};

/// A script posts between parties that are declared: that a day's desk has room for more changes no reply.
pub fn reports_go_by_declared_parties()
    ensures law { ReportsGoByDeclared }
{
    lands_have_cells();
    descriptions_stay();
}

/// The first day on a file has the report that its script has alone.
pub fn first_days_are_alone()
    ensures law { FirstDaysAreAlone }
{
    lands_have_cells();
    descriptions_stay();
    onto_nothing();
}

/// A file that is a plant is refused by no row: `NotAPlant` is told of none.
pub fn plants_are_not_refused()
    ensures law { PlantsAreNotRefused }
{}
