//! Laws of the office, for the crates above. Each function does nothing: its clause is the law, proved.

ghost use Rattle.std.specs.Prelude.{◌≡◌};
ghost use Rattle.title_views.specs.Views.{most_viewers};
ghost use Rattle.title_office.specs.{Offices.{most_seats}, declared.opening.TheConstants.{MOST_SEATS, MOST_VIEWERS}};

/// The limits that the code has are those of the definitions.
pub fn limits_are_said()
    ensures seats { MOST_SEATS ≡ most_seats }
    ensures viewers { MOST_VIEWERS ≡ most_viewers }
{}
