//! Laws of offices' scripts. Each function does nothing: its clause is the law, proved.

ghost use Rattle.title_day.specs.DaysOn.{DealtAreAsked, SeatsFit, ToldAreTallies};

/// Scripts that were dealt fit the seats of an office and have the transactions that were asked for, and what is told of them are the
/// tallies of these.
pub fn dealt_scripts_fit()
    ensures seats { SeatsFit }
    ensures asked { DealtAreAsked }
    ensures tallies { ToldAreTallies }
{}
