// The rules of the group as definitions, and the law over all runs. There is no code but the functions that ask for the theorems.
#![tactic(auto)]

ghost use Rattle.rules.specs.Figures.{SmallRun};
ghost use Rattle.rules.specs.Law.{RunLaw};
ghost use Rattle.rules.specs.Places.{PlacesRight, SweptAtOnce};
ghost use Rattle.rules.specs.Runs.{RefusalsChangeNothing};

// The law holds after each call of every run, over every field and every accepted code.
pub fn run_law_stands() -> u8
    ensures run_law { RunLaw }
{
    0
}

// A refused call changes nothing, whichever call it is.
pub fn refusals_change_nothing() -> u8
    ensures refusals { RefusalsChangeNothing }
{
    0
}

// A worked run of a small group gives its figures, by the same definitions.
pub fn small_run_holds() -> u8
    ensures small_run { SmallRun }
{
    0
}

// A history kept as a table answers by places, and a sweep of it is one filter.
pub fn histories_stand_by_places() -> u8
    ensures places { PlacesRight }
    ensures swept_at_once { SweptAtOnce }
{
    0
}
