// Worked figures, as one result over the very definitions that the contracts of the code use.
#![tactic(auto)]

ghost use Rattle.figures.specs.Figures.{Figures};

// That the figures hold is what this function ensures.
pub fn figures_hold() -> u8
    ensures figures { Figures }
{
    0
}
