//! Worked figures that follow from the definitions.
ghost use Rattle.layout.specs.Figures.{Figures};

/// The worked figures hold.
pub fn figures_stand()
    ensures { Figures }
{}
