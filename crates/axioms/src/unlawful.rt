// Packs that no law admits.
ghost use Rattle.axioms.specs.Unlawful.{FromNothing, RsTurned};

// Without a condition an arrow of says cannot be read from no fact.
pub fn nothing_says()
    ensures { FromNothing }
{}

// Under the condition of RS its step cannot be turned about.
pub fn ratified_does_not_say()
    ensures { RsTurned }
{}
