// Theorems that the check asks for: each function's contract is one.
ghost use Rattle.steps.specs.Waits.{BlankIsZero};

// The blank waiting branch is the one whose numbers are all 0.
pub fn blank_is_zero()
    ensures { BlankIsZero }
{}
