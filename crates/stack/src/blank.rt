// What a place holds that is not in use.
ghost use Rattle.std.specs.Prelude.{◌≡◌};

// A type with a value that an unused place holds. Not std's `Default`: what that says of a value is a relation, and a stack names the value.
pub trait Blank: Copy {
    ghost empty: { Self };

    fn blank() -> Self
        ensures { result ≡ empty };
}
