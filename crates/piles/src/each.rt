// Tests at each world of a model, and of each principal.
ghost use Rattle.std.specs.Prelude.{◌≡◌, ℕ, ◌<◌, Bool};
ghost use Rattle.logic.specs.Models.{every};
ghost use Rattle.rows.specs.RowsOf.{frame_of};

use records::numbers::{Principal, World};
use rows::rows::Rows;

// Whether a test passes at each world.
pub fn at_each_world<F: Fn(World) -> bool>(rows: &Rows, test: F) -> bool
    requires { F.IsAlwaysCallable test }
    ensures { (p : ℕ → Bool) → ((x : World) (b : Bool) → F.post test x b → x.0 < (frame_of rows.now).worlds → b ≡ p x.0) → result ≡ every (frame_of rows.now).worlds p }
{
    (0..rows.worlds()).all(|x| test(World(x)))
}

// Whether a test passes for each of the principals.
pub fn of_each_principal<F: Fn(Principal) -> bool>(principals: u16, test: F) -> bool
    requires { F.IsAlwaysCallable test }
    ensures { (p : ℕ → Bool) → ((a : Principal) (b : Bool) → F.post test a b → a.0 < principals → b ≡ p a.0) → result ≡ every principals p }
{
    (0..principals).all(|a| test(Principal(a)))
}
