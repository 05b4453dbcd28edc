//! Where the body of a `switch` stands (C11 6.8.4.2).

ghost use Rattle.std.specs.Prelude.{◌≡◌, true};

use c_elaborator::Context;

/// Where the body of a `switch` stands: `break` may stand there, and `continue` where it may stand outside (C11
/// 6.8.6.2, 6.8.6.3). Refuses nothing.
pub fn in_a_switch(context: Context) -> Context
    ensures { result ≡ record context { breakable = true } }
{
    Context {
        gives: context.gives,
        in_loop: context.in_loop,
        breakable: true,
    }
}
