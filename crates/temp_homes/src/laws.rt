//! The law of homes.

ghost use Rattle.temp_homes.specs.Keeping.{HomesKeepTemps};

/// Homes for the live intervals of a function's temps, as the allocator gives them, keep the temps of code that writes
/// each of them before it reads it.
pub fn homes_keep_temps()
    ensures { HomesKeepTemps }
{}
