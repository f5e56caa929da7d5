//! Laws of devices. Each function does nothing: its clause is the law, proved.

ghost use Rattle.std.specs.Prelude.{◌≡◌};
ghost use Rattle.title_device.specs.{Limits.{most_bytes}, declared.loops.TheConstants.{SCRIPT_LIMIT}};

/// The limit of a script that the code has is that of the definitions.
pub fn limit_is_said()
    ensures bytes { SCRIPT_LIMIT ≡ most_bytes }
{}
