//! Theorems about strips.
ghost use Rattle.strip.specs.Layout.{Telling};

/// Two strips with the same bytes have the same entries, in the same order.
pub fn bytes_tell_entries()
    ensures { Telling }
{}
