//! Laws of toplevels: each is the contract of a function that does nothing.
ghost use Rattle.iso_toplevel_core.specs.Showing.{ToplevelsShowBeginnings};

/// What a toplevel shows of a query is, in its own clothes, a beginning of what a session writes of it over the same
/// world: up to an answer behind which the person stopped, or to its end. Where the toplevel doesn't wait it is all.
pub fn toplevels_show_beginnings()
    ensures { ToplevelsShowBeginnings }
{}
