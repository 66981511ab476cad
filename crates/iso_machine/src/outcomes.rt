//! What calls come to: which goals fail at once, and what is left of a call behind others.
ghost use Rattle.std.specs.Prelude.{◌≡◌, ◌⊎◌, Ok, true};
ghost use Rattle.iso_model.specs.declared.built_ins.BuiltIn.TheVariants as built_in;
ghost use Rattle.iso_search.specs.declared.calls.Called.TheVariants as call;
ghost use Rattle.iso_machine.specs.Outcomes.{gone};

use iso_model::BuiltIn;
use iso_search::calls::{Called, Next};
use iso_store_core::StoreFault;

/// Whether this is the built-in fail/0.
#[inline(always)]
fn is_fail(one: &BuiltIn) -> bool
    ensures { result ≡ true → one.now ≡ built_in.Fail }
{
    match one {
        BuiltIn::Fail => true,
        _ => false,
    }
}

/// Whether a goal that calls this fails at once.
#[inline(always)]
pub(crate) fn fails_now(called: &Called) -> bool
    ensures { result ≡ true → (called.now ≡ call.Fails) ⊎ (called.now ≡ call.BuiltIn built_in.Fail) }
{
    match called {
        Called::Fails => true,
        Called::BuiltIn(one) => is_fail(one),
        Called::User(_) | Called::Unknown => false,
    }
}

/// What a call that was not refused comes to behind others.
#[inline(always)]
fn next_behind(next: Next) -> Next
    ensures { Ok result ≡ gone (Ok next) }
{
    match next {
        Next::Other => Next::Went,
        Next::Went => Next::Went,
        Next::Full => Next::Full,
    }
}

/// What a call comes to behind others: where it is left, it is left to the next move.
#[inline(always)]
pub(crate) fn behind_others(came: Result<Next, StoreFault>) -> Result<Next, StoreFault>
    ensures { result ≡ gone came }
{
    match came {
        Ok(next) => Ok(next_behind(next)),
        Err(fault) => Err(fault),
    }
}
