//! Views by key: of a procedure the clauses that a call may use. They are always one clause ahead, so that it is seen
//! at once whether another clause is left.
ghost use Rattle.std.specs.Prelude.{◌≡◌, ◌<◌, ◌≤◌, ◌-◌, ◌^◌, ℕ, true, List, Some, None, drop, is_some, length, IfSome};
ghost use Rattle.std.specs.List.{All};
ghost use Rattle.iso_clauses.specs.Clauses.{Clause};
ghost use Rattle.iso_clauses.specs.Stepping.{Steps, first_number, behind};
ghost use Rattle.iso_clauses.specs.Orders.{comes_before};
ghost use Rattle.iso_clauses.specs.Slots.{given, given_by, is_front, key_at};
ghost use Rattle.iso_clauses.specs.Fits.{fits};
ghost use Rattle.iso_db.specs.Keyed.{Offers, Leads, is_own_first, remaining_ahead, remaining_keyed, usable};
ghost use Rattle.iso_db.specs.Tails.{IsTail};

use iso_clauses::{ClauseId, Entry, FirstKey, Slot, View, fits, is_front, is_there, next_from};

/// A view whose next clause was taken ahead.
#[derive(Clone, Copy, Debug)]
pub(crate) struct Ahead {
    /// The next clause.
    pub(crate) next: Option<ClauseId>,
    /// The clauses behind it, where there is one.
    pub(crate) rest: View,
}

/// The clauses of a procedure at the making of the view that a call may use and that the view has still to give.
#[derive(Clone, Copy, Debug)]
pub struct KeyedView {
    /// Whether `own` is a view of the whole procedure, and not of a part.
    pub(crate) whole: bool,
    /// The key of the call, where clauses of `own` are to be passed over that it can't use.
    pub(crate) key: Option<FirstKey>,
    /// The procedure's clauses, or those with the key of the call.
    pub(crate) own: Ahead,
    /// Those without a key, where `own` has those with it.
    pub(crate) any: Ahead,
}

impl KeyedView {
    /// A view that gives no clause.
    #[inline(always)]
    pub fn nothing() -> KeyedView
        ensures { remaining_keyed result ≡ 0 }
    {
        KeyedView {
            whole: false,
            key: None,
            own: Ahead::nothing(),
            any: Ahead::nothing(),
        }
    }

    /// From now on the view gives no clause.
    #[inline(always)]
    pub fn clear(&mut self)
        ensures { remaining_keyed self.new ≡ 0 }
    {
        self.own.clear();
        self.any.clear();
    }
}

impl Ahead {
    /// No clauses.
    #[inline(always)]
    pub(crate) fn nothing() -> Ahead
        ensures next { result.next ≡ None }
        ensures none { remaining_ahead result ≡ 0 }
    {
        let rest = View {
            procedure: 0,
            block: 0,
            outer: 0,
            next: 0,
            end: 0,
            made: 0,
        };
        Ahead { next: None, rest }
    }

    /// From now on there are no clauses.
    #[inline(always)]
    fn clear(&mut self)
        ensures { remaining_ahead self.new ≡ 0 }
    {
        self.next = None;
        self.rest.end = 0;
    }
}

/// Whether a call with this key may use the clause of this number.
#[inline(always)]
fn may_use<C>(slots: &Vec<Slot<C>>, key: Option<FirstKey>, id: ClauseId) -> bool
    ensures { result ≡ fits key (key_at slots.now.items id) }
{
    let number = id.number();
    if number >= slots.len() {
        return true;
    }
    fits(key, slots[number].label.key)
}

/// The next clause of a view that a call with this key may use.
#[inline(always)]
fn next_fitting<C>(
    slots: &Vec<Slot<C>>,
    lists: &Vec<Entry>,
    key: Option<FirstKey>,
    view: &mut View,
) -> Option<ClauseId>
    requires { (removals : ℕ) × (cs : List (Clause C))
        × Offers slots.now.items removals lists.now.items key view.old cs }
    ensures first { (removals : ℕ) (cs : List (Clause C))
        → Offers slots.now.items removals lists.now.items key view.old cs
        → result ≡ first_number cs }
    ensures rest { (removals : ℕ) (cs : List (Clause C))
        → Offers slots.now.items removals lists.now.items key view.old cs
        → is_some result ≡ true → Offers slots.now.items removals lists.now.items key view.new (behind cs) }
    ensures falls { IfSome result (λ id. view.new.end - view.new.next < view.old.end - view.old.next) }
    ensures never_rises { view.new.end - view.new.next ≤ view.old.end - view.old.next }
    ensures few { view.new.end - view.new.next < 2 ^ 64 }
{
    while let Some(id) = next_from(slots, lists, view) {
        if may_use(slots, key, id) {
            return Some(id);
        }
    }
    None
}

/// Whether a view that was made after so many removals gives the clause of this slot, if its block has it. The number
/// of removals is read for a removed clause alone.
#[inline(always)]
fn gives<C>(slot: &Slot<C>, removals: &usize) -> bool
    ensures { (number : ℕ) → result ≡ is_some (given_by removals.now number slot.now) }
{
    slot.value.is_some() && (slot.died.is_none() || is_there(slot, *removals))
}

/// The next of these numbers whose clause a view gives that was made after so many removals, and that a call with this
/// key may use; and the numbers behind it.
#[inline(always)]
pub(crate) fn next_usable<'a, C>(
    slots: &Vec<Slot<C>>,
    numbers: &'a [ClauseId],
    key: Option<FirstKey>,
    removals: &usize,
) -> (Option<ClauseId>, &'a [ClauseId])
    requires { All (λ n. n < length slots.now.items) numbers.now }
    ensures steps { Steps (usable slots.now.items key (given slots.now.items removals.now numbers.now)) result.0
        (usable slots.now.items key (given slots.now.items removals.now result.1.now)) }
    ensures behind { IsTail numbers.now result.1.now }
{
    let mut rest = numbers;
    while let [id, others @ ..] = rest {
        rest = others;
        let slot = &slots[id.number()];
        if gives(slot, removals) && fits(key, slot.label.key) {
            return (Some(*id), rest);
        }
    }
    (None, rest)
}

/// A view of a whole procedure, for a call with this key, whose next clause was taken ahead.
#[inline(always)]
pub(crate) fn whole_behind(key: Option<FirstKey>, next: Option<ClauseId>, rest: View) -> KeyedView
    ensures whole { result.whole ≡ true }
    ensures key { result.key ≡ key }
    ensures own { result.own ≡ record { next = next; rest = rest } }
    ensures any { result.any.next ≡ None }
    ensures few { remaining_keyed result ≤ 2 ^ 65 }
{
    KeyedView {
        whole: true,
        key,
        own: Ahead { next, rest },
        any: Ahead::nothing(),
    }
}

/// The view with the first clause taken ahead that a call with this key may use.
#[inline(always)]
pub(crate) fn begun<C>(
    slots: &Vec<Slot<C>>,
    lists: &Vec<Entry>,
    key: Option<FirstKey>,
    view: View,
) -> Ahead
    requires { (removals : ℕ) × (cs : List (Clause C))
        × Offers slots.now.items removals lists.now.items key view cs }
    ensures leads { (removals : ℕ) (cs : List (Clause C))
        → Offers slots.now.items removals lists.now.items key view cs
        → Leads slots.now.items removals lists.now.items key result cs }
    ensures few { remaining_ahead result ≤ 2 ^ 64 }
{
    let mut rest = view;
    let next = next_fitting(slots, lists, key, &mut rest);
    Ahead { next, rest }
}

/// Takes the next clause, and the one behind it ahead that a call with this key may use.
#[inline(always)]
pub(crate) fn advance<C>(
    slots: &Vec<Slot<C>>,
    lists: &Vec<Entry>,
    key: Option<FirstKey>,
    ahead: &mut Ahead,
) -> Option<ClauseId>
    requires { (removals : ℕ) × (cs : List (Clause C))
        × Leads slots.now.items removals lists.now.items key ahead.old cs }
    ensures next { result ≡ ahead.old.next }
    ensures rest { (removals : ℕ) (cs : List (Clause C))
        → Leads slots.now.items removals lists.now.items key ahead.old cs
        → Leads slots.now.items removals lists.now.items key ahead.new (behind cs) }
    ensures falls { IfSome result (λ id. remaining_ahead ahead.new < remaining_ahead ahead.old) }
    ensures never_rises { remaining_ahead ahead.new ≤ remaining_ahead ahead.old }
{
    let next = ahead.next;
    if next.is_some() {
        ahead.next = next_fitting(slots, lists, key, &mut ahead.rest);
    }
    next
}

/// Whether the first clause comes before the second one, where it is told which were added at the front.
fn is_before(first: ClauseId, first_front: bool, second: ClauseId, second_front: bool) -> bool
    ensures { result ≡ comes_before first first_front second second_front }
{
    if first_front {
        !second_front || second.number() < first.number()
    } else {
        !second_front && first.number() < second.number()
    }
}

/// Whether the next clause is one with the key of the call.
#[inline(always)]
pub(crate) fn is_own_next<C>(slots: &[Slot<C>], view: &KeyedView) -> bool
    ensures { result ≡ is_own_first (is_front slots.now) view.now.own.next view.now.any.next }
{
    let Some(own) = view.own.next else {
        return false;
    };
    let Some(any) = view.any.next else {
        return true;
    };
    is_before(own, is_front(slots, own), any, is_front(slots, any))
}
