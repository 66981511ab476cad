//! Reading the head of a clause against a goal (7.7.10): which variables have a part of the goal as their value, and
//! what is left to be unified.
ghost use Rattle.std.specs.Prelude.{◌≡◌, ◌≢◌, ℕ, List, Option, ◌+◌, ◌-◌, ◌<◌, ◌≤◌, ◌∷◌, [], ◌++◌, IfOk, IfSome, OnOk, Some, None, length, map, true};
ghost use Rattle.std.specs.List.{All, slice_get};
ghost use Rattle.iso_model.specs.Terms.Trees.{Tree, Variable, arities_fit};
ghost use Rattle.iso_store_core.specs.Presents.{Present, Holds, meaning};
ghost use Rattle.iso_store_core.specs.Arguments.{arguments, listed};
ghost use Rattle.iso_store_core.specs.Exact.{are_exact};
ghost use Rattle.iso_store_core.specs.Patterns.{IsNamed, IsPattern, HasPlaces};
ghost use Rattle.iso_store.specs.Writing.{IsFitPattern};
ghost use Rattle.iso_store.specs.Unifying.{IsCompound};
ghost use Rattle.iso_store.specs.Reading.{HasArguments, MayHaveArguments, AreUnread, first_arguments, left_terms, first_terms, IsBetween, IsRead, IsReadTo, IsReadOn, IsNext, IsHeadRead, Shows};
ghost use Rattle.iso_store_core.specs.declared.shapes.Shape.TheVariants as shapes;
ghost use Rattle.iso_store.specs.declared.reading.Later as waiting;

use super::primitives::Primitives;
use iso_atoms::Atom;
use iso_model::NoMemory;
use iso_store_core::{Part, Shape};

/// A part of a head that is unified with this word when all is read: its parts from the one place on to the other.
#[derive(Clone, Copy)]
pub(crate) struct Later<W: Copy> {
    pub(crate) word: W,
    pub(crate) from: usize,
    pub(crate) past: usize,
}

/// A compound whose first arguments, so many, are left to be read, the last of them next.
#[derive(Clone, Copy)]
pub(crate) struct Unread<W: Copy> {
    pub(crate) word: W,
    pub(crate) count: usize,
}

/// The part before this place is to be read for the word.
#[derive(Clone, Copy)]
pub(crate) struct NextPart<W: Copy> {
    pub(crate) word: W,
    pub(crate) at: usize,
}

/// What reading a head against a goal finds.
#[derive(Drop)]
pub(crate) struct Reading<W: Copy> {
    /// For each variable of the clause the part of the goal that is its value, where there is one.
    pub(crate) values: Vec<Option<W>>,
    /// What is to be unified when all is read.
    pub(crate) later: Vec<Later<W>>,
    /// The compounds of the goal with arguments that are left to be read, the last one next.
    pub(crate) left: Vec<Unread<W>>,
}

/// No variable of so many has a value, and nothing is to be done.
pub(crate) fn begin<W: Copy>(reading: &mut Reading<W>, count: usize) -> Result<(), NoMemory>
    ensures many { OnOk result (length reading.new.values.items ≡ count) }
    ensures values { OnOk result ((x : ℕ) → x < length reading.new.values.items → slice_get reading.new.values.items x ≡ Some None) }
    ensures later { OnOk result (reading.new.later.items ≡ []) }
    ensures left { OnOk result (reading.new.left.items ≡ []) }
{
    reading.later.clear();
    reading.left.clear();
    reading.values.clear();
    reading.values.resize(count, None)?;
    Ok(())
}

/// Where the parts begin of the term whose last part is the one before this place.
fn start_of(head: &[Part], past: usize) -> usize
    requires some { 0 < past }
    requires within { past ≤ length head.now }
    requires exact { are_exact head.now 0 ≡ true }
    ensures earlier { result < past }
    ensures between { (names : List (List ℕ)) → All (IsNamed names) head.now → IsBetween names head.now result past }
{
    let mut from = past;
    let mut needed = 1;
    while needed > 0 {
        from -= 1;
        needed -= 1;
        let part = head[from];
        if let Part::Compound(_, count) = part {
            needed += count;
        }
    }
    from
}

/// Leaves what is unread of the compound to be read behind what is left.
fn leave_arguments<S: Primitives>(
    store: &S,
    unread: Unread<S::Word>,
    left: &mut Vec<Unread<S::Word>>,
) -> Result<(), NoMemory>
    requires unread { MayHaveArguments (S.present store.now) unread }
    requires left { AreUnread (S.present store.now) left.old.items }
    ensures terms { OnOk result (left_terms (S.present store.now) left.new.items ≡ left_terms (S.present store.now) (left.old.items ++ unread ∷ [])) }
    ensures left { OnOk result (AreUnread (S.present store.now) left.new.items) }
{
    if unread.count == 0 {
        return Ok(());
    }
    left.push(unread)?;
    Ok(())
}

/// Leaves the part before this place to be unified with the word when all is read: how many parts are left.
fn read_later<W: Copy>(
    head: &[Part],
    at: usize,
    word: W,
    later: &mut Vec<Later<W>>,
) -> Result<Option<usize>, NoMemory>
    requires some { 0 < at }
    requires within { at ≤ length head.now }
    requires exact { are_exact head.now 0 ≡ true }
    ensures read { (p : Present W) (names : List (List ℕ)) (t : Tree) (values : List (Option W)) (left : List Tree)
        → IsPattern names head.now t → arities_fit t ≡ true → HasPlaces (length values) t → Holds p word
        → IsRead p names head.now (length values) values later.old.items (left ++ meaning p word ∷ []) at
        → IfOk result (IsReadOn p names head.now (length values) values values later.old.items later.new.items (left ++ meaning p word ∷ []) left at) }
{
    let from = start_of(head, at);
    later.push(Later {
        word,
        from,
        past: at,
    })?;
    Ok(Some(from))
}

/// Reads the part before this place, a compound of this name and so many arguments: how many parts are left, none
/// where nothing makes it and the word equal.
fn read_compound<S: Primitives>(
    store: &S,
    head: &[Part],
    at: usize,
    name: Atom,
    count: usize,
    word: S::Word,
    values: &Vec<Option<S::Word>>,
    later: &mut Vec<Later<S::Word>>,
    left: &mut Vec<Unread<S::Word>>,
    inner: &mut Unread<S::Word>,
) -> Result<Option<usize>, NoMemory>
    requires count { IsFitPattern (S.names store.now) head.now (length values.now.items) }
    requires exact { are_exact head.now 0 ≡ true }
    requires some { 0 < at }
    requires word { Holds (S.present store.now) word }
    requires left { AreUnread (S.present store.now) left.old.items }
    requires inner { MayHaveArguments (S.present store.now) inner.old }
    requires shows { (ts : List Tree) × (a : Tree) × Shows (S.names store.now) head.now at (shapes.Compound name count) ts a }
    requires read { IsRead (S.present store.now) (S.names store.now) head.now (length values.now.items) values.now.items later.old.items (left_terms (S.present store.now) (left.old.items ++ inner.old ∷ []) ++ meaning (S.present store.now) word ∷ []) at }
    ensures read { IfOk result (IsReadOn (S.present store.now) (S.names store.now) head.now (length values.now.items)
        values.now.items values.now.items later.old.items later.new.items (left_terms (S.present store.now) (left.old.items ++ inner.old ∷ []) ++ meaning (S.present store.now) word ∷ []) (left_terms (S.present store.now) (left.new.items ++ inner.new ∷ [])) at) }
    ensures left { OnOk result (AreUnread (S.present store.now) left.new.items) }
    ensures inner { OnOk result (MayHaveArguments (S.present store.now) inner.new) }
{
    match store.shape(word) {
        Shape::Var(_) => {
            // What `read_later` does: a build takes it in here, where it is most frequent, only if it is written out.
            let from = start_of(head, at);
            later.push(Later {
                word,
                from,
                past: at,
            })?;
            Ok(Some(from))
        }
        Shape::Compound(other, arguments) => {
            if other != name || arguments != count {
                return Ok(None);
            }
            leave_arguments(store, *inner, left)?;
            *inner = Unread { word, count };
            Ok(Some(at - 1))
        }
        Shape::Int(_) | Shape::Atom(_) => Ok(None),
    }
}

/// Reads the part before this place, a constant that shows this shape: how many parts are left, none where nothing
/// makes it and the word equal.
fn read_constant<S: Primitives>(
    store: &S,
    head: &[Part],
    at: usize,
    shape: Shape,
    word: S::Word,
    values: &Vec<Option<S::Word>>,
    later: &mut Vec<Later<S::Word>>,
) -> Result<Option<usize>, NoMemory>
    requires count { IsFitPattern (S.names store.now) head.now (length values.now.items) }
    requires exact { are_exact head.now 0 ≡ true }
    requires some { 0 < at }
    requires word { Holds (S.present store.now) word }
    requires constant { (name count : ℕ) → shape ≢ shapes.Compound name count }
    requires shows { (ts : List Tree) × (a : Tree) × Shows (S.names store.now) head.now at shape ts a }
    requires read { (ws : List Tree) × IsRead (S.present store.now) (S.names store.now) head.now (length values.now.items) values.now.items later.old.items (ws ++ meaning (S.present store.now) word ∷ []) at }
    ensures read { (ws : List Tree) → IsRead (S.present store.now) (S.names store.now) head.now (length values.now.items) values.now.items later.old.items (ws ++ meaning (S.present store.now) word ∷ []) at
        → IfOk result (IsReadOn (S.present store.now) (S.names store.now) head.now (length values.now.items) values.now.items values.now.items later.old.items later.new.items (ws ++ meaning (S.present store.now) word ∷ []) ws at) }
{
    let found = store.shape(word);
    if let Shape::Var(_) = found {
        return read_later(head, at, word, later);
    }
    if found != shape {
        return Ok(None);
    }
    Ok(Some(at - 1))
}

/// Reads the part before this place, which is the variable of this place: the word is its value where it has none,
/// else they are unified later. How many parts are left.
fn read_variable<S: Primitives>(
    store: &S,
    head: &[Part],
    at: usize,
    place: usize,
    word: S::Word,
    values: &mut Vec<Option<S::Word>>,
    later: &mut Vec<Later<S::Word>>,
) -> Result<Option<usize>, NoMemory>
    requires count { IsFitPattern (S.names store.now) head.now (length values.old.items) }
    requires exact { are_exact head.now 0 ≡ true }
    requires some { 0 < at }
    requires word { Holds (S.present store.now) word }
    requires place { place < length values.old.items }
    requires variable { first_terms (S.names store.now) head.now at ≡ first_terms (S.names store.now) head.now (at - 1) ++ Variable place ∷ [] }
    requires read { (ws : List Tree) × IsRead (S.present store.now) (S.names store.now) head.now (length values.old.items) values.old.items later.old.items (ws ++ meaning (S.present store.now) word ∷ []) at }
    ensures read { (ws : List Tree) → IsRead (S.present store.now) (S.names store.now) head.now (length values.old.items) values.old.items later.old.items (ws ++ meaning (S.present store.now) word ∷ []) at
        → IfOk result (IsReadOn (S.present store.now) (S.names store.now) head.now (length values.old.items) values.old.items values.new.items later.old.items later.new.items (ws ++ meaning (S.present store.now) word ∷ []) ws at) }
{
    match values[place] {
        None => {
            values[place] = Some(word);
            Ok(Some(at - 1))
        }
        Some(_) => read_later(head, at, word, later),
    }
}

/// Reads the part before this place for the word: how many parts are left, none where nothing makes them equal.
fn read_part<S: Primitives>(
    store: &S,
    head: &[Part],
    at: usize,
    word: S::Word,
    values: &mut Vec<Option<S::Word>>,
    later: &mut Vec<Later<S::Word>>,
    left: &mut Vec<Unread<S::Word>>,
    inner: &mut Unread<S::Word>,
) -> Result<Option<usize>, NoMemory>
    requires count { IsFitPattern (S.names store.now) head.now (length values.old.items) }
    requires exact { are_exact head.now 0 ≡ true }
    requires some { 0 < at }
    requires word { Holds (S.present store.now) word }
    requires left { AreUnread (S.present store.now) left.old.items }
    requires inner { MayHaveArguments (S.present store.now) inner.old }
    requires read { IsRead (S.present store.now) (S.names store.now) head.now (length values.old.items) values.old.items later.old.items (left_terms (S.present store.now) (left.old.items ++ inner.old ∷ []) ++ meaning (S.present store.now) word ∷ []) at }
    ensures read { IfOk result (IsReadOn (S.present store.now) (S.names store.now) head.now (length values.old.items)
        values.old.items values.new.items later.old.items later.new.items (left_terms (S.present store.now) (left.old.items ++ inner.old ∷ []) ++ meaning (S.present store.now) word ∷ []) (left_terms (S.present store.now) (left.new.items ++ inner.new ∷ [])) at) }
    ensures left { OnOk result (AreUnread (S.present store.now) left.new.items) }
    ensures inner { OnOk result (MayHaveArguments (S.present store.now) inner.new) }
{
    let part = head[at - 1];
    let shape = match part {
        Part::Variable(place) => {
            return read_variable(store, head, at, place, word, values, later);
        }
        Part::Compound(name, count) => {
            return read_compound(
                store, head, at, name, count, word, values, later, left, inner,
            );
        }
        Part::Integer(value) => Shape::Int(value),
        Part::Atom(name) => Shape::Atom(name),
    };
    read_constant(store, head, at, shape, word, values, later)
}

/// Reads the parts before this place that are variables without a value, for the arguments that are left of a
/// compound, the last one first: each is its variable's value. How many arguments and how many parts are left.
fn read_variables<S: Primitives>(
    store: &S,
    head: &[Part],
    past: usize,
    word: S::Word,
    many: usize,
    values: &mut Vec<Option<S::Word>>,
) -> (usize, usize)
    requires unread { 0 < many → HasArguments (S.present store.now) word many }
    requires count { IsFitPattern (S.names store.now) head.now (length values.old.items) }
    requires exact { are_exact head.now 0 ≡ true }
    requires read { (front : List Tree) × (later : List (waiting.Later S.Word)) × IsRead (S.present store.now) (S.names store.now) head.now (length values.old.items) values.old.items later
        (front ++ first_arguments (S.present store.now) word many) past }
    ensures read { (front : List Tree) (later : List (waiting.Later S.Word)) → IsRead (S.present store.now) (S.names store.now) head.now (length values.old.items) values.old.items later
        (front ++ first_arguments (S.present store.now) word many) past
        → IsReadTo (S.present store.now) (S.names store.now) head.now (length values.old.items) values.old.items values.new.items later later
        (front ++ first_arguments (S.present store.now) word many) (front ++ first_arguments (S.present store.now) word result.0) past result.1 }
    ensures values { length values.new.items ≡ length values.old.items }
    ensures fewer { result.0 ≤ many }
    ensures parts { result.1 + many ≡ past + result.0 }
{
    let mut count = many;
    let mut at = past;
    while count > 0 {
        let part = head[at - 1];
        let Part::Variable(place) = part else {
            return (count, at);
        };
        match values[place] {
            None => values[place] = Some(store.arg(word, count - 1)),
            Some(_) => return (count, at),
        }
        count -= 1;
        at -= 1;
    }
    (count, at)
}

/// Reads the parts before this place that are variables without a value, for what is unread of the inner compound and
/// then of those that are left, as far as they go: the word that another part is to be read for, and its place;
/// nothing where no part is left.
fn next_word<S: Primitives>(
    store: &S,
    head: &[Part],
    past: usize,
    values: &mut Vec<Option<S::Word>>,
    left: &mut Vec<Unread<S::Word>>,
    inner: &mut Unread<S::Word>,
) -> Option<NextPart<S::Word>>
    requires left { AreUnread (S.present store.now) left.old.items }
    requires inner { MayHaveArguments (S.present store.now) inner.old }
    requires count { IsFitPattern (S.names store.now) head.now (length values.old.items) }
    requires exact { are_exact head.now 0 ≡ true }
    requires read { (later : List (waiting.Later S.Word)) × IsRead (S.present store.now) (S.names store.now) head.now (length values.old.items) values.old.items later (left_terms (S.present store.now) (left.old.items ++ inner.old ∷ [])) past }
    ensures read { (later : List (waiting.Later S.Word))
        → IsRead (S.present store.now) (S.names store.now) head.now (length values.old.items) values.old.items later (left_terms (S.present store.now) (left.old.items ++ inner.old ∷ [])) past
        → IsNext (S.present store.now) (S.names store.now) head.now (length values.old.items) values.old.items values.new.items later (left_terms (S.present store.now) (left.old.items ++ inner.old ∷ [])) (left_terms (S.present store.now) (left.new.items ++ inner.new ∷ [])) past result }
    ensures left { AreUnread (S.present store.now) left.new.items }
    ensures inner { IfSome result (λ _. MayHaveArguments (S.present store.now) inner.new) }
    ensures values { length values.new.items ≡ length values.old.items }
{
    let mut at = past;
    loop {
        let (count, rest) = read_variables(store, head, at, inner.word, inner.count, values);
        at = rest;
        if count > 0 {
            inner.count = count - 1;
            let word = store.arg(inner.word, count - 1);
            return Some(NextPart { word, at });
        }
        let Some(unread) = left.pop() else {
            return None;
        };
        *inner = unread;
    }
}

/// Reads the head for the goal, from the last part on: which variables have values, and what is to be unified later.
/// False where nothing makes them equal.
pub(crate) fn read_head<S: Primitives>(
    store: &S,
    head: &[Part],
    goal: S::Word,
    values: &mut Vec<Option<S::Word>>,
    later: &mut Vec<Later<S::Word>>,
    left: &mut Vec<Unread<S::Word>>,
) -> Result<bool, NoMemory>
    requires goal { Holds (S.present store.now) goal }
    requires count { IsFitPattern (S.names store.now) head.now (length values.old.items) }
    requires exact { are_exact head.now 0 ≡ true }
    requires values { (x : ℕ) → x < length values.old.items → slice_get values.old.items x ≡ Some None }
    requires later { later.old.items ≡ [] }
    requires left { left.old.items ≡ [] }
    ensures read { IfOk result (IsHeadRead (S.present store.now) (S.names store.now) head.now (length values.old.items) goal values.new.items later.new.items) }
{
    let mut inner = Unread {
        word: goal,
        count: 0,
    };
    let mut word = goal;
    let mut at = head.len();
    loop {
        let met = read_part(store, head, at, word, values, later, left, &mut inner)?;
        let Some(rest) = met else {
            return Ok(false);
        };
        let Some(next) = next_word(store, head, rest, values, left, &mut inner) else {
            return Ok(true);
        };
        word = next.word;
        at = next.at;
    }
}
