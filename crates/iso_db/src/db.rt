//! The database: procedures with their clauses, and views of them.
ghost use Rattle.std.specs.Prelude.{◌≡◌, ◌≢◌, ◌<◌, ◌≤◌, ◌+◌, ◌^◌, ◌++◌, ◌∷◌, [], ℕ, true, List, Some, None, length, slice_set, slice_index_or, filter, IfOk, IfErr, IfSome, OnOk, OnErr, IsSome, IsOk, is_ok, is_some, ◌↔◌};
ghost use Rattle.std.proofs.Props.{props};
ghost use Rattle.iso_clauses.specs.Blocks.{Kept, nothing_kept};
ghost use Rattle.iso_clauses.specs.Clauses.{Clause};
ghost use Rattle.iso_clauses.specs.Slots.{procedure_of};
ghost use Rattle.iso_clauses.specs.Kept.{IsKept, Giving};
ghost use Rattle.iso_db.specs.Parts.{IsIndexed, Opens};
ghost use Rattle.std.specs.List.{slice_get};

use super::keyed::{Ahead, KeyedView, advance, begun, is_own_next, next_usable, whole_behind};
use super::kinds::{DbFault, Kind};
use super::parts::Parts;
use super::places::Places;
use iso_clauses::{
    ClauseId, Entry, FirstKey, Label, Side, Slot, View, add, belongs, forget_blocks, forget_values,
    is_given, kill, kill_all, tidy, trim, trim_parts, view_of,
};
use std::alloc::{AllocError, Global};

/// Procedures with their clauses. Each procedure has a place, which is its own for good, and each clause a number.
#[derive(Drop)]
pub struct Db<C> {
    alloc: Global,
    /// The keys and the kinds of the procedures.
    places: Places,
    /// What is kept of each procedure, at its place.
    entries: Vec<Entry>,
    /// The parts of the procedures.
    parts: Parts,
    /// What is kept of each part, at its number.
    lists: Vec<Entry>,
    /// What is kept of each clause that was ever added, at its number.
    slots: Vec<Slot<C>>,
    /// How many clauses were removed.
    removals: usize,
    /// How many were removed before views were last forgotten.
    forgotten: usize,
    ghost kept: { IsKept procedure_of slots.items removals (length places) entries.items } by { Prim.hlevel props },
    ghost indexed: { IsIndexed slots.items removals parts lists.items } by { Prim.hlevel props },
}

/// The number of the part of a procedure that has the clauses with this key, or without: the one that it has, or a new
/// one. The error is that memory was refused; nothing changed then.
fn open_part(
    alloc: Global,
    parts: &mut Parts,
    lists: &mut Vec<Entry>,
    place: usize,
    key: Option<FirstKey>,
) -> Result<usize, AllocError>
    requires { length parts.old ≡ length lists.old.items }
    ensures number { IfOk result (λ n. slice_get parts.new n ≡ Some (record { place = place; key = key })) }
    ensures opens { Opens (record { place = place; key = key }) parts.old lists.old.items parts.new lists.new.items }
{
    if let Some(number) = parts.find(place, key) {
        return Ok(number);
    }
    let number = lists.len();
    lists.push(Entry::new(alloc))?;
    if parts.add(place, key).is_err() {
        let _ = lists.pop();
        return Err(AllocError);
    }
    Ok(number)
}

impl<C: Drop> Db<C> {
    ghost use Rattle.iso_db.specs.declared.kinds.Kind.TheVariants.{Static as static_kind, Dynamic};
    ghost use Rattle.iso_db.specs.declared.kinds.DbFault.TheVariants.{Static, NoMemory, Unknown};
    ghost use Rattle.iso_db.specs.Databases.{no_procedures, place_in, kind_at, clauses_at, has_in, has_clause, at_end, at_front, with_procedure, with_clause, with_kind, without_procedure, without_clause, without_clause_at, is_not_static};
    ghost use Rattle.iso_clauses.specs.Sides.{put_at_side};
    ghost use Rattle.iso_clauses.specs.Stepping.{first_number, behind};
    ghost use Rattle.iso_db.specs.Presents.{contents, Stands, EachStands, KeepsClauses, KeepsIndex, GivesKeyed, Begins, key_in};
    ghost use Rattle.iso_clauses.specs.Fits.{fits, has_key};
    ghost use Rattle.iso_db.specs.Keyed.{Leads, remaining_ahead, remaining_keyed};

    /// No procedures. Takes no memory.
    pub fn new(alloc: Global) -> Db<C>
        ensures { contents result ≡ no_procedures }
    {
        Db {
            alloc,
            places: Places::new(alloc),
            entries: Vec::new(alloc),
            parts: Parts::new(alloc),
            lists: Vec::new(alloc),
            slots: Vec::new(alloc),
            removals: 0,
            forgotten: 0,
        }
    }

    /// The place of the procedure of this name and number of arguments: the one that it has, or a new one, where it
    /// is absent. The error is that memory was refused; nothing changed then.
    pub fn place(&mut self, name: &str, arity: usize) -> Result<usize, AllocError>
        ensures place { IfOk result (λ place. place_in (contents self.new) name.now arity ≡ Some place) }
        ensures within { IfOk result (λ place. place < length (contents self.new).procedures) }
        ensures contents { OnOk result (contents self.new ≡ with_procedure name.now arity (contents self.old)) }
        ensures known { IsSome (place_in (contents self.old) name.now arity) → IsOk result }
        ensures unchanged { OnErr result (contents self.new ≡ contents self.old) }
        ensures clauses { KeepsClauses self.old self.new }
        ensures index { KeepsIndex self.old self.new }
    {
        if let Some(place) = self.places.find(name, arity) {
            return Ok(place);
        }
        let place = self.entries.len();
        self.entries.push(Entry::new(self.alloc))?;
        if self.places.add(name, arity).is_err() {
            let _ = self.entries.pop();
            return Err(AllocError);
        }
        Ok(place)
    }

    /// The place of the procedure of this name and number of arguments, if it has one. Takes no memory.
    pub fn find(&self, name: &str, arity: usize) -> Option<usize>
        ensures { result ≡ place_in (contents self.now) name.now arity }
    {
        self.places.find(name, arity)
    }

    /// The kind of the procedure at this place, if it is there. Takes no memory.
    #[inline(always)]
    pub fn kind(&self, place: usize) -> Option<Kind>
        requires { place < length (contents self.now).procedures }
        ensures { result ≡ kind_at (contents self.now) place }
    {
        self.places.kind(place)
    }

    /// A view of the list of the procedure at this place as it is now. The error is that it is absent.
    #[inline(always)]
    fn list_view(&self, place: usize) -> Result<View, DbFault>
        requires { place < length (contents self.now).procedures }
        ensures gives { IfOk result (λ view. Giving self.now.slots.items self.now.removals self.now.entries.items view
            (clauses_at (contents self.now) place)) }
        ensures there { is_ok result ≡ is_some (kind_at (contents self.now) place) }
        ensures unknown { IfErr result (λ fault. fault ≡ Unknown) }
    {
        if self.kind(place).is_none() {
            return Err(DbFault::Unknown);
        }
        Ok(view_of(&self.entries[place], place, self.removals))
    }

    /// The clauses of the procedure at this place, as they are now, that have this key, or that have none.
    #[inline(always)]
    fn part(&self, place: usize, key: Option<FirstKey>) -> Ahead
        requires { place < length (contents self.now).procedures }
        ensures leads { Leads self.now.slots.items self.now.removals self.now.lists.items None result
            (filter (λ c. has_key key (key_in self.now c.number)) (clauses_at (contents self.now) place)) }
        ensures few { remaining_ahead result ≤ 2 ^ 64 }
    {
        let Some(number) = self.parts.find(place, key) else {
            return Ahead::nothing();
        };
        let view = view_of(&self.lists[number], number, self.removals);
        begun(&self.slots, &self.lists, None, view)
    }

    /// The clauses of the procedure at this place that a call with this key may use, by a view of all: it passes over
    /// the others.
    #[inline(always)]
    fn whole_view(&self, place: usize, key: Option<FirstKey>, view: View) -> KeyedView
        requires { Giving self.now.slots.items self.now.removals self.now.entries.items view
            (clauses_at (contents self.now) place) }
        ensures gives { GivesKeyed self.now result
            (filter (λ c. fits key (key_in self.now c.number)) (clauses_at (contents self.now) place)) }
        ensures few { remaining_keyed result ≤ 2 ^ 65 }
    {
        KeyedView {
            whole: true,
            key,
            own: begun(&self.slots, &self.entries, key, view),
            any: Ahead::nothing(),
        }
    }

    /// The clauses of the procedure at this place that a call with this key may use, by views of two parts of them.
    #[inline(always)]
    fn parts_view(&self, place: usize, key: Option<FirstKey>) -> KeyedView
        requires place { place < length (contents self.now).procedures }
        requires key { is_some key ≡ true }
        ensures gives { GivesKeyed self.now result
            (filter (λ c. fits key (key_in self.now c.number)) (clauses_at (contents self.now) place)) }
        ensures few { remaining_keyed result ≤ 2 ^ 65 }
    {
        KeyedView {
            whole: false,
            key: None,
            own: self.part(place, key),
            any: self.part(place, None),
        }
    }

    /// A view of the clauses of the procedure at this place, as they are now, that a call with this key may use: those
    /// with the same key and those without; of all clauses, where the call has no key. The error is that the procedure
    /// is absent. Takes no memory.
    #[inline(always)]
    pub fn view(&self, place: usize, key: Option<FirstKey>) -> Result<KeyedView, DbFault>
        requires { place < length (contents self.now).procedures }
        ensures gives { IfOk result (λ view. GivesKeyed self.now view
            (filter (λ c. fits key (key_in self.now c.number)) (clauses_at (contents self.now) place))) }
        ensures few { IfOk result (λ view. remaining_keyed view ≤ 2 ^ 65) }
        ensures there { is_ok result ≡ is_some (kind_at (contents self.now) place) }
        ensures unknown { IfErr result (λ fault. fault ≡ Unknown) }
    {
        let view = self.list_view(place)?;
        if key.is_some() && !self.entries[place].is_short() {
            return Ok(self.parts_view(place, key));
        }
        Ok(self.whole_view(place, key, view))
    }

    /// Takes the first clause of the view. `later` gives those behind it then; where there are none it stays as it is.
    #[inline(always)]
    fn take_first(&self, view: KeyedView, later: &mut KeyedView) -> Option<ClauseId>
        requires gives { (cs : List (Clause C)) × GivesKeyed self.now view cs }
        requires nothing { remaining_keyed later.old ≡ 0 }
        ensures first { (cs : List (Clause C)) → GivesKeyed self.now view cs → result ≡ first_number cs }
        ensures rest { (cs : List (Clause C)) → GivesKeyed self.now view cs
            → GivesKeyed self.now later.new (behind cs) }
        ensures stand { (cs : List (Clause C)) → GivesKeyed self.now view cs → EachStands self.now cs }
        ensures never_rises { remaining_keyed later.new ≤ remaining_keyed view }
    {
        let mut rest = view;
        let first = self.next_in(&mut rest)?;
        if self.has_more(&rest) {
            *later = rest;
        }
        Some(first)
    }

    /// Begins with a view of parts or of all clauses, as `begin` does.
    #[inline(never)]
    fn begin_long(
        &self,
        place: usize,
        key: Option<FirstKey>,
        later: &mut KeyedView,
    ) -> Option<ClauseId>
        requires place { place < length (contents self.now).procedures }
        requires nothing { remaining_keyed later.old ≡ 0 }
        ensures begins { Begins self.now (filter (λ c. fits key (key_in self.now c.number))
            (clauses_at (contents self.now) place)) result later.new }
    {
        let entry = &self.entries[place];
        if key.is_some() && !entry.is_short() {
            return self.take_first(self.parts_view(place, key), later);
        }
        let view = view_of(entry, place, self.removals);
        self.take_first(self.whole_view(place, key, view), later)
    }

    /// Begins with a view of all clauses, as `begin` does, where all were added at the end: these numbers, which are
    /// gone through at once.
    #[inline(always)]
    fn begin_short(
        &self,
        place: usize,
        numbers: &[ClauseId],
        key: Option<FirstKey>,
        later: &mut KeyedView,
    ) -> Option<ClauseId>
        requires place { place < length (contents self.now).procedures }
        requires at_end { (e : Kept) → slice_get self.now.entries.items place ≡ Some e → e.current.front ≡ [] }
        requires numbers { (e : Kept) → slice_get self.now.entries.items place ≡ Some e
            → numbers.now ≡ e.current.back }
        requires nothing { remaining_keyed later.old ≡ 0 }
        ensures begins { Begins self.now (filter (λ c. fits key (key_in self.now c.number))
            (clauses_at (contents self.now) place)) result later.new }
    {
        let entry = &self.entries[place];
        let numbers = &numbers[entry.first()..];
        let (first, others) = next_usable(&self.slots, numbers, key, &self.removals);
        if first.is_none() {
            return None;
        }
        let (second, rest) = next_usable(&self.slots, others, key, &self.removals);
        if second.is_some() {
            let view = view_of(entry, place, self.removals);
            let next = view.end - rest.len();
            *later = whole_behind(key, second, View { next, ..view });
        }
        first
    }

    /// The first clause of a view of the clauses of the procedure at this place, as `view` makes it, if there is one;
    /// `later`, which gave nothing, gives those behind it then. Where none is behind it nothing is written to `later`.
    /// The error is that the procedure is absent. Takes no memory.
    #[inline(always)]
    pub fn begin(
        &self,
        place: usize,
        key: Option<FirstKey>,
        later: &mut KeyedView,
    ) -> Result<Option<ClauseId>, DbFault>
        requires place { place < length (contents self.now).procedures }
        requires nothing { remaining_keyed later.old ≡ 0 }
        ensures begins { IfOk result (λ first. Begins self.now (filter (λ c. fits key (key_in self.now c.number))
            (clauses_at (contents self.now) place)) first later.new) }
        ensures there { is_ok result ≡ is_some (kind_at (contents self.now) place) }
        ensures unknown { IfErr result (λ fault. fault ≡ Unknown) }
        ensures unchanged { OnErr result (later.new ≡ later.old) }
    {
        if self.kind(place).is_none() {
            return Err(DbFault::Unknown);
        }
        if let Some(numbers) = self.entries[place].few_at_end() {
            return Ok(self.begin_short(place, numbers, key, later));
        }
        Ok(self.begin_long(place, key, later))
    }

    /// Whether a view has another clause to give. Takes one step, and no memory.
    #[inline(always)]
    pub fn has_more(&self, view: &KeyedView) -> bool
        ensures { (cs : List (Clause C)) → GivesKeyed self.now view.now cs → result ≡ is_some (first_number cs) }
    {
        view.own.next.is_some() || view.any.next.is_some()
    }

    /// The next clause of a view. Takes no memory.
    #[inline(always)]
    pub fn next_in(&self, view: &mut KeyedView) -> Option<ClauseId>
        requires { (cs : List (Clause C)) × GivesKeyed self.now view.old cs }
        ensures first { (cs : List (Clause C)) → GivesKeyed self.now view.old cs → result ≡ first_number cs }
        ensures rest { (cs : List (Clause C)) → GivesKeyed self.now view.old cs
            → GivesKeyed self.now view.new (behind cs) }
        ensures stand { (cs : List (Clause C)) → GivesKeyed self.now view.old cs → EachStands self.now cs }
        ensures there { IfSome result (λ id. (value : C) × Stands self.now id value) }
        ensures goes_on { (cs : List (Clause C)) × GivesKeyed self.now view.new cs }
        ensures falls { IfSome result (λ id. remaining_keyed view.new < remaining_keyed view.old) }
        ensures never_rises { remaining_keyed view.new ≤ remaining_keyed view.old }
    {
        if !is_own_next(self.slots.as_slice(), view) {
            return advance(&self.slots, &self.lists, None, &mut view.any);
        }
        if view.whole {
            return advance(&self.slots, &self.entries, view.key, &mut view.own);
        }
        advance(&self.slots, &self.lists, view.key, &mut view.own)
    }

    /// What is kept of a clause that is in the database or that a view gives. Takes no memory.
    #[inline(always)]
    pub fn clause(&self, id: ClauseId) -> &C
        requires { (value : C) × Stands self.now id value }
        ensures { (value : C) → Stands self.now id value → result.now ≡ value }
    {
        match &self.slots[id.number()].value {
            Some(value) => value,
            None => unreachable!(),
        }
    }

    /// Whether the procedure at this place has the clause of this number. Takes no memory.
    pub fn has(&self, place: usize, id: ClauseId) -> bool
        requires { place < length (contents self.now).procedures }
        ensures { result ≡ has_in (clauses_at (contents self.now) place) id }
    {
        let slots = self.slots.as_slice();
        belongs(slots, id, place) && is_given(slots, id, self.removals)
    }

    /// Adds a clause to the procedure at this place, which gets this kind where it is absent. The error is that
    /// memory was refused; nothing changed then.
    fn insert(
        &mut self,
        place: usize,
        key: Option<FirstKey>,
        clause: C,
        side: Side,
        kind: Kind,
    ) -> Result<ClauseId, AllocError>
        requires { place < length (contents self.old).procedures }
        ensures number { IfOk result (λ id. id ≡ (contents self.old).added) }
        ensures contents { OnOk result
            (contents self.new ≡ with_clause (put_at_side side) kind place clause (contents self.old)) }
        ensures stands { IfOk result (λ id. Stands self.new id clause) }
        ensures key { IfOk result (λ id. key_in self.new id ≡ key) }
        ensures unchanged { OnErr result (contents self.new ≡ contents self.old) }
        ensures clauses { KeepsClauses self.old self.new }
        ensures index { KeepsIndex self.old self.new }
    {
        let part = open_part(self.alloc, &mut self.parts, &mut self.lists, place, key)?;
        let label = Label {
            procedure: place,
            part,
            side,
            key,
        };
        let id = add(
            &mut self.entries,
            &mut self.lists,
            &mut self.slots,
            label,
            clause,
        )?;
        self.places.make_present(place, kind);
        Ok(id)
    }

    /// Adds a clause with this key, or without, before those of the procedure at this place (8.9.1), which is dynamic
    /// from then on where it was absent. The errors are that it is static, and that memory was refused; nothing changed
    /// then.
    pub fn add_first(
        &mut self,
        place: usize,
        key: Option<FirstKey>,
        clause: C,
    ) -> Result<ClauseId, DbFault>
        requires { place < length (contents self.old).procedures }
        ensures number { IfOk result (λ id. id ≡ (contents self.old).added) }
        ensures contents { OnOk result
            (contents self.new ≡ with_clause at_front Dynamic place clause (contents self.old)) }
        ensures stands { IfOk result (λ id. Stands self.new id clause) }
        ensures key { IfOk result (λ id. key_in self.new id ≡ key) }
        ensures fixed { kind_at (contents self.old) place ≡ Some static_kind → result ≡ Err Static }
        ensures refused { result ≡ Err Static → kind_at (contents self.old) place ≡ Some static_kind }
        ensures never { result ≢ Err Unknown }
        ensures unchanged { OnErr result (contents self.new ≡ contents self.old) }
        ensures clauses { KeepsClauses self.old self.new }
        ensures index { KeepsIndex self.old self.new }
    {
        if let Some(Kind::Static) = self.kind(place) {
            return Err(DbFault::Static);
        }
        let id = self.insert(place, key, clause, Side::First, Kind::Dynamic)?;
        Ok(id)
    }

    /// Adds a clause with this key, or without, behind those of the procedure at this place (8.9.2), which is dynamic
    /// from then on where it was absent. The errors are that it is static, and that memory was refused; nothing changed
    /// then.
    pub fn add_last(
        &mut self,
        place: usize,
        key: Option<FirstKey>,
        clause: C,
    ) -> Result<ClauseId, DbFault>
        requires { place < length (contents self.old).procedures }
        ensures number { IfOk result (λ id. id ≡ (contents self.old).added) }
        ensures contents { OnOk result
            (contents self.new ≡ with_clause at_end Dynamic place clause (contents self.old)) }
        ensures stands { IfOk result (λ id. Stands self.new id clause) }
        ensures key { IfOk result (λ id. key_in self.new id ≡ key) }
        ensures fixed { kind_at (contents self.old) place ≡ Some static_kind → result ≡ Err Static }
        ensures refused { result ≡ Err Static → kind_at (contents self.old) place ≡ Some static_kind }
        ensures never { result ≢ Err Unknown }
        ensures unchanged { OnErr result (contents self.new ≡ contents self.old) }
        ensures clauses { KeepsClauses self.old self.new }
        ensures index { KeepsIndex self.old self.new }
    {
        if let Some(Kind::Static) = self.kind(place) {
            return Err(DbFault::Static);
        }
        let id = self.insert(place, key, clause, Side::Last, Kind::Dynamic)?;
        Ok(id)
    }

    /// Adds a clause with this key, or without, behind those of the procedure at this place, whatever its kind, as
    /// consulting a text does; where it was absent it is static from then on. The error is that memory was refused;
    /// nothing changed then.
    pub fn add_consulted(
        &mut self,
        place: usize,
        key: Option<FirstKey>,
        clause: C,
    ) -> Result<ClauseId, AllocError>
        requires { place < length (contents self.old).procedures }
        ensures number { IfOk result (λ id. id ≡ (contents self.old).added) }
        ensures contents { OnOk result
            (contents self.new ≡ with_clause at_end static_kind place clause (contents self.old)) }
        ensures stands { IfOk result (λ id. Stands self.new id clause) }
        ensures key { IfOk result (λ id. key_in self.new id ≡ key) }
        ensures unchanged { OnErr result (contents self.new ≡ contents self.old) }
        ensures clauses { KeepsClauses self.old self.new }
        ensures index { KeepsIndex self.old self.new }
    {
        self.insert(place, key, clause, Side::Last, Kind::Static)
    }

    /// Makes the procedure at this place dynamic where it is absent (7.4.2.1). The error is that it is static. Takes
    /// no memory.
    pub fn declare(&mut self, place: usize) -> Result<(), DbFault>
        requires { place < length (contents self.old).procedures }
        ensures contents { OnOk result (contents self.new ≡ with_kind Dynamic place (contents self.old)) }
        ensures allowed { is_ok result ≡ is_not_static (kind_at (contents self.old) place) }
        ensures fixed { IfErr result (λ fault. fault ≡ Static) }
        ensures unchanged { OnErr result (contents self.new ≡ contents self.old) }
        ensures clauses { KeepsClauses self.old self.new }
        ensures index { KeepsIndex self.old self.new }
    {
        if let Some(Kind::Static) = self.kind(place) {
            return Err(DbFault::Static);
        }
        self.places.make_present(place, Kind::Dynamic);
        Ok(())
    }

    /// Removes a procedure with all its clauses (8.9.4); views made before give them still. The error is that it is
    /// static. Takes no memory.
    pub fn abolish(&mut self, place: usize) -> Result<(), DbFault>
        requires { place < length (contents self.old).procedures }
        ensures contents { OnOk result (contents self.new ≡ without_procedure place (contents self.old)) }
        ensures allowed { is_ok result ≡ is_not_static (kind_at (contents self.old) place) }
        ensures fixed { IfErr result (λ fault. fault ≡ Static) }
        ensures unchanged { OnErr result (contents self.new ≡ contents self.old) }
        ensures clauses { KeepsClauses self.old self.new }
        ensures index { KeepsIndex self.old self.new }
    {
        if matches!(self.kind(place), Some(Kind::Static)) {
            return Err(DbFault::Static);
        }
        let entry = &self.entries[place];
        kill_all(&mut self.slots, &mut self.removals, entry.current());
        trim_parts(
            &mut self.lists,
            self.slots.as_slice(),
            self.removals,
            entry.current(),
        );
        self.places.make_absent(place);
        trim(
            &mut self.entries,
            self.slots.as_slice(),
            self.removals,
            place,
        );
        Ok(())
    }

    /// Removes a clause from the database; views made before give it still. False where it was removed before. It does
    /// without the memory for thinning out what was removed where that is refused.
    pub fn remove(&mut self, id: ClauseId) -> bool
        ensures removed { result ≡ has_clause (contents self.old) id }
        ensures contents { contents self.new ≡ without_clause id (contents self.old) }
        ensures clauses { KeepsClauses self.old self.new }
        ensures index { KeepsIndex self.old self.new }
    {
        if !kill(&mut self.slots, &mut self.removals, id) {
            return false;
        }
        tidy(
            self.alloc,
            &mut self.entries,
            &mut self.lists,
            self.slots.as_slice(),
            self.removals,
            id,
        );
        true
    }

    /// Removes the clause of this number from the procedure at this place; views made before give it still. False
    /// where that procedure has it not, or not any more. It does without the memory for thinning out what was removed
    /// where that is refused.
    pub fn remove_from(&mut self, place: usize, id: ClauseId) -> bool
        requires { place < length (contents self.old).procedures }
        ensures removed { result ≡ has_in (clauses_at (contents self.old) place) id }
        ensures contents { contents self.new ≡ without_clause_at place id (contents self.old) }
        ensures clauses { KeepsClauses self.old self.new }
        ensures index { KeepsIndex self.old self.new }
    {
        if !belongs(self.slots.as_slice(), id, place) {
            return false;
        }
        self.remove(id)
    }

    /// From here on no view stands that was made before, and what no new view can give is given back. Takes one step
    /// where no clause was removed since the last time.
    pub fn forget_views(&mut self)
        ensures contents { contents self.new ≡ contents self.old }
        ensures clauses { (place : ℕ) → EachStands self.new (clauses_at (contents self.new) place) }
        ensures keys { (number : ℕ) → key_in self.new number ≡ key_in self.old number }
    {
        if self.removals == self.forgotten {
            return;
        }
        forget_blocks(&mut self.entries);
        forget_blocks(&mut self.lists);
        forget_values(&mut self.slots, self.removals);
        self.forgotten = self.removals;
    }
}
