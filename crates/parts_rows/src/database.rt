//! The database of clauses, call by call: procedures and their kinds, and views while clauses are added and removed
//! (7.5.4).
ghost use Rattle.std.specs.Prelude.{◌<◌, ℕ, List, IfOk, IfSome, length};
ghost use Rattle.iso_db.specs.Databases.{Clause};
ghost use Rattle.iso_db.specs.Presents.{contents, GivesKeyed};
ghost use Rattle.parts_rows.specs.Views.{KeepsViews};

use super::rows::{number, parts};
use anyhow::{Context, Result};
use iso_db::{ClauseId, Db, DbFault, FirstKey, KeyedView, Kind};
use std::alloc::Global;
use std::fmt::Write;

/// What is said where memory was refused.
const NO_MEMORY: &str = "no memory";

/// The key that clauses and views get. Or each clause gets its value as its key, if that is less than a million.
#[derive(Clone, Copy)]
struct Keys {
    key: Option<FirstKey>,
    is_each: bool,
}

/// A procedure, and the keys that its clauses and views get.
#[derive(Clone, Copy)]
struct Target<'a> {
    name: &'a str,
    arity: usize,
    keys: Keys,
}

/// A clause: its key and its value.
#[derive(Clone, Copy)]
struct Fact {
    key: Option<FirstKey>,
    value: u64,
}

/// A line: its word, what stands behind it, and the keys that clauses and views get.
#[derive(Clone, Copy)]
struct Line<'a> {
    word: &'a str,
    rest: &'a str,
    keys: Keys,
}

/// A word for what a call came to that may be refused.
fn word_of(done: Result<(), DbFault>) -> &'static str {
    match done {
        Ok(()) => "done",
        Err(DbFault::Static) => "static",
        Err(DbFault::NoMemory) => NO_MEMORY,
        Err(DbFault::Unknown) => "unknown",
    }
}

/// Adds a clause to the procedure at this place.
fn insert(db: &mut Db<u64>, place: usize, deed: &str, fact: Fact) -> Result<ClauseId, DbFault>
    requires { place < length (contents db.old).procedures }
    ensures views { KeepsViews db.old db.new }
{
    match deed {
        "first" => db.add_first(place, fact.key, fact.value),
        "last" => db.add_last(place, fact.key, fact.value),
        _ => Ok(db.add_consulted(place, fact.key, fact.value)?),
    }
}

/// Adds a clause, whose number is to be the next one, to the procedure at this place.
fn add(
    db: &mut Db<u64>,
    ids: &mut Vec<ClauseId>,
    place: usize,
    deed: &str,
    fact: Fact,
) -> Result<&'static str, DbFault>
    requires { place < length (contents db.old).procedures }
    ensures views { KeepsViews db.old db.new }
{
    ids.reserve(1)?;
    match insert(db, place, deed, fact) {
        Err(fault) => Err(fault),
        Ok(id) if id.number() != ids.len() => Ok("another number"),
        Ok(id) => match ids.push(id) {
            Ok(()) => Ok("done"),
            Err(_) => Ok("no room"),
        },
    }
}

/// The number and the value of the next clause.
fn next(db: &Db<u64>, view: &mut KeyedView) -> Option<(ClauseId, u64)>
    requires { (cs : List (Clause ℕ)) × GivesKeyed db.now view.old cs }
    ensures { (cs : List (Clause ℕ)) × GivesKeyed db.now view.new cs }
{
    let id = db.next_in(view)?;
    let value = *db.clause(id);
    Some((id, value))
}

/// Removes the clause of this number.
fn remove(db: &mut Db<u64>, id: ClauseId) -> &'static str
    ensures views { KeepsViews db.old db.new }
{
    let is_removed = db.remove(id);
    if is_removed { "done" } else { "none" }
}

/// The first clause of the procedure at this place that a call with this key may use: its number and its value.
fn first_of(
    db: &Db<u64>,
    place: usize,
    key: Option<FirstKey>,
) -> Result<Option<(ClauseId, u64)>, DbFault>
    requires { place < length (contents db.now).procedures }
{
    match db.view(place, key) {
        Ok(mut view) => Ok(next(db, &mut view)),
        Err(fault) => Err(fault),
    }
}

/// Removes the first clause of the procedure at this place that a call with this key may use. It has this value.
fn take(db: &mut Db<u64>, place: usize, fact: Fact) -> Result<&'static str, DbFault>
    requires { place < length (contents db.old).procedures }
    ensures views { KeepsViews db.old db.new }
{
    match first_of(&*db, place, fact.key)? {
        None => Ok("none"),
        Some((_, first)) if first != fact.value => Ok("another one"),
        Some((id, _)) => Ok(remove(db, id)),
    }
}

/// A word for the kind of the procedure at this place.
fn kind_word(db: &Db<u64>, place: usize) -> &'static str
    requires { place < length (contents db.now).procedures }
{
    match db.kind(place) {
        None => "none",
        Some(Kind::Static) => "static",
        Some(Kind::Dynamic) => "dynamic",
    }
}

/// Does the deed with the procedure at this place, and says what came of it.
fn act(
    db: &mut Db<u64>,
    ids: &mut Vec<ClauseId>,
    place: usize,
    deed: &str,
    fact: Fact,
) -> Result<&'static str, DbFault>
    requires { place < length (contents db.old).procedures }
    ensures views { KeepsViews db.old db.new }
{
    match deed {
        "kind" => Ok(kind_word(&*db, place)),
        "declare" => Ok(word_of(db.declare(place))),
        "abolish" => Ok(word_of(db.abolish(place))),
        "take" => take(db, place, fact),
        "remove" => match ids.get(fact.value as usize) {
            None => Ok("none"),
            Some(id) => Ok(remove(db, *id)),
        },
        _ => add(db, ids, place, deed, fact),
    }
}

/// What came of a deed.
fn said_of(done: Result<&'static str, DbFault>) -> &'static str {
    match done {
        Ok(said) => said,
        Err(fault) => word_of(Err(fault)),
    }
}

/// Does the deed with the procedure of this name and number of arguments, and says what came of it.
fn act_on(
    db: &mut Db<u64>,
    ids: &mut Vec<ClauseId>,
    deed: &str,
    of: Target<'_>,
    value: u64,
) -> &'static str
    ensures views { KeepsViews db.old db.new }
{
    let Ok(place) = db.place(of.name, of.arity) else {
        return NO_MEMORY;
    };
    let key = if of.keys.is_each {
        Some(FirstKey::Integer((value % 1_000_000) as i64))
    } else {
        of.keys.key
    };
    let done = act(db, ids, place, deed, Fact { key, value });
    said_of(done)
}

/// Does the deed; where memory is refused, once more, since a refused call changes nothing.
fn act_at_last(
    db: &mut Db<u64>,
    ids: &mut Vec<ClauseId>,
    deed: &str,
    of: Target<'_>,
    value: u64,
) -> &'static str
    ensures views { KeepsViews db.old db.new }
{
    let said = act_on(db, ids, deed, of, value);
    if said == NO_MEMORY {
        return act_on(db, ids, deed, of, value);
    }
    said
}

/// The deed with this value; `put` adds a clause before the others, and takes it.
fn act_once(
    db: &mut Db<u64>,
    ids: &mut Vec<ClauseId>,
    deed: &str,
    of: Target<'_>,
    value: u64,
) -> &'static str
    ensures views { KeepsViews db.old db.new }
{
    if deed == "put" {
        let first = act_at_last(db, ids, "first", of, value);
        if first != "done" {
            return first;
        }
        return act_at_last(db, ids, "take", of, value);
    }
    act_at_last(db, ids, deed, of, value)
}

/// The deed with each of so many values from this one on, or from the last of them down, up to the first that says
/// something else than the first one: what is said of them, and of how many.
fn act_all(
    db: &mut Db<u64>,
    ids: &mut Vec<ClauseId>,
    deed: &str,
    of: Target<'_>,
    range: (u64, u64, bool),
) -> (&'static str, u64)
    ensures views { KeepsViews db.old db.new }
{
    let (first, count, is_down) = range;
    let last = count.saturating_sub(1);
    let start = if is_down { last } else { 0 };
    let answer = act_once(db, ids, deed, of, first.saturating_add(start));
    for step in 1..count {
        let behind = if is_down {
            last.saturating_sub(step)
        } else {
            step
        };
        let said = act_once(db, ids, deed, of, first.saturating_add(behind));
        if said != answer {
            return (answer, step);
        }
    }
    (answer, count)
}

/// The name and the number of arguments of a text as `p/1`.
fn indicator(text: &str) -> Result<(&str, usize)> {
    let (name, arity) = text.split_once('/').context("no indicator")?;
    Ok((name, arity.parse::<usize>()?))
}

/// The procedure of a text as `p/1`, with these keys.
fn procedure_of(text: &str, keys: Keys) -> Result<Target<'_>> {
    let (name, arity) = indicator(text)?;
    Ok(Target { name, arity, keys })
}

/// The key of a text: none, or an integer as `5`, the atom of a number as `a7`, a name of a number with a number of
/// arguments as `f7/2`.
fn key_of(text: &str) -> Result<Option<FirstKey>> {
    if matches!(text, "none" | "each") {
        return Ok(None);
    }
    if let Some(number) = text.strip_prefix('a') {
        return Ok(Some(FirstKey::Atom(number.parse::<usize>()?)));
    }
    if let Some(rest) = text.strip_prefix('f') {
        let (name, arity) = indicator(rest)?;
        return Ok(Some(FirstKey::Compound(name.parse::<usize>()?, arity)));
    }
    Ok(Some(FirstKey::Integer(text.parse::<i64>()?)))
}

/// The values of a line, as `0 100 down`: the first, how many, and whether they go down. One, where no number stands.
fn range(text: &str) -> Result<(u64, u64, bool)> {
    let (first, rest) = parts(text);
    let (count, direction) = parts(rest);
    let first = number(if first.is_empty() { "0" } else { first })?;
    let count = number(if count.is_empty() { "1" } else { count })?;
    Ok((first, count, direction == "down"))
}

/// The keys that clauses and views get by this text.
fn keys_of(text: &str) -> Result<Keys> {
    let (key, is_each) = (key_of(text)?, text == "each");
    Ok(Keys { key, is_each })
}

/// Says where the procedure has its place, if it has one, or is given one.
fn write_place(out: &mut String, db: &mut Db<u64>, of: Target<'_>, is_given: bool) -> Result<()>
    ensures views { KeepsViews db.old db.new }
{
    if is_given {
        writeln!(out, "  {}", db.place(of.name, of.arity)?)?;
        return Ok(());
    }
    match db.find(of.name, of.arity) {
        Some(place) => writeln!(out, "  {place}")?,
        None => out.push_str("  none\n")?,
    }
    Ok(())
}

/// Does what a line says, and says what came of it.
fn run_line(
    db: &mut Db<u64>,
    ids: &mut Vec<ClauseId>,
    out: &mut String,
    line: Line<'_>,
) -> Result<()>
    ensures views { KeepsViews db.old db.new }
{
    let (text, values) = parts(line.rest);
    let (of, range) = (procedure_of(text, line.keys)?, range(values)?);
    if matches!(line.word, "find" | "place") {
        return write_place(out, db, of, line.word == "place");
    }
    let (said, count) = act_all(db, ids, line.word, of, range);
    if range.1 == 1 {
        writeln!(out, "  {said}")?;
    } else {
        writeln!(out, "  {said}, {count} times")?;
    }
    Ok(())
}

/// The values that the view has still to give. Where `is_told`, a `+` stands where the database says that more are left.
fn write_values(out: &mut String, db: &Db<u64>, mut view: KeyedView, is_told: bool) -> Result<()>
    requires { (cs : List (Clause ℕ)) × GivesKeyed db.now view cs }
{
    out.push_str("  gives")?;
    'clauses: for _ in 0..u64::MAX {
        if is_told && db.has_more(&view) {
            out.push_str("+")?;
        }
        let Some((_, value)) = next(db, &mut view) else {
            break;
        };
        write!(out, " {value}")?;
    }
    out.push_str("\n")?;
    Ok(())
}

/// A view of the procedure for a call with this key, if the procedure is there.
fn view_of(db: &mut Db<u64>, of: Target<'_>) -> Result<Option<KeyedView>>
    ensures { IfOk result (λ made. IfSome made (λ v. (cs : List (Clause ℕ)) × GivesKeyed db.new v cs)) }
{
    let place = db.place(of.name, of.arity)?;
    match db.view(place, of.keys.key) {
        Ok(view) => Ok(Some(view)),
        Err(_) => Ok(None),
    }
}

/// Writes the values that the view has still to give, or that it is of no procedure.
fn write_given(out: &mut String, db: &Db<u64>, view: Option<KeyedView>, is_told: bool) -> Result<()>
    requires { IfSome view (λ v. (cs : List (Clause ℕ)) × GivesKeyed db.now v cs) }
{
    match view {
        Some(view) => write_values(out, db, view, is_told)?,
        None => out.push_str("  unknown\n")?,
    }
    Ok(())
}

/// Says the value of the view's next clause; the view gives those behind it then.
fn write_next(out: &mut String, db: &Db<u64>, view: Option<KeyedView>) -> Result<Option<KeyedView>>
    requires { IfSome view (λ v. (cs : List (Clause ℕ)) × GivesKeyed db.now v cs) }
    ensures { IfOk result (λ kept. IfSome kept (λ v. (cs : List (Clause ℕ)) × GivesKeyed db.now v cs)) }
{
    let Some(mut view) = view else {
        out.push_str("  unknown\n")?;
        return Ok(None);
    };
    match next(db, &mut view) {
        Some((_, value)) => writeln!(out, "  {value}")?,
        None => out.push_str("  none\n")?,
    }
    Ok(Some(view))
}

/// Does what a line says, beside a view, which stands on.
fn run_beside(
    db: &mut Db<u64>,
    ids: &mut Vec<ClauseId>,
    out: &mut String,
    view: Option<KeyedView>,
    line: Line<'_>,
) -> Result<Option<KeyedView>>
    requires { IfSome view (λ v. (cs : List (Clause ℕ)) × GivesKeyed db.old v cs) }
    ensures { IfOk result (λ kept. IfSome kept (λ v. (cs : List (Clause ℕ)) × GivesKeyed db.new v cs)) }
{
    run_line(db, ids, out, line)?;
    Ok(view)
}

/// Does what a line says: `view` makes a view of a procedure, and `gives` says what it gives then. `tells` says the same,
/// and each time whether more is left; `next` takes one clause of the view.
fn step(
    db: &mut Db<u64>,
    ids: &mut Vec<ClauseId>,
    out: &mut String,
    view: Option<KeyedView>,
    line: Line<'_>,
) -> Result<Option<KeyedView>>
    requires { IfSome view (λ v. (cs : List (Clause ℕ)) × GivesKeyed db.old v cs) }
    ensures { IfOk result (λ kept. IfSome kept (λ v. (cs : List (Clause ℕ)) × GivesKeyed db.new v cs)) }
{
    match line.word {
        "view" => view_of(db, procedure_of(line.rest, line.keys)?),
        "gives" | "tells" => {
            write_given(out, &*db, view, line.word == "tells")?;
            Ok(None)
        }
        "next" => write_next(out, &*db, view),
        "forget" => {
            db.forget_views();
            Ok(None)
        }
        _ => run_beside(db, ids, out, view, line),
    }
}

/// A database from its making on, call by call. Clauses have the numbers 0, 1, .. in the order in which they are added.
/// A line `key K` sets the key that the clauses and views behind it get; before it they get none. With `key each` each
/// clause gets its value as its key, and a view none.
pub fn database(alloc: Global, row: &str) -> Result<String> {
    let mut out = String::new(alloc);
    let mut db: Db<u64> = Db::new(alloc);
    let mut ids = Vec::new(alloc);
    let mut view = None;
    let mut keys = keys_of("none")?;
    for line in row.lines() {
        let (word, rest) = parts(line);
        if word == "key" {
            keys = keys_of(rest)?;
        } else if !matches!(word, "" | "#") {
            view = match step(&mut db, &mut ids, &mut out, view, Line { word, rest, keys }) {
                Ok(kept) => kept,
                Err(error) => return Err(error),
            };
        }
    }
    Ok(out)
}
