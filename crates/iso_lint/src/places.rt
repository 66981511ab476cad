//! Where the tokens of a text stand: lines and columns.
ghost use Rattle.std.specs.Prelude.{◌≡◌, ◌<◌, ◌≤◌, ◌+◌, ◌^◌, ℕ, List, length, map, IfOk};
ghost use Rattle.std.specs.List.{All};
ghost use Rattle.iso_lint.specs.Places as spec;
ghost use Rattle.iso_lint.specs.Marks.{AreMarks};
ghost use Rattle.iso_lint.specs.Places.{behind_all, place_at, IsMark};

use std::alloc::{AllocError, Global};

/// Where a character stands in a text.
#[derive(Clone, Copy, Debug, PartialEq, Eq)]
pub struct Place {
    /// Its line; the first is 1.
    pub line: usize,
    /// How many characters of that line there are up to it, itself counted.
    pub column: usize,
}

/// Whether a byte goes on with the character of the byte before it.
fn goes_on(byte: u8) -> bool
    ensures { result ≡ spec.goes_on byte }
{
    matches!(byte, 128..=191)
}

/// The place behind a byte that stands at this place.
fn behind(place: Place, byte: u8) -> Place
    requires line { place.line + 1 < 2 ^ 64 }
    requires column { place.column + 1 < 2 ^ 64 }
    ensures value { result ≡ spec.behind place byte }
    ensures line { result.line ≤ place.line + 1 }
    ensures column { result.column ≤ place.column + 1 }
{
    match byte {
        b'\n' => Place {
            line: place.line + 1,
            column: 1,
        },
        byte if goes_on(byte) => place,
        _ => Place {
            line: place.line,
            column: place.column + 1,
        },
    }
}

/// The place behind bytes of which the first stands at this place.
fn behind_bytes(place: Place, bytes: &[u8]) -> Place
    requires line { place.line + length bytes.now < 2 ^ 64 }
    requires column { place.column + length bytes.now < 2 ^ 64 }
    ensures value { result ≡ behind_all place bytes.now }
    ensures line { result.line ≤ place.line + length bytes.now }
    ensures column { result.column ≤ place.column + length bytes.now }
{
    let mut at = place;
    for byte in bytes {
        at = behind(at, *byte);
    }
    at
}

/// A byte of a text, by its number, with its place.
#[derive(Clone, Copy)]
struct Mark {
    start: usize,
    place: Place,
}

/// The first byte.
fn first_mark() -> Mark
    ensures marks { (text : List ℕ) → IsMark text result }
    ensures first { result.start ≡ 0 }
{
    Mark {
        start: 0,
        place: Place { line: 1, column: 1 },
    }
}

/// A mark up to the byte of this number: this one, or the first.
fn mark_up_to(mark: Mark, start: usize) -> Mark
    ensures marks { (text : List ℕ) → IsMark text mark → IsMark text result }
    ensures before { result.start ≤ start }
{
    if start < mark.start {
        first_mark()
    } else {
        mark
    }
}

/// The byte of this number; the end where the text has no such byte. A mark before it makes the way shorter.
fn mark_at(text: &str, mark: Mark, start: usize) -> Mark
    requires { IsMark text.now mark }
    ensures mark { IsMark text.now result }
    ensures place { result.place ≡ place_at text.now start }
{
    let bytes = text.as_bytes();
    let end = start.min(bytes.len());
    let from = mark_up_to(mark, end);
    Mark {
        start: end,
        place: behind_bytes(from.place, &bytes[from.start..end]),
    }
}

/// How far apart marks of a text stand.
const STRIDE: usize = 4096;

/// Bytes of a text with their places, at equal distances, by which the places of others are found.
#[derive(Drop)]
pub struct Marks<'t> {
    text: &'t str,
    marks: Vec<Mark>,
}

/// Bytes of the text with their places, at equal distances. The error is that memory was refused.
fn all_marks(alloc: Global, text: &str) -> Result<Vec<Mark>, AllocError>
    ensures { IfOk result (λ marks. All (IsMark text.now) marks.items) }
{
    let mut marks = Vec::new(alloc);
    let mut mark = first_mark();
    for _ in 0..text.len() / STRIDE + 1 {
        marks.push(mark)?;
        mark = mark_at(text, mark, mark.start.saturating_add(STRIDE));
    }
    Ok(marks)
}

/// The mark of this number; the first byte where there is none.
fn mark_of(marks: &[Mark], number: usize) -> Mark
    ensures { (text : List ℕ) → All (IsMark text) marks.now → IsMark text result }
{
    match marks.get(number) {
        Some(mark) => *mark,
        None => first_mark(),
    }
}

impl<'t> Marks<'t> {
    /// The marks of a text. The error is that memory was refused.
    pub fn new(alloc: Global, text: &'t str) -> Result<Marks<'t>, AllocError>
        ensures { IfOk result (λ m. AreMarks m × (m.text.now ≡ text.entry.now)) }
    {
        let marks = all_marks(alloc, text)?;
        Ok(Marks { text, marks })
    }

    /// Where the byte of this number stands in the text; the place of the end, where the text has no such byte.
    pub fn place(&self, start: usize) -> Place
        requires { AreMarks self.now }
        ensures { result ≡ place_at self.now.text.now start }
    {
        let mark = mark_of(&self.marks, start / STRIDE);
        mark_at(self.text, mark, start).place
    }
}
