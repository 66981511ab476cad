//! What may stand before the part of a program text that is consulted: a byte order mark, and a first line for a
//! shell. The standard has neither; that they are passed over is a rule of this system.
ghost use Rattle.std.specs.Prelude.{◌≡◌};
ghost use Rattle.iso_model.specs.Session.Sessions as sessions;

/// The text without a byte order mark at its start.
fn without_mark(text: &str) -> &str
    ensures { result.now ≡ sessions.without_mark text.now }
{
    match text.strip_prefix("\u{feff}") {
        Some(rest) => rest,
        None => text,
    }
}

/// The text without a first line that begins with `#!`.
fn without_first_line(text: &str) -> &str
    ensures { result.now ≡ sessions.without_first_line text.now }
{
    if !text.starts_with("#!") {
        return text;
    }
    match text.split_once('\n') {
        Some((_, rest)) => rest,
        None => "",
    }
}

/// The text without a byte order mark at its start, and then without a first line that begins with `#!`.
pub fn body_of_text(text: &str) -> &str
    ensures { result.now ≡ sessions.body_of_text text.now }
{
    without_first_line(without_mark(text))
}
