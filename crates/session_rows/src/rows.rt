//! Sessions with what they must give, as files of rows write them: so much of TOML as they need.
use anyhow::{Context, Result, bail, ensure};
use iso_model::Limits;
use iso_session::EngineName;

/// A session: its text, its queries, its limits and its engine, where it is for one alone; and the output and the
/// status that it must give. Then how many cells are enough for it too, and how many are too few for the plain engine;
/// and the most cells, the most frames, and the most bytes that a writer takes a call, up to which it is tried with each
/// number of them.
#[derive(Drop)]
pub struct Session<'a> {
    pub name: &'a str,
    pub text: &'a str,
    pub queries: &'a str,
    pub limits: Limits,
    pub engine: Option<EngineName>,
    pub output: &'a str,
    pub status: u8,
    pub enough: Option<u32>,
    pub too_few: Option<u32>,
    pub cells_to: u32,
    pub frames_to: u32,
    pub bytes_to: u32,
}

impl<'a> Session<'a> {
    /// The session that says nothing but its file's text.
    fn new(text: &'a str) -> Session<'a> {
        Session {
            name: "",
            text,
            queries: "",
            limits: Limits::DEFAULT,
            engine: None,
            output: "",
            status: 0,
            enough: None,
            too_few: None,
            cells_to: 0,
            frames_to: 0,
            bytes_to: 0,
        }
    }

    /// Sets the number of this key. The error: there is no such key.
    fn set_number(&mut self, key: &str, number: u32) -> Result<()> {
        match key {
            "budget" => self.limits.budget = number,
            "cells" => self.limits.cells = number,
            "frames" => self.limits.frames = number,
            "status" => self.status = u8::try_from(number)?,
            "enough" => self.enough = Some(number),
            "too_few" => self.too_few = Some(number),
            "cells_to" => self.cells_to = number,
            "frames_to" => self.frames_to = number,
            "bytes_to" => self.bytes_to = number,
            _ => bail!("no such key: {key}"),
        }
        Ok(())
    }

    /// Sets the engine by its name. The error: there is no such engine.
    fn set_engine(&mut self, name: &str) -> Result<()> {
        self.engine = match name {
            "plain" => Some(EngineName::Plain),
            "wam" => Some(EngineName::Wam),
            _ => bail!("no such engine: {name}"),
        };
        Ok(())
    }

    /// Sets the value of this key. The error: there is no such key, or the value is no number and no engine.
    fn set(&mut self, key: &str, value: &'a str) -> Result<()> {
        match key {
            "name" => self.name = value,
            "text" => self.text = value,
            "queries" => self.queries = value,
            "output" => self.output = value,
            "engine" => self.set_engine(value)?,
            _ => self.set_number(key, value.parse::<u32>()?)?,
        }
        Ok(())
    }

    /// Whether the session is for this engine.
    pub fn is_for(&self, engine: EngineName) -> bool {
        match self.engine {
            Some(only) => only == engine,
            None => true,
        }
    }

    /// The limits with so many cells.
    pub fn within_cells(&self, cells: u32) -> Limits {
        let limits = self.limits;
        Limits { cells, ..limits }
    }

    /// The limits with so many frames.
    pub fn within_frames(&self, frames: u32) -> Limits {
        let limits = self.limits;
        Limits { frames, ..limits }
    }
}

/// The value at the front, without its quotes, and what stands behind it. Nothing stands for another character in it.
fn split_value(text: &str) -> Option<(&str, &str)> {
    for quotes in ["'''", "\"\"\"", "'", "\""] {
        if let Some(value) = text.strip_prefix(quotes) {
            return value.strip_prefix('\n').unwrap_or(value).split_once(quotes);
        }
    }
    text.split_once('\n')
}

/// The text that stands above the sessions of a file, or none.
pub fn text_above(head: &str) -> Result<&str> {
    let Some((_, value)) = head.split_once("\ntext = ") else {
        return Ok("");
    };
    let (text, _) = split_value(value).context("a text with no end")?;
    Ok(text)
}

/// The session of these lines. This text is that of its file.
pub fn read_session<'a>(text: &'a str, lines: &'a str) -> Result<Session<'a>> {
    let mut session = Session::new(text);
    let mut rest = lines;
    for _ in 0..lines.len() {
        let Some((key, behind)) = rest.split_once(" = ") else {
            break;
        };
        let (value, behind) = split_value(behind).context("a value with no end")?;
        session.set(key.trim(), value)?;
        rest = behind;
    }
    ensure!(rest.trim().is_empty(), "no key: {rest}");
    Ok(session)
}
