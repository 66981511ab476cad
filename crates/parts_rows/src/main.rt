//! Makes the calls of the single crates that rows of data name, and says what each gives.
#![tactic(auto)]

mod calls;
mod clauses;
mod database;
mod operators;
mod parts;
mod prepared;
mod rows;
mod stores;
mod terms;
mod tokens;
mod written;

use anyhow::{Context, Result, bail};
use std::alloc::Global;
use std::{env, fs};

/// What the calls of a row of this kind give.
fn outcome(alloc: Global, kind: &str, row: &str) -> Result<String> {
    match kind {
        "tokens" => tokens::tokens(alloc, row),
        "token" => tokens::token(alloc, row),
        "counted" => tokens::counted(alloc, row),
        "clauses" => clauses::clauses(alloc, row),
        "reads" => clauses::reads(alloc, row),
        "names" => clauses::names(alloc, row),
        "definite" => clauses::definite(alloc, row),
        "written" => written::written(alloc, row),
        "operators" => operators::operators(alloc, row),
        "flags" => operators::flags(alloc, row),
        "prepared" => prepared::prepared(alloc, row),
        "body" => prepared::body(alloc, row),
        "area" => parts::area(alloc, row),
        "sizes" => parts::sizes(alloc, row),
        "atoms" => parts::atoms(alloc, row),
        "numbering" => parts::numbering(alloc, row),
        "limits" => parts::limits(alloc),
        "stores" => stores::stores(alloc, row),
        "database" => database::database(alloc, row),
        _ => bail!("no such kind"),
    }
}

/// Says what the calls of each row of the file give. Its kind stands on the first line.
fn run_file(rt: &HostRuntime, path: &str) -> Result<()> {
    let text = fs::read_to_string(rt, path)?;
    let (kind, _) = text.as_str().split_once('\n').context("no kind")?;
    println!(rt; "{path}: {kind}")?;
    for part in text.as_str().split("\nrow ").skip(1) {
        let (name, row) = part.split_once('\n').context("no row")?;
        println!(rt; "{name}")?;
        let given = outcome(rt.alloc(), kind, row).context(format_args!("{path}: {name}"))?;
        print!(rt; "{}", rows::shortened(rt.alloc(), given)?)?;
    }
    Ok(())
}

fn main(rt: HostRuntime) -> Result<()> {
    for path in env::args(&rt)?.skip(1) {
        run_file(&rt, path.as_str())?;
    }
    Ok(())
}
