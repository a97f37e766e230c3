//! The program `plain_twin`: asks the core and the plain recount the same drawn requests on three cells, and prints how many there
//! were, how many were granted, and how many refused, by their words. At the first difference it says so and ends with status 1.
#![tactic(auto)]

mod draws;
mod replies;
mod shapes;
mod twins;

use anyhow::{Context, Result, bail};
use cell_base::cell_fits;
use replies::Replies;
use shapes::{SHAPES, cell_of};
use std::process::ExitCode;

fn main(rt: HostRuntime) -> ExitCode {
    match compare_all(&rt) {
        Ok(()) => ExitCode::SUCCESS,
        Err(error) => {
            let _ = println!(rt; "{error:?}");
            ExitCode::from(1)
        }
    }
}

// Asks both on each cell.
fn compare_all<R: Print + AllocGlobal>(rt: &R) -> Result<()> {
    let mut replies = Replies::none(rt.alloc());
    for shape in SHAPES {
        let cell = cell_of(rt.alloc(), shape).ok().context("no memory")?;
        if !cell_fits(&cell) {
            bail!("a cell does not fit");
        }
        twins::compare(rt.alloc(), &cell, &mut replies)?;
    }
    println!(rt; "{replies}")?;
    Ok(())
}
