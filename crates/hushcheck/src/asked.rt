//! The names that a call asks for.
ghost use Rattle.std.specs.Prelude.{◌≡◌, map, IfOk};
ghost use Rattle.hushcheck.specs.Report as spec;

use envtools::Env;
use std::alloc::{AllocError, Global};

/// The names that are given, and with `all` every variable after them. Errors: memory ran out.
pub fn asked_names<'x>(
    alloc: Global,
    env: &'x Env,
    given: &[&'x [u8]],
    all: bool,
) -> Result<Vec<&'x [u8]>, AllocError>
    ensures { IfOk result (λ names. map (λ name. name.now) names.items
        ≡ spec.asked_names all env.now (map (λ name. name.now) given.now)) }
{
    let mut names = Vec::from_slice(alloc, given)?;
    if !all {
        return Ok(names);
    }
    let pairs = env.pairs()?;
    for pair in &pairs {
        names.push(pair.0)?;
    }
    Ok(names)
}
