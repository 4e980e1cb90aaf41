//! Answers over both stores.

use std::alloc::Global;
use tests_rows::said;

/// The answer over both stores, or both answers where they differ.
pub fn agreed(
    alloc: Global,
    plain: anyhow::Result<String>,
    trail: anyhow::Result<String>,
) -> anyhow::Result<String> {
    let plain = said(alloc, plain)?;
    let trail = said(alloc, trail)?;
    if plain.as_str() == trail.as_str() {
        return Ok(plain);
    }
    Ok(format!(in alloc; "over Plain:\n{plain}\nover Trail:\n{trail}")?)
}
