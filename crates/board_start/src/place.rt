//! Which alternative of a list is taken.
ghost use Rattle.std.specs.Prelude.{◌≡◌};
ghost use Rattle.board_start.specs.Start.{place_of};

use crate::start_error::StartError;

/// The place of the alternative that is named, from 0 on. Errors: `Alternatives`, `NoAlternative`.
pub(crate) fn place_of(count: u32, alternative: Option<u32>) -> Result<u32, StartError>
    ensures { result ≡ place_of count alternative }
{
    let Some(number) = alternative else {
        if count == 1 {
            return Ok(0);
        }
        return Err(StartError::Alternatives(count));
    };
    if number == 0 || number > count {
        return Err(StartError::NoAlternative(number, count));
    }
    Ok(number - 1)
}
