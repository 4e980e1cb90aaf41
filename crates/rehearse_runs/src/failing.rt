//! How many answers of a run may be unexpected.
ghost use Rattle.std.specs.Prelude.{◌≡◌, ◌+◌, ◌<◌, ◌≤◌, ◌^◌, length, take};
ghost use Rattle.rehearse_rules.specs.Expected.{asked_in, unexpected_of};
ghost use Rattle.rehearse_rules.specs.Runs.{is_at_most};
ghost use Rattle.rehearse_runs.specs.Searching.{CountsFor, counted};

use bootstore_state::LogEntry;
use device_list::Devices;
use rehearse_machine::is_unexpected;

/// How many answers in a log are not the expected ones.
pub(crate) fn unexpected(devices: &Devices, log: &[LogEntry]) -> usize
    ensures { result ≡ length (unexpected_of devices.now (asked_in log.now)) }
{
    let mut count = 0;
    for entry in log {
        if is_unexpected(devices, entry) {
            count += 1;
        }
    }
    count
}

/// How many answers in a log are not the expected ones, if so many at most may be. Without such a bound
/// the answer is 0, and takes no time.
pub(crate) fn unexpected_for(most: Option<u32>, devices: &Devices, log: &[LogEntry]) -> usize
    ensures { CountsFor most (length (unexpected_of devices.now (asked_in log.now))) result }
{
    match most {
        Some(_) => unexpected(devices, log),
        None => 0,
    }
}

/// How many device commands of a log took an outcome.
pub(crate) fn asked(log: &[LogEntry]) -> usize
    ensures { result ≡ length (asked_in log.now) }
{
    let mut count = 0;
    for entry in log {
        if !entry.again {
            count += 1;
        }
    }
    count
}

/// How many are unexpected after one more, if so many were before it.
pub(crate) fn after(count: usize, expected: Option<bool>, success: bool) -> usize
    requires { count + 1 < 2 ^ 64 }
    ensures { result ≡ counted count expected success }
{
    let Some(answer) = expected else {
        return count;
    };
    match (answer, success) {
        (true, true) | (false, false) => count,
        (true, false) | (false, true) => count + 1,
    }
}

/// Whether so many are no more than may be.
pub(crate) fn is_at_most(most: Option<u32>, count: usize) -> bool
    ensures { result ≡ is_at_most most count }
{
    match most {
        Some(most) => count <= most as usize,
        None => true,
    }
}
