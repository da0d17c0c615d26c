// Whole seconds since 1970-01-01T00:00:00Z.
ghost use Rattle.std.specs.Prelude.{◌≡◌, ◌*◌, ◌/◌, IfOk};
ghost use Rattle.std.specs.Time.{system_time_nanos};

use std::fs::Metadata;
use std::io;
use std::io::ErrorKind;
use std::time::{Clock, Duration, SystemTime, UNIX_EPOCH};

fn whole_seconds(time: SystemTime) -> io::Result<u64>
    ensures { IfOk result (λ second. second ≡ system_time_nanos time / 1_000_000_000) }
{
    match time.duration_since(UNIX_EPOCH) {
        Ok(since) => Ok(since.as_secs()),
        Err(_) => Err(io::Error::from(ErrorKind::InvalidData)),
    }
}

/// The second in which a file was modified. A time before 1970 is a refusal.
pub(crate) fn modified_second(metadata: &Metadata) -> io::Result<u64> {
    whole_seconds(metadata.modified()?)
}

fn clock_second(clock: &impl Clock) -> io::Result<u64> {
    whole_seconds(SystemTime::now(clock)?)
}

/// The second that the clock gives, or the last one where the clock can't be read.
pub(crate) fn second_or(clock: &impl Clock, last: u64) -> u64 {
    match clock_second(clock) {
        Ok(second) => second,
        Err(_) => last,
    }
}

/// The moment at which a second begins.
pub(crate) fn moment_of(second: u64) -> io::Result<SystemTime>
    ensures { IfOk result (λ time. system_time_nanos time ≡ second * 1_000_000_000) }
{
    match UNIX_EPOCH.checked_add(Duration::from_secs(second)) {
        Some(moment) => Ok(moment),
        None => Err(io::Error::from(ErrorKind::InvalidInput)),
    }
}
