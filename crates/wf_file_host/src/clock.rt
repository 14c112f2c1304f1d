// The clock of the real host.
use std::io;
use std::time::{Clock, Instant, SystemTime};

/// The first reading of the wall clock, and when it was taken by the clock that is never set.
#[derive(Clone, Copy)]
pub(crate) struct First {
    reading: u64,
    at: Instant,
}

/// A reading in milliseconds since 1970: the wall clock's, or the first reading with the time since, where that is greater. So time goes on
/// also behind a wall clock that is set back.
pub(crate) fn read<C: Clock>(clock: &C, first: &mut Option<First>) -> io::Result<u64> {
    let reading = wall(clock)?;
    let now = Instant::now(clock)?;
    match *first {
        None => {
            *first = Some(First { reading, at: now });
            Ok(reading)
        }
        Some(first) => {
            let past = millis(now.duration_since(first.at).as_millis());
            Ok(reading.max(first.reading.saturating_add(past)))
        }
    }
}

/// The wall clock, in milliseconds since 1970; 0 before.
fn wall<C: Clock>(clock: &C) -> io::Result<u64> {
    match SystemTime::now(clock)?.duration_since(SystemTime::UNIX_EPOCH) {
        Ok(past) => Ok(millis(past.as_millis())),
        Err(_) => Ok(0),
    }
}

/// The same number, or the greatest of 64 bits.
fn millis(count: u128) -> u64 {
    count.min(u64::MAX as u128) as u64
}
