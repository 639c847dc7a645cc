//! The stamp of a moment.

ghost use Rattle.std.specs.Prelude.{◌≡◌, ◌*◌, ◌/◌, ◌<◌, ◌^◌, pos, unsigned_abs, IfOk, IfSome, string_bytes};
ghost use Rattle.jiff.specs.Words.{civil_nanos};
ghost use Rattle.dns_keeper.specs.Stamp.{IsStampOf, date_text, clock_text, stamp_text};

use dns_io::OutOfMemory;
use jiff::Timestamp;
use jiff::civil::DateTime;
use jiff::tz::Offset;
use std::alloc::Global;

/// What a clock in UTC shows at a moment, in milliseconds since 1970.
fn shown_at(moment: u64) -> Option<DateTime>
    requires { moment < 2 ^ 47 }
    ensures { IfSome result (λ dt. civil_nanos dt ≡ pos (moment * 1000000)) }
{
    let at = Timestamp::from_millisecond(moment as i64).ok()?;
    Some(Offset::UTC.to_datetime(at))
}

/// `YYYY-MM-DD`.
fn date_text(alloc: Global, year: u16, month: u8, day: u8) -> Result<String, OutOfMemory>
    ensures { IfOk result (λ s. string_bytes s ≡ date_text year month day) }
{
    Ok(format!(in alloc; "{year:04}-{month:02}-{day:02}")?)
}

/// `HH:MM:SS.mmm`.
fn clock_text(
    alloc: Global,
    hour: u8,
    minute: u8,
    second: u8,
    millis: u16,
) -> Result<String, OutOfMemory>
    ensures { IfOk result (λ s. string_bytes s ≡ clock_text hour minute second millis) }
{
    Ok(format!(in alloc; "{hour:02}:{minute:02}:{second:02}.{millis:03}")?)
}

/// The date that is shown.
fn date_of(alloc: Global, shown: DateTime) -> Result<String, OutOfMemory>
    ensures { IfOk result (λ s. string_bytes s ≡ date_text (unsigned_abs shown.date.year) shown.date.month shown.date.day) }
{
    let year = shown.year().unsigned_abs();
    let month = shown.month().unsigned_abs();
    let day = shown.day().unsigned_abs();
    date_text(alloc, year, month, day)
}

/// The time of day that is shown.
fn clock_of(alloc: Global, shown: DateTime) -> Result<String, OutOfMemory>
    ensures { IfOk result (λ s. string_bytes s
        ≡ clock_text shown.time.hour shown.time.minute shown.time.second (shown.time.subsec_nanosecond / 1000000)) }
{
    let hour = shown.hour().unsigned_abs();
    let minute = shown.minute().unsigned_abs();
    let second = shown.second().unsigned_abs();
    let millis = shown.millisecond().unsigned_abs();
    clock_text(alloc, hour, minute, second, millis)
}

/// A date, a blank and a time of day.
fn stamp_text(alloc: Global, shown: DateTime) -> Result<String, OutOfMemory>
    ensures { IfOk result (λ s. string_bytes s ≡ stamp_text shown) }
{
    let date = date_of(alloc, shown)?;
    let clock = clock_of(alloc, shown)?;
    Ok(format!(in alloc; "{date} {clock}")?)
}

/// `YYYY-MM-DD HH:MM:SS.mmm` in UTC of a moment, in milliseconds since 1970.
pub fn stamp(alloc: Global, moment: u64) -> Result<String, OutOfMemory>
    requires { moment < 2 ^ 47 }
    ensures { IfOk result (λ s. IsStampOf moment (string_bytes s)) }
{
    // Each moment below 2^47 lies before the year 6430, and can be shown.
    let Some(shown) = shown_at(moment) else {
        return Err(OutOfMemory);
    };
    stamp_text(alloc, shown)
}
