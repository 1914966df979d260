//! States laws of dates, each as the contract of a function.

ghost use Rattle.gix_date.specs.DateLaws.{FormsAreApart, AgoIsNeverLater, MonthsArePulledBack, MonthsBeforeYearsAreRefused, NoneWantsMemory};
ghost use Rattle.gix_date.specs.PrintedDate.{TimesReadBack, DaysReadBack};

/// States that no text has the shape of two of the first five forms, so their order decides nothing.
pub fn forms_are_apart()
    // No text has the shape of two of the first five forms.
    ensures { FormsAreApart }
{}

/// States that units counted back never lead to a time after `now`, and keep its offset.
pub fn ago_is_never_later()
    // The time that a text counts back to is not after the moment, and has the offset of the
    // moment.
    ensures { AgoIsNeverLater }
{}

/// States that counting months back leads to the same day of that month.
///
/// If that month does not have this day, it leads to the month's last day: a shorter month never
/// runs over into the next. A date before the beginning of the calendar is refused.
pub fn months_are_pulled_back()
    // If the calendar has the year: so many months before a date is the same day of the earlier
    // month, or the last day of that month if it does not have this day. The calendar has this
    // date.
    ensures back { MonthsArePulledBack }

    // If the calendar does not have that year, the answer is `OutOfRange`.
    ensures refused { MonthsBeforeYearsAreRefused }
{}

/// States that seconds and an offset, printed as `1234567890 +0200`, read back at every moment.
///
/// The seconds are any that an `i64` holds. The offset has whole minutes, and is at most 23 hours
/// and 59 minutes.
#[tactic(auto, using(crate::proofs::Printed::times_read_back))]
pub fn times_read_back()
    // Seconds of an `i64` and an offset of whole minutes, at most 23 hours and 59 minutes, printed
    // as `1234567890 +0200`, read back at every moment.
    ensures { TimesReadBack }
{}

/// States that a day of the years 0 to 9999, printed as `1979-02-26`, reads back at every moment.
#[tactic(auto, using(crate::proofs::Printed::days_read_back))]
pub fn days_read_back()
    // A day of the years 0 to 9999, printed as `1979-02-26`, reads back as its midnight at every
    // moment, with offset 0.
    ensures { DaysReadBack }
{}

/// States that no text gives `OutOfMemory`: [`parse`](crate::date::parse) allocates nothing.
#[tactic(auto, using(crate::proofs::Refused::none_wants_memory))]
pub fn none_wants_memory()
    // Each error is `NotADate` or `OutOfRange`. No text gives `OutOfMemory`.
    ensures { NoneWantsMemory }
{}
