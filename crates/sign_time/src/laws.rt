//! What holds of the calendar and of printed moments, each as the contract of a call that does nothing.
ghost use Rattle.sign_time.specs.Law.{BeginsWithDate, CountsBack, CountsForth, CountsToItsSecond};
ghost use Rattle.sign_time.specs.Law.{IsWithinItsSecond, ShowsItsWholeSecond};

/// `format_iso8601` begins with `format_date`.
pub fn iso8601_begins_with_the_date()
    ensures { BeginsWithDate }
{}

/// The calendar counts back to each date from the days before it.
pub fn days_count_back_to_their_date()
    ensures { CountsBack }
{}

/// The date that is counted off from a number of days has as many days before it.
pub fn a_date_has_its_days_before_it()
    ensures { CountsForth }
{}

/// The date and time of a moment are those of the whole second at or before it, which is less than
/// a second away.
pub fn a_moment_shows_its_whole_second()
    ensures within { IsWithinItsSecond }
    ensures shown { ShowsItsWholeSecond }
{}

/// The date and time that `format_iso8601` writes counts back to its second: to the whole second
/// at or before the moment, in the years from 0 to 9999.
pub fn a_printed_date_counts_back_to_its_second()
    ensures { CountsToItsSecond }
{}
