//! The English names of the months, and the word for what is not known. All have ASCII alone, and
//! none has a character of markup.

pub(crate) const UNKNOWN: &str = "unknown";

// ---- months
pub(crate) const JANUARY: &str = "January";

pub(crate) const FEBRUARY: &str = "February";

pub(crate) const MARCH: &str = "March";

pub(crate) const APRIL: &str = "April";

pub(crate) const MAY: &str = "May";

pub(crate) const JUNE: &str = "June";

pub(crate) const JULY: &str = "July";

pub(crate) const AUGUST: &str = "August";

pub(crate) const SEPTEMBER: &str = "September";

pub(crate) const OCTOBER: &str = "October";

pub(crate) const NOVEMBER: &str = "November";

pub(crate) const DECEMBER: &str = "December";

pub(crate) const JAN: &str = "Jan";

pub(crate) const FEB: &str = "Feb";

pub(crate) const MAR: &str = "Mar";

pub(crate) const APR: &str = "Apr";

pub(crate) const JUN: &str = "Jun";

pub(crate) const JUL: &str = "Jul";

pub(crate) const AUG: &str = "Aug";

pub(crate) const SEP: &str = "Sep";

pub(crate) const OCT: &str = "Oct";

pub(crate) const NOV: &str = "Nov";

pub(crate) const DEC: &str = "Dec";
