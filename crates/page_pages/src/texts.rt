//! The English texts of the pages. All have ASCII alone, and none has a character of markup.

/// Where nothing is said.
pub(crate) const NOTHING: &str = "";

// ---- all pages
pub(crate) const PRODUCT: &str = "Farojuniper";

pub(crate) const PRINT_ROOM: &str = "Print room";

pub(crate) const SKIP: &str = "Skip to the content";

pub(crate) const TIMES: &str = "Days are in UTC, and so are times that name no zone.";

// ---- what is left
pub(crate) const ACCOUNT: &str = "Account";

pub(crate) const STATEMENT_FOR: &str = "Statement for ";

pub(crate) const UNITS_LEFT: &str = "Units left";

pub(crate) const LEFT: &str = "Left";

pub(crate) const CHARGED: &str = "Charged";

pub(crate) const RESERVED: &str = "Reserved";

pub(crate) const GRANTED: &str = "Granted";

pub(crate) const UNITS: &str =
    "A page counts as many units as is said of the device that prints it. Released to any device, a job prints where a page counts 1 unit.";

// ---- jobs
pub(crate) const WAITING: &str = "Waiting";

pub(crate) const NOTHING_WAITS: &str = "Nothing waits.";

pub(crate) const NUMBER: &str = "No.";

pub(crate) const JOB: &str = "Job";

pub(crate) const STATE: &str = "State";

pub(crate) const DEVICE: &str = "Device";

pub(crate) const PAGES: &str = "Pages";

pub(crate) const COPIES: &str = "Copies";

pub(crate) const FILES: &str = "Files";

pub(crate) const MADE: &str = "Made";

pub(crate) const ACTS: &str = "Acts";

// The states of a job, each with a sentence that explains it.
pub(crate) const HELD: &str = "Held";

pub(crate) const RELEASED: &str = "Released";

pub(crate) const PRINTING: &str = "Printing";

pub(crate) const STOPPING: &str = "Stopping";

pub(crate) const PRINTED: &str = "Printed";

pub(crate) const CANCELED: &str = "Cancelled";

pub(crate) const FAILED: &str = "Failed";

pub(crate) const IS_INCOMPLETE: &str = "Not all of its files have come.";

pub(crate) const IS_LOCKED: &str = "It has a password: release it at a device.";

pub(crate) const IS_UNCOUNTED: &str = "Its pages are not known: release it at a device.";

pub(crate) const IS_READY: &str = "It waits until you release it.";

pub(crate) const IS_READY_ELSEWHERE: &str =
    "No device that counts 1 unit a page is on: release it at a device. Released here, it waits for one.";

pub(crate) const IS_READY_LATER: &str = "No device is on. Released, it waits for one.";

pub(crate) const IS_SHORT: &str = "Too little is left to release it.";

pub(crate) const IS_RELEASED: &str = "It prints once it is started at a device.";

pub(crate) const IS_PRINTING: &str = "A device prints it now.";

pub(crate) const IS_STOPPING: &str = "Its device was told to stop.";

// What helps where too little is left.
pub(crate) const LITTLE_FOR_ALL: &str = " Too little is left for each device that is on.";

pub(crate) const LITTLE_FOR: &str = " Too little is left for ";

pub(crate) const ENOUGH_FOR: &str = ", and enough for ";

// What a job costs.
pub(crate) const UNITS_NEEDED_BY_JOB: &str = "Units";

pub(crate) const AT_DEVICE: &str = "at ";

pub(crate) const NOT_KNOWN: &str = "unknown";

pub(crate) const NO_NAME: &str = "without a name";

pub(crate) const ANY_DEVICE: &str = "any";

pub(crate) const NO_DEVICE_YET: &str = "none yet";

pub(crate) const NO_DEVICE: &str = "none";

pub(crate) const RELEASE_FOR: &str = "Release for ";

pub(crate) const HOLD: &str = "Hold";

pub(crate) const CANCEL: &str = "Cancel";

// ---- jobs that ended
pub(crate) const LAST_ENDED: &str = "Ended last";

pub(crate) const NOTHING_ENDED: &str = "No job has ended yet.";

pub(crate) const WHEN_ENDED: &str = "Ended";

pub(crate) const UNITS_CHARGED: &str = "Units";

// ---- devices
pub(crate) const DEVICES: &str = "Devices";

pub(crate) const NO_DEVICES: &str = "No device is on.";

pub(crate) const UNITS_A_PAGE: &str = "Units a page";

pub(crate) const ON: &str = "On";

pub(crate) const OFF: &str = "Off";

// ---- the form to print
pub(crate) const PRINT: &str = "Print a file";

pub(crate) const FILE: &str = "File";

pub(crate) const FILE_HELP: &str =
    "PDF, PostScript, JPEG, PWG raster, URF or plain text, up to 16 MiB.";

pub(crate) const PAGES_OF_COPY: &str = "Pages of one copy";

pub(crate) const PAGES_HELP: &str =
    "May be empty. Then release it at a device, where they are asked for.";

pub(crate) const PASSWORD: &str = "Password";

pub(crate) const PASSWORD_HELP: &str =
    "May be empty. With one, only the password releases the job, at a device.";

pub(crate) const PASSWORD_DUTY: &str =
    "Choose one for this file. Only the password releases the job, at a device.";

pub(crate) const HAND_IN: &str = "Hand in";

pub(crate) const SCRIPT_NEEDED: &str =
    "To hand in a file here, the browser has to run scripts. All else works without.";

pub(crate) const SENT_EMPTY: &str = "Choose a file that is not empty.";

pub(crate) const SENT_LARGE: &str = "This file has more than 16 MiB.";

pub(crate) const PAGES_RANGE: &str = "Pages go from 1 to 99999999. The field may be empty.";

pub(crate) const SENT_SENDING: &str = "The file is on its way.";

pub(crate) const SENT_REFUSED: &str = "The file was not taken.";

pub(crate) const SENT_BROKEN: &str = "The file did not get through. Try again.";

// ---- several jobs at once
pub(crate) const CHOOSE: &str = "Choose job";

pub(crate) const CHOOSE_ALL: &str = "Choose all";

pub(crate) const CHOSEN: &str = "Chosen:";

pub(crate) const RELEASE_CHOSEN: &str = "Release the chosen";

pub(crate) const CANCEL_CHOSEN: &str = "Cancel the chosen";

pub(crate) const CANCELS_MANY: &str = "Press again to cancel:";

pub(crate) const DONE_OF_MANY: &str = "Done:";

// ---- reloading
pub(crate) const STALE: &str =
    "This page could not be loaded anew. What it shows may have changed.";

pub(crate) const RELOADS: &str = "While a job waits, this page loads itself anew every 30 seconds.";

pub(crate) const STOP_RELOADING: &str = "Leave it as it is";

pub(crate) const STAYS: &str = "This page stays as it is.";

pub(crate) const START_RELOADING: &str = "Load it anew every 30 seconds";

// ---- what came of an act
pub(crate) const DONE_RELEASE: &str = " was released.";

pub(crate) const DONE_HOLD: &str = " is held.";

pub(crate) const DONE_CANCEL: &str = " was cancelled.";

pub(crate) const DONE_PRINT: &str = " was handed in.";

pub(crate) const NOT_RELEASE: &str = " was not released.";

pub(crate) const NOT_HOLD: &str = " was not held.";

pub(crate) const NOT_CANCEL: &str = " was not cancelled.";

pub(crate) const NOT_PRINT: &str = "The file was not taken.";

pub(crate) const THEN_RELEASE: &str =
    "It prints at any device that is on and counts 1 unit a page.";

pub(crate) const THEN_HOLD: &str = "It reserves nothing now.";

pub(crate) const THEN_CANCEL: &str = "What was not printed of it is not charged.";

pub(crate) const THEN_PRINT: &str = "It waits until it is released.";

pub(crate) const NOT_DONE: &str = "This was not done.";

pub(crate) const TRY_AGAIN: &str =
    "The records could not be read or written. Try again in a while.";

pub(crate) const UNITS_NEEDED: &str = "Units needed: ";

pub(crate) const UNITS_HAD: &str = ". Units left: ";

pub(crate) const QUOTA_ADVICE: &str =
    ". Print less of it, hold another job that is released, or ask for more.";

// ---- the words of refusals
pub(crate) const WHY_PROTOCOL: &str = "The print server did not understand what was asked.";

pub(crate) const WHY_TARGET: &str = "There is no such account or job here.";

pub(crate) const WHY_DOCUMENT_FORMAT: &str =
    "It has to be PDF, PostScript, JPEG, PWG raster, URF or plain text.";

pub(crate) const WHY_PASSWORD_TOO_LONG: &str = "The password has more than 32 bytes.";

pub(crate) const WHY_JOB_NAME_TOO_LONG: &str = "Its name has more than 255 bytes.";

pub(crate) const WHY_TEMPLATE: &str = "Copies go from 1 to 999.";

pub(crate) const WHY_DOCUMENT_TOO_LARGE: &str = "It has more than 16 MiB.";

pub(crate) const WHY_NO_JOB: &str = "There is no such job in this account.";

pub(crate) const WHY_NOT_ACCEPTING: &str =
    "The account has as many jobs as it may have. Print or cancel one first.";

pub(crate) const WHY_CLOSED: &str = "The job takes no more files.";

pub(crate) const WHY_TOO_MANY_DOCUMENTS: &str = "The job has 8 files, the most that one may have.";

pub(crate) const WHY_STOPPING: &str =
    "It was told to stop before, and ends as soon as its device has.";

pub(crate) const WHY_ENDED: &str = "It has ended.";

pub(crate) const WHY_PRINTING: &str = "A device prints it. It can still be cancelled.";

pub(crate) const WHY_INCOMPLETE: &str = "Not all of its files have come.";

pub(crate) const WHY_PASSWORD: &str =
    "It has a password: release it at a device, where the password is asked for.";

pub(crate) const WHY_IMPRESSIONS_UNKNOWN: &str =
    "Its pages are not known: release it at a device, where they are asked for.";

pub(crate) const WHY_STATE: &str = "Its state does not allow that.";

pub(crate) const WHY_OTHER_DEVICE: &str = "Another device has it.";

pub(crate) const WHY_RATE: &str =
    "A page counts more than 1 unit on that device: release it there.";

pub(crate) const WHY_NO_DEVICE: &str = "There is no such device.";

pub(crate) const WHY_DEVICE_OFF: &str = "That device is off.";

pub(crate) const WHY_EXISTS: &str = "That is so already.";

pub(crate) const WHY_CONFLICT: &str = "The month has another grant.";

// ---- what was refused
pub(crate) const START_PAGE: &str = "Go to the first page";

pub(crate) const BAD_REQUEST: &str = "This was not understood";

pub(crate) const IS_BAD_REQUEST: &str =
    "The address, or what the form said, is none that a page here makes. Nothing was done.";

pub(crate) const OTHER_NAME: &str = "This is not the address of these pages";

pub(crate) const BY_OTHER_NAME: &str =
    "The pages are not answered by the name in the address. The print room knows by which they are.";

pub(crate) const WAS_NOT_DONE: &str = "This was not done";

pub(crate) const FROM_ELSEWHERE: &str =
    "The form came from another site, or the browser did not say from which. Do it on your own page.";

pub(crate) const NO_PAGE: &str = "There is no such page";

pub(crate) const NO_SUCH_PAGE: &str =
    "The address names no account that is open, and no other page. Names have small letters.";

pub(crate) const CANNOT_DO: &str = "This cannot be done here";

pub(crate) const IS_ONLY_READ: &str = "The address is one to look at. Nothing was done.";

pub(crate) const IS_ONLY_DONE: &str =
    "The address takes what a form of a page sends, and shows nothing itself.";

pub(crate) const IS_WRONG_TYPE: &str =
    "What was sent is not of the kind that the address takes. Nothing was done.";

pub(crate) const TOO_LARGE: &str = "The file is too large";

pub(crate) const IS_TOO_LARGE: &str =
    "A file has 16 MiB (16777216 bytes) at most. It was not taken.";

pub(crate) const PASSWORD_MISSING: &str = "A password is missing";

pub(crate) const HAS_NO_PASSWORD: &str =
    "This print room takes no file without a password. It was not taken.";

pub(crate) const NOT_NOW: &str = "Not at this moment";

pub(crate) const IS_FULL: &str =
    "The disk of the print room is full, and the file was not taken. Try again in a minute.";

pub(crate) const ASK_AGAIN: &str = "Others are being served. Load the page again.";

pub(crate) const HAS_FAILED: &str = "The print room failed";

pub(crate) const FAILED_HERE: &str =
    "What the page shows could not be read. Try again, and tell the print room if it stays so.";

// ---- a statement
pub(crate) const STATEMENT: &str = "Statement";

pub(crate) const BACK_TO: &str = "Back to ";

pub(crate) const DRAWN_UP: &str = "Drawn up ";

pub(crate) const AS_CSV: &str = "As a table (CSV)";

pub(crate) const GRANTED_BEFORE: &str = "Granted for months before";

pub(crate) const GIVEN_BACK: &str = "Of this given back";

pub(crate) const CHARGED_BEFORE: &str = "Less charged before";

pub(crate) const OPENING: &str = "Balance at the beginning";

pub(crate) const PLUS_GRANTED: &str = "Plus granted";

pub(crate) const LESS_CHARGED: &str = "Less charged";

pub(crate) const CLOSING: &str = "Balance at the end";

pub(crate) const RESERVED_NOW: &str = "Reserved now, by jobs that are released";

pub(crate) const LEFT_NOW: &str = "Left now";

pub(crate) const MONTH: &str = "Month";

pub(crate) const JOBS_ENDED: &str = "Jobs that ended";

// ---- the print room's page
pub(crate) const OPERATORS: &str = "For operators";

pub(crate) const AS_OF: &str = "As of ";

pub(crate) const NOT_YET: &str = "Nothing is counted yet.";

pub(crate) const IS_GATHERED: &str =
    "All accounts are being counted anew. Then this page loads itself again.";

pub(crate) const SKIPS: &str = "Rows of some accounts are damaged. These accounts are not counted.";

pub(crate) const HAS_MORE: &str =
    "There are more accounts. The first 100000 by name are counted and listed.";

pub(crate) const FIND_LABEL: &str = "Account, or how it begins";

pub(crate) const FIND: &str = "Find";

pub(crate) const ACCOUNTS: &str = "Accounts";

pub(crate) const ACCOUNTS_OPEN: &str = "Accounts open";

pub(crate) const JOBS_WAITING: &str = "Jobs waiting";

pub(crate) const NOT_SETTLED: &str = "Begun, not settled";

pub(crate) const UNITS_IN_MONTH: &str = "Units charged in ";

pub(crate) const UNITS_THIS_MONTH: &str = "Units charged this month";

pub(crate) const UNITS_BEYOND: &str = "Of these beyond what was released";

pub(crate) const HIGHEST: &str = "Most on one day";

pub(crate) const BEGUN: &str = "Begun and not settled";

pub(crate) const NOTHING_BEGUN: &str = "No device has begun a job that it has not settled.";

pub(crate) const BEGUN_AT: &str = "Begun";

pub(crate) const LONGEST: &str = "Waiting longest";

pub(crate) const SINCE: &str = "Since";

pub(crate) const CHART: &str =
    "Bars, one for each day of the month. The table below has the numbers.";

pub(crate) const AS_TABLE: &str = "The same as a table";

pub(crate) const DAY: &str = "Day";

pub(crate) const UNITS_OF_DAY: &str = "Units";

pub(crate) const NO_ACCOUNTS: &str = "No account that was counted has such a name.";

pub(crate) const NEXT_ACCOUNTS: &str = "Next accounts";

// ---- the desk
pub(crate) const DESK: &str = "Desk";

pub(crate) const TO_ACCOUNTS: &str = "All accounts";

pub(crate) const OPEN_ACCOUNT: &str = "Open an account";

pub(crate) const NAME_HELP: &str = "1 to 32 small letters, digits and hyphens, the first a letter.";

pub(crate) const OPEN: &str = "Open";

pub(crate) const GRANT_UNITS: &str = "Grant units";

pub(crate) const MONTH_HELP: &str =
    "As 2026-12. They count from its first day on, and a month is granted once.";

pub(crate) const UNITS_GIVEN: &str = "Units";

pub(crate) const GRANT: &str = "Grant";

pub(crate) const GIVE_BACK: &str = "Give units back";

pub(crate) const GIVE_BACK_HELP: &str =
    "They count at once. Who takes some off, or notes a reason, does it in a terminal: ipp-room-desk correct.";

pub(crate) const GIVE: &str = "Give back";

pub(crate) const NO_MONTH_LEFT: &str =
    "Units were given back so often that no month is left for it.";

pub(crate) const GRANTS: &str = "Grants";

pub(crate) const NO_GRANTS: &str = "Nothing was granted yet.";

pub(crate) const IS_GIVEN_BACK: &str = "Given back";

pub(crate) const GRANTS_OF_FILE: &str = "Grant by a file";

pub(crate) const ROWS_HELP: &str =
    "CSV: account, month and units in each row, as alice,2026-12,500. Each row is told what it came to.";

pub(crate) const GRANT_ROWS: &str = "Grant";

pub(crate) const ROWS_SCRIPT: &str =
    "For this the browser has to run scripts. All else works without.";

pub(crate) const FILE_EMPTY: &str = "Choose a file with at least one row, and at most 100000.";

pub(crate) const ROW_BAD: &str = "This is no account, month and units. It was not sent.";

pub(crate) const ROW_BROKEN: &str =
    "The print server gave no answer. It may have been done. What follows was not sent.";

pub(crate) const ROW: &str = "Row";

pub(crate) const GRANT_LINE: &str = "Grant";

pub(crate) const CAME: &str = "What it came to";

pub(crate) const ROWS_DONE: &str = "Granted:";

pub(crate) const ROWS_SENT: &str = "Being granted:";

pub(crate) const ADD_DEVICE: &str = "Add a device";

pub(crate) const ALL_DEVICES: &str = "All devices";

pub(crate) const NO_KNOWN_DEVICES: &str = "No device is known yet.";

pub(crate) const TURN_ON: &str = "Turn on";

pub(crate) const TURN_OFF: &str = "Turn off";

pub(crate) const SET: &str = "Set";

pub(crate) const SET_RATE: &str = "Set the units a page of";

pub(crate) const IS_DONE: &str = "This was done";

pub(crate) const IS_OPEN: &str = "The account is open.";

pub(crate) const IS_GRANTED: &str = "The units are granted.";

pub(crate) const IS_CANCELED: &str = "The job is cancelled, or stops if a device prints it.";

pub(crate) const IS_HELD_NOW: &str = "The job is held, and reserves nothing.";

pub(crate) const IS_TURNED_ON: &str = "The device is on.";

pub(crate) const IS_TURNED_OFF: &str = "The device is off.";

pub(crate) const IS_RATED: &str = "A page counts as many units there from now on.";

pub(crate) const IS_NO_LINE: &str =
    "This is nothing that the desk does: names have small letters, a month is as 2026-12, numbers are in digits alone.";

pub(crate) const LINE_BROKEN: &str =
    "The print server gave no answer. Look whether it was done before you do it again.";

pub(crate) const ASKED_LINE: &str = "Line:";

pub(crate) const ASKED_BY: &str = "By:";

pub(crate) const NOT_KNOWN_HERE: &str = "You are not known here";

pub(crate) const IS_NO_OPERATOR: &str =
    "Who stands before these pages did not say who you are. Nothing is shown or done.";
