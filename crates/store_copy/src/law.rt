//! Laws of this crate: facts about its definitions that the check proves. Nothing calls them.

ghost use Rattle.store_copy.specs.Copies.{CopiesAgree};
ghost use Rattle.store_copy.specs.Slices.{SlicesCopy};

/// A copy of an account and of the devices agrees with its source on them. So by `isolation` of
/// `room_serve` the account is answered the same over both, byte for byte.
pub fn copies_agree()
    ensures { CopiesAgree }
{}

/// Where the copy was new, and was made whole by slices and by nothing else, it has of each account
/// what the source had when one of them was done, and the devices that it had at the last.
pub fn slices_copy()
    ensures { SlicesCopy }
{}
