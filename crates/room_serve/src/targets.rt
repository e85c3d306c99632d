//! Whose a target is: a law that reads its bytes, which the check proves. Nothing calls it.
ghost use Rattle.room_serve.specs.Paths.{NamedByPath, PathNames, PathOfOne};

/// A target is its account's by its bytes alone. Where `input_http::account_of` says that it names
/// an account, it is `/ipp/print/`, the account's name, then nothing or `/` and 1 to 6 digits, and
/// then nothing or `?` and anything. And each target of that form names just that account. So none
/// is the path of two.
pub fn paths_are_accounts()
    ensures named { NamedByPath }
    ensures taken { PathNames }
    ensures one { PathOfOne }
{}
