//! Law: the line of a release in the log shows nothing of its password.

ghost use Rattle.serve_log.specs.LogLaws.{PasswordsDoNotShow};

/// No password shows: the line of a release tells what it came to, and is the same for each
/// password with which it comes to that.
pub fn passwords_do_not_show<F>()
    ensures { PasswordsDoNotShow F }
{}
