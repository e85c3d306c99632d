//! Laws: a form that another site may have sent does nothing, and a Host that is not answered is told
//! nothing; and which path leads where.
ghost use Rattle.serve_web.specs.Laws.{ForeignFormsDoNothing, OtherHostsAreRefused, WithoutOriginNothingIsApplied};
ghost use Rattle.serve_web.specs.PagePaths.{AsksByItsPath, PathsAreSpelled, PathsLead};

use sqlite::Alter;

/// A form that another site may have sent does nothing: whatever it asks for, the rooms stay as
/// they were.
pub fn foreign_forms_do_nothing<S: Alter>()
    ensures { ForeignFormsDoNothing S.Store }
{}

/// A form does nothing either of which no field (Origin or Sec-Fetch-Site) tells which site sent
/// it.
pub fn without_origin_nothing_is_applied<S: Alter>()
    ensures { WithoutOriginNothingIsApplied S.Store }
{}

/// A request of a Host that is not answered is refused, whatever it asks for: nothing of the rooms is
/// shown, and they stay as they were.
pub fn other_hosts_are_refused<S: Alter>()
    ensures { OtherHostsAreRefused S.Store }
{}

/// A path of a browser leads where its bytes say, and whatever is spelled so leads there. A request
/// that is not refused asks for the page, the file or the act of that path, so of its account alone.
pub fn pages_are_by_path()
    ensures spelled { PathsAreSpelled }
    ensures lead { PathsLead }
    ensures asked { AsksByItsPath }
{}
