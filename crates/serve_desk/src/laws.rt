//! Laws: a form that another site may have sent does nothing, nobody acts without a name, and a form
//! asks the line that it spells.
ghost use Rattle.serve_desk.specs.Laws.{AreAskedAsLines, ForeignFormsDoNothing, FormsAskTheirLines, NobodyActsWithoutName};

use sqlite::Alter;

/// A form that another site may have sent does nothing: whatever it asks for, the rooms stay as they
/// were.
pub fn foreign_forms_do_nothing_at_desk<S: Alter>()
    ensures { ForeignFormsDoNothing S.Store }
{}

/// A request that does not name its operator once is refused: nothing of the rooms is shown, and they
/// stay as they were.
pub fn nobody_acts_without_name<S: Alter>()
    ensures { NobodyActsWithoutName S.Store }
{}

/// A form that is taken asks the line that it spells, for the operator whom the request names, or
/// nothing; and that does what the line does for an operator who sends it, at the same moment.
pub fn forms_ask_lines<S: Alter>()
    ensures asks { FormsAskTheirLines S.Store }
    ensures as_lines { AreAskedAsLines }
{}
