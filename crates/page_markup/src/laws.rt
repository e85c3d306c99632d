//! Laws of the text that a page shows: none of it becomes markup, and a browser reads it back.

ghost use Rattle.page_markup.specs.Laws.{IsReadBack, NeverMarksUp};

/// No byte of a text that is shown begins or ends markup, or the value of an attribute.
pub fn never_marks_up()
    ensures { NeverMarksUp }
{}

/// A reader of HTML reads the text again, with U+FFFD for what is no UTF-8 and for controls.
pub fn is_read_back()
    ensures { IsReadBack }
{}
