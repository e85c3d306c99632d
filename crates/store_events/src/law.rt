//! A law of this crate: a fact about its definitions that the check proves. Nothing calls it.

ghost use Rattle.store_events.specs.Reading.{SoundRowsAreReadable};

/// Every event finds sound rows readable: it never tells `Damaged` of them.
pub fn sound_rows_are_readable()
    ensures { SoundRowsAreReadable }
{}
