//! The example of README.md: a print room in memory, a grant, and the question for a quota.

use crate::fault::Fault;
use account_machine::{Event, Name, Reply};
use account_questions::{About, Question};
use room_store::Store;
use sqlite::Connection;
use std::alloc::Global;

/// Makes a print room in memory, and grants alice 500 pages. Answers her quota.
pub fn quota_of_alice(alloc: Global) -> Result<Reply, Fault> {
    let connection = Connection::open_in_memory(alloc)?;
    let mut store = Store::create(connection).map_err(|refused| refused.fault)?;
    let account = Name::read(b"alice").ok_or(Fault::Name)?;
    // In September 2026.
    let (now, month) = (1_788_220_800, 24_320);
    store.apply(alloc, now, &Event::Open { account })?;
    let grant = Event::Grant {
        account,
        month,
        pages: 500,
    };
    store.apply(alloc, now, &grant)?;
    let about = About::Left { month };
    let quota = store.answer(alloc, Question::Account { account, about })?;
    store.close();
    Ok(quota)
}
