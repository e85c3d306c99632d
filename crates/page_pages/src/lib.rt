//! The pages that an owner and a print room look at: each one's bytes, as definitions over what the
//! reads of the store give, and the functions that write them. A page is a list of parts
//! (`page_markup`).
#![tactic(auto)]

mod accounts;
mod balance;
mod begun;
mod chart;
mod desk_account;
mod desk_devices;
mod desk_form;
mod desk_grants;
mod desk_room;
mod desk_script;
mod desk_told;
mod devices;
mod ended;
mod form;
mod frame;
mod laws;
mod longest;
mod markup;
mod movement;
mod offer;
mod outcome;
mod owner;
mod phase;
mod reason;
mod refusal;
mod room;
mod script;
mod statement;
mod statement_rows;
mod statement_sums;
mod style;
mod texts;
mod waiting;

pub use accounts::AccountLine;
pub use begun::BegunLine;
pub use chart::DayLine;
pub use desk_account::{DeskAccount, put_desk_account};
pub use desk_devices::put_devices_page;
pub use desk_room::put_desk_page;
pub use desk_script::DESK_SCRIPT;
pub use desk_told::{Came, Deed, LineTold, Onward, put_told_page};
pub use laws::{
    buttons_release, holds_go_through, names_are_no_tags, passwords_are_kept, prices_are_reserved,
};
pub use longest::LongestLine;
pub use offer::Terms;
pub use outcome::{Act, Outcome};
pub use owner::{Owner, put_owner_page};
pub use phase::{Phase, phase_of};
pub use refusal::{Refusal, put_refusal_page};
pub use room::{Room, put_room_page};
pub use script::PAGE_SCRIPT;
pub use statement::{Form, Statement, put_statement};
pub use style::{PAGE_POLICY, STYLE_SHEET};
