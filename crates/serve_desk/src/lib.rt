//! The desk: pages on which operators run the room, at a door of their own. Who asks, the proxy says in
//! the field X-Operator. Each form asks one line of an operator, and is answered by what that came to. A
//! form that another site may have sent does nothing.
#![tactic(auto)]

mod act;
mod answer;
mod asked;
mod desk;
mod laws;
mod line;
mod operator;
mod place;
mod turn;

pub use laws::{foreign_forms_do_nothing_at_desk, forms_ask_lines, nobody_acts_without_name};
pub use turn::drive_desk;
