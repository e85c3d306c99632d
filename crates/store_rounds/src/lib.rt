//! `Rounds`: the connection to the database, as all crates above use it. It wraps the connection of
//! the SQLite library, lets many events share one commit (a round), and keeps sums and counts in
//! memory, so that they are not read again. Its functions have the names of those of
//! `rows_statements` that they call. What reads and is not here is called with `Rounds` itself, as
//! `Reads` of `rows_statements`.
#![tactic(auto)]

mod cache;
mod fault;
mod kept;
mod knocking;
mod lookup;
mod rounds;

pub use fault::StoreFault;
pub use kept::Sums;
pub use rounds::Rounds;
pub use rounds::changes::{
    add_grant, end_job, make_job, open_account, rate_device, restand_job, switch_device,
};
pub use rounds::reads::{count_unfinished, find_account, knock, look_up, ready, sum_up};
