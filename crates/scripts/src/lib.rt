// The queries that the rows of a script name, made on a context and compared with the stored answers; and what every call of a script has:
// its row, its arguments and its answer as three numbers.
#![tactic(auto)]

mod asked;
mod asks;
mod compare;
mod fetches;
mod keys;
mod row;
mod told;

pub use asked::ask;
pub use asks::option_of;
pub use compare::{LISTED, is_listed, is_told};
pub use row::{HEAD, Row, row_of};
pub use told::{told_answer, told_count};
