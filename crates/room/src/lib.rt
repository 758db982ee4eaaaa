// The room in which the parts of Rewrite replay wait: cells of part heads, and one store of their items. A room has any number of
// cells; it stands in one slice of numbers and one of bytes. What writes it is passed both: a struct that holds `&mut`s is no plainer
// (`kvs::Keys` says why).
#![tactic(auto)]

mod batches;
mod copies;
mod heads;
mod items;
mod places;
mod rooms;

pub use batches::count_batch;
pub use copies::{copy_item, item_in, tag_at};
pub use heads::{counts_in, settle, take_part, write_part};
pub use items::{add, take_out};
use log_batch::item::LogItem;
use log_batch::open::ITEM_WIDTH;
use pipe_log::ENTRY_WIDTH;
pub use rooms::clear;
use stores::row::ITEM_BYTES;

// 01's limits of what waits: groups, items and entries.
pub const MAX_GROUPS: usize = 8;

pub const MAX_ITEMS: usize = 64;

pub const MAX_ENTRIES: usize = 128;

// How many cells the room of a context has: 01's 8 groups twice, since a merge may have the parts of both contexts on the way.
pub const CELLS: usize = 2 * MAX_GROUPS;

// The numbers of a cell: how many parts it has, the group, and tag, status, start and end of the newest part and of the one before it.
pub const HEAD_WIDTH: usize = 10;

// Where a cell has its newest part, and the one before it.
pub const NEWEST_AT: usize = 2;

pub const OLDER_AT: usize = 6;

// Where the parts of a room of n cells stand: each at a place and so many numbers a cell. The counts stand before the cells: there is no
// heap and C lends the area, so a room has fixed rows and counts those in use.
pub const HEADS_AT: usize = 2;

pub const TAGS_FROM: usize = HEAD_WIDTH;

pub const TAGS: usize = MAX_ITEMS / MAX_GROUPS;

pub const ITEMS_FROM: usize = TAGS_FROM + TAGS;

pub const ITEMS: usize = TAGS * ITEM_WIDTH;

pub const ENTRIES_FROM: usize = ITEMS_FROM + ITEMS;

pub const ENTRIES: usize = MAX_ENTRIES / MAX_GROUPS * ENTRY_WIDTH;

// The numbers and the bytes of the room of a context.
pub const NUMBERS: usize = HEADS_AT + CELLS * (ENTRIES_FROM + ENTRIES);

pub const BYTES: usize = CELLS * TAGS * ITEM_BYTES;
