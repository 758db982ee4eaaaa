// Items kept in the layout of a lent batch, with their entries and bytes: tombstones and waiting parts. What writes a store is passed its
// three slices: a struct that holds `&mut`s is no plainer (`kvs::Keys` says why).
#![tactic(auto)]

use log_batch::LogBatch;

pub mod add;
pub mod append;
pub mod copy;
pub mod count;
pub mod parts;
pub mod read;
pub mod row;
pub mod shift;

// A store's counts: its items, and the rows of entries that they have. There is no heap and C lends the area, so they stand beside slices
// of fixed lengths.
#[derive(Clone, Copy)]
pub struct Store {
    pub items: usize,
    pub entries: usize,
}

// A store lent to be read: its counts, and the parts that hold its items. What is known of a store (`Stored`) tells the items of its
// rows, and a ghost field holds a mere proposition, so that each contract names it.
#[derive(Clone, Copy)]
pub struct LentStore<'a> {
    pub counts: Store,
    pub parts: LogBatch<'a>,
}

// A store whose items have tags.
#[derive(Clone, Copy)]
pub struct TaggedStore<'a> {
    pub store: LentStore<'a>,
    pub tags: &'a [u64],
}
