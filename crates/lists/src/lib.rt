// The kind and the lists of a context: tombstones and cleaned numbers. They stand behind the groups of an area.
#![tactic(auto)]

mod cleaned;

ghost use Rattle.std.specs.Prelude.{List, [], ◌≡◌, ℕ, ◌+◌, ◌≤◌, ◌<◌, length, get_or};
ghost use Rattle.rules.specs.Context.{fresh, is_context, is_index, with_cleaned};
ghost use Rattle.rules.specs.Calls.{index_of};
ghost use Rattle.log_batch.specs.Lent.{item_of};
ghost use Rattle.stores.specs.Stores.{ItemAt};
ghost use Rattle.stores.specs.Written.{Lent, count_of};
ghost use Rattle.lists.specs.Rest.{kind_of, tombstone_store, tombstone_area, tombstones_in, cleaned_in, rest_of, Wf, cut_to};
ghost use Rattle.lists.specs.Calls.{kind_as, Becomes, TombstonesAdded, TombstoneAdded, AllCleanedAdded, CleanedAdded};

pub use cleaned::copy_cleaned;
use log_batch::LogBatch;
use log_batch::item::LogItem;
use log_batch::open::ITEM_WIDTH;
use pipe_log::{APPEND, LogQueue, REWRITE};
use stores::row::ITEM_BYTES;
use stores::{LentStore, Store};

// The lengths that an area has behind its groups.
pub const NUMBERS: usize = 7855;

pub const BYTES: usize = 22528;

// The limits of the lists. There is no heap and C lends the area, so the number in use of each stands beside a fixed number of places.
pub const MAX_TOMBSTONES: usize = 64;

pub const MAX_CLEANED: usize = 64;

// Where the numbers stand: the kind, the two counts, the cleaned numbers, and the tombstones' rows.
const KIND_AT: usize = 0;

pub const TOMBSTONES_AT: usize = 1;

const CLEANED_AT: usize = 2;

const CLEANED_FROM: usize = 3;

pub const ROWS_FROM: usize = CLEANED_FROM + MAX_CLEANED;

pub const ROWS_TO: usize = ROWS_FROM + MAX_TOMBSTONES * ITEM_WIDTH;

pub const ROW_BYTES: usize = MAX_TOMBSTONES * ITEM_BYTES;

// The number of the index's kind; a context has that of its queue.
const INDEX: u64 = 2;

// What an area stands for.
#[derive(Clone, Copy)]
pub enum Kind {
    Context(LogQueue),
    Index,
}

impl Kind {
    // Whether it is a context of a queue.
    #[tactic(auto, unfolding(rules::specs::Context::is_context, crate::specs::Calls::kind_as, rules::specs::Items::same_queue))]
    pub fn is_context(self, queue: LogQueue) -> bool
        ensures { result ≡ is_context queue (kind_as self) }
    {
        match self {
            Kind::Context(own) => queue == own,
            Kind::Index => false,
        }
    }

    #[tactic(auto, unfolding(rules::specs::Context::is_index, crate::specs::Calls::kind_as))]
    pub fn is_index(self) -> bool
        ensures { result ≡ is_index (kind_as self) }
    {
        matches!(self, Kind::Index)
    }
}

// The numbers of elements that the lists have.
#[derive(Clone, Copy)]
pub struct Counts {
    pub tombstones: usize,
    pub cleaned: usize,
}

// What the area stands for.
#[tactic(auto, unfolding(crate::specs::Calls::kind_as, crate::specs::Rest::kind_of))]
pub fn kind_in(ys: &[u64]) -> Kind
    requires { 0 < length ys.now }
    ensures { kind_as result ≡ kind_of (get_or ys.now 0 0) }
{
    match ys[KIND_AT] {
        APPEND => Kind::Context(LogQueue::Append),
        REWRITE => Kind::Context(LogQueue::Rewrite),
        _ => Kind::Index,
    }
}

// Opens tombstone `j`, whose key stands in the lists' own bytes.
#[tactic(auto, using(crate::proofs::CallLaws::bytes_lent), unfolding(crate::specs::Rest::tombstone_store, cells::specs::Part::part, crate::specs::Rest::tombstone_area))]
pub fn tombstone_at(ys: &[u64], cs: &[u8], j: usize) -> LogItem
    requires wf { Wf ys.now cs.now }
    requires j_bound { j < get_or ys.now 1 0 }
    ensures { ItemAt (tombstone_store ys.now) (tombstone_area ys.now cs.now) j result }
{
    let counts = Store {
        items: ys[TOMBSTONES_AT] as usize,
        entries: 0,
    };
    let none = [0u64; 0];
    let from = ROWS_FROM;
    let to = ROWS_TO;
    let end = ROW_BYTES;
    let parts = LogBatch {
        items: &ys[from..to],
        entries: &none,
        bytes: &cs[..end],
    };
    stores::read::item_at(&LentStore { counts, parts }, j)
}

// The cleaned number `j`.
pub fn cleaned_at(ys: &[u64], j: usize) -> u64
    requires ys_len { length ys.now ≡ 7855 }
    requires j_bound { (j < get_or ys.now 2 0) × (get_or ys.now 2 0 ≤ 64) }
    ensures { result ≡ get_or (cleaned_in ys.now) j 0 }
{
    ys[CLEANED_FROM + j]
}

// Makes the lists those of a fresh context.
pub fn clear(ys: &mut [u64], queue: LogQueue)
    requires { length ys.old ≡ 7855 }
    ensures { (cs : List ℕ) → length cs ≡ 22528 → Becomes (fresh queue) ys.old cs ys.new }
{
    ys[KIND_AT] = u64::from(queue);
    ys[TOMBSTONES_AT] = 0;
    ys[CLEANED_AT] = 0;
}

// The numbers of elements that the lists have.
pub fn counts_in(ys: &[u64]) -> Counts
    requires { length ys.now ≡ 7855 }
    ensures { (result.tombstones ≡ get_or ys.now 1 0) × (result.cleaned ≡ get_or ys.now 2 0) }
{
    Counts {
        tombstones: ys[TOMBSTONES_AT] as usize,
        cleaned: ys[CLEANED_AT] as usize,
    }
}

// Cuts the lists back to numbers of elements that they had.
#[tactic(auto, using(crate::proofs::CallLaws::cut_is))]
pub fn cut(ys: &mut [u64], counts: Counts)
    requires { length ys.old ≡ 7855 }
    ensures { ys.new ≡ cut_to counts.tombstones counts.cleaned ys.old }
{
    ys[TOMBSTONES_AT] = counts.tombstones as u64;
    ys[CLEANED_AT] = counts.cleaned as u64;
}

// Adds a tombstone, for which there is room.
#[tactic(auto, using(crate::proofs::CallLaws::bytes_lent, crate::proofs::CallLaws::tombstone_room), unfolding(crate::specs::Rest::tombstone_store, cells::specs::Part::part, crate::specs::Rest::tombstone_area))]
pub fn add_tombstone(ys: &mut [u64], cs: &mut [u8], item: LogItem, entries: &[u64], bytes: &[u8])
    requires wf { Wf ys.old cs.old }
    requires ys_bound { get_or ys.old 1 0 < 64 }
    requires lent { Lent item (length entries.now) (length bytes.now) }
    requires content_value { count_of item.content ≡ 0 }
    ensures { TombstoneAdded (item_of item entries.now bytes.now) ys.old cs.old ys.new cs.new }
{
    let n = ys[TOMBSTONES_AT] as usize;
    let store = Store {
        items: n,
        entries: 0,
    };
    let mut none = [0u64; 0];
    let from = ROWS_FROM;
    let to = ROWS_TO;
    let end = ROW_BYTES;
    stores::add::add(
        store,
        &mut ys[from..to],
        &mut none,
        &mut cs[..end],
        item,
        entries,
        bytes,
    );
    ys[TOMBSTONES_AT] = n as u64 + 1;
}

// Adds a cleaned number, for which there is room.
pub fn add_cleaned(ys: &mut [u64], group: u64)
    requires ys_len { length ys.old ≡ 7855 }
    requires ys_bound { get_or ys.old 2 0 < 64 }
    ensures { (cs : List ℕ) → Wf ys.old cs → CleanedAdded group ys.old cs ys.new }
{
    let n = ys[CLEANED_AT] as usize;
    ys[CLEANED_FROM + n] = group;
    ys[CLEANED_AT] = n as u64 + 1;
}

// Adds the tombstones of other lists, for which there is room.
#[tactic(auto, using(crate::proofs::CallLaws::bytes_lent, crate::proofs::CallLaws::tombstones_room), unfolding(crate::specs::Rest::tombstone_store, cells::specs::Part::part, crate::specs::Rest::tombstone_area))]
pub fn add_tombstones(ys: &mut [u64], cs: &mut [u8], its_ys: &[u64], its_cs: &[u8])
    requires wf { Wf ys.old cs.old }
    requires wf_2 { Wf its_ys.now its_cs.now }
    requires its_ys_bound { get_or ys.old 1 0 + get_or its_ys.now 1 0 ≤ 64 }
    ensures { TombstonesAdded (tombstones_in its_ys.now its_cs.now) ys.old cs.old ys.new cs.new }
{
    let own = ys[TOMBSTONES_AT] as usize;
    let its = its_ys[TOMBSTONES_AT] as usize;
    let store = Store {
        items: own,
        entries: 0,
    };
    let counts = Store {
        items: its,
        entries: 0,
    };
    let mut none = [0u64; 0];
    let its_none = [0u64; 0];
    let from = ROWS_FROM;
    let to = ROWS_TO;
    let end = ROW_BYTES;
    let parts = LogBatch {
        items: &its_ys[from..to],
        entries: &its_none,
        bytes: &its_cs[..end],
    };
    stores::append::add_all(
        store,
        &mut ys[from..to],
        &mut none,
        &mut cs[..end],
        &LentStore { counts, parts },
    );
    ys[TOMBSTONES_AT] = own as u64 + its as u64;
}

// Adds the cleaned numbers of other lists, for which there is room.
pub fn add_all_cleaned(ys: &mut [u64], its_ys: &[u64])
    requires ys_len { (length ys.old ≡ 7855) × (length its_ys.now ≡ 7855) }
    requires its_ys_bound { get_or ys.old 2 0 + get_or its_ys.now 2 0 ≤ 64 }
    ensures { (cs : List ℕ) → Wf ys.old cs → AllCleanedAdded (cleaned_in its_ys.now) ys.old cs ys.new }
{
    let own = ys[CLEANED_AT] as usize;
    let its = its_ys[CLEANED_AT] as usize;
    let from = CLEANED_FROM;
    let to = CLEANED_FROM + its;
    cells::copy_in(ys, CLEANED_FROM + own, &its_ys[from..to]);
    ys[CLEANED_AT] = own as u64 + its as u64;
}

// Makes the lists those of the index: its kind, and no tombstones.
pub fn become_index(ys: &mut [u64])
    requires { length ys.old ≡ 7855 }
    ensures { (cs : List ℕ) → Wf ys.old cs → Becomes (index_of [] (rest_of ys.old cs)) ys.old cs ys.new }
{
    ys[KIND_AT] = INDEX;
    ys[TOMBSTONES_AT] = 0;
}

// Empties the cleaned numbers.
pub fn drop_cleaned(ys: &mut [u64])
    requires { length ys.old ≡ 7855 }
    ensures { (cs : List ℕ) → Wf ys.old cs → Becomes (with_cleaned [] (rest_of ys.old cs)) ys.old cs ys.new }
{
    ys[CLEANED_AT] = 0;
}
