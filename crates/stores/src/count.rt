// Counting the items of one tag, and their entries.
#![tactic(auto, unfolding(crate::specs::Stores::row_entries, crate::specs::Tags::count_one, crate::specs::Tags::count_tag))]

ghost use Rattle.std.specs.Prelude.{◌≡◌, ◌+◌, ◌*◌, ◌≤◌, ◌<◌, ◌^◌, length, drop};
ghost use Rattle.stores.specs.Stores.{row_entries, entries_before};
ghost use Rattle.stores.specs.Tags.{count_one, count_tag};

use crate::Store;
use log_batch::open::{ITEM_WIDTH, LIST};

// How many entries row `j` has.
fn row_entries(items: &[u64], j: usize) -> usize
    requires { j * 9 + 9 ≤ length items.now }
    ensures { result ≡ row_entries (drop (j * 9) items.now) }
{
    let at = j * ITEM_WIDTH;
    if items[at + 1] == LIST {
        items[at + 3] as usize
    } else {
        0
    }
}

// Counts row `j` if it has the tag.
fn count_row(count: Store, items: &[u64], tags: &[u64], j: usize, tag: u64) -> Store
    requires j_in_bounds { (j * 9 + 9 ≤ length items.now) × (j < length tags.now) }
    requires count_le_j { (count.items ≤ j) × (count.entries + row_entries (drop (j * 9) items.now) < 2 ^ 64) }
    ensures { result ≡ count_one tag j items.now tags.now count }
{
    if tags[j] != tag {
        return count;
    }
    Store {
        items: count.items + 1,
        entries: count.entries + row_entries(items, j),
    }
}

// The counts of a store's items that have a tag.
pub fn count_tag(store: Store, items: &[u64], tags: &[u64], tag: u64) -> Store
    requires store_in_bounds { (store.items * 9 ≤ length items.now) × (store.items ≤ length tags.now) }
    requires value { entries_before store.items items.now ≡ store.entries }
    ensures { result ≡ count_tag tag store.items items.now tags.now }
{
    let mut count = Store {
        items: 0,
        entries: 0,
    };
    for j in 0..store.items {
        count = count_row(count, items, tags, j, tag);
    }
    count
}
