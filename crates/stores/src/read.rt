// Reading an item of a store.
ghost use Rattle.std.specs.Prelude.{◌<◌};
ghost use Rattle.stores.specs.Stores.{area_in, Stored, ItemAt};

use crate::LentStore;
use log_batch::item::LogItem;
use log_batch::open::open_item;

// Opens item `j`. Every row of a store opens.
pub fn item_at(store: &LentStore, j: usize) -> LogItem
    requires stored { Stored store.now.counts (area_in store.now.parts) }
    requires j_bound { j < store.now.counts.items }
    ensures { ItemAt store.now.counts (area_in store.now.parts) j result }
{
    let Ok(item) = open_item(&store.parts, j) else {
        unreachable!()
    };
    item
}
