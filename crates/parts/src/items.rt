// The items of a context's room, lent to be read.
ghost use Rattle.std.specs.Prelude.{◌≡◌, ◌≤◌};
ghost use Rattle.stores.specs.Tags.{tagged_in, StoredTagged};
ghost use Rattle.room.specs.Layout.{tagged, RoomWf};

use log_batch::LogBatch;
use room::{CELLS, HEADS_AT};
use stores::{LentStore, Store, TaggedStore};

// The items of a room with their tags.
pub fn items_in<'a>(ws: &'a [u64], vs: &'a [u8]) -> TaggedStore<'a>
    requires { RoomWf 16 ws.now vs.now }
    ensures stored { StoredTagged result }
    ensures value { tagged_in result ≡ tagged ws.now vs.now }
    ensures upper_bound { result.store.counts.items ≤ 128 }
{
    let t = HEADS_AT + CELLS * room::TAGS_FROM;
    let a = HEADS_AT + CELLS * room::ITEMS_FROM;
    let e = HEADS_AT + CELLS * room::ENTRIES_FROM;
    let counts = Store {
        items: ws[0] as usize,
        entries: ws[1] as usize,
    };
    let parts = LogBatch {
        items: &ws[a..e],
        entries: &ws[e..],
        bytes: vs,
    };
    TaggedStore {
        store: LentStore { counts, parts },
        tags: &ws[t..a],
    }
}
