// One item of a batch on an area: its deed on the groups, and what it adds to the lists.
ghost use Rattle.std.specs.Prelude.{◌≡◌, length};
ghost use Rattle.log_batch.specs.Lent.{item_of};
ghost use Rattle.log_batch.specs.Judged.{call_of};
ghost use Rattle.groups.specs.Area as groups·area;
ghost use Rattle.groups.specs.Undo.{Undoable};
ghost use Rattle.batches.specs.Acts.{Acted, deed_on};
ghost use Rattle.deeds.specs.Deeds.{deed_of, rows_in, key_in, value_in};
ghost use Rattle.contexts.specs.Contexts.{context_of, Formed};
ghost use Rattle.batches.specs.Runs.{ItemReady, Keeping, Stepped};

use crate::acts::act;
use crate::growth::{adds_cleaned, adds_tombstone, grow, have_room};
use deeds::{deed_of, key_in, rows_in, value_in};
use log_batch::Call;
use log_batch::item::LogItem;
use pipe_log::Cause;

// Carries out what an item does to its group.
fn act_item(
    xs: &mut [u64],
    bs: &mut [u8],
    call: Call,
    item: LogItem,
    entries: &[u64],
    bytes: &[u8],
    last: bool,
) -> Result<(), Cause>
    requires wf { groups·area.Wf xs.old bs.old }
    requires undoable { Undoable xs.old bs.old }
    requires item_ready { ItemReady (call_of call) item entries.now bytes.now }
    requires keeping { Keeping (call_of call) (context_of xs.old bs.old) }
    ensures { Acted (deed_on (deed_of call item.content entries.now bytes.now) item.raft_group_id (rows_in item.content entries.now) (key_in item.content bytes.now) (value_in item.content bytes.now)) last xs.old bs.old result xs.new bs.new }
{
    let group = item.raft_group_id;
    let content = item.content;
    let deed = deed_of(call, content, entries, bytes);
    let rows = rows_in(content, entries);
    let key = key_in(content, bytes);
    let value = value_in(content, bytes);
    act(xs, bs, group, deed, rows, key, value, last)
}

// Carries out an item. `last`: no item follows.
pub fn carry_out(
    xs: &mut [u64],
    bs: &mut [u8],
    call: Call,
    item: LogItem,
    entries: &[u64],
    bytes: &[u8],
    last: bool,
) -> Result<(), Cause>
    requires formed { Formed xs.old bs.old }
    requires undoable { Undoable xs.old bs.old }
    requires item_ready { ItemReady (call_of call) item entries.now bytes.now }
    requires keeping { Keeping (call_of call) (context_of xs.old bs.old) }
    ensures { Stepped (call_of call) (item_of item entries.now bytes.now) last xs.old bs.old result xs.new bs.new }
{
    let tombstone = adds_tombstone(call, item);
    let cleaned = adds_cleaned(call, item);
    let a = groups::NUMBERS;
    if !have_room(&xs[a..], tombstone, cleaned) {
        return Err(Cause::LimitPassed);
    }
    act_item(xs, bs, call, item, entries, bytes, last)?;
    grow(xs, bs, tombstone, cleaned, item, entries, bytes);
    Ok(())
}
