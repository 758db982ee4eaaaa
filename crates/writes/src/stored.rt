// The items of an atomic group that finishes: those that waited, and then the batch's own.
ghost use Rattle.std.specs.Prelude.{true, List, ◌≡◌, ℕ, ◌≤◌, ◌<◌, length};
ghost use Rattle.std.specs.Prelude.{Some};
ghost use Rattle.maps.specs.Lists.{every};
ghost use Rattle.rules.specs.Items.{placed_from, replay_rewrite};
ghost use Rattle.rules.specs.Context.{limited, run};
ghost use Rattle.rules_by_group.specs.Kept.{is_passed};
ghost use Rattle.log_batch.specs.Batch.{items_in};
ghost use Rattle.groups.specs.Undo.{Undoable};
ghost use Rattle.room.specs.Items.{ItemCopied};
ghost use Rattle.contexts.specs.Contexts.{waiting_numbers, waiting_bytes, context_of, Formed};
ghost use Rattle.batches.specs.Runs.{Keeping};
ghost use Rattle.writes.specs.Finishes.{waiting_count, stored_from, run_stored, TurnedFrom, Ran, HasAny, TagIs};

use batches::{carry_out, turn};
use contexts::{WAITING_BYTES_FROM, WAITING_FROM};
use log_batch::item::LogItem;
use log_batch::open::row_count;
use log_batch::{Call, RewriteReplay};
use pipe_log::{Cause, ENTRY_WIDTH, Refusal};
use room::MAX_ENTRIES;
use stores::row::ITEM_BYTES;

// The numbers of the most entries that wait.
const ROW_NUMBERS: usize = MAX_ENTRIES * ENTRY_WIDTH;

// The tag of item j of the waiting parts.
fn stored_tag(xs: &[u64], j: usize) -> u64
    requires { (length xs.now ≡ 17231) × (j < 128) }
    ensures { (bs : List ℕ) → j < waiting_count xs.now → TagIs result j xs.now bs }
{
    let a = WAITING_FROM;
    let e = a + room::NUMBERS;
    room::tag_at(&xs[a..e], j)
}

// Copies item j of the waiting parts to the front of lent slices.
fn copy_stored(xs: &[u64], bs: &[u8], j: usize, rows: &mut [u64], text: &mut [u8]) -> LogItem
    requires xs_len { (length xs.now ≡ 17231) × (length bs.now ≡ 38912) }
    requires formed { Formed xs.now bs.now }
    requires j_bound { j < waiting_count xs.now }
    requires rows_len { (length rows.old ≡ 1024) × (length text.old ≡ 64) }
    ensures { ItemCopied (waiting_numbers xs.now) (waiting_bytes bs.now) j result rows.new text.new }
{
    let a = WAITING_FROM;
    let e = a + room::NUMBERS;
    let c = WAITING_BYTES_FROM;
    let d = c + room::BYTES;
    room::copy_item(&xs[a..e], &bs[c..d], j, rows, text)
}

// Carries out item j of the waiting parts, if it has the tag; it is copied to lent slices first.
fn stored_turn(
    xs: &mut [u64],
    bs: &mut [u8],
    tag: u64,
    j: usize,
    rows: &mut [u64],
    text: &mut [u8],
) -> Result<(), Cause>
    requires formed { Formed xs.old bs.old }
    requires undoable { Undoable xs.old bs.old }
    requires j_bound { j < waiting_count xs.old }
    requires bs_value { every is_passed (stored_from tag j xs.old bs.old) ≡ true }
    requires keeping { Keeping replay_rewrite (context_of xs.old bs.old) }
    requires rows_len { (length rows.old ≡ 1024) × (length text.old ≡ 64) }
    ensures { TurnedFrom tag j xs.old bs.old result xs.new bs.new }
{
    if stored_tag(xs, j) != tag {
        return Ok(());
    }
    let item = copy_stored(xs, bs, j, rows, text);
    carry_out(xs, bs, Call::ReplayRewrite, item, rows, text, false)
}

// How many items wait.
fn stored_count(xs: &[u64]) -> usize
    requires { length xs.now ≡ 17231 }
    ensures { result ≡ waiting_count xs.now }
{
    xs[WAITING_FROM] as usize
}

// Carries out the items that wait with a tag, in order; a refusal has the mark's place.
fn run_stored_in(
    xs: &mut [u64],
    bs: &mut [u8],
    tag: u64,
    at: usize,
    rows: &mut [u64],
    text: &mut [u8],
) -> Result<(), Refusal>
    requires formed { Formed xs.old bs.old }
    requires undoable { Undoable xs.old bs.old }
    requires bs_value { every is_passed (stored_from tag 0 xs.old bs.old) ≡ true }
    requires keeping { Keeping replay_rewrite (context_of xs.old bs.old) }
    requires rows_len { (length rows.old ≡ 1024) × (length text.old ≡ 64) }
    ensures { Ran (run_stored tag 0 xs.old bs.old (Some at)) xs.old bs.old result xs.new bs.new }
{
    let n = stored_count(xs);
    for j in 0..n {
        if let Err(cause) = stored_turn(xs, bs, tag, j, rows, text) {
            return Err(Refusal {
                cause,
                place: Some(at),
            });
        }
    }
    Ok(())
}

// The same, with the slices that an item is copied to: rows for the most entries that wait, and one item's bytes.
pub fn run_stored(xs: &mut [u64], bs: &mut [u8], tag: u64, at: usize) -> Result<(), Refusal>
    requires formed { Formed xs.old bs.old }
    requires undoable { Undoable xs.old bs.old }
    requires bs_value { every is_passed (stored_from tag 0 xs.old bs.old) ≡ true }
    requires keeping { Keeping replay_rewrite (context_of xs.old bs.old) }
    ensures { Ran (run_stored tag 0 xs.old bs.old (Some at)) xs.old bs.old result xs.new bs.new }
{
    let mut rows = [0u64; ROW_NUMBERS];
    let mut text = [0u8; ITEM_BYTES];
    run_stored_in(xs, bs, tag, at, &mut rows, &mut text)
}

// Whether an item waits with a tag.
pub fn holds_any(xs: &[u64], tag: u64) -> bool
    requires { (length xs.now ≡ 17231) × (waiting_count xs.now ≤ 128) }
    ensures { (bs : List ℕ) → Formed xs.now bs → HasAny result (stored_from tag 0 xs.now bs) }
{
    let n = stored_count(xs);
    for j in 0..n {
        if stored_tag(xs, j) == tag {
            return true;
        }
    }
    false
}

// Carries out the batch's own items, in order, where more may follow.
pub fn run_own(xs: &mut [u64], bs: &mut [u8], replay: &RewriteReplay) -> Result<(), Refusal>
    requires formed { Formed xs.old bs.old }
    requires undoable { Undoable xs.old bs.old }
    requires keeping { Keeping replay_rewrite (context_of xs.old bs.old) }
    ensures { Ran (run limited replay_rewrite (placed_from 0 (items_in replay.now.batch))) xs.old bs.old result xs.new bs.new }
{
    let n = row_count(replay.batch.items);
    for i in 0..n {
        if let Err(cause) = turn(xs, bs, Call::ReplayRewrite, &replay.batch, i, false) {
            return Err(Refusal {
                cause,
                place: Some(i),
            });
        }
    }
    Ok(())
}
