// The record that a row of eight numbers stands for.
ghost use Rattle.std.specs.Prelude.{◌≡◌, ◌+◌, ◌*◌, ◌≤◌, length, drop};
ghost use Rattle.pipe_log.specs.Rows.{compression_at, entry_of, with_index};
ghost use Rattle.memtable.specs.Views.{AnyRow};

use pipe_log::{CompressionType, ENTRY_WIDTH, EntryIndex, FileBlockHandle, FileId, LogQueue};

#[tactic(auto, unfolding(pipe_log::specs::Rows::compression_at))]
fn compression_at(n: u64) -> CompressionType
    ensures { result ≡ compression_at n }
{
    if n == 0 {
        return CompressionType::None;
    }
    CompressionType::Lz4
}

// The record of row `i`, at an index of its own.
pub fn entry_at(part: &[u64], i: usize, index: u64) -> EntryIndex
    requires i_in_bounds { i * 8 + 8 ≤ length part.now }
    requires any_row { AnyRow part.now i }
    ensures { result ≡ with_index index (entry_of (drop (i * 8) part.now)) }
{
    let at = i * ENTRY_WIDTH;
    let queue = LogQueue::from(part[at + 1]);
    let id = FileId {
        queue,
        seq: part[at + 2],
    };
    let block = FileBlockHandle {
        id,
        offset: part[at + 3],
        len: part[at + 4] as usize,
    };
    let compression_type = compression_at(part[at + 5]);
    EntryIndex {
        index,
        entries: Some(block),
        compression_type,
        entry_offset: part[at + 6] as u32,
        entry_len: part[at + 7] as u32,
    }
}
