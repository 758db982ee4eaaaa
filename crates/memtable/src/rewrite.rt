// Rewrites: rows of the Rewrite queue take the place of entries.
ghost use Rattle.std.specs.Prelude.{◌+◌, ◌-◌, ◌*◌, ◌/◌, ◌≤◌, ◌<◌, max, ◌≡◌, length};
ghost use Rattle.std.specs.Prelude.{None, Some};
ghost use Rattle.cells.specs.Part as stretch;
ghost use Rattle.cells.specs.Part.{put};
ghost use Rattle.memtable.specs.Views.{Wf};
ghost use Rattle.memtable.specs.Appends.{Lent};
ghost use Rattle.memtable.specs.Rewrites.{Rewriting, Overlap, Passed, counting, Replaced};

use crate::Head;
use pipe_log::{Cause, ENTRY_WIDTH};

// Copies a row of `rows`, which stands from place `from` on, to the places of `part` from `at` on. All of it is read before it is
// written, so that it is moved in the machine's widest pieces. By `copy_from_slice`, which looks whether the two overlap, a gated
// rewrite of 32 entries takes 6 ns longer, which is above 0.65 of the Rust's time.
fn copy_row(part: &mut [u64], at: usize, rows: &[u64], from: usize)
    requires { (at + 8 ≤ length part.old) × (from + 8 ≤ length rows.now) }
    ensures { part.new ≡ put part.old at (stretch.part from 8 rows.now) }
{
    let a = rows[from];
    let b = rows[from + 1];
    let c = rows[from + 2];
    let d = rows[from + 3];
    let e = rows[from + 4];
    let f = rows[from + 5];
    let g = rows[from + 6];
    let h = rows[from + 7];
    part[at] = a;
    part[at + 1] = b;
    part[at + 2] = c;
    part[at + 3] = d;
    part[at + 4] = e;
    part[at + 5] = f;
    part[at + 6] = g;
    part[at + 7] = h;
}

// Lays rows from row `skip` on in at place `pos`, up to `most`, until an entry has a sequence number above the gate; how many.
fn copy_before(
    part: &mut [u64],
    pos: usize,
    rows: &[u64],
    skip: usize,
    most: usize,
    gate: u64,
) -> usize
    requires { ((pos + most) * 8 ≤ length part.old) × ((skip + most) * 8 ≤ length rows.now) }
    ensures { Passed gate part.old rows.now pos skip most result part.new }
{
    for i in 0..most {
        let at = (pos + i) * ENTRY_WIDTH;
        if gate < part[at + 2] {
            return i;
        }
        copy_row(part, at, rows, (skip + i) * ENTRY_WIDTH);
    }
    most
}

impl Head {
    // The head after entries up to place `end` were replaced.
    fn replaced_to(self, end: usize) -> Head
        ensures { result ≡ counting (max self.rewrite_count end) self }
    {
        Head {
            rewrite_count: self.rewrite_count.max(end),
            ..self
        }
    }

    // Lays `count` of the rows, from row `skip` on, in at place `pos`.
    fn lay_replaced(
        self,
        part: &mut [u64],
        rows: &[u64],
        pos: usize,
        skip: usize,
        count: usize,
    ) -> Head
        requires { ((pos + count) * 8 ≤ length part.old) × ((skip + count) * 8 ≤ length rows.now) }
        ensures { Replaced self part.old rows.now pos skip count result part.new }
    {
        let from = skip * ENTRY_WIDTH;
        let to = (skip + count) * ENTRY_WIDTH;
        cells::copy_in(part, pos * ENTRY_WIDTH, &rows[from..to]);
        self.replaced_to(pos + count)
    }

    // Without a gate: replaces the Rewrite entries from place `pos` on, of `most`.
    fn replace_rewrites(
        self,
        part: &mut [u64],
        first: u64,
        rows: &[u64],
        pos: usize,
        skip: usize,
        most: usize,
    ) -> Result<Head, Cause>
        requires wf { Wf self part.old }
        requires lent { Lent 1 first rows.now }
        requires overlap { Overlap self first rows.now pos skip most }
        ensures { Rewriting None self part.old first rows.now result part.new }
    {
        let count = most.min(self.rewrite_count - pos);
        Ok(self.lay_replaced(part, rows, pos, skip, count))
    }

    // With a gate: replaces the Append entries from place `pos` on, of `most`, up to the gate.
    fn replace_before(
        self,
        part: &mut [u64],
        first: u64,
        rows: &[u64],
        pos: usize,
        skip: usize,
        most: usize,
        seq: u64,
    ) -> Result<Head, Cause>
        requires wf { Wf self part.old }
        requires lent { Lent 1 first rows.now }
        requires overlap { Overlap self first rows.now pos skip most }
        ensures { Rewriting (Some seq) self part.old first rows.now result part.new }
    {
        if pos < self.rewrite_count {
            return Err(Cause::AlreadyRewritten);
        }
        let count = copy_before(part, pos, rows, skip, most, seq);
        Ok(self.replaced_to(pos + count))
    }

    // Replaces entries from place `pos` on, where the overlap starts.
    fn replace(
        self,
        part: &mut [u64],
        first: u64,
        rows: &[u64],
        pos: usize,
        gate: Option<u64>,
    ) -> Result<Head, Cause>
        requires wf { Wf self part.old }
        requires lent { Lent 1 first rows.now }
        requires pos_value { (pos ≡ first - self.first_index) × (pos < self.len) × (self.first_index - first < length rows.now / 8) × (pos ≤ self.rewrite_count) }
        ensures { Rewriting gate self part.old first rows.now result part.new }
    {
        let skip = self.first_index.saturating_sub(first) as usize;
        let most = (self.len - pos).min(rows.len() / ENTRY_WIDTH - skip);
        match gate {
            None => self.replace_rewrites(part, first, rows, pos, skip, most),
            Some(seq) => self.replace_before(part, first, rows, pos, skip, most, seq),
        }
    }

    // Rewrites entries where the rows overlap them.
    pub fn rewrite(
        self,
        part: &mut [u64],
        first: u64,
        rows: &[u64],
        gate: Option<u64>,
    ) -> Result<Head, Cause>
        requires wf { Wf self part.old }
        requires lent { Lent 1 first rows.now }
        ensures { Rewriting gate self part.old first rows.now result part.new }
    {
        let pos = first.saturating_sub(self.first_index) as usize;
        if self.len <= pos {
            return Ok(self);
        }
        let skip = self.first_index.saturating_sub(first) as usize;
        if rows.len() / ENTRY_WIDTH <= skip {
            return Ok(self);
        }
        if self.rewrite_count < pos {
            return Err(Cause::AppendLeft);
        }
        self.replace(part, first, rows, pos, gate)
    }
}
