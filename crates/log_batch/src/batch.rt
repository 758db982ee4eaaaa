// A batch as it is lent.
ghost use Rattle.std.specs.Prelude.{◌≡◌, None};
ghost use Rattle.rules.specs.Items.{replay_rewrite};
ghost use Rattle.rules.specs.Checks.{checks};
ghost use Rattle.log_batch.specs.Batch.{items_in};

// The items of a batch in rows of nine numbers, the records of its entries in rows of eight, and the bytes of its keys and values.
// Every content of the three stands for some batch.
#[derive(Clone, Copy)]
pub struct LogBatch<'a> {
    pub items: &'a [u64],
    pub entries: &'a [u64],
    pub bytes: &'a [u8],
}

// A batch that passed the checks of a Rewrite replay.
#[derive(Clone, Copy)]
pub struct RewriteReplay<'a> {
    pub batch: LogBatch<'a>,
    ghost passed: { checks replay_rewrite (items_in batch) ≡ None },
}
