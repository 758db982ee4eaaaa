// The span of a finished atomic group.
ghost use Rattle.std.specs.Prelude.{◌≡◌};
ghost use Rattle.memtable.specs.Spans.{grouped, SpanSet};
ghost use Rattle.std.specs.Prelude.{Some};

use crate::Head;
use pipe_log::{Cause, Span};

impl Head {
    fn with_span(self, start: u64, end: u64) -> Head
        ensures { result ≡ grouped (Some (record { start = start; end = end })) self }
    {
        Head {
            atomic_group: Some(Span { start, end }),
            ..self
        }
    }

    // Sets the span; files may not go back.
    #[tactic(auto, unfolding(rules::specs::Table::spanned, rules::specs::Table::span_goes_back, rules::specs::Table::with_span, crate::specs::Views::table_of))]
    pub fn apply_rewrite_atomic_group(self, start: u64, end: u64) -> Result<Head, Cause>
        ensures { SpanSet self start end result }
    {
        let Some(held) = self.atomic_group else {
            return Ok(self.with_span(start, end));
        };
        if start < held.end {
            return Err(Cause::FilesGoBack);
        }
        Ok(self.with_span(start, end))
    }
}
