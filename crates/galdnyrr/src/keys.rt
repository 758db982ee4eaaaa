// What is asked of a group's keys and files, for C and Rust.
#![tactic(auto, using(crate::proofs::AskedLaws::value_same, crate::proofs::AskedLaws::keys_told))]

ghost use Rattle.std.specs.Prelude.{◌≡◌, length, option_copied};
ghost use Rattle.rules.specs.Causes.{Ok};
ghost use Rattle.rules.specs.TableQueries.{get_key, min_file_seq};
ghost use Rattle.rules.specs.TableQueries as rules;
ghost use Rattle.rules.specs.Queries.{in_group};
ghost use Rattle.kvs.specs.Calls.{given};
ghost use Rattle.pipe_log.specs.Rows.{queue_at};
ghost use Rattle.contexts.specs.Contexts.{context_of, Wf};
ghost use Rattle.galdnyrr.specs.Asked.{ValueTold, FoundTold, KeysTold, GotTold};

use crate::answers::{ABSENT, tell_count, tell_found};
use cells::copy_in;
use contexts::Area;
use pipe_log::{Cause, LogQueue};

// The number of a group's keys.
#[unsafe(no_mangle)]
pub extern "C" fn galdnyrr_key_count(xs: &[u64], bs: &[u8], group: u64, value: &mut u64) -> u64
    requires { Wf xs.now bs.now }
    ensures { ValueTold (in_group group (λ t. Ok (length t.keys)) (context_of xs.now bs.now)) value.old result value.new }
{
    let counted = queries::key_count(&Area { xs, bs }, group);
    tell_count(counted, value)
}

// The least file of a queue in a group, with the group's span.
#[unsafe(no_mangle)]
pub extern "C" fn galdnyrr_min_file_seq(
    xs: &[u64],
    bs: &[u8],
    group: u64,
    queue: u64,
    value: &mut u64,
) -> u64
    requires { Wf xs.now bs.now }
    ensures { FoundTold (in_group group (λ t. Ok (min_file_seq (queue_at queue) t)) (context_of xs.now bs.now)) value.old result value.new }
{
    let found = queries::min_file_seq(&Area { xs, bs }, group, LogQueue::from(queue));
    tell_found(found, value)
}

// The value of a key of any length in a group, copied to the front of `out`.
#[unsafe(no_mangle)]
pub extern "C" fn galdnyrr_get(
    xs: &[u64],
    bs: &[u8],
    group: u64,
    key: &[u8],
    out: &mut [u8],
    len: &mut u64,
) -> u64
    requires { Wf xs.now bs.now }
    ensures { GotTold (in_group group (λ t. Ok (get_key key.now t)) (context_of xs.now bs.now)) out.old len.old result out.new len.new }
{
    match queries::get(&Area { xs, bs }, group, key) {
        Ok(None) => ABSENT,
        Ok(Some(value)) => {
            if out.len() < value.len() {
                return Cause::ListTooShort.number();
            }
            copy_in(out, 0, value);
            *len = value.len() as u64;
            0
        }
        Err(cause) => cause.number(),
    }
}

// A bound that may be lent: none, or its bytes. C has no `Option`, so a flag goes beside them.
#[tactic(auto, unfolding(kvs::specs::Calls::given))]
fn bytes_if(there: bool, bytes: &[u8]) -> Option<&[u8]>
    ensures { option_copied result ≡ given there bytes.now }
{
    there.then_some(bytes)
}

// Scans a group's keys from `start` on and below `end`, bounds that are open where they are not there, up to `most`
// of them.
#[unsafe(no_mangle)]
pub extern "C" fn galdnyrr_scan(
    xs: &[u64],
    bs: &[u8],
    group: u64,
    started: bool,
    start: &[u8],
    ended: bool,
    end: &[u8],
    backwards: bool,
    most: usize,
    lens: &mut [u64],
    out: &mut [u8],
    count: &mut u64,
) -> u64
    requires { Wf xs.now bs.now }
    ensures { KeysTold (in_group group (rules.scan (given started start.now) (given ended end.now) backwards most) (context_of xs.now bs.now)) lens.old out.old count.old result count.new lens.new out.new }
{
    let from = bytes_if(started, start);
    let to = bytes_if(ended, end);
    let fetched = queries::scan(
        &Area { xs, bs },
        group,
        from,
        to,
        backwards,
        most,
        lens,
        out,
    );
    tell_count(fetched, count)
}

// Fetches a group's Append keys with a file up to the gate.
#[unsafe(no_mangle)]
pub extern "C" fn galdnyrr_fetch_kvs_before(
    xs: &[u64],
    bs: &[u8],
    group: u64,
    gate: u64,
    lens: &mut [u64],
    out: &mut [u8],
    count: &mut u64,
) -> u64
    requires { Wf xs.now bs.now }
    ensures { KeysTold (in_group group (λ t. Ok (rules.fetch_kvs_before gate t)) (context_of xs.now bs.now)) lens.old out.old count.old result count.new lens.new out.new }
{
    let fetched = queries::fetch_kvs_before(&Area { xs, bs }, group, gate, lens, out);
    tell_count(fetched, count)
}

// Fetches all Rewrite keys of a group.
#[unsafe(no_mangle)]
pub extern "C" fn galdnyrr_fetch_rewritten_kvs(
    xs: &[u64],
    bs: &[u8],
    group: u64,
    lens: &mut [u64],
    out: &mut [u8],
    count: &mut u64,
) -> u64
    requires { Wf xs.now bs.now }
    ensures { KeysTold (in_group group (λ t. Ok (rules.fetch_rewritten_kvs t)) (context_of xs.now bs.now)) lens.old out.old count.old result count.new lens.new out.new }
{
    let fetched = queries::fetch_rewritten_kvs(&Area { xs, bs }, group, lens, out);
    tell_count(fetched, count)
}
