// The lines that the program prints, written into a lent slice.
ghost use Rattle.std.specs.Prelude.{◌+◌, ◌*◌, ◌≤◌, length};
ghost use Rattle.takes_rules.specs.Output.{decimal, fields_text, line_text, group_line, live_line, refusal_line, malformed_line};
ghost use Rattle.takes_lines.specs.Written.{WrittenAt, Written};

// The decimal digits of `n`, from place `at` on; the answer is the place behind them. They are written by hand, since std says what
// `write!` writes for a `String` alone, and there is no heap here.
fn write_digits(out: &mut [u8], at: usize, n: u64) -> usize
    requires { at + length (decimal n) ≤ length out.old }
    ensures { WrittenAt out.old at (decimal n) result out.new }
{
    if n < 10 {
        out[at] = b'0' + n as u8;
        return at + 1;
    }
    let last = write_digits(out, at, n / 10);
    out[last] = b'0' + (n % 10) as u8;
    last + 1
}

// Numbers, each behind a comma, from place 1 on; the answer is the place behind them.
fn write_numbers(out: &mut [u8], numbers: &[u64]) -> usize
    requires { 2 + 21 * length numbers.now ≤ length out.old }
    ensures written_at { WrittenAt out.old 1 (fields_text numbers.now) result out.new }
    ensures upper_bound { result ≤ 1 + 21 * length numbers.now }
{
    let mut at = 1;
    for number in numbers {
        out[at] = b',';
        at = write_digits(out, at + 1, *number);
    }
    at
}

// A letter, its numbers and the newline; the answer is the number of bytes.
fn write_line(out: &mut [u8], letter: u8, numbers: &[u64]) -> usize
    requires { 2 + 21 * length numbers.now ≤ length out.old }
    ensures { Written out.old (line_text letter numbers.now) result out.new }
{
    out[0] = letter;
    let at = write_numbers(out, numbers);
    out[at] = b'\n';
    at + 1
}

// G,group,first,entries,keys
#[tactic(auto, unfolding(takes_rules::specs::Output::group_line))]
pub fn group_line(out: &mut [u8], group: u64, first: u64, entries: u64, keys: u64) -> usize
    requires { 86 ≤ length out.old }
    ensures { Written out.old (group_line group first entries keys) result out.new }
{
    let numbers = [group, first, entries, keys];
    write_line(out, b'G', &numbers)
}

// L,append,rewrite
#[tactic(auto, unfolding(takes_rules::specs::Output::live_line))]
pub fn live_line(out: &mut [u8], append: u64, rewrite: u64) -> usize
    requires { 44 ≤ length out.old }
    ensures { Written out.old (live_line append rewrite) result out.new }
{
    let numbers = [append, rewrite];
    write_line(out, b'L', &numbers)
}

// R,line,number
#[tactic(auto, unfolding(takes_rules::specs::Output::refusal_line))]
pub fn refusal_line(out: &mut [u8], line: u64, number: u64) -> usize
    requires { 44 ≤ length out.old }
    ensures { Written out.old (refusal_line line number) result out.new }
{
    let numbers = [line, number];
    write_line(out, b'R', &numbers)
}

// B,line
#[tactic(auto, unfolding(takes_rules::specs::Output::malformed_line))]
pub fn malformed_line(out: &mut [u8], line: u64) -> usize
    requires { 23 ≤ length out.old }
    ensures { Written out.old (malformed_line line) result out.new }
{
    let numbers = [line];
    write_line(out, b'B', &numbers)
}
