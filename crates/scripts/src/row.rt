// The first line of a call.
ghost use Rattle.std.specs.Prelude.{◌≡◌, ◌≤◌, length};
ghost use Rattle.scripts.specs.Arguments.{row_as};

// The numbers of the line; the first is how many numbers the call has.
pub const HEAD: usize = 14;

// Which call, of which context, with which other context, of which group; five arguments, which each call reads in its own way;
// how many rows a lent list has; and where the items, the entries and the bytes end, which stand one behind another from HEAD on. The
// stored answer is what stands behind them. A call is a number, as it is stored: an enum of the calls would be one more match with the same
// arms.
#[derive(Clone, Copy)]
pub struct Row {
    pub what: u64,
    pub area: u64,
    pub other: u64,
    pub group: u64,
    pub a: u64,
    pub b: u64,
    pub c: u64,
    pub d: u64,
    pub e: u64,
    pub room: u64,
    pub items: u64,
    pub entries: u64,
    pub bytes: u64,
}

// The numbers of a call's first line by their names.
pub fn row_of(call: &[u64]) -> Row
    requires { 14 ≤ length call.now }
    ensures { result ≡ row_as call.now }
{
    Row {
        what: call[1],
        area: call[2],
        other: call[3],
        group: call[4],
        a: call[5],
        b: call[6],
        c: call[7],
        d: call[8],
        e: call[9],
        room: call[10],
        items: call[11],
        entries: call[12],
        bytes: call[13],
    }
}
