// The guards that there are: document 02's "fixed table of names and argument counts", with whether success means ground. Loader and machine both consult it:
// the loader for whether a guard is in it, for the licence and to number the guard; the machine for what a guard asks.
ghost use Rattle.std.specs.Prelude.{◌≡◌, ◌<◌, map};
ghost use Rattle.std.specs.List.{position};
ghost use Rattle.meaning.specs.Table.{guard_table};
ghost use Rattle.term.specs.Guards.{row_of, row_at, coded, written, has, found_row};

// The rows' numbers, in the table's order.
pub const AN_INTEGER: u64 = 0;

pub const A_CONSTANT: u64 = 1;

pub const A_COMPOUND: u64 = 2;

pub const IS_GROUND: u64 = 3;

pub const IS_KNOWN: u64 = 4;

pub const ARE_EQUAL: u64 = 5;

pub const OTHERWISE: u64 = 6;

// A row: its name, its number of arguments, and whether success means ground. Of `==` it does, but only "a reader that is itself the argument of a ground,
// integer or constant guard" may stand several times.
#[derive(Clone, Copy)]
pub struct Row {
    pub name: &'static [u8],
    pub count: usize,
    pub means_ground: bool,
}

const GUARDS: [Row; 7] = [
    Row {
        name: b"integer",
        count: 1,
        means_ground: true,
    },
    Row {
        name: b"constant",
        count: 1,
        means_ground: true,
    },
    Row {
        name: b"compound",
        count: 1,
        means_ground: false,
    },
    Row {
        name: b"ground",
        count: 1,
        means_ground: true,
    },
    Row {
        name: b"known",
        count: 1,
        means_ground: false,
    },
    Row {
        name: b"==",
        count: 2,
        means_ground: false,
    },
    Row {
        name: b"otherwise",
        count: 0,
        means_ground: false,
    },
];

// The table of the definitions.
fn table() -> [Row; 7]
    ensures { map coded result ≡ map written guard_table }
{
    GUARDS
}

// The row of this number.
fn entry(n: usize) -> Row
    requires { n < 7 }
    ensures { coded result ≡ written (row_at guard_table n) }
{
    table()[n]
}

// How many arguments the guard of a row has.
pub fn arguments(n: usize) -> usize
    requires { n < 7 }
    ensures { result ≡ (row_at guard_table n).count }
{
    entry(n).count
}

// Whether its success means ground.
pub fn means_ground(n: usize) -> bool
    requires { n < 7 }
    ensures { result ≡ (row_at guard_table n).means_ground }
{
    entry(n).means_ground
}

// The first of these rows that has the name and so many arguments.
fn find(rows: &[Row], name: &[u8], count: usize) -> Option<usize>
    ensures { result ≡ position (has name.now count) rows.now }
{
    rows.iter()
        .position(|row| row.name == name && row.count == count)
}

// The row of that name with so many arguments, if there is one.
pub fn row_of(name: &[u8], count: usize) -> Option<usize>
    ensures { result ≡ found_row (row_of guard_table name.now count) }
{
    find(&table(), name, count)
}
