//! The worked examples. Their texts stand here; the table is that of `specs/Worked.antt`.
ghost use Rattle.std.specs.Prelude.{◌≡◌, length};
ghost use Rattle.examples.specs.Worked.{worked, ExamplesStand};

/// A query of five tables.
pub const FIVE: &[u8] = b"\
    G    5    6     \n\
    J         0    1\n\
    J         0    4\n\
    J         1    2\n\
    J         1    3\n\
    J         2    3\n\
    J         3    4\n\
";

/// Its build list.
pub const FIVE_LIST: &[u8] = b"\
    H    5    6    3\n\
    T    0    1    2\n\
    N    3    0    2\n\
    E         1    3\n\
    N    4    0    3\n\
";

/// A query of three tables in a chain.
pub const CHAIN: &[u8] = b"\
    G    3    2     \n\
    J         0    1\n\
    J         1    2\n\
";

/// Its refusal: without table 1 the others are not connected.
pub const CHAIN_REFUSED: &[u8] = b"\
    X    8    3    1\n\
";

/// How many rows the table of worked examples has.
pub fn examples_stand() -> usize
    ensures rows { result ≡ length worked }
    // each of them holds
    ensures stand { ExamplesStand }
{
    12
}
