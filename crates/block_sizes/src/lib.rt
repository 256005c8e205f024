// How many records make a block.
#![tactic(auto)]

ghost use Rattle.std.specs.Prelude.{◌≡◌, ◌*◌, ◌≤◌, ◌<◌};

// The most records of a block: as many numbers of a column are held at once.
pub const BLOCK: usize = 256;

// A column of a block has at least so many numbers: fewer records go one by one.
pub const FEWEST: usize = 8;

// Bytes of the staging record.
pub const STAGING: usize = 4096;

// Records of at most so many bytes go in the largest blocks, and those of at most twice as many in half of them.
const SHORT: usize = 32;

const HALF: usize = 128;

const QUARTER: usize = 64;

// How far the blocks of a call have come: so many records, and the exceptions that they raised.
#[derive(Clone, Copy)]
pub struct Progress {
    pub records: usize,
    pub raised: u64,
}

// The lower of two counts: the first one, where it is not all of the second.
pub fn least(a: usize, b: usize) -> usize
    requires { (1 ≤ a) × (1 ≤ b) }
    ensures { (1 ≤ result) × (result ≤ a) × (result ≤ b) × (result < b → result ≡ a) }
{
    if a < b { a } else { b }
}

// Where the longer of the two records has so many bytes.
pub fn copied_at_once(record_size: usize) -> usize
    ensures { (1 ≤ result) × (result ≤ 256) }
{
    if record_size <= SHORT {
        return BLOCK;
    }
    if record_size <= 2 * SHORT {
        return HALF;
    }
    QUARTER
}

// As many whole source records as the staging record has room for.
pub fn staged_at_once(source_size: usize) -> usize
    requires { (1 ≤ source_size) × (source_size ≤ 4096) }
    ensures { (1 ≤ result) × (result ≤ 256) × (result * source_size ≤ 4096) }
{
    if BLOCK * source_size <= STAGING {
        return BLOCK;
    }
    STAGING / source_size
}
