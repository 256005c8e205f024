// Which handling the leaf at a byte of a type obeys.
#![tactic(auto)]

ghost use Rattle.std.specs.Prelude.{◌≡◌, false, List, ℕ, ◌<◌};
ghost use Rattle.datatype.specs.Handling.{asked, handling_at};
ghost use Rattle.table.specs.Table.{type_at};
ghost use Rattle.obeying.specs.Obeying.{RowsObey, TypeObeys, WordStep};

use datatype::{CLAMP, STOP, Word};
use paths::numbers::{minus, remainder};
use paths::types::{kind_at, row_over};
use table::codes::word_of;
use table::read::{row_word, type_word};
use table::{
    ARRAY, BASE, CLASS, COMPOUND, FIRST, MEMBER_OFFSET, MEMBER_TYPE, MEMBER_WORD, MOST_TYPES, ROWS,
    SIZE,
};

// One step down from a type at a byte: to an inner type at a byte of it, with the word of the member that leads there.
#[derive(Clone, Copy)]
pub struct Down {
    pub type_number: usize,
    pub byte: usize,
    pub word: Word,
}

// What a word makes of a handling.
fn ask(word: Word, handling: u32) -> u32
    ensures { result ≡ asked word handling }
{
    match word {
        Word::Silent => handling,
        Word::Clamp => CLAMP,
        Word::Stop => STOP,
    }
}

// One step down, where a member is met.
fn word_step(half: &[u32], type_number: usize, byte: usize) -> Option<Down>
    ensures { WordStep half.now type_number byte result }
{
    let kind = kind_at(half, type_number);
    if kind == COMPOUND {
        let first = type_word(half, type_number, FIRST);
        let n = type_word(half, type_number, ROWS);
        let j = row_over(half, first, n, byte)?;
        Some(Down {
            type_number: row_word(half, j, MEMBER_TYPE),
            byte: minus(byte, row_word(half, j, MEMBER_OFFSET)),
            word: word_of(row_word(half, j, MEMBER_WORD)),
        })
    } else if kind == ARRAY {
        let k = type_word(half, type_number, BASE);
        let y = type_word(half, k, SIZE);
        Some(Down {
            type_number: k,
            byte: remainder(byte, y),
            word: Word::Silent,
        })
    } else {
        None
    }
}

// The handling that the leaf at this byte of a type obeys, in a call with this handling.
pub fn handling_at(half: &[u32], type_number: usize, byte: usize, handling: u32) -> u32
    ensures { (t : List ℕ) → result ≡ handling_at handling (type_at half.now t type_number) byte }
{
    let mut k = type_number;
    let mut at = byte;
    let mut obeyed = handling;
    for _ in 0..MOST_TYPES {
        let Some(down) = word_step(half, k, at) else {
            return obeyed;
        };
        k = down.type_number;
        at = down.byte;
        obeyed = ask(down.word, obeyed);
    }
    obeyed
}

// Whether one of the n rows from first on, members of a type, has a word that asks for another handling than the call's; or is not of an earlier type, which no
// sheet has.
fn rows_ask(half: &[u32], type_number: usize, first: usize, n: usize, handling: u32) -> bool
    requires { (first < 4294967296) × (n < 4294967296) }
    ensures { result ≡ false → RowsObey half.now handling type_number first n }
{
    for row in 0..n {
        let word = word_of(row_word(half, first + row, MEMBER_WORD));
        if ask(word, handling) != handling {
            return true;
        }
        let inner = row_word(half, first + row, MEMBER_TYPE);
        if type_number <= inner {
            return true;
        }
    }
    false
}

fn type_asks(half: &[u32], type_number: usize, handling: u32) -> bool
    ensures { result ≡ false → TypeObeys half.now handling type_number }
{
    let class = type_word(half, type_number, CLASS);
    if class == COMPOUND {
        let first = type_word(half, type_number, FIRST);
        let n = type_word(half, type_number, ROWS);
        return rows_ask(half, type_number, first, n, handling);
    }
    if class == ARRAY {
        let inner = type_word(half, type_number, BASE);
        return type_number <= inner;
    }
    false
}

// Whether the word of some member of a sheet, in a type up to this one, asks for another handling than the call's. Where none does, each leaf of the type obeys the
// call: it is made of types before it.
pub fn asks_other(half: &[u32], type_number: usize, handling: u32) -> bool
    ensures { result ≡ false → (t : List ℕ) (b : ℕ) → handling_at handling (type_at half.now t type_number) b ≡ handling }
{
    for k in 0..MOST_TYPES {
        if type_number < k {
            return false;
        }
        if type_asks(half, k, handling) {
            return true;
        }
    }
    false
}
