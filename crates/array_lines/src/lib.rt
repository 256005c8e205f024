// The line of an array from behind its first word.
#![tactic(auto)]

ghost use Rattle.line.specs.Line.{array_line_of};
ghost use Rattle.line.specs.Read.{Reads, columns_reading};

use line::{Line, ReadLine};
use line_columns::{next_line, number_column};

// One to four dimensions, each at least 1.
pub fn array_line(s: &[u8], q: usize) -> Option<ReadLine>
    ensures { Reads s.now result (columns_reading s.now q array_line_of) }
{
    let Some(base) = number_column(s, q) else {
        return None;
    };
    let mut dims = [0u32; 4];
    let mut at = base.end;
    for n in 0..4 {
        let Some(dimension) = number_column(s, at) else {
            return None;
        };
        if dimension.value == 0 {
            return None;
        }
        dims[n] = dimension.value;
        if let Some(next) = next_line(s, dimension.end) {
            let line = Line::Array(base.value, next);
            return Some(ReadLine { line, dims });
        }
        at = dimension.end;
    }
    None
}
