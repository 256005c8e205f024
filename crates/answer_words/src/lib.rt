// An answer as C gets it: its number, and eight words.
#![tactic(auto)]

ghost use Rattle.answer_words.specs.AnswerWords.{Gives};

use answer::{Answer, number_of, values_of};

// Writes an answer's words and gives its number.
pub fn give(a: Answer, words: &mut [u64; 8]) -> u32
    ensures { Gives a result words.new }
{
    let number = number_of(a);
    let v = values_of(a);
    *words = [
        number as u64,
        v.count,
        v.line as u64,
        v.record as u64,
        v.at as u64,
        v.kind as u64,
        v.given as u64,
        v.magnitude,
    ];
    number
}
