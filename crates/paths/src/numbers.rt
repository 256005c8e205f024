// Differences, quotients and remainders that are there for all numbers.
ghost use Rattle.std.specs.Prelude.{◌≡◌, ◌-◌, ◌/◌, ◌%◌};

// a - b, and 0 where b is above a.
pub fn minus(a: usize, b: usize) -> usize
    ensures { result ≡ a - b }
{
    if b <= a { a - b } else { 0 }
}

// a / b, and 0 where b is 0.
pub fn quotient(a: usize, b: usize) -> usize
    ensures { result ≡ a / b }
{
    if 0 < b { a / b } else { 0 }
}

// a % b, and a where b is 0.
pub fn remainder(a: usize, b: usize) -> usize
    ensures { result ≡ a % b }
{
    if 0 < b { a % b } else { a }
}
