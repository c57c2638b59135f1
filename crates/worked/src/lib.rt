// The worked prices and an example day, true of the definitions of the gate.
#![tactic(auto)]

ghost use Rattle.std.specs.Prelude.{◌≡◌, length};
ghost use Rattle.worked.specs.Worked.{rows, WorkedPrices};
ghost use Rattle.worked.specs.Example.{day, ExampleDay};

// The worked prices, all rows of one table: answers how many rows there are.
pub fn worked_prices() -> usize
    ensures count { result ≡ length rows }
    ensures hold { WorkedPrices }
{
    10
}

// The calls of an example day, which lead a new gate to its last state: answers how many calls there are.
pub fn example_day() -> usize
    ensures count { result ≡ length day }
    ensures leads { ExampleDay }
{
    9
}
