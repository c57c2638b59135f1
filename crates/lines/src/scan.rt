// The scanner: tells whether a line is a form, and if not, at which column it goes wrong.
ghost use Rattle.std.specs.Prelude.{◌≡◌, ◌≤◌, true, length, take, Some, MatchResult};
ghost use Rattle.std.specs.List.{AllByRecursion};
ghost use Rattle.lines.specs.declared.scan.State.{State};
ghost use Rattle.lines.specs.Forms.{Form, OnlyFault};
ghost use Rattle.lines.specs.Scanner.{within, ended, leading, opening, next, run};

// Where in a form the scanner stands: `grouped` where an inner bracket is open, and with room for so
// many more letters or digits.
#[derive(Clone, Copy)]
pub(crate) enum State {
    // before the form's opening bracket
    Start,
    // after it
    Name,
    // after a space outside an inner bracket
    Item,
    // after a space inside an inner bracket, or after its opening
    Member,
    // after the minus of a number
    Minus { grouped: bool },
    // in a word
    Letters { grouped: bool, room: u8 },
    // in a number, or after an inner bracket's closing
    Digits { grouped: bool, room: u8 },
    // after the form's closing bracket
    Done,
}

// After a word, a number or a group.
fn ended_by(grouped: bool, b: u8) -> Option<State>
    ensures { result ≡ ended grouped b }
{
    match b {
        b' ' if grouped => Some(State::Member),
        b' ' => Some(State::Item),
        b')' if grouped => Some(State::Digits {
            grouped: false,
            room: 0,
        }),
        b')' => Some(State::Done),
        _ => None,
    }
}

// At the first digit of a number, where it is not 0.
fn led_by(grouped: bool, b: u8) -> Option<State>
    ensures { result ≡ leading grouped b }
{
    match b {
        b'1'..=b'9' => Some(State::Digits { grouped, room: 8 }),
        _ => None,
    }
}

// At the first byte of a word or a number.
fn opened_by(grouped: bool, b: u8) -> Option<State>
    ensures { result ≡ opening grouped b }
{
    match b {
        b'a'..=b'z' => Some(State::Letters { grouped, room: 8 }),
        b'-' => Some(State::Minus { grouped }),
        b'0' => Some(State::Digits { grouped, room: 0 }),
        _ => led_by(grouped, b),
    }
}

impl State {
    // The state after one more byte, or `None` where no form goes on with it.
    fn step(self, b: u8) -> Option<State>
        ensures { result ≡ next self b }
    {
        match (self, b) {
            (State::Start, b'(') => Some(State::Name),
            (State::Name, b'a'..=b'z') => opened_by(false, b),
            (State::Item, b'(') => Some(State::Member),
            (State::Item, _) => opened_by(false, b),
            (State::Member, _) => opened_by(true, b),
            (State::Minus { grouped }, _) => led_by(grouped, b),
            (
                State::Letters {
                    grouped,
                    room: room @ 1..,
                },
                b'a'..=b'z',
            ) => Some(State::Letters {
                grouped,
                room: room - 1,
            }),
            (
                State::Digits {
                    grouped,
                    room: room @ 1..,
                },
                b'0'..=b'9',
            ) => Some(State::Digits {
                grouped,
                room: room - 1,
            }),
            (State::Letters { grouped, .. } | State::Digits { grouped, .. }, _) => ended_by(
                grouped, b,
            ),
            _ => None,
        }
    }
}

// Whether the line is a form; if not, the column of the first byte that no form can have there, or
// one past the end of a line that is cut short.
pub(crate) fn scan(line: &[u8]) -> Result<(), usize>
    ensures { MatchResult result (λ _. Form line.now) (λ c. OnlyFault line.now c) }
{
    let mut state = State::Start;
    for (at, b) in line.iter().enumerate() {
        let Some(next) = state.step(*b) else {
            return Err(at + 1);
        };
        state = next;
    }
    match state {
        State::Done => Ok(()),
        _ => Err(line.len() + 1),
    }
}
