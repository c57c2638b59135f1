// What the gate is asked. A line can say more, and is read below the gate, so that a command is a type of its own.
use orders::bell::Bell;
use orders::records::{NoticeTerms, OrderTerms, SeriesTerms};

#[derive(Clone, Copy)]
pub enum Call {
    Series(SeriesTerms),
    Notice(NoticeTerms),
    Phase(Bell),
    Enter(OrderTerms),
    // the number of an order
    Cancel(i32),
    Work(i32),
    Sweep,
}
