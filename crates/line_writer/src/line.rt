// A line of up to 160 bytes.
ghost use Rattle.std.specs.Prelude.{◌≤◌};

pub const CAPACITY: usize = 160;

// No ArrayVec, which is not Copy, and no ArrayString, which cuts no text.
#[derive(Clone, Copy)]
pub struct Line {
    bytes: [u8; CAPACITY],
    len: usize,
    ghost fits: { len ≤ 160 },
}

// What stands behind the head of a form.
#[derive(Clone, Copy)]
pub enum Field<'a> {
    Word(&'a str),
    Count(u64),
    Number(i64),
}

pub mod lend;
pub mod write;
