// Things that output names by a word. No `Display`: a form's field is the word itself, and how long it may be.
ghost use Rattle.std.specs.Prelude.{◌≡◌, ℕ, ◌≤◌, List, length};

pub trait Word {
    ghost name: { Self → List ℕ };

    // The word in output.
    fn word(self) -> &'static str
        ensures text { result.now ≡ name self }
        ensures short { length result.now ≤ 9 };
}
