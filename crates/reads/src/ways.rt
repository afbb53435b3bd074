// The ways by which a read gets its value.
ghost use Rattle.std.specs.Prelude.{◌≡◌};
ghost use Rattle.reads.specs.Ways.{way_number};

#[derive(Clone, Copy, PartialEq, Eq, Debug)]
pub enum Way {
    // At once: from the history, or from the server's own symbol.
    History = 1,
    OwnSymbol = 2,
    // Later: by replies of other servers, or by a newer write.
    Replies = 3,
    NewerWrite = 4,
}

impl Way {
    // The number by which a way is told.
    pub fn number(self) -> u8
        ensures numbered { result ≡ way_number self }
    {
        self as u8
    }
}
