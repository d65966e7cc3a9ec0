/// What a query of a counter or of a register finds.
#[derive(Clone, Copy, PartialEq, Eq)]
pub enum Found {
    Sum(i128),
    /// The call that assigned the value.
    At(u32),
    Nothing,
}

/// What a query answers.
#[derive(Clone, Copy)]
pub enum Answer {
    Truth(bool),
    Value(Found),
}

/// Of an update and a delete of its key that are concurrent, the one that a map keeps.
#[derive(Clone, Copy)]
pub enum Winner {
    Update,
    Delete,
}

/// What a query asks of the calls that count.
#[derive(Clone, Copy)]
pub enum Question {
    AddWins,
    RemoveWins,
    ManyValues,
    Latest,
    Total,
    AtKey(Winner),
    NoQuestion,
}
