// When a call comes, and what a shot ends with.

// Where a bench stands: no shot runs, a shot runs in a phase, or a running shot has had all its phases.
#[derive(Clone, Copy, Debug, PartialEq, Eq)]
pub enum Moment {
    Idle,
    Running(u16),
    Ended,
}

// What a caller wants to do, with the phase or the shot that it names.
#[derive(Clone, Copy, Debug)]
pub enum Act {
    Begin,
    Inject,
    Turn(u16),
    Verdict,
    Close(u16),
}

// What a correct controller holds a shot to have told: the value at a place of the list, or that the sender is faulty.
#[derive(Clone, Copy, Debug, PartialEq, Eq)]
pub enum Verdict {
    Place(u16),
    SenderFaulty,
}
