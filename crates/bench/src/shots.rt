// How far a bench has come: its latest shot, and how many shots are closed.
ghost use Rattle.bench.specs.Shots.{is_running, sender_in};
ghost use Rattle.std.specs.Prelude.{◌≡◌, ◌+◌, ◌≤◌, if◌then◌else◌};

// The latest shot, with its sender. Before the first one none runs, and the number is 0.
#[derive(Clone, Copy)]
pub enum Shot {
    Running(u16),
    Closed(u16),
}

impl Shot {
    pub(crate) fn is_running(self) -> bool
        ensures { result ≡ is_running self }
    {
        matches!(self, Shot::Running(_))
    }

    pub(crate) fn sender(self) -> u16
        ensures { result ≡ sender_in self }
    {
        match self {
            Shot::Running(sender) | Shot::Closed(sender) => sender,
        }
    }
}

// At most 999 shots are closed, the running one counted in.
#[derive(Clone, Copy)]
pub struct Progress {
    pub(crate) shot: Shot,
    pub(crate) closed: u16,
    ghost room: { closed + (if is_running shot then 1 else 0) ≤ 999 },
}
