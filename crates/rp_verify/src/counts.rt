ghost use Rattle.std.specs.Prelude.{◌≡◌, ◌≤◌, ◌+◌, min};

/// The most paths that a procedure may have.
pub const MOST_PATHS: u32 = 1024;

/// The most goals that a program may have.
pub const MOST_GOALS: u32 = 2048;

/// How many paths and goals there are, up to one past their limits.
#[derive(Clone, Copy)]
pub struct Counts {
    pub paths: u32,
    pub goals: u32,
    ghost few_paths: { paths ≤ 1025 },
    ghost few_goals: { goals ≤ 2049 },
}

impl Counts {
    /// Those of a place where nothing is left: one path, and no goal.
    pub fn at_end() -> Counts
        ensures paths { result.paths ≡ 1 }
        ensures goals { result.goals ≡ 0 }
    {
        Counts { paths: 1, goals: 0 }
    }

    /// One goal more.
    pub fn with_goal(self) -> Counts
        ensures paths { result.paths ≡ self.paths }
        ensures goals { result.goals ≡ min (self.goals + 1) 2049 }
    {
        Counts {
            paths: self.paths,
            goals: (self.goals + 1).min(MOST_GOALS + 1),
        }
    }

    /// Those of both branches.
    pub fn and(self, other: Counts) -> Counts
        ensures paths { result.paths ≡ min (self.paths + other.paths) 1025 }
        ensures goals { result.goals ≡ min (self.goals + other.goals) 2049 }
    {
        Counts {
            paths: (self.paths + other.paths).min(MOST_PATHS + 1),
            goals: (self.goals + other.goals).min(MOST_GOALS + 1),
        }
    }
}
