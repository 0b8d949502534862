//! S14.6: the terms of an import.
ghost use Rattle.std.specs.Prelude.{◌≡◌};

/// What the caller asks for: the task's level, its deadline D, and the percentage that makes overload times of times.
/// The level stays a number: C hands in any (S13.9), and refusal 17 is of those that are neither 0 nor 1.
#[derive(Clone, Copy, Debug, PartialEq, Eq)]
pub struct Terms {
    pub level: u32,
    pub deadline: u32,
    pub percentage: u32,
}

impl Terms {
    ghost use Rattle.std.specs.Prelude.{◌≡◌};
    ghost use Rattle.importer.specs.Task.{terms_lawful};

    /// S14.6: level and percentage.
    #[tactic(auto, unfolding(crate::specs::Task::terms_lawful, sheet::specs::Level::is_high))]
    pub fn is_lawful(self) -> bool
        ensures { result ≡ terms_lawful self }
    {
        self.level <= 1
            && (100..=400).contains(&self.percentage)
            && (self.level == 1 || self.percentage == 100)
    }
}
