//! The time, and tasks that run beside others.

ghost use Rattle.std.specs.Prelude.{◌≡◌, ℕ};

/// The time of day.
pub trait Time {
    /// What it shows, in seconds.
    ghost seconds: { Self → ℕ };

    /// The seconds since the first of January 1970, UTC. It never fails.
    fn current_time(&self) -> u64
        ensures { result ≡ seconds self.now };
}

/// Takes tasks that run beside the caller.
pub trait Spawn {
    type Task;

    /// What handing this task over does.
    ghost spawns: { Self → Self.Task → Self → Type 0 };

    /// Hands a task over. It cannot fail; how the task ends is not told.
    fn spawn_bg(&mut self, task: Self::Task)
        ensures { spawns self.old task self.new };
}
