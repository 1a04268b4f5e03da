//! Which run of a system a node begins next, by the clock.
ghost use Rattle.std.specs.Prelude.{ℕ, ◌≡◌, ◌≤◌, ◌<◌, ◌*◌, ◌^◌, ◌↔◌, MatchOption};
ghost use Rattle.std.specs.Prelude.{pos, ◌+ℤ◌, ◌≤ℤ◌, ◌<ℤ◌};
ghost use Rattle.std.specs.Option.{SomeIff};
ghost use Rattle.gen_node.specs.Clock as by_clock;
ghost use Rattle.gen_node.specs.Clock.{IsAbove, IsNext, IsNoneLeft};

/// The most runs that a system has, 4,194,304: four for each of 2^20 sets of keys.
pub const MOST_RUNS: u32 = 4 << 20;

/// When the runs of a system begin. All times are whole numbers of one unit, as milliseconds since 1970.
#[derive(Clone, Copy, Debug)]
pub struct Timetable {
    /// When run 0 begins.
    pub start: i64,
    /// How long it is from the beginning of a run to that of the next.
    pub period: u64,
}

/// The run that a node begins next.
#[derive(Clone, Copy, Debug)]
pub struct NextRun {
    /// The number of the run.
    pub number: u32,
    /// When the run begins.
    pub begins: i64,
}

/// Returns the least number above a mark.
fn first_above(mark: Option<u32>) -> u64
    ensures { (run : ℕ) → IsAbove mark run ↔ (result ≤ run) }
{
    match mark {
        Some(mark) => u64::from(mark) + 1,
        None => 0,
    }
}

/// Returns how long it is from the start to a time; 0 if the time comes before the start.
fn wait_of(start: i64, now: i64) -> u64
    ensures { (passed : ℕ) → (now ≤ℤ (start +ℤ pos passed)) ↔ (result ≤ passed) }
{
    if now < start { 0 } else { now.abs_diff(start) }
}

/// Returns the least number of periods that last as long as a wait; None if no number of them does.
fn periods_of(wait: u64, period: u64) -> Option<u64>
    ensures { MatchOption result ((count : ℕ) → count * period < wait)
        (λ least. (count : ℕ) → (wait ≤ count * period) ↔ (least ≤ count)) }
{
    if wait == 0 {
        return Some(0);
    }
    if period == 0 {
        return None;
    }
    Some(wait.div_ceil(period))
}

/// Returns the time that comes so long after the start; None if it does not fit into 64 bits.
fn time_after(start: i64, passed: u64) -> Option<i64>
    ensures { SomeIff result ((start +ℤ pos passed) <ℤ pos (2 ^ 63)) (start +ℤ pos passed) }
{
    start.checked_add_unsigned(passed)
}

impl Timetable {
    /// Returns when the run with this number begins; None if the time does not fit into 64 bits.
    pub fn beginning(&self, run: u32) -> Option<i64>
        ensures { SomeIff result (by_clock.beginning self.now run <ℤ pos (2 ^ 63)) (by_clock.beginning self.now run) }
    {
        let start = self.start;
        match u64::from(run).checked_mul(self.period) {
            Some(passed) => time_after(start, passed),
            None => None,
        }
    }

    /// Returns the least number whose run begins now or later; None if no number has such a run. No system may have
    /// that run.
    fn first_from(&self, now: i64) -> Option<u64>
        ensures { MatchOption result ((run : ℕ) → by_clock.beginning self.now run <ℤ now)
            (λ least. (run : ℕ) → (now ≤ℤ by_clock.beginning self.now run) ↔ (least ≤ run)) }
    {
        periods_of(wait_of(self.start, now), self.period)
    }

    /// Returns the run that a node with this mark begins next, as the clock now stands. The mark is the number of the
    /// newest run that the node has begun, if there is one. The next run is the least above the mark that begins now or
    /// later. None if and only if there is no such run: all that a system may have are at the mark or below it, or have
    /// begun, or begin at a time that does not fit into 64 bits.
    pub fn next_run(&self, now: i64, mark: Option<u32>) -> Option<NextRun>
        ensures { MatchOption result (IsNoneLeft self.now now mark)
            (λ next. IsNext self.now now mark next.number × (next.begins ≡ by_clock.beginning self.now next.number)) }
    {
        let number = self.first_from(now)?.max(first_above(mark));
        if number >= u64::from(MOST_RUNS) {
            return None;
        }
        let number = number as u32;
        let begins = self.beginning(number)?;
        Some(NextRun { number, begins })
    }
}
