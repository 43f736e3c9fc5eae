// What a time comes to.
use std::fmt;
use std::time::{Duration, Instant};

// What a piece of work gives, and how long it takes.
pub fn timed<T: Drop, F: FnOnce() -> T>(rt: &HostRuntime, work: F) -> anyhow::Result<(T, Duration)>
    requires { F.pre work }
{
    let start = Instant::now(rt)?;
    let done = work();
    Ok((done, start.elapsed(rt)?))
}

// So many rounds, each with a text of so many bytes.
#[derive(Clone, Copy)]
pub struct Timing<'n> {
    pub name: &'n str,
    pub bytes: usize,
    pub rounds: u32,
    pub spent: Duration,
}

// Nanoseconds a byte and a text.
impl fmt::Display for Timing<'_> {
    fn fmt<W: fmt::Write>(&self, f: &mut fmt::Formatter<W>) -> fmt::Result {
        let spent = self.spent.as_nanos();
        let rounds = u128::from(self.rounds);
        let all = rounds.saturating_mul(self.bytes as u128);
        let thousandths = spent.saturating_mul(1000).checked_div(all).unwrap_or(0);
        let whole = thousandths / 1000;
        let rest = thousandths % 1000;
        let each = spent.checked_div(rounds).unwrap_or(0);
        let name = self.name;
        let bytes = self.bytes;
        write!(
            f,
            "{name} {bytes}: {whole}.{rest:03} ns a byte, {each} ns a text"
        )
    }
}
