//! The refused commands that a session has to pay for before it has a turn again.
ghost use Rattle.std.specs.Prelude.{◌≡◌, ◌<◌, ◌+◌, ◌^◌};
ghost use Rattle.cf_serve.specs.Debt.{debt_with, must_rest, no_debt, paid, second_of};

/// How many refused commands each second pays for. This project's own choice.
const PAID_A_SECOND: u64 = 100;

/// How many microseconds a second has.
const SECOND_MICROS: u64 = 1_000_000;

/// What a session owes: how many refused commands were to pay for, and in which second of the clock that was.
#[derive(Clone, Copy)]
pub(crate) struct Debt {
    pub(crate) owed: u64,
    pub(crate) at: u64,
}

/// The second in which a moment lies.
fn second_of(moment: u64) -> u64
    ensures { result ≡ second_of moment }
{
    moment / SECOND_MICROS
}

impl Debt {
    /// Of a session of which nothing was refused.
    pub(crate) fn none() -> Debt
        ensures { result ≡ no_debt }
    {
        Debt { owed: 0, at: 0 }
    }

    /// What is left to pay at a moment.
    fn paid(&self, moment: u64) -> u64
        ensures { result ≡ paid self.now moment }
    {
        let seconds = second_of(moment).saturating_sub(self.at);
        self.owed
            .saturating_sub(seconds.saturating_mul(PAID_A_SECOND))
    }

    /// Whether it is too much for a turn at a moment.
    pub(crate) fn must_rest(&self, moment: u64) -> bool
        ensures { result ≡ must_rest self.now moment }
    {
        self.paid(moment) >= PAID_A_SECOND
    }

    /// Adds the commands that were refused in a turn.
    pub(crate) fn add(&mut self, moment: u64, refused: u64)
        requires room { paid self.old moment + refused < 2 ^ 64 }
        ensures { self.new ≡ debt_with self.old moment refused }
    {
        if refused == 0 {
            return;
        }
        self.owed = self.paid(moment) + refused;
        self.at = self.at.max(second_of(moment));
    }
}
