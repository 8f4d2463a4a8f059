//! What two sides agreed on as they opened a channel.

use ln_keys::Role;

/// No channel has more funds, in satoshi.
pub const MOST_SATOSHIS: u64 = 2_100_000_000_000_000;

/// No side accepts more HTLCs at a time (BOLT 2, "Rationale" of `open_channel`: `max_accepted_htlcs`).
pub const MOST_HTLCS: u16 = 483;

/// What a side asks of the HTLCs that it is offered (BOLT 2, "The `open_channel` Message" and "The
/// `accept_channel` Message").
#[derive(Clone, Copy, PartialEq, Eq)]
pub struct Limits {
    /// `htlc_minimum_msat`: no HTLC of less, in millisatoshi.
    pub minimum: u64,
    /// `max_accepted_htlcs`: no more live HTLCs than these.
    pub accepted: u16,
    /// `max_htlc_value_in_flight_msat`: live HTLCs of no more than this together, in millisatoshi.
    pub in_flight: u64,
    /// `channel_reserve_satoshis`: what the offerer keeps, in satoshi.
    pub reserve: u64,
}

/// What both sides agreed on.
#[derive(Clone, Copy, PartialEq, Eq)]
pub struct Opening {
    /// `funding_satoshis`: what the funder paid in, 1 to 2,100,000,000,000,000 satoshi.
    pub satoshis: u64,
    /// `push_msat`: what of it the fundee has at first, in millisatoshi.
    pub push: u64,
    /// `feerate_per_kw`, until an update changes it.
    pub feerate: u32,
    /// What the funder asks of the fundee's HTLCs.
    pub funder: Limits,
    /// What the fundee asks of the funder's HTLCs.
    pub fundee: Limits,
}

impl Opening {
    ghost use Rattle.std.specs.Prelude.{◌≡◌, ◌↔◌, IsTrue};
    ghost use Rattle.ln_log.specs.Opening.{HasFunds, IsFit, is_fit, limits_of, first_balance};

    /// Whether a channel may open so: `funding_satoshis` is 1 to 2,100,000,000,000,000, `push_msat` is
    /// at most 1000 times that, and neither side accepts more than 483 HTLCs (BOLT 2, "Requirements" of
    /// `open_channel`).
    pub fn is_fit(&self) -> bool
        ensures tells_whether_it_is_fit { IsTrue result ↔ IsFit self.now }
        ensures is_the_test { result ≡ is_fit self.now }
    {
        self.has_funds() && self.funder.accepted <= MOST_HTLCS && self.fundee.accepted <= MOST_HTLCS
    }

    /// Whether there can be a channel with these funds: `funding_satoshis` is 1 to 2,100,000,000,000,000, and
    /// `push_msat` is at most 1000 times that.
    pub fn has_funds(&self) -> bool
        ensures { IsTrue result ↔ HasFunds self.now }
    {
        self.satoshis >= 1 && self.satoshis <= MOST_SATOSHIS && self.push <= 1000 * self.satoshis
    }

    /// The limits that HTLCs of this side have to meet: those that the other side asks for.
    pub fn limits_of(&self, offerer: Role) -> Limits
        ensures { result ≡ limits_of self.now offerer }
    {
        match offerer {
            Role::Funder => self.fundee,
            Role::Fundee => self.funder,
        }
    }

    /// What a side has before any update, in millisatoshi.
    pub fn first_balance(&self, side: Role) -> u64
        requires { HasFunds self.now }
        ensures { result ≡ first_balance self.now side }
    {
        match side {
            Role::Funder => 1000 * self.satoshis - self.push,
            Role::Fundee => self.push,
        }
    }
}
