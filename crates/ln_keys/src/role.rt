//! The two sides of a channel.

/// Which side of a channel.
#[derive(Clone, Copy, PartialEq, Eq)]
pub enum Role {
    /// The side that opened the channel and paid for it.
    Funder,
    /// The other side.
    Fundee,
}

impl Role {
    ghost use Rattle.std.specs.Prelude.{◌≡◌};
    ghost use Rattle.ln_keys.specs.Role.{other_role};

    /// The other side.
    pub fn other(self) -> Role
        ensures { result ≡ other_role self }
    {
        match self {
            Role::Funder => Role::Fundee,
            Role::Fundee => Role::Funder,
        }
    }
}
