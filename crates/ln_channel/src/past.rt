//! A link that comes back from its record takes over what the link before had.

use crate::channel::Channel;
use crate::machine::{ChannelMachine, Stage};
use ln_keys::ChannelKeys;

impl Channel {
    ghost use Rattle.std.specs.Prelude.{◌≡◌};
    ghost use Rattle.ln_dance.specs.Past.{IsReadOf};
    ghost use Rattle.ln_channel.specs.Past.{with_past};

    // The updates that aren't had one by one any more are those of another end, of which a record tells the same.
    fn take_past_of(&mut self, other: &Channel)
        requires { IsReadOf self.old.dance.log other.now.dance.log }
        ensures state { self.new ≡ with_past other.now self.old }
    {
        self.dance.take_past_of(&other.dance);
    }
}

impl Stage {
    ghost use Rattle.std.specs.Prelude.{◌≡◌};
    ghost use Rattle.ln_channel.specs.Past.{stage_after, end_after, IsStageOf, IsEndOf};

    // Where both have signed the opening.
    fn take_past_of(&mut self, other: &Stage)
        requires { IsStageOf other.now self.old }
        ensures state { self.new ≡ stage_after other.now self.old }
    {
        match self {
            Stage::Funded(channel) => match other {
                Stage::Funded(other) => channel.take_past_of(other),
                _ => {}
            },
            _ => {}
        }
    }
}

impl<K: ChannelKeys + Drop> ChannelMachine<K> {
    ghost use Rattle.std.specs.Prelude.{◌≡◌};
    ghost use Rattle.ln_channel.specs.Past.{link_after, IsStageOf};

    /// A link that was loaded of another one's record takes over the updates that aren't had one by one any more:
    /// `Dance::take_past_of`. It does nothing at run time.
    pub fn take_past_of(&mut self, other: &ChannelMachine<K>)
        requires { IsStageOf other.now.stage self.old.stage }
        ensures state { self.new ≡ link_after other.now self.old }
    {
        self.stage.take_past_of(&other.stage);
    }
}
