// What an acknowledgement is judged to be on its channel, and what it leaves there.
ghost use Rattle.std.specs.Prelude.{◌≡◌};
ghost use Rattle.exchange.specs.Confirming.{is_sent, channel_confirmed};
ghost use Rattle.exchange.specs.Stages.{confirmed_behind};

use crate::Confirmed;
use channels::Channel;
use frame::Refusal;

#[tactic(auto, unfolding(crate::specs::Confirming::is_sent))]
fn is_sent(channel: Channel, octets: &[u8]) -> bool
    ensures { result ≡ is_sent channel octets.now }
{
    octets::octet(octets, 8) == channel.send
}

// From the channel's tests on.
#[tactic(auto, unfolding(crate::specs::Stages::confirmed_behind))]
pub(crate) fn confirmed_behind(channel: Channel, octets: &[u8]) -> Result<Confirmed, Refusal>
    ensures { result ≡ confirmed_behind channel octets.now }
{
    if !channel.opened {
        return Err(Refusal::NotOpen);
    }
    if !is_sent(channel, octets) {
        return Err(Refusal::OtherCounter);
    }
    if 10 < octets.len() {
        return Err(Refusal::LeftOver);
    }
    if octets::octet(octets, 9) == 0 {
        Ok(Confirmed::Raised)
    } else {
        Ok(Confirmed::Kept)
    }
}

// Beside `channel_after` of receiving: another answer, another counter.
pub(crate) fn channel_confirmed(answer: Result<Confirmed, Refusal>, channel: Channel) -> Channel
    ensures { result ≡ channel_confirmed answer channel }
{
    if let Ok(Confirmed::Raised) = answer {
        channel.counted(channel.receive, channels::raised(channel.send))
    } else {
        channel
    }
}
