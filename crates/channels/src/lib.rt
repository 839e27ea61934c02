// The table of channels: each open or closed, with a receive and a send counter.
#![tactic(auto)]

ghost use Rattle.std.specs.Prelude.{◌≡◌};
ghost use Rattle.channels.specs.Table.{many, closed, fresh, all_closed, channel_at, put, counted, raised};

// "numbered 1 to 4": the one place of the code that says how many.
pub const CHANNELS: usize = 4;

// A channel that was never open has counters 0.
// `opened` beside the counters, and no Option of them: a closed channel keeps its own (the block for C has them too).
#[derive(Clone, Copy, PartialEq, Eq, Debug)]
pub struct Channel {
    pub opened: bool,
    pub receive: u8,
    pub send: u8,
}

#[derive(Clone, Copy, PartialEq, Eq, Debug)]
pub struct Table {
    pub channels: [Channel; CHANNELS],
}

impl Channel {
    // Beside `fresh`: two of the paper's words, each with its own wrong programs.
    fn closed() -> Channel
        ensures { result ≡ closed }
    {
        Channel {
            opened: false,
            receive: 0,
            send: 0,
        }
    }

    // "a fresh channel (counters 0; the caller names the open ones)"
    fn fresh() -> Channel
        ensures { result ≡ fresh }
    {
        Channel {
            opened: true,
            receive: 0,
            send: 0,
        }
    }

    // The channel with other counters.
    pub fn counted(self, receive: u8, send: u8) -> Channel
        ensures { result ≡ counted self receive send }
    {
        Channel {
            receive,
            send,
            ..self
        }
    }
}

impl Table {
    pub fn all_closed() -> Table
        ensures { result.channels ≡ all_closed many }
    {
        Table {
            channels: [Channel::closed(); CHANNELS],
        }
    }

    // The channel of a number; one that is no channel's is closed.
    pub fn channel_at(self, number: u8) -> Channel
        ensures { result ≡ channel_at self.channels number }
    {
        let Some(at) = number.checked_sub(1) else {
            return Channel::closed();
        };
        // An index, and no `get`: an Option<&Channel> is misread on the 32-bit boards (tools/library-for).
        if (at as usize) < CHANNELS {
            self.channels[at as usize]
        } else {
            Channel::closed()
        }
    }

    // The table with another channel under a number; as it was where the number is no channel's.
    pub fn put(mut self, number: u8, channel: Channel) -> Table
        ensures { result.channels ≡ put self.channels number channel }
    {
        if let Some(at) = number.checked_sub(1)
            && (at as usize) < CHANNELS
        {
            self.channels[at as usize] = channel;
        }
        self
    }

    // The table with a channel that the caller names opened, counters 0.
    pub fn opened(self, number: u8) -> Table
        ensures { result.channels ≡ put self.channels number fresh }
    {
        self.put(number, Channel::fresh())
    }
}

// "raised by one, 255 going to 0"
#[tactic(auto, unfolding(crate::specs::Table::raised))]
pub fn raised(counter: u8) -> u8
    ensures { result ≡ raised counter }
{
    counter.wrapping_add(1)
}
