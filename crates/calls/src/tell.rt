// What a call tells all other servers.
ghost use Rattle.std.specs.Prelude.{◌≡◌, ◌≤◌};
ghost use Rattle.std.specs.Option.{option_map};
ghost use Rattle.message.specs.Meanings.{meaning};
ghost use Rattle.rules.specs.Lanes.{free};
ghost use Rattle.calls.specs.News.{spread_news, HasRoom};
ghost use Rattle.calls.specs.Posting.{SameSizes};

use crate::post::Sender;
use carrier::lanes::Carrier;
use steps::turns::Turn;

impl Sender {
    // Posts the news of a turn, if there is any, to each other server.
    pub(crate) fn tell_all<C: Carrier, A: Copy>(self, carrier: &mut C, turn: Turn<A>)
        requires carried { self.servers ≤ C.n carrier.old }
        requires room { HasRoom (option_map meaning turn.news) (free (C.p carrier.old) (C.lanes carrier.old) self.from self.servers) }
        ensures lanes_after { C.lanes carrier.new ≡ spread_news (C.lanes carrier.old) self.from self.servers (option_map meaning turn.news) }
        ensures same_sizes { SameSizes C.n C.p carrier.new carrier.old }
    {
        if let Some(message) = turn.news {
            self.post_all(carrier, message);
        }
    }
}
