// What a server keeps, looked up. Past the last server, object or place there is zero, or nothing.
ghost use Rattle.std.specs.Prelude.{◌≡◌, length, slice_index_or};
ghost use Rattle.terms.specs.Items.{items};
ghost use Rattle.message.specs.Tags.{zero_tag};
ghost use Rattle.history.specs.Entries.{entries};
ghost use Rattle.reads.specs.Readings.{reads};
ghost use Rattle.waiting.specs.Writes.{writes};
ghost use Rattle.server.specs.Servers.{server};

use super::{Server, Told};
use history::history::History;
use message::tag::Tag;
use reads::reads::Reads;
use terms::bounded::Cells;
use waiting::waiting::Queue;

impl Told {
    // The tag that the server j told.
    fn tag_of(&self, j: usize) -> Tag
        ensures { result ≡ slice_index_or self.now.tags j zero_tag }
    {
        self.tags.get(j).copied().unwrap_or(Tag::zero())
    }
}

impl Server {
    // How many writes of the server j are applied.
    pub fn count_of(&self, j: usize) -> u32
        ensures counted { result ≡ (server self.now).clock j }
    {
        self.clock.get(j).copied().unwrap_or(0)
    }

    // The greatest height applied.
    pub fn top(&self) -> u32
        ensures told { result ≡ (server self.now).top }
    {
        self.top
    }

    pub fn symbol(&self) -> Cells
        ensures told { items result ≡ (server self.now).symbol }
    {
        self.symbol
    }

    // The own tag of an object.
    pub fn own_tag(&self, object: usize) -> Tag
        ensures told { result ≡ (server self.now).own object }
    {
        self.own.get(object).copied().unwrap_or(Tag::zero())
    }

    // The tag of an object that the server j told last.
    pub fn told_tag(&self, object: usize, j: usize) -> Tag
        ensures told { result ≡ (server self.now).told object j }
    {
        self.told
            .get(object)
            .map_or(Tag::zero(), |told| told.tag_of(j))
    }

    pub fn history(&self) -> &History
        ensures told { entries result.now ≡ (server self.now).history }
    {
        &self.history
    }

    pub fn waiting(&self) -> &Queue
        ensures told { writes result.now ≡ (server self.now).waiting }
    {
        &self.waiting
    }

    pub fn reads(&self) -> &Reads
        ensures told { reads result.now ≡ (server self.now).reads }
    {
        &self.reads
    }

    // How many reads were opened: the number of the last.
    pub fn opened(&self) -> u32
        ensures told { result ≡ (server self.now).opened }
    {
        self.opened
    }
}
