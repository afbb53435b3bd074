ghost use Rattle.std.specs.Prelude.{◌≡◌, ℕ, ◌<◌, Bool, false, cond, ◌&&◌, ◌||◌, ltb, Some, None, ◌==◌, nat_lt};
ghost use Rattle.terms.specs.Answers.{Answered, unless};
ghost use Rattle.terms.specs.declared.refusal.Refusal.TheVariants.{NoSuchServer};
ghost use Rattle.terms.specs.Limits.{max_servers};
ghost use Rattle.std.specs.List.{list_all};
ghost use Rattle.terms.specs.Sets.{member, among};

use super::ServerSet;
use crate::limits::MAX_SERVERS;
use crate::refusal::Refusal;
use std::array;

impl ServerSet {
    pub fn empty() -> ServerSet
        ensures nobody { (s : ℕ) → member result s ≡ false }
    {
        ServerSet {
            members: [false; MAX_SERVERS],
        }
    }

    // All servers that there may be.
    pub fn full() -> ServerSet
        ensures everybody { (s : ℕ) → member result s ≡ nat_lt s max_servers }
    {
        ServerSet {
            members: [true; MAX_SERVERS],
        }
    }

    // The set of the servers whose numbers pass the test.
    pub fn from_fn<F: Fn(usize) -> bool>(test: F) -> ServerSet
        requires callable { (s : ℕ) → s < max_servers → F.pre test s }
        ensures tested { (passes : ℕ → Bool) → ((s : ℕ) (b : Bool) → s < max_servers → F.post test s b → b ≡ passes s) → (s : ℕ) → member result s ≡ (nat_lt s max_servers && passes s) }
    {
        ServerSet {
            members: array::from_fn(
                |s| -> bool
                    requires { F.pre test s }
                    ensures { F.post test s result }
                { test(s) },
            ),
        }
    }

    // The set of the servers of a list, each below the most that a group may have.
    pub fn of(servers: &[usize]) -> Result<ServerSet, Refusal>
        ensures listed_or_refused { Answered (unless (list_all (λ s. ltb s max_servers) servers.now) NoSuchServer None) (λ set. (s : ℕ) → member set s ≡ among servers.now s) result }
    {
        let mut set = ServerSet::empty();
        for s in servers {
            set.add(*s)?;
        }
        Ok(set)
    }

    // The set and one server more.
    pub fn with(self, server: usize) -> Result<ServerSet, Refusal>
        ensures added_or_refused { Answered (unless (nat_lt server max_servers) NoSuchServer None) (λ set. (s : ℕ) → member set s ≡ (s == server || member self s)) result }
    {
        let mut set = self;
        set.add(server)?;
        Ok(set)
    }

    // Puts one server more into the set.
    fn add(&mut self, server: usize) -> Result<(), Refusal>
        ensures added_or_refused { Answered (unless (nat_lt server max_servers) NoSuchServer None) (λ _. (s : ℕ) → member self.new s ≡ (s == server || member self.old s)) result }
    {
        if server >= MAX_SERVERS {
            return Err(Refusal::NoSuchServer);
        }
        self.members[server] = true;
        Ok(())
    }

    pub fn has(&self, server: usize) -> bool
        ensures told { result ≡ member self.now server }
    {
        server < MAX_SERVERS && self.members[server]
    }
}
