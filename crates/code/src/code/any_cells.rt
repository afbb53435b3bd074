// Re-encoding and decoding from any symbols and values, whatever their number and cells: what is not there counts as 0.
ghost use Rattle.std.specs.Prelude.{◌≡◌, ℕ, map, replicate, MatchOption, nat_eq};
ghost use Rattle.terms.specs.Answers.{Answered};
ghost use Rattle.terms.specs.Items.{items};
ghost use Rattle.terms.specs.Limits.{max_servers};
ghost use Rattle.terms.specs.Sets.{member};
ghost use Rattle.code.specs.Codings.{re_encoded, value_at};
ghost use Rattle.code.specs.Meaning.{meaning};
ghost use Rattle.code.specs.Recovery.{Recovers, Decoded};
ghost use Rattle.code.specs.Refusing.{place_refusal, recovers_refusal};

use super::Code;
use field::interface::Field;
use terms::bounded::Cells;
use terms::limits::MAX_SERVERS;
use terms::refusal::Refusal;
use terms::servers::ServerSet;

impl<F: Field + Copy> Code<F> {
    // A server's symbol where the value of an object turns from old to new.
    pub fn exchange(
        &self,
        server: usize,
        object: usize,
        symbol: &Cells,
        old: &Cells,
        new: &Cells,
    ) -> Result<Cells, Refusal>
        ensures re_encoded_or_refused { Answered (place_refusal (meaning F.arithmetic self.now) server object) (λ v. items v ≡ re_encoded (meaning F.arithmetic self.now) server object (items symbol.now) (items old.now) (items new.now)) result }
    {
        self.check_place(server, object)?;
        Ok(self.turned(server, object, symbol, old, new))
    }

    // The value of the object, from a symbol for each server, if the servers of the set recover it.
    pub fn decode_any(
        &self,
        set: &ServerSet,
        symbols: &[Cells],
        object: usize,
    ) -> Result<Option<Cells>, Refusal>
        ensures decoded_or_refused { Answered (recovers_refusal (meaning F.arithmetic self.now) (member set.now) object) (λ o. MatchOption o (Recovers (meaning F.arithmetic self.now) (member set.now) object → ⊥) (λ v. Recovers (meaning F.arithmetic self.now) (member set.now) object × Decoded (meaning F.arithmetic self.now) (member set.now) (value_at (map items symbols.now)) object (items v))) result }
    {
        self.check_set(set, object)?;
        Ok(self.decoded(set, symbols, object))
    }

    // The value of the object from the symbol of one server, if that server alone recovers it.
    pub fn decode_alone(
        &self,
        server: usize,
        symbol: &Cells,
        object: usize,
    ) -> Result<Option<Cells>, Refusal>
        ensures decoded_or_refused { Answered (place_refusal (meaning F.arithmetic self.now) server object) (λ o. MatchOption o (Recovers (meaning F.arithmetic self.now) (λ j. nat_eq j server) object → ⊥) (λ v. Recovers (meaning F.arithmetic self.now) (λ j. nat_eq j server) object × Decoded (meaning F.arithmetic self.now) (λ j. nat_eq j server) (λ _. items symbol.now) object (items v))) result }
    {
        let alone = ServerSet::empty().with(server)?;
        self.decode_any(&alone, &copies(symbol), object)
    }
}

// The symbol once for each server.
fn copies(symbol: &Cells) -> [Cells; MAX_SERVERS]
    ensures { result ≡ replicate max_servers symbol.now }
{
    [*symbol; MAX_SERVERS]
}
