// Which waiting write is applied next.
ghost use Rattle.std.specs.Prelude.{◌≡◌, ℕ, ◌<◌, ◌≤◌, length, slice_index};
ghost use Rattle.terms.specs.Lists.{every};
ghost use Rattle.waiting.specs.Writes.{write, writes, Inside, fits_count, ready, better_of, next_of};

use super::{Queue, Waiting};

impl Waiting {
    // Whether the count of the server j lets this write be applied.
    fn fits(&self, clock: &[u32], j: usize) -> bool
        ensures { result ≡ fits_count (λ i. slice_index clock.now i) (write self.now) j }
    {
        let own = clock.get(j).copied().unwrap_or(0);
        let count = self.clock.get_or(j, 0);
        if j == self.tag.server as usize {
            count as u64 == own as u64 + 1
        } else {
            count <= own
        }
    }

    // Whether the counts of all n servers let this write be applied.
    pub fn is_ready(&self, clock: &[u32], n: usize) -> bool
        ensures decided { result ≡ ready n (λ i. slice_index clock.now i) (write self.now) }
    {
        (0..n).all(|j| self.fits(clock, j))
    }
}

impl Queue {
    // The better of the best place so far and the place i.
    fn better(&self, clock: &[u32], n: usize, best: Option<usize>, i: usize) -> Option<usize>
        requires within { i < length (writes self.now) }
        requires best_within { Inside best (length (writes self.now)) }
        ensures place { result ≡ better_of n (λ i. slice_index clock.now i) (writes self.now) best i }
        ensures inside { Inside result (length (writes self.now)) }
    {
        let write = self.writes[i];
        if !write.is_ready(clock, n) {
            return best;
        }
        let Some(b) = best else {
            return Some(i);
        };
        if write.tag < self.writes[b].tag {
            Some(i)
        } else {
            best
        }
    }

    // The place of the lowest write that is ready.
    pub fn next_ready(&self, clock: &[u32], n: usize) -> Option<usize>
        ensures place { result ≡ next_of n (λ i. slice_index clock.now i) (writes self.now) (length (writes self.now)) }
        ensures inside { Inside result (length (writes self.now)) }
    {
        let mut best = None;
        for i in 0..self.writes.len() {
            best = self.better(clock, n, best, i);
        }
        best
    }
}
