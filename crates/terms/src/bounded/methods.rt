ghost use Rattle.std.specs.Prelude.{◌≡◌, ℕ, ◌+◌, ◌<◌, ◌≤◌, [], ◌∷◌, ◌++◌, length, MatchOption, nat_lt, slice_index_or};
ghost use Rattle.terms.specs.Items.{items};

use super::Bounded;

impl<T: Copy, const MAX: usize> Bounded<T, MAX> {
    // The empty list; `fill` stands in the places that are not in use.
    pub fn new(fill: T) -> Self
        ensures empty { items result ≡ [] }
    {
        Bounded {
            len: 0,
            places: [fill; MAX],
        }
    }

    pub fn len(&self) -> usize
        ensures counted { result ≡ length (items self.now) }
    {
        self.as_slice().len()
    }

    pub fn as_slice(&self) -> &[T]
        ensures shown { result.now ≡ items self.now }
    {
        let all = &self.places[..];
        &all[..self.len]
    }

    // The item at i, or `other` past the end.
    pub fn get_or(&self, i: usize, other: T) -> T
        ensures found { result ≡ slice_index_or (items self.now) i other }
    {
        self.as_slice().get(i).copied().unwrap_or(other)
    }

    // The list of n items, each made from its place; `fill` stands in the places that are left.
    pub fn from_fn<F: Fn(usize) -> T>(fill: T, n: usize, make: F) -> Self
        requires fits { n ≤ MAX }
        requires callable { (i : ℕ) → i < n → F.pre make i }
        ensures counted { length (items result) ≡ n }
        ensures made { (i : ℕ) → i < n → F.post make i (slice_index_or (items result) i fill) }
    {
        let mut all = Bounded::new(fill);
        for i in 0..n {
            all.append(make(i));
        }
        all
    }

    // Adds the items of `more` at the end.
    pub fn extend_from_slice(&mut self, more: &[T])
        requires { length (items self.old) + length more.now ≤ MAX }
        ensures added { items self.new ≡ items self.old ++ more.now }
    {
        let end = self.len + more.len();
        let all = &mut self.places[..];
        all[self.len..end].copy_from_slice(more);
        self.len = end;
    }

    // Adds an item at the end, and answers true; a full list stays as it is.
    pub fn push(&mut self, x: T) -> bool
        ensures room { result ≡ nat_lt (length (items self.old)) MAX }
        ensures added { length (items self.old) < MAX → items self.new ≡ items self.old ++ x ∷ [] }
        ensures full_unchanged { MAX ≤ length (items self.old) → items self.new ≡ items self.old }
    {
        if self.len() >= MAX {
            return false;
        }
        self.append(x);
        true
    }

    fn append(&mut self, x: T)
        requires { length (items self.old) < MAX }
        ensures { items self.new ≡ items self.old ++ x ∷ [] }
    {
        self.places[self.len] = x;
        self.len += 1;
    }

    // The items of `s`, if there are not too many; `fill` stands in the places that are left.
    pub fn from_slice(fill: T, s: &[T]) -> Option<Self>
        ensures whole_or_none { MatchOption result (MAX < length s.now) (λ b. items b ≡ s.now) }
    {
        if s.len() > MAX {
            return None;
        }
        let mut all = Bounded::new(fill);
        all.extend_from_slice(s);
        Some(all)
    }
}
