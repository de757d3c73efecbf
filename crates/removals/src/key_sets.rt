// Sets of keys, ascending.
ghost use Rattle.std.specs.Prelude.{◌≡◌, Some, List, [], ◌∷◌, ◌++◌, ℕ, ◌≤◌, ◌<◌, length};
ghost use Rattle.limits.specs.Limits.{key_limit};
ghost use Rattle.removals.specs.Model.{keys_of, keys_as};
ghost use Rattle.removals.specs.Waits.{listed, union_keys};
ghost use Rattle.removals.specs.Counted.{united_as};

use crate::Keys;
use limits::KEYS;

impl Keys {
    pub fn new() -> Keys
        ensures { result ≡ keys_as [] }
    {
        Keys {
            items: [0; KEYS],
            len: 0,
        }
    }

    pub fn size(self) -> usize
        ensures { (result ≡ length (keys_of self)) × (result ≤ key_limit) }
    {
        self.len.min(KEYS)
    }

    // The keys in use.
    pub fn as_slice(&self) -> &[u32]
        ensures { result.now ≡ keys_of self.now }
    {
        &self.items[..self.size()]
    }

    // One key more behind the last.
    pub fn push(self, key: u32) -> Keys
        requires { self.len < key_limit }
        ensures { (l : List ℕ) → self ≡ keys_as l → result ≡ keys_as (l ++ (key ∷ [])) }
    {
        let mut out = self;
        let k = out.len;
        out.items[k] = key;
        out.len = k + 1;
        out
    }

    pub fn contains(self, key: u32) -> bool
        ensures { result ≡ listed (keys_of self) key }
    {
        self.as_slice().contains(&key)
    }

    // Both sets as one, or `None` where that is over the limit.
    pub fn union(self, other: Keys) -> Option<Keys>
        ensures { result ≡ united_as (union_keys (keys_of self) (keys_of other)) }
    {
        let xs = self.as_slice();
        let ys = other.as_slice();
        let mut out = Keys::new();
        let mut i: usize = 0;
        let mut j: usize = 0;
        // A `while`: each of the two is walked at its own pace.
        while i < xs.len() && j < ys.len() {
            let x = xs[i];
            let y = ys[j];
            if x < y {
                out = out.grow(x)?;
                i += 1;
            } else if y < x {
                out = out.grow(y)?;
                j += 1;
            } else {
                out = out.grow(x)?;
                i += 1;
                j += 1;
            }
        }
        out.trail(&xs[i..])?.trail(&ys[j..])
    }

    // One key more behind the last, or `None` over the limit.
    fn grow(self, key: u32) -> Option<Keys>
        ensures { (l : List ℕ) → Some self ≡ united_as l → result ≡ united_as (l ++ (key ∷ [])) }
    {
        if self.len < KEYS {
            Some(self.push(key))
        } else {
            None
        }
    }

    // More keys behind the last, or `None` over the limit.
    fn trail(self, rest: &[u32]) -> Option<Keys>
        ensures { (l : List ℕ) → Some self ≡ united_as l → result ≡ united_as (l ++ rest.now) }
    {
        let mut out = self;
        for k in rest {
            out = out.grow(*k)?;
        }
        Some(out)
    }
}
