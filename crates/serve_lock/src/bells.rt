//! The sleeping writers that must be woken.
ghost use Rattle.std.specs.Prelude.{◌≡◌, ◌==◌, ◌<◌, ◌%◌, ◌&&◌, ◌||◌, not, ℕ, length, true, false, IfSome, IfNone};
ghost use Rattle.std.specs.Int.{bit_at};
ghost use Rattle.serve_lock.specs.Ringing.{is_set};

use router_trace::ConnectionId;

/// The number of bells beside the lock.
pub const BELLS: usize = 256;

/// A bit for each bell.
#[derive(Clone, Copy)]
pub struct Bells {
    words: [u64; 4],
    ghost four: { length words ≡ 4 },
}

/// The bell of a connection's writer. Connections whose numbers are 256 apart share one; a writer that is woken in vain sleeps on.
pub fn bell_of(conn: ConnectionId) -> usize
    ensures bell { result ≡ conn.0 % 256 }
    ensures below { result < 256 }
{
    (conn.0 % 256) as usize
}

impl Bells {
    /// No bell.
    pub(crate) fn none() -> Bells
        ensures { (b : ℕ) → is_set result.words b ≡ false }
    {
        Bells { words: [0; 4] }
    }

    /// All bells.
    pub(crate) fn all() -> Bells
        ensures { (b : ℕ) → b < 256 → is_set result.words b ≡ true }
    {
        Bells {
            words: [u64::MAX; 4],
        }
    }

    /// Whether there is none.
    pub(crate) fn is_empty(&self) -> bool
        ensures { result ≡ true → (b : ℕ) → is_set self.now.words b ≡ false }
    {
        self.words == [0; 4]
    }

    /// Whether this bell is one of them.
    fn has(&self, bell: usize) -> bool
        requires { bell < 256 }
        ensures { result ≡ is_set self.now.words bell }
    {
        self.words[bell / 64] >> (bell % 64) & 1 == 1
    }

    /// Adds a bell.
    pub(crate) fn add(&mut self, bell: usize)
        requires { bell < 256 }
        ensures { (b : ℕ) → is_set self.new.words b ≡ (bell == b || is_set self.old.words b) }
    {
        self.words[bell / 64] |= 1 << (bell % 64);
    }

    /// Takes a bell away.
    fn remove(&mut self, bell: usize)
        requires { bell < 256 }
        ensures { (b : ℕ) → is_set self.new.words b ≡ (not (bell == b) && is_set self.old.words b) }
    {
        self.words[bell / 64] &= !(1 << (bell % 64));
    }

    /// Takes one bell away, and gives it; none where there is none.
    pub fn pop(&mut self) -> Option<usize>
        ensures taken { IfSome result (λ bell. (bell < 256) × (is_set self.old.words bell ≡ true) × ((b : ℕ) → is_set self.new.words b ≡ (not (bell == b) && is_set self.old.words b))) }
        ensures none { IfNone result ((b : ℕ) → b < 256 → is_set self.old.words b ≡ false) }
    {
        for place in 0..4 {
            if let Some(bit) = lowest_bit(self.words[place]) {
                let bell = place * 64 + bit as usize;
                self.remove(bell);
                return Some(bell);
            }
        }
        None
    }

    /// Moves a bell to `others`, if it is one of these.
    pub(crate) fn give(&mut self, others: &mut Bells, bell: usize)
        requires { bell < 256 }
        ensures left { (b : ℕ) → is_set self.new.words b ≡ (not (bell == b) && is_set self.old.words b) }
        ensures given { (b : ℕ) → is_set others.new.words b ≡ ((bell == b && is_set self.old.words b) || is_set others.old.words b) }
    {
        if self.has(bell) {
            self.remove(bell);
            others.add(bell);
        }
    }
}

/// The place of the lowest bit of a word that is set.
fn lowest_bit(word: u64) -> Option<u32>
    ensures bit { IfSome result (λ bit. (bit < 64) × (bit_at word bit ≡ 1)) }
    ensures none { IfNone result (word ≡ 0) }
{
    if word == 0 {
        return None;
    }
    Some(word.trailing_zeros())
}
