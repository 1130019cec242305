//! Digests of texts.

/// A digest of all texts that were put in, in their order.
#[derive(Drop)]
pub struct Digest {
    state: u64,
}

impl Digest {
    /// Of no text.
    pub fn new() -> Digest {
        Digest {
            state: 0xcbf2_9ce4_8422_2325,
        }
    }

    /// Puts a text in, eight bytes at a time.
    pub fn put(&mut self, text: &[u8]) {
        let mut state = self.state;
        for part in text.chunks(8) {
            state = mixed(state, word_of(part));
        }
        self.state = mixed(state, text.len() as u64);
    }

    /// The digest.
    pub fn value(&self) -> u64 {
        self.state
    }
}

fn mixed(state: u64, word: u64) -> u64 {
    (state ^ word)
        .wrapping_mul(0x0000_0100_0000_01b3)
        .rotate_left(29)
}

/// The number that up to eight bytes are.
fn word_of(part: &[u8]) -> u64 {
    if let [a, b, c, d, e, f, g, h] = part {
        return u64::from_le_bytes([*a, *b, *c, *d, *e, *f, *g, *h]);
    }
    let mut word = 0;
    for byte in part {
        word = word << 8 | u64::from(*byte);
    }
    word
}
