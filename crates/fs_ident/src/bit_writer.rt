//! Codes of numbers, written into bytes.
ghost use Rattle.std.specs.Prelude.{◌≡◌, ◌+◌, ◌*◌, ◌/◌, ◌^◌, ◌<◌, ◌≤◌, ℕ, [], ◌∷◌, length, take, ◌++◌};
ghost use Rattle.fs_ident.specs.Ident.{IsNumber};
ghost use Rattle.fs_ident.specs.Packed.{binary, gamma, padded, bytes_of};
ghost use Rattle.fs_ident.specs.Bits.{written, count_of, IsReady};

/// Room for the codes of 33 numbers, each of at most 63 bits.
const ROOM: usize = 260;

/// Bits in a row: those of whole bytes, and fewer than eight that wait for theirs.
#[derive(Drop)]
pub(crate) struct BitWriter {
    room: [u8; ROOM],
    whole: usize,
    word: u64,
    pending: u32,
}

impl BitWriter {
    /// No bits.
    pub(crate) fn new() -> BitWriter
        ensures none { written result ≡ [] }
        ensures count { count_of result ≡ 0 }
        ensures ready { IsReady result }
    {
        BitWriter {
            room: [0; ROOM],
            whole: 0,
            word: 0,
            pending: 0,
        }
    }

    /// Adds the lowest digits of a number, so many of them.
    fn put(&mut self, value: u32, width: u32)
        requires ready { IsReady self.old }
        requires few { width ≤ 32 }
        requires fits { value < 2 ^ width }
        requires room { count_of self.old + width ≤ 2080 }
        ensures bits { written self.new ≡ written self.old ++ binary width value }
        ensures count { count_of self.new ≡ count_of self.old + width }
        ensures ready { IsReady self.new }
    {
        let word = (self.word << width) + u64::from(value);
        let pending = self.pending + width;
        for k in 0..pending / 8 {
            self.put_byte(((word >> (pending - 8 * (k + 1))) % 256) as u8);
        }
        self.pending = pending % 8;
        self.word = word % (1 << self.pending);
    }

    /// Adds a whole byte before the bits that wait.
    fn put_byte(&mut self, byte: u8)
        requires { self.old.whole < 260 }
        ensures bytes { take self.new.whole self.new.room ≡
            take self.old.whole self.old.room ++ byte ∷ [] }
        ensures whole { self.new.whole ≡ self.old.whole + 1 }
        ensures pending { self.new.pending ≡ self.old.pending }
    {
        self.room[self.whole] = byte;
        self.whole += 1;
    }

    /// Adds the code of a number.
    pub(crate) fn put_code(&mut self, n: u32)
        requires ready { IsReady self.old }
        requires number { IsNumber n }
        requires room { count_of self.old + 63 ≤ 2080 }
        ensures bits { written self.new ≡ written self.old ++ gamma n }
        ensures count { count_of self.new ≤ count_of self.old + 63 }
        ensures ready { IsReady self.new }
    {
        let zeros = n.ilog2();
        self.put(0, zeros);
        self.put(n, zeros + 1);
    }

    /// Adds zeros up to a whole byte.
    pub(crate) fn pad(&mut self)
        requires { IsReady self.old }
        ensures bits { written self.new ≡ padded (written self.old) }
        ensures whole { self.new.pending ≡ 0 }
        ensures ready { IsReady self.new }
    {
        self.put(0, (8 - self.pending) % 8);
    }

    /// The bytes of the bits.
    pub(crate) fn bytes(&self) -> &[u8]
        requires ready { IsReady self.now }
        requires whole { self.now.pending ≡ 0 }
        ensures { result.now ≡ bytes_of (length (written self.now) / 8) (written self.now) }
    {
        let room: &[u8] = &self.room;
        &room[..self.whole]
    }
}
