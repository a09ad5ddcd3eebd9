// Lent pages, and bytes on them behind those that stand there. A full page takes no more.
ghost use Rattle.std.specs.Prelude.{[], ◌∷◌, ◌≡◌, ◌≤◌, length, min, take};

// A lent page, and the place where the next byte goes.
#[derive(Drop)]
pub struct Page<'a> {
    bytes: &'a mut [u8],
    at: usize,
    ghost inside: { at ≤ length bytes.now },
}

impl<'a> Page<'a> {
    ghost use Rattle.printing.specs.Pages.{Wrote};

    // A page on which nothing stands yet.
    pub fn new(bytes: &'a mut [u8]) -> Page<'a>
        ensures same_bytes { result.bytes.ghost_name ≡ bytes.entry.ghost_name }
        ensures as_lent { result.bytes.now ≡ bytes.old }
        ensures empty { result.at ≡ 0 }
    {
        Page { bytes, at: 0 }
    }

    // A page on which so many bytes stand, as they were lent; where there are no more than that, it is full.
    #[inline]
    pub fn behind(bytes: &'a mut [u8], at: usize) -> Page<'a>
        ensures same_bytes { result.bytes.ghost_name ≡ bytes.entry.ghost_name }
        ensures as_lent { result.bytes.now ≡ bytes.old }
        ensures filled { result.at ≡ min at (length bytes.old) }
    {
        Page {
            at: at.min(bytes.len()),
            bytes,
        }
    }

    // What stands there.
    pub fn written(&self) -> &[u8]
        ensures { result.now ≡ take self.now.at self.now.bytes.now }
    {
        &self.bytes[..self.at]
    }

    // One byte.
    #[inline(always)]
    pub fn put_byte(&mut self, b: u8)
        ensures { Wrote (b ∷ []) self.old self.new }
    {
        if self.at < self.bytes.len() {
            self.bytes[self.at] = b;
            self.at += 1;
        }
    }

    // A text.
    pub fn put_bytes(&mut self, text: &[u8])
        ensures { Wrote text.now self.old self.new }
    {
        for &b in text {
            self.put_byte(b);
        }
    }
}
