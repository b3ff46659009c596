// The line so far: no more than 40 of its bytes are kept, in place.
ghost use Rattle.std.specs.Prelude.{◌≡◌, ◌↔◌, IsTrue, List, [], ◌++◌, ℕ};
ghost use Rattle.lines.specs.Lines.{Buffered};

// The first bytes of a line, as many as a frame has, and how many bytes the line has: 41 stands for
// every length past 40, so that a longer line costs no memory.
#[derive(Clone, Copy)]
pub struct Line {
    pub text: [u8; 40],
    pub len: usize,
}

impl Line {
    // A line with no bytes.
    pub fn new() -> Line
        ensures { Buffered result [] }
    {
        Line {
            text: [0; 40],
            len: 0,
        }
    }

    pub fn is_empty(&self) -> bool
        ensures { (l : List ℕ) → Buffered self.now l → IsTrue result ↔ l ≡ [] }
    {
        self.len == 0
    }

    // Bytes more, none of them a line feed. They are copied together, so that the length is read and
    // written once. Where there are none, as before the end of an empty line, a copy would only cost its call.
    pub fn add_bytes(&mut self, bytes: &[u8])
        ensures { (l : List ℕ) → Buffered self.old l → Buffered self.new (l ++ bytes.now) }
    {
        if bytes.is_empty() {
            return;
        }
        if self.len < 40 {
            let kept = bytes.len().min(40 - self.len);
            self.text[self.len..self.len + kept].copy_from_slice(&bytes[..kept]);
        }
        self.len = self.len.saturating_add(bytes.len()).min(41);
    }

    // The next line begins.
    pub fn clear(&mut self)
        ensures { Buffered self.new [] }
    {
        self.len = 0;
    }
}
