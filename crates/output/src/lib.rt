// Bytes written one after another into a lent buffer.
#![tactic(auto)]

ghost use Rattle.std.specs.Prelude.{◌≡◌, [], ◌∷◌, length};
ghost use Rattle.output.specs.Puts.{Room, Puts, Holds};

// A lent buffer, and the place behind the bytes that were written. Any place may be given, also past the buffer: `Room` is asked where bytes are written.
#[derive(Drop)]
pub struct Output<'a> {
    pub buffer: &'a mut [u8],
    pub end: usize,
}

impl<'a> Output<'a> {
    // Nothing is written yet.
    pub fn new(buffer: &'a mut [u8]) -> Output<'a>
        ensures same_reference { result.buffer.ghost_name ≡ buffer.entry.ghost_name }
        ensures empty { Holds result buffer.old 0 }
    {
        Output { buffer, end: 0 }
    }

    pub fn put_byte(&mut self, byte: u8)
        requires { Room 1 self.old }
        ensures { Puts self.old (byte ∷ []) self.new }
    {
        self.buffer[self.end] = byte;
        self.end += 1;
    }

    pub fn put(&mut self, bytes: &[u8])
        requires { Room (length bytes.now) self.old }
        ensures { Puts self.old bytes.now self.new }
    {
        let end = self.end + bytes.len();
        self.buffer[self.end..end].copy_from_slice(bytes);
        self.end = end;
    }
}
