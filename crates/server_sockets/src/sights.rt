//! What is seen of a login in the bytes that the server's end writes.

ghost use Rattle.server_sockets.specs.Sights.{new_sight, seen, seen_byte, seen_header, seen_payload};
ghost use Rattle.std.specs.Prelude.{◌≡◌, ◌<◌, false};

use std::marker::Model;

/// What was seen of the packets so far: the place in the present one, and whether the login is over, which it is with the
/// first OK.
#[derive(Drop)]
pub struct Sight {
    head: u8,
    size: u32,
    left: u32,
    is_first: bool,
    is_over: bool,
}

impl Model for Sight {
    ghost use Rattle.server_sockets.specs.Sights.{Seen};
    ghost use Rattle.std.specs.Prelude.{◌<◌, ◌≤◌, ◌^◌};

    ghost Value = { Seen };

    ghost view = { λ s. record { head = s.head; size = s.size; left = s.left; is_first = s.is_first; is_over = s.is_over } };

    ghost invariant = { λ s. (s.head ≤ 3) × (s.size < 256 ^ s.head) };
}

impl Sight {
    /// Nothing was seen yet.
    pub fn new() -> Sight
        ensures { result ≡ new_sight }
    {
        Sight {
            head: 0,
            size: 0,
            left: 0,
            is_first: false,
            is_over: false,
        }
    }

    /// Whether the login is over.
    pub fn is_over(&self) -> bool
        ensures { result ≡ self.now.is_over }
    {
        self.is_over
    }

    /// A byte more of the payload.
    fn see_payload(&mut self, byte: u8)
        requires { self.old.is_over ≡ false × (0 < self.old.left) }
        ensures { self.new ≡ seen_payload self.old byte }
    {
        self.head = 0;
        self.size = 0;
        self.left -= 1;
        self.is_over = self.is_first && byte == 0;
        self.is_first = false;
    }

    /// A byte more of the header.
    fn see_header(&mut self, byte: u8)
        ensures { self.new ≡ seen_header self.old byte }
    {
        self.left = 0;
        self.is_first = false;
        self.is_over = false;
        match self.head {
            0 => self.size = u32::from(byte),
            1 => self.size += 256 * u32::from(byte),
            2 => self.size += 65536 * u32::from(byte),
            _ => {
                self.left = self.size;
                self.is_first = true;
                self.size = 0;
                self.head = 0;
                return;
            }
        }
        self.head += 1;
    }

    /// A byte more.
    fn see_byte(&mut self, byte: u8)
        ensures { self.new ≡ seen_byte self.old byte }
    {
        if self.is_over {
            return;
        }
        if self.left > 0 {
            self.see_payload(byte);
        } else {
            self.see_header(byte);
        }
    }

    /// Bytes more.
    pub fn see(&mut self, bytes: &[u8])
        ensures { self.new ≡ seen self.old bytes.now }
    {
        'bytes: for byte in bytes {
            self.see_byte(*byte);
        }
    }
}
