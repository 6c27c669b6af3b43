//! Draws: the nonces of sessions and the salts and passwords of statements.

ghost use Rattle.server_outside.specs.Telling.{Gave};
ghost use Rattle.sha256_crypt.specs.Alphabet.{IsSaltByte};
ghost use Rattle.std.specs.List.{All};
ghost use Rattle.std.specs.Prelude.{◌≡◌, ℕ, List, Option};

/// Where nonces come from. A draw can't fail.
pub trait Draws {
    // What the draws were made with, as their type tells it.
    ghost Made: { Type 0 };

    ghost made_with: { Self → Made };

    // The draws that were given, the latest last, where they are told.
    ghost given: { Self → Option (List (List ℕ)) };

    /// The next draw: 20 bytes of the alphabet of salts, `./0-9A-Za-z`.
    fn draw(&mut self) -> [u8; 20]
        ensures letters { All IsSaltByte result }
        ensures made { made_with self.new ≡ made_with self.old }
        ensures given { Gave (given self.old) (given self.new) result };
}
