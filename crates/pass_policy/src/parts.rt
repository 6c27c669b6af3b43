//! The parts of a text: what stands in it somewhere, without a gap.

ghost use Rattle.std.specs.Prelude.{◌≡◌};
ghost use Rattle.pass_policy.specs.Parts.{has_part};

/// Whether `word` stands somewhere in `text`, without a gap.
pub(crate) fn has_part(word: &[u8], text: &[u8]) -> bool
    ensures { result ≡ has_part word.now text.now }
{
    let mut tail = text;
    while let Some((_, behind)) = tail.split_first() {
        if tail.starts_with(word) {
            return true;
        }
        tail = behind;
    }
    tail.starts_with(word)
}
