// The fields of a line, one after the other.
ghost use Rattle.std.specs.Prelude.{◌≡◌, [], ◌∷◌, length, MatchOption, eqb, not};
ghost use Rattle.std.specs.List.{position};
ghost use Rattle.obj.specs.Text.{space, fields};
ghost use Rattle.obj_lines.specs.Parts.{IsFirstField};

// The place of the first byte of that kind.
pub fn find(text: &[u8], byte: u8) -> Option<usize>
    ensures { result ≡ position (λ b. eqb b byte) text.now }
{
    text.iter().position(|b| *b == byte)
}

// The place of the first byte that is no space.
fn find_word(text: &[u8]) -> Option<usize>
    ensures { result ≡ position (λ b. not (eqb b space)) text.now }
{
    text.iter().position(|b| *b != b' ')
}

// The first field, and what follows it.
pub fn split_field(text: &[u8]) -> Option<(&[u8], &[u8])>
    ensures { MatchOption result (fields text.now ≡ []) (λ p. IsFirstField text.now p.0.now p.1.now) }
{
    let text = &text[find_word(text)?..];
    let end = find(text, b' ').unwrap_or(text.len());
    Some(text.split_at(end))
}

// The fields of a line that has three.
pub fn three_fields(text: &[u8]) -> Option<(&[u8], &[u8], &[u8])>
    ensures { MatchOption result (length (fields text.now) ≡ 3 → ⊥) (λ p. fields text.now ≡ p.0.now ∷ p.1.now ∷ p.2.now ∷ []) }
{
    let (a, rest) = split_field(text)?;
    let (b, rest) = split_field(rest)?;
    let (c, rest) = split_field(rest)?;
    match split_field(rest) {
        None => Some((a, b, c)),
        Some(_) => None,
    }
}
