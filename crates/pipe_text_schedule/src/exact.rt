// Lines of a fixed number of words.
ghost use Rattle.std.specs.Prelude.{◌≡◌, ◌≢◌, ◌∷◌, [], length, map, IfSome, IfNone};

pub fn one_word<'a>(words: &[&'a [u8]]) -> Option<&'a [u8]>
    ensures some { IfSome result (λ word. map (λ word. word.now) words.now ≡ word.now ∷ []) }
    ensures none { IfNone result (length words.now ≢ 1) }
{
    if words.len() != 1 {
        return None;
    }
    Some(words[0])
}

pub fn two_words<'a>(words: &[&'a [u8]]) -> Option<(&'a [u8], &'a [u8])>
    ensures some { IfSome result (λ p. map (λ word. word.now) words.now ≡ p.0.now ∷ p.1.now ∷ []) }
    ensures none { IfNone result (length words.now ≢ 2) }
{
    if words.len() != 2 {
        return None;
    }
    Some((words[0], words[1]))
}

pub fn three_words<'a>(words: &[&'a [u8]]) -> Option<(&'a [u8], &'a [u8], &'a [u8])>
    ensures some { IfSome result (λ p. map (λ word. word.now) words.now ≡ p.0.now ∷ p.1.now ∷ p.2.now ∷ []) }
    ensures none { IfNone result (length words.now ≢ 3) }
{
    if words.len() != 3 {
        return None;
    }
    Some((words[0], words[1], words[2]))
}
