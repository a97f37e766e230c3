//! What the words of the command line ask for.
ghost use Rattle.std.specs.Prelude.{◌≡◌, map, IfSome, IfNone, List, ℕ};
ghost use Rattle.std.specs.Option.{option_map};
ghost use Rattle.std.specs.String.{string_bytes};
ghost use Rattle.solo_program.specs.Deciding.{asked_of, asked_of_two, asked_words};
ghost use Rattle.solo_program.specs.Words.{solo_words};

/// The words of `solo CELL SHIFT` after the first.
#[derive(Drop)]
pub struct Asked<'a> {
    pub cell: &'a str,
    pub shift: &'a str,
}

// What a verb and two words ask for.
fn decide_two<'a>(verb: &str, a: &'a str, b: &'a str) -> Option<Asked<'a>>
    ensures { option_map asked_words result ≡ asked_of_two verb.now a.now b.now }
{
    if verb == "solo" {
        Some(Asked { cell: a, shift: b })
    } else {
        None
    }
}

// What the words ask for.
fn decide(words: &[String]) -> Option<Asked<'_>>
    ensures { option_map asked_words result ≡ asked_of (map string_bytes words.now) }
{
    match words {
        [verb, a, b] => decide_two(verb.as_str(), a.as_str(), b.as_str()),
        _ => None,
    }
}

/// What the words ask for, where they are written so.
pub fn asked_in(words: &[String]) -> Option<Asked<'_>>
    ensures written { IfSome result (λ asked. asked_words asked ≡ map string_bytes words.now) }
    ensures none { IfNone result ((cell shift : List ℕ) → solo_words cell shift ≡ map string_bytes words.now → ⊥) }
{
    decide(words)
}
