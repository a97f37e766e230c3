//! The words of the one command that reads its input while it answers.
ghost use Rattle.std.specs.Prelude.{◌≡◌, ◌∷◌, [], codes, map, IfSome, IfNone, List, ℕ};
ghost use Rattle.std.specs.String.{string_bytes};
ghost use Rattle.command_words.specs.Words.{serve_words, served_words};

/// The words of `serve CELL JOURNAL` after the first.
#[derive(Drop)]
pub struct Served<'a> {
    pub cell: &'a str,
    pub journal: &'a str,
}

// What a verb and two words serve.
fn served_by<'a>(verb: &str, cell: &'a str, journal: &'a str) -> Option<Served<'a>>
    ensures written { IfSome result (λ served. served_words served ≡ verb.now ∷ cell.now ∷ journal.now ∷ []) }
    ensures none { IfNone result (verb.now ≡ codes "serve" → ⊥) }
{
    match verb {
        "serve" => Some(Served { cell, journal }),
        _ => None,
    }
}

/// What the words serve, where they are written so. No other command is written as they are.
pub fn served_in(words: &[String]) -> Option<Served<'_>>
    ensures written { IfSome result (λ served. served_words served ≡ map string_bytes words.now) }
    ensures none { IfNone result ((cell journal : List ℕ) → serve_words cell journal ≡ map string_bytes words.now → ⊥) }
{
    match words {
        [verb, cell, journal] => served_by(verb.as_str(), cell.as_str(), journal.as_str()),
        _ => None,
    }
}
