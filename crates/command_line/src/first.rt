//! Which call the first word asks for.
ghost use Rattle.std.specs.Prelude.{◌≡◌, map, string_bytes, codes};
ghost use Rattle.command_line.specs.First.{begins_with};

/// Whether the first word is this name.
fn begins_with(name: &str, words: &[String]) -> bool
    ensures { result ≡ begins_with name.now (map string_bytes words.now) }
{
    match words {
        [word, ..] => word.as_str() == name,
        [] => false,
    }
}

/// Whether the first of the words, without the program's name, is `serve`.
pub fn is_serve(words: &[String]) -> bool
    ensures { result ≡ begins_with (codes "serve") (map string_bytes words.now) }
{
    begins_with("serve", words)
}

/// Whether the first of the words, without the program's name, is `render`.
pub fn is_render(words: &[String]) -> bool
    ensures { result ≡ begins_with (codes "render") (map string_bytes words.now) }
{
    begins_with("render", words)
}
