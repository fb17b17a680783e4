// The syntax of a label: what source document 000, section 7.1, does not allow, as document 02 has it refused (request 7).
ghost use Rattle.std.specs.Prelude.{◌≡◌, ◌||◌};
ghost use Rattle.labels.specs.Syntax.{count, breaches, has_space, has_comma};

// How often a byte stands in a text.
fn count_of(text: &[u8], wanted: u8) -> usize
    ensures { result ≡ count wanted text.now }
{
    text.iter().filter(|b| **b == wanted).count()
}

// Whether a space or a comma stands in a text: one walk for both.
fn has_separator(text: &[u8]) -> bool
    ensures { result ≡ (has_space text.now || has_comma text.now) }
{
    text.iter().any(|b| *b == b' ' || *b == b',')
}

// Whether a label breaches the syntax of a label.
#[tactic(auto, unfolding(crate::specs::Syntax::breaches))]
pub(crate) fn is_breach(label: &[u8]) -> bool
    ensures { result ≡ breaches label.now }
{
    let at_signs = count_of(label, b'@');
    let long_without_at = (65 <= label.len()) & (at_signs == 0);
    let second_at = 2 <= at_signs;
    let at_first = label.starts_with(b"@");
    let at_last = label.ends_with(b"@");
    has_separator(label) | long_without_at | second_at | at_first | at_last
}
