// The lines of a text, and what each is.
ghost use Rattle.std.specs.Prelude.{◌≡◌, ◌<◌, ◌∷◌, ◌+◌, ◌≤◌, length, MatchOption};
ghost use Rattle.route_table.specs.Lines.{lines, form_of, trim_front, trim_back, trim, is_word, is_blank, trimmed_form, given_form, head_form, plain_form};
ghost use Rattle.std.specs.List.{list_any};
ghost use Rattle.route_table.specs.Seen.{form_seen};

/// What a line of a configuration is.
#[derive(Clone, Copy, Debug)]
pub enum Line<'a> {
    /// Empty, or a comment.
    Nothing,
    /// The head of a section with its name.
    Head(&'a str),
    /// A key and its value.
    Given(&'a str, &'a str),
    /// The end of a section.
    Close,
    /// None of these.
    Wrong,
}

/// The first line of a text, and the text after it.
pub fn first_line(text: &str) -> (&str, &str)
    requires { 0 < length text.now }
    ensures lines { lines text.now ≡ result.0.now ∷ lines result.1.now }
    ensures shorter { length result.1.now < length text.now }
{
    match text.split_once('\n') {
        Some((line, rest)) => (line, rest),
        None => (text, ""),
    }
}

// Without the first byte, where that is a blank.
fn without_first_blank(text: &str) -> Option<&str>
    ensures { MatchOption result
        (trim_front text.now ≡ text.now)
        (λ rest. (trim_front text.now ≡ trim_front rest.now) × (length rest.now < length text.now)) }
{
    match text.strip_prefix(' ') {
        Some(rest) => Some(rest),
        None => text.strip_prefix('\t'),
    }
}

// Without the last byte, where that is a blank.
fn without_last_blank(text: &str) -> Option<&str>
    ensures { MatchOption result
        (trim_back text.now ≡ text.now)
        (λ rest. (trim_back text.now ≡ trim_back rest.now) × (length rest.now < length text.now)) }
{
    match text.strip_suffix(' ') {
        Some(rest) => Some(rest),
        None => text.strip_suffix('\t'),
    }
}

fn trim_front(text: &str) -> &str
    ensures { result.now ≡ trim_front text.now }
{
    let mut rest = text;
    while let Some(shorter) = without_first_blank(rest) {
        rest = shorter;
    }
    rest
}

fn trim_back(text: &str) -> &str
    ensures { result.now ≡ trim_back text.now }
{
    let mut rest = text;
    while let Some(shorter) = without_last_blank(rest) {
        rest = shorter;
    }
    rest
}

fn is_word(text: &str) -> bool
    ensures { result ≡ is_word text.now }
{
    !text.is_empty() && !has_blank(text.as_bytes())
}

fn has_blank(bytes: &[u8]) -> bool
    ensures { result ≡ list_any is_blank bytes.now }
{
    bytes.iter().any(|byte| *byte == b' ' || *byte == b'\t')
}

/// What a line is.
pub fn read_line(line: &str) -> Line<'_>
    ensures { form_seen result ≡ form_of line.now }
{
    trimmed_line(trim_back(trim_front(line)))
}

// What a line without blanks at its ends is.
fn trimmed_line(text: &str) -> Line<'_>
    ensures { form_seen result ≡ trimmed_form text.now }
{
    if text.is_empty() || text.starts_with('#') {
        return Line::Nothing;
    }
    if text == "}" {
        return Line::Close;
    }
    match text.split_once(':') {
        Some((key, value)) => given(key, trim_front(value)),
        None => without_colon(text),
    }
}

// What a line without a colon is, if it is no comment and no end.
fn without_colon(text: &str) -> Line<'_>
    requires { 0 < length text.now }
    ensures { form_seen result ≡ plain_form text.now }
{
    match text.strip_suffix('{') {
        Some(before) => head(trim_back(before), before),
        None => Line::Wrong,
    }
}

fn given<'a>(key: &'a str, value: &'a str) -> Line<'a>
    ensures { form_seen result ≡ given_form key.now value.now }
{
    if is_word(key) && !value.is_empty() {
        Line::Given(key, value)
    } else {
        Line::Wrong
    }
}

fn head<'a>(name: &'a str, before: &str) -> Line<'a>
    ensures { form_seen result ≡ head_form name.now before.now }
{
    if is_word(name) && name.len() < before.len() {
        Line::Head(name)
    } else {
        Line::Wrong
    }
}
