ghost use Rattle.std.specs.Prelude.{◌≡◌};
ghost use Rattle.fst_lexer.specs.Classes.{continues_name, escaped_character, is_blank, is_digit, is_escape, is_feed, is_long, is_plain, is_quote, is_short, is_upper, starts_name};

/// The signs of one character.
const SHORT_SIGNS: [char; 21] = [
    '!', '?', '+', '-', '*', '&', '{', '}', '(', ')', ':', ',', ';', '.', '=', '@', '~', '\\', '<',
    '>', '|',
];

pub(crate) fn is_blank(c: char) -> bool
    ensures { result ≡ is_blank c }
{
    [' ', '\t', '\r', '\n'].contains(&c)
}

pub(crate) fn is_feed(c: char) -> bool
    ensures { result ≡ is_feed c }
{
    c == '\n'
}

pub(crate) fn is_quote(c: char) -> bool
    ensures { result ≡ is_quote c }
{
    c == '\''
}

pub(crate) fn is_upper(c: char) -> bool
    ensures { result ≡ is_upper c }
{
    c.is_ascii_uppercase()
}

pub(crate) fn starts_name(c: char) -> bool
    ensures { result ≡ starts_name c }
{
    c == '_' || unicode_ident::is_xid_start(c)
}

pub(crate) fn continues_name(c: char) -> bool
    ensures { result ≡ continues_name c }
{
    is_quote(c) || unicode_ident::is_xid_continue(c)
}

pub(crate) fn is_digit(c: char) -> bool
    ensures { result ≡ is_digit c }
{
    c.is_ascii_digit()
}

pub(crate) fn is_plain(c: char) -> bool
    ensures { result ≡ is_plain c }
{
    !['\'', '\\', '\t', '\n', '\r'].contains(&c)
}

pub(crate) fn is_escape(c: char) -> bool
    ensures { result ≡ is_escape c }
{
    ['n', 't', '\\', '\''].contains(&c)
}

/// What a character stands for behind a backslash.
pub(crate) fn escaped_character(c: char) -> char
    ensures { result ≡ escaped_character c }
{
    match c {
        'n' => '\n',
        't' => '\t',
        _ => c,
    }
}

pub(crate) fn is_short(c: char) -> bool
    ensures { result ≡ is_short c }
{
    SHORT_SIGNS.contains(&c)
}

/// Whether two characters are a sign.
pub(crate) fn is_long(a: char, b: char) -> bool
    ensures { result ≡ is_long a b }
{
    (a == '-' && b == '>')
        || (a == '=' && b == '=')
        || (a == '/' && b == '=')
        || (a == '<' && b == '=')
        || (a == '>' && b == '=')
        || (a == '&' && b == '&')
        || (a == '|' && b == '|')
}
